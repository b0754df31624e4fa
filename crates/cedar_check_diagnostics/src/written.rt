//! Short expressions as they are written.
use base_places::Draft;
use cedar_ast_expressions::{Expr, ExprKind, UnaryOperator, Variable};
use cedar_value::{Name, Uid, ValueKind};
use std::alloc::Global;

// How many bytes of an expression are written at most.
const MOST_WRITTEN: usize = 60;

// The words that are not identifiers (Cedar language reference, policy grammar).
const RESERVED: [&str; 9] = [
    "true", "false", "if", "then", "else", "in", "is", "like", "has",
];

// The name of a variable.
fn name_of(variable: Variable) -> &'static str {
    match variable {
        Variable::Principal => "principal",
        Variable::Action => "action",
        Variable::Resource => "resource",
        Variable::Context => "context",
    }
}

// Whether the text is an identifier.
fn is_identifier(text: &str) -> bool {
    for (place, byte) in text.as_bytes().iter().enumerate() {
        let letter = byte.is_ascii_alphabetic() || *byte == b'_';
        if !letter && (place == 0 || !byte.is_ascii_digit()) {
            return false;
        }
    }
    !text.is_empty() && !RESERVED.contains(&text)
}

// Whether the text needs no escape between quotes.
fn is_plain(text: &str) -> bool {
    for byte in text.as_bytes() {
        if *byte < 32 || *byte > 126 || *byte == b'"' || *byte == b'\\' {
            return false;
        }
    }
    true
}

// Adds a text between quotes. Returns whether it needs no escape there.
fn add_quoted(out: &mut Draft, text: &str) -> bool {
    let plain = text.len() <= MOST_WRITTEN && is_plain(text);
    if plain {
        out.add_all(&["\"", text, "\""]);
    }
    plain
}

// Adds a uid. Returns whether its id needs no escape.
fn add_plain_uid(out: &mut Draft, uid: &Uid) -> bool {
    out.add_all(&[uid.ty.as_str(), "::"]);
    add_quoted(out, uid.id.as_str())
}

/// Adds an id as a policy writes it, with `..` for one that is long or needs escapes.
pub(crate) fn add_id(out: &mut Draft, id: &str) {
    if !add_quoted(out, id) {
        out.add("\"..\"");
    }
}

/// Adds the uid of a type and an id as a policy writes it, with `..` for an id that is long or needs escapes.
pub(crate) fn add_uid_of(out: &mut Draft, ty: &Name, id: &str) {
    out.add_all(&[ty.as_str(), "::"]);
    add_id(out, id);
}

/// Adds a uid as a policy writes it, with `..` for an id that is long or needs escapes.
pub(crate) fn add_uid(out: &mut Draft, uid: &Uid) {
    add_uid_of(out, &uid.ty, uid.id.as_str());
}

// Adds `.key`, or `["key"]`. Returns whether the key can be written.
fn add_access(out: &mut Draft, key: &str) -> bool {
    if is_identifier(key) {
        out.add_all(&[".", key]);
        return true;
    }
    out.add_char('[');
    let plain = add_quoted(out, key);
    out.add_char(']');
    plain
}

// Adds `has key`. Returns whether the key can be written.
fn add_has(out: &mut Draft, key: &str) -> bool {
    out.add(" has ");
    if is_identifier(key) {
        out.add(key);
        return true;
    }
    add_quoted(out, key)
}

// Adds a variable, a uid, or an attribute of such. Returns whether it is one and can be written.
fn add_member(out: &mut Draft, expression: &Expr) -> bool {
    match expression.kind() {
        ExprKind::Variable(variable) => {
            out.add(name_of(*variable));
            true
        }
        ExprKind::Literal(value) => match value.kind() {
            ValueKind::Uid(uid) => add_plain_uid(out, uid),
            _ => false,
        },
        ExprKind::Unary(operator, operand) => match operator {
            UnaryOperator::Get(key) => add_member(out, operand) && add_access(out, key.as_str()),
            _ => false,
        },
        _ => false,
    }
}

// What was added, where it can be written and has few words.
fn if_short(out: Draft, written: bool) -> Option<Draft> {
    if written && out.as_str().len() <= MOST_WRITTEN {
        Some(out)
    } else {
        None
    }
}

/// An expression as a policy writes it, where it has few words: a variable, a uid, or an attribute of such. None for another
/// expression. So it is the same in an `unless` and after a `!`.
pub(crate) fn written(alloc: Global, expression: &Expr) -> Option<Draft> {
    let mut out = Draft::new(alloc);
    let written = add_member(&mut out, expression);
    if_short(out, written)
}

/// `OPERAND has KEY` as a policy writes it, where it has few words.
pub(crate) fn written_guard(alloc: Global, operand: &Expr, key: &str) -> Option<Draft> {
    let mut out = Draft::new(alloc);
    let written = add_member(&mut out, operand) && add_has(&mut out, key);
    if_short(out, written)
}
