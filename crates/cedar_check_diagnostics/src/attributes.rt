//! Attributes that are not declared, and attributes that may be absent.
use crate::checking::Checking;
use crate::kinds::is_not;
use crate::listing::{add_more, is_listed};
use crate::quoting::Quote;
use crate::spot::Spot;
use crate::type_words::entity_of;
use crate::words::Words;
use crate::written::{written, written_guard};
use base_names::Nearest;
use base_places::Draft;
use cedar_ast_expressions::{Expr, ExprKind, UnaryOperator};
use cedar_check_operators::LentType;
use cedar_schema::{Attribute, RecordType, Schema, Type, TypeKind};
use cedar_value::{Name, Text};
use std::alloc::{AllocError, Global};

// The access to an attribute.
#[derive(Clone, Copy)]
struct Access<'e> {
    operand: &'e Expr,
    key: &'e Text,
}

// The access to this attribute.
fn access_to<'e>(operand: &'e Expr, key: &'e Text) -> Access<'e> {
    Access { operand, key }
}

// The access that an expression is.
fn access_of(expression: &Expr) -> Option<Access<'_>> {
    match expression.kind() {
        ExprKind::Unary(operator, operand) => match operator {
            UnaryOperator::Get(key) => Some(access_to(operand, key)),
            _ => None,
        },
        _ => None,
    }
}

// The attributes of an entity type.
fn shape_of<'t>(schema: &'t Schema, name: &Name) -> Option<&'t RecordType> {
    match schema.attributes(name) {
        Some(shape) => match shape.kind() {
            TypeKind::Record(attributes) => Some(attributes),
            _ => None,
        },
        None => None,
    }
}

// The attributes of a type of the schema.
fn attributes_in<'t>(schema: &'t Schema, ty: &'t Type) -> Option<&'t RecordType> {
    match ty.kind() {
        TypeKind::Record(attributes) => Some(attributes),
        TypeKind::Entity(name) => shape_of(schema, name),
        _ => None,
    }
}

// The attributes of a type.
fn attributes_of<'t>(schema: &'t Schema, ty: &'t LentType<'_>) -> Option<&'t RecordType> {
    match ty {
        LentType::Entity(name) => shape_of(schema, *name),
        LentType::Lent(ty) => attributes_in(schema, *ty),
        LentType::Made(ty) => attributes_in(schema, ty),
        _ => None,
    }
}

// Adds what has the attributes: an entity type, or an expression of few words.
fn add_owner(out: &mut Draft, alloc: Global, operand: &Expr, ty: &LentType<'_>) {
    if let Some(name) = entity_of(ty) {
        out.add_all(&["`", name.as_str(), "`"]);
        return;
    }
    match written(alloc, operand) {
        Some(text) => {
            out.add_char('`');
            out.add_made(text.done());
            out.add_char('`');
        }
        None => out.add("this record"),
    }
}

/// What is said of an attribute that is not declared.
pub(crate) fn absent_words(spot: Spot<'_>, words: &mut Words) -> Result<(), AllocError> {
    let ty = spot.part_type(0)?;
    match (access_of(spot.part), ty) {
        (Some(access), Some(ty)) => {
            lacking_words(spot.checking, words, access.operand, access.key, &ty)
        }
        _ => words.says.add("this attribute is not declared"),
    }
    Ok(())
}

/// What is said of an attribute that the type of an operand does not declare: the attributes that there are, and the nearest one.
pub(crate) fn lacking_words(
    checking: Checking<'_>,
    words: &mut Words,
    operand: &Expr,
    attribute: &Text,
    ty: &LentType<'_>,
) {
    let alloc = checking.alloc;
    let key = attribute.as_str();
    add_owner(&mut words.says, alloc, operand, ty);
    words.says.add_all(&[" has no attribute `", key, "`"]);
    add_owner(&mut words.note, alloc, operand, ty);
    let declared = match attributes_of(checking.schema, ty) {
        Some(attributes) => attributes.attributes(),
        None => &[],
    };
    if declared.is_empty() {
        words.note.add(" has no attributes");
        return;
    }
    words.note.add(" has: ");
    add_names(&mut words.note, declared);
    if let Some(meant) = nearest_in(Nearest::new(key), declared) {
        words.hint_at(meant);
    }
}

// Adds the names of attributes.
fn add_names(note: &mut Draft, declared: &[Attribute]) {
    for (position, attribute) in declared.iter().enumerate() {
        if is_listed(note, position) {
            note.add(attribute.name.as_str());
        }
    }
    add_more(note, declared.len());
}

// The name of the attribute that a search finds the nearest one.
fn nearest_in<'a>(search: Nearest<'_, &'a str>, declared: &'a [Attribute]) -> Option<&'a str> {
    let mut nearest = search;
    for attribute in declared {
        let name = attribute.name.as_str();
        nearest = nearest.compare(name, name);
    }
    nearest.name()
}

// Whether an expression is needed to read a part of it as a Boolean.
fn goes_on(around: &Expr) -> bool {
    match around.kind() {
        ExprKind::Unary(_, _) => true,
        ExprKind::Binary(_, _, _) => true,
        _ => false,
    }
}

// The hint to write this guard of an attribute before the Boolean that the attribute is read for.
fn quote_of(spot: Spot<'_>, guard: &str, key: &str) -> Result<Quote, AllocError> {
    let mut level = spot.path.len();
    let mut path = spot.path;
    let mut goes = true;
    let mut denied = false;
    for around in spot.above.iter().rev() {
        level = level.saturating_sub(1);
        goes = goes && goes_on(*around);
        if goes {
            path = spot.path.get(..level).unwrap_or(spot.path);
        } else {
            denied = denied || is_not(*around);
        }
    }
    Quote::guarded(spot.alloc(), path, guard, key, denied)
}

/// What is said of an attribute that may be absent, where no `has` guards it.
pub(crate) fn optional_words(spot: Spot<'_>, words: &mut Words) -> Result<(), AllocError> {
    let alloc = spot.alloc();
    let Some(access) = access_of(spot.part) else {
        words.says.add("this attribute may be absent");
        return Ok(());
    };
    let key = access.key.as_str();
    match written(alloc, access.operand) {
        Some(operand) => {
            words.says.add_char('`');
            words.says.add_made(operand.done());
            words.says.add_all(&["` may have no `", key, "`"]);
        }
        None => words
            .says
            .add_all(&["the attribute `", key, "` may be absent"]),
    }
    let Some(draft) = written_guard(alloc, access.operand, key) else {
        words
            .hint
            .add("guard it with `has`, for example `x has a && x.a ..`");
        return Ok(());
    };
    let guard = draft.done()?;
    words
        .hint
        .add_all(&["guard it with `", guard.as_str(), " && ..`"]);
    words.quote = Some(quote_of(spot, guard.as_str(), key)?);
    Ok(())
}
