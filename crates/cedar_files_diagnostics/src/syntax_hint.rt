//! What is likely meant by tokens that the grammar does not allow.
use crate::around::Around;
use crate::expected::Expected;
use base_names::Nearest;
use cedar_text::{Token, TokenKind};

/// What is written in place of what Cedar writes, in lower case, and what to do about it.
type Row = (&'static str, &'static str);

// What to write in place of a type without an id.
const ID_MISSING: &str = "an entity is written with its id as a string: `User::\"ann\"`";

// What to do about a condition in a scope.
const AFTER_SCOPE: &str =
    "conditions come after the scope: `permit(principal, action, resource) when { .. };`";

// What to do about what is not a part of a scope.
const THREE_PARTS: &str = "a scope has three parts: `principal, action, resource`";

// What to do about what is between two clauses.
const BETWEEN_CLAUSES: &str =
    "nothing is written between `when` and `unless`: put `&&` or `||` inside of the braces";

// What to do about a test for an attribute.
const HAS: &str = "`x has a` tests whether an attribute is there";

// What to do about patterns.
const LIKE: &str = "write `x like \"abc*\"`";

// What to do about comments of other languages.
const COMMENT: &str = "write a comment after `//`";

// What to do about policies, or a schema, of other languages.
const REGO: &str =
    "this looks like Rego: write a policy as `permit(principal, action, resource) when { .. };`";

const SCHEMA: &str = "this looks like a schema: it goes into the file of `--schema`";

/// Words where a policy begins.
const FIRST_WORDS: [Row; 17] = [
    ("allow", "write `permit`"),
    ("grant", "write `permit`"),
    ("accept", "write `permit`"),
    ("deny", "write `forbid`"),
    ("block", "write `forbid`"),
    ("reject", "write `forbid`"),
    ("prohibit", "write `forbid`"),
    ("forbidden", "write `forbid`"),
    (
        "when",
        "`when` comes after the scope and before the `;` of its policy",
    ),
    (
        "unless",
        "`unless` comes after the scope and before the `;` of its policy",
    ),
    ("package", REGO),
    ("import", REGO),
    ("default", REGO),
    ("namespace", SCHEMA),
    ("entity", SCHEMA),
    ("action", SCHEMA),
    ("type", SCHEMA),
];

/// Words where a clause may begin.
const CLAUSE_WORDS: [Row; 6] = [
    ("where", "write `when`"),
    ("if", "write `when`"),
    ("except", "write `unless`"),
    ("and", BETWEEN_CLAUSES),
    ("or", BETWEEN_CLAUSES),
    ("else", "write one policy for each case"),
];

/// Words after an operand.
const INFIX_WORDS: [Row; 24] = [
    ("and", "write `&&` instead of `and`"),
    ("or", "write `||` instead of `or`"),
    ("not", "write `!` instead of `not`"),
    ("notin", "write `!(x in y)`"),
    ("eq", "write `==`"),
    ("equals", "write `==`"),
    ("ne", "write `!=`"),
    ("gt", "write `>`"),
    ("ge", "write `>=`"),
    ("lt", "write `<`"),
    ("le", "write `<=`"),
    ("between", "write `x >= 1 && x <= 9`"),
    ("contains", "write `x.contains(y)`"),
    ("startswith", LIKE),
    ("endswith", LIKE),
    ("matches", LIKE),
    ("isa", "write `x is User`"),
    ("instanceof", "write `x is User`"),
    ("like", "write `like`"),
    ("has", "write `has`"),
    ("in", "write `in`"),
    ("is", "write `is`"),
    ("elseif", "write `else if`"),
    ("elif", "write `else if`"),
];

/// Names that are not those of variables.
const NAMES: [Row; 8] = [
    ("not", "write `!` instead of `not`"),
    ("null", NULL),
    ("nil", NULL),
    ("none", NULL),
    ("undefined", NULL),
    ("exists", HAS),
    ("defined", HAS),
    ("return", "write the expression alone"),
];

const NULL: &str = "there is no null: `x has a` tests whether an attribute is there";

/// Two tokens side by side.
const PAIRS: [(&str, &str, &str); 4] = [
    ("<", ">", "write `!=`"),
    ("-", ">", "write `x.a`"),
    ("*", "*", "there is no power: write `x * x`"),
    ("+", "+", "write `x + 1`"),
];

// What a table says of a word, in upper or lower case.
fn meant_in(table: &[Row], word: &str) -> Option<&'static str> {
    let row = table.iter().find(|row| row.0.eq_ignore_ascii_case(word))?;
    Some(row.1)
}

/// What is likely meant by a name that is not one of a variable.
pub(crate) fn meant_by_name(around: Around<'_>, name: &str) -> &'static str {
    if around.is_second(TokenKind::Minus) && around.is_third(TokenKind::Minus) {
        return COMMENT;
    }
    meant_in(&NAMES, name)
        .or_else(|| nearest_variable(name))
        .unwrap_or(meant_by_other(name))
}

// What is likely meant by a name that is near to no variable: a type where it begins with a capital letter.
fn meant_by_other(name: &str) -> &'static str {
    if name.starts_with(|letter: char| letter.is_ascii_uppercase()) {
        ID_MISSING
    } else {
        "the variables are `principal`, `action`, `resource` and `context`; a string has double quotes"
    }
}

// The variable or truth with the nearest name.
fn nearest_variable(name: &str) -> Option<&'static str> {
    Nearest::new(name)
        .compare("principal", "did you mean `principal`?")
        .compare("action", "did you mean `action`?")
        .compare("resource", "did you mean `resource`?")
        .compare("context", "did you mean `context`?")
        .compare("true", "did you mean `true`?")
        .compare("false", "did you mean `false`?")
        .name()
}

/// What is likely meant by the tokens around a place that allows other ones; or none.
pub(crate) fn meant_by_tokens(around: Around<'_>, expected: &Expected) -> Option<&'static str> {
    let here = around.here?;
    if expected.begins_policy() {
        return meant_at_beginning(here);
    }
    if expected.begins_clause() {
        return meant_at_clause(here);
    }
    meant_by_pair(around)
        .or_else(|| meant_by_word(around, expected))
        .or_else(|| meant_in_scope(around, expected))
        .or_else(|| meant_after_operand(around, expected))
        .or_else(|| meant_by_neighbours(around, expected))
}

// What is likely meant where a statement begins: the text is in another language, or a word is misspelt.
fn meant_at_beginning(here: Token<'_>) -> Option<&'static str> {
    match here.kind {
        TokenKind::LeftBrace | TokenKind::LeftBracket => Some(
            "this looks like JSON: a policy file has policies as text, such as `permit(principal, action, resource);`",
        ),
        TokenKind::Semicolon => Some("remove this `;`"),
        TokenKind::Minus | TokenKind::Less | TokenKind::Star => Some(COMMENT),
        TokenKind::String => Some("write the id of a policy as an annotation: `@id(\"..\")`"),
        TokenKind::Identifier => Some(
            meant_in(&FIRST_WORDS, here.text)
                .or_else(|| nearest_effect(here.text))
                .unwrap_or("a policy begins with `permit` or `forbid`"),
        ),
        _ => None,
    }
}

fn nearest_effect(word: &str) -> Option<&'static str> {
    Nearest::new(word)
        .compare("permit", "did you mean `permit`?")
        .compare("forbid", "did you mean `forbid`?")
        .name()
}

// What is likely meant where a clause or the end of a policy comes.
fn meant_at_clause(here: Token<'_>) -> Option<&'static str> {
    match here.kind {
        TokenKind::AndAnd | TokenKind::OrOr => Some(BETWEEN_CLAUSES),
        TokenKind::Comma => Some("remove the `,`: a policy ends with `;`"),
        _ => meant_in(&CLAUSE_WORDS, here.text).or_else(|| nearest_clause(here.text)),
    }
}

fn nearest_clause(word: &str) -> Option<&'static str> {
    Nearest::new(word)
        .compare("when", "did you mean `when`?")
        .compare("unless", "did you mean `unless`?")
        .name()
}

// What is likely meant by two tokens side by side.
fn meant_by_pair(around: Around<'_>) -> Option<&'static str> {
    let before = around.before?.text;
    let here = around.here?.text;
    let row = PAIRS.iter().find(|row| row.0 == before && row.1 == here)?;
    Some(row.2)
}

// What is likely meant by a word: one of another language, or a reserved one.
fn meant_by_word(around: Around<'_>, expected: &Expected) -> Option<&'static str> {
    let here = around.here?;
    let is_operand = around.is_before(TokenKind::Dot) || expected.allows("1");
    match here.kind {
        TokenKind::Identifier if expected.allows("&&") => meant_in(&INFIX_WORDS, here.text),
        TokenKind::Is if is_operand => Some("write `x is User`: `is` is an operator"),
        TokenKind::Has if is_operand => Some("write `x has name`: `has` is an operator"),
        TokenKind::Like if is_operand => Some("write `x like \"a*\"`: `like` is an operator"),
        TokenKind::In if is_operand => Some("write `x in y`: `in` is an operator"),
        TokenKind::True | TokenKind::False | TokenKind::If | TokenKind::Then | TokenKind::Else
            if around.is_before(TokenKind::Dot) => {
            Some("the word is reserved: write `[\"if\"]` for an attribute of this name")
        }
        TokenKind::True | TokenKind::False | TokenKind::If | TokenKind::Then | TokenKind::Else
            if expected.wants_key() => Some("the word is reserved: write it in quotes"),
        _ => None,
    }
}

// What is likely meant in a scope.
fn meant_in_scope(around: Around<'_>, expected: &Expected) -> Option<&'static str> {
    let here = around.here?;
    if expected.wants_variable() {
        return Some(meant_by_variable(here.text, expected));
    }
    if expected.allows("(") && around.is_before_text(&["permit", "forbid"]) {
        return Some("write `permit(principal, action, resource)`");
    }
    if expected.wants_uid() {
        return meant_by_entity(here.kind, expected);
    }
    let ends_part = expected.allows(",") || expected.allows(")");
    if around.is_before(TokenKind::Identifier)
        && expected.allows("::")
        && !expected.allows("&&")
        && !ends_part
    {
        return Some(ID_MISSING);
    }
    if ends_part && !expected.allows("&&") {
        return meant_at_part_end(around, here, expected);
    }
    None
}

// What is likely meant by a word in place of a variable of a scope: one that is near, or another order.
fn meant_by_variable(word: &str, expected: &Expected) -> &'static str {
    let rows = [
        ("principal", "did you mean `principal`?"),
        ("action", "did you mean `action`?"),
        ("resource", "did you mean `resource`?"),
    ];
    let mut nearest = Nearest::new(word);
    for row in rows {
        if expected.allows(row.0) {
            nearest = nearest.compare(row.0, row.1);
        }
    }
    nearest.name().unwrap_or(THREE_PARTS)
}

// What is likely meant by a token where an entity comes.
fn meant_by_entity(here: TokenKind, expected: &Expected) -> Option<&'static str> {
    match here {
        TokenKind::String => Some("an entity is written with its type: `User::\"ann\"`"),
        TokenKind::Slot => Some("the slots are `?principal` and `?resource`"),
        TokenKind::LeftBrace if expected.allows("?principal") => Some(
            "the slots of templates are `?principal` and `?resource`",
        ),
        TokenKind::LeftParen | TokenKind::LeftBrace if expected.allows("[") => {
            Some("a list has square brackets: `action in [..]`")
        }
        TokenKind::LeftBracket => Some(
            "a list comes after `action in` alone: write `x in A || x in B` in a condition",
        ),
        TokenKind::RightBracket => Some("remove the `,` before it"),
        _ => None,
    }
}

// What is likely meant where a part of a scope may end.
fn meant_at_part_end(
    around: Around<'_>,
    here: Token<'_>,
    expected: &Expected,
) -> Option<&'static str> {
    match here.kind {
        TokenKind::Dot if expected.allows("::") => Some("write `::` after a namespace"),
        TokenKind::AndAnd
        | TokenKind::OrOr
        | TokenKind::NotEqual
        | TokenKind::Less
        | TokenKind::LessEqual
        | TokenKind::Greater
        | TokenKind::GreaterEqual
        | TokenKind::Has
        | TokenKind::Like
        | TokenKind::Dot => Some(AFTER_SCOPE),
        TokenKind::Is => Some("`is` comes before `in`, and not after `action`"),
        TokenKind::Colon => Some("write `principal is User` or `principal == User::\"ann\"`"),
        TokenKind::RightParen if expected.allows("==") => Some(THREE_PARTS),
        TokenKind::Semicolon if expected.allows(",") => Some(
            "write `,` between the parts of a scope",
        ),
        TokenKind::Comma if around.is_second(TokenKind::LeftParen) => {
            Some("an annotation has one value")
        }
        TokenKind::Comma => Some("remove the `,`: a scope has three parts"),
        TokenKind::Identifier if expected.allows(",") => match here.text {
            "action" | "resource" => Some("a `,` is missing before it"),
            _ => meant_in(&[("and", AFTER_SCOPE), ("or", AFTER_SCOPE)], here.text),
        },
        _ => None,
    }
}

// What is likely meant after an operand of a condition.
fn meant_after_operand(around: Around<'_>, expected: &Expected) -> Option<&'static str> {
    let here = around.here?;
    if !expected.allows("&&") {
        return None;
    }
    match here.kind {
        TokenKind::Semicolon if expected.allows("}") && !expected.allows(",") => Some(
            "a `;` ends a policy: it comes after the last `}`",
        ),
        TokenKind::Comma if expected.allows("}") => Some("write `&&` between conditions"),
        TokenKind::Comma if expected.allows(")") => Some("a set has square brackets: `[1, 2]`"),
        TokenKind::Not if expected.allows("like") => Some("write `!(x in y)`: `!` comes first"),
        TokenKind::Equal
        | TokenKind::NotEqual
        | TokenKind::Less
        | TokenKind::LessEqual
        | TokenKind::Greater
        | TokenKind::GreaterEqual => Some("write `a < b && b < c`: comparisons do not chain"),
        TokenKind::Then | TokenKind::Else => Some("write `if a then b else c`"),
        TokenKind::Dot if around.is_second(TokenKind::Has) => Some(
            "write `x has a.b`, without quotes",
        ),
        TokenKind::String if around.is_second(TokenKind::Dot) => {
            Some("write `x.contains(y)`: arguments are in brackets")
        }
        TokenKind::Identifier => meant_by_next(around, here),
        _ => None,
    }
}

// What is likely meant by a word directly after an operand.
fn meant_by_next(around: Around<'_>, here: Token<'_>) -> Option<&'static str> {
    if around.is_before(TokenKind::Number) && around.end() == here.start() {
        return Some("a number has decimal digits alone");
    }
    if around.is_second(TokenKind::Is) && around.is_before_text(&["not"]) {
        return Some("write `!(x is User)`");
    }
    match here.text {
        "when" | "unless" => Some("a `}` is missing before it"),
        "principal" | "action" | "resource" | "context" => Some("a `&&` is missing before it"),
        _ => None,
    }
}

// What is likely meant by a token after its neighbours.
fn meant_by_neighbours(around: Around<'_>, expected: &Expected) -> Option<&'static str> {
    if around.is_second(TokenKind::At) && around.is_here(TokenKind::Minus) {
        return Some("the name of an annotation is one word, with `_` in place of `-`");
    }
    if around.is_second(TokenKind::At) && expected.allows("(") {
        return Some("an annotation has a value: write `@id(\"..\")`");
    }
    if around.is_second(TokenKind::LeftBrace) && expected.allows(":") {
        return Some("`{` in a condition begins a record: write it once after `when`");
    }
    match around.here?.kind {
        TokenKind::RightParen | TokenKind::RightBracket | TokenKind::RightBrace
            if around.is_before(TokenKind::Comma) => Some("remove the `,` before it"),
        TokenKind::LeftBracket if around.is_before(TokenKind::Is) => Some(
            "one type comes after `is`: write `x is A || x is B` in a condition",
        ),
        TokenKind::String if around.is_before(TokenKind::Is) => Some(
            "a type has no quotes: write `x is User`",
        ),
        TokenKind::String if around.is_before(TokenKind::DoubleColon) => Some(
            "`is` takes a type: write `x == User::\"ann\"` for one entity",
        ),
        TokenKind::DoubleColon | TokenKind::Colon if around.is_before(TokenKind::String) => {
            Some("a type has no quotes: write `User::\"ann\"`")
        }
        TokenKind::Number if around.is_before(TokenKind::Dot) => Some(
            "write a number with a point as `decimal(\"1.5\")`",
        ),
        TokenKind::Number if around.is_before(TokenKind::LeftBracket) => Some(
            "a set has no order: `x.contains(y)` asks for a member",
        ),
        TokenKind::Number if around.is_before(TokenKind::LeftBrace) => Some(
            "a record has names as keys; a set has square brackets",
        ),
        TokenKind::Slot => Some("the slots are `?principal` and `?resource`"),
        _ => None,
    }
}
