//! What is likely meant where a type is, or before it.
use crate::around::Around;
use crate::piece::PieceKind;

/// What to do about a list of another language.
const SET: &str = "write `Set<String>` for a set";

/// What is likely meant where a type is expected, or none.
pub(crate) fn meant_for_type(around: Around<'_>) -> Option<&'static str> {
    if around.is_here(PieceKind::String) {
        return Some("write a type without quotes: `String`");
    }
    match around.here?.text {
        "[" => Some(SET),
        "," | "}" | ";" | ">" | "?" => Some("a type is missing before it"),
        _ => None,
    }
}

/// What is likely meant where the names of types are expected, or none.
pub(crate) fn meant_for_type_names(around: Around<'_>) -> Option<&'static str> {
    if around.is_here(PieceKind::String) {
        return Some("write the name of a type without quotes");
    }
    match around.here?.text {
        "{" | "(" | "<" => Some("write several types in square brackets: `[User, Team]`"),
        "," | "}" | ";" => Some("the name of a type is missing before it"),
        _ => None,
    }
}

/// What is likely meant between a name and its type, or none.
pub(crate) fn meant_for_colon(around: Around<'_>) -> Option<&'static str> {
    let here = around.here?;
    match here.text {
        "=" | "{" | "[" => Some("write a `:` between a name and its type"),
        "," | "}" | ";" => Some("an attribute has a type: `name: String`"),
        _ if here.is_name() => Some("write a `:` between a name and its type"),
        _ => None,
    }
}

/// What is likely meant by what follows a type, or none.
pub(crate) fn meant_after_type(around: Around<'_>) -> Option<&'static str> {
    match around.here?.text {
        "?" => Some("write the `?` after the name: `name?: String`"),
        "::" => Some("after `::` comes a name"),
        "(" | "[" => Some(SET),
        "<" if around.follows("Set") => None,
        "<" => Some("only `Set` has a type in `<` and `>`"),
        _ if around.follows("Set") => Some(SET),
        _ => None,
    }
}
