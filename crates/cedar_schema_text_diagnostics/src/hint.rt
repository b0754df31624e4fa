//! What is likely meant where the grammar of schemas does not allow what is there.
use crate::around::Around;
use crate::characters::meant_by_piece;
use crate::expected::{Expected, NAME, STRING};
use crate::hint_of_declaration::meant_for_declaration;
use crate::hint_of_end::meant_for_end;
use crate::hint_of_list::{meant_for_applies, meant_in_list};
use crate::hint_of_type::{meant_for_colon, meant_for_type, meant_for_type_names};
use crate::piece::PieceKind;

/// What is likely meant at a place of a text, or none.
pub(crate) fn meant(text: &str, around: Around<'_>, expected: &Expected) -> Option<&'static str> {
    if let Some(here) = around.here
        && matches!(here.kind, PieceKind::Unclosed | PieceKind::Other)
    {
        return meant_by_piece(text, here);
    }
    if expected.is_nothing() {
        return meant_for_nothing(around);
    }
    meant_for_annotation(around).or_else(|| meant_for(around, expected))
}

// What is meant where nothing is allowed.
fn meant_for_nothing(around: Around<'_>) -> Option<&'static str> {
    let is_type = around.follows(":") || around.follows("<");
    is_type.then_some("a type has at most 100 levels")
}

// What is meant after the name of an annotation.
fn meant_for_annotation(around: Around<'_>) -> Option<&'static str> {
    let is_value = around.is_here(PieceKind::String) || around.sees("=") || around.sees(":");
    if around.follows_second("@") && is_value {
        return Some("an annotation has its value in brackets: `@doc(\"..\")`");
    }
    if around.follows("(") {
        return Some("the value of an annotation is a string");
    }
    None
}

// What is meant where this is expected.
fn meant_for(around: Around<'_>, expected: &Expected) -> Option<&'static str> {
    if expected.begins_declaration() {
        meant_for_declaration(around)
    } else if expected.allows(";") {
        meant_for_end(around, expected)
    } else if expected.wants_type() {
        meant_for_type(around)
    } else if expected.wants_type_names() {
        meant_for_type_names(around)
    } else if expected.allows(":") {
        meant_for_colon(around)
    } else if expected.goes_on_or_closes() {
        meant_in_list(around)
    } else if expected.wants_applies() {
        meant_for_applies(around)
    } else {
        meant_for_one(around, expected)
    }
}

// What is meant where one thing is expected.
fn meant_for_one(around: Around<'_>, expected: &Expected) -> Option<&'static str> {
    if expected.allows("=") {
        Some("write `type Name = ..;`")
    } else if expected.allows("{") {
        meant_for_brace(around)
    } else if expected.allows("[") {
        Some("write `enum [\"red\", \"green\"]`")
    } else if expected.allows(STRING) && !expected.allows(NAME) {
        meant_for_id(around)
    } else if expected.allows(NAME) && around.is_here(PieceKind::String) {
        Some("write the name of a type without quotes")
    } else if around.is_opened_by("attributes") {
        Some("an action has no attributes of its own: leave out `attributes`")
    } else {
        None
    }
}

// What is meant where a brace has to open.
fn meant_for_brace(around: Around<'_>) -> Option<&'static str> {
    if around.is_in("namespace") {
        Some("the declarations of a namespace are in braces: `namespace Shop { .. }`")
    } else if around.follows("appliesTo") {
        Some("write `appliesTo { principal: [..], resource: [..] }`")
    } else if around.follows("attributes") {
        Some("an action has no attributes of its own: leave out `attributes`")
    } else if around.is_in("entity") {
        Some("the attributes of an entity type are in braces: `entity User = { name: String };`")
    } else {
        None
    }
}

// What is meant where an id of an enumeration has to be.
fn meant_for_id(around: Around<'_>) -> Option<&'static str> {
    if around.sees("]") {
        Some("an enumeration has one id at least")
    } else if around.is_opened_by("enum") {
        Some("the ids of an enumeration are strings: write them in double quotes")
    } else {
        None
    }
}
