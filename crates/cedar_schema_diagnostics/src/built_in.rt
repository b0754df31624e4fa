//! Built-in types.
use base_names::Nearest;

/// The names of the built-in types.
const BUILT_IN: [&str; 7] = [
    "Long",
    "String",
    "Boolean",
    "Set",
    "Record",
    "Entity",
    "Extension",
];

/// Whether a text is the name of a built-in type.
pub(crate) fn is_built_in(text: &str) -> bool {
    for name in BUILT_IN {
        if name == text {
            return true;
        }
    }
    false
}

/// The built-in type that is likely meant by the name of a type, or none.
pub(crate) fn meant_built_in(text: &str) -> Option<&'static str> {
    match text {
        "Int" | "Integer" | "int" | "integer" | "Number" | "number" => Some("Long"),
        "Bool" | "bool" => Some("Boolean"),
        "List" | "list" | "Array" | "array" => Some("Set"),
        "Object" | "object" | "Map" | "map" | "Struct" | "struct" => Some("Record"),
        "Text" | "text" | "Str" | "str" | "UUID" | "uuid" => Some("String"),
        _ => near_built_in(text),
    }
}

// `Set` has so few letters that only its case may differ.
fn near_built_in(text: &str) -> Option<&'static str> {
    let mut nearest = Nearest::new(text);
    for name in BUILT_IN {
        if name != "Set" || text.eq_ignore_ascii_case(name) {
            nearest = nearest.compare(name, name);
        }
    }
    nearest.name()
}
