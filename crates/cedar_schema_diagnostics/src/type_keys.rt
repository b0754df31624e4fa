//! The keys that types may have.
use crate::annotations::refused_annotations;
use crate::built_in::{is_built_in, meant_built_in};
use crate::keys::{has_key, unknown_key};
use crate::left_out::{ANNOTATIONS, WITHOUT_ANNOTATIONS, entity_or_common};
use crate::part::{Refusal, at, part_of, remembered};
use crate::step::Step;
use crate::text::{joined, shown};
use cedar_ext::Language;
use cedar_schema_json::Position;
use serde_json::{Map, Value};
use std::alloc::{AllocError, Global};

static PLAIN_KEYS: [&str; 1] = ["type"];

static SET_KEYS: [&str; 2] = ["type", "element"];

static RECORD_KEYS: [&str; 3] = ["type", "attributes", "additionalAttributes"];

static NAMED_KEYS: [&str; 2] = ["type", "name"];

static PLAIN_ATTRIBUTE_KEYS: [&str; 2] = ["type", "required"];

static SET_ATTRIBUTE_KEYS: [&str; 3] = ["type", "element", "required"];

static RECORD_ATTRIBUTE_KEYS: [&str; 4] = [
    "type",
    "attributes",
    "additionalAttributes",
    "required",
];

static NAMED_ATTRIBUTE_KEYS: [&str; 3] = ["type", "name", "required"];

// The keys of a type, or of an attribute of the type, without annotations.
fn keys_of(language: Language, text: &str, position: Position) -> &'static [&'static str] {
    let text = match language {
        Language::Cedar4 if text == "EntityOrCommon" => "Entity",
        _ => text,
    };
    match position {
        Position::Attribute => keys_of_attribute(text),
        Position::Inner | Position::CommonType => keys_of_type(text),
    }
}

fn keys_of_type(text: &str) -> &'static [&'static str] {
    match text {
        "Set" => &SET_KEYS,
        "Record" => &RECORD_KEYS,
        "Entity" | "Extension" => &NAMED_KEYS,
        _ => &PLAIN_KEYS,
    }
}

fn keys_of_attribute(text: &str) -> &'static [&'static str] {
    match text {
        "Set" => &SET_ATTRIBUTE_KEYS,
        "Record" => &RECORD_ATTRIBUTE_KEYS,
        "Entity" | "Extension" => &NAMED_ATTRIBUTE_KEYS,
        _ => &PLAIN_ATTRIBUTE_KEYS,
    }
}

/// The first key that a type, or an attribute of the type, may not have (302), or none.
pub(crate) fn refused_type_keys(
    alloc: Global,
    language: Language,
    members: &Map<String, Value>,
    text: &str,
    position: Position,
) -> Option<Refusal> {
    let has_annotations = language == Language::Cedar4 && position != Position::Inner;
    for (key, value) in members.iter() {
        if has_annotations && key.as_str() == "annotations" {
            let found = refused_annotations(alloc, value);
            if found.is_some() {
                return at(alloc, Step::Key("annotations"), found);
            }
        } else if !has_key(keys_of(language, text, position), key.as_str()) {
            return refused_type_key(alloc, language, text, key.as_str(), position);
        }
    }
    None
}

fn refused_type_key(
    alloc: Global,
    language: Language,
    text: &str,
    key: &str,
    position: Position,
) -> Option<Refusal> {
    if language == Language::Profile && text == "EntityOrCommon" && key == "name" {
        return entity_or_common(alloc);
    }
    let found = match key {
        "annotations" if language == Language::Profile => {
            part_of(alloc, &[ANNOTATIONS], &[WITHOUT_ANNOTATIONS])
        }
        "annotations" => part_of(
            alloc,
            &["only a definition and an attribute of a record have annotations"],
            &["remove `annotations`"],
        ),
        "required" => part_of(
            alloc,
            &["only an attribute of a record has `required`"],
            &["remove `required`"],
        ),
        _ => remembered(alloc, other_key(alloc, language, text, key, position)),
    };
    at(alloc, Step::Key(key), found)
}

fn other_key(
    alloc: Global,
    language: Language,
    text: &str,
    key: &str,
    position: Position,
) -> Result<Option<Refusal>, AllocError> {
    let what = joined(alloc, &["the type `", shown(text), "`"]).done()?;
    let Some(meant) = meant_with_key(text, key) else {
        let keys = keys_of(language, text, position);
        return Ok(Some(unknown_key(alloc, what.as_str(), key, keys)));
    };
    Ok(part_of(
        alloc,
        &[what.as_str(), " has no key `", shown(key), "`"],
        &["did you mean the type `", shown(meant), "`?"],
    ))
}

// The built-in type that is likely meant by another name, if it has the key.
fn meant_with_key(text: &str, key: &str) -> Option<&'static str> {
    if is_built_in(text) {
        return None;
    }
    match meant_built_in(text) {
        Some(meant) if has_key(keys_of_attribute(meant), key) => Some(meant),
        _ => None,
    }
}
