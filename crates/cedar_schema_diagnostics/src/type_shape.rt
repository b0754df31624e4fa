//! The shape of the JSON of one type, without the types in it.
use crate::built_in::meant_built_in;
use crate::keys::{refused_object, refused_text};
use crate::kinds::kind_of;
use crate::part::{Refusal, at, part_of};
use crate::step::Step;
use crate::text::{is_plain, shown};
use crate::type_keys::refused_type_keys;
use base_names::apart;
use cedar_ext::Language;
use cedar_schema_json::Position;
use serde_json::{Map, Value};
use std::alloc::Global;

/// How sets are written.
pub(crate) const SET: &str =
    "write {\"type\":\"Set\",\"element\":{\"type\":\"String\"}}, or the type of the members";

// How records are written.
const RECORD: &str =
    "write {\"type\":\"Record\",\"attributes\":{..}}, with the names as keys in `attributes`";

// How a type is written.
const ANY_TYPE: &str = "write {\"type\":\"String\"}, or another type";

/// Why the JSON of a type, or of an attribute, has another shape than the format allows (302), or none. The types in it are not looked
/// at.
pub(crate) fn refused_shape(
    alloc: Global,
    language: Language,
    json: &Value,
    position: Position,
) -> Option<Refusal> {
    let Some(members) = json.as_object() else {
        return refused_kind(alloc, json);
    };
    if position == Position::Attribute {
        let found = refused_truth(alloc, json, "required", "true or false");
        if found.is_some() {
            return found;
        }
    }
    match json.get("type") {
        Some(Value::String(text)) => {
            refused_members(alloc, language, json, members, text.as_str(), position)
        }
        Some(other) => {
            let found = part_of(alloc, &["expected a string, found ", kind_of(other)], &[]);
            at(alloc, Step::Key("type"), found)
        }
        None => without_type(alloc, json, members),
    }
}

// A type that is not an object.
fn refused_kind(alloc: Global, json: &Value) -> Option<Refusal> {
    let says = ["a type must be an object, not ", kind_of(json)];
    match json.as_str() {
        Some(text) if is_plain(text) => {
            let name = meant_built_in(text).unwrap_or(text);
            part_of(alloc, &says, &["write {\"type\":\"", shown(name), "\"}"])
        }
        _ if json.is_array() => part_of(alloc, &says, &[SET]),
        _ => part_of(alloc, &says, &[ANY_TYPE]),
    }
}

// What to do about a type without the key `type`: it is misspelt, or what is written are the attributes of a record.
fn without_type(alloc: Global, json: &Value, members: &Map<String, Value>) -> Option<Refusal> {
    let says = ["a type needs the key `type`"];
    if json.get("attributes").is_some() {
        return part_of(
            alloc,
            &says,
            &["write \"type\":\"Record\" beside `attributes`"],
        );
    }
    if json.get("element").is_some() {
        return part_of(alloc, &says, &["write \"type\":\"Set\" beside `element`"]);
    }
    if members
        .iter()
        .any(|(key, _)| apart(key.as_str(), "type").is_some())
    {
        return part_of(alloc, &says, &["did you mean `type`?"]);
    }
    if members.iter().any(|(_, member)| member.is_object()) {
        return part_of(alloc, &says, &[RECORD]);
    }
    part_of(alloc, &says, &[ANY_TYPE])
}

fn refused_members(
    alloc: Global,
    language: Language,
    json: &Value,
    members: &Map<String, Value>,
    text: &str,
    position: Position,
) -> Option<Refusal> {
    let found = refused_type_keys(alloc, language, members, text, position);
    if found.is_some() {
        return found;
    }
    match text {
        "Set" if json.get("element").is_none() => part_of(
            alloc,
            &["the type `Set` needs the key `element`"],
            &[SET],
        ),
        "Record" => refused_record(alloc, json),
        "Entity" => refused_text(alloc, json, "name", "the type `Entity`"),
        "Extension" => refused_text(alloc, json, "name", "the type `Extension`"),
        "EntityOrCommon" if language == Language::Cedar4 => {
            refused_text(alloc, json, "name", "the type `EntityOrCommon`")
        }
        _ => None,
    }
}

fn refused_record(alloc: Global, json: &Value) -> Option<Refusal> {
    let found = refused_truth(alloc, json, "additionalAttributes", "false");
    if found.is_some() {
        return found;
    }
    match json.get("attributes") {
        Some(attributes) if !attributes.is_object() => {
            refused_object(alloc, "attributes", attributes)
        }
        _ => None,
    }
}

// Why the value at a key is not a Boolean, or none. `wanted` is what it may be, in words.
fn refused_truth(alloc: Global, json: &Value, key: &str, wanted: &str) -> Option<Refusal> {
    match json.get(key) {
        None => None,
        Some(Value::Bool(_)) => None,
        Some(other) => {
            let found = other_than(alloc, wanted, kind_of(other));
            at(alloc, Step::Key(key), found)
        }
    }
}

fn other_than(alloc: Global, wanted: &str, kind: &str) -> Option<Refusal> {
    let says = ["expected ", shown(wanted), ", found ", shown(kind)];
    part_of(alloc, &says, &[])
}
