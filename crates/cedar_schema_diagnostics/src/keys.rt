//! The keys that parts may have.
use crate::annotations::refused_annotations;
use crate::kinds::kind_of;
use crate::left_out::left_out_key;
use crate::part::{Refusal, at, part_of, part_with};
use crate::step::Step;
use crate::text::{is_plain, joined, shown};
use base_names::Nearest;
use base_places::Draft;
use cedar_ext::Language;
use cedar_schema_json::Part;
use serde_json::Value;
use std::alloc::Global;

static NAMESPACE_KEYS: [&str; 3] = ["entityTypes", "actions", "commonTypes"];

static ENTITY_TYPE_KEYS: [&str; 2] = ["memberOfTypes", "shape"];

/// The keys of an entity type in Cedar 4.
static ENTITY_TYPE_KEYS_4: [&str; 3] = ["memberOfTypes", "shape", "enum"];

static ACTION_KEYS: [&str; 3] = ["memberOf", "appliesTo", "attributes"];

static APPLIES_TO_KEYS: [&str; 3] = ["principalTypes", "resourceTypes", "context"];

static MEMBER_KEYS: [&str; 2] = ["id", "type"];

/// How many bytes a key has at least that is offered for one that it begins, or for its beginning.
const LEAST: usize = 4;

fn keys_of(part: Part) -> &'static [&'static str] {
    match part {
        Part::Namespace => &NAMESPACE_KEYS,
        Part::EntityType => &ENTITY_TYPE_KEYS,
        Part::Action => &ACTION_KEYS,
        Part::AppliesTo => &APPLIES_TO_KEYS,
        Part::Member => &MEMBER_KEYS,
    }
}

// The keys of a part in a language, without annotations.
fn keys_in(language: Language, part: Part) -> &'static [&'static str] {
    if part == Part::EntityType && language == Language::Cedar4 {
        &ENTITY_TYPE_KEYS_4
    } else {
        keys_of(part)
    }
}

// What a part is, in words.
fn name_of(part: Part) -> &'static str {
    match part {
        Part::Namespace => "a namespace",
        Part::EntityType => "an entity type",
        Part::Action => "an action",
        Part::AppliesTo => "`appliesTo`",
        Part::Member => "a member of `memberOf`",
    }
}

/// Why a JSON is not an object of the keys of a part (302), or none.
pub(crate) fn refused_keys(
    alloc: Global,
    language: Language,
    part: Part,
    json: &Value,
) -> Option<Refusal> {
    let Some(members) = json.as_object() else {
        return refused_kind(alloc, part, json);
    };
    for (key, value) in members.iter() {
        if key.as_str() == "annotations" && has_annotations(language, part) {
            let found = refused_annotations(alloc, value);
            if found.is_some() {
                return at(alloc, Step::Key("annotations"), found);
            }
        } else if !has_key(keys_in(language, part), key.as_str()) {
            return refused_key(alloc, language, part, key.as_str());
        }
    }
    None
}

// Whether a part may have annotations.
fn has_annotations(language: Language, part: Part) -> bool {
    match part {
        Part::Namespace | Part::EntityType | Part::Action => language == Language::Cedar4,
        Part::AppliesTo | Part::Member => false,
    }
}

/// Whether a key is among these.
pub(crate) fn has_key(keys: &[&str], key: &str) -> bool {
    for known in keys {
        if *known == key {
            return true;
        }
    }
    false
}

// A part that is not an object.
fn refused_kind(alloc: Global, part: Part, json: &Value) -> Option<Refusal> {
    let says = [name_of(part), " must be an object, not ", kind_of(json)];
    match json.as_str() {
        Some(id) if part == Part::Member && is_plain(id) => {
            part_of(alloc, &says, &["write {\"id\":\"", shown(id), "\"}"])
        }
        _ if part == Part::Namespace => part_of(
            alloc,
            &says,
            &["each key at the top of a schema is the name of a namespace"],
        ),
        _ => Some(part_with(alloc, joined(alloc, &says), list_of(alloc, keys_of(part)))),
    }
}

// A key that a part may not have.
fn refused_key(alloc: Global, language: Language, part: Part, key: &str) -> Option<Refusal> {
    let found = match left_out_key(language, part, key) {
        Some((says, hint)) => part_of(alloc, &[says], &[hint]),
        None => Some(misplaced_key(alloc, language, part, key)),
    };
    at(alloc, Step::Key(key), found)
}

// A key that a part does not have, with the part that has it, if there is one.
fn misplaced_key(alloc: Global, language: Language, part: Part, key: &str) -> Refusal {
    match other_owner(part, key) {
        Some(owner) => part_with(
            alloc,
            no_key(alloc, name_of(part), key),
            joined(alloc, &["it is a key of ", name_of(owner)]),
        ),
        None => unknown_key(alloc, name_of(part), key, keys_in(language, part)),
    }
}

// Says that there is not such a key.
fn no_key(alloc: Global, what: &str, key: &str) -> Draft {
    joined(alloc, &[shown(what), " has no key `", shown(key), "`"])
}

// The part whose key this is, if it is not near to a key of the part in which it is written.
fn other_owner(part: Part, key: &str) -> Option<Part> {
    if nearest_key(key, keys_of(part)).is_some() {
        return None;
    }
    for other in [
        Part::AppliesTo,
        Part::Action,
        Part::EntityType,
        Part::Namespace,
    ] {
        if has_key(keys_of(other), key) {
            return Some(other);
        }
    }
    None
}

/// What is said of a key that is not among these, with the key that is likely meant, or with all of them. `what` is what has the keys,
/// in words.
pub(crate) fn unknown_key(alloc: Global, what: &str, key: &str, keys: &[&'static str]) -> Refusal {
    let says = no_key(alloc, what, key);
    let hint = match nearest_key(key, keys) {
        Some(meant) => joined(alloc, &["did you mean `", shown(meant), "`?"]),
        None => list_of(alloc, keys),
    };
    part_with(alloc, says, hint)
}

// The key that is likely meant: the nearest one, or else one of which the other is the beginning.
fn nearest_key(key: &str, keys: &[&'static str]) -> Option<&'static str> {
    let mut nearest = Nearest::new(key);
    for known in keys {
        nearest = nearest.compare(*known, *known);
    }
    match nearest.name() {
        Some(known) => Some(known),
        None => begun_key(key, keys),
    }
}

// The first key that begins with the other, or of which the other begins.
fn begun_key(key: &str, keys: &[&'static str]) -> Option<&'static str> {
    for known in keys {
        if is_beginning(key, *known) || is_beginning(*known, key) {
            return Some(*known);
        }
    }
    None
}

fn is_beginning(begin: &str, key: &str) -> bool {
    begin.len() >= LEAST && key.starts_with(begin)
}

fn list_of(alloc: Global, keys: &[&str]) -> Draft {
    let mut list = Draft::new(alloc);
    list.add("its keys: ");
    for (index, key) in keys.iter().enumerate() {
        if index > 0 {
            list.add(", ");
        }
        list.add_all(&["`", shown(*key), "`"]);
    }
    list
}

/// What is wrong at a key that has to hold a string (302), or none. `what` is what the key belongs to, in words.
pub(crate) fn refused_text(alloc: Global, json: &Value, key: &str, what: &str) -> Option<Refusal> {
    match json.get(key) {
        Some(Value::String(_)) => None,
        Some(other) => {
            let found = part_of(alloc, &["expected a string, found ", kind_of(other)], &[]);
            at(alloc, Step::Key(key), found)
        }
        None => part_of(
            alloc,
            &[shown(what), " needs the key `", shown(key), "`"],
            &[],
        ),
    }
}

/// What is said of the value at a key that is not an object (302).
pub(crate) fn refused_object(alloc: Global, key: &str, json: &Value) -> Option<Refusal> {
    at(alloc, Step::Key(key), other_kind(alloc, key, kind_of(json)))
}

fn other_kind(alloc: Global, key: &str, kind: &str) -> Option<Refusal> {
    let says = ["`", shown(key), "` must be an object, not ", shown(kind)];
    let hint = [
        "write {\"a name\":{..}}, with a key for each of its ",
        shown(key),
    ];
    part_of(alloc, &says, &hint)
}
