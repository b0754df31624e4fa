//! Words for a JSON that writes no uid.
use crate::meant::meant_key;
use crate::shown::{add_beginning, add_inner, add_key};
use crate::wanted::hint_uid_object;
use crate::words::Words;
use cedar_conform_values::{size_of, uid_of_object, written_uid};
use cedar_value::Name;
use serde_json::{Map, Value as Json};
use std::alloc::{AllocError, Global};

/// What is said where a key of a uid is missing or not known.
const UID_KEYS: &str = "a uid has the keys type and id";

/// A uid as a string of JSON.
pub(crate) const ENTITY: &str = "\"User::\\\"ann\\\"\"";

/// The uid of an action as a string of JSON.
pub(crate) const ACTION: &str = "\"Action::\\\"view\\\"\"";

/// Whether a JSON writes a uid as an object.
pub(crate) fn is_uid_object(alloc: Global, json: &Json) -> Result<bool, AllocError> {
    match uid_of_object(alloc, json)? {
        Some(uid) => {
            drop(uid);
            Ok(true)
        }
        None => Ok(false),
    }
}

/// Whether a JSON writes a uid, as a string or as an object.
pub(crate) fn is_uid(alloc: Global, json: &Json) -> Result<bool, AllocError> {
    match written_uid(alloc, json)? {
        Some(uid) => {
            drop(uid);
            Ok(true)
        }
        None => Ok(false),
    }
}

fn is_name(alloc: Global, text: &str) -> Result<bool, AllocError> {
    match Name::read(alloc, text)? {
        Some(name) => {
            drop(name);
            Ok(true)
        }
        None => Ok(false),
    }
}

// The first key that is neither `type` nor `id`.
fn further_key(members: &Map<String, Json>) -> Option<&str> {
    for (key, _) in members.iter() {
        if key.as_str() != "type" && key.as_str() != "id" {
            return Some(key.as_str());
        }
    }
    None
}

// Whether the value at a key of a uid is not a string, or missing. If so, the words for it are added.
fn text_words(words: &mut Words, json: &Json, key: &str) -> bool {
    let found = json.get(key);
    if let Some(Json::String(_)) = found {
        return false;
    }
    add_key(&mut words.path, key);
    match found {
        Some(found) => words.want_text(found),
        None => words.says.add_all(&["missing; ", UID_KEYS]),
    }
    true
}

// The words for an object that is not a uid: its first part that is refused is its type, if no other is.
fn members_words(words: &mut Words, json: &Json, members: &Map<String, Json>) {
    if let Some(key) = further_key(members) {
        add_key(&mut words.path, key);
        words.says.add_all(&["unknown key; ", UID_KEYS]);
        words.hint_at(meant_key(key, &["type", "id", "__entity"]));
        return;
    }
    if text_words(words, json, "type") || text_words(words, json, "id") {
        return;
    }
    let text = json.get("type").and_then(Json::as_str).unwrap_or("");
    add_key(&mut words.path, "type");
    words
        .says
        .add("expected identifiers with `::` between them, found ");
    add_beginning(&mut words.says, text);
}

/// The words for a JSON that is not a uid as an object, from its path on.
pub(crate) fn uid_object_words(
    alloc: Global,
    words: &mut Words,
    json: &Json,
) -> Result<(), AllocError> {
    let inner = match json.get("__entity") {
        Some(inner) if size_of(json) == 1 => {
            add_key(&mut words.path, "__entity");
            inner
        }
        _ => json,
    };
    match inner.as_object() {
        Some(members) => {
            members_words(words, inner, members);
            Ok(())
        }
        None => {
            words.want("an object", inner);
            hint_uid_object(alloc, &mut words.hint, "T", inner)
        }
    }
}

// The type and the id of a string that would be a uid if its id were in double quotes. A last word that begins with a capital letter is
// rather that of a type.
fn without_quotes(alloc: Global, text: &str) -> Result<Option<(&str, &str)>, AllocError> {
    let Some((ty, id)) = text.rsplit_once("::") else {
        return Ok(None);
    };
    let is_type = id.starts_with(|letter: char| letter.is_ascii_uppercase());
    if is_type || id.contains('"') || !is_name(alloc, ty)? {
        return Ok(None);
    }
    let quoted = id.strip_prefix('\'').and_then(|id| id.strip_suffix('\''));
    Ok(Some((ty, quoted.unwrap_or(id))))
}

// Hints how a uid is written as a string, with an example.
fn hint_uid(words: &mut Words, example: &str) {
    words.hint.add_all(&[
        "write a type, `::` and an id in quotes, for example ",
        example,
    ]);
}

// The words for a string that is not a uid.
fn string_words(
    alloc: Global,
    words: &mut Words,
    text: &str,
    example: &str,
) -> Result<(), AllocError> {
    words.says.add("expected a uid, found the string ");
    add_beginning(&mut words.says, text);
    match without_quotes(alloc, text)? {
        Some((ty, id)) => {
            words.hint.add("write the id of a uid in quotes: \"");
            add_inner(&mut words.hint, ty);
            words.hint.add("::\\\"");
            add_inner(&mut words.hint, id);
            words.hint.add("\\\"\"");
        }
        None => hint_uid(words, example),
    }
    Ok(())
}

/// The words for a JSON that is not a uid, neither as a string nor as an object, from its path on. The hint shows the
/// example, a uid in double quotes.
pub(crate) fn uid_words(
    alloc: Global,
    words: &mut Words,
    json: &Json,
    example: &str,
) -> Result<(), AllocError> {
    match json {
        Json::String(text) => string_words(alloc, words, text.as_str(), example),
        Json::Object(_) => uid_object_words(alloc, words, json),
        _ => {
            words.want("a uid", json);
            hint_uid(words, example);
            Ok(())
        }
    }
}
