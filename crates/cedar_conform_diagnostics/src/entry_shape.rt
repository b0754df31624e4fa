//! Words for an entry of another shape, 502.
use crate::meant::meant_key;
use crate::shown::{add_key, add_position};
use crate::uid_words::{is_uid_object, uid_object_words};
use crate::words::Words;
use base_places::Draft;
use serde_json::{Map, Value as Json};
use std::alloc::{AllocError, Global};

const ENTRY_KEYS: [&str; 4] = ["uid", "attrs", "parents", "tags"];

/// The first key of an object that is not one of these.
pub(crate) fn unknown_key<'j>(members: &'j Map<String, Json>, known: &[&str]) -> Option<&'j str> {
    for (key, _) in members.iter() {
        if !is_one_of(key.as_str(), known) {
            return Some(key.as_str());
        }
    }
    None
}

fn is_one_of(key: &str, known: &[&str]) -> bool {
    for word in known {
        if key == *word {
            return true;
        }
    }
    false
}

/// The words for a key that is not known.
pub(crate) fn unknown_key_words(words: &mut Words, key: &str, known: &[&'static str], says: &str) {
    add_key(&mut words.path, key);
    words.says.add_all(&["unknown key; ", says]);
    words.hint_at(meant_key(key, known));
}

// Whether the attributes or the tags of an entry are refused. If so, the words for them are added.
fn value_words(words: &mut Words, entry: &Json, key: &str) -> bool {
    let Some(found) = entry.get(key) else {
        return false;
    };
    match found.as_object() {
        None => {
            add_key(&mut words.path, key);
            words.want("an object", found);
            words
                .hint
                .add("write {\"a key\":\"a value\"}, or leave it out");
            true
        }
        Some(members) if key == "tags" && !members.is_empty() => {
            add_key(&mut words.path, key);
            words
                .says
                .add("tags are not supported: expected an empty object");
            true
        }
        Some(_) => false,
    }
}

// Whether the uid of an entry is refused. If so, the words for it are added.
fn uid_key_words(alloc: Global, words: &mut Words, entry: &Json) -> Result<bool, AllocError> {
    let Some(found) = entry.get("uid") else {
        words.path.add("uid");
        words.says.add("missing; each entry needs a uid");
        words
            .hint
            .add("write \"uid\":{\"type\":\"T\",\"id\":\"x\"}");
        return Ok(true);
    };
    if is_uid_object(alloc, found)? {
        return Ok(false);
    }
    words.path.add("uid");
    uid_object_words(alloc, words, found)?;
    Ok(true)
}

/// Adds the path of a parent.
pub(crate) fn add_parent(path: &mut Draft, position: usize) {
    path.add("parents");
    add_position(path, position);
}

// Whether the parents of an entry are refused. If so, the words for the first one are added.
fn parents_words(alloc: Global, words: &mut Words, entry: &Json) -> Result<bool, AllocError> {
    let Some(found) = entry.get("parents") else {
        return Ok(false);
    };
    let Some(items) = found.as_array() else {
        words.path.add("parents");
        words.want("a list", found);
        words
            .hint
            .add("write [{\"type\":\"T\",\"id\":\"x\"}], or leave it out");
        return Ok(true);
    };
    for (position, item) in items.iter().enumerate() {
        if !is_uid_object(alloc, item)? {
            add_parent(&mut words.path, position);
            uid_object_words(alloc, words, item)?;
            return Ok(true);
        }
    }
    Ok(false)
}

/// The words for an entry of the wrong form, in the order in which the reader looks at its parts.
pub(crate) fn shape_words(
    alloc: Global,
    words: &mut Words,
    entry: &Json,
) -> Result<(), AllocError> {
    let Some(members) = entry.as_object() else {
        words.want("an object", entry);
        return Ok(());
    };
    if let Some(key) = unknown_key(members, &ENTRY_KEYS) {
        let says = "an entry has the keys uid, attrs, parents and tags";
        unknown_key_words(words, key, &ENTRY_KEYS, says);
        return Ok(());
    }
    if value_words(words, entry, "attrs")
        || value_words(words, entry, "tags")
        || uid_key_words(alloc, words, entry)?
        || parents_words(alloc, words, entry)?
    {
        return Ok(());
    }
    words.says.add("the entry has the wrong form");
    Ok(())
}
