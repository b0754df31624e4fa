//! Texts, uids and paths as they are shown.
use base_places::Draft;
use cedar_value::{Name, Uid};
use std::alloc::Global;
use std::collections::BTreeSet;

// How many characters of a text are shown at most.
const MOST: usize = 40;

// How many names are listed at most.
const MOST_NAMES: usize = 10;

// Adds a character as a string in double quotes has it.
fn add_escaped(out: &mut Draft, character: char) {
    match character {
        '"' => out.add("\\\""),
        '\\' => out.add("\\\\"),
        '\n' => out.add("\\n"),
        '\r' => out.add("\\r"),
        '\t' => out.add("\\t"),
        _ => out.add_char(character),
    }
}

/// Adds a text as it is inside of double quotes.
pub(crate) fn add_inner(out: &mut Draft, text: &str) {
    for character in text.chars() {
        add_escaped(out, character);
    }
}

/// Adds a text in double quotes.
pub(crate) fn add_quoted(out: &mut Draft, text: &str) {
    out.add_char('"');
    add_inner(out, text);
    out.add_char('"');
}

/// Adds the beginning of a text, at most 40 characters, in double quotes, and two points where the text goes on.
pub(crate) fn add_beginning(out: &mut Draft, text: &str) {
    out.add_char('"');
    for (place, character) in text.chars().enumerate() {
        if place == MOST {
            out.add("\"..");
            return;
        }
        add_escaped(out, character);
    }
    out.add_char('"');
}

/// Adds a uid as a policy writes it.
pub(crate) fn add_uid(out: &mut Draft, uid: &Uid) {
    out.add_all(&[uid.ty.as_str(), "::"]);
    add_quoted(out, uid.id.as_str());
}

/// A uid as a policy writes it.
pub(crate) fn uid_text(alloc: Global, uid: &Uid) -> Draft {
    let mut text = Draft::new(alloc);
    add_uid(&mut text, uid);
    text
}

// Whether a byte may be in a key that is shown without quotes.
fn is_plain(byte: u8) -> bool {
    byte.is_ascii_alphabetic() || byte.is_ascii_digit() || byte == b'_'
}

// Whether a key is shown without quotes.
fn is_plain_key(key: &str) -> bool {
    !key.is_empty() && key.as_bytes().iter().all(|byte| is_plain(*byte))
}

/// Adds the name of a key: in double quotes where it has other characters than letters, digits and `_`.
pub(crate) fn add_name(out: &mut Draft, key: &str) {
    if is_plain_key(key) {
        out.add(key);
    } else {
        add_quoted(out, key);
    }
}

/// Adds a key to a path: `.key`, `["a key"]`, or `key` alone at the beginning.
pub(crate) fn add_key(path: &mut Draft, key: &str) {
    if !is_plain_key(key) {
        path.add_char('[');
        add_quoted(path, key);
        path.add_char(']');
        return;
    }
    if !path.as_str().is_empty() {
        path.add_char('.');
    }
    path.add(key);
}

/// Adds a position in a list, from 0, to a path.
pub(crate) fn add_position(path: &mut Draft, position: usize) {
    path.add_char('[');
    path.add_display(position);
    path.add_char(']');
}

/// Adds the names of types, at most ten.
pub(crate) fn add_types(out: &mut Draft, names: &BTreeSet<Name>) {
    for (listed, name) in names.iter().enumerate() {
        if listed == MOST_NAMES {
            out.add(", ..");
            return;
        }
        if listed > 0 {
            out.add(", ");
        }
        out.add_all(&["`", name.as_str(), "`"]);
    }
}
