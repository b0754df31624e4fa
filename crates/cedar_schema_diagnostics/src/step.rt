//! Steps from a JSON to a part of it.
use crate::text::shown;
use base_places::Draft;
use std::alloc::{AllocError, Global};

/// A step from a JSON to a part of it.
#[derive(Clone, Copy)]
pub(crate) enum Step<'j> {
    /// From the schema to a namespace.
    Namespace(&'j str),
    /// From an object to the value at a key.
    Key(&'j str),
    /// From a list to an item, from 0.
    Item(usize),
}

/// Adds a step as a path writes it: `Shop`, `.actions`, `."view all"` or `[0]`.
pub(crate) fn add_step(path: &mut Draft, step: Step<'_>) {
    match step {
        Step::Namespace(name) => add_key(path, shown(name)),
        Step::Key(key) => {
            path.add_char('.');
            add_key(path, shown(key));
        }
        Step::Item(index) => {
            path.add_char('[');
            path.add_display(index);
            path.add_char(']');
        }
    }
}

/// The path from a schema to a namespace, or, where a key and a name are given, to what is declared there: `Shop.entityTypes.User`.
///
/// # Errors
///
/// Fails only when out of memory.
pub fn declaration_path(
    alloc: Global,
    namespace: &str,
    declared: Option<(&str, &str)>,
) -> Result<String, AllocError> {
    let mut path = Draft::new(alloc);
    add_step(&mut path, Step::Namespace(namespace));
    if let Some((key, name)) = declared {
        add_step(&mut path, Step::Key(key));
        add_step(&mut path, Step::Key(name));
    }
    path.done()
}

// Adds a key: an identifier as it is, another text in quotes.
fn add_key(path: &mut Draft, key: &str) {
    if is_identifier(key.as_bytes()) {
        path.add(key);
        return;
    }
    path.add_char('"');
    for character in key.chars() {
        if character == '"' || character == '\\' {
            path.add_char('\\');
        }
        path.add_char(character);
    }
    path.add_char('"');
}

fn is_identifier(key: &[u8]) -> bool {
    match key.split_first() {
        Some((first, later)) => is_start(*first) && later.iter().all(|byte| is_later(*byte)),
        None => false,
    }
}

fn is_start(byte: u8) -> bool {
    byte.is_ascii_alphabetic() || byte == b'_'
}

fn is_later(byte: u8) -> bool {
    is_start(byte) || byte.is_ascii_digit()
}
