//! Words for an entry of a list of entities.
use crate::declared::known_types;
use crate::entry_shape::{add_parent, shape_words};
use crate::owner::Owner;
use crate::shown::add_uid;
use crate::undeclared::{action_words, type_words};
use crate::unlisted::unlisted_words;
use crate::unlisted_path::unlisted_value_words;
use crate::value_path::value_words_at;
use crate::words::Words;
use crate::written_entry::{WrittenEntry, written_entry};
use base_places::Draft;
use cedar_schema::Schema;
use cedar_value::{Name, Uid};
use serde_json::Value as Json;
use std::alloc::{AllocError, Global};
use std::collections::BTreeSet;

// How many types are listed at most.
const MOST_TYPES: usize = 10;

/// The words for an entry that is refused with a number, 502 to 509.
pub(crate) fn entry_words(
    alloc: Global,
    words: &mut Words,
    schema: &Schema,
    entry: &Json,
    number: u16,
) -> Result<(), AllocError> {
    if number == 502 {
        return shape_words(alloc, words, entry);
    }
    match written_entry(alloc, entry)? {
        Some(written) => {
            let added = written_words(alloc, words, schema, entry, &written, number);
            drop(written);
            added
        }
        None => shape_words(alloc, words, entry),
    }
}

fn written_words(
    alloc: Global,
    words: &mut Words,
    schema: &Schema,
    entry: &Json,
    written: &WrittenEntry,
    number: u16,
) -> Result<(), AllocError> {
    match number {
        503 | 507 => types_words(alloc, words, schema, entry, written),
        508 => {
            repetition_words(words, schema, entry, written);
            Ok(())
        }
        _ => attributes_words(alloc, words, schema, entry, &written.uid),
    }
}

// The words for the type of an entity and those of its parents, 503 and 507, or for a uid that its enumerated type does not have, 503.
fn types_words(
    alloc: Global,
    words: &mut Words,
    schema: &Schema,
    entry: &Json,
    written: &WrittenEntry,
) -> Result<(), AllocError> {
    let own = &written.uid.ty;
    if schema.attributes(own).is_none() {
        words.path.add("uid");
        return type_words(alloc, words, schema, own);
    }
    for (position, parent) in written.parents.iter().enumerate() {
        if schema.attributes(&parent.ty).is_none() {
            add_parent(&mut words.path, position);
            return type_words(alloc, words, schema, &parent.ty);
        }
        if !schema.type_descends(own, &parent.ty) {
            add_parent(&mut words.path, position);
            return parent_words(alloc, words, schema, own, &parent.ty);
        }
    }
    listed_words(alloc, words, schema, entry, written)
}

// The words for the first uid of an entry that its enumerated type does not have: its own, a parent, or one in its attributes.
fn listed_words(
    alloc: Global,
    words: &mut Words,
    schema: &Schema,
    entry: &Json,
    written: &WrittenEntry,
) -> Result<(), AllocError> {
    if unlisted_words(words, schema, &written.uid) {
        words.path.add("uid");
        return Ok(());
    }
    for (position, parent) in written.parents.iter().enumerate() {
        if unlisted_words(words, schema, parent) {
            add_parent(&mut words.path, position);
            return Ok(());
        }
    }
    match (schema.attributes(&written.uid.ty), entry.get("attrs")) {
        (Some(shape), Some(found)) => {
            words.path.add("attrs");
            unlisted_value_words(alloc, words, schema, found, shape)
        }
        _ => {
            words.says.add("a type is not allowed here");
            Ok(())
        }
    }
}

// The words for a parent of a type from which the type of an entity does not descend, 507, with the types that may be above it, where
// some are known.
fn parent_words(
    alloc: Global,
    words: &mut Words,
    schema: &Schema,
    own: &Name,
    parent: &Name,
) -> Result<(), AllocError> {
    words.says.add_all(&[
        "an entity of type `",
        own.as_str(),
        "` may not have a parent of type `",
        parent.as_str(),
        "`",
    ]);
    let mut known = known_types(alloc, schema)?;
    known.insert(own.try_clone(alloc)?)?;
    add_allowed(&mut words.hint, schema, own, &known);
    Ok(())
}

// Adds which of these types may be above a type, at most ten.
fn add_allowed(hint: &mut Draft, schema: &Schema, own: &Name, known: &BTreeSet<Name>) {
    let mut listed = 0usize;
    for name in known.iter() {
        if listed < MOST_TYPES && schema.type_descends(own, name) {
            hint.add(if listed == 0 {
                "its parents may be of type `"
            } else {
                "`, `"
            });
            hint.add(name.as_str());
            listed = listed.saturating_add(1);
        }
    }
    if listed > 0 {
        hint.add_char('`');
    }
}

// The words for an entry of an action that differs from the schema, 508.
fn repetition_words(words: &mut Words, schema: &Schema, entry: &Json, written: &WrittenEntry) {
    if has_attributes(entry) {
        words.path.add("attrs");
        words.says.add("an action has no attributes");
        return;
    }
    if !schema.has_action(&written.uid) {
        words.path.add("uid");
        action_words(words, schema, &written.uid);
        return;
    }
    for (position, parent) in written.parents.iter().enumerate() {
        if !schema.action_descends(&written.uid, parent) {
            add_parent(&mut words.path, position);
            add_uid(&mut words.says, &written.uid);
            words.says.add(" is not in ");
            add_uid(&mut words.says, parent);
            return;
        }
    }
    words.says.add("the action differs from the schema");
}

// Whether an entry has attributes.
fn has_attributes(entry: &Json) -> bool {
    match entry.get("attrs") {
        Some(found) => match found.as_object() {
            Some(members) => !members.is_empty(),
            None => true,
        },
        None => false,
    }
}

// The words for the attributes of an entity, 504, 505, 506 and 509.
fn attributes_words(
    alloc: Global,
    words: &mut Words,
    schema: &Schema,
    entry: &Json,
    uid: &Uid,
) -> Result<(), AllocError> {
    words.path.add("attrs");
    let Some(shape) = schema.attributes(&uid.ty) else {
        return type_words(alloc, words, schema, &uid.ty);
    };
    value_words_at(
        alloc,
        words,
        Owner::Type(&uid.ty),
        entry.get("attrs"),
        shape,
    )
}
