//! The entries of a JSON list of objects, one after another, each read from its own bytes.
ghost use Rattle.std.specs.Prelude.{◌≡◌, ◌<◌, length, IfOk, IfSome, MatchOption, MatchResult, OnSome};
ghost use Rattle.cedar_conform_entities.specs.Private.Coming.{ComesFirst, IsToldAfter, RefusesComing};
ghost use Rattle.cedar_conform_entities.specs.Private.Plain.{DenotesFirst, DenotesItem};
ghost use Rattle.base_json.specs.Lists.{left_in};

use crate::entries::after_fault;
use crate::entry::{Entry, read_entry};
use crate::plain::plain_entity;
use base_json::{JsonReader, ListText};
use cedar_conform_values::{ConformFault, Names};
use cedar_schema::Schema;
use cedar_store::Entity;
use std::alloc::{AllocError, Global};

/// What the next entry denotes for the schema. None, with nothing changed, where no object was read from its own bytes. Refused
/// with a fault of the entry, once the rest of the text was read and is JSON; and with 501 where it is not.
pub(crate) fn next_object_entry(
    alloc: Global,
    schema: &Schema,
    names: &mut Names,
    reader: &mut JsonReader,
    list: &mut ListText,
) -> Result<Option<Entry>, ConformFault>
    ensures entry { MatchResult result
        (λ found. MatchOption found (list.new ≡ list.old) (ComesFirst schema.now (left_in list.old) (left_in list.new)))
        (RefusesComing schema.now (left_in list.old)) }
    ensures shorter { IfOk result (λ found. OnSome found (length list.new < length list.old)) }
{
    if let Some((entity, after)) = plain_first(alloc, schema, names, list)? {
        list.pass(after)?;
        return Ok(Some(Entry::Entity(entity)));
    }
    let Some(object) = list.object() else {
        return Ok(None);
    };
    let passed = object.passed;
    if let Some(entity) = lent_entity(alloc, schema, names, reader, object.text)? {
        list.pass(passed)?;
        return Ok(Some(Entry::Entity(entity)));
    }
    let Some(tree) = reader.item(alloc, object.text)? else {
        return Ok(None);
    };
    list.pass(passed)?;
    let read = read_entry(alloc, schema, &tree);
    drop(tree);
    match read {
        Ok(entry) => Ok(Some(entry)),
        Err(fault) => Err(after_object_fault(alloc, reader, list, fault)),
    }
}

// The entity that the next entry denotes, and how many bytes come before the entries after it, where all of the entry is in the plain form.
fn plain_first(
    alloc: Global,
    schema: &Schema,
    names: &mut Names,
    list: &ListText,
) -> Result<Option<(Entity, usize)>, AllocError>
    ensures { IfOk result (λ o. IfSome o (λ found. DenotesFirst schema.now list.now found.0 found.1)) }
{
    let Some(next) = list.plain_item(alloc)? else {
        return Ok(None);
    };
    match plain_entity(alloc, schema, names, &next.item)? {
        Some(entity) => Ok(Some((entity, next.passed))),
        None => Ok(None),
    }
}

// The entity that the text of an entry denotes, where it is in the plain form.
fn lent_entity(
    alloc: Global,
    schema: &Schema,
    names: &mut Names,
    reader: &mut JsonReader,
    text: &str,
) -> Result<Option<Entity>, AllocError>
    ensures { IfOk result (λ found. IfSome found (DenotesItem schema.now text.now)) }
{
    match reader.lent_item(alloc, text)? {
        Some(item) => plain_entity(alloc, schema, names, &item),
        None => Ok(None),
    }
}

/// The fault that an entry has, or 501 where the rest of the text is not JSON.
pub(crate) fn after_object_fault(
    alloc: Global,
    reader: &mut JsonReader,
    list: &ListText,
    fault: ConformFault,
) -> ConformFault
    ensures { IsToldAfter (left_in list.now) fault result }
{
    match reader.items_left(list) {
        Ok(mut items) => after_fault(alloc, &mut items, fault),
        Err(_) => ConformFault::OutOfMemory,
    }
}
