//! The first entry of a list of entities that is refused.
ghost use Rattle.std.specs.Bool.{MatchBool};
ghost use Rattle.std.specs.Prelude.{◌≡◌, ◌+◌, ◌<◌, length, IfNone, IfOk, IfSome, IsSome, IsTrue, MatchOption, MatchResult, None, Option, is_some};
ghost use Rattle.serde_json.specs.Data.{Items};
ghost use Rattle.serde_json.specs.View.{view};
ghost use Rattle.base_json.specs.Items.{to_come};
ghost use Rattle.base_json.specs.declared.tree_fault.TreeFault.TheVariants.{Invalid};
ghost use Rattle.cedar_conform_diagnostics.specs.Refused.{AreAccepted, IsEntryRefusedWith, IsFirstRefused, IsListOf};
ghost use Rattle.cedar_conform_diagnostics.specs.Private.Passing.{AllAreAccepted, IsFirstOfAll, IsPassed, list_of};
ghost use Rattle.cedar_conform_entities.specs.Denotes.{IsAccepted};
ghost use Rattle.cedar_conform_values.specs.Numbers.{number_of};

use crate::data_fault::{DataFault, RefusedEntry};
use crate::entry_words::entry_words;
use crate::words::Words;
use crate::written_entry::entry_name;
use base_json::{ItemReader, JsonReader, ObjectReader, TreeFault};
use cedar_conform_entities::entry_fault;
use cedar_conform_values::ConformFault;
use cedar_schema::Schema;
use serde_json::Value as Json;
use std::alloc::{AllocError, Global};

/// The first entry of a list of entities that is refused for a schema, and why. None where the bytes are not a JSON list, and where no
/// entry is refused. Each entry is freed before the next is read, and the bytes as they are read.
///
/// # Errors
///
/// Fails only when out of memory.
pub fn refused_entry(
    alloc: Global,
    schema: &Schema,
    bytes: Vec<u8>,
) -> Result<Option<RefusedEntry>, AllocError>
    ensures found { IfOk result (λ o. IfSome o (λ r. IsFirstRefused schema.now bytes.items r.position r.fault.number)) }
    ensures none { IfOk result (λ o. IfNone o ((ds : Items) → IsListOf bytes.items ds → AreAccepted schema.now ds)) }
{
    match first_refused(alloc, schema, bytes) {
        Ok(found) => Ok(found),
        Err(TreeFault::Invalid) => Ok(None),
        Err(TreeFault::OutOfMemory) => Err(AllocError),
    }
}

fn first_refused(
    alloc: Global,
    schema: &Schema,
    bytes: Vec<u8>,
) -> Result<Option<RefusedEntry>, TreeFault>
    ensures { MatchResult result
        (λ o. MatchOption o (AllAreAccepted schema.now (list_of bytes.items)) (λ r. IsFirstOfAll schema.now (list_of bytes.items) r.position r.fault.number))
        (λ e. e ≡ Invalid → list_of bytes.items ≡ None) }
{
    match ObjectReader::open(alloc, bytes) {
        Ok(mut objects) => first_of_objects(alloc, schema, &mut objects),
        Err(bytes) => first_of_bytes(alloc, schema, &bytes),
    }
}

fn first_of_bytes(
    alloc: Global,
    schema: &Schema,
    bytes: &[u8],
) -> Result<Option<RefusedEntry>, TreeFault>
    ensures { MatchResult result
        (λ o. MatchOption o (AllAreAccepted schema.now (list_of bytes.now)) (λ r. IsFirstOfAll schema.now (list_of bytes.now) r.position r.fault.number))
        (λ e. e ≡ Invalid → list_of bytes.now ≡ None) }
{
    let mut reader = JsonReader::new(alloc)?;
    match reader.items(bytes)? {
        Some(mut items) => first_of_items(alloc, schema, &mut items, 0),
        None => Err(TreeFault::Invalid),
    }
}

// The first refused one of the entries, each of which is read from its own bytes as long as they are objects, and the rest then item
// by item.
fn first_of_objects(
    alloc: Global,
    schema: &Schema,
    objects: &mut ObjectReader,
) -> Result<Option<RefusedEntry>, TreeFault>
    ensures { MatchResult result
        (λ o. MatchOption o (AllAreAccepted schema.now (to_come objects.old)) (λ r. IsFirstOfAll schema.now (to_come objects.old) r.position r.fault.number))
        (λ e. e ≡ Invalid → to_come objects.old ≡ None) }
{
    let mut position = 0usize;
    'walk: while let Some(entry) = objects.next(alloc)? {
        let judged = judge(alloc, schema, entry, position)?;
        if let Some(refused) = judged {
            return after_objects(alloc, objects, refused);
        }
        position = after(position)?;
    }
    let mut items = objects.rest()?;
    first_of_items(alloc, schema, &mut items, position)
}

// The same for items, after so many that are accepted.
fn first_of_items(
    alloc: Global,
    schema: &Schema,
    items: &mut ItemReader<'_>,
    read: usize,
) -> Result<Option<RefusedEntry>, TreeFault>
    ensures { (all : Option Items) → IsPassed schema.now all (to_come items.old) read → MatchResult result
        (λ o. MatchOption o (AllAreAccepted schema.now all) (λ r. IsFirstOfAll schema.now all r.position r.fault.number))
        (λ e. e ≡ Invalid → all ≡ None) }
{
    let mut position = read;
    'walk: while let Some(entry) = items.next(alloc)? {
        let judged = judge(alloc, schema, entry, position)?;
        if let Some(refused) = judged {
            return after_items(alloc, items, refused);
        }
        position = after(position)?;
    }
    Ok(None)
}

// The refused entry, once the rest of the text was read and is JSON.
fn after_objects(
    alloc: Global,
    objects: &mut ObjectReader,
    refused: RefusedEntry,
) -> Result<Option<RefusedEntry>, TreeFault>
    ensures { MatchResult result
        (λ o. MatchOption o ⊥ (λ r. (r.position ≡ refused.position) × (r.fault.number ≡ refused.fault.number) × IsSome (to_come objects.old)))
        (λ e. e ≡ Invalid → to_come objects.old ≡ None) }
{
    'rest: while skip_object(alloc, objects)? {}
    let mut items = objects.rest()?;
    after_items(alloc, &mut items, refused)
}

// Whether there was a next object that was read from its own bytes. It is freed.
fn skip_object(alloc: Global, objects: &mut ObjectReader) -> Result<bool, AllocError>
    ensures items { IfOk result (λ found. MatchBool found (is_some (to_come objects.old) ≡ is_some (to_come objects.new)) (objects.new ≡ objects.old)) }
    ensures shorter { IfOk result (λ found. IsTrue found → length objects.new < length objects.old) }
{
    match objects.next(alloc)? {
        Some(entry) => {
            drop(entry);
            Ok(true)
        }
        None => Ok(false),
    }
}

// The same for a list that is read item by item.
fn after_items(
    alloc: Global,
    items: &mut ItemReader<'_>,
    refused: RefusedEntry,
) -> Result<Option<RefusedEntry>, TreeFault>
    ensures { MatchResult result
        (λ o. MatchOption o ⊥ (λ r. (r.position ≡ refused.position) × (r.fault.number ≡ refused.fault.number) × IsSome (to_come items.old)))
        (λ e. e ≡ Invalid → to_come items.old ≡ None) }
{
    items.skip_rest(alloc)?;
    Ok(Some(refused))
}

fn after(position: usize) -> Result<usize, AllocError>
    ensures { IfOk result (λ next. next ≡ position + 1) }
{
    match position.checked_add(1) {
        Some(next) => Ok(next),
        None => Err(AllocError),
    }
}

// Why an entry is refused, or none where it is accepted. The entry is freed.
fn judge(
    alloc: Global,
    schema: &Schema,
    entry: Json,
    position: usize,
) -> Result<Option<RefusedEntry>, AllocError>
    ensures { IfOk result (λ o. MatchOption o (IsAccepted schema.now (view entry))
        (λ r. (r.position ≡ position) × IsEntryRefusedWith schema.now (view entry) r.fault.number)) }
{
    match entry_fault(alloc, schema, &entry)? {
        Some(fault) => Ok(Some(explained(alloc, schema, &entry, position, fault)?)),
        None => Ok(None),
    }
}

// The refused entry with the words for its fault.
fn explained(
    alloc: Global,
    schema: &Schema,
    entry: &Json,
    position: usize,
    fault: ConformFault,
) -> Result<RefusedEntry, AllocError>
    ensures position { IfOk result (λ r. r.position ≡ position) }
    ensures number { IfOk result (λ r. r.fault.number ≡ number_of fault) }
{
    let number = fault.number();
    drop(fault);
    let uid = entry_name(alloc, entry)?;
    let fault = words_of(alloc, schema, entry, number)?;
    Ok(RefusedEntry {
        position,
        uid,
        fault,
    })
}

fn words_of(
    alloc: Global,
    schema: &Schema,
    entry: &Json,
    number: u16,
) -> Result<DataFault, AllocError>
    ensures { IfOk result (λ f. f.number ≡ number) }
{
    let mut words = Words::new(alloc);
    entry_words(alloc, &mut words, schema, entry, number)?;
    words.numbered(number)
}
