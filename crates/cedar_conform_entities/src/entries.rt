//! The entries of a JSON list, one after another: the tree of each is freed before the next is read.
ghost use Rattle.std.specs.Prelude.{◌≡◌, ◌≢◌, ◌<◌, length, IfOk, MatchOption, MatchResult, OnSome, Some, None, option_map};
ghost use Rattle.serde_json.specs.Data.{item, no_items};
ghost use Rattle.serde_json.specs.View.{view};
ghost use Rattle.cedar_conform_values.specs.declared.conform_fault.ConformFault.TheVariants.{OutOfMemory, Json as IsNoJson};
ghost use Rattle.cedar_conform_entities.specs.Private.Coming.{ComesFirst, IsToldAfter, RefusesComing};
ghost use Rattle.base_json.specs.Items.{to_come};
ghost use Rattle.base_json.specs.declared.tree_fault.TreeFault.TheVariants.{Invalid};

use crate::entry::{Entry, read_entry};
use base_json::{ItemReader, TreeFault};
use cedar_conform_values::ConformFault;
use cedar_schema::Schema;
use serde_json::Value as Json;
use std::alloc::Global;

/// What the next entry denotes for the schema, and None where the list ended. Refused with a fault of the entry, once the rest
/// of the text was read and is JSON; and with 501 where it is not.
pub(crate) fn next_entry(
    alloc: Global,
    schema: &Schema,
    items: &mut ItemReader<'_>,
) -> Result<Option<Entry>, ConformFault>
    ensures entry { MatchResult result
        (λ found. MatchOption found (to_come items.old ≡ Some no_items) (ComesFirst schema.now (to_come items.old) (to_come items.new)))
        (RefusesComing schema.now (to_come items.old)) }
    ensures shorter { IfOk result (λ found. OnSome found (length items.new < length items.old)) }
{
    let Some(tree) = next_tree(alloc, items)? else {
        return Ok(None);
    };
    let read = read_entry(alloc, schema, &tree);
    drop(tree);
    match read {
        Ok(entry) => Ok(Some(entry)),
        Err(fault) => Err(after_fault(alloc, items, fault)),
    }
}

fn next_tree(alloc: Global, items: &mut ItemReader<'_>) -> Result<Option<Json>, ConformFault>
    ensures items { MatchResult result
        (λ found. MatchOption found (to_come items.old ≡ Some no_items)
        (λ v. to_come items.old ≡ option_map (item (view v)) (to_come items.new)))
        (λ f. f ≢ OutOfMemory → (f ≡ IsNoJson) × (to_come items.old ≡ None)) }
    ensures shorter { IfOk result (λ found. OnSome found (length items.new < length items.old)) }
{
    match items.next(alloc) {
        Ok(found) => Ok(found),
        Err(fault) => Err(fault_of(fault)),
    }
}

/// The fault that an entry has, or 501 where the rest of the text is not JSON: a fault in a text is reported only where the
/// text is JSON.
pub(crate) fn after_fault(
    alloc: Global,
    items: &mut ItemReader<'_>,
    fault: ConformFault,
) -> ConformFault
    ensures { IsToldAfter (to_come items.old) fault result }
{
    if let ConformFault::OutOfMemory = fault {
        return ConformFault::OutOfMemory;
    }
    match items.skip_rest(alloc) {
        Ok(()) => fault,
        Err(invalid) => fault_of(invalid),
    }
}

fn fault_of(fault: TreeFault) -> ConformFault
    ensures { result ≢ OutOfMemory → (result ≡ IsNoJson) × (fault ≡ Invalid) }
{
    match fault {
        TreeFault::OutOfMemory => ConformFault::OutOfMemory,
        TreeFault::Invalid => ConformFault::Json,
    }
}
