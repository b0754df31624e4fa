//! The scalars of an array or an object, up to the next value that nests. They are read by functions that do not call
//! themselves, so a level of nesting takes little of the call stack.
ghost use Rattle.std.specs.Prelude.{◌≡◌, ◌≢◌, ◌<◌, ◌≤◌, ℕ, length, None, Err, IfOk, OnOk};
ghost use Rattle.serde_json.specs.View.{members_view};
ghost use Rattle.base_json.specs.Private.Steps.{AddsItems, AddsMembers, items_after, members_after, with_member};
ghost use Rattle.base_json.specs.declared.tree_fault.TreeFault.TheVariants.{Invalid};

use crate::step::{Opened, Step, read_step};
use crate::tree_fault::TreeFault;
use json::Reader;
use serde_json::{Map, Value};
use std::alloc::Global;

/// Adds the next items of an array to those found, up to one that nests: what opens there. None at the end of the array.
#[inline(never)]
pub(crate) fn add_items(
    alloc: Global,
    reader: &mut Reader<'_>,
    found: &mut Vec<Value>,
) -> Result<Option<Opened>, TreeFault>
    ensures ok { IfOk result (AddsItems found.old.items found.new.items reader.old reader.new) }
    ensures shorter { OnOk result (length reader.new < length reader.old) }
    ensures err { result ≡ Err Invalid → (n depth : ℕ) → length reader.old ≤ n → items_after found.old.items depth n reader.old ≡ None }
{
    'items: while !reader.take_end_array() {
        match read_step(alloc, reader)? {
            Step::Scalar(item) => found.push(item)?,
            Step::Nested(opened) => return Ok(Some(opened)),
        }
    }
    Ok(None)
}

/// Puts the last member that was read among those found, if there is one, and then the next members of the object, up to one
/// whose value nests: its key, and what opens there. None at the end of the object. Where a key is repeated, its last value
/// counts (RFC 8259).
#[inline(never)]
pub(crate) fn add_members(
    alloc: Global,
    reader: &mut Reader<'_>,
    found: &mut Map<String, Value>,
    mut last: Option<(String, Value)>,
) -> Result<Option<(String, Opened)>, TreeFault>
    ensures ok { IfOk result (AddsMembers (with_member last (members_view found.old.entries)) (members_view found.new.entries) reader.old reader.new) }
    ensures shorter { OnOk result (length reader.new < length reader.old) }
    ensures err { result ≡ Err Invalid → (n depth : ℕ) → length reader.old ≤ n
        → members_after (with_member last (members_view found.old.entries)) depth n reader.old ≡ None }
{
    'members: loop {
        put(found, last)?;
        let Some(name) = reader.next_key()? else {
            return Ok(None);
        };
        let key = String::from_str(alloc, name)?;
        match read_step(alloc, reader)? {
            Step::Scalar(member) => last = Some((key, member)),
            Step::Nested(opened) => return Ok(Some((key, opened))),
        }
    }
}

// Puts the member among those found, and drops the value that it replaces.
#[inline(always)]
fn put(found: &mut Map<String, Value>, member: Option<(String, Value)>) -> Result<(), TreeFault>
    ensures ok { OnOk result (members_view found.new.entries ≡ with_member member (members_view found.old.entries)) }
    ensures memory { result ≢ Err Invalid }
{
    if let Some((key, value)) = member {
        drop(found.insert(key, value)?);
    }
    Ok(())
}
