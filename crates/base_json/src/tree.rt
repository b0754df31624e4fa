//! The tree of tokens.
ghost use Rattle.std.specs.Prelude.{◌≡◌, ◌<◌, ◌≤◌, ◌∷◌, length, Some, None, Err, IfOk, OnOk};
ghost use Rattle.json.specs.Json.{value, items, members};
ghost use Rattle.json.specs.Reads.{token_of};
ghost use Rattle.serde_json.specs.Data.{no_members};
ghost use Rattle.serde_json.specs.Read.{of_json, of_items, of_members, converted};
ghost use Rattle.serde_json.specs.View.{view, items_view, members_view};
ghost use Rattle.base_json.specs.Private.Steps.{opening};
ghost use Rattle.base_json.specs.declared.tree_fault.TreeFault.TheVariants.{Invalid};

use crate::scalars::{add_items, add_members};
use crate::step::{Opened, Step, read_step, step_of};
use crate::tree_fault::TreeFault;
use json::{Reader, Token};
use serde_json::{Map, Value};
use std::alloc::Global;

/// The tree of the next value, whose arrays and objects may nest `depth` deep. Where a key is repeated, its last value counts
/// (RFC 8259).
#[inline(always)]
pub(crate) fn read_tree(
    alloc: Global,
    reader: &mut Reader<'_>,
    depth: usize,
) -> Result<Value, TreeFault>
    ensures ok { IfOk result (λ v. converted of_json (value depth reader.old) ≡ Some (view v, reader.new)) }
    ensures shorter { OnOk result (length reader.new < length reader.old) }
    ensures err { result ≡ Err Invalid → converted of_json (value depth reader.old) ≡ None }
{
    match read_step(alloc, reader)? {
        Step::Scalar(value) => Ok(value),
        Step::Nested(opened) => read_nested(alloc, reader, opened, depth),
    }
}

/// The tree of the value that begins with a token, as [`read_tree`] gives it.
#[inline(always)]
pub(crate) fn tree_after(
    alloc: Global,
    reader: &mut Reader<'_>,
    token: Token<'_>,
    depth: usize,
) -> Result<Value, TreeFault>
    ensures ok { IfOk result (λ v. converted of_json (value depth (token_of token.entry ∷ reader.old)) ≡ Some (view v, reader.new)) }
    ensures no_longer { OnOk result (length reader.new ≤ length reader.old) }
    ensures err { result ≡ Err Invalid → converted of_json (value depth (token_of token.entry ∷ reader.old)) ≡ None }
{
    match step_of(alloc, token)? {
        Step::Scalar(value) => Ok(value),
        Step::Nested(opened) => read_nested(alloc, reader, opened, depth),
    }
}

// The array or the object that was opened, one of `depth` levels.
#[cycle(read_nested)]
#[inline(always)]
fn read_nested(
    alloc: Global,
    reader: &mut Reader<'_>,
    opened: Opened,
    depth: usize,
) -> Result<Value, TreeFault>
    ensures ok { IfOk result (λ v. converted of_json (value depth (opening opened ∷ reader.old)) ≡ Some (view v, reader.new)) }
    ensures shorter { OnOk result (length reader.new < length reader.old) }
    ensures err { result ≡ Err Invalid → converted of_json (value depth (opening opened ∷ reader.old)) ≡ None }
{
    if depth == 0 {
        return Err(TreeFault::Invalid);
    }
    match opened {
        Opened::Array => Ok(Value::Array(read_items(alloc, reader, depth - 1)?)),
        Opened::Object => Ok(Value::Object(read_members(alloc, reader, depth - 1)?)),
    }
}

// The items of an array that was opened, up to its bracket.
#[cycle(read_nested)]
#[inline(never)]
fn read_items(alloc: Global, reader: &mut Reader<'_>, depth: usize) -> Result<Vec<Value>, TreeFault>
    ensures ok { IfOk result (λ v. converted of_items (items (value depth) (length reader.old) reader.old)
        ≡ Some (items_view v.items, reader.new)) }
    ensures shorter { OnOk result (length reader.new < length reader.old) }
    ensures err { result ≡ Err Invalid → converted of_items (items (value depth) (length reader.old) reader.old) ≡ None }
{
    let mut found = Vec::new(alloc);
    'items: while let Some(opened) = add_items(alloc, reader, &mut found)? {
        let item = read_nested(alloc, reader, opened, depth)?;
        found.push(item)?;
    }
    Ok(found)
}

// The members of an object that was opened, up to its brace.
#[cycle(read_nested)]
#[inline(never)]
fn read_members(
    alloc: Global,
    reader: &mut Reader<'_>,
    depth: usize,
) -> Result<Map<String, Value>, TreeFault>
    ensures ok { IfOk result (λ m. converted (λ ms. of_members ms no_members) (members (value depth) (length reader.old) reader.old)
        ≡ Some (members_view m.entries, reader.new)) }
    ensures shorter { OnOk result (length reader.new < length reader.old) }
    ensures err { result ≡ Err Invalid
        → converted (λ ms. of_members ms no_members) (members (value depth) (length reader.old) reader.old) ≡ None }
{
    let mut found = Map::new(alloc);
    let mut nested = None;
    'members: while let Some((key, opened)) = add_members(alloc, reader, &mut found, nested)? {
        let member = read_nested(alloc, reader, opened, depth)?;
        nested = Some((key, member));
    }
    Ok(found)
}
