//! Lists of positions, each under a uid.
ghost use Rattle.std.specs.Prelude.{◌≡◌, Contains, None, OnOk};
ghost use Rattle.std.specs.Bool.{OnFalse};
ghost use Rattle.std.specs.Borrow.{Bor};
ghost use Rattle.indexmap.specs.IndexMap.{get};
ghost use Rattle.cedar_value.specs.Datum.{same_uid};
ghost use Rattle.cedar_value.specs.World.{Below};
ghost use Rattle.cedar_auth_candidates.specs.Private.Kept.{Holds, KeepsAll, KeepsNone, LacksBits, list_at};
ghost use Rattle.cedar_value.specs.declared.uid.Uid.{Uid as UidTree};

use base_bits::has_bit;
use cedar_store::{Store, UidHashing};
use cedar_value::Uid;
use indexmap::IndexMap;
use std::alloc::{AllocError, Global};

/// For each uid the positions that are kept under it.
pub(crate) type UidLists = IndexMap<Uid, Vec<usize>, UidHashing>;

/// Keeps the position under the uid too.
pub(crate) fn insert(
    alloc: Global,
    lists: &mut UidLists,
    uid: &Uid,
    position: usize,
) -> Result<(), AllocError>
    ensures kept { OnOk result (KeepsAll lists.old lists.new) }
    ensures entered { OnOk result (Contains (list_at lists.new uid.now) position) }
{
    match lists.get_mut(uid) {
        Some(list) => list.push(position)?,
        None => insert_first(alloc, lists, uid, position)?,
    }
    Ok(())
}

// Keeps the position under a uid that has no list.
fn insert_first(
    alloc: Global,
    lists: &mut UidLists,
    uid: &Uid,
    position: usize,
) -> Result<(), AllocError>
    requires { get same_uid lists.old uid.now ≡ None }
    ensures kept { OnOk result (KeepsAll lists.old lists.new) }
    ensures entered { OnOk result (Contains (list_at lists.new uid.now) position) }
{
    let mut list = Vec::new(alloc);
    list.push(position)?;
    lists.insert(uid.try_clone(alloc)?, list)?;
    Ok(())
}

/// Appends the positions that are kept under the uid.
pub(crate) fn push_list(
    lists: &UidLists,
    uid: &Uid,
    positions: &mut Vec<usize>,
) -> Result<(), AllocError>
    ensures kept { OnOk result (Holds positions.old.items positions.new.items) }
    ensures added { OnOk result (Holds (list_at lists.now uid.now) positions.new.items) }
{
    if let Some(list) = lists.get(uid) {
        positions.extend_from_slice(list)?;
    }
    Ok(())
}

/// Appends the positions that are kept under each of the uids.
pub(crate) fn push_lists(
    lists: &UidLists,
    uids: &[&Uid],
    positions: &mut Vec<usize>,
) -> Result<(), AllocError>
    ensures kept { OnOk result (Holds positions.old.items positions.new.items) }
    ensures added { OnOk result ((u : Bor UidTree) → Contains uids.now u → Holds (list_at lists.now u.now) positions.new.items) }
{
    for uid in uids {
        push_list(lists, uid, positions)?;
    }
    Ok(())
}

/// Appends the positions that are kept under each uid that the entity is below. Each uid with a list is tested, and the entity is looked
/// up once.
pub(crate) fn push_below(
    lists: &UidLists,
    entity: &Uid,
    store: &Store,
    positions: &mut Vec<usize>,
) -> Result<(), AllocError>
    ensures kept { OnOk result (Holds positions.old.items positions.new.items) }
    ensures added { OnOk result ((u : UidTree) → Below store.now entity.now u → Holds (list_at lists.now u) positions.new.items) }
{
    let entity = store.descendant(entity);
    for (uid, list) in lists.iter() {
        if entity.is_below(uid) {
            positions.extend_from_slice(list)?;
        }
    }
    Ok(())
}

// Whether the bit of one of the positions is set.
fn has_any(row: &[u64], positions: &[usize]) -> bool
    ensures { OnFalse result (LacksBits row.now positions.now) }
{
    for position in positions {
        if has_bit(row, *position) {
            return true;
        }
    }
    false
}

/// Whether a position is kept under a uid whose bit is set.
pub(crate) fn keeps_any(lists: &UidLists, row: &[u64]) -> bool
    ensures { OnFalse result (KeepsNone lists.now row.now) }
{
    for (_, list) in lists.iter() {
        if has_any(row, list) {
            return true;
        }
    }
    false
}
