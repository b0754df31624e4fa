//! The changes of a world after a call with more.
ghost use Rattle.std.specs.Prelude.{◌≡◌, IfOk, None, if◌then◌else◌};
ghost use Rattle.cedar_value.specs.Datum.{same_uid};
ghost use Rattle.cedar_value.specs.World.{entry_of};
ghost use Rattle.cedar_value.specs.declared.uid.Uid.{Uid as Uids};
ghost use Rattle.cedar_store.specs.Private.Called.{IsAfterCall, after_removals, after_upsert};
ghost use Rattle.cedar_store.specs.Private.Changing.{change_of, only, seen};

use crate::base::Base;
use crate::change::Change;
use crate::change_map::ChangeMap;
use crate::entity::Entity;
use crate::entity_table::EntityTable;
use cedar_value::{Hierarchy, Uid};
use std::alloc::{AllocError, Global};

/// The changes after a call: each uid of `removed` is removed, and then each entity of `upserted` is upserted. Takes time and
/// memory for each of them, and none for the old changes.
pub(crate) fn with_more(
    alloc: Global,
    base: &Base,
    old: &ChangeMap,
    removed: &[Uid],
    upserted: EntityTable,
) -> Result<ChangeMap, AllocError>
    ensures { IfOk result (λ new. IsAfterCall base.now.world old.now removed.now upserted new) }
{
    let changes = with_removals(alloc, base, old, removed)?;
    Ok(with_upserts(alloc, changes, upserted.into_entities())?)
}

// The changes after the uids are removed.
fn with_removals(
    alloc: Global,
    base: &Base,
    old: &ChangeMap,
    removed: &[Uid],
) -> Result<ChangeMap, AllocError>
    ensures { IfOk result (λ new. (u : Uids) → seen base.now.world new u ≡ after_removals removed.now (seen base.now.world old.now) u) }
{
    let mut changes = old.try_clone()?;
    for uid in removed {
        changes = with_removal(alloc, base, changes, uid)?;
    }
    Ok(changes)
}

// The changes after the uid is removed. Nothing is kept of a uid that is not there. The removal of one that the base lacks is idle.
fn with_removal(
    alloc: Global,
    base: &Base,
    old: ChangeMap,
    uid: &Uid,
) -> Result<ChangeMap, AllocError>
    ensures { IfOk result (λ new. (u : Uids) → seen base.now.world new u ≡ (if same_uid uid.now u then only None else seen base.now.world old u)) }
{
    let is_in_base = base.has(uid);
    let is_there = match old.get(uid) {
        Some(change) => change.entity.is_some(),
        None => is_in_base,
    };
    if !is_there {
        return Ok(old);
    }
    let change = Change {
        uid: uid.try_clone(alloc)?,
        entity: None,
    };
    let changes = old.with(alloc, change)?;
    if is_in_base {
        Ok(changes)
    } else {
        Ok(changes.with_one_idle())
    }
}

// The changes after the entities are upserted, the last one first. Where a uid is there twice, its first entity counts.
fn with_upserts(
    alloc: Global,
    old: ChangeMap,
    mut entities: Vec<Entity>,
) -> Result<ChangeMap, AllocError>
    ensures { IfOk result (λ new. (u : Uids) → change_of new u ≡ after_upsert u (entry_of entities.items u) (change_of old u)) }
{
    let mut changes = old;
    'last: while let Some(entity) = entities.pop() {
        let change = Change {
            uid: entity.uid.try_clone(alloc)?,
            entity: Some(entity),
        };
        changes = changes.with(alloc, change)?;
    }
    Ok(changes)
}
