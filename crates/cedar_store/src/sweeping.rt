//! Changes without those that are idle.
ghost use Rattle.std.specs.Prelude.{◌≡◌, IfOk};
ghost use Rattle.cedar_value.specs.World.{entry_of};
ghost use Rattle.cedar_value.specs.declared.uid.Uid.{Uid as Uids};
ghost use Rattle.cedar_store.specs.Private.Changing.{seen};
ghost use Rattle.cedar_store.specs.Private.Overlaid.{IsOverlaid, world_over};

use crate::base::Base;
use crate::change_map::ChangeMap;
use crate::changing::Kept;
use std::alloc::{AllocError, Global};

/// What a store keeps, without the changes that are idle once there are many: those that remove a uid which the base lacks.
///
/// All changes are gone through where about half as many have become idle as were needed the last time. So time is in proportion to
/// the changes that came since then, and where n changes are needed at most n + 126 more are kept.
///
/// # Errors
///
/// Fails only when out of memory.
pub(crate) fn without_idle(alloc: Global, base: &Base, kept: Kept) -> Result<Kept, AllocError>
    requires { IsOverlaid base.now kept.changes kept.marks kept.settled.value.world kept.noted }
    ensures overlaid { IfOk result (λ k. IsOverlaid base.now k.changes k.marks k.settled.value.world k.noted) }
    ensures entries { IfOk result (λ k. (u : Uids) → entry_of (world_over base.now.world k.changes) u ≡ entry_of (world_over base.now.world kept.changes) u) }
{
    if !kept.changes.has_no_room() {
        return Ok(kept);
    }
    // No two changes have one uid.
    kept.changes.facts();
    let changes = swept(alloc, base, &kept.changes)?;
    changes.facts();
    Ok(Kept { changes, ..kept })
}

// The changes that are needed over the base, the last one first.
fn swept(alloc: Global, base: &Base, old: &ChangeMap) -> Result<ChangeMap, AllocError>
    ensures { IfOk result (λ new. (u : Uids) → seen base.now.world new u ≡ seen base.now.world old.now u) }
{
    // No two changes have one uid.
    old.facts();
    let mut all = old.all(alloc)?;
    let mut changes = old.none();
    let mut needed: usize = 0;
    'last: while let Some(change) = all.pop() {
        if change.is_needed(base) {
            changes = changes.with_shared(alloc, change)?;
            needed = needed.saturating_add(1);
        }
    }
    Ok(changes.with_none_idle(needed))
}
