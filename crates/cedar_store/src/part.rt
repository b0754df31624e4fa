//! The part of a world above some uids.
ghost use Rattle.std.specs.Prelude.{◌≡◌, ◌∷◌, [], IfOk, OnOk};
ghost use Rattle.base_reach.specs.Private.Lent.{lent};
ghost use Rattle.cedar_store.specs.Private.Overlaid.{world_over};
ghost use Rattle.cedar_store.specs.Private.Parts.{GainsUids, IsPartAbove};

use crate::changed_links::ChangedLinks;
use crate::entity::Entity;
use crate::numbers::Numbers;
use crate::uid_hashing::UidHashing;
use base_reach::Links;
use cedar_value::{Record, Uid};
use indexmap::IndexSet;
use std::alloc::{AllocError, Global};

/// The part of the world above these uids: each of them and each uid above one, as an entity with its parents and without attributes,
/// once. A uid that the world lacks has no parents. Time grows with the links of the part.
///
/// # Errors
///
/// Fails only when out of memory.
pub(crate) fn part_above(
    alloc: Global,
    links: &ChangedLinks<'_>,
    due: &[&Uid],
) -> Result<Vec<Entity>, AllocError>
    ensures { IfOk result (λ part. IsPartAbove (world_over links.now.base.now.world links.now.changes.now) (lent due.now) part.items) }
{
    let mut met = IndexSet::with_hasher(alloc, UidHashing::of_uids(due));
    for uid in due {
        meet(alloc, &mut met, *uid)?;
    }
    let mut part = Vec::new(alloc);
    for place in 0..usize::MAX {
        let Some(uid) = met.as_slice().get(place) else {
            return Ok(part);
        };
        let parents = links.links(uid);
        part.push(bare(alloc, uid, parents)?)?;
        meet_all(alloc, &mut met, parents)?;
    }
    // No memory holds so many uids.
    Err(AllocError)
}

// An entity without attributes.
fn bare(alloc: Global, uid: &Uid, parents: &[Uid]) -> Result<Entity, AllocError>
    ensures uid { IfOk result (λ e. e.uid ≡ uid.now) }
    ensures parents { IfOk result (λ e. e.parents ≡ parents.now) }
{
    let mut copies = Vec::with_capacity(alloc, parents.len())?;
    for parent in parents {
        copies.push(parent.try_clone(alloc)?)?;
    }
    Ok(Entity {
        uid: uid.try_clone(alloc)?,
        attrs: Record::new(alloc),
        parents: copies,
    })
}

// Appends each of the uids that is not there.
fn meet_all(alloc: Global, met: &mut Numbers, uids: &[Uid]) -> Result<(), AllocError>
    ensures { OnOk result (GainsUids met.old.keys uids.now met.new.keys) }
{
    for uid in uids {
        meet(alloc, met, uid)?;
    }
    Ok(())
}

// Appends the uid, where it is not there.
fn meet(alloc: Global, met: &mut Numbers, uid: &Uid) -> Result<(), AllocError>
    ensures { OnOk result (GainsUids met.old.keys (uid.now ∷ []) met.new.keys) }
{
    if met.contains(uid) {
        return Ok(());
    }
    met.insert(uid.try_clone(alloc)?)?;
    Ok(())
}
