//! What a store keeps of more changes.
ghost use Rattle.std.specs.Prelude.{◌≡◌, IfErr, IfOk};
ghost use Rattle.cedar_store.specs.Changes.{changed as changed_world, IsThereInChanges};
ghost use Rattle.cedar_store.specs.Entities.{uids_of};
ghost use Rattle.cedar_store.specs.Private.Called.{DoLinksStay};
ghost use Rattle.cedar_store.specs.Private.Overlaid.{IsOverlaid, world_over};
ghost use Rattle.cedar_value.specs.World.{entry_of};
ghost use Rattle.cedar_value.specs.declared.uid.Uid.{Uid as Uids};

use crate::base::Base;
use crate::call_marks::{copied, marked_too};
use crate::change_map::ChangeMap;
use crate::changed_links::ChangedLinks;
use crate::entity_table::EntityTable;
use crate::links_stay::do_links_stay;
use crate::more_changes::with_more;
use crate::overlay::Overlay;
use crate::settling::settled_anew;
use crate::store_fault::StoreFault;
use base_search::Row;
use cedar_value::Uid;
use std::alloc::{AllocError, Global};
use std::sync::Arc;

/// What a store keeps of changes, without the entities that were read whole.
#[derive(Drop)]
pub(crate) struct Kept {
    pub(crate) changes: ChangeMap,
    pub(crate) marks: Row,
    pub(crate) settled: Arc<Base, Global>,
    pub(crate) noted: ChangeMap,
}

/// What a store keeps after more changes.
///
/// Where each uid that the call names and something is below keeps its parents, only the marks are copied, and the part that is kept
/// apart is shared. Else the part is made anew: all its links are followed, each once.
///
/// # Errors
///
/// 402 where an entity is below itself after the changes, and 1 when out of memory.
pub(crate) fn changed(
    alloc: Global,
    overlay: &Overlay<'_>,
    settled: &Arc<Base, Global>,
    removed: &[Uid],
    upserted: EntityTable,
) -> Result<Kept, StoreFault>
    requires overlaid { IsOverlaid overlay.now.base.now overlay.now.changes.now overlay.now.marks.now overlay.now.settled.now.world overlay.now.noted.now }
    requires same { settled.now.value ≡ overlay.now.settled.now }
    ensures overlaid { IfOk result (λ k. IsOverlaid overlay.now.base.now k.changes k.marks k.settled.value.world k.noted) }
    ensures entries { IfOk result (λ k. (u : Uids) → entry_of (world_over overlay.now.base.now.world k.changes) u
        ≡ entry_of (changed_world (world_over overlay.now.base.now.world overlay.now.changes.now) removed.now upserted) u) }
    ensures refused { IfErr result (IsThereInChanges (world_over overlay.now.base.now.world overlay.now.changes.now) removed.now upserted) }
{
    let links = ChangedLinks {
        base: overlay.base,
        changes: overlay.changes,
    };
    if do_links_stay(&links, overlay.settled, overlay.noted, removed, &upserted) {
        with_links_kept(alloc, overlay, settled, removed, upserted)
    } else {
        with_links_changed(alloc, overlay, removed, upserted)
    }
}

// What a store keeps after changes that leave alone what anything else is below.
fn with_links_kept(
    alloc: Global,
    overlay: &Overlay<'_>,
    settled: &Arc<Base, Global>,
    removed: &[Uid],
    upserted: EntityTable,
) -> Result<Kept, StoreFault>
    requires overlaid { IsOverlaid overlay.now.base.now overlay.now.changes.now overlay.now.marks.now overlay.now.settled.now.world overlay.now.noted.now }
    requires same { settled.now.value ≡ overlay.now.settled.now }
    requires stay { DoLinksStay overlay.now.base.now overlay.now.changes.now overlay.now.settled.now.world overlay.now.noted.now removed.now upserted }
    ensures overlaid { IfOk result (λ k. IsOverlaid overlay.now.base.now k.changes k.marks k.settled.value.world k.noted) }
    ensures entries { IfOk result (λ k. (u : Uids) → entry_of (world_over overlay.now.base.now.world k.changes) u
        ≡ entry_of (changed_world (world_over overlay.now.base.now.world overlay.now.changes.now) removed.now upserted) u) }
    ensures refused { IfErr result (IsThereInChanges (world_over overlay.now.base.now.world overlay.now.changes.now) removed.now upserted) }
{
    // What something is below in the base has a number, and no two changes have one uid.
    overlay.base.facts();
    overlay.changes.facts();
    let marks = copied(alloc, overlay.base, overlay.marks)?;
    let changes = with_more(alloc, overlay.base, overlay.changes, removed, upserted)?;
    // No two of the new changes have one uid.
    changes.facts();
    let settled = Arc::try_clone(settled)?;
    let noted = overlay.noted.try_clone()?;
    Ok(Kept {
        changes,
        marks,
        settled,
        noted,
    })
}

// What a store keeps after changes, with the part that is kept apart made anew.
fn with_links_changed(
    alloc: Global,
    overlay: &Overlay<'_>,
    removed: &[Uid],
    upserted: EntityTable,
) -> Result<Kept, StoreFault>
    requires overlaid { IsOverlaid overlay.now.base.now overlay.now.changes.now overlay.now.marks.now overlay.now.settled.now.world overlay.now.noted.now }
    ensures overlaid { IfOk result (λ k. IsOverlaid overlay.now.base.now k.changes k.marks k.settled.value.world k.noted) }
    ensures entries { IfOk result (λ k. (u : Uids) → entry_of (world_over overlay.now.base.now.world k.changes) u
        ≡ entry_of (changed_world (world_over overlay.now.base.now.world overlay.now.changes.now) removed.now upserted) u) }
    ensures refused { IfErr result (IsThereInChanges (world_over overlay.now.base.now.world overlay.now.changes.now) removed.now upserted) }
{
    // What something is below in the base has a number, and no two changes have one uid.
    overlay.base.facts();
    overlay.changes.facts();
    let marks = marked_too(alloc, overlay.base, overlay.marks, removed, &upserted)?;
    let uids = copied_uids(alloc, &upserted)?;
    let changes = with_more(alloc, overlay.base, overlay.changes, removed, upserted)?;
    // No two of the new changes have one uid.
    changes.facts();
    let links = ChangedLinks {
        base: overlay.base,
        changes: &changes,
    };
    let anew = settled_anew(alloc, &links, &marks, overlay.settled, overlay.noted, &uids)?;
    let (part, noted) = anew;
    let settled = Arc::new(alloc, part)?;
    Ok(Kept {
        changes,
        marks,
        settled,
        noted,
    })
}

// The uids of the entities.
fn copied_uids(alloc: Global, entities: &EntityTable) -> Result<Vec<Uid>, AllocError>
    ensures { IfOk result (λ uids. uids.items ≡ uids_of entities.now) }
{
    let mut uids = Vec::new(alloc);
    for entity in entities.entities() {
        uids.push(entity.uid.try_clone(alloc)?)?;
    }
    Ok(uids)
}
