//! The part of the world that is kept apart, made anew after more changes.
ghost use Rattle.std.specs.Prelude.{◌≡◌, Contains, IfErr, IfOk, OnOk};
ghost use Rattle.base_reach.specs.Private.Lent.{lent};
ghost use Rattle.cedar_value.specs.World.{parents_of};
ghost use Rattle.cedar_value.specs.declared.uid.Uid.{Uid as Uids};
ghost use Rattle.cedar_store.specs.Private.Called.{AreSettledAnew, IsCycleThere};
ghost use Rattle.cedar_store.specs.Private.Overlaid.{IsNoted, IsNumbered, IsSettled, world_over};
ghost use Rattle.cedar_store.specs.Private.Parts.{AreKnownDue};

use crate::base::Base;
use crate::change_map::ChangeMap;
use crate::changed_links::ChangedLinks;
use crate::noting::sifted;
use crate::part::part_above;
use crate::store_fault::StoreFault;
use base_reach::Links;
use base_search::Row;
use cedar_value::Uid;
use std::alloc::{AllocError, Global};

/// The part of the world above the parents without a number of all entities that are upserted, of which these are new, and the uids with a number that are marked or below a uid that is marked. All links above each of them are followed once. A parent that has no parents, and had none before the changes, is only noted.
///
/// # Errors
///
/// 402 where a uid of the part is below itself, and 1 when out of memory.
pub(crate) fn settled_anew<'s>(
    alloc: Global,
    links: &'s ChangedLinks<'s>,
    marks: &Row,
    old: &'s Base,
    noted: &ChangeMap,
    uids: &'s [Uid],
) -> Result<(Base, ChangeMap), StoreFault>
    ensures settled { IfOk result (λ r. AreSettledAnew links.now.base.now links.now.changes.now marks.now old.now.world noted.now uids.now r.0.world r.1) }
    ensures refused { IfErr result (IsCycleThere (world_over links.now.base.now.world links.now.changes.now)) }
{
    let mut found = Vec::new(alloc);
    let begun = push_known(links, old, noted, uids, &mut found)?;
    let mut due = Vec::new(alloc);
    let noted_too = sifted(alloc, links, begun, &found, &mut due)?;
    links.base.push_marked(marks, &mut due)?;
    let part = part_above(alloc, links, &due)?;
    let settled = Base::build(alloc, part)?;
    // Nothing of it is below itself.
    settled.facts();
    Ok((settled, noted_too))
}

// Appends the uids without a number that are to be noted, and gives the notes that stay. Those are the old ones, and the uids are those of
// the old part, the parents of these entities, and what was noted of them. Once many have been noted, none stay, and all changes are gone
// through: what only removed entities named is then forgotten.
fn push_known<'s>(
    links: &'s ChangedLinks<'_>,
    old: &'s Base,
    noted: &ChangeMap,
    uids: &'s [Uid],
    due: &mut Vec<&'s Uid>,
) -> Result<ChangeMap, AllocError>
    ensures { IfOk result (λ begun. AreKnownDue links.now.base.now links.now.changes.now old.now.world noted.now uids.now (lent due.new.items) begun) }
{
    if noted.has_no_room() {
        links.changes.push_parents(links.base, due)?;
        // Each of these is noted, and after that half as many as there are changes.
        let room = links
            .changes
            .len()
            .saturating_add(due.len().saturating_mul(2));
        return Ok(noted.none().with_none_idle(room));
    }
    push_settled(links.base, old, due)?;
    push_parents(links, uids, due)?;
    push_noted(noted, uids, due)?;
    noted.try_clone()
}

// Appends each of the uids that is noted.
fn push_noted<'s>(
    noted: &ChangeMap,
    uids: &'s [Uid],
    due: &mut Vec<&'s Uid>,
) -> Result<(), AllocError>
    ensures kept { OnOk result ((p : Uids) → Contains (lent due.old.items) p → Contains (lent due.new.items) p) }
    ensures noted { OnOk result ((u : Uids) → Contains uids.now u → IsNoted noted.now u → Contains (lent due.new.items) u) }
{
    for uid in uids {
        if noted.get(uid).is_some() {
            due.push(uid)?;
        }
    }
    Ok(())
}

// Appends each uid of the part that has no number.
fn push_settled<'s>(base: &Base, part: &'s Base, due: &mut Vec<&'s Uid>) -> Result<(), AllocError>
    ensures kept { OnOk result ((p : Uids) → Contains (lent due.old.items) p → Contains (lent due.new.items) p) }
    ensures settled { OnOk result ((p : Uids) → IsSettled part.now.world p → ¬ IsNumbered base.now p → Contains (lent due.new.items) p) }
{
    for entity in part.entities() {
        if !base.is_numbered(&entity.uid) {
            due.push(&entity.uid)?;
        }
    }
    Ok(())
}

// Appends each parent of the entities that has no number.
fn push_parents<'s>(
    links: &'s ChangedLinks<'_>,
    uids: &[Uid],
    due: &mut Vec<&'s Uid>,
) -> Result<(), AllocError>
    ensures kept { OnOk result ((p : Uids) → Contains (lent due.old.items) p → Contains (lent due.new.items) p) }
    ensures parents { OnOk result ((u p : Uids) → Contains uids.now u
        → Contains (parents_of (world_over links.now.base.now.world links.now.changes.now) u) p
        → ¬ IsNumbered links.now.base.now p → Contains (lent due.new.items) p) }
{
    for uid in uids {
        push_unnumbered(links.base, links.links(uid), due)?;
    }
    Ok(())
}

/// Appends each of the uids that has no number.
pub(crate) fn push_unnumbered<'s>(
    base: &Base,
    uids: &'s [Uid],
    due: &mut Vec<&'s Uid>,
) -> Result<(), AllocError>
    ensures kept { OnOk result ((p : Uids) → Contains (lent due.old.items) p → Contains (lent due.new.items) p) }
    ensures appended { OnOk result ((p : Uids) → Contains uids.now p → ¬ IsNumbered base.now p → Contains (lent due.new.items) p) }
{
    for uid in uids {
        if !base.is_numbered(uid) {
            due.push(uid)?;
        }
    }
    Ok(())
}
