//! Whether a call of more changes leaves alone what anything else is below.
ghost use Rattle.std.specs.Prelude.{◌≡◌, ◌↔◌, Contains, IsTrue};
ghost use Rattle.cedar_value.specs.declared.uid.Uid.{Uid as Uids};
ghost use Rattle.cedar_store.specs.Private.Called.{DoLinksStay, DoParentsStay};
ghost use Rattle.cedar_store.specs.Private.Overlaid.{IsLinked};

use crate::base::Base;
use crate::change_map::ChangeMap;
use crate::changed_links::ChangedLinks;
use crate::entity_table::EntityTable;
use base_reach::Links;
use cedar_value::{Hierarchy, Uid};

/// Whether each uid that the call names and something is below keeps its parents, in their order, and each parent of the entities
/// that it upserts has a number, is in the part that is kept apart, or is noted. Looks up each of these uids, and takes no memory.
pub(crate) fn do_links_stay(
    links: &ChangedLinks<'_>,
    settled: &Base,
    noted: &ChangeMap,
    removed: &[Uid],
    upserted: &EntityTable,
) -> bool
    ensures { IsTrue result → DoLinksStay links.now.base.now links.now.changes.now settled.now.world noted.now removed.now upserted.now }
{
    for uid in removed {
        if !do_parents_stay(links, settled, noted, upserted, uid) {
            return false;
        }
    }
    for entity in upserted.entities() {
        if !do_parents_stay(links, settled, noted, upserted, &entity.uid)
            || !are_linked(links.base, settled, noted, &entity.parents)
        {
            return false;
        }
    }
    true
}

// Whether nothing is below a uid that the call names, or the uid keeps its parents, in their order.
fn do_parents_stay(
    links: &ChangedLinks<'_>,
    settled: &Base,
    noted: &ChangeMap,
    upserted: &EntityTable,
    uid: &Uid,
) -> bool
    ensures { IsTrue result → DoParentsStay links.now.base.now links.now.changes.now settled.now.world noted.now upserted.now uid.now }
{
    !is_linked(links.base, settled, noted, uid) || upserted.links(uid) == links.links(uid)
}

// Whether each uid has a number, is in the part that is kept apart, or is noted.
fn are_linked(base: &Base, settled: &Base, noted: &ChangeMap, uids: &[Uid]) -> bool
    ensures { IsTrue result → (p : Uids) → Contains uids.now p → IsLinked base.now settled.now.world noted.now p }
{
    for uid in uids {
        if !is_linked(base, settled, noted, uid) {
            return false;
        }
    }
    true
}

// Whether the uid has a number, is in the part that is kept apart, or is noted.
fn is_linked(base: &Base, settled: &Base, noted: &ChangeMap, uid: &Uid) -> bool
    ensures { IsTrue result ↔ IsLinked base.now settled.now.world noted.now uid.now }
{
    settled.has(uid) || base.is_numbered(uid) || noted.get(uid).is_some()
}
