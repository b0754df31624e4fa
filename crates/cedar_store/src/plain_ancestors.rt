//! What is above each entity, as sets of uids.
ghost use Rattle.std.specs.Prelude.{IfOk, IfErr, OnOk};
ghost use Rattle.std.specs.List.{AllZip};
ghost use Rattle.cedar_store.specs.Entities.{IsAcyclic};
ghost use Rattle.cedar_store.specs.Faults.{IsThere};
ghost use Rattle.cedar_store.specs.Private.Kept.{HasAncestors};

use crate::entity_table::EntityTable;
use crate::store_fault::StoreFault;
use base_reach::closure_from;
use cedar_value::Uid;
use std::alloc::Global;
use std::collections::BTreeSet;

/// For each entity of the table the set of what it is below, or 402 where an entity is below itself.
pub(crate) fn all_ancestors(
    alloc: Global,
    table: &EntityTable,
) -> Result<Vec<BTreeSet<Uid>>, StoreFault>
    ensures ancestors { IfOk result (λ rows. AllZip (HasAncestors table.now) table.now rows.items) }
    ensures acyclic { OnOk result (IsAcyclic table.now) }
    ensures refused { IfErr result (IsThere table.now) }
{
    let mut rows = Vec::new(alloc);
    for entity in table.entities() {
        let uid = &entity.uid;
        let ancestors = closure_from(alloc, table, uid)?;
        if ancestors.contains(uid) {
            return Err(StoreFault::Cycle(uid.try_clone(alloc)?));
        }
        rows.push(ancestors)?;
    }
    Ok(rows)
}
