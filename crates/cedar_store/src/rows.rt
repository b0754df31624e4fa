//! What is above each uid with a number, as rows of bits.
ghost use Rattle.std.specs.Prelude.{IfErr, IfOk, OnOk};
ghost use Rattle.cedar_store.specs.Entities.{IsAcyclic};
ghost use Rattle.cedar_store.specs.Faults.{IsThere};
ghost use Rattle.cedar_store.specs.Private.Kept.{AreParentsNumbered, AreRows, IsNumberGraph};

use crate::entity_table::EntityTable;
use crate::numbers::{Numbers, uid_at};
use crate::store_fault::StoreFault;
use base_search::{Graph, Row, SearchFault, acyclic_rows};
use std::alloc::Global;

/// For each number the row of what its uid is below, or 402 where an entity is below itself.
pub(crate) fn all_rows(
    alloc: Global,
    table: &EntityTable,
    numbers: &Numbers,
    graph: &Graph,
) -> Result<Vec<Row>, StoreFault>
    requires graph { IsNumberGraph numbers.now.keys table.now graph.now.lists graph.now.places.items }
    requires whole { AreParentsNumbered numbers.now.keys table.now }
    ensures rows { IfOk result (λ rows. AreRows numbers.now.keys table.now rows.items) }
    ensures acyclic { OnOk result (IsAcyclic table.now) }
    ensures refused { IfErr result (IsThere table.now) }
{
    match acyclic_rows(alloc, graph) {
        Ok(rows) => Ok(rows),
        Err(SearchFault::OutOfMemory) => Err(StoreFault::OutOfMemory),
        Err(SearchFault::Circle(number)) => {
            Err(StoreFault::Cycle(uid_at(numbers, number).try_clone(alloc)?))
        }
    }
}
