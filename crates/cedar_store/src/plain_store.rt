//! The entity store that keeps sets of uids.
ghost use Rattle.std.specs.Prelude.{◌≡◌, IfOk, IfErr, OnOk, MatchOption};
ghost use Rattle.std.specs.BTreeSet.{contains};
ghost use Rattle.cedar_value.specs.Order.{uid_cmp};
ghost use Rattle.cedar_value.specs.World.{Below};
ghost use Rattle.cedar_store.specs.Entities.{AreUidsDistinct, IsAcyclic};
ghost use Rattle.cedar_store.specs.Faults.{IsThere};
ghost use Rattle.cedar_store.specs.Private.Kept.{AreAncestors};

use crate::entity::Entity;
use crate::entity_table::EntityTable;
use crate::plain_ancestors::all_ancestors;
use crate::plain_sets::has_any;
use crate::store_fault::StoreFault;
use cedar_value::{Hierarchy, Record, Uid, ValueSet};
use std::alloc::Global;
use std::collections::BTreeSet;
use std::marker::Model;

/// Entities with a set of uids for what is above each of them, which contracts see as their world: the list of the entities, in
/// the order in which they were handed in. It answers as `Store` does, which takes less memory, and is there to be compared
/// with it.
#[derive(Drop)]
pub struct PlainStore {
    table: EntityTable,
    ancestors: Vec<BTreeSet<Uid>>,
}

impl Model for PlainStore {
    ghost use Rattle.std.specs.List.{AllZip};
    ghost use Rattle.std.specs.Coded.{codes};
    ghost use Rattle.cedar_value.specs.Private.DatumCode.{datum_code};
    ghost use Rattle.cedar_value.specs.World.{World};
    ghost use Rattle.cedar_store.specs.Private.Kept.{HasAncestors};

    ghost Value = { World };

    ghost coded = { Prim.hlevel (codes, datum_code) };

    ghost view = { λ s. s.table };

    ghost invariant = { λ s. AllZip (HasAncestors s.table) s.table s.ancestors.items };
}

impl PlainStore {
    /// The store of these entities (Cedar language reference, entities and hierarchy).
    ///
    /// Time and memory grow with the number of pairs of an entity and what it is below. A long row of entities, each in the
    /// next, costs the square of its length.
    ///
    /// # Errors
    ///
    /// 401 where a uid is repeated, 402 where an entity is below itself, and 1 when out of memory. After an error nothing is
    /// kept.
    pub fn build(alloc: Global, entities: Vec<Entity>) -> Result<Self, StoreFault>
        ensures world { IfOk result (λ s. s ≡ entities.items) }
        ensures distinct { OnOk result (AreUidsDistinct entities.items) }
        ensures acyclic { OnOk result (IsAcyclic entities.items) }
        ensures refused { IfErr result (IsThere entities.items) }
    {
        let table = EntityTable::new(alloc, entities)?;
        let ancestors = all_ancestors(alloc, &table)?;
        Ok(PlainStore { table, ancestors })
    }

    // What an entity is below. None where the store lacks the entity, which is then below nothing.
    fn ancestors(&self, low: &Uid) -> Option<&BTreeSet<Uid>>
        ensures { MatchOption result ((v : Uid) → ¬ Below self.now low.now v)
            (λ s. AreAncestors self.now low.now (contains uid_cmp s.now)) }
    {
        match self.table.place(low) {
            Some(place) => self.ancestors.get(place),
            None => None,
        }
    }
}

impl Hierarchy for PlainStore {
    ghost world = { λ s. s };

    fn has(&self, entity: &Uid) -> bool {
        self.table.place(entity).is_some()
    }

    fn attributes(&self, entity: &Uid) -> Option<&Record> {
        match self.table.get(entity) {
            Some(found) => Some(&found.attrs),
            None => None,
        }
    }

    fn is_below(&self, low: &Uid, high: &Uid) -> bool {
        match self.ancestors(low) {
            Some(ancestors) => ancestors.contains(high),
            None => false,
        }
    }

    fn is_below_any(&self, low: &Uid, highs: &ValueSet) -> bool {
        match self.ancestors(low) {
            Some(ancestors) => has_any(ancestors, highs),
            None => false,
        }
    }
}
