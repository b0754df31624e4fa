//! The entity store.
ghost use Rattle.std.specs.Prelude.{◌≡◌, IfErr, IfOk, IfSome, OnErr, OnOk};
ghost use Rattle.cedar_store.specs.Ancestors.{AddsAncestors};
ghost use Rattle.cedar_store.specs.Changes.{changed, HaveSameEntities, IsThereInChanges};
ghost use Rattle.cedar_store.specs.Entities.{AreUidsDistinct, IsAcyclic};
ghost use Rattle.cedar_store.specs.Faults.{IsThere};
ghost use Rattle.cedar_store.specs.Private.Ascents.{reaches};
ghost use Rattle.cedar_store.specs.Private.Kept.{AreAncestors};
ghost use Rattle.cedar_store.specs.Private.Overlaid.{IsOverlaid, world_over};

use crate::ascent::Ascent;
use crate::base::Base;
use crate::change_map::ChangeMap;
use crate::changing;
use crate::descendant::Descendant;
use crate::entity::Entity;
use crate::entity_table::EntityTable;
use crate::overlay::Overlay;
use crate::store_fault::StoreFault;
use crate::sweeping::without_idle;
use base_search::Row;
use cedar_value::{Hierarchy, Record, Uid, ValueSet};
use std::alloc::{AllocError, Global};
use std::marker::Model;
use std::sync::Arc;

/// Entities with what is above each of them, which contracts see as their world.
///
/// The entities that were read whole are shared by all stores that changes made of theirs. A store keeps its own changes over them.
#[derive(Drop)]
pub struct Store {
    base: Arc<Base, Global>,
    changes: ChangeMap,
    marks: Row,
    settled: Arc<Base, Global>,
    noted: ChangeMap,
}

impl Model for Store {
    ghost use Rattle.std.specs.Coded.{codes};
    ghost use Rattle.cedar_value.specs.Private.DatumCode.{datum_code};
    ghost use Rattle.cedar_value.specs.World.{World};
    ghost use Rattle.cedar_store.specs.Private.Overlaid.{IsOverlaid, world_over};

    ghost Value = { World };

    ghost coded = { Prim.hlevel (codes, datum_code) };

    ghost view = { λ s. world_over s.base.value.world s.changes };

    ghost invariant = { λ s. IsOverlaid s.base.value s.changes s.marks s.settled.value.world s.noted };
}

impl Store {
    /// The store of these entities (Cedar language reference, entities and hierarchy).
    ///
    /// Time is the number of links, and of those between entities with members the words of a row in addition, whatever the order of
    /// the entities. Memory is the words of all rows, and eight bytes for each link. Only an entity with members has a row, which has
    /// a bit for each parent up to the last of those that the entity is below, in the order in which they are first named. A thousand
    /// groups have rows of 125 bytes each at most, but a chain of entities, each in the next, takes an eighth of the square of its
    /// length.
    ///
    /// # Errors
    ///
    /// 401 where a uid is repeated, 402 where an entity is below itself, and 1 when out of memory. After an error nothing is
    /// kept.
    pub fn build(alloc: Global, entities: Vec<Entity>) -> Result<Self, StoreFault>
        ensures world { IfOk result (λ s. s ≡ entities.items) }
        ensures distinct { OnOk result (AreUidsDistinct entities.items) }
        ensures acyclic { OnOk result (IsAcyclic entities.items) }
        ensures refused { IfErr result (IsThere entities.items) }
    {
        let base = Base::build(alloc, entities)?;
        // Nothing is below itself.
        base.facts();
        let hashing = base.hashing();
        let nothing = Base::build(alloc, Vec::new(alloc))?;
        Ok(Store {
            base: Arc::new(alloc, base)?,
            changes: ChangeMap::new(hashing),
            marks: Row::new(alloc),
            settled: Arc::new(alloc, nothing)?,
            noted: ChangeMap::new(hashing),
        })
    }

    /// The store of the entities after changes: without those that are removed, and with those that are upserted in place of what had
    /// their uids (Cedar's crate, upsert and removal of entities). This store stays as it is, and both share what they have in common.
    ///
    /// Where each uid that is removed or upserted has nothing below it, or keeps its parents in their order, the time grows with the
    /// uids that the changes name and the parents of what they upsert, and a row of bits is copied. Else the links above each uid
    /// whose row has become wrong are followed again. Once many uids that were not read whole have been removed again, all changes
    /// are gone through, and these uids are forgotten. Over many calls that takes time in proportion to the changes.
    ///
    /// # Errors
    ///
    /// 401 where a uid is upserted twice, 402 where an entity is below itself after the changes, and 1 when out of memory.
    pub fn with_changes(
        &self,
        alloc: Global,
        removed: &[Uid],
        upserted: Vec<Entity>,
    ) -> Result<Self, StoreFault>
        ensures world { IfOk result (λ s. HaveSameEntities s (changed self.now removed.now upserted.items)) }
        ensures distinct { IfOk result AreUidsDistinct }
        ensures upserted { OnOk result (AreUidsDistinct upserted.items) }
        ensures acyclic { IfOk result IsAcyclic }
        ensures refused { IfErr result (IsThereInChanges self.now removed.now upserted.items) }
    {
        // No uid is repeated in what was read whole.
        self.base.facts();
        let upserted = EntityTable::new(alloc, upserted)?;
        let overlay = Overlay {
            base: &self.base,
            changes: &self.changes,
            marks: &self.marks,
            settled: &self.settled,
            noted: &self.noted,
        };
        let made = changing::changed(alloc, &overlay, &self.settled, removed, upserted)?;
        let kept = without_idle(alloc, &self.base, made)?;
        // No two changes have one uid.
        kept.changes.facts();
        Ok(Store {
            base: Arc::try_clone(&self.base)?,
            changes: kept.changes,
            marks: kept.marks,
            settled: kept.settled,
            noted: kept.noted,
        })
    }

    /// How many changes are kept over the entities that were read whole: one for each uid that changes upserted, and one for each of
    /// these entities that they removed. Of other uids that were removed, at most as many more are kept, and 126. Time grows with the
    /// number.
    pub fn kept_changes(&self) -> usize {
        self.changes.len()
    }

    /// Appends each uid that `low` is below, once (Cedar language reference, hierarchy). An entity that is not in the store is
    /// below nothing.
    ///
    /// Time grows with the words of the rows of the parents of `low` and the number of uids that are appended. Where changes name the
    /// entity, or something that it may be below, and it has more parents than one, time grows with the square of that number. Takes
    /// the memory of a row while it runs.
    ///
    /// # Errors
    ///
    /// Fails only when out of memory. The list is then as it was.
    pub fn ancestors<'s>(&'s self, low: &Uid, found: &mut Vec<&'s Uid>) -> Result<(), AllocError>
        ensures adds { OnOk result (AddsAncestors self.now low.now found.old.items found.new.items) }
        ensures refused { OnErr result (found.new.items ≡ found.old.items) }
    {
        if self.changes.is_empty() {
            self.base.ancestors(low, found)
        } else {
            self.overlay().ancestors(low, found)
        }
    }

    /// The entity with a uid as a descendant, which is asked many times what it is below. It is looked up here, and not again unless the
    /// store keeps changes. Where it has more than 128 parents, this takes the memory of a row, and each question then the same time;
    /// without that memory each question goes through the parents.
    pub fn descendant<'s>(&'s self, uid: &'s Uid) -> Descendant<'s>
        ensures world { result.world ≡ self.now }
        ensures uid { result.uid ≡ uid.now }
    {
        Descendant {
            store: self,
            uid,
            ascent: self.ascent(uid),
        }
    }

    // The ways up from the entity, where no changes are kept over the entities that were read whole.
    fn ascent(&self, uid: &Uid) -> Option<Ascent<'_>>
        ensures { IfSome result (λ a. AreAncestors self.now uid.now (reaches a)) }
    {
        if self.changes.is_empty() {
            Some(self.base.ascent(uid))
        } else {
            None
        }
    }

    // The entities that were read whole, and the changes over them.
    fn overlay(&self) -> Overlay<'_>
        ensures world { world_over result.base.now.world result.changes.now ≡ self.now }
        ensures overlaid { IsOverlaid result.base.now result.changes.now result.marks.now result.settled.now.world result.noted.now }
    {
        Overlay {
            base: &self.base,
            changes: &self.changes,
            marks: &self.marks,
            settled: &self.settled,
            noted: &self.noted,
        }
    }
}

impl Hierarchy for Store {
    ghost world = { λ s. s };

    fn has(&self, entity: &Uid) -> bool {
        self.overlay().has(entity)
    }

    fn attributes(&self, entity: &Uid) -> Option<&Record> {
        self.overlay().attributes(entity)
    }

    fn is_below(&self, low: &Uid, high: &Uid) -> bool {
        if self.changes.is_empty() {
            self.base.is_below(low, high)
        } else {
            self.overlay().is_below(low, high)
        }
    }

    fn is_below_any(&self, low: &Uid, highs: &ValueSet) -> bool {
        if self.changes.is_empty() {
            self.base.is_below_any(low, highs)
        } else {
            self.overlay().is_below_any(low, highs)
        }
    }
}
