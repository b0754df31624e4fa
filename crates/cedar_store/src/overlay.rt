//! The world after changes, over the entities that were read whole.
ghost use Rattle.std.specs.Prelude.{◌≡◌, ◌↔◌, ◌⊎◌, ◌≤◌, Contains, IsTrue, MatchOption, OnErr, OnOk, length, option_copied};
ghost use Rattle.cedar_value.specs.Datum.{uid as uid_datum};
ghost use Rattle.cedar_value.specs.World.{Below, attributes_of, has_entity, parents_of};
ghost use Rattle.cedar_value.specs.declared.uid.Uid.{Uid as Uids};
ghost use Rattle.cedar_store.specs.Ancestors.{AddsAncestors};
ghost use Rattle.cedar_store.specs.Private.Gathered.{Adds, Gathers, KeepsFirst};
ghost use Rattle.cedar_store.specs.Private.Overlaid.{IsOverlaid, world_over};

use crate::base::Base;
use crate::change_map::ChangeMap;
use crate::gathering::gather;
use base_search::Row;
use cedar_value::{Glance, Hierarchy, Record, Uid, ValueSet};
use std::alloc::AllocError;

/// The entities that were read whole, and the changes over them.
///
/// What an entity is below is found without memory and in one step up: `settled` is the part of the world above each parent whose row
/// of bits the changes have made wrong, with rows of its own, and the row is right for each other parent. `marks` has the number of
/// each uid that changes gave other parents: a row that has none of them in common is right. `noted` has each parent without a number,
/// as a removal: what it has and the part lacks has no parents.
#[derive(Clone, Copy)]
pub(crate) struct Overlay<'s> {
    pub(crate) base: &'s Base,
    pub(crate) changes: &'s ChangeMap,
    pub(crate) marks: &'s Row,
    pub(crate) settled: &'s Base,
    pub(crate) noted: &'s ChangeMap,
}

impl<'s> Overlay<'s> {
    /// Whether the world has the entity.
    pub(crate) fn has(&self, uid: &Uid) -> bool
        ensures { result ≡ has_entity (world_over self.now.base.now.world self.now.changes.now) uid.now }
    {
        self.changes.facts();
        match self.changes.get(uid) {
            Some(change) => change.entity.is_some(),
            None => self.base.has(uid),
        }
    }

    /// The attributes of an entity, or None where the world lacks it.
    pub(crate) fn attributes(&self, uid: &Uid) -> Option<&'s Record>
        ensures { option_copied result ≡ attributes_of (world_over self.now.base.now.world self.now.changes.now) uid.now }
    {
        self.changes.facts();
        match self.changes.get(uid) {
            Some(change) => match &change.entity {
                Some(entity) => Some(&entity.attrs),
                None => None,
            },
            None => self.base.attributes(uid),
        }
    }

    /// Whether the one is below the other.
    pub(crate) fn is_below(&self, low: &Uid, high: &Uid) -> bool
        requires { IsOverlaid self.now.base.now self.now.changes.now self.now.marks.now self.now.settled.now.world self.now.noted.now }
        ensures { IsTrue result ↔ Below (world_over self.now.base.now.world self.now.changes.now) low.now high.now }
    {
        if self.settled.has(low) {
            return self.settled.is_below(low, high);
        }
        match self.changed_parents(low) {
            Some(parents) => self.lead_to(parents, high),
            None => self.base.is_below(low, high),
        }
    }

    /// Whether the entity is below some uid of the set.
    pub(crate) fn is_below_any(&self, low: &Uid, highs: &ValueSet) -> bool
        requires { IsOverlaid self.now.base.now self.now.changes.now self.now.marks.now self.now.settled.now.world self.now.noted.now }
        ensures { IsTrue result
            ↔ ((v : Uids) × Contains highs.now (uid_datum v) × Below (world_over self.now.base.now.world self.now.changes.now) low.now v) }
    {
        if self.settled.has(low) {
            return self.settled.is_below_any(low, highs);
        }
        match self.changed_parents(low) {
            Some(parents) => self.lead_to_any(parents, highs),
            None => self.base.is_below_any(low, highs),
        }
    }

    /// Appends each uid that `low` is below, once. When out of memory, the list is as it was.
    ///
    /// Where changes name the entity, or something that it may be below, each uid above a parent is compared with those above the
    /// parents before it. So with more parents than one, time grows with the square of the number of uids that are appended.
    pub(crate) fn ancestors(&self, low: &Uid, found: &mut Vec<&'s Uid>) -> Result<(), AllocError>
        requires { IsOverlaid self.now.base.now self.now.changes.now self.now.marks.now self.now.settled.now.world self.now.noted.now }
        ensures adds { OnOk result (AddsAncestors (world_over self.now.base.now.world self.now.changes.now) low.now found.old.items found.new.items) }
        ensures refused { OnErr result (found.new.items ≡ found.old.items) }
    {
        if self.settled.has(low) {
            return self.settled.ancestors(low, found);
        }
        match self.changed_parents(low) {
            Some(parents) => self.push_above(parents, found),
            None => self.base.ancestors(low, found),
        }
    }

    // The direct parents of an entity where changes name it, or something that it may be below. None where all that it is below is as
    // it was before the changes.
    fn changed_parents(&self, low: &Uid) -> Option<&'s [Uid]>
        requires { IsOverlaid self.now.base.now self.now.changes.now self.now.marks.now self.now.settled.now.world self.now.noted.now }
        ensures { MatchOption result
            ((v : Uids) → Below (world_over self.now.base.now.world self.now.changes.now) low.now v ↔ Below self.now.base.now.world low.now v)
            (λ ps. ps.now ≡ parents_of (world_over self.now.base.now.world self.now.changes.now) low.now) }
    {
        self.base.facts();
        self.changes.facts();
        match self.changes.get(low) {
            Some(change) => match &change.entity {
                Some(entity) => Some(&entity.parents),
                None => Some(&[]),
            },
            None => {
                if self.base.is_below_marked(low, self.marks) {
                    Some(self.base.parents(low))
                } else {
                    None
                }
            }
        }
    }

    // Whether one of the direct parents of some entity is the uid, or is below it.
    fn lead_to(&self, parents: &[Uid], high: &Uid) -> bool
        requires overlaid { IsOverlaid self.now.base.now self.now.changes.now self.now.marks.now self.now.settled.now.world self.now.noted.now }
        requires parents { (p : Uids) → Contains parents.now p
            → (z : Uids) × Contains (parents_of (world_over self.now.base.now.world self.now.changes.now) z) p }
        ensures { IsTrue result ↔ ((p : Uids) × Contains parents.now p
            × ((p ≡ high.now) ⊎ Below (world_over self.now.base.now.world self.now.changes.now) p high.now)) }
    {
        for parent in parents {
            if parent == high || self.is_parent_below(parent, high) {
                return true;
            }
        }
        false
    }

    // Whether a direct parent of some entity is below the uid.
    fn is_parent_below(&self, parent: &Uid, high: &Uid) -> bool
        requires overlaid { IsOverlaid self.now.base.now self.now.changes.now self.now.marks.now self.now.settled.now.world self.now.noted.now }
        requires parent { (z : Uids) × Contains (parents_of (world_over self.now.base.now.world self.now.changes.now) z) parent.now }
        ensures { IsTrue result ↔ Below (world_over self.now.base.now.world self.now.changes.now) parent.now high.now }
    {
        self.base.facts();
        self.changes.facts();
        if self.settled.has(parent) {
            return self.settled.is_below(parent, high);
        }
        self.base.is_below(parent, high)
    }

    // Whether one of the direct parents of some entity is a uid of the set, or is below one.
    fn lead_to_any(&self, parents: &[Uid], highs: &ValueSet) -> bool
        requires overlaid { IsOverlaid self.now.base.now self.now.changes.now self.now.marks.now self.now.settled.now.world self.now.noted.now }
        requires parents { (p : Uids) → Contains parents.now p
            → (z : Uids) × Contains (parents_of (world_over self.now.base.now.world self.now.changes.now) z) p }
        ensures { IsTrue result ↔ ((p : Uids) × Contains parents.now p × (v : Uids) × Contains highs.now (uid_datum v)
            × ((p ≡ v) ⊎ Below (world_over self.now.base.now.world self.now.changes.now) p v)) }
    {
        for parent in parents {
            if highs.has(Glance::Uid(parent)) || self.is_parent_below_any(parent, highs) {
                return true;
            }
        }
        false
    }

    // Whether a direct parent of some entity is below some uid of the set.
    fn is_parent_below_any(&self, parent: &Uid, highs: &ValueSet) -> bool
        requires overlaid { IsOverlaid self.now.base.now self.now.changes.now self.now.marks.now self.now.settled.now.world self.now.noted.now }
        requires parent { (z : Uids) × Contains (parents_of (world_over self.now.base.now.world self.now.changes.now) z) parent.now }
        ensures { IsTrue result ↔ ((v : Uids) × Contains highs.now (uid_datum v)
            × Below (world_over self.now.base.now.world self.now.changes.now) parent.now v) }
    {
        self.base.facts();
        self.changes.facts();
        if self.settled.has(parent) {
            return self.settled.is_below_any(parent, highs);
        }
        self.base.is_below_any(parent, highs)
    }

    // Appends each of the direct parents of some entity, and what these are below, once. When out of memory, the list is as it was.
    fn push_above(&self, parents: &'s [Uid], found: &mut Vec<&'s Uid>) -> Result<(), AllocError>
        requires overlaid { IsOverlaid self.now.base.now self.now.changes.now self.now.marks.now self.now.settled.now.world self.now.noted.now }
        requires parents { (p : Uids) → Contains parents.now p
            → (z : Uids) × Contains (parents_of (world_over self.now.base.now.world self.now.changes.now) z) p }
        ensures adds { OnOk result (Adds found.old.items found.new.items (λ v. (p : Uids) × Contains parents.now p
            × ((p ≡ v) ⊎ Below (world_over self.now.base.now.world self.now.changes.now) p v))) }
        ensures refused { OnErr result (found.new.items ≡ found.old.items) }
    {
        let begun = found.len();
        if self.gather_parents(parents, found, begun).is_err() {
            found.truncate(begun);
            return Err(AllocError);
        }
        Ok(())
    }

    // Appends each of the direct parents of some entity, and what these are below, unless it was appended since the list had the
    // length `begun`.
    fn gather_parents(
        &self,
        parents: &'s [Uid],
        found: &mut Vec<&'s Uid>,
        begun: usize,
    ) -> Result<(), AllocError>
        requires overlaid { IsOverlaid self.now.base.now self.now.changes.now self.now.marks.now self.now.settled.now.world self.now.noted.now }
        requires parents { (p : Uids) → Contains parents.now p
            → (z : Uids) × Contains (parents_of (world_over self.now.base.now.world self.now.changes.now) z) p }
        requires begun { begun ≤ length found.old.items }
        ensures kept { KeepsFirst begun found.old.items found.new.items }
        ensures gathers { OnOk result (Gathers begun found.old.items found.new.items (λ v. (p : Uids) × Contains parents.now p
            × ((p ≡ v) ⊎ Below (world_over self.now.base.now.world self.now.changes.now) p v))) }
    {
        for parent in parents {
            let end = found.len();
            gather(found, begun, end, parent)?;
            self.gather_above(parent, found, begun)?;
        }
        Ok(())
    }

    // Appends each uid that a direct parent of some entity is below, unless it was appended since the list had the length `begun`.
    fn gather_above(
        &self,
        parent: &Uid,
        found: &mut Vec<&'s Uid>,
        begun: usize,
    ) -> Result<(), AllocError>
        requires overlaid { IsOverlaid self.now.base.now self.now.changes.now self.now.marks.now self.now.settled.now.world self.now.noted.now }
        requires parent { (z : Uids) × Contains (parents_of (world_over self.now.base.now.world self.now.changes.now) z) parent.now }
        requires begun { begun ≤ length found.old.items }
        ensures kept { KeepsFirst begun found.old.items found.new.items }
        ensures gathers { OnOk result (Gathers begun found.old.items found.new.items
            (λ v. Below (world_over self.now.base.now.world self.now.changes.now) parent.now v)) }
    {
        self.base.facts();
        self.changes.facts();
        if self.settled.has(parent) {
            return self.settled.gather_ancestors(parent, found, begun);
        }
        self.base.gather_ancestors(parent, found, begun)
    }
}
