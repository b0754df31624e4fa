//! Entities that were read whole.
ghost use Rattle.std.specs.Prelude.{◌≡◌, ◌≤◌, false, Contains, Some, IfOk, IfErr, IsTrue, OnErr, OnOk, is_some, length};
ghost use Rattle.base_reach.specs.Private.Lent.{lent};
ghost use Rattle.cedar_value.specs.World.{Below, parents_of};
ghost use Rattle.cedar_value.specs.declared.uid.Uid.{Uid as Uids};
ghost use Rattle.cedar_store.specs.Ancestors.{AddsAncestors};
ghost use Rattle.cedar_store.specs.Entities.{AreUidsDistinct, IsAcyclic};
ghost use Rattle.cedar_store.specs.Faults.{IsThere};
ghost use Rattle.cedar_store.specs.Private.Ascents.{reaches};
ghost use Rattle.cedar_store.specs.Private.Based.{IsMarked};
ghost use Rattle.cedar_store.specs.Private.Gathered.{Gathers, KeepsFirst};
ghost use Rattle.cedar_store.specs.Private.Kept.{AreAncestors, in_row, number_in};

use crate::ahead::{
    is_ahead, is_any_ahead, is_mark_ahead, is_mark_ahead_of, row_ahead, row_of_many,
};
use crate::ancestors::push_members;
use crate::ascent::Ascent;
use crate::entity::Entity;
use crate::entity_table::EntityTable;
use crate::gathering::gather_members;
use crate::links::{links_of, number_graph, parent_numbers};
use crate::numbers::Numbers;
use crate::rows::all_rows;
use crate::store_fault::StoreFault;
use crate::uid_hashing::UidHashing;
use base_reach::Links;
use base_search::{Lists, Row};
use cedar_value::{Hierarchy, Record, Uid, ValueSet};
use std::alloc::{AllocError, Global};
use std::marker::Model;

/// Entities that were read whole, with what is above each of them. Contracts see the list of the entities, in the order in which they
/// were handed in, and the uids that have a number.
///
/// Each uid that has something below it has a number, in the order in which the uids are first named as parents, and a row of bits
/// with the numbers of all that it is below. Each entity has the numbers of its parents: it is below these, and what these are
/// below.
#[derive(Drop)]
pub(crate) struct Base {
    table: EntityTable,
    numbers: Numbers,
    parents: Lists,
    rows: Vec<Row>,
}

impl Model for Base {
    ghost use Rattle.std.specs.Coded.{codes};
    ghost use Rattle.cedar_value.specs.Private.DatumCode.{datum_code};
    ghost use Rattle.cedar_store.specs.Entities.{IsAcyclic};
    ghost use Rattle.cedar_store.specs.Private.Based.{BaseTree};
    ghost use Rattle.cedar_store.specs.Private.Kept.{AreParentNumbers, AreRows};

    ghost Value = { BaseTree };

    ghost coded = { Prim.hlevel (codes, datum_code) };

    ghost view = { λ b. record { world = b.table; keys = b.numbers.keys } };

    ghost invariant = { λ b. AreRows b.numbers.keys b.table b.rows.items × IsAcyclic b.table × AreParentNumbers b.numbers.keys b.table b.parents };
}

impl Base {
    /// The store of these entities (Cedar language reference, entities and hierarchy).
    ///
    /// Time is the number of links, and of those between entities with members the words of a row in addition, whatever the order of
    /// the entities. Memory is the words of all rows, and eight bytes for each link. Only an entity with members has a row, which has
    /// a bit for each parent up to the last of those that the entity is below, in the order in which they are first named. A thousand
    /// groups have rows of 125 bytes each at most, but a chain of entities, each in the next, takes an eighth of the square of its
    /// length.
    ///
    /// # Errors
    ///
    /// 401 where a uid is repeated, 402 where an entity is below itself, and 1 when out of memory. After an error nothing is
    /// kept.
    pub(crate) fn build(alloc: Global, entities: Vec<Entity>) -> Result<Self, StoreFault>
        ensures world { IfOk result (λ b. b.world ≡ entities.items) }
        ensures distinct { OnOk result (AreUidsDistinct entities.items) }
        ensures acyclic { OnOk result (IsAcyclic entities.items) }
        ensures refused { IfErr result (IsThere entities.items) }
    {
        let table = EntityTable::new(alloc, entities)?;
        let (numbers, parents) = links_of(alloc, &table)?;
        let graph = number_graph(alloc, &table, &numbers, &parents)?;
        let rows = all_rows(alloc, &table, &numbers, &graph)?;
        Ok(Base {
            table,
            numbers,
            parents,
            rows,
        })
    }

    /// For contracts alone: no uid is repeated, nothing is below itself, and what something is below has a number.
    pub(crate) fn facts(&self)
        ensures distinct { AreUidsDistinct self.now.world }
        ensures acyclic { IsAcyclic self.now.world }
        ensures numbered { (u v : Uids) → Below self.now.world u v → IsTrue (is_some (number_in self.now.keys v)) }
    {
        self.table.uids_are_distinct();
    }

    /// How the uids are hashed.
    pub(crate) fn hashing(&self) -> UidHashing {
        self.table.hashing()
    }

    /// The entities, in the order in which they were handed in.
    pub(crate) fn entities(&self) -> &[Entity]
        ensures { result.now ≡ self.now.world }
    {
        self.table.entities()
    }

    /// The direct parents of an entity, and none of a uid that is not there.
    pub(crate) fn parents(&self, uid: &Uid) -> &[Uid]
        ensures { result.now ≡ parents_of self.now.world uid.now }
    {
        self.table.links(uid)
    }

    /// Whether the uid has a number: whether it is the direct parent of some entity.
    pub(crate) fn is_numbered(&self, uid: &Uid) -> bool
        ensures { result ≡ is_some (number_in self.now.keys uid.now) }
    {
        self.numbers.get_index_of(uid).is_some()
    }

    /// Marks the uid's number, where it has one.
    pub(crate) fn mark(&self, marks: &mut Row, uid: &Uid) -> Result<(), AllocError>
        ensures kept { OnOk result ((x : Uids) → IsTrue (in_row self.now.keys marks.old x) → IsTrue (in_row self.now.keys marks.new x)) }
        ensures marked { OnOk result (IsTrue (is_some (number_in self.now.keys uid.now)) → IsTrue (in_row self.now.keys marks.new uid.now)) }
    {
        match self.numbers.get_index_of(uid) {
            Some(number) => marks.insert(number),
            None => Ok(()),
        }
    }

    /// Whether an entity may be below a uid that is marked. Where it is not said to be, it is not.
    pub(crate) fn is_below_marked(&self, low: &Uid, marks: &Row) -> bool
        ensures { result ≡ false → (x : Uids) → IsTrue (in_row self.now.keys marks.now x) → ¬ Below self.now.world low.now x }
    {
        let near = parent_numbers(&self.table, &self.parents, low);
        is_mark_ahead(&self.rows, near, marks)
    }

    /// Appends each uid with a number that is marked, or is below a uid that is marked.
    pub(crate) fn push_marked<'s>(
        &'s self,
        marks: &Row,
        found: &mut Vec<&'s Uid>,
    ) -> Result<(), AllocError>
        ensures kept { OnOk result ((p : Uids) → Contains (lent found.old.items) p → Contains (lent found.new.items) p) }
        ensures marked { OnOk result ((p : Uids) → IsTrue (is_some (number_in self.now.keys p)) → IsMarked self.now marks.now p → Contains (lent found.new.items) p) }
    {
        for (number, uid) in self.numbers.as_slice().iter().enumerate() {
            if self.may_be_marked(number, marks) {
                found.push(uid)?;
            }
        }
        Ok(())
    }

    // Whether the uid of this number is marked, or may be below a uid that is marked. Where it is not said to be, it is neither.
    fn may_be_marked(&self, number: usize, marks: &Row) -> bool
        ensures { result ≡ false → (u : Uids) → number_in self.now.keys u ≡ Some number → ¬ IsMarked self.now marks.now u }
    {
        is_mark_ahead_of(&self.rows, number, marks)
    }

    /// The ways up from an entity, whose parents are looked up. There is none from an entity that is not there.
    pub(crate) fn ascent(&self, uid: &Uid) -> Ascent<'_>
        ensures { AreAncestors self.now.world uid.now (reaches result) }
    {
        let rows = self.rows.as_slice();
        let near = parent_numbers(&self.table, &self.parents, uid);
        let above = row_of_many(*self.rows.allocator(), rows, near);
        Ascent {
            numbers: &self.numbers,
            rows,
            near,
            above,
        }
    }

    /// Appends each uid that `low` is below, once (Cedar language reference, hierarchy). An entity that is not in the store is
    /// below nothing.
    ///
    /// Time grows with the words of the rows of the parents of `low` and the number of uids that are appended. Takes the memory of
    /// a row while it runs.
    ///
    /// # Errors
    ///
    /// Fails only when out of memory. The list is then as it was.
    pub(crate) fn ancestors<'s>(
        &'s self,
        low: &Uid,
        found: &mut Vec<&'s Uid>,
    ) -> Result<(), AllocError>
        ensures adds { OnOk result (AddsAncestors self.now.world low.now found.old.items found.new.items) }
        ensures refused { OnErr result (found.new.items ≡ found.old.items) }
    {
        let near = parent_numbers(&self.table, &self.parents, low);
        let row = row_ahead(*found.allocator(), &self.rows, near)?;
        push_members(&self.numbers, &row, found)
    }

    /// Appends each uid that `low` is below, unless it is one of those that were appended since the list had the length `begun`.
    pub(crate) fn gather_ancestors<'s>(
        &'s self,
        low: &Uid,
        found: &mut Vec<&'s Uid>,
        begun: usize,
    ) -> Result<(), AllocError>
        requires { begun ≤ length found.old.items }
        ensures kept { KeepsFirst begun found.old.items found.new.items }
        ensures gathers { OnOk result (Gathers begun found.old.items found.new.items (λ v. Below self.now.world low.now v)) }
    {
        let near = parent_numbers(&self.table, &self.parents, low);
        let row = row_ahead(*found.allocator(), &self.rows, near)?;
        gather_members(&self.numbers, &row, found, begun)
    }
}

impl Hierarchy for Base {
    ghost world = { λ b. b.world };

    fn has(&self, entity: &Uid) -> bool {
        self.table.place(entity).is_some()
    }

    fn attributes(&self, entity: &Uid) -> Option<&Record> {
        match self.table.get(entity) {
            Some(found) => Some(&found.attrs),
            None => None,
        }
    }

    fn is_below(&self, low: &Uid, high: &Uid) -> bool {
        let near = parent_numbers(&self.table, &self.parents, low);
        is_ahead(&self.numbers, &self.rows, near, high)
    }

    fn is_below_any(&self, low: &Uid, highs: &ValueSet) -> bool {
        let near = parent_numbers(&self.table, &self.parents, low);
        is_any_ahead(&self.numbers, &self.rows, near, highs)
    }
}
