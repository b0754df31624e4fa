//! The policies that are selected for a request.
ghost use Rattle.std.specs.Prelude.{◌≡◌, ◌⊎◌, ◌++◌, [], filter, OnOk};
ghost use Rattle.std.specs.List.Sorted.{IsStrictlyIncreasing};
ghost use Rattle.base_bits.specs.Bits.{has_bit};
ghost use Rattle.cedar_value.specs.World.{Below};
ghost use Rattle.cedar_value.specs.declared.uid.Uid.{Uid as UidTree};
ghost use Rattle.cedar_auth_candidates.specs.Private.Kept.{Holds, list_at};

use crate::uid_lists::{UidLists, push_below, push_list, push_lists};
use base_bits::has_bit;
use cedar_store::Store;
use cedar_value::Uid;
use std::alloc::{AllocError, Global};
use std::marker::Model;

/// Positions of policies, ascending, and the room for finding them, which is kept from request to request. Contracts see the
/// list of the positions.
#[derive(Drop)]
pub struct Selection<'s> {
    positions: Vec<usize>,
    above: Vec<&'s Uid>,
}

impl<'s> Model for Selection<'s> {
    ghost use Rattle.std.specs.Prelude.{ℕ, List};

    ghost Value = { List ℕ };

    ghost view = { λ s. s.positions.items };
}

impl<'s> Selection<'s> {
    /// A selection of nothing. It takes no memory yet.
    pub fn new(alloc: Global) -> Self
        ensures { result ≡ [] }
    {
        Selection {
            positions: Vec::new(alloc),
            above: Vec::new(alloc),
        }
    }

    /// The positions, lent.
    pub fn positions(&self) -> &[usize]
        ensures { result.now ≡ self.now }
    {
        &self.positions
    }

    /// Empties the selection, and keeps its room.
    pub fn clear(&mut self)
        ensures { self.new ≡ [] }
    {
        self.positions.clear();
    }

    // Adds the positions that are kept under the entity and under all that it is below. These are looked up one by one. Where
    // fewer uids have lists, each of those uids is tested instead for whether the entity is below it.
    pub(crate) fn push_reached(
        &mut self,
        lists: &UidLists,
        entity: &Uid,
        store: &'s Store,
    ) -> Result<(), AllocError>
        ensures kept { OnOk result (Holds self.old self.new) }
        ensures reached { OnOk result ((u : UidTree) → (entity.now ≡ u) ⊎ Below store.now entity.now u → Holds (list_at lists.now u) self.new) }
    {
        if lists.is_empty() {
            return Ok(());
        }
        push_list(lists, entity, &mut self.positions)?;
        self.above.clear();
        store.ancestors(entity, &mut self.above)?;
        if lists.len() < self.above.len() {
            push_below(lists, entity, store, &mut self.positions)?;
        } else {
            push_lists(lists, &self.above, &mut self.positions)?;
        }
        Ok(())
    }

    // Keeps only the positions whose bits are set.
    pub(crate) fn keep(&mut self, row: &[u64])
        ensures { self.new ≡ filter (has_bit row.now) self.old }
    {
        self.positions.retain(|position| has_bit(row, *position));
    }

    // Adds these positions.
    pub(crate) fn add(&mut self, positions: &[usize]) -> Result<(), AllocError>
        ensures { OnOk result (self.new ≡ self.old ++ positions.now) }
    {
        self.positions.extend_from_slice(positions)
    }

    // Puts the positions in order, each once.
    pub(crate) fn sort(&mut self)
        ensures kept { Holds self.old self.new }
        ensures among { Holds self.new self.old }
        ensures ascend { IsStrictlyIncreasing self.new }
    {
        self.positions.sort_unstable();
        self.positions.dedup();
    }
}
