//! Policies, found by the entities that their scopes name.
ghost use Rattle.std.specs.Prelude.{◌≡◌, ◌⊎◌, ℕ, true, Contains, IfOk, OnOk};
ghost use Rattle.std.specs.List.Sorted.{IsStrictlyIncreasing};
ghost use Rattle.cedar_value.specs.World.{Below};
ghost use Rattle.cedar_value.specs.declared.uid.Uid.{Uid as UidTree};
ghost use Rattle.cedar_auth_candidates.specs.Index.{HasReached, IsIndexOf, IsListingBy};
ghost use Rattle.cedar_auth_candidates.specs.Private.Kept.{Holds, list_at};

use crate::listing::{Listing, row_of, with_bits};
use crate::selection::Selection;
use crate::tables::Tables;
use crate::uid_lists::{UidLists, keeps_any};
use cedar_ast::PolicySet;
use cedar_store::Store;
use cedar_value::{Request, Uid};
use std::alloc::{AllocError, Global};
use std::marker::Model;

/// Positions of policies, found by the one entity that each policy's scope names: under its principal, or else under its
/// resource. Those that name neither are kept apart. Contracts see an `IndexTree`.
#[derive(Drop)]
pub(crate) struct Index {
    tables: Tables,
}

impl Model for Index {
    ghost use Rattle.cedar_auth_candidates.specs.Index.{IndexTree};

    ghost Value = { IndexTree };

    ghost use Rattle.cedar_auth_candidates.specs.Private.Kept.{tree_of};

    ghost view = { λ index. tree_of index.tables };
}

// Adds the positions that are kept under the entity and under all that it is below, if lists are asked for a listing that has
// positions in them.
fn push_listed<'s>(
    selection: &mut Selection<'s>,
    is_listed: bool,
    lists: &UidLists,
    entity: &Uid,
    store: &'s Store,
) -> Result<(), AllocError>
    ensures kept { OnOk result (Holds selection.old selection.new) }
    ensures reached { OnOk result (is_listed ≡ true → (u : UidTree) → (entity.now ≡ u) ⊎ Below store.now entity.now u → Holds (list_at lists.now u) selection.new) }
{
    if is_listed {
        selection.push_reached(lists, entity, store)?;
    }
    Ok(())
}

impl Index {
    /// The index of all policies of the set.
    pub(crate) fn new(alloc: Global, policies: &PolicySet) -> Result<Self, AllocError>
        ensures { IfOk result (IsIndexOf policies.now.policies) }
    {
        let tables = Tables::new(alloc, policies)?;
        Ok(Index { tables })
    }

    /// The listing of the policies at these positions.
    pub(crate) fn list(&self, alloc: Global, positions: &[usize]) -> Result<Listing, AllocError>
        ensures positions { IfOk result (λ listing. listing.positions ≡ positions.now) }
        ensures listed { IfOk result (IsListingBy self.now) }
    {
        let row = row_of(alloc, positions)?;
        let unnamed = with_bits(alloc, &self.tables.unnamed, positions)?;
        let by_principal = keeps_any(&self.tables.principals, &row);
        let by_resource = keeps_any(&self.tables.resources, &row);
        let listing = Listing::new(alloc, positions, row, unnamed, by_principal, by_resource)?;
        Ok(listing)
    }

    /// Selects, of the policies of a listing that was made by the index, those that a request's own entities reach. Each other
    /// policy is false (Cedar language reference, policy scope). Takes memory only where the selection has to grow. The time
    /// grows with the policies that name these entities or none, and with what is above the principal and the resource.
    pub(crate) fn select<'s>(
        &self,
        request: &Request,
        store: &'s Store,
        listing: &Listing,
        selection: &mut Selection<'s>,
    ) -> Result<(), AllocError>
        ensures ascend { OnOk result (IsStrictlyIncreasing selection.new) }
        ensures reached { OnOk result (HasReached self.now listing.now request.now store.now selection.new) }
        // It selects only policies of the listing.
        ensures within { OnOk result ((k : ℕ) → Contains selection.new k → Contains listing.now.positions k) }
    {
        selection.clear();
        let tables = &self.tables;
        push_listed(
            selection,
            listing.by_principal(),
            &tables.principals,
            &request.principal,
            store,
        )?;
        push_listed(
            selection,
            listing.by_resource(),
            &tables.resources,
            &request.resource,
            store,
        )?;
        selection.keep(listing.row());
        selection.add(listing.unnamed())?;
        selection.sort();
        Ok(())
    }
}
