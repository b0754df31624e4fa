//! Which policies a request can satisfy, according to its action and to the types of its entities.
ghost use Rattle.std.specs.Prelude.{◌≡◌, IfOk, OnOk, option_copied};
ghost use Rattle.std.specs.List.Sorted.{IsStrictlyIncreasing};
ghost use Rattle.std.specs.List.{slice_get};
ghost use Rattle.cedar_auth_candidates.specs.Candidates.{AreCandidatesFor, HasPositions, HasSelected, HasSelectedInOrder, HasSelectedInOrderAt, listing_at};
ghost use Rattle.cedar_auth_candidates.specs.Private.Chosen.{IsChosen};
ghost use Rattle.cedar_auth_candidates.specs.Private.Sifting.{ByAction};

use crate::by_environment::{by_environment, cell_in};
use crate::cell::Cell;
use crate::cells::Cells;
use crate::index::Index;
use crate::listing::Listing;
use crate::positions::Positions;
use crate::row::Row;
use crate::row_maker::RowMaker;
use crate::selection::Selection;
use cedar_ast::PolicySet;
use cedar_schema::Schema;
use cedar_store::Store;
use cedar_value::{Request, Uid};
use std::alloc::{AllocError, Global};
use std::collections::BTreeMap;
use std::marker::Model;

// So many candidates are lent as they are: to look up which of them the request reaches takes longer than to ask their scopes.
const FEW: usize = 4;

/// For each environment of a schema, the policies whose scopes may be met in it, and the index that lists them. Contracts see a
/// `CandidatesTree`.
#[derive(Drop)]
pub struct Candidates {
    index: Index,
    rows: BTreeMap<Uid, Row>,
    // The cell of each environment of the schema, in the order of these.
    cells: Vec<Cell>,
}

impl Model for Candidates {
    ghost use Rattle.cedar_auth_candidates.specs.Candidates.{CandidatesTree};

    ghost Value = { CandidatesTree };

    ghost use Rattle.cedar_auth_candidates.specs.Private.Sifting.{candidates_tree};

    ghost view = { λ candidates. candidates_tree candidates.index candidates.rows candidates.cells.items };
}

// The rows of the actions of the schema.
fn by_action(
    alloc: Global,
    schema: &Schema,
    policies: &PolicySet,
    index: &Index,
) -> Result<BTreeMap<Uid, Row>, AllocError>
    ensures { IfOk result (ByAction schema.now policies.now.policies index.now) }
{
    // The schema's actions are in order.
    schema.well_formedness();
    let positions = Positions::new(alloc, schema, policies)?;
    let mut maker = RowMaker {
        cells: Cells::new(alloc, index),
        made: BTreeMap::new(alloc),
    };
    let mut rows = BTreeMap::new(alloc);
    for (uid, action) in schema.actions() {
        let row = maker.row(alloc, schema, policies, uid, action, &positions)?;
        rows.insert(uid.try_clone(alloc)?, row)?;
    }
    Ok(rows)
}

impl Candidates {
    /// The candidates among these policies for each environment of the schema.
    ///
    /// # Errors
    ///
    /// Fails only when out of memory.
    pub fn new(alloc: Global, schema: &Schema, policies: &PolicySet) -> Result<Self, AllocError>
        ensures { IfOk result (AreCandidatesFor schema.now policies.now.policies) }
    {
        // The schema's actions are in order.
        schema.well_formedness();
        let index = Index::new(alloc, policies)?;
        let rows = by_action(alloc, schema, policies, &index)?;
        let cells = by_environment(alloc, &rows, schema.environments())?;
        Ok(Candidates { index, rows, cells })
    }

    // The listing that is kept for the environment of a request.
    fn listing(&self, request: &Request) -> Option<&Listing>
        ensures { option_copied result ≡ listing_at self.now request.now.action request.now.principal.ty request.now.resource.ty }
    {
        match cell_in(
            &self.rows,
            &request.action,
            &request.principal.ty,
            &request.resource.ty,
        ) {
            Some(cell) => Some(cell.listing()),
            None => None,
        }
    }

    /// The positions of the candidates for a request that fits the schema, ascending: the policies whose scopes a request with
    /// this action and with entities of these types may meet. Takes no memory, and as many comparisons as the logarithms of the
    /// numbers of actions and of types.
    pub fn positions(&self, request: &Request) -> &[usize]
        ensures { HasPositions self.now request.now result.now }
    {
        match self.listing(request) {
            Some(listing) => listing.positions(),
            None => &[],
        }
    }

    /// Selects, of the candidates for a request that fits the schema, those that the request's own entities reach. Each other
    /// candidate is false (Cedar language reference, policy scope). Takes memory only where the selection has to grow. The time
    /// grows with the policies that name these entities or none, and with what is above the principal and the resource.
    ///
    /// # Errors
    ///
    /// Fails only when out of memory.
    pub fn select<'s>(
        &self,
        request: &Request,
        store: &'s Store,
        selection: &mut Selection<'s>,
    ) -> Result<(), AllocError>
        ensures ascend { OnOk result (IsStrictlyIncreasing selection.new) }
        ensures selected { OnOk result (HasSelected self.now request.now store.now selection.new) }
    {
        match self.listing(request) {
            Some(listing) => self.index.select(request, store, listing, selection),
            None => {
                selection.clear();
                Ok(())
            }
        }
    }

    // The listing that is kept for the environment at a position.
    fn listing_at(&self, environment: usize) -> Option<&Listing>
        ensures { option_copied result ≡ slice_get self.now.listings environment }
    {
        match self.cells.get(environment) {
            Some(cell) => Some(cell.listing()),
            None => None,
        }
    }

    // The positions of a listing where they are few, and else those that the index selects of it.
    fn chosen<'c, 's>(
        &'c self,
        listing: &'c Listing,
        request: &Request,
        store: &'s Store,
        selection: &'c mut Selection<'s>,
    ) -> Result<&'c [usize], AllocError>
        ensures { IfOk result (λ ks. IsChosen self.now.index listing.now request.now store.now ks.now) }
    {
        let candidates = listing.positions();
        if candidates.len() <= FEW {
            return Ok(candidates);
        }
        self.index.select(request, store, listing, selection)?;
        Ok(selection.positions())
    }

    /// The positions, ascending, of policies to run for a request that fits the schema: all its candidates where there are at most
    /// four, and else those that [`Candidates::select`] puts into the selection. Each other candidate is false (Cedar language
    /// reference, policy scope).
    ///
    /// # Errors
    ///
    /// Fails only when out of memory, and never where there are at most four candidates.
    pub fn selected<'c, 's>(
        &'c self,
        request: &Request,
        store: &'s Store,
        selection: &'c mut Selection<'s>,
    ) -> Result<&'c [usize], AllocError>
        ensures { IfOk result (λ ks. HasSelectedInOrder self.now request.now store.now ks.now) }
    {
        match self.listing(request) {
            Some(listing) => self.chosen(listing, request, store, selection),
            None => Ok(&[]),
        }
    }

    /// Like [`Candidates::selected`], for a request whose environment is at this position, from 0, among those of the schema. It
    /// compares nothing to find the environment.
    ///
    /// # Errors
    ///
    /// Fails only when out of memory, and never where there are at most four candidates.
    pub fn selected_at<'c, 's>(
        &'c self,
        environment: usize,
        request: &Request,
        store: &'s Store,
        selection: &'c mut Selection<'s>,
    ) -> Result<&'c [usize], AllocError>
        ensures { IfOk result (λ ks. HasSelectedInOrderAt self.now environment request.now store.now ks.now) }
    {
        match self.listing_at(environment) {
            Some(listing) => self.chosen(listing, request, store, selection),
            None => Ok(&[]),
        }
    }
}
