//! The candidates of one environment.
ghost use Rattle.std.specs.Prelude.{◌≡◌, IfOk};

use crate::listing::Listing;
use std::alloc::{AllocError, Global};
use std::marker::Model;
use std::sync::Arc;

/// The policies whose scopes may be met in an environment, or in each of several that have the same. Contracts see their
/// `ListingTree`.
#[derive(Drop)]
pub(crate) struct Cell {
    listing: Arc<Listing, Global>,
}

impl Model for Cell {
    ghost use Rattle.cedar_auth_candidates.specs.Index.{ListingTree};

    ghost Value = { ListingTree };

    ghost view = { λ c. c.listing.value };
}

impl Cell {
    /// A cell of its own.
    pub(crate) fn new(alloc: Global, listing: Listing) -> Result<Cell, AllocError>
        ensures { IfOk result (λ c. c ≡ listing) }
    {
        let listing = Arc::new(alloc, listing)?;
        Ok(Cell { listing })
    }

    /// The same cell for one more environment. Refused where too many environments share it.
    pub(crate) fn share(&self) -> Result<Cell, AllocError>
        ensures { IfOk result (λ c. c ≡ self.now) }
    {
        let listing = Arc::try_clone(&self.listing)?;
        Ok(Cell { listing })
    }

    /// The listing of the policies, lent.
    pub(crate) fn listing(&self) -> &Listing
        ensures { result.now ≡ self.now }
    {
        &self.listing
    }
}
