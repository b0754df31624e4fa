//! Cells that are made, each once.
ghost use Rattle.std.specs.Prelude.{◌≡◌, IfOk, IfSome, Some};
ghost use Rattle.std.specs.BTreeMap.{get};
ghost use Rattle.std.specs.Ordering.{nat_cmp};
ghost use Rattle.cedar_auth_candidates.specs.Index.{IsListingBy};

use crate::cell::Cell;
use crate::index::Index;
use std::alloc::{AllocError, Global};
use std::collections::BTreeMap;
use std::hash::{DefaultHasher, Hash, Hasher};
use std::marker::Model;

/// The cells that were made for environments, found by digests of their positions, so that environments with the same
/// candidates share one. Contracts see the index that lists the cells.
#[derive(Drop)]
pub(crate) struct Cells<'i> {
    index: &'i Index,
    made: BTreeMap<u64, Cell>,
}

impl<'i> Model for Cells<'i> {
    ghost use Rattle.cedar_auth_candidates.specs.Index.{IndexTree};

    ghost Value = { IndexTree };

    ghost use Rattle.cedar_auth_candidates.specs.Private.Sifting.{AreListedBy};

    ghost view = { λ c. c.index.now };

    ghost invariant = { λ c. AreListedBy c.index.now c.made };
}

fn digest_of(positions: &[usize]) -> u64 {
    let mut digest = DefaultHasher::new();
    positions.hash(&mut digest);
    digest.finish()
}

// The cell that was made for the digest, if it has these positions.
fn found<'m>(made: &'m BTreeMap<u64, Cell>, digest: u64, positions: &[usize]) -> Option<&'m Cell>
    ensures made { IfSome result (λ c. get nat_cmp made.now digest ≡ Some c.now) }
    ensures equal { IfSome result (λ c. c.now.positions ≡ positions.now) }
{
    let cell = made.get(&digest)?;
    if cell.listing().positions() == positions {
        Some(cell)
    } else {
        None
    }
}

impl<'i> Cells<'i> {
    /// No cells. Takes no memory yet.
    pub(crate) fn new(alloc: Global, index: &'i Index) -> Self
        ensures { result ≡ index.now }
    {
        Cells {
            index,
            made: BTreeMap::new(alloc),
        }
    }

    /// The cell of these positions: one that was made already, if there is one.
    pub(crate) fn cell(&mut self, alloc: Global, positions: &[usize]) -> Result<Cell, AllocError>
        ensures same { self.new ≡ self.old }
        ensures positions { IfOk result (λ c. c.positions ≡ positions.now) }
        ensures listed { IfOk result (IsListingBy self.old) }
    {
        let digest = digest_of(positions);
        if let Some(one) = found(&self.made, digest, positions) {
            let shared = one.share()?;
            return Ok(shared);
        }
        let listing = self.index.list(alloc, positions)?;
        let cell = Cell::new(alloc, listing)?;
        self.made.insert(digest, cell.share()?)?;
        Ok(cell)
    }
}
