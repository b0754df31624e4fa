//! Some of the policies of an index.
ghost use Rattle.std.specs.Prelude.{◌≡◌, ℕ, true, Contains, IfOk};
ghost use Rattle.base_bits.specs.Bits.{has_bit};
ghost use Rattle.cedar_auth_candidates.specs.Private.Kept.{HasBits, HasBitsAlone, Holds};

use base_bits::{has_bit, insert_bit};
use std::alloc::{AllocError, Global};
use std::marker::Model;

/// Some of the policies of an index, given as their positions: the candidates of an environment. Contracts see a `ListingTree`.
#[derive(Drop)]
pub(crate) struct Listing {
    positions: Vec<usize>,
    unnamed: Vec<usize>,
    // A bit for each of the positions, and for no other.
    row: Vec<u64>,
    by_principal: bool,
    by_resource: bool,
}

impl Model for Listing {
    ghost use Rattle.cedar_auth_candidates.specs.Index.{ListingTree};

    ghost Value = { ListingTree };

    ghost use Rattle.cedar_auth_candidates.specs.Private.Kept.{IsListed};

    ghost view = { λ l. record {
      positions = l.positions.items;
      unnamed = l.unnamed.items;
      by_principal = l.by_principal;
      by_resource = l.by_resource;
    } };

    ghost invariant = { λ l. IsListed l.row.items l.positions.items l.unnamed.items };
}

/// The positions whose bits are set.
pub(crate) fn with_bits(
    alloc: Global,
    row: &[u64],
    positions: &[usize],
) -> Result<Vec<usize>, AllocError>
    ensures found { IfOk result (λ found. (k : ℕ) → Contains positions.now k → has_bit row.now k ≡ true → Contains found.items k) }
    ensures among { IfOk result (λ found. Holds found.items positions.now) }
{
    let mut found = Vec::new(alloc);
    for position in positions {
        if has_bit(row, *position) {
            found.push(*position)?;
        }
    }
    Ok(found)
}

/// A row with a bit for each of the positions, and for no other.
pub(crate) fn row_of(alloc: Global, positions: &[usize]) -> Result<Vec<u64>, AllocError>
    ensures bits { IfOk result (λ row. HasBits row.items positions.now) }
    ensures alone { IfOk result (λ row. HasBitsAlone row.items positions.now) }
{
    let mut row = Vec::new(alloc);
    for position in positions {
        insert_bit(&mut row, *position)?;
    }
    Ok(row)
}

impl Listing {
    /// The listing of these positions. The row has a bit for each of them. The second list has those that name no entity, and the
    /// flags say whether some name a principal, or a resource and no principal.
    pub(crate) fn new(
        alloc: Global,
        positions: &[usize],
        row: Vec<u64>,
        unnamed: Vec<usize>,
        by_principal: bool,
        by_resource: bool,
    ) -> Result<Listing, AllocError>
        requires bits { HasBits row.items positions.now }
        requires alone { HasBitsAlone row.items positions.now }
        requires among { Holds unnamed.items positions.now }
        ensures { IfOk result (λ l. l ≡ record {
          positions = positions.now;
          unnamed = unnamed.items;
          by_principal = by_principal;
          by_resource = by_resource;
        }) }
    {
        let positions = Vec::from_slice(alloc, positions)?;
        Ok(Listing {
            positions,
            unnamed,
            row,
            by_principal,
            by_resource,
        })
    }

    /// Whether a scope at one of the positions names a principal.
    pub(crate) fn by_principal(&self) -> bool
        ensures { result ≡ self.now.by_principal }
    {
        self.by_principal
    }

    /// Whether a scope at one of the positions names a resource and no principal.
    pub(crate) fn by_resource(&self) -> bool
        ensures { result ≡ self.now.by_resource }
    {
        self.by_resource
    }

    /// All positions, lent.
    pub(crate) fn positions(&self) -> &[usize]
        ensures { result.now ≡ self.now.positions }
    {
        &self.positions
    }

    /// The positions at which a scope names no entity, lent.
    pub(crate) fn unnamed(&self) -> &[usize]
        ensures value { result.now ≡ self.now.unnamed }
        ensures among { Holds result.now self.now.positions }
    {
        &self.unnamed
    }

    /// A row with a bit for each of the positions, and for no other, lent.
    pub(crate) fn row(&self) -> &[u64]
        ensures bits { HasBits result.now self.now.positions }
        ensures alone { HasBitsAlone result.now self.now.positions }
    {
        &self.row
    }
}
