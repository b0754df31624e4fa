//! The rows that were found so far.
ghost use Rattle.std.specs.Prelude.{◌≡◌, ◌<◌, [], false, true, get_or, length, replicate, set, IfOk, IfSome};
ghost use Rattle.base_bits.specs.Bits.{has_bit};

use crate::row::Row;
use std::alloc::{AllocError, Global};

/// A row for each list, and whether it was found.
#[derive(Drop)]
pub(crate) struct Found {
    pub rows: Vec<Row>,
    pub known: Vec<bool>,
}

impl Found {
    /// No row yet, for so many lists.
    pub(crate) fn new(alloc: Global, lists: usize) -> Result<Self, AllocError>
        ensures rows { IfOk result (λ found. length found.rows.items ≡ lists) }
        ensures known { IfOk result (λ found. found.known.items ≡ replicate lists false) }
    {
        let mut rows = Vec::with_capacity(alloc, lists)?;
        for _place in 0..lists {
            rows.push(Row::new(alloc))?;
        }
        Ok(Found {
            rows,
            known: vec![in alloc; false; lists]?,
        })
    }

    /// The row of the list at a place, where it was found.
    pub(crate) fn row(&self, place: usize) -> Option<&Row>
        ensures known { IfSome result (λ _. get_or self.now.known.items place false ≡ true) }
        ensures row { IfSome result (λ row. row.now ≡ get_or self.now.rows.items place []) }
    {
        match (self.known.get(place), self.rows.get(place)) {
            (Some(true), Some(row)) => Some(row),
            _ => None,
        }
    }

    /// Whether the row at a place has the number.
    pub(crate) fn has(&self, place: usize, number: usize) -> bool
        ensures { result ≡ has_bit (get_or self.now.rows.items place []) number }
    {
        match self.rows.get(place) {
            Some(row) => row.has(number),
            None => false,
        }
    }

    /// Keeps the row of the list at a place.
    pub(crate) fn keep(&mut self, place: usize, row: Row)
        requires rows { place < length self.old.rows.items }
        requires known { place < length self.old.known.items }
        ensures rows { self.new.rows.items ≡ set self.old.rows.items place row }
        ensures known { self.new.known.items ≡ set self.old.known.items place true }
    {
        self.rows[place] = row;
        self.known[place] = true;
    }
}
