//! Lists of numbers.
ghost use Rattle.std.specs.Prelude.{◌≡◌, ◌∷◌, ◌++◌, [], get_or, length, OnOk};

use std::alloc::{AllocError, Global};
use std::marker::Model;

/// Lists of numbers, which contracts see as such. The numbers of all lists lie in one piece of memory.
#[derive(Drop)]
pub struct Lists {
    numbers: Vec<usize>,
    // Where each list lies among the numbers.
    spans: Vec<Span>,
}

// From where to where a list lies among numbers.
#[derive(Clone, Copy)]
struct Span {
    start: usize,
    end: usize,
}

impl Model for Lists {
    ghost use Rattle.std.specs.Prelude.{ℕ, List};
    ghost use Rattle.base_search.specs.Private.Spans.{AreWithin, lists_of};

    ghost Value = { List (List ℕ) };

    ghost view = { λ l. lists_of l.numbers.items l.spans.items };

    ghost invariant = { λ l. AreWithin l.numbers.items l.spans.items };
}

impl Lists {
    /// No list. Takes no memory.
    pub fn new(alloc: Global) -> Self
        ensures { result ≡ [] }
    {
        Lists {
            numbers: Vec::new(alloc),
            spans: Vec::new(alloc),
        }
    }

    /// How many lists there are.
    pub fn len(&self) -> usize
        ensures { result ≡ length self.now }
    {
        self.spans.len()
    }

    /// The list at a place, counted from 0, and an empty one past the last.
    pub fn get(&self, place: usize) -> &[usize]
        ensures { result.now ≡ get_or self.now place [] }
    {
        match self.spans.get(place) {
            Some(span) => &self.numbers[span.start..span.end],
            None => &[],
        }
    }

    /// Appends a list.
    pub fn push(&mut self, list: &[usize]) -> Result<(), AllocError>
        ensures { OnOk result (self.new ≡ self.old ++ list.now ∷ []) }
    {
        let start = self.numbers.len();
        self.numbers.extend_from_slice(list)?;
        let end = self.numbers.len();
        self.spans.push(Span { start, end })?;
        Ok(())
    }
}
