//! The names of types that a reader keeps.
ghost use Rattle.std.specs.Prelude.{◌≡◌, ◌≤◌, ◌<◌, ◌↔◌, IfOk, IfSome, IsSome, IsTrue, MatchResult, length, slice_index_or};
ghost use Rattle.cedar_value.specs.Names.{IsName};

use cedar_value::Name;
use std::alloc::{AllocError, Global};
use std::cmp::Ordering;
use std::marker::Model;

/// How many names are kept at most. The next name that is read removes all of them, so that made-up names keep no others out for long.
const MOST_NAMES: usize = 256;

/// Names that were read, in ascending order, so that the next uid shares the name of its type and takes no memory for it. Each
/// reader has its own: if threads shared them, they would count the holders of one name in turn. Contracts see the texts.
#[derive(Drop)]
pub struct Names {
    names: Vec<Name>,
}

impl Model for Names {
    ghost use Rattle.std.specs.Prelude.{ℕ, List, All};
    ghost use Rattle.cedar_value.specs.Names.{IsName};

    ghost Value = { List (List ℕ) };

    ghost view = { λ n. n.names.items };

    ghost invariant = { λ n. All IsName n.names.items };
}

impl Names {
    /// No names. It takes no memory yet.
    pub fn new(alloc: Global) -> Names {
        Names {
            names: Vec::new(alloc),
        }
    }

    /// The name that the text writes, or None for another text. It is looked for at the place `guess` first, and otherwise found with as
    /// many comparisons as the logarithm of the number of names that are kept. Its place is the next guess.
    pub fn read(
        &mut self,
        alloc: Global,
        text: &str,
        guess: &mut usize,
    ) -> Result<Option<Name>, AllocError>
        ensures given { IfOk result (λ name. IsSome name ↔ IsName text.now) }
        ensures path { IfOk result (λ name. IfSome name (λ n. n ≡ text.now)) }
    {
        if self.is_at(*guess, text) {
            let name = self.names[*guess].try_clone(alloc)?;
            return Ok(Some(name));
        }
        match self.place(text) {
            Ok(place) => {
                *guess = place;
                let name = self.names[place].try_clone(alloc)?;
                Ok(Some(name))
            }
            Err(place) => {
                *guess = self.make_room(place);
                self.read_new(alloc, text, *guess)
            }
        }
    }

    // Whether the name at the place has this text.
    fn is_at(&self, place: usize, text: &str) -> bool
        ensures { IsTrue result
            → (place < length self.now) × IsName text.now × (slice_index_or self.now place text.now ≡ text.now) }
    {
        place < self.names.len() && self.names[place].as_str() == text
    }

    // Where the name with this text is, or where it would come.
    fn place(&self, text: &str) -> Result<usize, usize>
        ensures { MatchResult result
            (λ place. (place < length self.now) × IsName text.now × (slice_index_or self.now place text.now ≡ text.now))
            (λ place. place ≤ length self.now) }
    {
        let mut low = 0;
        let mut high = self.names.len();
        'halves: while low < high {
            let middle = low + (high - low) / 2;
            match text.cmp(self.names[middle].as_str()) {
                Ordering::Less => high = middle,
                Ordering::Greater => low = middle + 1,
                Ordering::Equal => return Ok(middle),
            }
        }
        Err(low)
    }

    // Reads a name, and keeps it at its place.
    fn read_new(
        &mut self,
        alloc: Global,
        text: &str,
        place: usize,
    ) -> Result<Option<Name>, AllocError>
        requires { place ≤ length self.old }
        ensures given { IfOk result (λ name. IsSome name ↔ IsName text.now) }
        ensures path { IfOk result (λ name. IfSome name (λ n. n ≡ text.now)) }
    {
        let Some(name) = Name::read(alloc, text)? else {
            return Ok(None);
        };
        self.names.insert(place, name.try_clone(alloc)?)?;
        Ok(Some(name))
    }

    // Where the next name goes that would come at the place: there, or first after all have been removed.
    fn make_room(&mut self, place: usize) -> usize
        requires { place ≤ length self.old }
        ensures { result ≤ length self.new }
    {
        if self.names.len() < MOST_NAMES {
            return place;
        }
        self.names.clear();
        0
    }
}
