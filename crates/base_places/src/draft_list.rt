//! A list that is made item by item.
ghost use Rattle.std.specs.Prelude.{◌≡◌, ◌↔◌, [], ◌∷◌, Some, None, IfSome, IfOk, IsNone, IsTrue, option_to_list, OnErr};
ghost use Rattle.base_places.specs.Drafts.{Adds};

use std::alloc::{AllocError, Global};
use std::marker::Model;

/// A list that is made item by item, which remembers that memory was refused: the items need no `?`, but the whole list, at `done`.
/// Once memory was refused nothing more is added, and `done` fails. Contracts see the items so far, or none after that.
///
/// ```rust
/// use base_places::{Draft, DraftList};
///
/// let mut notes = DraftList::new(alloc);
/// notes.add_made(String::from_str(alloc, "an entity has no parent"));
/// let mut note = Draft::new(alloc);
/// note.add_all(&["the type ", "Folder", " has none"]);
/// notes.add_made(note.done());
/// let notes = notes.done()?;
/// assert_eq!(rt; notes.len(), 2);
/// ```
#[derive(Drop)]
pub struct DraftList<T> {
    items: Vec<T>,
    refused: bool,
}

impl<T> Model for DraftList<T> {
    ghost use Rattle.std.specs.Prelude.{List, Option, Some, None, if◌then◌else◌};

    ghost Value = { Option (List T) };

    ghost view = { λ d. if d.refused then None else Some d.items.items };
}

impl<T: Drop> DraftList<T> {
    /// A list without items yet. Takes no memory.
    pub fn new(alloc: Global) -> Self
        ensures { result ≡ Some [] }
    {
        DraftList {
            items: Vec::new(alloc),
            refused: false,
        }
    }

    /// Adds an item at the end.
    pub fn add(&mut self, item: T)
        ensures { Adds self.old (item ∷ []) self.new }
    {
        if !self.refused {
            self.refused = self.items.push(item).is_err();
        }
    }

    /// Takes the last item, if there is one.
    pub fn pop(&mut self) -> Option<T>
        ensures { Adds self.new (option_to_list result) self.old }
    {
        self.items.pop()
    }

    /// Adds an item that was made elsewhere, or remembers that it could not be made.
    pub fn add_made(&mut self, made: Result<T, AllocError>)
        ensures made { IfOk made (λ item. Adds self.old (item ∷ []) self.new) }
        ensures refused { OnErr made (self.new ≡ None) }
    {
        match made {
            Ok(item) => self.add(item),
            Err(AllocError) => self.refused = true,
        }
    }

    /// Whether memory was refused, so that `done` will fail.
    pub fn is_refused(&self) -> bool
        ensures { IsTrue result ↔ IsNone self.now }
    {
        self.refused
    }

    /// The items so far, and maybe not all of them once memory was refused.
    pub fn as_slice(&self) -> &[T]
        ensures { IfSome self.now (λ items. result.now ≡ items) }
    {
        &self.items
    }

    /// The items, in order.
    ///
    /// # Errors
    ///
    /// Fails only when out of memory, now or at any item.
    pub fn done(self) -> Result<Vec<T>, AllocError>
        ensures ok { IfOk result (λ list. self ≡ Some list.items) }
        ensures refused { OnErr result (self ≡ None) }
    {
        if self.refused {
            Err(AllocError)
        } else {
            Ok(self.items)
        }
    }
}
