//! A text that is written piece by piece.
ghost use Rattle.std.specs.Prelude.{◌≡◌, ◌↔◌, ◌++◌, [], Some, None, IfSome, IfOk, IsNone, IsTrue, OnErr, map, string_bytes};
ghost use Rattle.std.specs.List.{concat};
ghost use Rattle.std.specs.Char.{encode_utf8};
ghost use Rattle.std.specs.Str.{chars};
ghost use Rattle.base_places.specs.Drafts.{Adds};
ghost use Rattle.base_places.specs.Shown.{shown_as};

use crate::shown::push_shown;
use std::alloc::{AllocError, Global};
use std::fmt::{Display, Write};
use std::marker::Model;

/// A text that is written piece by piece, which remembers that memory was refused: so the pieces need no `?`, but the whole one,
/// at `done`. Once memory was refused nothing more is added, and `done` fails. Contracts see the bytes so far, or none after that.
///
/// ```rust
/// use base_places::Draft;
///
/// let mut draft = Draft::new(alloc);
/// draft.add("entry ");
/// draft.add_display(3);
/// draft.add_all(&[" of ", "entities", ".json"]);
/// let text = draft.done()?;
/// assert_eq!(rt; text.as_str(), "entry 3 of entities.json");
/// ```
#[derive(Drop)]
pub struct Draft {
    text: String,
    refused: bool,
}

impl Model for Draft {
    ghost use Rattle.std.specs.Prelude.{ℕ, List, Option, Some, None, if◌then◌else◌, string_bytes};

    ghost Value = { Option (List ℕ) };

    ghost view = { λ d. if d.refused then None else Some (string_bytes d.text) };
}

impl Draft {
    /// A draft without a text yet. Takes no memory.
    pub fn new(alloc: Global) -> Self
        ensures { result ≡ Some [] }
    {
        Draft::from_text(String::new(alloc))
    }

    /// A draft that begins with a text that is there already. Takes no memory.
    pub fn from_text(text: String) -> Self
        ensures { result ≡ Some (string_bytes text) }
    {
        Draft {
            text,
            refused: false,
        }
    }

    /// Adds a text.
    pub fn add(&mut self, text: &str)
        ensures { Adds self.old text.now self.new }
    {
        if !self.refused {
            self.refused = self.text.push_str(text).is_err();
        }
    }

    /// Adds texts, one after another.
    pub fn add_all(&mut self, texts: &[&str])
        ensures { Adds self.old (concat (map (λ text. text.now) texts.now)) self.new }
    {
        for text in texts {
            self.add(text);
        }
    }

    /// Adds a character.
    pub fn add_char(&mut self, character: char)
        ensures { Adds self.old (encode_utf8 character) self.new }
    {
        if !self.refused {
            self.refused = self.text.push(character).is_err();
        }
    }

    /// Adds what `{}` writes of a value, for example the digits of a number.
    pub fn add_display<D: Display + Drop>(&mut self, value: D)
        ensures written { IfSome (D.output value) (λ written. Adds self.old written self.new) }
        ensures refused { self.old ≡ None → self.new ≡ None }
    {
        if !self.refused {
            self.refused = write!(self.text, "{value}").is_err();
        }
    }

    /// Adds a text as a terminal may show it, as `push_shown` does.
    pub fn add_shown(&mut self, text: &str)
        ensures shown { IfSome self.new (λ bytes. IfSome self.old (λ begun. chars bytes ≡ chars begun ++ map shown_as (chars text.now))) }
        ensures refused { self.old ≡ None → self.new ≡ None }
    {
        if !self.refused {
            self.refused = push_shown(&mut self.text, text).is_err();
        }
    }

    /// Remembers that memory was refused elsewhere.
    pub fn refuse(&mut self)
        ensures { self.new ≡ None }
    {
        self.refused = true;
    }

    /// Adds a text that was made elsewhere, or remembers that it could not be made.
    pub fn add_made(&mut self, made: Result<String, AllocError>)
        ensures made { IfOk made (λ text. Adds self.old (string_bytes text) self.new) }
        ensures refused { OnErr made (self.new ≡ None) }
    {
        match made {
            Ok(text) => self.add(text.as_str()),
            Err(AllocError) => self.refuse(),
        }
    }

    /// Whether memory was refused, so that `done` will fail.
    pub fn is_refused(&self) -> bool
        ensures { IsTrue result ↔ IsNone self.now }
    {
        self.refused
    }

    /// What was added so far, and maybe not all of it once memory was refused.
    pub fn as_str(&self) -> &str
        ensures { IfSome self.now (λ bytes. result.now ≡ bytes) }
    {
        self.text.as_str()
    }

    /// What was added, in order.
    ///
    /// # Errors
    ///
    /// Fails only when out of memory, now or at any piece.
    pub fn done(self) -> Result<String, AllocError>
        ensures ok { IfOk result (λ text. self ≡ Some (string_bytes text)) }
        ensures refused { OnErr result (self ≡ None) }
    {
        if self.refused {
            Err(AllocError)
        } else {
            Ok(self.text)
        }
    }
}
