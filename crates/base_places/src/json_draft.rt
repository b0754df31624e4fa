//! JSON that is written token by token.
ghost use Rattle.std.specs.Prelude.{◌≡◌, ◌++◌, ℕ, List, [], ◌∷◌, Some, None, IfSome, IfOk, IsSome, OnErr, decimal, map, string_bytes};
ghost use Rattle.std.specs.Str.{chars};
ghost use Rattle.json.specs.Token.{begin_object, end_object, begin_array, end_array, key, string, number};
ghost use Rattle.json.specs.Print.{print};
ghost use Rattle.base_places.specs.Drafts.{Adds};
ghost use Rattle.base_places.specs.Shown.{shown_as};

use crate::shown::push_shown;
use json::Writer;
use std::alloc::{AllocError, Global};
use std::marker::Model;

/// JSON that is written token by token, which remembers that memory was refused: the tokens need no `?`, but the whole of them, at
/// `done`. It places the commas and the colons. Contracts see the tokens so far, or none once memory was refused.
///
/// ```rust
/// use base_places::JsonDraft;
///
/// let mut json = JsonDraft::new(alloc);
/// json.begin_object();
/// json.string_at("file", "policies.cedar");
/// json.number_at("line", 3);
/// json.end_object();
/// let text = json.done()?;
/// assert_eq!(rt; text.as_str(), "{\"file\":\"policies.cedar\",\"line\":3}");
/// ```
#[derive(Drop)]
pub struct JsonDraft {
    writer: Writer,
    refused: bool,
}

impl Model for JsonDraft {
    ghost use Rattle.std.specs.Prelude.{◌≡◌, [], List, Option, Some, None, if◌then◌else◌};
    ghost use Rattle.json.specs.Token.{Token};

    ghost Value = { Option (List Token) };

    ghost view = { λ d. if d.refused then None else Some d.writer.tokens };

    ghost invariant = { λ d. d.writer.before ≡ [] };
}

impl JsonDraft {
    /// Without a token yet. Takes no memory.
    pub fn new(alloc: Global) -> Self
        ensures { result ≡ Some [] }
    {
        JsonDraft {
            writer: Writer::new(Vec::new(alloc)),
            refused: false,
        }
    }

    /// Begins an object.
    pub fn begin_object(&mut self)
        ensures { Adds self.old (begin_object ∷ []) self.new }
    {
        if !self.refused {
            self.refused = self.writer.begin_object().is_err();
        }
    }

    /// Ends the object that was begun last.
    pub fn end_object(&mut self)
        ensures { Adds self.old (end_object ∷ []) self.new }
    {
        if !self.refused {
            self.refused = self.writer.end_object().is_err();
        }
    }

    /// Begins an array.
    pub fn begin_array(&mut self)
        ensures { Adds self.old (begin_array ∷ []) self.new }
    {
        if !self.refused {
            self.refused = self.writer.begin_array().is_err();
        }
    }

    /// Ends the array that was begun last.
    pub fn end_array(&mut self)
        ensures { Adds self.old (end_array ∷ []) self.new }
    {
        if !self.refused {
            self.refused = self.writer.end_array().is_err();
        }
    }

    /// A key, whose value comes next.
    pub fn key(&mut self, name: &str)
        ensures { Adds self.old (key name.now ∷ []) self.new }
    {
        if !self.refused {
            self.refused = self.writer.key(name).is_err();
        }
    }

    /// A string.
    pub fn string(&mut self, text: &str)
        ensures { Adds self.old (string text.now ∷ []) self.new }
    {
        if !self.refused {
            self.refused = self.writer.string(text).is_err();
        }
    }

    /// A number.
    pub fn number(&mut self, value: usize)
        ensures { Adds self.old (number (decimal value) ∷ []) self.new }
    {
        if !self.refused {
            self.refused = self.writer.u64(value as u64).is_err();
        }
    }

    /// A key and its string.
    pub fn string_at(&mut self, name: &str, text: &str)
        ensures { Adds self.old (key name.now ∷ string text.now ∷ []) self.new }
    {
        self.key(name);
        self.string(text);
    }

    /// A key and its number.
    pub fn number_at(&mut self, name: &str, value: usize)
        ensures { Adds self.old (key name.now ∷ number (decimal value) ∷ []) self.new }
    {
        self.key(name);
        self.number(value);
    }

    /// A string, of a text as a terminal may show it (`push_shown`).
    pub fn shown(&mut self, alloc: Global, text: &str)
        ensures shown { IfSome self.new (λ _. (t : List ℕ) × (chars t ≡ map shown_as (chars text.now))
            × Adds self.old (string t ∷ []) self.new) }
    {
        let mut shown = String::new(alloc);
        match push_shown(&mut shown, text) {
            Ok(()) => self.string(shown.as_str()),
            Err(AllocError) => self.refused = true,
        }
    }

    /// The text of the tokens.
    ///
    /// # Errors
    ///
    /// Fails only when out of memory, now or at any token.
    pub fn done(self) -> Result<String, AllocError>
        ensures ok { IfOk result (λ text. IfSome self (λ tokens. string_bytes text ≡ print tokens)) }
        ensures refused { OnErr result (self ≡ None) }
        ensures done { IfOk result (λ _. IsSome self) }
    {
        if self.refused {
            return Err(AllocError);
        }
        match String::from_utf8(self.writer.into_inner()) {
            Ok(text) => Ok(text),
            Err(_) => unreachable!(),
        }
    }
}
