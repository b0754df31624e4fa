//! The texts of strings and words, with their places.
ghost use Rattle.std.specs.Prelude.{◌≡◌, IfOk, option_map};

use cedar_value::{Name, Text, Uid};
use std::alloc::{AllocError, Global};
use std::marker::Model;

/// The text that a string or a word denotes, which contracts see as an `Option`: a string with the escape `\*` denotes none
/// (Cedar language reference, grammar: `STR`).
#[derive(Drop)]
pub struct Content {
    text: Option<Text>,
    /// The place of the string, or of the first `\*` in it, in bytes from 0.
    place: usize,
}

impl Model for Content {
    ghost use Rattle.std.specs.Prelude.{Option, List, ℕ};

    ghost Value = { Option (List ℕ) };

    ghost view = { λ c. c.text };
}

impl Content {
    ghost use Rattle.cedar_parser_tokens.specs.Content.{text_of};

    /// This text, if there is one, with its place.
    pub fn new(text: Option<Text>, place: usize) -> Content
        ensures { result ≡ text }
    {
        Content { text, place }
    }

    /// The text, lent.
    pub fn text(&self) -> Option<&Text>
        ensures { option_map (λ t. t.now) result ≡ self.now }
    {
        self.text.as_ref()
    }

    /// The text, an empty one where there is none, lent.
    pub fn as_str(&self) -> &str
        ensures { result.now ≡ text_of self.now }
    {
        match &self.text {
            None => "",
            Some(text) => text.as_str(),
        }
    }

    /// The place of the string, or of the first `\*` in it, in bytes from 0.
    pub fn place(&self) -> usize {
        self.place
    }

    /// The text itself, an empty one where there is none. Takes no memory.
    pub fn into_text(self, alloc: Global) -> Text
        ensures { result ≡ text_of self }
    {
        match self.text {
            None => Text::new(String::new(alloc)),
            Some(text) => text,
        }
    }

    /// A copy of the text, an empty one where there is none.
    pub fn to_text(&self, alloc: Global) -> Result<Text, AllocError>
        ensures { IfOk result (λ t. t ≡ text_of self.now) }
    {
        match &self.text {
            None => Ok(Text::new(String::new(alloc))),
            Some(text) => text.try_clone(alloc),
        }
    }

    /// A copy, equal to the original.
    pub fn try_clone(&self, alloc: Global) -> Result<Content, AllocError>
        ensures { IfOk result (λ c. c ≡ self.now) }
    {
        let text = match &self.text {
            None => None,
            Some(text) => Some(text.try_clone(alloc)?),
        };
        Ok(Content {
            text,
            place: self.place,
        })
    }
}

/// A word, which contracts see as its text.
#[derive(Drop)]
pub struct Word {
    text: Text,
    /// The place of the word, in bytes from 0.
    place: usize,
}

impl Model for Word {
    ghost use Rattle.std.specs.Prelude.{List, ℕ};

    ghost Value = { List ℕ };

    ghost view = { λ w. w.text };
}

impl Word {
    /// This word, with its place.
    pub fn read(alloc: Global, text: &str, place: usize) -> Result<Word, AllocError>
        ensures { IfOk result (λ w. w ≡ text.now) }
    {
        Ok(Word {
            text: Text::read(alloc, text)?,
            place,
        })
    }

    /// The text, lent.
    pub fn as_str(&self) -> &str
        ensures { result.now ≡ self.now }
    {
        self.text.as_str()
    }

    /// The text itself. Takes no memory.
    pub fn into_text(self) -> Text
        ensures { result ≡ self }
    {
        self.text
    }

    /// The place of the word, in bytes from 0.
    pub fn place(&self) -> usize {
        self.place
    }
}

/// The uid of an entity as it is written (Cedar language reference, grammar: `Entity`).
#[derive(Drop)]
pub struct WrittenUid {
    /// The path.
    pub ty: Name,
    /// The text that the string after it denotes.
    pub id: Content,
}

impl WrittenUid {
    ghost use Rattle.cedar_parser_tokens.specs.Names.{to_uid};

    /// The uid that is written, with an empty id if its string denotes no text. Takes no memory.
    pub fn into_uid(self, alloc: Global) -> Uid
        ensures { result ≡ to_uid self }
    {
        Uid {
            ty: self.ty,
            id: self.id.into_text(alloc),
        }
    }

    /// A copy of the uid that is written, with an empty id if its string denotes no text.
    pub fn to_uid(&self, alloc: Global) -> Result<Uid, AllocError>
        ensures { IfOk result (λ u. u ≡ to_uid self.now) }
    {
        Ok(Uid {
            ty: self.ty.try_clone(alloc)?,
            id: self.id.to_text(alloc)?,
        })
    }
}
