//! What follows `has`: one attribute, or a path of them.
ghost use Rattle.std.specs.Prelude.{◌≡◌};

use cedar_parser_tokens::Content;
use cedar_value::Text;
use std::marker::Model;

/// A string, or identifiers with dots between them, which contracts see as the first attribute and those after it
/// (Cedar language reference, operators: has).
#[derive(Drop)]
pub struct AttributePath {
    first: Content,
    more: Vec<Text>,
}

impl Model for AttributePath {
    ghost use Rattle.std.specs.Prelude.{Option, List, ℕ};

    ghost Value = { Option (List ℕ) × List (List ℕ) };

    ghost view = { λ p. (p.first, p.more.items) };
}

impl AttributePath {
    /// This attribute, and those after it. Takes no memory.
    pub fn new(first: Content, more: Vec<Text>) -> AttributePath
        ensures { result ≡ (first, more.items) }
    {
        AttributePath { first, more }
    }

    /// The first attribute, lent.
    pub fn first(&self) -> &Content
        ensures { result.now ≡ self.now.0 }
    {
        &self.first
    }

    /// The attributes after it, in order, lent.
    pub fn more(&self) -> &[Text]
        ensures { result.now ≡ self.now.1 }
    {
        &self.more
    }
}
