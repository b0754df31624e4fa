//! A text that contracts see as its bytes.
ghost use Rattle.std.specs.Prelude.{◌≡◌, ◌↔◌, [], IsTrue, IfOk, OnErr, OnOk, string_bytes};
ghost use Rattle.std.specs.Str.{bytes_eq};

use std::alloc::{AllocError, Global};
use std::cmp::Ordering;
use std::hash::{Hash, Hasher};
use std::marker::Model;

/// A text, which contracts see as the list of its bytes.
#[derive(Drop)]
pub struct Text {
    content: String,
}

impl Model for Text {
    ghost use Rattle.std.specs.Prelude.{ℕ, List, string_bytes};

    ghost Value = { List ℕ };

    ghost view = { λ t. string_bytes t.content };
}

impl Text {
    /// The text that a string holds. Takes no memory.
    pub fn new(content: String) -> Self
        ensures { result ≡ string_bytes content }
    {
        Text { content }
    }

    /// A copy of a text.
    pub fn read(alloc: Global, content: &str) -> Result<Self, AllocError>
        ensures { IfOk result (λ t. t ≡ content.now) }
    {
        Ok(Text {
            content: String::from_str(alloc, content)?,
        })
    }

    /// The text, lent.
    pub fn as_str(&self) -> &str
        ensures { result.now ≡ self.now }
    {
        self.content.as_str()
    }

    /// A copy, equal to the original.
    pub fn try_clone(&self, alloc: Global) -> Result<Self, AllocError>
        ensures { IfOk result (λ t. t ≡ self.now) }
    {
        Text::read(alloc, self.content.as_str())
    }

    /// Replaces the text by a copy of another. Takes memory only where the other is longer than all that this has held.
    ///
    /// # Errors
    ///
    /// Fails only when out of memory. The text is then empty.
    pub fn assign(&mut self, content: &str) -> Result<(), AllocError>
        ensures ok { OnOk result (self.new ≡ content.now) }
        ensures err { OnErr result (self.new ≡ []) }
    {
        self.content.clear();
        self.content.push_str(content)
    }
}

impl PartialEq for Text {
    ghost use Rattle.std.specs.Str.{bytes_eq};
    ghost use Rattle.cedar_value.specs.Private.Equality.{text_equivalence};
    ghost use Rattle.std.specs.Cmp.{partial_equiv_from_equiv};

    ghost eq = { bytes_eq };

    ghost laws = { partial_equiv_from_equiv text_equivalence };

    fn eq(&self, other: &Self) -> bool
        ensures gives { result ≡ bytes_eq self.now other.now }
        ensures equal { IsTrue result ↔ (self.now ≡ other.now) }
    {
        self.content.as_str() == other.content.as_str()
    }
}

impl Eq for Text {
    ghost use Rattle.cedar_value.specs.Private.Equality.{text_equivalence};

    ghost laws = { text_equivalence };
}

impl Hash for Text {
    ghost use Rattle.std.specs.Hash as fed;
    ghost use Rattle.std.proofs.Common.{ap};
    ghost use Rattle.std.proofs.lemmas.Slice.Eq.{bytes_eq-Decides};

    ghost hash_input = { fed.str };

    ghost respects_eq = { λ s t h. ap fed.str ((bytes_eq-Decides s t).0 h) };

    fn hash<H: Hasher>(&self, state: &mut H) {
        self.content.as_str().hash(state);
    }
}

impl PartialOrd for Text {
    ghost use Rattle.std.specs.Ordering.{as_partial_cmp};
    ghost use Rattle.cedar_value.specs.Order.{text_cmp};
    ghost use Rattle.cedar_value.specs.Private.Laws.{text_partial_order};

    ghost partial_cmp = { as_partial_cmp text_cmp };

    ghost laws = { text_partial_order };

    fn partial_cmp(&self, other: &Self) -> Option<Ordering> {
        Some(self.cmp(other))
    }
}

impl Ord for Text {
    ghost use Rattle.std.specs.Prelude.{refl};
    ghost use Rattle.cedar_value.specs.Order.{text_cmp};
    ghost use Rattle.std.proofs.lemmas.Cmp.{nat_list_cmp_total};
    ghost use Rattle.cedar_value.specs.Private.Laws.{text_ties};

    ghost cmp = { text_cmp };

    ghost total = { nat_list_cmp_total };

    ghost matches_partial_cmp = { λ x y. refl };

    ghost matches_eq = { text_ties };

    fn cmp(&self, other: &Self) -> Ordering {
        self.content.as_str().cmp(other.content.as_str())
    }
}
