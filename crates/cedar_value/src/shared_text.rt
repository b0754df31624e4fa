//! A text that is shared by all who hold it.
ghost use Rattle.std.specs.Prelude.{◌≡◌, ◌↔◌, IsTrue, IfOk, string_bytes};
ghost use Rattle.std.specs.Str.{bytes_eq};

use crate::text::Text;
use std::alloc::{AllocError, Global};
use std::cmp::Ordering;
use std::hash::{Hash, Hasher};
use std::marker::Model;
use std::sync::Arc;

/// A text that is kept once for all who hold it, for example the key of a record or the name of a type. Contracts see the list
/// of its bytes. It has the size of one address, and sharing it takes no memory.
#[derive(Drop)]
pub struct SharedText {
    content: Arc<Text, Global>,
}

impl Model for SharedText {
    ghost use Rattle.std.specs.Prelude.{ℕ, List};

    ghost Value = { List ℕ };

    ghost view = { λ t. t.content.value };
}

impl SharedText {
    /// The text, shared from now on. Takes the memory of one text's place.
    pub fn new(alloc: Global, content: Text) -> Result<Self, AllocError>
        ensures { IfOk result (λ t. t ≡ content) }
    {
        Ok(SharedText {
            content: Arc::new(alloc, content)?,
        })
    }

    /// A copy of a text, to be shared.
    pub fn read(alloc: Global, content: &str) -> Result<Self, AllocError>
        ensures { IfOk result (λ t. t ≡ content.now) }
    {
        SharedText::new(alloc, Text::read(alloc, content)?)
    }

    /// The text, lent.
    pub fn as_str(&self) -> &str
        ensures { result.now ≡ self.now }
    {
        self.content.as_str()
    }

    /// The same text for one more holder. Takes no memory.
    ///
    /// # Errors
    ///
    /// Fails only where the text has so many holders that their count has no room.
    pub fn share(&self) -> Result<Self, AllocError>
        ensures { IfOk result (λ t. t ≡ self.now) }
    {
        Ok(SharedText {
            content: Arc::try_clone(&self.content)?,
        })
    }
}

impl PartialEq for SharedText {
    ghost use Rattle.std.specs.Str.{bytes_eq};
    ghost use Rattle.cedar_value.specs.Private.Equality.{text_equivalence};
    ghost use Rattle.std.specs.Cmp.{partial_equiv_from_equiv};

    ghost eq = { bytes_eq };

    ghost laws = { partial_equiv_from_equiv text_equivalence };

    fn eq(&self, other: &Self) -> bool
        ensures gives { result ≡ bytes_eq self.now other.now }
        ensures equal { IsTrue result ↔ (self.now ≡ other.now) }
    {
        self.as_str() == other.as_str()
    }
}

impl Eq for SharedText {
    ghost use Rattle.cedar_value.specs.Private.Equality.{text_equivalence};

    ghost laws = { text_equivalence };
}

impl Hash for SharedText {
    ghost use Rattle.std.specs.Hash as fed;
    ghost use Rattle.std.proofs.Common.{ap};
    ghost use Rattle.std.proofs.lemmas.Slice.Eq.{bytes_eq-Decides};

    ghost hash_input = { fed.str };

    ghost respects_eq = { λ s t h. ap fed.str ((bytes_eq-Decides s t).0 h) };

    fn hash<H: Hasher>(&self, state: &mut H) {
        self.as_str().hash(state);
    }
}

impl PartialOrd for SharedText {
    ghost use Rattle.std.specs.Ordering.{as_partial_cmp};
    ghost use Rattle.cedar_value.specs.Order.{text_cmp};
    ghost use Rattle.cedar_value.specs.Private.Laws.{text_partial_order};

    ghost partial_cmp = { as_partial_cmp text_cmp };

    ghost laws = { text_partial_order };

    fn partial_cmp(&self, other: &Self) -> Option<Ordering> {
        Some(self.cmp(other))
    }
}

impl Ord for SharedText {
    ghost use Rattle.std.specs.Prelude.{refl};
    ghost use Rattle.cedar_value.specs.Order.{text_cmp};
    ghost use Rattle.std.proofs.lemmas.Cmp.{nat_list_cmp_total};
    ghost use Rattle.cedar_value.specs.Private.Laws.{text_ties};

    ghost cmp = { text_cmp };

    ghost total = { nat_list_cmp_total };

    ghost matches_partial_cmp = { λ x y. refl };

    ghost matches_eq = { text_ties };

    fn cmp(&self, other: &Self) -> Ordering {
        self.as_str().cmp(other.as_str())
    }
}
