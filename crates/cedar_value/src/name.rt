//! Names of entity types.
ghost use Rattle.std.specs.Prelude.{◌≡◌, ◌↔◌, IfOk, IfSome, IsSome, IsTrue};
ghost use Rattle.cedar_value.specs.Names.{IsName};
ghost use Rattle.std.specs.Str.{bytes_eq};

use crate::path::is_path;
use crate::shared_text::SharedText;
use crate::text::Text;
use base_reach::Key;
use std::alloc::{AllocError, Global};
use std::marker::Model;

/// A path of identifiers, for example `Photos::Album`, which contracts see as the bytes of its text (Cedar language reference,
/// entity types and namespaces). Its copies share one text.
#[derive(Drop, Eq, Hash, PartialOrd, Ord)]
pub struct Name {
    path: SharedText,
}

impl Model for Name {
    ghost use Rattle.std.specs.Prelude.{ℕ, List};

    ghost Value = { List ℕ };

    ghost view = { λ n. n.path };

    ghost inverse = { λ path. record { path = path } };
}

impl Name {
    /// The name with this text. The caller knows that the text is a name; `read` tests a text.
    pub fn new(alloc: Global, path: Text) -> Result<Self, AllocError>
        ensures { IfOk result (λ name. name ≡ path) }
    {
        Ok(Name {
            path: SharedText::new(alloc, path)?,
        })
    }

    /// The name that the text writes: one or more identifiers, none of them reserved, with `::` between
    /// them and nothing else (Cedar language reference, policy grammar: Path). None for another text.
    pub fn read(alloc: Global, text: &str) -> Result<Option<Self>, AllocError>
        ensures given { IfOk result (λ name. IsSome name ↔ IsName text.now) }
        ensures path { IfOk result (λ name. IfSome name (λ n. n ≡ text.now)) }
    {
        if !is_path(text) {
            return Ok(None);
        }
        Ok(Some(Name {
            path: SharedText::read(alloc, text)?,
        }))
    }

    /// The text of the name, lent.
    pub fn as_str(&self) -> &str
        ensures { result.now ≡ self.now }
    {
        self.path.as_str()
    }

    /// A copy, equal to the original, that shares its text: it takes no memory.
    pub fn try_clone(&self, _alloc: Global) -> Result<Self, AllocError>
        ensures { IfOk result (λ n. n ≡ self.now) }
    {
        Ok(Name {
            path: self.path.share()?,
        })
    }
}

impl Key for Name {
    ghost use Rattle.cedar_value.specs.Private.Same.{text_same};

    ghost ties = { text_same };

    fn try_clone(&self, alloc: Global) -> Result<Self, AllocError> {
        Name::try_clone(self, alloc)
    }
}

impl PartialEq for Name {
    ghost use Rattle.std.specs.Str.{bytes_eq};
    ghost use Rattle.cedar_value.specs.Private.Equality.{text_equivalence};
    ghost use Rattle.std.specs.Cmp.{partial_equiv_from_equiv};

    ghost eq = { bytes_eq };

    ghost laws = { partial_equiv_from_equiv text_equivalence };

    fn eq(&self, other: &Self) -> bool
        ensures gives { result ≡ bytes_eq self.now other.now }
        ensures equal { IsTrue result ↔ (self.now ≡ other.now) }
    {
        self.path == other.path
    }
}
