//! Annotations of policies.
ghost use Rattle.std.specs.Prelude.{◌≡◌, IfOk};

use cedar_value::Text;
use std::alloc::{AllocError, Global};

/// A name with a text. It has no meaning for an evaluation (Cedar language reference, annotations).
#[derive(Drop)]
pub struct Annotation {
    /// The name after the `@`.
    pub name: Text,
    /// The text in brackets.
    pub value: Text,
}

impl Annotation {
    /// A copy, equal to the original.
    pub(crate) fn try_clone(&self, alloc: Global) -> Result<Self, AllocError>
        ensures { IfOk result (λ annotation. annotation ≡ self.now) }
    {
        Ok(Annotation {
            name: self.name.try_clone(alloc)?,
            value: self.value.try_clone(alloc)?,
        })
    }
}
