//! What a walk over a statement looks for.
ghost use Rattle.std.specs.Prelude.{IsTrue, ◌↔◌};
ghost use Rattle.cedar_parser_limits.specs.Private.Judging.{Seeks};

use crate::side_condition::SideCondition;
use cedar_ext::Language;

/// The side conditions that a walk over a statement looks for, and the language of the statement.
#[derive(Clone, Copy)]
pub struct Sought {
    /// The language whose functions and methods may be called.
    pub language: Language,
    /// The one side condition, or None for all of them.
    pub only: Option<SideCondition>,
}

impl Sought {
    /// Whether the walk looks for this side condition.
    pub fn has(self, condition: SideCondition) -> bool
        ensures { IsTrue result ↔ Seeks self condition }
    {
        match self.only {
            None => true,
            Some(only) => only == condition,
        }
    }
}
