//! What is decided on a request, for C.
ghost use Rattle.std.specs.Prelude.{◌≡◌};
ghost use Rattle.cedar_c.specs.Deciding.{decision_number};

use cedar_ast::Decision;

/// What is decided on a request.
#[repr(C)]
#[derive(Clone, Copy)]
pub struct Decided {
    /// 1 where it is allowed, and 0 otherwise.
    pub(crate) allow: u32,
    /// The number by which the parts are refused, and 0 where they are not.
    pub(crate) refused: u32,
}

impl Decided {
    /// Where nothing is decided.
    pub(crate) fn none() -> Decided
        ensures { result ≡ record { allow = 0; refused = 0 } }
    {
        Decided {
            allow: 0,
            refused: 0,
        }
    }
}

/// The number of a decision.
pub(crate) fn decision_number(decision: Decision) -> u32
    ensures { result ≡ decision_number decision }
{
    match decision {
        Decision::Allow => 1,
        Decision::Deny => 0,
    }
}
