//! A response whose lists are lent.
ghost use Rattle.std.specs.Prelude.{◌≡◌, [], ◌∷◌, IfSome};

use crate::response::Erring;
use cedar_ast::Decision;
use std::marker::Model;

/// A response, as `Response` has it, whose lists are lent by the tally that gathered them, so that a line takes no memory
/// for them. Contracts see it as a `ResponseTree`.
#[derive(Drop)]
pub(crate) struct Told<'t, 'p> {
    pub(crate) decision: Decision,
    pub(crate) determining: &'t [&'p str],
    pub(crate) erring: &'t [Erring<'p>],
}

impl<'t, 'p> Model for Told<'t, 'p> {
    ghost use Rattle.std.specs.Prelude.{map};
    ghost use Rattle.cedar_ast.specs.Response.{ResponseTree};

    ghost Value = { ResponseTree };

    ghost view = { λ r. record { decision = r.decision; determining = map (λ id. id.now) r.determining.now; erring = r.erring.now } };
}

impl<'t, 'p> Told<'t, 'p> {
    /// The decision.
    pub(crate) fn decision(&self) -> Decision
        ensures { result ≡ self.now.decision }
    {
        self.decision
    }

    /// The id of the only policy that is named.
    pub(crate) fn only_id(&self) -> Option<&'p str>
        ensures { IfSome result (λ id. self.now ≡ record { decision = self.now.decision; determining = id.now ∷ []; erring = [] }) }
    {
        match (self.determining, self.erring) {
            ([id], []) => Some(id),
            _ => None,
        }
    }
}
