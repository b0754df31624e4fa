//! Variables.
ghost use Rattle.std.specs.Prelude.{◌≡◌};
ghost use Rattle.cedar_value.specs.Glance.{datum_seen};
ghost use Rattle.cedar_ast_expressions.specs.Evaluation.{variable_of};

use cedar_value::{Glance, Request};

/// A part of the request that an expression names (Cedar language reference, variables).
#[derive(Clone, Copy, Debug, PartialEq, Eq)]
pub enum Variable {
    /// Who asks.
    Principal,
    /// What is to be done.
    Action,
    /// To what it is to be done.
    Resource,
    /// What else is known of the request.
    Context,
}

impl Variable {
    /// What the request has for the variable, lent.
    pub fn of(self, request: &Request) -> Glance<'_>
        ensures { datum_seen result ≡ variable_of self request.now }
    {
        match self {
            Variable::Principal => Glance::Uid(&request.principal),
            Variable::Action => Glance::Uid(&request.action),
            Variable::Resource => Glance::Uid(&request.resource),
            Variable::Context => Glance::Record(&request.context),
        }
    }
}
