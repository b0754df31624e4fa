//! The response to a request.
use cedar_ast::Decision;
use cedar_ast_expressions::EvaluationError;
use std::marker::Model;

/// A policy that erred, and its error. Contracts see it as an `ErringTree`.
#[derive(Drop)]
pub struct Erring<'p> {
    /// The policy's id.
    pub policy: &'p str,
    /// The error of its condition.
    pub error: EvaluationError,
}

impl<'p> Model for Erring<'p> {
    ghost use Rattle.cedar_ast.specs.Response.{ErringTree};

    ghost Value = { ErringTree };

    ghost view = { λ e. record { id = e.policy.now; error = e.error } };
}

/// The answer to a request: the decision, the ids of the policies that determine it, and the policies that erred,
/// both lists in the order of the policies. The ids are lent by the policies. Contracts see it as a `ResponseTree`
/// (Cedar language reference, authorization).
#[derive(Drop)]
pub struct Response<'p> {
    /// The decision.
    pub decision: Decision,
    /// The satisfied permits where the request is allowed, else the satisfied forbids.
    pub determining: Vec<&'p str>,
    /// The policies whose conditions erred; they take no other part.
    pub erring: Vec<Erring<'p>>,
}

impl<'p> Model for Response<'p> {
    ghost use Rattle.std.specs.Prelude.{map};
    ghost use Rattle.cedar_ast.specs.Response.{ResponseTree};

    ghost Value = { ResponseTree };

    ghost view = { λ r. record { decision = r.decision; determining = map (λ id. id.now) r.determining.items; erring = r.erring.items } };
}
