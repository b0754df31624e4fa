//! The response to a job's request.
use cedar_ast::Decision;
use cedar_ast_expressions::EvaluationError;
use cedar_value::Text;
use std::marker::Model;

/// A policy that erred, and its error. Contracts see it as an `ErringTree`.
#[derive(Drop)]
pub struct Erring {
    /// The policy's id.
    pub policy: Text,
    /// The error of its condition.
    pub error: EvaluationError,
}

impl Model for Erring {
    ghost use Rattle.cedar_ast.specs.Response.{ErringTree};

    ghost Value = { ErringTree };

    ghost view = { λ e. record { id = e.policy; error = e.error } };
}

/// The answer to a request: the decision, the ids of the policies that determine it, and the policies that erred, both
/// lists in the order of the policies. It holds the ids, since the version that answered may be gone. Contracts see it as
/// a `ResponseTree` (Cedar language reference, authorization).
#[derive(Drop)]
pub struct Response {
    /// The decision.
    pub decision: Decision,
    /// The satisfied permits where the request is allowed, else the satisfied forbids.
    pub determining: Vec<Text>,
    /// The policies whose conditions erred; they take no other part.
    pub erring: Vec<Erring>,
}

impl Model for Response {
    ghost use Rattle.cedar_ast.specs.Response.{ResponseTree};

    ghost Value = { ResponseTree };

    ghost view = { λ r. record { decision = r.decision; determining = r.determining.items; erring = r.erring.items } };
}
