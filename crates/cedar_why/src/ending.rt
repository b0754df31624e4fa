//! How the evaluation of a part ends.
ghost use Rattle.std.specs.Prelude.{◌≡◌};
ghost use Rattle.cedar_why.specs.Ending.{ending_at, ending_of_value};

use cedar_ast_expressions::EvaluationError;
use cedar_machine::Outcome;
use cedar_value::{Glance, Value};

/// How the evaluation of a part of a condition ends.
#[derive(Clone, Copy, Debug, PartialEq, Eq)]
pub enum Ending {
    /// It is true.
    Holds,
    /// It is false.
    Fails,
    /// It has this error in place of a value.
    Errs(EvaluationError),
    /// It has a value that is not a Boolean.
    Other,
}

/// The ending of an execution.
pub(crate) fn ending_at(outcome: &Outcome) -> Ending
    ensures { result ≡ ending_at outcome.now }
{
    match outcome {
        Outcome::Value(value) => ending_of_value(value),
        Outcome::Error(error) => Ending::Errs(*error),
        Outcome::StackFault => Ending::Other,
    }
}

// The ending of an evaluation that has this value.
fn ending_of_value(value: &Value) -> Ending
    ensures { result ≡ ending_of_value value.now }
{
    match value.glance() {
        Glance::Boolean(true) => Ending::Holds,
        Glance::Boolean(false) => Ending::Fails,
        _ => Ending::Other,
    }
}
