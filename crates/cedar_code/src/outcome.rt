//! How an execution ends.
use cedar_ast_expressions::EvaluationError;
use cedar_value::Value;

/// How an execution ends.
#[derive(Drop)]
pub enum Outcome {
    /// With a value.
    Value(Value),
    /// With an error of evaluation.
    Error(EvaluationError),
    /// With a fault of the operand stack, which compiled code never meets.
    StackFault,
}
