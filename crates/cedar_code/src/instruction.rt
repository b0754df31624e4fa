//! Instructions.
use crate::literal::Literal;
use cedar_ast_expressions::{BinaryOperator, Keys, UnaryOperator, Variable};

/// One instruction of flat code. Places count from 0, and a jump goes forward.
#[derive(Drop)]
pub enum Instruction {
    /// Pushes a value.
    Push(Literal),
    /// Pushes what the request has for a variable.
    Var(Variable),
    /// Pops an operand and pushes the operator's answer.
    Unary(UnaryOperator),
    /// Pops two operands, the right one on top, and pushes the operator's answer.
    Binary(BinaryOperator),
    /// The jump of `&&`: a false top stays and the run goes to the place, a true one is popped.
    And(usize),
    /// The jump of `||`: a true top stays and the run goes to the place, a false one is popped.
    Or(usize),
    /// The top must be a Boolean, and stays.
    Test,
    /// The branch of `if`: pops a Boolean, and a false one sends the run to the place.
    Branch(usize),
    /// The run goes to the place.
    Jump(usize),
    /// Pops so many members and pushes their set.
    Set(usize),
    /// Pops a value for each key, the last one on top, and pushes the record.
    Record(Keys),
}
