//! Flat code of expressions: the compiler, the steps of an execution, and the law that it ends as the expression evaluates.
//!
//! ```rust
//! use cedar_code::compile;
//!
//! // `true && false`: `Push true`, `And 4`, `Push false`, `Test`
//! let code = compile(alloc, &expression)?;
//! assert_eq!(rt; (code.instructions().len(), code.height()), (4, 1));
//! ```
//!
//! The code of an expression and the steps of an execution are in `specs/`.
#![tactic(auto)]

mod code;
mod compiler;
mod fault;
mod instruction;
mod law;
mod literal;
mod literal_set;
mod outcome;
mod writing;

pub use code::Code;
pub use compiler::{MOST_INSTRUCTIONS, compile};
pub use fault::CodeFault;
pub use instruction::Instruction;
pub use law::{
    execution_is_evaluation, jumps_go_forward, size_is_the_length, true_sides_are_passed,
};
pub use literal::Literal;
pub use literal_set::LiteralSet;
pub use outcome::Outcome;
