//! The stack of the machine, and the operators on its topmost operands.
//!
//! ```rust
//! use cedar_machine_stack::{Operand, Stack, of_two};
//!
//! // `2 + 3`: the two operands, and the answer in their place.
//! let mut stack = Stack::with_room(alloc, 2)?;
//! stack.push(Operand::long(2));
//! stack.push(Operand::long(3));
//! if let Some((left, right)) = stack.top_two() {
//!     let sum = of_two(&store, BinaryOperator::Add, left, right)?;
//!     stack.replace_two(sum);
//! }
//! ```
//!
//! A contract sees an operand as its value, and a stack as the values of its operands, the top first. What an operator gives is
//! defined in the `specs/` of cedar_ast_expressions. The code that calls for operators is in cedar_code, and the machine that
//! runs it in cedar_machine.
#![tactic(auto)]

mod operand;
mod operators;
mod owning;
mod stack;

pub use operand::Operand;
pub use operators::{of_two, truth_of_one, truth_of_two, unary, unary_but_get};
pub use owning::attribute_copy;
pub use stack::{INLINE_PLACES, Stack};
