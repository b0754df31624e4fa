//! Expressions of the Cedar policy language, and the definition of their evaluation.
//!
//! ```rust
//! use cedar_ast_expressions::{BinaryOperator, Expr, Variable};
//!
//! // `principal in resource`
//! let (low, high) = (Expr::variable(Variable::Principal), Expr::variable(Variable::Resource));
//! let within = Expr::binary(alloc, BinaryOperator::In, low, high)?;
//! assert!(rt; within != Expr::literal(Value::boolean(true)));
//! ```
//!
//! The definitions of expressions and of their evaluation are in `specs/`.
#![tactic(auto)]

mod boxed;
mod entries;
mod equality;
mod error;
mod expression;
mod keys;
mod operator;
mod record_fault;
mod replacement;
mod variable;

pub use cedar_ext::{BinaryMethod, ExtensionType, UnaryMethod};
pub use entries::Entries;
pub use error::EvaluationError;
pub use expression::{Expr, ExprKind};
pub use keys::{Keys, first_repeated};
pub use operator::{BinaryOperator, UnaryOperator};
pub use record_fault::RecordFault;
pub use variable::Variable;
