//! The tree of statements and expressions as they are written.
//!
//! ```
//! use cedar_parser_tree::{Written, WrittenKind};
//!
//! let flag = Box::new(rt.alloc(), Written::new(WrittenKind::Truth(true)))?;
//! let denied = Written::new(WrittenKind::Not(flag));
//! assert!(rt; matches!(denied.kind(), WrittenKind::Not(_)));
//! ```
//!
//! The tree as written is defined in `specs/Written.antt` and `specs/StatementTree.antt`, the grammar in
//! cedar_parser_expressions and cedar_parser_statements, and the conditions beyond the grammar in cedar_parser_limits.
#![tactic(auto)]

mod attribute_path;
mod series;
mod sign;
mod written;
mod written_statement;

pub use attribute_path::AttributePath;
pub use series::Series;
pub use sign::{ChainSign, RelationSign};
pub use written::{Field, Link, Span, Written, WrittenKind};
pub use written_statement::{
    Reference, WrittenActionScope, WrittenAnnotation, WrittenCondition, WrittenEntityScope,
    WrittenScope, WrittenStatement,
};
