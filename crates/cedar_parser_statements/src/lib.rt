//! The grammar of statements, and the reading of statements from tokens.
//!
//! ```
//! use cedar_parser_statements::parse_statement;
//!
//! let source = "permit(principal, action, resource);";
//! let tokens = spelled_tokens(rt.alloc(), source)?;
//! let mut cursor = tokens.cursor(source.len());
//! let written = parse_statement(rt.alloc(), &mut cursor)?;
//! assert_eq!(rt; written.effect, Effect::Permit);
//! ```
//!
//! The grammar of statements is defined in `specs/Statements.antt`, that of expressions in cedar_parser_expressions, the tree as written
//! in cedar_parser_tree.
#![tactic(auto)]

mod scope;
mod statement;

pub use cedar_parser_tree::{
    AttributePath, ChainSign, Field, Link, Reference, RelationSign, Series, Written,
    WrittenActionScope, WrittenAnnotation, WrittenCondition, WrittenEntityScope, WrittenKind,
    WrittenScope, WrittenStatement,
};
pub use statement::parse_statement;
