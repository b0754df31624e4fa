//! The grammar of expressions, and the reading of expressions from tokens.
//!
//! ```
//! use cedar_parser_expressions::parse_expression;
//!
//! let source = "1 + 2";
//! let tokens = spelled_tokens(rt.alloc(), source)?;
//! let mut cursor = tokens.cursor(source.len());
//! let written = parse_expression(rt.alloc(), &mut cursor, 101)?;
//! assert!(rt; matches!(written.kind(), WrittenKind::Chain(_, _)));
//! ```
//!
//! The grammar is defined in `specs/Grammar.antt`, level by level, and the results of reading in `specs/Reading.antt`. The tree
//! of an expression as it is written is in cedar_parser_tree, and the reader of statements in cedar_parser_statements.
#![tactic(auto)]

mod attribute_path;
mod chain;
mod chain_level;
mod constructors;
mod expression_parser;
mod leaves;
mod lookup;

pub use expression_parser::parse_expression;
pub use lookup::slot_of;
