//! What a statement must keep beside the grammar: side conditions, and the limits of its condition.
//!
//! ```
//! use cedar_ext::Language;
//! use cedar_parser_limits::judge;
//!
//! let source = "permit(principal, action, resource) when { principal.isEmpty(1) };";
//! let tokens = spelled_tokens(rt.alloc(), source)?;
//! let mut cursor = tokens.cursor(source.len());
//! let written = parse_statement(rt.alloc(), &mut cursor)?;
//! assert!(rt; matches!(judge(rt.alloc(), Language::Profile, &written), Err(ParseFault::Arity(_))));
//! ```
//!
//! The expression that a text writes is defined in `specs/Meaning.antt`, the policy or template that a statement writes in
//! `specs/StatementMeaning.antt`, side conditions and limits in `specs/Limits.antt` and `specs/StatementLimits.antt`.
//! Statements are read in cedar_parser_statements, and made into policies in cedar_parser.
#![tactic(auto)]

mod attribute_path_size;
mod breach;
mod condition_size;
mod expression_judgement;
mod expression_size;
mod functions;
mod judgement;
mod side_condition;
mod size;
mod sought;
mod widest;

pub use functions::{Method, method_of};
pub use judgement::judge;
pub use widest::cedar4_is_widest;
