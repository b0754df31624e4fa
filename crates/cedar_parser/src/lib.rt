//! The parser: it reads the policies and templates of a policy text.
//!
//! ```
//! use cedar_parser::parse;
//!
//! let set = parse(rt.alloc(), "permit(principal, action, resource) when { context.mfa };")?;
//! assert_eq!(rt; set.count(), 1);
//! ```
//!
//! The grammar is defined in cedar_parser_statements. The expressions that texts write, the policies and templates that
//! statements write, side conditions and limits are defined in cedar_parser_limits. What makes a text a policy text is defined
//! in `specs/PolicyText.antt`.
#![tactic(auto)]

mod boxes;
mod expression;
mod has;
mod parser;
mod policy;

pub use cedar_parser_tokens::{ParseFault, read_uid};
pub use parser::{
    earlier_texts, one_policy_set, parse, parse_in, texts_begin_with_no_brace,
    texts_of_each_language,
};
pub use policy::{has_slot, id_of, to_statement};
