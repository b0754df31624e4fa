//! The lexer: it cuts a policy text into tokens.
//!
//! ```
//! use cedar_text::tokens;
//!
//! let found = tokens(rt.alloc(), "resource.pages >= 18")?;
//! assert_eq!(rt; found.len(), 5);
//! ```
//!
//! The tokens of a text are defined in `specs/Tokens.antt`, and the letters of a string in `specs/Letters.antt`.
#![tactic(auto)]

mod blank;
mod bytes;
mod escape;
mod letter;
mod lexer;
mod normal;
mod number;
mod piece;
mod sign;
mod spelling;
mod text_fault;
mod token;
mod token_kind;
mod word;

pub use letter::Letter;
pub use lexer::{one_list, tokens, tokens_or_none};
pub use normal::normal_tokens;
pub use spelling::{
    escaped_star, every_string_is_spelled, letters, letters_or_none, one_spelling, plain_text,
};
pub use text_fault::TextFault;
pub use token::Token;
pub use token_kind::TokenKind;
