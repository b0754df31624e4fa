//! Names, strings and uids of the Cedar policy language, read from tokens.
//!
//! ```
//! use cedar_parser_tokens::read_uid;
//!
//! let uid = read_uid(rt.alloc(), "Photos::Album::\"trip\"")?;
//! assert_eq!(rt; uid.ty.as_str(), "Photos::Album");
//! ```
//!
//! Tokens are defined in `specs/Marks.antt`, the grammar of names in `specs/Names.antt`, the text of a uid in
//! `specs/UidText.antt`, and the results of the functions that read from tokens in `specs/Reading.antt`.
#![tactic(auto)]

mod content;
mod cursor;
mod laws;
mod letters;
mod names;
mod parse_fault;
mod plain_uid;
mod spelled;
mod spelling;
mod uid;

pub use content::{Content, Word, WrittenUid};
pub use cursor::Cursor;
pub use laws::digits_have_one_worth;
pub use names::{
    one_identifier, parse_entity, parse_entity_of_type, parse_key, parse_path, parse_string,
};
pub use parse_fault::ParseFault;
pub use plain_uid::{PlainUid, plain_uid_texts};
pub use spelled::Spelled;
pub use spelling::{SpelledTokens, spelled_tokens};
pub use uid::{one_uid, read_uid, uid_or_none};
