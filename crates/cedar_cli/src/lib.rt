//! What the program does: its subcommands, the answers that it writes, and its command line.
//!
//! ```
//! use cedar_cli::{Subcommand, authorize, words};
//!
//! let words = words(alloc, &texts)?;
//! assert_eq!(rt; words.subcommand, Subcommand::Authorize);
//! let end = authorize(alloc, &files, &mut source, &mut sink, words.settings, &mut observer);
//! assert_eq!(rt; end.status(), 0);
//! ```
//!
//! [`authorize`] says what is written and how the program ends, given what the files hold: read `specs/Authorization.antt` first,
//! here and in `cedar_files`, which has `validate` and reads the files. [`authorize_with_entities`] takes request lines that bring
//! entities, [`ask`] answers one line and gives its decision, [`check_parse`] counts policies, and [`words`] reads the command line.
#![tactic(auto)]

mod asking;
mod authorizing;
mod authorizing_with_entities;
mod command;
mod command_line;
mod help;
mod options;
mod parsing;

pub use asking::ask;
pub use authorizing::{Observer, authorize};
pub use authorizing_with_entities::authorize_with_entities;
pub use command_line::{WordsFault, words};
pub use options::{AskedRequest, Subcommand, Words};
pub use parsing::check_parse;
