//! Reads the files of an engine: schema, policies, links and entities; and the lines that refuse or report on them.
//!
//! ```
//! use cedar_files::{FileRefusal, Role, read_all, refusal_line};
//!
//! assert!(rt; read_all(alloc, &files, settings).is_ok());
//! let line = refusal_line(alloc, Role::Schema, FileRefusal::whole(302))?;
//! assert_eq!(rt; line.as_slice(), b"{\"file\":\"schema\",\"refused\":302}\n".as_slice());
//! ```
//!
//! [`read_all`] reads all four files, and [`report_part`] gives a part of the report on the policies. Neither writes anything: read
//! `specs/Authorization.antt`, `specs/ReportPart.antt` and `specs/Unprepared.antt`. [`prepare`] and [`validate`] write to a sink what
//! the program writes, and say how it ends. [`Files`] reads the files: [`MemoryFiles`] from memory, and [`NamedFiles`] by their names.
#![tactic(auto)]

mod brace;
mod ending;
mod file_names;
mod files;
mod json_lines;
mod law;
mod linking;
mod preparing;
mod reading;
mod reading_all;
mod reading_linked;
mod reading_policies;
mod reading_schema;
mod refusal;
mod report;
mod report_lines;
mod report_parts;
mod report_place;
mod reporting;
mod unprepared;
mod validating;

pub use ending::End;
pub use file_names::FileNames;
pub use files::{FileFault, Files, MemoryFiles, NamedFiles, Role};
pub use law::{files_of_the_profile, parts_are_the_report};
pub use linking::enter_links;
pub use preparing::prepare;
pub use reading::{Unread, read_changed, read_over, read_policies, read_ready, read_schema};
pub use reading_all::read_all;
pub use reading_linked::read_linked;
pub use refusal::{FileRefusal, refusal_line, refuse};
pub use report::report_text;
pub use report_parts::{ReportPart, report_part};
pub use report_place::ReportPlace;
pub use unprepared::Unprepared;
pub use validating::{validate, validate_keeping, write_report};
