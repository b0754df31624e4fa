//! Places in texts, what is safe to show on a terminal, and texts, lists and JSON that are made piece by piece.
//!
//! ```rust
//! use base_places::{Draft, Place, line_before, push_shown};
//!
//! let text = "permit(\n  principla,";
//! let place = Place::of(text.as_bytes(), 10);
//! assert_eq!(rt; (place.line, place.column), (1, 2));
//! let mut shown = String::new(alloc);
//! push_shown(&mut shown, line_before(text, 10))?;
//! assert_eq!(rt; shown.as_str(), "  ");
//!
//! let mut says = Draft::new(alloc);
//! says.add("line ");
//! says.add_display(place.line + 1);
//! says.add_all(&[", after `", shown.as_str(), "`"]);
//! let says = says.done()?;
//! assert_eq!(rt; says.as_str(), "line 2, after `  `");
//! ```
#![tactic(auto)]

mod draft;
mod draft_list;
mod json_draft;
mod line;
mod place;
mod shown;

pub use draft::Draft;
pub use draft_list::DraftList;
pub use json_draft::JsonDraft;
pub use line::{line_before, line_from};
pub use place::Place;
pub use shown::push_shown;
