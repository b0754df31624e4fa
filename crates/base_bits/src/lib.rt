//! Rows of bits: sets of numbers, 64 numbers to a word of memory.
//!
//! ```rust
//! use base_bits::{any_common, has_bit, insert_bit, next_bit};
//!
//! let mut row = Vec::new(alloc);
//! insert_bit(&mut row, 70)?;
//! assert!(rt; has_bit(&row, 70) && !has_bit(&row, 71));
//! assert!(rt; next_bit(&row, 0) == Some(70));
//! assert!(rt; any_common(&row, &[0, 1 << 6]));
//! ```
//!
//! A row is a slice of words, as long as its highest number needs. A contract sees it as the list of its words, and says
//! of each number whether its bit is set. Only a row that grows takes memory.
#![tactic(auto)]

mod common;
mod next;
mod row;

pub use common::any_common;
pub use next::next_bit;
pub use row::{has_bit, insert_bit, join, set_bit};
