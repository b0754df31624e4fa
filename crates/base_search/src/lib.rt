//! What numbers lead to: the transitive closure of lists of numbers, as rows of bits.
//!
//! ```rust
//! use base_search::{Graph, Lists, closed_rows};
//!
//! // The number 0 links to 1, and 1 to 2, which has no list. The third list links to 0.
//! let mut lists = Lists::new(alloc);
//! lists.push(&[1])?;
//! lists.push(&[2])?;
//! lists.push(&[0])?;
//! let places = vec![in alloc; Some(0), Some(1), None]?;
//! let rows = closed_rows(alloc, &Graph { lists, places })?;
//! assert!(rt; rows[2].has(0) && rows[2].has(2) && !rows[0].has(0));
//! ```
//!
//! The caller gives a number to each thing that links lead to, and a list of such numbers to each thing that has links. A thing
//! to which nothing links has a list, but no number: the rows have no bit for it.
#![tactic(auto)]

mod found;
mod graph;
mod lists;
mod order;
mod row;
mod rows;
mod search;
mod search_fault;

pub use graph::Graph;
pub use lists::Lists;
pub use row::Row;
pub use rows::{acyclic_rows, closed_rows};
pub use search_fault::SearchFault;
