//! Hints that have a part of the condition as it is written.
use base_places::Draft;
use std::alloc::{AllocError, Global};

/// A hint with a part of the condition as it is written, between backquotes. Only the text says how that is: an expression holds
/// `a > b` as `!(a <= b)`, and `unless { a }` as `!a`.
#[derive(Drop)]
pub struct Quote {
    /// From the condition to the part, the number of the child at each step. If an `unless` is there, what it has in its braces is meant.
    pub path: Vec<usize>,
    /// What is before the part.
    pub before: String,
    /// What is before the part instead, where it is written with `!=`, `>` or `>=`.
    pub before_turned: String,
    /// What is said after the part, where it is in an `unless` or after a `!`.
    pub aside: String,
    /// Whether it is known to be in an `unless` or after a `!`.
    pub denied: bool,
}

// These texts, one after another.
fn joined(alloc: Global, texts: &[&str]) -> Result<String, AllocError> {
    let mut draft = Draft::new(alloc);
    draft.add_all(texts);
    draft.done()
}

impl Quote {
    /// A hint to write a guard before the part at a path, and to join them by `&&`.
    pub(crate) fn guarded(
        alloc: Global,
        path: &[usize],
        guard: &str,
        key: &str,
        denied: bool,
    ) -> Result<Quote, AllocError> {
        Ok(Quote {
            path: Vec::from_slice(alloc, path)?,
            before: joined(alloc, &["write `", guard, " && "])?,
            before_turned: joined(alloc, &["write `", guard, " && "])?,
            aside: joined(alloc, &[", which is false without `", key, "`"])?,
            denied,
        })
    }

    /// A hint to test whether a set is empty in place of the comparison at a path.
    pub(crate) fn emptiness(alloc: Global, path: &[usize], set: &str) -> Result<Quote, AllocError> {
        Ok(Quote {
            path: Vec::from_slice(alloc, path)?,
            before: joined(alloc, &["write `", set, ".isEmpty()` for `"])?,
            before_turned: joined(alloc, &["write `!", set, ".isEmpty()` for `"])?,
            aside: String::new(alloc),
            denied: false,
        })
    }
}
