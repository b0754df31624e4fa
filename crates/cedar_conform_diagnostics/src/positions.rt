//! Entries that write one uid.
use crate::visiting::{Visitor, visit_entries};
use crate::written_entry::entry_uid;
use cedar_value::Uid;
use serde_json::Value as Json;
use std::alloc::{AllocError, Global};

// The positions of the entries that write a uid, as far as they have been looked at, and how many are wanted.
#[derive(Drop)]
struct Positions<'u> {
    uid: &'u Uid,
    most: usize,
    found: Vec<usize>,
}

// Whether an entry writes the uid.
fn writes(alloc: Global, entry: &Json, uid: &Uid) -> Result<bool, AllocError> {
    match entry_uid(alloc, entry)? {
        Some(written) => {
            let same = written == *uid;
            drop(written);
            Ok(same)
        }
        None => Ok(false),
    }
}

impl Visitor for Positions<'_> {
    fn visit(&mut self, alloc: Global, position: usize, entry: &Json) -> Result<bool, AllocError> {
        if self.found.len() >= self.most {
            return Ok(false);
        }
        if writes(alloc, entry, self.uid)? {
            self.found.push(position)?;
        }
        Ok(true)
    }
}

/// The positions of the entries that write the uid, from 0 and ascending, at most so many of them. It finds the entries for which
/// `read_entities` gives 401. Bytes that are not a JSON list are looked at as far as they are one.
///
/// # Errors
///
/// Fails only when out of memory.
pub fn entries_of_uid(
    alloc: Global,
    bytes: Vec<u8>,
    uid: &Uid,
    most: usize,
) -> Result<Vec<usize>, AllocError> {
    let mut positions = Positions {
        uid,
        most,
        found: Vec::new(alloc),
    };
    visit_entries(alloc, bytes, &mut positions)?;
    Ok(positions.found)
}
