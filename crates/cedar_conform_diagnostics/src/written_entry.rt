//! What an entry of a list of entities writes.
use crate::shown::uid_text;
use cedar_conform_values::uid_of_object;
use cedar_value::Uid;
use serde_json::Value as Json;
use std::alloc::{AllocError, Global};

/// The uid and the direct parents that an entry writes.
#[derive(Drop)]
pub(crate) struct WrittenEntry {
    /// The uid.
    pub(crate) uid: Uid,
    /// The parents, in the order of the entry.
    pub(crate) parents: Vec<Uid>,
}

/// The uid that an entry writes, or none.
pub(crate) fn entry_uid(alloc: Global, entry: &Json) -> Result<Option<Uid>, AllocError> {
    match entry.get("uid") {
        Some(found) => uid_of_object(alloc, found),
        None => Ok(None),
    }
}

/// The uid that an entry writes, as a policy writes it, or none.
pub(crate) fn entry_name(alloc: Global, entry: &Json) -> Result<Option<String>, AllocError> {
    match entry_uid(alloc, entry)? {
        Some(uid) => {
            let text = uid_text(alloc, &uid);
            drop(uid);
            Ok(Some(text.done()?))
        }
        None => Ok(None),
    }
}

// The uids of a list, or none where an item is not a uid.
fn uids_of(alloc: Global, items: &[Json]) -> Result<Option<Vec<Uid>>, AllocError> {
    let mut uids = Vec::new(alloc);
    for item in items {
        match uid_of_object(alloc, item)? {
            Some(uid) => uids.push(uid)?,
            None => return Ok(None),
        }
    }
    Ok(Some(uids))
}

fn parents_of(alloc: Global, entry: &Json) -> Result<Option<Vec<Uid>>, AllocError> {
    match entry.get("parents") {
        Some(found) => match found.as_array() {
            Some(items) => uids_of(alloc, items),
            None => Ok(None),
        },
        None => Ok(Some(Vec::new(alloc))),
    }
}

/// What an entry writes, or none where it lacks a uid or its parents are not a list of uids.
pub(crate) fn written_entry(
    alloc: Global,
    entry: &Json,
) -> Result<Option<WrittenEntry>, AllocError> {
    let Some(uid) = entry_uid(alloc, entry)? else {
        return Ok(None);
    };
    match parents_of(alloc, entry)? {
        Some(parents) => Ok(Some(WrittenEntry { uid, parents })),
        None => Ok(None),
    }
}
