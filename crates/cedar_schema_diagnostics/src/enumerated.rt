//! Enumerated entity types.
use crate::kinds::kind_of;
use crate::part::{Refusal, at, part_of};
use crate::step::Step;
use crate::text::shown;
use serde_json::Value;
use std::alloc::{AllocError, Global};
use std::collections::BTreeSet;

/// Why the ids at the key `enum` of an entity type are refused, or the keys beside it (302), or none.
pub(crate) fn refused_enumeration(alloc: Global, body: &Value) -> Option<Refusal> {
    let Some(list) = body.get("enum") else {
        return None;
    };
    let found = refused_ids(alloc, list);
    if found.is_some() {
        return at(alloc, Step::Key("enum"), found);
    }
    refused_company(alloc, body)
}

fn refused_ids(alloc: Global, list: &Value) -> Option<Refusal> {
    let Some(items) = list.as_array() else {
        let says = ["expected a list of ids, found ", kind_of(list)];
        return part_of(alloc, &says, &["write [\"red\",\"green\"]"]);
    };
    if items.is_empty() {
        let says = ["an enumerated entity type must list at least one id"];
        return part_of(alloc, &says, &["write [\"red\",\"green\"]"]);
    }
    for (index, item) in items.iter().enumerate() {
        if !item.is_string() {
            let says = ["an id must be a string, not ", kind_of(item)];
            let found = part_of(alloc, &says, &["write the id in quotes"]);
            return at(alloc, Step::Item(index), found);
        }
    }
    match first_repeated(alloc, items) {
        Ok(Some((index, id))) => {
            let says = ["the id `", shown(id), "` is listed twice"];
            let found = part_of(alloc, &says, &["remove one of the two"]);
            at(alloc, Step::Item(index), found)
        }
        _ => None,
    }
}

// The first string that is also an earlier item, with its place.
fn first_repeated(alloc: Global, items: &[Value]) -> Result<Option<(usize, &str)>, AllocError> {
    let mut seen = BTreeSet::new(alloc);
    for (index, item) in items.iter().enumerate() {
        if let Some(id) = item.as_str() {
            if !seen.insert(id)? {
                return Ok(Some((index, id)));
            }
        }
    }
    Ok(None)
}

// A key of an entity type that is not enumerated.
fn refused_company(alloc: Global, body: &Value) -> Option<Refusal> {
    for key in ["memberOfTypes", "shape"] {
        if body.get(key).is_some() {
            let says = ["an enumerated entity type has neither parents nor attributes"];
            let found = part_of(alloc, &says, &["remove `", shown(key), "`, or `enum`"]);
            return at(alloc, Step::Key(key), found);
        }
    }
    None
}
