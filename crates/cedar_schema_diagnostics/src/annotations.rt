//! Annotations of the definitions of a schema.
use crate::kinds::kind_of;
use crate::part::{Refusal, at, part_of};
use crate::step::Step;
use serde_json::Value;
use std::alloc::Global;

/// Why the value at the key `annotations` is not an object of strings (302), or none.
pub(crate) fn refused_annotations(alloc: Global, json: &Value) -> Option<Refusal> {
    let Some(members) = json.as_object() else {
        let says = ["annotations must be an object, not ", kind_of(json)];
        return part_of(alloc, &says, &["write {\"doc\":\"a text\"}"]);
    };
    for (key, value) in members.iter() {
        if !value.is_string() {
            let says = ["an annotation must be a string, not ", kind_of(value)];
            let found = part_of(alloc, &says, &["write the text in quotes"]);
            return at(alloc, Step::Key(key.as_str()), found);
        }
    }
    None
}
