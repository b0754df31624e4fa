//! Policies in JSON that are refused.
use crate::diagnostic::Explanation;
use crate::json_text::explain_json;
use std::alloc::{AllocError, Global};

/// The number of policies that are not JSON.
const NOT_JSON: u16 = 213;

/// What is explained of policies in JSON that are refused with a number; or none if no more than its general words is known.
pub(crate) fn explain_json_policies(
    alloc: Global,
    file: &str,
    number: u16,
    bytes: Vec<u8>,
) -> Result<Option<Explanation>, AllocError> {
    if number == NOT_JSON {
        return explain_json(alloc, file, number, bytes);
    }
    drop(bytes);
    Ok(None)
}
