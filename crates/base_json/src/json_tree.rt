//! The JSON tree of bytes that are read once.

ghost use Rattle.std.specs.Prelude.{◌≡◌, IfOk, option_map};
ghost use Rattle.serde_json.specs.View.{view};
ghost use Rattle.base_json.specs.JsonTree.{json_of};

use serde_json::Value;
use std::alloc::{AllocError, Global};

/// The JSON tree of the bytes. None exactly where they are not UTF-8, not JSON, or nest deeper than 127 (RFC 8259).
///
/// # Errors
///
/// Fails only when out of memory.
pub fn read_json(alloc: Global, bytes: &[u8]) -> Result<Option<Value>, AllocError>
    ensures { IfOk result (λ found. option_map view found ≡ json_of bytes.now) }
{
    match Value::from_slice(alloc, bytes) {
        Ok(json) => Ok(Some(json)),
        Err(error) => {
            if error.is_memory() {
                Err(AllocError)
            } else {
                Ok(None)
            }
        }
    }
}
