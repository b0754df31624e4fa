//! Which files of Cedar 4 are read in another format than those of Cedar 3: policies in JSON, and schemas in the Cedar schema syntax.
use base_json::read_json;
use cedar_ext::Language;
use std::alloc::{AllocError, Global};

// Whether the first byte that is not white space of JSON is `{` (RFC 8259, section 2).
fn begins_with_brace(bytes: &[u8]) -> bool {
    for byte in bytes {
        if !matches!(*byte, b' ' | b'\t' | b'\n' | b'\r') {
            return *byte == b'{';
        }
    }
    false
}

/// Whether policies of these bytes are read as JSON in a language.
pub fn is_json_policies(language: Language, bytes: &[u8]) -> bool {
    language == Language::Cedar4 && begins_with_brace(bytes)
}

/// The text of a schema of these bytes, if it is read in the Cedar schema syntax in a language.
///
/// # Errors
///
/// Fails only when out of memory.
pub(crate) fn schema_text(
    alloc: Global,
    language: Language,
    bytes: &[u8],
) -> Result<Option<&str>, AllocError> {
    if language == Language::Profile || begins_with_brace(bytes) {
        return Ok(None);
    }
    let Ok(text) = str::from_utf8(bytes) else {
        return Ok(None);
    };
    match read_json(alloc, bytes)? {
        Some(json) => {
            drop(json);
            Ok(None)
        }
        None => Ok(Some(text)),
    }
}
