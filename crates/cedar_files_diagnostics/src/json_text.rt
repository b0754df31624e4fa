//! JSON files that are not JSON.
ghost use Rattle.std.specs.Prelude.{◌≡◌, IfNone, IfOk, IfSome, IsSome, None};
ghost use Rattle.std.specs.Str.{IsUtf8};
ghost use Rattle.serde_json.specs.Read.{read as read_text};

use crate::diagnostic::Explanation;
use crate::diagnostic_draft::DiagnosticDraft;
use base_places::Place;
use cedar_conform_diagnostics::meant_in_json;
use serde_json::Value;
use std::alloc::{AllocError, Global};

/// Where the bytes of a file stop being JSON, as `serde_json` finds it, in bytes from 0; or none if they are JSON. Where more of the
/// text is wanted, it is its end.
pub fn json_offset(alloc: Global, bytes: &[u8]) -> Result<Option<usize>, AllocError>
    ensures none { IfOk result (λ o. IfNone o (IsUtf8 bytes.now × IsSome (read_text bytes.now))) }
    ensures fault { IfOk result (λ o. IfSome o (λ _. IsUtf8 bytes.now → read_text bytes.now ≡ None)) }
{
    match Value::from_slice(alloc, bytes) {
        Ok(value) => {
            drop(value);
            Ok(None)
        }
        Err(error) if error.is_memory() => Err(AllocError),
        Err(error) if error.is_eof() => Ok(Some(bytes.len())),
        Err(error) => Ok(Some(offset_of(bytes, error.line(), error.column()))),
    }
}

// The offset of a line and a column, both from 1, of which a column is a byte; at most the end.
fn offset_of(bytes: &[u8], line: usize, column: usize) -> usize {
    let mut lines = 1usize;
    for (at, byte) in bytes.iter().enumerate() {
        if lines >= line {
            let offset = at.saturating_add(column.saturating_sub(1));
            return offset.min(bytes.len());
        }
        if *byte == b'\n' {
            lines = lines.saturating_add(1);
        }
    }
    bytes.len()
}

/// Says what to do: one thing or another, if there are both.
pub(crate) fn advise_both(
    diagnostic: &mut DiagnosticDraft,
    hint: Option<&'static str>,
    also: Option<&'static str>,
) {
    match (hint, also) {
        (Some(hint), Some(also)) => diagnostic.advise_all(&[hint, "; ", also]),
        (Some(hint), None) => diagnostic.advise(hint),
        (None, Some(also)) => diagnostic.advise(also),
        (None, None) => {}
    }
}

/// What is explained of a file that is refused since it is not JSON, 213, 301 or 501; or none if it is JSON.
pub fn explain_json(
    alloc: Global,
    file: &str,
    number: u16,
    bytes: Vec<u8>,
) -> Result<Option<Explanation>, AllocError> {
    explain_json_with(alloc, file, number, bytes, None)
}

/// The same, with more that may be done about it.
pub(crate) fn explain_json_with(
    alloc: Global,
    file: &str,
    number: u16,
    bytes: Vec<u8>,
    also: Option<&'static str>,
) -> Result<Option<Explanation>, AllocError> {
    let Some(at) = json_offset(alloc, &bytes)? else {
        return Ok(None);
    };
    let mut diagnostic = DiagnosticDraft::error(alloc, number, "the file is not valid JSON");
    diagnostic.place = Some(Place::of(&bytes, at));
    let text = match String::from_utf8(bytes) {
        Ok(text) => text,
        Err(fault) => {
            drop(fault.into_bytes());
            diagnostic.advise("save the file as UTF-8");
            return diagnostic.alone(file).map(Some);
        }
    };
    let says = if at < text.len() {
        "invalid JSON here"
    } else {
        "invalid JSON: unexpected end of input"
    };
    diagnostic.mark(at, at, says);
    let hint = meant_in_json(alloc, text.as_str(), at)?;
    advise_both(&mut diagnostic, hint, also);
    let mut explanation = diagnostic.alone(file)?;
    explanation.text = text;
    Ok(Some(explanation))
}
