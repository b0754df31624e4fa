//! Faults of JSON data: of entities, links and request lines.
use crate::diagnostic::Diagnostic;
use crate::diagnostic_draft::DiagnosticDraft;
use crate::words::words_of;
use cedar_conform_diagnostics::{DataFault, RefusedEntry, refused_request};
use cedar_schema::Schema;
use std::alloc::{AllocError, Global};

/// The number of a line that is not JSON.
const NOT_JSON: u16 = 501;

/// The number of a line that is JSON of the wrong form.
const WRONG_FORM: u16 = 502;

/// What to do about a line that brings entities.
const BRINGS_ENTITIES: &str =
    "`--entities-in-lines` reads lines that bring entities; the libraries have calls for them";

/// Why data is refused with a number, in words.
pub(crate) fn reason_of(number: u16) -> Option<&'static str> {
    let reason = match number {
        510 => "an action is not declared",
        511 => "an action does not apply to a principal and a resource of these types",
        _ => words_of(number)?.0,
    };
    Some(reason)
}

/// Adds the path and the words of a fault, and what to do about it, if one thing is likely.
pub(crate) fn add_fault(diagnostic: &mut DiagnosticDraft, fault: &DataFault) {
    let path = fault.path.as_str();
    let says = fault.says.as_str();
    if path.is_empty() {
        diagnostic.note(&[says]);
    } else {
        diagnostic.note(&[path, ": ", says]);
    }
    if let Some(hint) = &fault.hint {
        diagnostic.advise(hint.as_str());
    }
}

/// Adds which entry is refused, with what is said before and after its position, and why.
pub(crate) fn add_entry(
    diagnostic: &mut DiagnosticDraft,
    before: &str,
    refused: &RefusedEntry,
    after: &str,
) {
    diagnostic.part.add(before);
    diagnostic.part.add_display(refused.position);
    diagnostic.part.add(after);
    if let Some(uid) = &refused.uid {
        diagnostic.part.add(", ");
        diagnostic.part.add(uid.as_str());
    }
    add_fault(diagnostic, &refused.fault);
}

/// What is explained of a request line that is refused for a schema; or none if it is not refused. `part` says which line it is.
pub fn explain_request(
    alloc: Global,
    schema: &Schema,
    line: &[u8],
    part: &str,
) -> Result<Option<Diagnostic>, AllocError> {
    let Some(fault) = refused_request(alloc, schema, line)? else {
        return Ok(None);
    };
    let reason = match fault.number {
        NOT_JSON => "the line is not valid JSON",
        WRONG_FORM => "the request has the wrong form",
        number => reason_of(number).unwrap_or("the line is refused"),
    };
    let mut diagnostic = DiagnosticDraft::error(alloc, fault.number, reason);
    diagnostic.part.add(part);
    add_fault(&mut diagnostic, &fault);
    if fault.number == WRONG_FORM && fault.path.as_str() == "entities" {
        diagnostic.advise(BRINGS_ENTITIES);
    }
    diagnostic.done().map(Some)
}
