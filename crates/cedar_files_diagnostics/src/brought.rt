//! Request lines that bring entities, and are refused.
use crate::data::{add_entry, explain_request};
use crate::diagnostic::Diagnostic;
use crate::diagnostic_draft::DiagnosticDraft;
use crate::entities::{note_cycle, note_duplicate};
use crate::words::words_of;
use base_json::read_json;
use cedar_auth::Ready;
use cedar_conform::{RequestReader, read_request_with_entities};
use cedar_conform_diagnostics::refused_entry;
use cedar_conform_values::ConformFault;
use cedar_schema::Schema;
use serde_json::Value;
use std::alloc::{AllocError, Global};

/// The key of the entities.
const ENTITIES: &str = "entities";

/// What is said where the value at the key is not a list of entries.
const LIST_SAYS: &str = "entities: expected a list of entries";

// Why entities of a line are refused with a number, and what to do about it.
fn words_of_entities(number: u16) -> Option<(&'static str, &'static str)> {
    let words = match number {
        401 => (
            "the line brings two entities with the same uid",
            "write each uid once in `entities`",
        ),
        402 => (
            "the entities of the line would make an entity its own ancestor",
            "remove one parent of the circle",
        ),
        502 => (
            "a part of the entities has the wrong form",
            "docs/DATA.md lists the keys of each part",
        ),
        508 => (
            "the entities of the line would change an action",
            "leave actions out of the entities: the schema has them",
        ),
        _ => return words_of(number),
    };
    Some(words)
}

/// A line in two parts, each of them JSON: the request without the key `entities`, and what is at this key.
#[derive(Drop)]
struct Parted {
    request: String,
    entities: String,
}

// The two parts of a line. None for a line that brings no entities, or is not a JSON object.
fn part_line(alloc: Global, line: &[u8]) -> Result<Option<Parted>, AllocError> {
    let Some(mut json) = read_json(alloc, line)? else {
        return Ok(None);
    };
    let brought = match json.as_object_mut() {
        Some(members) => members.remove(ENTITIES),
        None => None,
    };
    let request = json.to_string(alloc);
    drop(json);
    let Some(brought) = brought else {
        return Ok(None);
    };
    let entities = brought.to_string(alloc);
    drop(brought);
    Ok(Some(Parted {
        request: request?,
        entities: entities?,
    }))
}

// Why a line is refused, if it is.
fn fault_of(alloc: Global, ready: &Ready, line: &[u8]) -> Result<Option<ConformFault>, AllocError> {
    let mut reader = RequestReader::new(alloc)?;
    let schema = ready.validated().schema();
    match read_request_with_entities(alloc, schema, ready.store(), line, &mut reader) {
        Ok(read) => {
            drop(read);
            Ok(None)
        }
        Err(ConformFault::OutOfMemory) => Err(AllocError),
        Err(fault) => Ok(Some(fault)),
    }
}

// Adds what entities are refused for as a whole, and what to do about it.
fn add_whole(alloc: Global, diagnostic: &mut DiagnosticDraft, fault: &ConformFault, hint: &str) {
    match fault {
        ConformFault::DuplicateEntity(uid) => note_duplicate(alloc, diagnostic, uid),
        ConformFault::Cycle(uid) => note_cycle(alloc, diagnostic, uid),
        ConformFault::Shape => diagnostic.note(&[LIST_SAYS]),
        _ => {}
    }
    diagnostic.advise(hint);
}

// What is explained of entities that are refused.
fn explain_entities(
    alloc: Global,
    schema: &Schema,
    entities: &str,
    fault: &ConformFault,
    part: &str,
) -> Result<Diagnostic, AllocError> {
    let number = fault.number();
    let (reason, hint) = words_of_entities(number).unwrap_or(("the entities are refused", ""));
    let bytes = Vec::from_slice(alloc, entities.as_bytes())?;
    let refused = refused_entry(alloc, schema, bytes)?;
    let mut diagnostic = DiagnosticDraft::error(alloc, number, reason);
    diagnostic.part.add(part);
    match &refused {
        Some(refused) if refused.fault.number == number => {
            add_entry(
                &mut diagnostic,
                ", entry ",
                refused,
                " of entities (from 0)",
            );
        }
        _ => add_whole(alloc, &mut diagnostic, fault, hint),
    }
    diagnostic.done()
}

// What is explained of a line that is refused for a fault.
fn explain_line(
    alloc: Global,
    schema: &Schema,
    line: &[u8],
    fault: &ConformFault,
    part: &str,
) -> Result<Option<Diagnostic>, AllocError> {
    let Some(parted) = part_line(alloc, line)? else {
        return explain_request(alloc, schema, line, part);
    };
    let request = parted.request.as_bytes();
    if let Some(of_request) = explain_request(alloc, schema, request, part)? {
        return Ok(Some(of_request));
    }
    let entities = parted.entities.as_str();
    explain_entities(alloc, schema, entities, fault, part).map(Some)
}

/// What is explained of a request line that may bring entities and is refused for what is ready; or none if it is not refused. `part`
/// says which line it is.
pub fn explain_request_with_entities(
    alloc: Global,
    ready: &Ready,
    line: &[u8],
    part: &str,
) -> Result<Option<Diagnostic>, AllocError> {
    let Some(fault) = fault_of(alloc, ready, line)? else {
        return Ok(None);
    };
    let explained = explain_line(alloc, ready.validated().schema(), line, &fault, part);
    drop(fault);
    explained
}
