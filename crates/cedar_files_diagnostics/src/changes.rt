//! Changes of entities that are refused: the entry, its uid and the path of the attribute.
use crate::again::schema_again;
use crate::data::add_entry;
use crate::diagnostic::Explanation;
use crate::diagnostic_draft::DiagnosticDraft;
use crate::format::Format;
use crate::json_text::explain_json;
use crate::words::words_of;
use base_json::read_json;
use cedar_conform_diagnostics::{RefusedEntry, refused_entry};
use cedar_ext::Language;
use cedar_files::MemoryFiles;
use serde_json::Value;
use std::alloc::{AllocError, Global};

/// What changes are called, which are in no file.
const NAME: &str = "changes.json";

/// The number of changes that are not JSON.
const NOT_JSON: u16 = 501;

/// The number of changes of another shape.
const SHAPE: u16 = 502;

/// What is said where changes have another shape, and no entry has.
const KEYS_SAY: &str =
    "changes must be an object with the keys upsert, a list of entries, and remove, a list of uid objects";

// Why changes are refused with a number, and what to do about it.
fn words_of_changes(number: u16) -> Option<(&'static str, &'static str)> {
    let words = match number {
        401 => (
            "the changes have the same uid twice",
            "write each uid once in `upsert`, and once in `remove`",
        ),
        402 => (
            "the changes would make an entity its own ancestor",
            "remove one parent of the circle",
        ),
        502 => (
            "a part of the changes has the wrong form",
            "docs/DATA.md lists the keys of each part",
        ),
        508 => (
            "the changes would change an action",
            "leave actions out of the changes: the schema has them",
        ),
        _ => return words_of(number),
    };
    Some(words)
}

// The entries that are upserted, as the bytes of a list; none if there is no such list.
fn upserts_of(alloc: Global, changes: &[u8]) -> Result<Option<Vec<u8>>, AllocError> {
    let Some(json) = read_json(alloc, changes)? else {
        return Ok(None);
    };
    let found = match json.get("upsert") {
        Some(list) if list.is_array() => Some(list.to_string(alloc)),
        _ => None,
    };
    drop(json);
    match found {
        Some(text) => Ok(Some(text?.into_bytes())),
        None => Ok(None),
    }
}

// The first of these entries that is refused for the schema of some bytes in a language; none if no entry is, and if the bytes write
// no schema.
fn refused_upsert(
    alloc: Global,
    language: Language,
    schema: &[u8],
    entries: Vec<u8>,
) -> Result<Option<RefusedEntry>, AllocError> {
    let files = MemoryFiles {
        schema: Some(schema),
        policies: None,
        links: None,
        entities: None,
    };
    let Some(schema) = schema_again(alloc, &files, language)? else {
        return Ok(None);
    };
    let refused = refused_entry(alloc, &schema, entries);
    drop(schema);
    refused
}

// The first entry that is upserted and refused; none if no entry is.
fn refused_part(
    alloc: Global,
    language: Language,
    schema: &[u8],
    changes: &[u8],
) -> Result<Option<RefusedEntry>, AllocError> {
    match upserts_of(alloc, changes)? {
        Some(entries) => refused_upsert(alloc, language, schema, entries),
        None => Ok(None),
    }
}

// What is explained of changes; none of a number that changes do not get.
fn explained(
    alloc: Global,
    language: Language,
    schema: &[u8],
    changes: &[u8],
    number: u16,
) -> Result<Option<Explanation>, AllocError> {
    if number == NOT_JSON {
        let bytes = Vec::from_slice(alloc, changes)?;
        return explain_json(alloc, NAME, number, bytes);
    }
    let Some((reason, hint)) = words_of_changes(number) else {
        return Ok(None);
    };
    let refused = refused_part(alloc, language, schema, changes)?;
    let mut diagnostic = DiagnosticDraft::error(alloc, number, reason);
    diagnostic.advise(hint);
    match &refused {
        Some(refused) if refused.fault.number == number => {
            add_entry(&mut diagnostic, "upsert entry ", refused, " (from 0)");
        }
        _ if number == SHAPE => diagnostic.note(&[KEYS_SAY]),
        _ => {}
    }
    diagnostic.alone(NAME).map(Some)
}

/// Explains in a form why changes of entities are refused with this number, for the schema of these bytes in a language. They are called
/// `changes.json`. Of no bytes where changes do not get the number.
///
/// # Errors
///
/// Fails only when out of memory.
pub fn explain_changes(
    alloc: Global,
    language: Language,
    schema: &[u8],
    changes: &[u8],
    number: u16,
    format: Format,
) -> Result<Vec<u8>, AllocError> {
    match explained(alloc, language, schema, changes, number)? {
        Some(explained) => {
            let text = explained.to_text(alloc, format)?;
            Ok(text.into_bytes())
        }
        None => Ok(Vec::new(alloc)),
    }
}
