//! Entities files that are refused: the entry, its uid and the path of the attribute.
use crate::again::{bytes_again, schema_again};
use crate::data::{add_entry, reason_of};
use crate::diagnostic::Explanation;
use crate::diagnostic_draft::DiagnosticDraft;
use crate::item_place::{item_place, note_other_than_list};
use crate::words::words_of;
use base_places::Draft;
use cedar_conform::read_entities_owned;
use cedar_conform_diagnostics::{CircleEntry, circle_through, entries_of_uid, refused_entry};
use cedar_conform_values::ConformFault;
use cedar_ext::Language;
use cedar_files::{Files, Role};
use cedar_schema::Schema;
use cedar_value::Uid;
use std::alloc::{AllocError, Global};

/// The number of a uid that two entities have.
const DUPLICATE: u16 = 401;

/// The number of an entity that is below itself.
const CIRCLE: u16 = 402;

// A uid as a policy writes it.
fn text_of(alloc: Global, uid: &Uid) -> Result<String, AllocError> {
    let ty = uid.ty.as_str();
    let id = uid.id.as_str();
    format!(in alloc; "{ty}::{id:?}")
}

// Adds a note about an entity, with what is said before and after its uid.
fn note_uid(alloc: Global, diagnostic: &mut DiagnosticDraft, before: &str, uid: &Uid, after: &str) {
    let mut note = Draft::new(alloc);
    note.add(before);
    note.add_made(text_of(alloc, uid));
    note.add(after);
    diagnostic.note_made(note.done());
}

/// Adds that two entities have a uid.
pub(crate) fn note_duplicate(alloc: Global, diagnostic: &mut DiagnosticDraft, uid: &Uid) {
    note_uid(alloc, diagnostic, "two entities have the uid ", uid, "");
}

/// Adds that an entity is below itself.
pub(crate) fn note_cycle(alloc: Global, diagnostic: &mut DiagnosticDraft, uid: &Uid) {
    note_uid(
        alloc,
        diagnostic,
        "the entity ",
        uid,
        " is its own ancestor",
    );
}

// Adds the two entries of a uid that is written twice.
fn add_duplicate<F: Files>(
    alloc: Global,
    diagnostic: &mut DiagnosticDraft,
    files: &F,
    uid: &Uid,
) -> Result<(), AllocError> {
    let positions = match bytes_again(alloc, files, Role::Entities)? {
        Some(bytes) => entries_of_uid(alloc, bytes, uid, 2)?,
        None => Vec::new(alloc),
    };
    let (Some(first), Some(second)) = (positions.first(), positions.get(1)) else {
        note_duplicate(alloc, diagnostic, uid);
        return Ok(());
    };
    let mut note = Draft::new(alloc);
    note.add_made(text_of(alloc, uid));
    note.add(" is entry ");
    note.add_display(*first);
    note.add(" and entry ");
    note.add_display(*second);
    note.add(" (from 0)");
    diagnostic.note_made(note.done());
    Ok(())
}

// The circle in words: `A (entry 1) is in B (entry 2), which is in A`.
fn says_of_circle(alloc: Global, circle: &[CircleEntry]) -> Result<String, AllocError> {
    let mut says = Draft::new(alloc);
    for (at, entry) in circle.iter().enumerate() {
        add_joint(&mut says, at);
        says.add(entry.uid.as_str());
        says.add(" (entry ");
        says.add_display(entry.position);
        says.add_char(')');
    }
    if let Some(first) = circle.first() {
        add_joint(&mut says, circle.len());
        says.add(first.uid.as_str());
    }
    says.done()
}

// Adds what joins the entity at a position of a circle to those before it.
fn add_joint(says: &mut Draft, position: usize) {
    says.add(match position {
        0 => "",
        1 => " is in ",
        _ => ", which is in ",
    });
}

// Adds the circle of parents through a uid.
fn add_circle<F: Files>(
    alloc: Global,
    diagnostic: &mut DiagnosticDraft,
    files: &F,
    uid: &Uid,
) -> Result<(), AllocError> {
    let circle = match bytes_again(alloc, files, Role::Entities)? {
        Some(bytes) => circle_through(alloc, bytes, uid)?,
        None => Vec::new(alloc),
    };
    if circle.is_empty() {
        note_cycle(alloc, diagnostic, uid);
    } else {
        diagnostic.note_made(says_of_circle(alloc, &circle));
    }
    Ok(())
}

// Adds the first entry that is refused, and why, if it is refused with this number. Its place is looked for in bytes of their own,
// since those that were read for the reason are freed by then.
fn add_first_refused<F: Files>(
    alloc: Global,
    diagnostic: &mut DiagnosticDraft,
    files: &F,
    schema: &Schema,
    bytes: Vec<u8>,
) -> Result<(), AllocError> {
    let Some(refused) = refused_entry(alloc, schema, bytes)? else {
        return Ok(());
    };
    if refused.fault.number != diagnostic.number {
        return Ok(());
    }
    if let Some(bytes) = bytes_again(alloc, files, Role::Entities)? {
        diagnostic.place = item_place(&bytes, refused.position);
    }
    add_entry(diagnostic, "entry ", &refused, " (from 0)");
    Ok(())
}

// Adds which entries do not make a store together. Their uid is found first, in bytes that are freed as they are read.
fn add_store_fault<F: Files>(
    alloc: Global,
    diagnostic: &mut DiagnosticDraft,
    files: &F,
    schema: &Schema,
    bytes: Vec<u8>,
) -> Result<(), AllocError> {
    let fault = match read_entities_owned(alloc, schema, bytes) {
        Ok(store) => {
            drop(store);
            return Ok(());
        }
        Err(fault) => fault,
    };
    let number = diagnostic.number;
    let added = match &fault {
        ConformFault::OutOfMemory => Err(AllocError),
        ConformFault::DuplicateEntity(uid) if number == DUPLICATE => {
            add_duplicate(alloc, diagnostic, files, uid)
        }
        ConformFault::Cycle(uid) if number == CIRCLE => add_circle(alloc, diagnostic, files, uid),
        _ => Ok(()),
    };
    drop(fault);
    added
}

/// What is explained of an entities file that is refused with another number than 501: the entry, its uid and the path of the
/// attribute. None if the schema cannot be read again, in this language. The bytes are read once; for 401 and 402 once more, for the entries of the uid.
pub fn explain_entities<F: Files>(
    alloc: Global,
    files: &F,
    file: &str,
    number: u16,
    bytes: Vec<u8>,
    language: Language,
) -> Result<Option<Explanation>, AllocError> {
    let (Some((_, hint)), Some(reason)) = (words_of(number), reason_of(number)) else {
        return Ok(None);
    };
    let Some(schema) = schema_again(alloc, files, language)? else {
        return Ok(None);
    };
    let mut diagnostic = DiagnosticDraft::error(alloc, number, reason);
    diagnostic.advise(hint);
    note_other_than_list(&mut diagnostic, &bytes);
    let added = if number == DUPLICATE || number == CIRCLE {
        add_store_fault(alloc, &mut diagnostic, files, &schema, bytes)
    } else {
        add_first_refused(alloc, &mut diagnostic, files, &schema, bytes)
    };
    drop(schema);
    added?;
    diagnostic.alone(file).map(Some)
}
