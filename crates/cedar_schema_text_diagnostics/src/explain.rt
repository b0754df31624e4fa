//! What is explained of a schema text that is refused.
use crate::around::Around;
use crate::expected::{Expected, denotes_text};
use crate::hint::meant;
use crate::piece::{PieceKind, pieces_of};
use crate::second::second_place;
use crate::twice::explain_twice;
use crate::unexpected::unexpected;
use cedar_schema_text::SchemaTextFault;
use std::alloc::{AllocError, Global};

/// What to do about an escape that there is not.
const ESCAPES: &str = "the escapes are \\n \\r \\t \\\\ \\0 \\' \\\" \\xHH and \\u{H..}";

/// A place of a text, and what is said of it.
#[derive(Clone, Copy, Debug, PartialEq, Eq)]
pub struct SecondPlace {
    /// Where it is, in bytes from 0.
    pub at: usize,
    /// What its mark says.
    pub says: &'static str,
}

/// What is explained of a schema text that is refused.
#[derive(Drop)]
pub struct ExplainedText {
    /// Where the fault is, in bytes from 0.
    pub at: usize,
    /// What is wrong there.
    pub says: String,
    /// The place that explains the fault, if there is one.
    pub second: Option<SecondPlace>,
    /// What to do about it, if one thing is likely.
    pub hint: Option<&'static str>,
}

/// What is explained of a schema text that has a fault.
///
/// # Errors
///
/// Fails only when out of memory, also where this is the fault.
pub fn explain_text(
    alloc: Global,
    text: &str,
    fault: SchemaTextFault,
) -> Result<ExplainedText, AllocError> {
    match fault {
        SchemaTextFault::OutOfMemory => Err(AllocError),
        SchemaTextFault::Syntax(at) => explain_syntax(alloc, text, at),
        SchemaTextFault::Twice(at) => explain_twice(alloc, text, at),
    }
}

fn explain_syntax(alloc: Global, text: &str, at: usize) -> Result<ExplainedText, AllocError> {
    let pieces = pieces_of(alloc, text)?;
    let around = Around::of(alloc, &pieces, at)?;
    let expected = Expected::at(alloc, text, around)?;
    let is_string = around.is_here(PieceKind::String);
    let written = around.here.map_or("", |piece| piece.text);
    let is_bad = is_string && !denotes_text(alloc, written)?;
    let says = unexpected(alloc, around, &expected, is_bad)?;
    let explained = ExplainedText {
        at,
        says,
        second: second_place(around, &expected),
        hint: if is_bad {
            Some(ESCAPES)
        } else {
            meant(text, around, &expected)
        },
    };
    drop(expected);
    Ok(explained)
}
