//! What is declared for the second time, and where it is declared first.
use crate::around::Around;
use crate::declared::{Declared, Section, declared_of};
use crate::explain::{ExplainedText, SecondPlace};
use crate::piece::{Piece, pieces_of};
use std::alloc::{AllocError, Global};

/// What the mark at the first place says.
const FIRST: &str = "it is declared here first";

// What is said of what is declared for the second time, and what to do about it.
#[derive(Clone, Copy)]
struct Words {
    says: &'static str,
    hint: &'static str,
}

fn words_of_section(section: Section) -> Words {
    match section {
        Section::CommonType => Words {
            says: "this type is declared for the second time",
            hint: "remove one of the two, or choose another name",
        },
        Section::EntityType => Words {
            says: "this entity type is declared for the second time",
            hint: "remove one of the two, or choose another name",
        },
        Section::Action => Words {
            says: "this action is declared for the second time",
            hint: "remove one of the two, or choose another name",
        },
        Section::Namespace => Words {
            says: "this namespace is declared for the second time",
            hint: "write one namespace with the declarations of both",
        },
    }
}

fn words_of_annotation() -> Words {
    Words {
        says: "this annotation is repeated",
        hint: "write each annotation once",
    }
}

// The words for a key of what an action applies to.
fn words_of_applies(name: &str) -> Words {
    let says = "this is written for the second time";
    let hint = match name {
        "principal" => "write all types in one list: `principal: [User, Team]`",
        "resource" => "write all types in one list: `resource: [Document, Folder]`",
        _ => "write all attributes in one `context`",
    };
    Words { says, hint }
}

fn words_of_attribute() -> Words {
    Words {
        says: "this attribute is already in the record",
        hint: "write each attribute once",
    }
}

// What is declared for the second time at a place, and where first.
fn found_at<'t>(
    alloc: Global,
    text: &'t str,
    pieces: &[Piece<'t>],
    around: Around<'t>,
    at: usize,
) -> Result<Option<(Words, Option<usize>)>, AllocError> {
    let Some(here) = around.here else {
        return Ok(None);
    };
    if around.follows("@") {
        let first = first_annotation(pieces, here);
        return Ok(Some((words_of_annotation(), first)));
    }
    if let Some(open) = around.open {
        let words = if around.is_opened_by("appliesTo") {
            words_of_applies(here.text)
        } else {
            words_of_attribute()
        };
        return Ok(Some((words, first_key(pieces, open, here))));
    }
    let declared = declared_of(alloc, text, pieces)?;
    Ok(first_declared(&declared, at))
}

// The annotation of the same name before this one, which is in the same row of annotations.
fn first_annotation(pieces: &[Piece<'_>], here: Piece<'_>) -> Option<usize> {
    let mut first = None;
    let mut is_noted = false;
    for piece in pieces {
        if piece.start >= here.start {
            break;
        }
        if is_noted && piece.text == here.text {
            first = Some(piece.start);
        }
        is_noted = piece.text == "@";
    }
    first
}

// The key of the same name before this one, between the same braces.
fn first_key(pieces: &[Piece<'_>], open: Piece<'_>, here: Piece<'_>) -> Option<usize> {
    let mut depth = 0usize;
    let mut last: Option<Piece<'_>> = None;
    for piece in pieces {
        if piece.start >= here.start {
            break;
        }
        if piece.start <= open.start {
            continue;
        }
        match piece.text {
            "{" | "[" | "(" | "<" => depth = depth.saturating_add(1),
            "}" | "]" | ")" | ">" => depth = depth.saturating_sub(1),
            ":" | "?" if depth == 0 => {
                if let Some(key) = last
                    && key.name() == here.name()
                {
                    return Some(key.start);
                }
            }
            _ => {}
        }
        last = Some(*piece);
    }
    None
}

// The words for the name that is declared at a place, and where the same name is declared first.
fn first_declared(declared: &[Declared<'_>], at: usize) -> Option<(Words, Option<usize>)> {
    let second = declared.iter().find(|it| it.start == at)?;
    let first = declared.iter().find(|it| it.section == second.section
        && it.namespace == second.namespace
        && (it.name == second.name || it.section == Section::Namespace)
        && it.start < at);
    Some((
        words_of_section(second.section),
        first.map(|first| first.start),
    ))
}

/// What is explained of the name, the key or the namespace at a place, which is declared for the second time.
///
/// # Errors
///
/// Fails only when out of memory.
pub(crate) fn explain_twice(
    alloc: Global,
    text: &str,
    at: usize,
) -> Result<ExplainedText, AllocError> {
    let pieces = pieces_of(alloc, text)?;
    let around = Around::of(alloc, &pieces, at)?;
    let found = found_at(alloc, text, &pieces, around, at)?;
    let says = found.map_or("this is declared for the second time", |it| it.0.says);
    Ok(ExplainedText {
        at,
        says: String::from_str(alloc, says)?,
        second: found
            .and_then(|it| it.1)
            .map(|at| SecondPlace { at, says: FIRST }),
        hint: found.map(|it| it.0.hint),
    })
}
