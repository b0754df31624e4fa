//! Hints that have a part of a condition as it is written.
use crate::diagnostic_draft::DiagnosticDraft;
use crate::own_statement::OwnStatement;
use base_places::Draft;
use cedar_check_diagnostics::Quote;
use cedar_parser_places::PartPlace;
use std::alloc::{AllocError, Global};

/// How many bytes of a part are shown in a hint at most.
const MOST_QUOTED: usize = 60;

/// The word whose condition is denied.
const UNLESS: &str = "unless";

/// Whether what gives a part its name means a `!` of what is written: `a != b` is `!(a == b)`, and `unless { a }` is `!a`.
pub(crate) fn is_turned(name: &str) -> bool {
    matches!(name, "!=" | ">" | ">=" | "unless")
}

// Whether a text is short, and on one line.
fn is_short_line(text: &str) -> bool {
    if text.len() > MOST_QUOTED {
        return false;
    }
    for byte in text.as_bytes() {
        if *byte < 32 {
            return false;
        }
    }
    true
}

// Whether what is written after a part may belong to it: `x is T` may go on with `in e`, and `x has a` with `.b`.
fn goes_on(rest: &str) -> bool {
    let rest = rest.trim_start();
    rest.starts_with("in") || rest.starts_with('.') || rest.starts_with("//")
}

// Where the operand of the part at a path is written.
fn operand_at(
    alloc: Global,
    statement: OwnStatement<'_>,
    path: &[usize],
) -> Result<Option<PartPlace>, AllocError> {
    let mut inner = Vec::from_slice(alloc, path)?;
    inner.push(0)?;
    statement.part(alloc, &inner)
}

// Whether an `unless` is written at a place: not a part whose name is this word, such as `context.unless`.
fn is_unless(statement: OwnStatement<'_>, place: PartPlace) -> bool {
    place.name.start == place.whole.start && statement.written(place.name) == UNLESS
}

/// Says what to do in the words of a quote, in place of what was said before, where its part is short and on one line.
pub(crate) fn advise_quote(
    alloc: Global,
    diagnostic: &mut DiagnosticDraft,
    statement: OwnStatement<'_>,
    quote: &Quote,
) -> Result<(), AllocError> {
    let Some(outer) = statement.part(alloc, &quote.path)? else {
        return Ok(());
    };
    let unless = is_unless(statement, outer);
    let inner = if unless {
        operand_at(alloc, statement, &quote.path)?
    } else {
        Some(outer)
    };
    let Some(place) = inner else {
        return Ok(());
    };
    let text = statement.written(place.whole);
    if !is_short_line(text) || goes_on(statement.after(place.whole)) {
        return Ok(());
    }
    let mut hint = Draft::new(alloc);
    if is_turned(statement.written(place.name)) {
        hint.add(quote.before_turned.as_str());
    } else {
        hint.add(quote.before.as_str());
    }
    hint.add(text);
    hint.add_char('`');
    if unless || quote.denied {
        hint.add(quote.aside.as_str());
    }
    let hint = hint.done()?;
    diagnostic.advise(hint.as_str());
    Ok(())
}
