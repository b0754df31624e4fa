//! An explanation as text for a person.
use crate::entries::Entries;
use crate::entry::{Entry, Standing};
use crate::heading::add_heading;
use crate::request_text::add_request;
use crate::shortened::shortened;
use base_places::Draft;
use cedar_ast::Effect;
use cedar_auth::{Ready, Response};
use cedar_value::Request;
use std::alloc::{AllocError, Global};

/// How wide the widest word for what a policy came to is.
const STATE_WIDTH: usize = 9;

/// How many kinds of standings there are.
const RANKS: u8 = 5;

/// How wide the columns of ids and of places are, in characters.
#[derive(Clone, Copy)]
struct Widths {
    id: usize,
    place: usize,
}

/// An explanation of the decision about a request: whole lines that are safe to show.
pub fn text_of(
    alloc: Global,
    ready: &Ready,
    request: &Request,
    response: &Response<'_>,
    entries: &Entries,
    number: usize,
    all: bool,
) -> Result<String, AllocError> {
    let widths = widths_of(alloc, entries)?;
    let mut out = Draft::new(alloc);
    let mut line = Draft::new(alloc);
    add_heading(alloc, &mut line, number, response);
    add_line(&mut out, line);
    let mut line = Draft::new(alloc);
    add_request(alloc, &mut line, ready, request);
    add_line(&mut out, line);
    add_entries(alloc, &mut out, entries, widths);
    if !all {
        add_count(alloc, &mut out, entries);
    }
    out.done()
}

// Adds a line, without the spaces at its end.
fn add_line(out: &mut Draft, line: Draft) {
    if line.is_refused() {
        out.refuse();
    }
    out.add_shown(line.as_str().trim_end());
    out.add_char('\n');
}

// The order in which policies are shown.
fn rank_of(standing: Standing) -> u8 {
    match standing {
        Standing::Determining => 0,
        Standing::Erring(_) => 1,
        Standing::Overridden => 2,
        Standing::Unmet => 3,
        Standing::OutOfScope => 4,
    }
}

// Adds a line for each policy.
fn add_entries(alloc: Global, out: &mut Draft, entries: &Entries, widths: Widths) {
    for rank in 0..RANKS {
        for entry in &entries.shown {
            if rank_of(entry.standing) == rank {
                add_entry(alloc, out, entry, widths);
            }
        }
    }
}

// `LINE:COLUMN`, both from 1; or nothing if there is no place.
fn place_text(alloc: Global, entry: &Entry) -> Result<String, AllocError> {
    let mut says = Draft::new(alloc);
    if let Some(place) = entry.place {
        says.add_display(place.line.saturating_add(1));
        says.add_char(':');
        says.add_display(place.column.saturating_add(1));
    }
    says.done()
}

fn widths_of(alloc: Global, entries: &Entries) -> Result<Widths, AllocError> {
    let mut widths = Widths { id: 0, place: 0 };
    for entry in &entries.shown {
        let id = shortened(alloc, entry.id.as_str())?;
        let place = place_text(alloc, entry)?;
        widths.id = widths.id.max(id.chars().count());
        widths.place = widths.place.max(place.len());
    }
    Ok(widths)
}

// Adds a text, and spaces up to a width.
fn add_padded(line: &mut Draft, text: &str, width: usize) {
    line.add(text);
    for _ in text.chars().count()..width {
        line.add_char(' ');
    }
}

// Adds a text that was made, and spaces up to a width.
fn add_made_padded(line: &mut Draft, made: Result<String, AllocError>, width: usize) {
    match made {
        Ok(text) => add_padded(line, text.as_str(), width),
        Err(AllocError) => line.refuse(),
    }
}

fn effect_word(effect: Effect) -> &'static str {
    match effect {
        Effect::Permit => "permit",
        Effect::Forbid => "forbid",
    }
}

fn state_word(standing: Standing) -> &'static str {
    match standing {
        Standing::Determining | Standing::Overridden => "satisfied",
        Standing::Erring(_) => "erred",
        Standing::Unmet | Standing::OutOfScope => "false",
    }
}

fn words_of(entry: &Entry) -> &str {
    match entry.standing {
        Standing::Overridden => "and overridden",
        _ => entry.says.as_str(),
    }
}

// Adds the line of a policy.
fn add_entry(alloc: Global, out: &mut Draft, entry: &Entry, widths: Widths) {
    let mut line = Draft::new(alloc);
    line.add("  ");
    add_made_padded(&mut line, shortened(alloc, entry.id.as_str()), widths.id);
    line.add("  ");
    line.add(effect_word(entry.effect));
    line.add("  ");
    add_padded(&mut line, state_word(entry.standing), STATE_WIDTH);
    line.add("   ");
    if widths.place > 0 {
        add_made_padded(&mut line, place_text(alloc, entry), widths.place);
        line.add("  ");
    }
    line.add(words_of(entry));
    add_line(out, line);
}

// Adds how many policies are false by their scopes.
fn add_count(alloc: Global, out: &mut Draft, entries: &Entries) {
    let count = entries.out_of_scope;
    if count == 0 {
        return;
    }
    let mut line = Draft::new(alloc);
    line.add("  ");
    line.add_display(count);
    if !entries.shown.is_empty() {
        line.add(" more");
    }
    line.add(if count == 1 {
        " is false by its scope (--all shows it)"
    } else {
        " are false by their scopes (--all shows them)"
    });
    add_line(out, line);
}
