//! Common types that lead back to themselves.
use crate::circle_words::{MOST_SHOWN, say_circle};
use crate::circles::circle_in;
use crate::forms::Forms;
use crate::part::{Refusal, at, part_with};
use crate::step::Step;
use base_places::Draft;
use cedar_ext::Language;
use cedar_schema_json::{Entry, entries_of, qualified};
use serde_json::{Map, Value};
use std::alloc::{AllocError, Global};

/// The first common type of a circle of common types (304), or none.
pub(crate) fn refused_common_circle(
    alloc: Global,
    language: Language,
    root: &Map<String, Value>,
) -> Result<Option<Refusal>, AllocError> {
    let Some(links) = links_of(alloc, language, root)? else {
        return Ok(None);
    };
    let Some(circle) = circle_in(alloc, &links)? else {
        return Ok(None);
    };
    let entries = entries_of(alloc, root, "commonTypes")?;
    told_circle(alloc, &entries, &circle)
}

fn links_of(
    alloc: Global,
    language: Language,
    root: &Map<String, Value>,
) -> Result<Option<Vec<Vec<usize>>>, AllocError> {
    let Some(forms) = Forms::read(alloc, language, root)? else {
        return Ok(None);
    };
    let links = forms.links(alloc);
    drop(forms);
    Ok(Some(links?))
}

fn told_circle(
    alloc: Global,
    entries: &[Entry<'_>],
    circle: &[usize],
) -> Result<Option<Refusal>, AllocError> {
    let Some(first) = first_of(entries, circle) else {
        return Ok(None);
    };
    let names = names_in(alloc, entries, circle)?;
    let mut says = Draft::new(alloc);
    say_circle(&mut says, &names, circle.len(), "refers to");
    let part = Some(part_with(alloc, says, Draft::new(alloc)));
    let part = at(alloc, Step::Key(first.key), part);
    let part = at(alloc, Step::Key("commonTypes"), part);
    Ok(at(alloc, Step::Namespace(first.namespace), part))
}

fn first_of<'e>(entries: &[Entry<'e>], circle: &[usize]) -> Option<Entry<'e>> {
    match circle.first() {
        Some(place) => entries.get(*place).copied(),
        None => None,
    }
}

// The names at the first places of a circle.
fn names_in(
    alloc: Global,
    entries: &[Entry<'_>],
    circle: &[usize],
) -> Result<Vec<String>, AllocError> {
    let mut names = Vec::new(alloc);
    for place in circle {
        if let Some(entry) = entries.get(*place)
            && names.len() < MOST_SHOWN
        {
            let name = qualified(alloc, entry.namespace, entry.key)?;
            names.push(String::from_str(alloc, name.as_str())?)?;
        }
    }
    Ok(names)
}
