//! Actions that are in themselves.
use crate::circle_words::{MOST_SHOWN, say_circle};
use crate::circles::circle_in;
use crate::declared::Declared;
use crate::part::{Refusal, at, part_with};
use crate::step::Step;
use crate::text::{joined, shown};
use base_places::Draft;
use cedar_schema_json::{Entry, entries_of, present, qualified, text_at};
use serde_json::{Map, Value};
use std::alloc::{AllocError, Global};

/// The link in the first action of a circle of actions that leads to the next one (305), or none.
pub(crate) fn refused_action_circle(
    alloc: Global,
    root: &Map<String, Value>,
) -> Result<Option<Refusal>, AllocError> {
    let entries = entries_of(alloc, root, "actions")?;
    let links = links_of(alloc, root, &entries)?;
    match circle_in(alloc, &links)? {
        Some(circle) => told_circle(alloc, &entries, &links, &circle),
        None => Ok(None),
    }
}

fn links_of(
    alloc: Global,
    root: &Map<String, Value>,
    entries: &[Entry<'_>],
) -> Result<Vec<Vec<usize>>, AllocError> {
    let declared = Declared::read(alloc, root)?;
    let links = all_links(alloc, &declared, entries);
    drop(declared);
    links
}

fn all_links(
    alloc: Global,
    declared: &Declared,
    entries: &[Entry<'_>],
) -> Result<Vec<Vec<usize>>, AllocError> {
    let mut links = Vec::new(alloc);
    for entry in entries {
        let members = members_of(alloc, declared, entry.namespace, entry.body)?;
        links.push(members)?;
    }
    Ok(links)
}

// The places of the actions in `memberOf`, in its order.
fn members_of(
    alloc: Global,
    declared: &Declared,
    namespace: &str,
    body: &Value,
) -> Result<Vec<usize>, AllocError> {
    let mut places = Vec::new(alloc);
    let Some(members) = present(body, "memberOf").and_then(Value::as_array) else {
        return Ok(places);
    };
    for member in members {
        places.push(place_of(alloc, declared, namespace, member)?)?;
    }
    Ok(places)
}

// The place of an action; a place that is not there if it is not declared.
fn place_of(
    alloc: Global,
    declared: &Declared,
    namespace: &str,
    member: &Value,
) -> Result<usize, AllocError> {
    let Some(id) = text_at(member, "id") else {
        return Ok(usize::MAX);
    };
    let place = declared.action(alloc, namespace, text_at(member, "type"), id)?;
    Ok(place.unwrap_or(usize::MAX))
}

fn told_circle(
    alloc: Global,
    entries: &[Entry<'_>],
    links: &[Vec<usize>],
    circle: &[usize],
) -> Result<Option<Refusal>, AllocError> {
    let Some((place, others)) = circle.split_first() else {
        return Ok(None);
    };
    let Some(first) = entries.get(*place) else {
        return Ok(None);
    };
    let names = names_in(alloc, entries, circle)?;
    let mut says = Draft::new(alloc);
    say_circle(&mut says, &names, circle.len(), "is in");
    let next = others.first().copied().unwrap_or(*place);
    let index = index_of(links, *place, next);
    let part = Some(part_with(alloc, says, Draft::new(alloc)));
    let part = at(alloc, Step::Item(index), part);
    let part = at(alloc, Step::Key("memberOf"), part);
    let part = at(alloc, Step::Key(first.key), part);
    let part = at(alloc, Step::Key("actions"), part);
    Ok(at(alloc, Step::Namespace(first.namespace), part))
}

// Which of the links of a place is the first one that leads to another.
fn index_of(links: &[Vec<usize>], place: usize, to: usize) -> usize {
    let Some(list) = links.get(place) else {
        return 0;
    };
    for (index, next) in list.iter().enumerate() {
        if *next == to {
            return index;
        }
    }
    0
}

// The uids at the first places of a circle.
fn names_in(
    alloc: Global,
    entries: &[Entry<'_>],
    circle: &[usize],
) -> Result<Vec<String>, AllocError> {
    let mut names = Vec::new(alloc);
    for place in circle {
        if let Some(entry) = entries.get(*place)
            && names.len() < MOST_SHOWN
        {
            names.push(uid_text(alloc, entry.namespace, entry.key)?)?;
        }
    }
    Ok(names)
}

fn uid_text(alloc: Global, namespace: &str, key: &str) -> Result<String, AllocError> {
    let ty = qualified(alloc, namespace, "Action")?;
    joined(alloc, &[ty.as_str(), "::\"", shown(key), "\""]).done()
}
