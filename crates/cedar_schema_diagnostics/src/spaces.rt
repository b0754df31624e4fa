//! Namespaces, without the entries of their sections.
use crate::keys::{has_key, refused_keys, refused_object};
use crate::naming::refused_name;
use crate::part::{Refusal, at, part_of};
use crate::step::Step;
use crate::text::shown;
use cedar_ext::Language;
use cedar_schema_json::Part;
use serde_json::{Map, Value};
use std::alloc::Global;

const SECTIONS: [&str; 3] = ["entityTypes", "actions", "commonTypes"];

/// The first namespace with a wrong name, a wrong key, or a section that is not an object (302, 306); or none.
pub(crate) fn refused_spaces(
    alloc: Global,
    language: Language,
    number: u16,
    root: &Map<String, Value>,
) -> Option<Refusal> {
    for (namespace, space) in root.iter() {
        let found = refused_space(alloc, language, number, namespace.as_str(), space);
        if found.is_some() {
            return at(alloc, Step::Namespace(namespace.as_str()), found);
        }
    }
    None
}

fn refused_space(
    alloc: Global,
    language: Language,
    number: u16,
    namespace: &str,
    space: &Value,
) -> Option<Refusal> {
    if number == 302 && !space.is_object() {
        return refused_keys(alloc, language, Part::Namespace, space);
    }
    if !namespace.is_empty() {
        let found = refused_name(alloc, number, namespace);
        if found.is_some() {
            return found;
        }
    }
    if number != 302 {
        return None;
    }
    let found = refused_keys(alloc, language, Part::Namespace, space);
    if found.is_none() {
        return refused_sections(alloc, space);
    }
    if has_key(&SECTIONS, namespace) {
        return outside_namespaces(alloc, namespace);
    }
    match inner_namespace(space) {
        Some(inner) => at(alloc, Step::Key(inner), around_namespaces(alloc, namespace)),
        None => found,
    }
}

// The first key that a namespace may not have, if what it has is a namespace itself.
fn inner_namespace(space: &Value) -> Option<&str> {
    let members = space.as_object()?;
    let (key, member) = members
        .iter()
        .find(|(key, _)| !has_key(&SECTIONS, key.as_str()))?;
    let is_namespace = SECTIONS
        .iter()
        .any(|section| member.get(*section).is_some());
    is_namespace.then_some(key.as_str())
}

// A key around the namespaces.
fn around_namespaces(alloc: Global, key: &str) -> Option<Refusal> {
    part_of(
        alloc,
        &["`", shown(key), "` is read as the name of a namespace"],
        &["remove it: the namespaces are the keys at the top of a schema"],
    )
}

// A section that is not in a namespace.
fn outside_namespaces(alloc: Global, key: &str) -> Option<Refusal> {
    part_of(
        alloc,
        &["`", shown(key), "` is read as the name of a namespace"],
        &["write {\"\":{\"", shown(key), "\":{..}}}"],
    )
}

fn refused_sections(alloc: Global, space: &Value) -> Option<Refusal> {
    for key in SECTIONS {
        if let Some(section) = space.get(key)
            && !section.is_object()
        {
            return refused_object(alloc, key, section);
        }
    }
    None
}
