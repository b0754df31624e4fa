//! Names that are not declared: where they were looked for, and which names are likely meant.
use crate::text::shown;
use base_names::Nearest;
use base_places::Draft;
use cedar_schema_json::has_colon;
use cedar_value::Name;
use std::collections::BTreeSet;

/// Says that a name is not declared, and where it was looked for: a name with `::` as it is, another in its own namespace and in the
/// empty one. `what` is what it would name, in words.
pub(crate) fn say_nowhere(says: &mut Draft, what: &str, text: &str, namespace: &str) {
    says.add_all(&["there is no ", what, " `", shown(text), "`"]);
    if !has_colon(text) {
        say_namespaces(says, namespace);
    }
}

/// Says that a name was looked for in a namespace and in the empty one.
pub(crate) fn say_namespaces(says: &mut Draft, namespace: &str) {
    say_namespace(says, namespace);
    if !namespace.is_empty() {
        says.add(", nor in the empty one");
    }
}

/// Says that a name was looked for in a namespace.
pub(crate) fn say_namespace(says: &mut Draft, namespace: &str) {
    if namespace.is_empty() {
        says.add(" in the empty namespace");
    } else {
        says.add_all(&[" in the namespace `", shown(namespace), "`"]);
    }
}

/// The name that is likely meant by a text that is written in a namespace, or none: the one whose last word is the nearest. Of two that
/// are equally near, it is the one in the namespace of the text.
pub(crate) fn meant_name<'n>(
    names: &'n BTreeSet<Name>,
    namespace: &str,
    text: &str,
) -> Option<&'n Name> {
    let (own, word) = match text.rsplit_once("::") {
        Some(parts) => parts,
        None => (namespace, text),
    };
    let nearest = nearest_in(Nearest::new(word), names, own, true);
    nearest_in(nearest, names, own, false).name()
}

// The search with the last words of the names that are in a namespace, or of those that are not.
fn nearest_in<'w, 'n>(
    before: Nearest<'w, &'n Name>,
    names: &'n BTreeSet<Name>,
    namespace: &str,
    is_in: bool,
) -> Nearest<'w, &'n Name> {
    let mut nearest = before;
    for name in names.iter() {
        let (space, word) = parts_of(name.as_str());
        if (space == namespace) == is_in {
            nearest = nearest.compare(word, name);
        }
    }
    nearest
}

// The namespace of a name, which may be empty, and what is after its last `::`.
fn parts_of(name: &str) -> (&str, &str) {
    match name.rsplit_once("::") {
        Some(parts) => parts,
        None => ("", name),
    }
}

/// What is after the last `::` of a name.
pub(crate) fn last_word(name: &str) -> &str {
    let (_, word) = parts_of(name);
    word
}

/// A name as it may be written in a namespace: there, a name of this namespace needs no `::`.
pub(crate) fn as_written<'n>(name: &'n str, namespace: &str) -> &'n str {
    match name.rsplit_once("::") {
        Some((space, word)) if space == namespace => word,
        _ => name,
    }
}
