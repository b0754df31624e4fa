//! Words that are meant by others.
use base_names::Nearest;
use cedar_schema_types::Attribute;

// The key that Cedar's files have for a key that other formats have, or the key itself.
fn translated(key: &str) -> &str {
    match key {
        "attributes" | "properties" => "attrs",
        "ancestors" | "memberOf" | "groups" => "parents",
        "entity" => "uid",
        "user" | "subject" | "actor" => "principal",
        "operation" | "permission" | "verb" => "action",
        "object" | "target" => "resource",
        "ctx" | "environment" => "context",
        "template" | "policy" | "policy_id" | "policyId" => "template_id",
        "id" | "new_id" | "newId" => "link_id",
        "values" | "slots" | "arguments" | "env" => "args",
        "kind" | "entityType" | "entity_type" => "type",
        "name" | "eid" | "entityId" | "entity_id" => "id",
        "uid" | "__expr" => "__entity",
        _ => key,
    }
}

/// The key of a list that is meant: what other formats call so, or the nearest; or none.
pub(crate) fn meant_key(written: &str, keys: &[&'static str]) -> Option<&'static str> {
    let meant = translated(written);
    keys.iter()
        .copied()
        .find(|key| *key == meant)
        .or_else(|| meant_of(written, keys))
}

// The word of a list that is the nearest, or none.
fn meant_of(written: &str, words: &[&'static str]) -> Option<&'static str> {
    let mut nearest = Nearest::new(written);
    for word in words {
        nearest = nearest.compare(*word, *word);
    }
    nearest.name()
}

/// The name of an attribute that is meant, or none.
pub(crate) fn meant_attribute<'a>(written: &str, attributes: &'a [Attribute]) -> Option<&'a str> {
    nearest_among(Nearest::new(written), attributes).name()
}

// The search with the names of attributes.
fn nearest_among<'w, 'a>(
    before: Nearest<'w, &'a str>,
    attributes: &'a [Attribute],
) -> Nearest<'w, &'a str> {
    let mut nearest = before;
    for attribute in attributes {
        nearest = nearest.compare(attribute.name.as_str(), attribute.name.as_str());
    }
    nearest
}
