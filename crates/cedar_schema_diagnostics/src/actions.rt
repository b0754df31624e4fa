//! Actions.
use crate::entity_types::refused_names;
use crate::keys::refused_keys;
use crate::members::refused_members;
use crate::part::{Refusal, at, part_of};
use crate::records::refused_record;
use crate::setting::Setting;
use crate::step::Step;
use crate::text::shown;
use cedar_schema_json::{Part, present};
use serde_json::Value;
use std::alloc::Global;

/// Why an entry of `actions` is refused, or none.
pub(crate) fn refused_action(alloc: Global, setting: Setting<'_>, body: &Value) -> Option<Refusal> {
    if setting.number == 302 {
        let found = refused_keys(alloc, setting.language, Part::Action, body);
        if found.is_some() {
            return found;
        }
    }
    if let Some(list) = present(body, "memberOf") {
        let found = refused_members(alloc, setting, list);
        if found.is_some() {
            return at(alloc, Step::Key("memberOf"), found);
        }
    }
    if let Some(applies) = present(body, "appliesTo") {
        let found = refused_applies_to(alloc, setting, applies);
        if found.is_some() {
            return at(alloc, Step::Key("appliesTo"), found);
        }
    }
    refused_attributes(alloc, setting.number, body)
}

fn refused_applies_to(alloc: Global, setting: Setting<'_>, applies: &Value) -> Option<Refusal> {
    if setting.number == 302 {
        let found = refused_keys(alloc, setting.language, Part::AppliesTo, applies);
        if found.is_some() {
            return found;
        }
    }
    for key in ["principalTypes", "resourceTypes"] {
        let found = refused_list_at(alloc, setting, applies, key);
        if found.is_some() {
            return found;
        }
    }
    refused_record(alloc, setting, applies, "context", "a context")
}

// Why the list at a key is refused, or absent (308); or none.
fn refused_list_at(
    alloc: Global,
    setting: Setting<'_>,
    applies: &Value,
    key: &str,
) -> Option<Refusal> {
    match applies.get(key) {
        Some(list) => {
            let found = refused_names(alloc, setting, list);
            at(alloc, Step::Key(key), found)
        }
        None if setting.number == 308 && applies.is_object() => {
            part_of(alloc, &["the key `", shown(key), "` is missing"], &[])
        }
        None => None,
    }
}

// Attributes of an action that are not the empty object (302), or none.
fn refused_attributes(alloc: Global, number: u16, body: &Value) -> Option<Refusal> {
    let Some(attributes) = present(body, "attributes") else {
        return None;
    };
    match attributes.as_object() {
        Some(members) if members.is_empty() => None,
        _ if number == 302 => {
            let found = part_of(
                alloc,
                &["attributes of an action are not supported"],
                &["remove `attributes`"],
            );
            at(alloc, Step::Key("attributes"), found)
        }
        _ => None,
    }
}
