//! Entity types, and lists of them.
use crate::enumerated::refused_enumeration;
use crate::keys::refused_keys;
use crate::kinds::kind_of;
use crate::naming::refused_identifier;
use crate::part::{Refusal, at, part_of};
use crate::records::refused_record;
use crate::setting::Setting;
use crate::shadows::refused_shadow;
use crate::step::Step;
use crate::text::{is_plain, shown};
use crate::type_names::refused_entity_name;
use cedar_schema_json::Part;
use serde_json::Value;
use std::alloc::Global;

/// Why an entry of `entityTypes` is refused, or none.
pub(crate) fn refused_entity_type(
    alloc: Global,
    setting: Setting<'_>,
    key: &str,
    body: &Value,
) -> Option<Refusal> {
    let found = refused_entity_key(alloc, setting, key);
    if found.is_some() {
        return found;
    }
    if setting.number == 302 {
        let found = refused_keys(alloc, setting.language, Part::EntityType, body);
        if found.is_some() {
            return found;
        }
        let found = refused_enumeration(alloc, body);
        if found.is_some() {
            return found;
        }
    }
    if let Some(list) = body.get("memberOfTypes") {
        let found = refused_names(alloc, setting, list);
        if found.is_some() {
            return at(alloc, Step::Key("memberOfTypes"), found);
        }
    }
    refused_record(alloc, setting, body, "shape", "a shape")
}

fn refused_entity_key(alloc: Global, setting: Setting<'_>, key: &str) -> Option<Refusal> {
    if key == "Action" && setting.number == 306 {
        return part_of(
            alloc,
            &["`Action` is the type of actions, so an entity type cannot have this name"],
            &["choose another name"],
        );
    }
    let found = refused_identifier(alloc, setting.number, key);
    if found.is_some() {
        return found;
    }
    refused_shadow(alloc, setting, "entity type", key)
}

/// Why a list of entity types is refused, or none.
pub(crate) fn refused_names(alloc: Global, setting: Setting<'_>, list: &Value) -> Option<Refusal> {
    let Some(items) = list.as_array() else {
        return refused_list(alloc, setting.number, list);
    };
    for (index, item) in items.iter().enumerate() {
        let found = refused_item(alloc, setting, item);
        if found.is_some() {
            return at(alloc, Step::Item(index), found);
        }
    }
    None
}

fn refused_list(alloc: Global, number: u16, list: &Value) -> Option<Refusal> {
    if number != 302 {
        return None;
    }
    let says = ["expected a list of entity types, found ", kind_of(list)];
    match list.as_str() {
        Some(name) if is_plain(name) => part_of(alloc, &says, &["write [\"", shown(name), "\"]"]),
        _ => part_of(alloc, &says, &["write a list of names, [\"User\"]"]),
    }
}

fn refused_item(alloc: Global, setting: Setting<'_>, item: &Value) -> Option<Refusal> {
    match item.as_str() {
        Some(name) => refused_entity_name(alloc, setting, name, false),
        None if setting.number == 302 => {
            let says = ["expected the name of an entity type, found ", kind_of(item)];
            part_of(alloc, &says, &["write the name alone, \"User\""])
        }
        None => None,
    }
}
