//! Shapes and contexts: types that are records.
use crate::forms::Forms;
use crate::part::{Refusal, at, part_of, remembered};
use crate::setting::Setting;
use crate::step::Step;
use crate::text::shown;
use crate::types::refused_in_type;
use cedar_schema_json::{Position, text_at};
use serde_json::Value;
use std::alloc::{AllocError, Global};

/// Why the shape or the context at a key is refused, or none. It has to be a record, with its common types expanded. `what` is what it
/// is, in words.
pub(crate) fn refused_record(
    alloc: Global,
    setting: Setting<'_>,
    json: &Value,
    key: &str,
    what: &str,
) -> Option<Refusal> {
    let Some(record) = json.get(key) else {
        return None;
    };
    let found = refused_whole(alloc, setting, record, what);
    at(alloc, Step::Key(key), found)
}

fn refused_whole(
    alloc: Global,
    setting: Setting<'_>,
    record: &Value,
    what: &str,
) -> Option<Refusal> {
    let found = refused_in_type(alloc, setting, record, Position::Inner);
    if found.is_some() {
        return found;
    }
    match (setting.forms, setting.number) {
        (Some(forms), 302) => refused_other(alloc, forms, setting.namespace, record, what),
        (Some(forms), 309) => refused_size(alloc, forms, setting.namespace, record),
        _ => None,
    }
}

// The name that a type has, or that of its kind.
fn name_in(json: &Value) -> &str {
    match text_at(json, "type") {
        Some("EntityOrCommon") => text_at(json, "name").unwrap_or("EntityOrCommon"),
        Some(text) => text,
        None => "",
    }
}

// A type that is not a record.
fn refused_other(
    alloc: Global,
    forms: &Forms,
    namespace: &str,
    json: &Value,
    what: &str,
) -> Option<Refusal> {
    match forms.is_other(alloc, namespace, json) {
        Ok(false) => None,
        Ok(true) => {
            let name = name_in(json);
            part_of(
                alloc,
                &[
                    what,
                    " must be a record, but `",
                    shown(name),
                    "` is not one",
                ],
                &["write {\"type\":\"Record\",\"attributes\":{..}}"],
            )
        }
        Err(AllocError) => remembered(alloc, Err(AllocError)),
    }
}

/// Why a type is too large (309), or none.
pub(crate) fn refused_size(
    alloc: Global,
    forms: &Forms,
    namespace: &str,
    json: &Value,
) -> Option<Refusal> {
    match forms.excess(alloc, namespace, json) {
        Ok(None) => None,
        Ok(Some(excess)) => part_of(alloc, &["with its common types expanded, ", excess], &[]),
        Err(AllocError) => remembered(alloc, Err(AllocError)),
    }
}
