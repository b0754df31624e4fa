//! Common types.
use crate::built_in::is_built_in;
use crate::naming::refused_identifier;
use crate::part::{Refusal, part_of};
use crate::records::refused_size;
use crate::setting::Setting;
use crate::shadows::refused_shadow;
use crate::text::shown;
use crate::types::refused_in_type;
use cedar_ext::Language;
use cedar_schema_json::Position;
use serde_json::Value;
use std::alloc::Global;

/// Why an entry of `commonTypes` is refused, or none.
pub(crate) fn refused_common_type(
    alloc: Global,
    setting: Setting<'_>,
    key: &str,
    body: &Value,
) -> Option<Refusal> {
    let found = refused_common_key(alloc, setting, key);
    if found.is_some() {
        return found;
    }
    let found = refused_in_type(alloc, setting, body, Position::CommonType);
    if found.is_some() {
        return found;
    }
    match setting.forms {
        Some(forms) if setting.number == 309 => {
            refused_size(alloc, forms, setting.namespace, body)
        }
        _ => None,
    }
}

fn refused_common_key(alloc: Global, setting: Setting<'_>, key: &str) -> Option<Refusal> {
    let is_bool = key == "Bool" && setting.language == Language::Cedar4;
    if setting.number == 306 && (is_bool || is_built_in(key)) {
        return part_of(
            alloc,
            &[
                "`",
                shown(key),
                "` is a built-in type, so a common type cannot have this name",
            ],
            &["choose another name"],
        );
    }
    let found = refused_identifier(alloc, setting.number, key);
    if found.is_some() {
        return found;
    }
    refused_shadow(alloc, setting, "common type", key)
}
