//! Definitions that have the name of one in the empty namespace.
use crate::part::{Refusal, part_of, remembered};
use crate::setting::Setting;
use crate::text::shown;
use cedar_ext::Language;
use cedar_schema_json::qualified;
use std::alloc::{AllocError, Global};

/// Why a definition of a namespace is refused that has the name of one in the empty namespace (306 in Cedar 4), or none. `what` is
/// what it defines, in words.
pub(crate) fn refused_shadow(
    alloc: Global,
    setting: Setting<'_>,
    what: &str,
    key: &str,
) -> Option<Refusal> {
    if setting.number != 306
        || setting.language != Language::Cedar4
        || setting.namespace.is_empty()
    {
        return None;
    }
    remembered(alloc, shadow(alloc, setting, what, key))
}

fn shadow(
    alloc: Global,
    setting: Setting<'_>,
    what: &str,
    key: &str,
) -> Result<Option<Refusal>, AllocError> {
    let name = qualified(alloc, "", key)?;
    let other = if setting.declared.commons.contains(&name) {
        "common type"
    } else if setting.declared.entities.contains(&name) {
        "entity type"
    } else {
        return Ok(None);
    };
    Ok(part_of(
        alloc,
        &[
            "the ",
            what,
            " `",
            shown(setting.namespace),
            "::",
            shown(key),
            "` has the name of the ",
            other,
            " `",
            shown(key),
            "` of the empty namespace",
        ],
        &["rename one of the two"],
    ))
}
