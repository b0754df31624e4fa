//! Names of any type, as the language of Cedar 4 reads them at `type` and in `EntityOrCommon`.
use crate::built_in::meant_built_in;
use crate::declared::is_declared;
use crate::extensions::meant_extension;
use crate::naming::refused_name;
use crate::part::{Refusal, part_of, part_with, remembered};
use crate::setting::Setting;
use crate::text::shown;
use crate::type_shape::SET;
use crate::undeclared::{as_written, meant_name, say_nowhere};
use base_places::Draft;
use cedar_ext::ExtensionType;
use std::alloc::{AllocError, Global};

/// Why a name is not that of a declared type or of a built-in one (302, 303, 306), or none.
pub(crate) fn refused_any_name(alloc: Global, setting: Setting<'_>, text: &str) -> Option<Refusal> {
    match is_type(alloc, setting, text) {
        Ok(true) => None,
        Ok(false) => refused_other(alloc, setting, text),
        Err(AllocError) => remembered(alloc, Err(AllocError)),
    }
}

// Why a name that no type has is refused, or none.
fn refused_other(alloc: Global, setting: Setting<'_>, text: &str) -> Option<Refusal> {
    let found = refused_name(alloc, setting.number, text);
    if found.is_some() && text.contains(['<', '[']) {
        return part_of(alloc, &["`", shown(text), "` is not a name"], &[SET]);
    }
    if found.is_some() || setting.number != 303 {
        return found;
    }
    Some(undeclared(alloc, setting, text))
}

fn is_type(alloc: Global, setting: Setting<'_>, text: &str) -> Result<bool, AllocError> {
    if is_built_in(text) {
        return Ok(true);
    }
    let space = setting.namespace;
    if is_declared(alloc, &setting.declared.commons, space, text)? {
        return Ok(true);
    }
    is_declared(alloc, &setting.declared.entities, space, text)
}

// Whether a name is that of a built-in type, alone or in the namespace `__cedar`.
fn is_built_in(text: &str) -> bool {
    let name = text.strip_prefix("__cedar::").unwrap_or(text);
    match name {
        "Long" | "String" | "Bool" | "Boolean" => true,
        _ => ExtensionType::named(name).is_some(),
    }
}

fn undeclared(alloc: Global, setting: Setting<'_>, text: &str) -> Refusal {
    let mut says = Draft::new(alloc);
    says.add_all(&["`", shown(text), "` is not a built-in type, and "]);
    say_nowhere(
        &mut says,
        "common type or entity type",
        text,
        setting.namespace,
    );
    let mut hint = Draft::new(alloc);
    hint_meant(&mut hint, setting, text);
    part_with(alloc, says, hint)
}

// Hints at the type that is likely meant: a built-in one, or else a common type, or else an entity type.
fn hint_meant(hint: &mut Draft, setting: Setting<'_>, text: &str) {
    let space = setting.namespace;
    if let Some(name) = meant_extension(setting.language, text, false) {
        hint.add_all(&["did you mean `", name, "`?"]);
    } else if let Some(name) = meant_built_in(text) {
        hint.add_all(&["did you mean `", name, "`?"]);
    } else if let Some(name) = meant_name(&setting.declared.commons, space, text) {
        hint.add_all(&["did you mean `", as_written(name.as_str(), space), "`?"]);
    } else if let Some(name) = meant_name(&setting.declared.entities, space, text) {
        hint.add_all(&["did you mean `", as_written(name.as_str(), space), "`?"]);
    } else {
        hint.add(
            "the built-in types are `Long`, `String`, `Bool`, `Set`, `Record`, `decimal`, `ipaddr`, `datetime` and `duration`",
        );
    }
}
