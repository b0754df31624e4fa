//! The names of types.
use crate::any_type::refused_any_name;
use crate::built_in::{is_built_in, meant_built_in};
use crate::declared::is_declared;
use crate::extensions::{left_out_extension, meant_extension, undeclared_extension};
use crate::left_out::entity_or_common;
use crate::naming::refused_name;
use crate::part::{Refusal, at, part_of, part_with, remembered};
use crate::setting::Setting;
use crate::step::Step;
use crate::text::shown;
use crate::type_shape::SET;
use crate::undeclared::{as_written, last_word, meant_name, say_nowhere};
use base_places::Draft;
use cedar_ext::Language;
use std::alloc::{AllocError, Global};

/// Why the name of an entity type is refused (302, 303, 306), or none. `is_type` says whether it is in a type, and not in a list.
pub(crate) fn refused_entity_name(
    alloc: Global,
    setting: Setting<'_>,
    text: &str,
    is_type: bool,
) -> Option<Refusal> {
    let found = refused_name(alloc, setting.number, text);
    if found.is_some() || setting.number != 303 {
        return found;
    }
    remembered(alloc, undeclared_entity(alloc, setting, text, is_type))
}

fn undeclared_entity(
    alloc: Global,
    setting: Setting<'_>,
    text: &str,
    is_type: bool,
) -> Result<Option<Refusal>, AllocError> {
    if is_declared(alloc, &setting.declared.entities, setting.namespace, text)? {
        return Ok(None);
    }
    let is_common = is_declared(alloc, &setting.declared.commons, setting.namespace, text)?;
    let mut says = Draft::new(alloc);
    say_nowhere(&mut says, "entity type", text, setting.namespace);
    let mut hint = Draft::new(alloc);
    hint_entity(&mut hint, setting, text, is_type, is_common);
    Ok(Some(part_with(alloc, says, hint)))
}

// Hints what is meant by the name of an entity type that is not declared.
fn hint_entity(hint: &mut Draft, setting: Setting<'_>, text: &str, is_type: bool, is_common: bool) {
    let name = shown(text);
    if is_built_in(text) && is_type {
        hint_written(hint, name, "a built-in type");
    } else if is_common && is_type {
        hint_written(hint, name, "a common type");
    } else if is_common {
        hint.add_all(&["`", name, "` is a common type, not an entity type"]);
    } else if last_word(text) == "Action" {
        hint.add_all(&["`", name, "` is the type of actions, not an entity type"]);
    } else if let Some(meant) = meant_name(&setting.declared.entities, setting.namespace, text) {
        let meant = as_written(meant.as_str(), setting.namespace);
        hint.add_all(&["did you mean `", meant, "`?"]);
    }
}

// Hints how to write a type that is not an entity type.
fn hint_written(hint: &mut Draft, name: &str, what: &str) {
    hint.add_all(&[
        "`",
        name,
        "` is ",
        what,
        ": write {\"type\":\"",
        name,
        "\"}",
    ]);
}

/// Why the name at the key `type` is refused where it is not that of a built-in type (302, 303, 306), or none.
pub(crate) fn refused_type_name(
    alloc: Global,
    setting: Setting<'_>,
    text: &str,
) -> Option<Refusal> {
    if setting.language == Language::Cedar4 {
        let found = refused_any_name(alloc, setting, text);
        return at(alloc, Step::Key("type"), found);
    }
    let found = refused_name(alloc, setting.number, text);
    if found.is_some() && text.contains(['<', '[']) {
        let found = part_of(alloc, &["`", shown(text), "` is not a name"], &[SET]);
        return at(alloc, Step::Key("type"), found);
    }
    if found.is_some() {
        return at(alloc, Step::Key("type"), found);
    }
    if setting.number != 303 {
        return None;
    }
    remembered(alloc, undeclared_type(alloc, setting, text))
}

fn undeclared_type(
    alloc: Global,
    setting: Setting<'_>,
    text: &str,
) -> Result<Option<Refusal>, AllocError> {
    if is_declared(alloc, &setting.declared.commons, setting.namespace, text)? {
        return Ok(None);
    }
    if text == "EntityOrCommon" {
        return Ok(entity_or_common(alloc));
    }
    let is_entity = is_declared(alloc, &setting.declared.entities, setting.namespace, text)?;
    if !is_entity && left_out_extension(setting.language, text).is_some() {
        let found = undeclared_extension(alloc, setting.language, text);
        return Ok(at(alloc, Step::Key("type"), found));
    }
    let mut says = Draft::new(alloc);
    says.add_all(&["`", shown(text), "` is not a built-in type, and "]);
    say_nowhere(&mut says, "common type", text, setting.namespace);
    let mut hint = Draft::new(alloc);
    hint_type(&mut hint, setting, text, is_entity);
    let part = Some(part_with(alloc, says, hint));
    Ok(at(alloc, Step::Key("type"), part))
}

// Hints what is meant by the name of a type that is not declared.
fn hint_type(hint: &mut Draft, setting: Setting<'_>, text: &str, is_entity: bool) {
    if let Some(name) = meant_extension(setting.language, text, is_entity) {
        hint.add_all(&["write {\"type\":\"Extension\",\"name\":\"", name, "\"}"]);
    } else if is_entity {
        let name = shown(text);
        hint.add_all(&[
            "`",
            name,
            "` is an entity type: write {\"type\":\"Entity\",\"name\":\"",
            name,
            "\"}",
        ]);
    } else if let Some(meant) = meant_built_in(text) {
        hint.add_all(&["did you mean `", meant, "`?"]);
    } else {
        hint_meant(hint, setting, text);
    }
}

// Hints at the common type, or else the entity type, that is likely meant.
fn hint_meant(hint: &mut Draft, setting: Setting<'_>, text: &str) {
    let space = setting.namespace;
    if let Some(name) = meant_name(&setting.declared.commons, space, text) {
        hint.add_all(&["did you mean `", as_written(name.as_str(), space), "`?"]);
    } else if let Some(name) = meant_name(&setting.declared.entities, space, text) {
        let name = as_written(name.as_str(), space);
        hint.add_all(&[
            "did you mean {\"type\":\"Entity\",\"name\":\"",
            name,
            "\"}?",
        ]);
    } else {
        hint.add(
            "the built-in types are `Long`, `String`, `Boolean`, `Set`, `Record`, `Entity` and `Extension`",
        );
    }
}
