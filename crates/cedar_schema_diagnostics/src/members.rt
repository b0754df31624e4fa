//! The members of `memberOf`.
use crate::keys::{refused_keys, refused_text};
use crate::kinds::kind_of;
use crate::naming::refused_name;
use crate::part::{Refusal, at, part_of, part_with, remembered};
use crate::setting::Setting;
use crate::step::Step;
use crate::text::{is_plain, shown};
use crate::undeclared::{say_namespace, say_namespaces};
use base_names::Nearest;
use base_places::Draft;
use cedar_ext::Language;
use cedar_schema_json::{Part, has_colon, qualified, text_at};
use cedar_value::Uid;
use serde_json::Value;
use std::alloc::{AllocError, Global};
use std::collections::BTreeMap;

/// The part of a `memberOf` that is refused, or none.
pub(crate) fn refused_members(
    alloc: Global,
    setting: Setting<'_>,
    list: &Value,
) -> Option<Refusal> {
    let Some(members) = list.as_array() else {
        return refused_list(alloc, setting.number, list);
    };
    for (index, member) in members.iter().enumerate() {
        let found = refused_member(alloc, setting, member);
        if found.is_some() {
            return at(alloc, Step::Item(index), found);
        }
    }
    None
}

fn refused_list(alloc: Global, number: u16, list: &Value) -> Option<Refusal> {
    if number != 302 {
        return None;
    }
    let says = ["expected a list of actions, found ", kind_of(list)];
    match list.as_str() {
        Some(id) if is_plain(id) => part_of(
            alloc,
            &says,
            &["write [{\"id\":\"", shown(id), "\"}]"],
        ),
        _ => part_of(alloc, &says, &[]),
    }
}

fn refused_member(alloc: Global, setting: Setting<'_>, member: &Value) -> Option<Refusal> {
    if setting.number == 302 {
        let found = refused_shape(alloc, setting.language, member);
        if found.is_some() {
            return found;
        }
    }
    let ty = text_at(member, "type");
    if let Some(ty) = ty {
        let found = refused_name(alloc, setting.number, ty);
        if found.is_some() {
            return at(alloc, Step::Key("type"), found);
        }
    }
    match text_at(member, "id") {
        Some(id) if setting.number == 303 => {
            remembered(alloc, undeclared_action(alloc, setting, ty, id))
        }
        _ => None,
    }
}

fn refused_shape(alloc: Global, language: Language, member: &Value) -> Option<Refusal> {
    let found = refused_keys(alloc, language, Part::Member, member);
    if found.is_some() {
        return found;
    }
    let found = refused_text(alloc, member, "id", "a member of `memberOf`");
    if found.is_some() || member.get("type").is_none() {
        return found;
    }
    refused_text(alloc, member, "type", "a member of `memberOf`")
}

// What is said of an action that is not declared, or none.
fn undeclared_action(
    alloc: Global,
    setting: Setting<'_>,
    ty: Option<&str>,
    id: &str,
) -> Result<Option<Refusal>, AllocError> {
    let place = setting.declared.action(alloc, setting.namespace, ty, id)?;
    if place.is_some() {
        return Ok(None);
    }
    let own = qualified(alloc, setting.namespace, "Action")?;
    let mut says = Draft::new(alloc);
    say_undeclared(&mut says, setting.namespace, ty, id);
    let mut hint = Draft::new(alloc);
    hint_action(
        &mut hint,
        setting,
        ty.unwrap_or(own.as_str()),
        own.as_str(),
        id,
    );
    Ok(Some(part_with(alloc, says, hint)))
}

fn say_undeclared(says: &mut Draft, namespace: &str, ty: Option<&str>, id: &str) {
    let Some(ty) = ty else {
        says.add_all(&["there is no action `", shown(id), "`"]);
        say_namespace(says, namespace);
        return;
    };
    says.add_all(&["there is no action `", shown(ty), "::\"", shown(id), "\"`"]);
    if !has_colon(ty) {
        say_namespaces(says, namespace);
    }
}

// Hints at the action that is likely meant: one with the same id, or else the one with the nearest id whose type is one of two.
fn hint_action(hint: &mut Draft, setting: Setting<'_>, ty: &str, own: &str, id: &str) {
    let actions = &setting.declared.actions;
    if id.contains("::\"") {
        hint.add("write the id alone, without the type and the inner quotes");
        return;
    }
    for (uid, _) in actions.iter() {
        if uid.id.as_str() == id && is_plain(id) {
            let name = uid.ty.as_str();
            hint.add_all(&["write {\"id\":\"", id, "\",\"type\":\"", name, "\"}"]);
            return;
        }
    }
    if let Some(meant) = nearest_action(Nearest::new(id), actions, ty, own).name() {
        hint.add_all(&["did you mean `", meant, "`?"]);
    }
}

// The search with the ids of the actions whose type is one of two.
fn nearest_action<'w, 'd>(
    before: Nearest<'w, &'d str>,
    actions: &'d BTreeMap<Uid, usize>,
    ty: &str,
    own: &str,
) -> Nearest<'w, &'d str> {
    let mut nearest = before;
    for (uid, _) in actions.iter() {
        let name = uid.ty.as_str();
        if name == ty || name == own {
            nearest = nearest.compare(uid.id.as_str(), uid.id.as_str());
        }
    }
    nearest
}
