//! Words for what a type wants, and what is there instead.
use crate::found::add_found;
use crate::shown::{add_beginning, add_quoted};
use crate::uid_words::is_uid_object;
use crate::words::Words;
use base_places::Draft;
use cedar_conform_values::{size_of, text_at, uid_of_object, written_uid};
use cedar_ext::ExtensionType;
use cedar_schema_types::{Type, TypeKind};
use cedar_value::Name;
use serde_json::Value as Json;
use std::alloc::{AllocError, Global};

// Adds `of type` and the name of an entity type.
fn add_of_type(out: &mut Draft, name: &Name) {
    out.add_all(&[" of type `", name.as_str(), "`"]);
}

// Adds what the members of a set are.
fn add_members(out: &mut Draft, member: &Type) {
    match member.kind() {
        TypeKind::Boolean(_) => out.add("Booleans"),
        TypeKind::Long => out.add("Longs"),
        TypeKind::String => out.add("Strings"),
        TypeKind::Extension(extension) => out.add(extension.many()),
        TypeKind::Record(_) => out.add("records"),
        TypeKind::Set(_) => out.add("sets"),
        TypeKind::Entity(name) => {
            out.add("entities");
            add_of_type(out, name);
        }
    }
}

// Adds what a type wants, for example `a Long` or `a set of Strings`.
fn add_wanted(out: &mut Draft, ty: &Type) {
    match ty.kind() {
        TypeKind::Boolean(_) => out.add("a Boolean"),
        TypeKind::Long => out.add("a Long"),
        TypeKind::String => out.add("a String"),
        TypeKind::Extension(extension) => out.add(extension.one()),
        TypeKind::Record(_) => out.add("a record"),
        TypeKind::Set(member) => {
            out.add("a set of ");
            add_members(out, member);
        }
        TypeKind::Entity(name) => {
            out.add("an entity");
            add_of_type(out, name);
        }
    }
}

// Adds what a JSON is instead of a Long.
fn add_no_long(out: &mut Draft, json: &Json) {
    match json {
        Json::Number(number) => {
            out.add_display(number);
            out.add(", which is not a 64-bit integer");
        }
        _ => add_found(out, json),
    }
}

// The string that a JSON writes where a value of an extension type is wanted: its own, or the argument of a call of the constructor.
fn extension_text(ty: ExtensionType, json: &Json) -> Option<&str> {
    if let Json::String(text) = json {
        return Some(text.as_str());
    }
    let call = match json.get("__extn") {
        Some(inner) => inner,
        None => json,
    };
    match text_at(call, "fn") {
        Some(name) if name == ty.constructor() && size_of(call) == 2 => text_at(call, "arg"),
        _ => None,
    }
}

// Adds what a JSON is instead of a value of an extension type.
fn add_no_extension(out: &mut Draft, ty: ExtensionType, json: &Json) {
    match extension_text(ty, json) {
        Some(text) => {
            out.add("the string ");
            add_beginning(out, text);
        }
        None => add_found(out, json),
    }
}

// Adds what a JSON is instead of an entity of the wanted type.
fn add_no_entity(alloc: Global, out: &mut Draft, json: &Json) -> Result<(), AllocError> {
    match uid_of_object(alloc, json)? {
        Some(uid) => {
            out.add("one");
            add_of_type(out, &uid.ty);
        }
        None => add_found(out, json),
    }
    Ok(())
}

/// Says of a JSON that is refused as a value of a type what is expected, and what is found.
pub(crate) fn say_value(
    alloc: Global,
    says: &mut Draft,
    ty: &Type,
    json: &Json,
) -> Result<(), AllocError> {
    says.add("expected ");
    add_wanted(says, ty);
    says.add(", found ");
    match ty.kind() {
        TypeKind::Entity(_) => return add_no_entity(alloc, says, json),
        TypeKind::Long => add_no_long(says, json),
        TypeKind::Extension(extension) => add_no_extension(says, *extension, json),
        _ => add_found(says, json),
    }
    Ok(())
}

// Adds a uid as an object.
fn add_object(hint: &mut Draft, ty: &str, id: &str) {
    hint.add("write {\"type\":");
    add_quoted(hint, ty);
    hint.add(",\"id\":");
    add_quoted(hint, id);
    hint.add_char('}');
}

/// Hints how a uid is written as an object: that of a string that writes one, or one of this type.
pub(crate) fn hint_uid_object(
    alloc: Global,
    hint: &mut Draft,
    ty: &str,
    json: &Json,
) -> Result<(), AllocError> {
    match written_uid(alloc, json)? {
        Some(uid) => add_object(hint, uid.ty.as_str(), uid.id.as_str()),
        None => add_object(hint, ty, "x"),
    }
    Ok(())
}

// The hint for a string where a Long or a Boolean is wanted, if it writes one.
fn unquoted_hint(ty: &Type, text: &str) -> Option<&'static str> {
    match ty.kind() {
        TypeKind::Boolean(_) if text == "true" || text == "false" => {
            Some("write it without quotes")
        }
        TypeKind::Long if text.parse::<i64>().is_ok() => Some("write it without quotes"),
        _ => None,
    }
}

// How to write a value of an extension type.
fn extension_hint(ty: ExtensionType, json: &Json) -> &'static str {
    match (ty, json) {
        (ExtensionType::Decimal, Json::Number(_)) => {
            "write a string of digits, a point and one to four digits, for example \"9.5\""
        }
        (ExtensionType::Decimal, Json::Object(_)) if extension_text(ty, json).is_none() => {
            "write \"9.5\", or {\"__extn\":{\"fn\":\"decimal\",\"arg\":\"9.5\"}}"
        }
        (ExtensionType::Decimal, _) => {
            "write digits, a point and one to four digits, for example \"9.5\""
        }
        (ExtensionType::Ip, _) => {
            "write an address, perhaps with a prefix, for example \"10.0.0.1\" or \"10.0.0.0/8\""
        }
        (ExtensionType::Datetime, _) => {
            "write a date, or a date and a time, for example \"2024-10-15\" or \"2024-10-15T11:35:00Z\""
        }
        (ExtensionType::Duration, _) => {
            "write numbers of `d`, `h`, `m`, `s` and `ms` in this order, for example \"1d12h\""
        }
    }
}

// The hint that a type has in words of its own.
fn fixed_hint(ty: &Type, json: &Json) -> Option<&'static str> {
    match (ty.kind(), json) {
        (_, Json::Null) => Some(
            "Cedar has no null: leave out an optional attribute that has no value",
        ),
        (TypeKind::Extension(extension), _) => Some(extension_hint(*extension, json)),
        (TypeKind::Set(_), _) => Some("write a set as a list"),
        (TypeKind::Record(_), _) => Some("write a record as an object"),
        (_, Json::String(text)) => unquoted_hint(ty, text.as_str()),
        _ => None,
    }
}

/// The words for a JSON that is refused as a value of a type, with what to do about it where one thing is likely.
pub(crate) fn add_value_words(
    alloc: Global,
    words: &mut Words,
    ty: &Type,
    json: &Json,
) -> Result<(), AllocError> {
    say_value(alloc, &mut words.says, ty, json)?;
    if let TypeKind::Entity(name) = ty.kind()
        && !matches!(json, Json::Null)
        && !is_uid_object(alloc, json)?
    {
        return hint_uid_object(alloc, &mut words.hint, name.as_str(), json);
    }
    if let Some(hint) = fixed_hint(ty, json) {
        words.hint.add(hint);
    }
    Ok(())
}
