//! Values of types without parts. What reads them is not inlined, so that a level of nesting takes little of the call stack.
ghost use Rattle.std.specs.Prelude.{◌≡◌, Some, IfOk, option_map};
ghost use Rattle.serde_json.specs.Find.{as_bool, as_number, as_str};
ghost use Rattle.serde_json.specs.View.{view};
ghost use Rattle.cedar_conform_values.specs.Reads.{Reads};
ghost use Rattle.cedar_conform_values.specs.Uids.{uid_object};
ghost use Rattle.cedar_conform_values.specs.Values.{call_text, entity_read, extension_read, extension_text, long_read, text_read, truth_read};

use crate::conform_fault::ConformFault;
use crate::object::{inside, size_of, text_at};
use crate::uid::uid_object;
use cedar_ext::ExtensionType;
use cedar_schema_types::Truth;
use cedar_value::{Name, Text, Uid, Value};
use serde_json::Value as Json;
use std::alloc::{AllocError, Global};

/// A Boolean, as far as what is known of it allows.
#[inline(never)]
pub(crate) fn read_truth(truth: Truth, json: &Json) -> Result<Value, ConformFault>
    ensures { Reads result (truth_read truth (as_bool (view json.now))) }
{
    let Some(found) = json.as_bool() else {
        return Err(ConformFault::WrongType);
    };
    match (truth, found) {
        (Truth::True, false) => Err(ConformFault::WrongType),
        (Truth::False, true) => Err(ConformFault::WrongType),
        _ => Ok(Value::boolean(found)),
    }
}

/// A whole number of 64 bits.
#[inline(never)]
pub(crate) fn read_long(json: &Json) -> Result<Value, ConformFault>
    ensures { Reads result (long_read (as_number (view json.now))) }
{
    let Some(number) = json.as_number() else {
        return Err(ConformFault::WrongType);
    };
    match number.as_i64() {
        Some(whole) => Ok(Value::long(whole)),
        None => Err(ConformFault::NumberRange),
    }
}

/// A string.
#[inline(never)]
pub(crate) fn read_text(alloc: Global, json: &Json) -> Result<Value, ConformFault>
    ensures { Reads result (text_read (as_str (view json.now))) }
{
    match json.as_str() {
        Some(text) => text_value(alloc, text),
        None => Err(ConformFault::WrongType),
    }
}

/// The value of a string.
#[inline(always)]
pub(crate) fn text_value(alloc: Global, text: &str) -> Result<Value, ConformFault>
    ensures { Reads result (text_read (Some text.now)) }
{
    Ok(Value::string(Text::read(alloc, text)?))
}

/// A uid of the type.
#[inline(never)]
pub(crate) fn read_entity(alloc: Global, name: &Name, json: &Json) -> Result<Value, ConformFault>
    ensures { Reads result (entity_read name.now (uid_object (view json.now))) }
{
    let Some(found) = uid_object(json) else {
        return Err(ConformFault::WrongType);
    };
    if found.ty != name.as_str() {
        return Err(ConformFault::WrongType);
    }
    Ok(Value::uid(alloc, uid_of(alloc, name, found.id)?)?)
}

// The uid of a type with this id.
fn uid_of(alloc: Global, name: &Name, id: &str) -> Result<Uid, AllocError>
    ensures { IfOk result (λ u. (u.ty ≡ name.now) × (u.id ≡ id.now)) }
{
    Ok(Uid {
        ty: name.try_clone(alloc)?,
        id: Text::read(alloc, id)?,
    })
}

/// A value of an extension type.
#[inline(never)]
pub(crate) fn read_extension(ty: ExtensionType, json: &Json) -> Result<Value, ConformFault>
    ensures { Reads result (extension_read ty (extension_text ty (view json.now))) }
{
    match extension_text(ty, json) {
        Some(text) => extension_value(ty, text),
        None => Err(ConformFault::WrongType),
    }
}

/// The value of an extension type that a string writes.
#[inline(always)]
pub(crate) fn extension_value(ty: ExtensionType, text: &str) -> Result<Value, ConformFault>
    ensures { Reads result (extension_read ty (Some text.now)) }
{
    match ty.read(text) {
        Some(value) => Ok(Value::extension(value)),
        None => Err(ConformFault::WrongType),
    }
}

// The string of a value of an extension type: the JSON itself, or the argument of a call.
fn extension_text(ty: ExtensionType, json: &Json) -> Option<&str>
    ensures { option_map (λ s. s.now) result ≡ extension_text ty (view json.now) }
{
    match json.as_str() {
        Some(text) => Some(text),
        None => call_text(ty, inside(json, "__extn")),
    }
}

fn call_text(ty: ExtensionType, json: &Json) -> Option<&str>
    ensures { option_map (λ s. s.now) result ≡ call_text ty (view json.now) }
{
    if size_of(json) != 2 {
        return None;
    }
    match text_at(json, "fn") {
        Some(name) => {
            if name == ty.constructor() {
                text_at(json, "arg")
            } else {
                None
            }
        }
        None => None,
    }
}
