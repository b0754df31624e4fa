//! Literals of values.
ghost use Rattle.std.specs.Prelude.{◌≡◌, ◌∷◌, [], IfOk, option_map};
ghost use Rattle.serde_json.specs.View.{number_view, view};
ghost use Rattle.cedar_policies_json.specs.Expressions.{extension_read, function_called, number_read};
ghost use Rattle.cedar_policies_json.specs.Parts.{uid_read};
ghost use Rattle.cedar_parser_tree.specs.Written.{text as text_tree, entity as entity_tree};
ghost use Rattle.std.specs.Prelude.{Some};

use crate::parts::{content, read_name, read_uid};
use cedar_conform_values::{size_of, text_at};
use cedar_parser_tree::{Series, Written, WrittenKind};
use serde_json::{Number, Value};
use std::alloc::{AllocError, Global};

/// A whole number of 64 bits, with its sign.
pub(crate) fn read_number(number: &Number) -> Option<Written>
    ensures { result ≡ number_read (number_view number.now) }
{
    if let Some(natural) = number.as_u64() {
        return Some(Written::new(WrittenKind::Number(0, natural)));
    }
    match number.as_i64() {
        Some(whole) => Some(Written::new(WrittenKind::Negative(0, whole.unsigned_abs()))),
        None => None,
    }
}

/// A string.
pub(crate) fn read_text(alloc: Global, text: &str) -> Result<Written, AllocError>
    ensures { IfOk result (λ a. a ≡ text_tree (Some text.now)) }
{
    Ok(Written::new(WrittenKind::Text(content(alloc, text)?)))
}

/// The uid at `__entity`.
pub(crate) fn read_entity(alloc: Global, json: &Value) -> Result<Option<Written>, AllocError>
    ensures { IfOk result (λ found. found ≡ option_map entity_tree (uid_read (view json.now))) }
{
    match read_uid(alloc, json)? {
        Some(uid) => Ok(Some(Written::new(WrittenKind::Entity(uid)))),
        None => Ok(None),
    }
}

/// The call of a function of one string.
pub(crate) fn read_extension(alloc: Global, json: &Value) -> Result<Option<Written>, AllocError>
    ensures { IfOk result (λ found. found ≡ extension_read (view json.now)) }
{
    if size_of(json) != 2 {
        return Ok(None);
    }
    let Some(name) = text_at(json, "fn") else {
        return Ok(None);
    };
    let Some(text) = text_at(json, "arg") else {
        return Ok(None);
    };
    let argument = read_text(alloc, text)?;
    function_called(alloc, name, vec![in alloc; argument]?)
}

/// The call of the function of a name.
pub(crate) fn function_called(
    alloc: Global,
    name: &str,
    arguments: Vec<Written>,
) -> Result<Option<Written>, AllocError>
    ensures { IfOk result (λ found. found ≡ function_called name.now arguments.items) }
{
    match read_name(alloc, name)? {
        Some(name) => {
            let arguments = Series::new(arguments);
            Ok(Some(Written::new(WrittenKind::Call(0, name, arguments))))
        }
        None => Ok(None),
    }
}
