//! Objects of JSON that are put together member by member.
ghost use Rattle.std.specs.Prelude.{◌≡◌, OnOk};
ghost use Rattle.serde_json.specs.Data as data_spec;
ghost use Rattle.serde_json.specs.Data.{object, string};
ghost use Rattle.serde_json.specs.View.{view, members_view};
ghost use Rattle.cedar_schema_text.specs.Marks.{lent_marks, mark};
ghost use Rattle.cedar_schema_text.specs.Objects as spec;
ghost use Rattle.cedar_schema_text.specs.Private.Contract.{Makes};

use crate::fault::SchemaTextFault;
use crate::token::Token;
use serde_json::{Map, Value};
use std::alloc::{AllocError, Global};

/// Puts a value at a key.
pub(crate) fn put(
    alloc: Global,
    found: &mut Map<String, Value>,
    key: &str,
    value: Value,
) -> Result<(), AllocError>
    ensures { OnOk result (members_view found.new.entries ≡ data_spec.put key.now (view value) (members_view found.old.entries)) }
{
    let key = String::from_str(alloc, key)?;
    drop(found.insert(key, value)?);
    Ok(())
}

/// Puts a string at a key.
pub(crate) fn put_text(
    alloc: Global,
    found: &mut Map<String, Value>,
    key: &str,
    text: &str,
) -> Result<(), AllocError>
    ensures { OnOk result
        (members_view found.new.entries ≡ data_spec.put key.now (string text.now) (members_view found.old.entries)) }
{
    let value = Value::try_from_str(alloc, text)?;
    put(alloc, found, key, value)
}

/// Puts an object at a key.
pub(crate) fn put_object(
    alloc: Global,
    found: &mut Map<String, Value>,
    key: &str,
    value: Map<String, Value>,
) -> Result<(), AllocError>
    ensures { OnOk result
        (members_view found.new.entries ≡ data_spec.put key.now (object (members_view value.entries)) (members_view found.old.entries)) }
{
    put(alloc, found, key, Value::Object(value))
}

/// Puts a value at a key that may not be there yet.
///
/// # Errors
///
/// 311 with the place `at` where the key is there, and 1 when out of memory.
#[tactic(auto, unfolding(crate::specs::Objects::put_once))]
pub(crate) fn put_once(
    alloc: Global,
    found: &mut Map<String, Value>,
    key: &str,
    at: usize,
    value: Value,
) -> Result<(), SchemaTextFault>
    ensures { Makes (spec.put_once key.now at (view value) (members_view found.old.entries))
        result (members_view found.new.entries) }
{
    if found.contains_key(key) {
        return Err(SchemaTextFault::Twice(at));
    }
    put(alloc, found, key, value)?;
    Ok(())
}

// Puts a copy of a value at the key of a name, which may not be there yet.
fn put_copy(
    alloc: Global,
    found: &mut Map<String, Value>,
    name: &Token,
    value: &Value,
) -> Result<(), SchemaTextFault>
    ensures { Makes (spec.put_once (mark name.now).text (mark name.now).start (view value.now) (members_view found.old.entries))
        result (members_view found.new.entries) }
{
    put_once(alloc, found, name.text.as_str(), name.start, value.clone()?)
}

/// Puts a value at the key of each name, which may not be there yet.
///
/// # Errors
///
/// 311 with the place of the first name that is there, and 1 when out of memory.
pub(crate) fn put_each(
    alloc: Global,
    found: &mut Map<String, Value>,
    names: &[&Token],
    value: &Value,
) -> Result<(), SchemaTextFault>
    ensures { Makes (spec.put_each (lent_marks names.now) (view value.now) (members_view found.old.entries))
        result (members_view found.new.entries) }
{
    for name in names {
        put_copy(alloc, found, name, value)?;
    }
    Ok(())
}

/// Whether there is no member.
pub(crate) fn is_nothing(found: &Map<String, Value>) -> bool
    ensures { result ≡ spec.is_nothing (members_view found.now.entries) }
{
    found.is_empty()
}
