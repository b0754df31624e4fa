//! Small JSON objects.
ghost use Rattle.std.specs.Prelude.{◌≡◌, option_map};
ghost use Rattle.serde_json.specs.View.{view};
ghost use Rattle.cedar_conform_values.specs.Objects.{inside, size_of, text_at};

use serde_json::Value;

/// How many members an object has, and 0 for a JSON that is not an object (RFC 8259). Takes no memory.
pub fn size_of(json: &Value) -> usize
    ensures { result ≡ size_of (view json.now) }
{
    match json.as_object() {
        Some(members) => members.len(),
        None => 0,
    }
}

/// The string at a key. None where the key is absent or has another kind of value (RFC 8259). Takes no memory.
pub fn text_at<'v>(json: &'v Value, key: &str) -> Option<&'v str>
    ensures { option_map (λ s. s.now) result ≡ text_at key.now (view json.now) }
{
    json.get(key).and_then(Value::as_str)
}

/// The value at the key, where the object has that key alone. Otherwise the JSON itself.
pub(crate) fn inside<'v>(json: &'v Value, key: &str) -> &'v Value
    ensures { view result.now ≡ inside key.now (view json.now) }
{
    if size_of(json) != 1 {
        return json;
    }
    match json.get(key) {
        Some(found) => found,
        None => json,
    }
}
