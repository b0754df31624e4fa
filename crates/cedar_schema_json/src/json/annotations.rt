//! Annotations of the definitions of a schema.
ghost use Rattle.std.specs.Prelude.{◌≡◌};
ghost use Rattle.serde_json.specs.View.{view, members_view};
ghost use Rattle.cedar_schema_json.specs.Annotations.{all_strings, are_strings, is_annotation};

use cedar_ext::Language;
use serde_json::{Map, Value};

/// Whether a key with its value are the annotations of a definition. The profile has none.
pub(crate) fn is_annotation(language: Language, key: &str, json: &Value) -> bool
    ensures { result ≡ is_annotation language key.now (view json.now) }
{
    match language {
        Language::Profile => false,
        Language::Cedar4 => key == "annotations" && are_strings(json),
    }
}

// Whether a JSON is an object of strings.
fn are_strings(json: &Value) -> bool
    ensures { result ≡ are_strings (view json.now) }
{
    match json.as_object() {
        Some(members) => all_strings(members),
        None => false,
    }
}

#[tactic(auto, unfolding(crate::specs::Annotations::all_strings))]
fn all_strings(members: &Map<String, Value>) -> bool
    ensures { result ≡ all_strings (members_view members.now.entries) }
{
    for (_, value) in members.iter() {
        if value.as_str().is_none() {
            return false;
        }
    }
    true
}
