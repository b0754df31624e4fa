//! Which keys the objects of a schema may have.
ghost use Rattle.std.specs.Prelude.{◌≡◌, [], MatchResult, Some, option_map};
ghost use Rattle.serde_json.specs.View.{view, members_view};
ghost use Rattle.serde_json.specs.Find.{get, as_object};
ghost use Rattle.cedar_schema_json.specs.Faults.{Told};
ghost use Rattle.cedar_schema_json.specs.Reading.{key_faults};
ghost use Rattle.cedar_schema_json.specs.Entries.{belongs, is_enumeration, part_faults, unless_null};

use crate::json::annotations::is_annotation;
use crate::schema_fault::SchemaFault;
use cedar_ext::Language;
use serde_json::{Map, Value};

/// An object of a schema.
#[derive(Clone, Copy, PartialEq, Eq, Debug)]
pub enum Part {
    /// A namespace.
    Namespace,
    /// An entity type.
    EntityType,
    /// An action.
    Action,
    /// What an action applies to.
    AppliesTo,
    /// A member of `memberOf`.
    Member,
}

// Whether the key is that of the ids of an enumerated entity type.
fn is_enumeration(language: Language, key: &str) -> bool
    ensures { result ≡ is_enumeration language key.now }
{
    match language {
        Language::Profile => false,
        Language::Cedar4 => key == "enum",
    }
}

#[tactic(auto, unfolding(crate::specs::Entries::belongs))]
fn belongs(language: Language, part: Part, key: &str, json: &Value) -> bool
    ensures { result ≡ belongs language part key.now (view json.now) }
{
    match part {
        Part::Namespace => {
            key == "entityTypes"
                || key == "actions"
                || key == "commonTypes"
                || is_annotation(language, key, json)
        }
        Part::EntityType => {
            key == "memberOfTypes"
                || key == "shape"
                || is_enumeration(language, key)
                || is_annotation(language, key, json)
        }
        Part::Action => {
            key == "memberOf"
                || key == "appliesTo"
                || key == "attributes"
                || is_annotation(language, key, json)
        }
        Part::AppliesTo => key == "principalTypes" || key == "resourceTypes" || key == "context",
        Part::Member => key == "id" || key == "type",
    }
}

/// Refuses, with 302, a JSON that is not an object of the keys that the part has in a language.
pub fn check_part(language: Language, part: Part, json: &Value) -> Result<(), SchemaFault>
    ensures { MatchResult result
        (λ _. part_faults language part (view json.now) ≡ [])
        (λ e. Told (part_faults language part (view json.now)) e) }
{
    match json.as_object() {
        Some(members) => check_part_keys(language, part, members),
        None => Err(SchemaFault::Shape),
    }
}

fn check_part_keys(
    language: Language,
    part: Part,
    members: &Map<String, Value>,
) -> Result<(), SchemaFault>
    ensures { MatchResult result
        (λ _. key_faults (belongs language part) (members_view members.now.entries) ≡ [])
        (λ e. Told (key_faults (belongs language part) (members_view members.now.entries)) e) }
{
    for (key, json) in members.iter() {
        if !belongs(language, part, key.as_str(), json) {
            return Err(SchemaFault::Shape);
        }
    }
    Ok(())
}

/// The value at a key, where null counts as absent.
pub fn present<'v>(json: &'v Value, key: &str) -> Option<&'v Value>
    ensures { option_map (λ v. view v.now) result ≡ unless_null (get key.now (view json.now)) }
{
    match json.get(key) {
        Some(Value::Null) => None,
        Some(found) => Some(found),
        None => None,
    }
}
