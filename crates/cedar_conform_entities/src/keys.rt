//! Which keys an entry and changes may have.
ghost use Rattle.std.specs.Prelude.{◌≡◌, ◌↔◌, IsTrue, is_some};
ghost use Rattle.serde_json.specs.Data.{no_members, object};
ghost use Rattle.serde_json.specs.Find.{as_object};
ghost use Rattle.serde_json.specs.View.{members_view, view};
ghost use Rattle.cedar_conform_values.specs.Objects.{are_only, has_only};
ghost use Rattle.cedar_conform_entities.specs.Changes.{is_change_key};
ghost use Rattle.cedar_conform_entities.specs.Entries.{attributes_in, is_entry_key, tags_in};

use serde_json::{Map, Value as Json};

/// Whether the JSON is an object whose keys are those of an entry.
pub(crate) fn has_entry_keys(json: &Json) -> bool
    ensures { result ≡ has_only is_entry_key (view json.now) }
{
    match json.as_object() {
        Some(members) => are_entry_keys(members),
        None => false,
    }
}

fn are_entry_keys(members: &Map<String, Json>) -> bool
    ensures { result ≡ are_only is_entry_key (members_view members.now.entries) }
{
    for (key, _) in members.iter() {
        if !is_entry_key(key.as_str()) {
            return false;
        }
    }
    true
}

/// Whether an entry may have the key.
#[tactic(auto, unfolding(crate::specs::Entries::is_entry_key))]
pub(crate) fn is_entry_key(key: &str) -> bool
    ensures { result ≡ is_entry_key key.now }
{
    key == "uid" || key == "attrs" || key == "parents" || key == "tags"
}

/// Whether the JSON is an object whose keys are those of changes.
pub(crate) fn has_change_keys(json: &Json) -> bool
    ensures { result ≡ has_only is_change_key (view json.now) }
{
    match json.as_object() {
        Some(members) => are_change_keys(members),
        None => false,
    }
}

fn are_change_keys(members: &Map<String, Json>) -> bool
    ensures { result ≡ are_only is_change_key (members_view members.now.entries) }
{
    for (key, _) in members.iter() {
        if !is_change_key(key.as_str()) {
            return false;
        }
    }
    true
}

#[tactic(auto, unfolding(crate::specs::Changes::is_change_key))]
fn is_change_key(key: &str) -> bool
    ensures { result ≡ is_change_key key.now }
{
    key == "upsert" || key == "remove"
}

/// Whether the value at the key of attributes is an object.
pub(crate) fn has_attributes(json: &Json) -> bool
    ensures { result ≡ is_some (as_object (attributes_in (view json.now))) }
{
    match json.get("attrs") {
        Some(found) => found.as_object().is_some(),
        None => true,
    }
}

/// Whether there are no attributes: the key is absent, or its value is an object without keys.
pub(crate) fn has_no_attributes(json: &Json) -> bool
    ensures { IsTrue result ↔ (attributes_in (view json.now) ≡ object no_members) }
{
    match json.get("attrs") {
        Some(found) => is_empty_object(found),
        None => true,
    }
}

/// Whether there are no tags: the key is absent, or its value is an object without keys.
pub(crate) fn has_no_tags(json: &Json) -> bool
    ensures { IsTrue result ↔ (tags_in (view json.now) ≡ object no_members) }
{
    match json.get("tags") {
        Some(found) => is_empty_object(found),
        None => true,
    }
}

fn is_empty_object(json: &Json) -> bool
    ensures { IsTrue result ↔ (view json.now ≡ object no_members) }
{
    match json.as_object() {
        Some(members) => members.is_empty(),
        None => false,
    }
}
