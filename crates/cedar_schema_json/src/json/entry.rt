//! The declarations of a schema's JSON, as flat lists.
ghost use Rattle.std.specs.Prelude.{◌≡◌, ◌++◌, [], map, IfOk, OnOk, MatchResult, Some, None, option_map, string_bytes};
ghost use Rattle.serde_json.specs.View.{view, members_view};
ghost use Rattle.serde_json.specs.Find.{get, as_object};
ghost use Rattle.cedar_schema_json.specs.Faults.{Told};
ghost use Rattle.cedar_schema_json.specs.Entries.{entries, entries_in, section, whole_names, namespace_faults, space_faults, root_faults, object_faults, key_text_faults, entity_key_faults, common_key_faults, is_declared, is_kept, shadow_faults, shadows};
ghost use Rattle.cedar_schema_json.specs.Reads.{scope_of};
ghost use Rattle.cedar_schema_json.specs.EntryView.{entries_view, entry_of};

use crate::form::kind::{Kind, kind_named};
use crate::json::naming::{has_colon, qualified, read_name};
use crate::json::part::{Part, check_part};
use crate::json::scope::Scope;
use crate::schema_fault::SchemaFault;
use cedar_ext::Language;
use cedar_value::Name;
use serde_json::{Map, Value};
use std::alloc::{AllocError, Global};

/// The value at a key of a section, and the namespace that the section is of.
#[derive(Clone, Copy)]
pub struct Entry<'a> {
    /// The namespace.
    pub namespace: &'a str,
    /// The key.
    pub key: &'a str,
    /// The value at the key.
    pub body: &'a Value,
}

/// The entries of all sections with this key, in the order of the JSON.
pub fn entries_of<'a>(
    alloc: Global,
    root: &'a Map<String, Value>,
    section: &str,
) -> Result<Vec<Entry<'a>>, AllocError>
    ensures { IfOk result (λ v. entries_view v.items ≡ entries section.now (members_view root.now.entries)) }
{
    let mut found = Vec::new(alloc);
    for (namespace, space) in root.iter() {
        push_section(&mut found, namespace, space, section)?;
    }
    Ok(found)
}

fn push_section<'a>(
    found: &mut Vec<Entry<'a>>,
    namespace: &'a String,
    space: &'a Value,
    key: &str,
) -> Result<(), AllocError>
    ensures { OnOk result (entries_view found.new.items
        ≡ entries_view found.old.items ++ entries_in (string_bytes namespace.now) (section key.now (view space.now))) }
{
    match space.get(key).and_then(Value::as_object) {
        Some(members) => push_entries(found, namespace.as_str(), members),
        None => Ok(()),
    }
}

fn push_entries<'a>(
    found: &mut Vec<Entry<'a>>,
    namespace: &'a str,
    members: &'a Map<String, Value>,
) -> Result<(), AllocError>
    ensures { OnOk result (entries_view found.new.items
        ≡ entries_view found.old.items ++ entries_in namespace.now (members_view members.now.entries)) }
{
    for (key, body) in members.iter() {
        found.push(Entry {
            namespace,
            key: key.as_str(),
            body,
        })?;
    }
    Ok(())
}

/// The full names of what the entries declare.
pub fn names_of(alloc: Global, entries: &[Entry<'_>]) -> Result<Vec<Name>, AllocError>
    ensures { IfOk result (λ v. v.items ≡ whole_names (entries_view entries.now)) }
{
    let mut names = Vec::new(alloc);
    for entry in entries {
        names.push(qualified(alloc, entry.namespace, entry.key)?)?;
    }
    Ok(names)
}

/// Refuses a namespace whose name is wrong, and a value that is not a namespace.
///
/// # Errors
///
/// 1 when out of memory, and otherwise 302 or 306 only where that fault is in a namespace.
pub fn check_spaces(
    alloc: Global,
    language: Language,
    root: &Map<String, Value>,
) -> Result<(), SchemaFault>
    ensures { MatchResult result
        (λ _. root_faults language (members_view root.now.entries) ≡ [])
        (λ e. Told (root_faults language (members_view root.now.entries)) e) }
{
    for (namespace, space) in root.iter() {
        check_space(alloc, language, namespace.as_str(), space)?;
    }
    Ok(())
}

#[tactic(auto, unfolding(crate::specs::Entries::space_faults))]
fn check_space(
    alloc: Global,
    language: Language,
    namespace: &str,
    space: &Value,
) -> Result<(), SchemaFault>
    ensures { MatchResult result
        (λ _. space_faults language namespace.now (view space.now) ≡ [])
        (λ e. Told (space_faults language namespace.now (view space.now)) e) }
{
    check_namespace(alloc, namespace)?;
    check_part(language, Part::Namespace, space)?;
    check_section(space, "entityTypes")?;
    check_section(space, "actions")?;
    check_section(space, "commonTypes")
}

#[tactic(auto, unfolding(crate::specs::Entries::namespace_faults))]
fn check_namespace(alloc: Global, namespace: &str) -> Result<(), SchemaFault>
    ensures { MatchResult result
        (λ _. namespace_faults namespace.now ≡ [])
        (λ e. Told (namespace_faults namespace.now) e) }
{
    if namespace.is_empty() {
        return Ok(());
    }
    read_name(alloc, namespace)?;
    Ok(())
}

fn check_section(space: &Value, key: &str) -> Result<(), SchemaFault>
    ensures { MatchResult result
        (λ _. object_faults (get key.now (view space.now)) ≡ [])
        (λ e. Told (object_faults (get key.now (view space.now))) e) }
{
    match space.get(key) {
        Some(section) if !section.is_object() => Err(SchemaFault::Shape),
        _ => Ok(()),
    }
}

// Refuses a key that is not an identifier.
#[tactic(auto, unfolding(crate::specs::Entries::key_text_faults))]
fn check_key(alloc: Global, key: &str) -> Result<(), SchemaFault>
    ensures { MatchResult result
        (λ _. key_text_faults key.now ≡ [])
        (λ e. Told (key_text_faults key.now) e) }
{
    read_name(alloc, key)?;
    if has_colon(key) {
        Err(SchemaFault::Shape)
    } else {
        Ok(())
    }
}

// Whether a definition of a namespace would have the name of one of the empty namespace.
#[tactic(auto, unfolding(crate::specs::Entries::shadows, crate::specs::Naming::qualified))]
fn shadows(alloc: Global, scope: &Scope<'_>, key: &str) -> Result<bool, AllocError>
    ensures { IfOk result (λ b. b ≡ shadows (scope_of scope.now) key.now) }
{
    if scope.namespace.is_empty() {
        return Ok(false);
    }
    let name = qualified(alloc, "", key)?;
    Ok(is_declared(scope, &name))
}

// Whether a full name is that of an entity type or of a common type.
fn is_declared(scope: &Scope<'_>, name: &Name) -> bool
    ensures { result ≡ is_declared (scope_of scope.now) name.now }
{
    scope.entities.place(name).is_some() || scope.commons.place(name).is_some()
}

// Refuses, in Cedar 4, a definition of a namespace that has the name of one of the empty namespace.
fn check_shadowing(alloc: Global, scope: &Scope<'_>, key: &str) -> Result<(), SchemaFault>
    ensures { MatchResult result
        (λ _. shadow_faults scope.now.language (scope_of scope.now) key.now ≡ [])
        (λ e. Told (shadow_faults scope.now.language (scope_of scope.now) key.now) e) }
{
    match scope.language {
        Language::Cedar4 if shadows(alloc, scope, key)? => Err(SchemaFault::ReservedName),
        _ => Ok(()),
    }
}

/// Refuses a key that is not a name of an entity type.
///
/// # Errors
///
/// 1 when out of memory, 302 where the key is not an identifier, 306 where it is reserved or `Action`, and in Cedar 4 where the
/// namespace is not the empty one and this has a definition of the name.
#[tactic(auto, unfolding(crate::specs::Entries::entity_key_faults))]
pub fn check_entity_key(alloc: Global, scope: &Scope<'_>, key: &str) -> Result<(), SchemaFault>
    ensures { MatchResult result
        (λ _. entity_key_faults (scope_of scope.now) key.now ≡ [])
        (λ e. Told (entity_key_faults (scope_of scope.now) key.now) e) }
{
    check_key(alloc, key)?;
    if key == "Action" {
        return Err(SchemaFault::ReservedName);
    }
    check_shadowing(alloc, scope, key)
}

// Whether no common type may have the name.
#[tactic(auto, unfolding(crate::specs::Entries::is_kept))]
fn is_kept(language: Language, key: &str) -> bool
    ensures { result ≡ is_kept language key.now }
{
    match (language, kind_named(key)) {
        (Language::Cedar4, Kind::Named) => key == "Bool",
        (Language::Profile, Kind::Named) => false,
        _ => true,
    }
}

/// Refuses a key that is not a name of a common type.
///
/// # Errors
///
/// 1 when out of memory, 302 where the key is not an identifier, 306 where it is reserved or the name of a built-in type, and in
/// Cedar 4 where the namespace is not the empty one and this has a definition of the name.
#[tactic(auto, unfolding(crate::specs::Entries::common_key_faults))]
pub fn check_common_key(alloc: Global, scope: &Scope<'_>, key: &str) -> Result<(), SchemaFault>
    ensures { MatchResult result
        (λ _. common_key_faults (scope_of scope.now) key.now ≡ [])
        (λ e. Told (common_key_faults (scope_of scope.now) key.now) e) }
{
    check_key(alloc, key)?;
    if is_kept(scope.language, key) {
        return Err(SchemaFault::ReservedName);
    }
    check_shadowing(alloc, scope, key)
}
