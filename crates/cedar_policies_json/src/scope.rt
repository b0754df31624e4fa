//! Scopes from JSON.
ghost use Rattle.std.specs.Prelude.{◌≡◌, IfOk, option_and_then, option_map};
ghost use Rattle.serde_json.specs.Find.{get};
ghost use Rattle.serde_json.specs.View.{items_view, view};
ghost use Rattle.cedar_policies_json.specs.Statements.{action_in, action_scope_of, action_scope_read, entity_scope_of, entity_scope_read, inner_reference, is_scope_read, reference_at, reference_in, scope_read, slot_read};
ghost use Rattle.cedar_policies_json.specs.Parts.{each_read, uid_read};
ghost use Rattle.std.specs.Prelude.{codes};

use crate::form::slot_named;
use crate::parts::{name_at, read_uid};
use cedar_ast::{ActionScope, EntityScope, Scope, Uids};
use cedar_conform_values::{size_of, text_at};
use cedar_parser_tokens::WrittenUid;
use cedar_parser_tree::{Reference, WrittenActionScope, WrittenEntityScope, WrittenScope};
use serde_json::Value;
use std::alloc::{AllocError, Global};

/// The scope of an object at `principal`, `action` and `resource`.
pub(crate) fn read_scope(alloc: Global, json: &Value) -> Result<Option<WrittenScope>, AllocError>
    ensures { IfOk result (λ found. found ≡ scope_read (view json.now)) }
{
    let Some(principal) = entity_scope_at(alloc, json, "principal")? else {
        return Ok(None);
    };
    let Some(action) = action_scope_at(alloc, json)? else {
        return Ok(None);
    };
    let Some(resource) = entity_scope_at(alloc, json, "resource")? else {
        return Ok(None);
    };
    Ok(Some(Scope {
        principal,
        action,
        resource,
    }))
}

// What is required at a key of the principal or the resource.
fn entity_scope_at(
    alloc: Global,
    json: &Value,
    key: &str,
) -> Result<Option<WrittenEntityScope>, AllocError>
    ensures { IfOk result (λ found. found ≡ option_and_then entity_scope_read (get key.now (view json.now))) }
{
    match json.get(key) {
        Some(scope) => read_entity_scope(alloc, scope),
        None => Ok(None),
    }
}

fn read_entity_scope(alloc: Global, json: &Value) -> Result<Option<WrittenEntityScope>, AllocError>
    ensures { IfOk result (λ found. found ≡ entity_scope_read (view json.now)) }
{
    match text_at(json, "op") {
        Some(op) => entity_scope_of(alloc, op, json),
        None => Ok(None),
    }
}

#[tactic(auto, unfolding(crate::specs::Statements::entity_scope_of))]
fn entity_scope_of(
    alloc: Global,
    op: &str,
    json: &Value,
) -> Result<Option<WrittenEntityScope>, AllocError>
    ensures { IfOk result (λ found. found ≡ entity_scope_of op.now (view json.now)) }
{
    let size = size_of(json);
    match op {
        "All" if size == 1 => Ok(Some(EntityScope::Any)),
        "==" if size == 2 => Ok(reference_at(alloc, json)?.map(EntityScope::Equal)),
        "in" if size == 2 => Ok(reference_at(alloc, json)?.map(EntityScope::In)),
        "is" => read_is_scope(alloc, json),
        _ => Ok(None),
    }
}

// `is`, with or without `in`.
fn read_is_scope(alloc: Global, json: &Value) -> Result<Option<WrittenEntityScope>, AllocError>
    ensures { IfOk result (λ found. found ≡ is_scope_read (view json.now)) }
{
    let size = size_of(json);
    if size != 2 && size != 3 {
        return Ok(None);
    }
    let Some(ty) = name_at(alloc, json, "entity_type")? else {
        return Ok(None);
    };
    if size == 2 {
        return Ok(Some(EntityScope::Is(ty)));
    }
    match inner_reference_at(alloc, json)? {
        Some(reference) => Ok(Some(EntityScope::IsIn(ty, reference))),
        None => Ok(None),
    }
}

// What the object at `in` refers to.
fn inner_reference_at(alloc: Global, json: &Value) -> Result<Option<Reference>, AllocError>
    ensures { IfOk result (λ found. found ≡ option_and_then inner_reference (get (codes "in") (view json.now))) }
{
    match json.get("in") {
        Some(inner) if size_of(inner) == 1 => reference_at(alloc, inner),
        _ => Ok(None),
    }
}

// The entity or the slot of an object.
fn reference_at(alloc: Global, json: &Value) -> Result<Option<Reference>, AllocError>
    ensures { IfOk result (λ found. found ≡ reference_at (view json.now)) }
{
    match json.get("entity") {
        Some(entity) => match read_uid(alloc, entity)? {
            Some(uid) => Ok(Some(Reference::Entity(uid))),
            None => Ok(None),
        },
        None => Ok(slot_at(json)),
    }
}

fn slot_at(json: &Value) -> Option<Reference>
    ensures { result ≡ option_and_then slot_read (get (codes "slot") (view json.now)) }
{
    let text = json.get("slot")?.as_str()?;
    let variable = slot_named(text)?;
    Some(Reference::Slot(0, variable))
}

// What is required of the action.
fn action_scope_at(alloc: Global, json: &Value) -> Result<Option<WrittenActionScope>, AllocError>
    ensures { IfOk result (λ found. found ≡ option_and_then action_scope_read (get (codes "action") (view json.now))) }
{
    let Some(scope) = json.get("action") else {
        return Ok(None);
    };
    match text_at(scope, "op") {
        Some(op) => action_scope_of(alloc, op, scope),
        None => Ok(None),
    }
}

#[tactic(auto, unfolding(crate::specs::Statements::action_scope_of))]
fn action_scope_of(
    alloc: Global,
    op: &str,
    json: &Value,
) -> Result<Option<WrittenActionScope>, AllocError>
    ensures { IfOk result (λ found. found ≡ action_scope_of op.now (view json.now)) }
{
    let size = size_of(json);
    match op {
        "All" if size == 1 => Ok(Some(ActionScope::Any)),
        "==" if size == 2 => Ok(entity_at(alloc, json)?.map(ActionScope::Equal)),
        "in" if size == 2 => action_in(alloc, json),
        _ => Ok(None),
    }
}

fn entity_at(alloc: Global, json: &Value) -> Result<Option<WrittenUid>, AllocError>
    ensures { IfOk result (λ found. found ≡ option_and_then uid_read (get (codes "entity") (view json.now))) }
{
    match json.get("entity") {
        Some(entity) => read_uid(alloc, entity),
        None => Ok(None),
    }
}

// What the action is in: an entity, or one of several.
fn action_in(alloc: Global, json: &Value) -> Result<Option<WrittenActionScope>, AllocError>
    ensures { IfOk result (λ found. found ≡ action_in (get (codes "entity") (view json.now)) (view json.now)) }
{
    match json.get("entity") {
        Some(entity) => match read_uid(alloc, entity)? {
            Some(uid) => Ok(Some(ActionScope::In(uid))),
            None => Ok(None),
        },
        None => action_in_set(alloc, json),
    }
}

fn action_in_set(alloc: Global, json: &Value) -> Result<Option<WrittenActionScope>, AllocError>
    ensures { IfOk result (λ found. found ≡ action_in Rattle.std.specs.Prelude.None (view json.now)) }
{
    let Some(entities) = json.get("entities") else {
        return Ok(None);
    };
    let Some(items) = entities.as_array() else {
        return Ok(None);
    };
    match read_uids(alloc, items)? {
        Some(uids) => Ok(Some(ActionScope::InSet(Uids::new(uids)))),
        None => Ok(None),
    }
}

fn read_uids(alloc: Global, items: &[Value]) -> Result<Option<Vec<WrittenUid>>, AllocError>
    ensures { IfOk result (λ found. option_map (λ v. v.items) found ≡ each_read uid_read (items_view items.now)) }
{
    let mut found = Vec::new(alloc);
    let mut rest = items;
    'walk: while let Some((item, others)) = rest.split_first() {
        let Some(uid) = read_uid(alloc, item)? else {
            return Ok(None);
        };
        found.push(uid)?;
        rest = others;
    }
    Ok(Some(found))
}
