//! Values, read for a type.
ghost use Rattle.std.specs.Prelude.{◌≡◌, ◌∷◌, ◌++◌, [], MatchResult, OnOk, option_map};
ghost use Rattle.serde_json.specs.Find.{as_array, get};
ghost use Rattle.serde_json.specs.View.{items_view, members_view, view};
ghost use Rattle.cedar_schema_types.specs.TypeKind.{attributes_of};
ghost use Rattle.cedar_schema_types.specs.Types.{names_of, record_of};
ghost use Rattle.cedar_conform_values.specs.Faults.{Told};
ghost use Rattle.cedar_conform_values.specs.Reads.{Adds, Reads, ReadsRecord};
ghost use Rattle.cedar_conform_values.specs.Values.{all_read, is_declared, extra_faults, field_read, fields_read, set_read, value_read};

use crate::conform_fault::ConformFault;
use crate::object::size_of;
use crate::scalar::{read_entity, read_extension, read_long, read_text, read_truth};
use cedar_schema_types::{Attribute, RecordType, Type, TypeKind};
use cedar_value::{Record, SharedText, Value, ValueSet};
use serde_json::{Map, Value as Json};
use std::alloc::{AllocError, Global};

/// The value of the type that the JSON denotes (Cedar documentation, entities and context in JSON).
///
/// # Errors
///
/// 1 when out of memory, and otherwise 504, 505, 506 or 509 only where that fault is in the JSON.
// It is inlined, so that a level of nesting takes one frame of the call stack: that of `read_set` or of `read_nested`.
#[cycle(read)]
#[inline(always)]
pub fn read_value(alloc: Global, json: &Json, ty: &Type) -> Result<Value, ConformFault>
    ensures reads { Reads result (value_read ty.now (view json.now)) }
{
    match ty.kind() {
        TypeKind::Boolean(truth) => read_truth(*truth, json),
        TypeKind::Long => read_long(json),
        TypeKind::String => read_text(alloc, json),
        TypeKind::Entity(name) => read_entity(alloc, name, json),
        TypeKind::Set(member) => read_set(alloc, member, json),
        TypeKind::Record(attributes) => read_nested(alloc, attributes, json),
        TypeKind::Extension(extension) => read_extension(*extension, json),
    }
}

#[cycle(read)]
#[inline(never)]
fn read_set(alloc: Global, member: &Type, json: &Json) -> Result<Value, ConformFault>
    ensures { Reads result (set_read (value_read member.now) (as_array (view json.now))) }
{
    match json.as_array() {
        Some(items) => {
            let members = read_members(alloc, member, items)?;
            Ok(Value::set(ValueSet::from_list(members)?))
        }
        None => Err(ConformFault::WrongType),
    }
}

#[cycle(read)]
fn read_members(alloc: Global, member: &Type, items: &[Json]) -> Result<Vec<Value>, ConformFault>
    ensures { MatchResult result
        (λ v. ((all_read (value_read member.now) (items_view items.now)).faults ≡ []) × (v.items ≡ (all_read (value_read member.now) (items_view items.now)).values))
        (λ e. Told (all_read (value_read member.now) (items_view items.now)).faults e) }
{
    let mut members = Vec::with_capacity(alloc, items.len())?;
    let mut rest = items;
    'walk: while let Some((item, others)) = rest.split_first() {
        let value = read_value(alloc, item, member)?;
        members.push(value)?;
        rest = others;
    }
    Ok(members)
}

/// The record of the type that the JSON denotes, with the rules of `read_value`.
///
/// # Errors
///
/// Those of `read_value`.
#[inline(never)]
pub fn read_record(
    alloc: Global,
    attributes: &RecordType,
    json: &Json,
) -> Result<Record, ConformFault>
    ensures reads { ReadsRecord result (value_read (record_of attributes.now) (view json.now)) }
{
    record_at(alloc, attributes, json)
}

// A record in a value.
#[cycle(read)]
#[inline(never)]
fn read_nested(alloc: Global, attributes: &RecordType, json: &Json) -> Result<Value, ConformFault>
    ensures { Reads result (value_read (record_of attributes.now) (view json.now)) }
{
    Ok(Value::record(record_at(alloc, attributes, json)?))
}

#[cycle(read)]
#[inline(always)]
fn record_at(alloc: Global, attributes: &RecordType, json: &Json) -> Result<Record, ConformFault>
    ensures { ReadsRecord result (value_read (record_of attributes.now) (view json.now)) }
{
    match json.as_object() {
        Some(members) => {
            check_keys(attributes, members)?;
            let pairs = read_fields(alloc, attributes.attributes(), json)?;
            Ok(Record::from_ascending(pairs))
        }
        None => Err(ConformFault::WrongType),
    }
}

// Refuses a key that is not declared.
#[inline(never)]
fn check_keys(attributes: &RecordType, members: &Map<String, Json>) -> Result<(), ConformFault>
    ensures { MatchResult result
        (λ _. extra_faults (names_of attributes.now) (members_view members.now.entries) ≡ [])
        (λ e. Told (extra_faults (names_of attributes.now) (members_view members.now.entries)) e) }
{
    for (key, _) in members.iter() {
        if !is_declared(attributes, key.as_str()) {
            return Err(ConformFault::ExtraAttribute);
        }
    }
    Ok(())
}

/// Whether there is an attribute of that name.
pub(crate) fn is_declared(attributes: &RecordType, key: &str) -> bool
    ensures { result ≡ is_declared (names_of attributes.now) key.now }
{
    attributes.attribute(key).is_some()
}

#[cycle(read)]
fn read_fields(
    alloc: Global,
    attributes: &[Attribute],
    json: &Json,
) -> Result<Vec<(SharedText, Value)>, ConformFault>
    ensures { MatchResult result
        (λ v. ((fields_read (attributes_of attributes.now) (view json.now)).faults ≡ []) × (v.items ≡ (fields_read (attributes_of attributes.now) (view json.now)).pairs))
        (λ e. Told (fields_read (attributes_of attributes.now) (view json.now)).faults e) }
{
    // Each key is declared, so there are as many pairs as keys.
    let mut pairs = Vec::with_capacity(alloc, size_of(json))?;
    let mut rest = attributes;
    'walk: while let Some((attribute, others)) = rest.split_first() {
        add_field(alloc, &mut pairs, attribute, json)?;
        rest = others;
    }
    Ok(pairs)
}

// Adds the value at the key of an attribute.
#[cycle(read)]
fn add_field(
    alloc: Global,
    pairs: &mut Vec<(SharedText, Value)>,
    attribute: &Attribute,
    json: &Json,
) -> Result<(), ConformFault>
    ensures { Adds result pairs.old.items pairs.new.items (field_read attribute.now.name attribute.now.required
        (option_map (value_read attribute.now.ty) (get attribute.now.name (view json.now)))) }
{
    match json.get(attribute.name.as_str()) {
        Some(found) => {
            let value = read_value(alloc, found, &attribute.ty)?;
            push_pair(pairs, &attribute.name, value)?;
            Ok(())
        }
        None => {
            if attribute.required {
                Err(ConformFault::MissingAttribute)
            } else {
                Ok(())
            }
        }
    }
}

/// Adds the pair of a key and a value.
#[inline(never)]
pub(crate) fn push_pair(
    pairs: &mut Vec<(SharedText, Value)>,
    name: &SharedText,
    value: Value,
) -> Result<(), AllocError>
    ensures { OnOk result (pairs.new.items ≡ pairs.old.items ++ (name.now, value) ∷ []) }
{
    let key = name.share()?;
    pairs.push((key, value))?;
    Ok(())
}
