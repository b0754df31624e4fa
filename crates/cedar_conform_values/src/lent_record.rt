//! Records, read for a type from objects whose keys and strings are lent.
ghost use Rattle.std.specs.Prelude.{◌≡◌, [], MatchResult, option_map};
ghost use Rattle.std.specs.List.{list_all};
ghost use Rattle.serde_json.specs.Data.{no_members, string};
ghost use Rattle.serde_json.specs.Find.{get};
ghost use Rattle.base_json.specs.LentObjects.{object_view, part_view, put_all};
ghost use Rattle.cedar_schema_types.specs.TypeKind.{attributes_of};
ghost use Rattle.cedar_schema_types.specs.Types.{names_of, record_of};
ghost use Rattle.cedar_conform_values.specs.Faults.{Told};
ghost use Rattle.cedar_conform_values.specs.Reads.{Adds, Reads, ReadsRecord};
ghost use Rattle.cedar_conform_values.specs.Values.{extra_faults, field_read, fields_read, is_declared, value_read};

use crate::conform_fault::ConformFault;
use crate::scalar::{extension_value, text_value};
use crate::value::{is_declared, push_pair, read_record, read_value};
use base_json::{LentMember, LentObject, LentPart};
use cedar_schema_types::{Attribute, RecordType, Type, TypeKind};
use cedar_value::{Record, SharedText, Value};
use std::alloc::Global;

/// How many members are looked through for each attribute. A longer object becomes a tree, which takes as long at this length and less
/// beyond it.
pub const MOST_MEMBERS: usize = 1_000;

/// The record of the type that an object denotes, with the rules of [`read_value`]. An object of up to 1,000 members is read without a
/// JSON tree of it.
///
/// # Errors
///
/// Those of [`read_value`].
pub fn read_lent_record(
    alloc: Global,
    attributes: &RecordType,
    found: LentObject<'_>,
) -> Result<Record, ConformFault>
    ensures reads { ReadsRecord result (value_read (record_of attributes.now) (object_view found.entry)) }
{
    if found.members.len() > MOST_MEMBERS {
        return read_long_object(alloc, attributes, found);
    }
    read_short_record(alloc, attributes, &found)
}

// It is not inlined, so that its room is not cleared for short objects.
#[inline(never)]
fn read_long_object(
    alloc: Global,
    attributes: &RecordType,
    found: LentObject<'_>,
) -> Result<Record, ConformFault>
    ensures { ReadsRecord result (value_read (record_of attributes.now) (object_view found.entry)) }
{
    let tree = found.into_tree(alloc)?;
    read_record(alloc, attributes, &tree)
}

/// The same for an object that is lent. The time grows with the number of members for each attribute, so it is for objects of up to
/// [`MOST_MEMBERS`].
///
/// # Errors
///
/// Those of [`read_value`].
pub fn read_short_record(
    alloc: Global,
    attributes: &RecordType,
    found: &LentObject<'_>,
) -> Result<Record, ConformFault>
    ensures { ReadsRecord result (value_read (record_of attributes.now) (object_view found.now)) }
{
    match read_lent_fields(alloc, attributes.attributes(), found) {
        Ok(pairs) => {
            // Each pair is that of another key. So where there are as many as members, each key is declared.
            if pairs.len() != found.members.len() {
                check_lent_keys(attributes, found)?;
            }
            Ok(Record::from_ascending(pairs))
        }
        Err(fault) => Err(first_fault(attributes, found, fault)),
    }
}

// The fault of a key that is not declared where there is one, and otherwise that of the attributes.
#[inline(never)]
fn first_fault(attributes: &RecordType, found: &LentObject<'_>, fault: ConformFault) -> ConformFault
    requires { Told (fields_read attributes.now (object_view found.now)).faults fault }
    ensures { Told (value_read (record_of attributes.now) (object_view found.now)).faults result }
{
    match check_lent_keys(attributes, found) {
        Ok(()) => fault,
        Err(extra) => extra,
    }
}

// Refuses a key that is not declared.
#[inline(never)]
fn check_lent_keys(attributes: &RecordType, found: &LentObject<'_>) -> Result<(), ConformFault>
    ensures { MatchResult result
        (λ _. extra_faults (names_of attributes.now) (put_all found.now.members.items no_members) ≡ [])
        (λ e. Told (extra_faults (names_of attributes.now) (put_all found.now.members.items no_members)) e) }
{
    if are_declared(attributes, &found.members) {
        Ok(())
    } else {
        Err(ConformFault::ExtraAttribute)
    }
}

// Whether there are attributes of the names of all keys.
fn are_declared(attributes: &RecordType, members: &[LentMember<'_>]) -> bool
    ensures { result ≡ list_all (λ m. is_declared (names_of attributes.now) m.key.now) members.now }
{
    for member in members {
        if !is_declared(attributes, member.key) {
            return false;
        }
    }
    true
}

fn read_lent_fields(
    alloc: Global,
    attributes: &[Attribute],
    found: &LentObject<'_>,
) -> Result<Vec<(SharedText, Value)>, ConformFault>
    ensures { MatchResult result
        (λ v. ((fields_read (attributes_of attributes.now) (object_view found.now)).faults ≡ [])
        × (v.items ≡ (fields_read (attributes_of attributes.now) (object_view found.now)).pairs))
        (λ e. Told (fields_read (attributes_of attributes.now) (object_view found.now)).faults e) }
{
    // Each key is declared, so there are at most as many pairs as members.
    let mut pairs = Vec::with_capacity(alloc, found.members.len())?;
    let mut rest = attributes;
    'walk: while let Some((attribute, others)) = rest.split_first() {
        add_lent_field(alloc, &mut pairs, attribute, found)?;
        rest = others;
    }
    Ok(pairs)
}

// Adds the value at the key of an attribute.
fn add_lent_field(
    alloc: Global,
    pairs: &mut Vec<(SharedText, Value)>,
    attribute: &Attribute,
    found: &LentObject<'_>,
) -> Result<(), ConformFault>
    ensures { Adds result pairs.old.items pairs.new.items (field_read attribute.now.name attribute.now.required
        (option_map (value_read attribute.now.ty) (get attribute.now.name (object_view found.now)))) }
{
    match found.part(attribute.name.as_str()) {
        Some(part) => {
            let value = read_part(alloc, part, &attribute.ty)?;
            push_pair(pairs, &attribute.name, value)?;
            Ok(())
        }
        None => {
            if attribute.required {
                Err(ConformFault::MissingAttribute)
            } else {
                Ok(())
            }
        }
    }
}

fn read_part(alloc: Global, part: &LentPart<'_>, ty: &Type) -> Result<Value, ConformFault>
    ensures { Reads result (value_read ty.now (part_view part.now)) }
{
    match part {
        LentPart::Text(text) => read_lent_text(alloc, text, ty),
        LentPart::Other(json) => read_value(alloc, json, ty),
    }
}

fn read_lent_text(alloc: Global, text: &str, ty: &Type) -> Result<Value, ConformFault>
    ensures { Reads result (value_read ty.now (string text.now)) }
{
    match ty.kind() {
        TypeKind::String => text_value(alloc, text),
        TypeKind::Extension(extension) => extension_value(*extension, text),
        _ => Err(ConformFault::WrongType),
    }
}
