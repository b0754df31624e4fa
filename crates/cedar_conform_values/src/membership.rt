//! Whether a value belongs to a type.
ghost use Rattle.std.specs.Prelude.{◌≡◌, ◌↔◌, IsTrue, option_map};
ghost use Rattle.std.specs.List.{list_all};
ghost use Rattle.cedar_schema_types.specs.Membership.{Member};
ghost use Rattle.cedar_schema_types.specs.TypeKind.{attributes_of};
ghost use Rattle.cedar_schema_types.specs.Types.{record_of};
ghost use Rattle.cedar_value.specs.Datum.{fields_of, record_of as record_value};
ghost use Rattle.cedar_conform_values.specs.Values.{allows};
ghost use Rattle.cedar_conform_values.specs.Private.MemberTest.{are_fields, behind, is_member, unless_required};

use cedar_schema_types::{Attribute, RecordType, Truth, Type, TypeKind};
use cedar_value::{Record, SharedText, Value, ValueKind};
use std::cmp::Ordering;

/// Whether the value belongs to the type (cedar-spec, Lean: Cedar.Validation, instances of types). Takes no memory. The time
/// grows with the sizes of the two: the keys of a record and the names of its type are walked side by side.
pub fn is_member(value: &Value, ty: &Type) -> bool
    ensures { IsTrue result ↔ Member ty.now value.now }
{
    // The attributes of each record type ascend, and so do the members and keys of the value.
    ty.order();
    value.well_formedness();
    belongs(ty, value)
}

/// Whether the record belongs to the record type, as `is_member` says of values. Takes no memory.
pub fn is_record_member(record: &Record, ty: &RecordType) -> bool
    ensures { IsTrue result ↔ Member (record_of ty.now) (record_value (fields_of record.now)) }
{
    // The attributes of each record type ascend, and so do the keys of the record.
    ty.order();
    record.well_formedness();
    are_fields(ty.attributes(), record.pairs())
}

#[cycle(member)]
fn belongs(ty: &Type, value: &Value) -> bool
    ensures { result ≡ is_member ty.now value.now }
{
    match (ty.kind(), value.kind()) {
        (TypeKind::Boolean(truth), ValueKind::Boolean(found)) => allows(*truth, *found),
        (TypeKind::Long, ValueKind::Long(_)) => true,
        (TypeKind::String, ValueKind::String(_)) => true,
        (TypeKind::Entity(name), ValueKind::Uid(uid)) => uid.ty == *name,
        (TypeKind::Set(member), ValueKind::Set(set)) => all_belong(member, set.members()),
        (TypeKind::Record(attributes), ValueKind::Record(record)) => {
            are_fields(attributes.attributes(), record.pairs())
        }
        (TypeKind::Extension(ty), ValueKind::Extension(value)) => value.ty().same(*ty),
        _ => false,
    }
}

fn allows(truth: Truth, found: bool) -> bool
    ensures { result ≡ allows truth found }
{
    match truth {
        Truth::True => found,
        Truth::False => !found,
        Truth::Any => true,
    }
}

#[cycle(member)]
fn all_belong(member: &Type, values: &[Value]) -> bool
    ensures { result ≡ list_all (is_member member.now) values.now }
{
    let mut rest = values;
    'walk: while let Some((value, others)) = rest.split_first() {
        if !belongs(member, value) {
            return false;
        }
        rest = others;
    }
    true
}

#[cycle(member)]
fn are_fields(attributes: &[Attribute], pairs: &[(SharedText, Value)]) -> bool
    ensures { result ≡ are_fields (attributes_of attributes.now) pairs.now }
{
    let mut rest = attributes;
    let mut left = pairs;
    'walk: while let Some((attribute, others)) = rest.split_first() {
        match behind(attribute, left) {
            Some(later) => left = later,
            None => return false,
        }
        rest = others;
    }
    left.is_empty()
}

// The pairs after the one at the attribute's name. None where that pair may not be there.
#[cycle(member)]
fn behind<'p>(
    attribute: &Attribute,
    pairs: &'p [(SharedText, Value)],
) -> Option<&'p [(SharedText, Value)]>
    ensures { option_map (λ ps. ps.now) result ≡ behind attribute.now.name attribute.now.required (is_member attribute.now.ty) pairs.now }
{
    match pairs.split_first() {
        Some((pair, others)) => match attribute.name.cmp(&pair.0) {
            Ordering::Less => unless_required(attribute, pairs),
            Ordering::Equal => {
                if belongs(&attribute.ty, &pair.1) {
                    Some(others)
                } else {
                    None
                }
            }
            Ordering::Greater => None,
        },
        None => unless_required(attribute, pairs),
    }
}

fn unless_required<'p>(
    attribute: &Attribute,
    pairs: &'p [(SharedText, Value)],
) -> Option<&'p [(SharedText, Value)]>
    ensures { option_map (λ ps. ps.now) result ≡ unless_required attribute.now.required pairs.now }
{
    if attribute.required {
        None
    } else {
        Some(pairs)
    }
}
