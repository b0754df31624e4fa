//! The join of two types.
ghost use Rattle.std.specs.Prelude.{◌≡◌, option_map, IfOk};
ghost use Rattle.cedar_schema_types.specs.Joining.{join, join_attributes, join_truths};
ghost use Rattle.cedar_schema_types.specs.TypeKind.{attributes_of};
ghost use Rattle.cedar_schema_types.specs.Private.JoinsAttribute.{JoinsAttribute};

use crate::attribute::Attribute;
use crate::record_type::RecordType;
use crate::truth::Truth;
use crate::types::{Type, TypeKind};
use std::alloc::{AllocError, Global};

fn join_truths(left: Truth, right: Truth) -> Truth
    ensures { result ≡ join_truths left right }
{
    if left == right { left } else { Truth::Any }
}

/// The type that two types join to. None where they do not join. Booleans of unlike forms join to any Boolean, sets by their
/// members, and records of the same keys and the same requiredness key by key. Other types join only where they are equal
/// (Cedar documentation, strict validation; cedar-spec, Lean: Cedar.Validation, least upper bounds).
#[cycle(join)]
pub fn join(alloc: Global, left: &Type, right: &Type) -> Result<Option<Type>, AllocError>
    ensures { IfOk result (λ joined. joined ≡ join left.now right.now) }
{
    match (left.kind(), right.kind()) {
        (TypeKind::Boolean(one), TypeKind::Boolean(two)) => {
            Ok(Some(Type::new(TypeKind::Boolean(join_truths(*one, *two)))))
        }
        (TypeKind::Long, TypeKind::Long) => Ok(Some(Type::new(TypeKind::Long))),
        (TypeKind::String, TypeKind::String) => Ok(Some(Type::new(TypeKind::String))),
        (TypeKind::Entity(one), TypeKind::Entity(two)) => {
            if one == two {
                Ok(Some(Type::new(TypeKind::Entity(one.try_clone(alloc)?))))
            } else {
                Ok(None)
            }
        }
        (TypeKind::Extension(one), TypeKind::Extension(two)) => {
            if one.same(*two) {
                Ok(Some(Type::new(TypeKind::Extension(*one))))
            } else {
                Ok(None)
            }
        }
        (TypeKind::Set(one), TypeKind::Set(two)) => match join(alloc, one, two)? {
            None => Ok(None),
            Some(member) => Ok(Some(Type::new(TypeKind::Set(Box::new(alloc, member)?)))),
        },
        (TypeKind::Record(one), TypeKind::Record(two)) => {
            match join_attributes(alloc, one.attributes(), two.attributes())? {
                None => Ok(None),
                Some(attributes) => Ok(Some(Type::new(TypeKind::Record(RecordType::from_ascending(
                    attributes,
                ))))),
            }
        }
        _ => Ok(None),
    }
}

// The join of two attributes.
#[cycle(join)]
fn join_attribute(
    alloc: Global,
    left: &Attribute,
    right: &Attribute,
) -> Result<Option<Attribute>, AllocError>
    ensures { IfOk result (λ joined. JoinsAttribute joined left.now right.now) }
{
    if left.name != right.name {
        return Ok(None);
    }
    if left.required != right.required {
        return Ok(None);
    }
    match join(alloc, &left.ty, &right.ty)? {
        None => Ok(None),
        Some(ty) => Ok(Some(Attribute {
            name: left.name.share()?,
            ty,
            required: left.required,
        })),
    }
}

// The join of two lists of attributes, one by one.
#[cycle(join)]
fn join_attributes(
    alloc: Global,
    left: &[Attribute],
    right: &[Attribute],
) -> Result<Option<Vec<Attribute>>, AllocError>
    ensures { IfOk result (λ joined. option_map (λ v. attributes_of v.items) joined
        ≡ join_attributes (attributes_of left.now) (attributes_of right.now)) }
{
    if left.len() != right.len() {
        return Ok(None);
    }
    let mut joined = Vec::new(alloc);
    for i in 0..left.len() {
        match join_attribute(alloc, &left[i], &right[i])? {
            None => return Ok(None),
            Some(attribute) => joined.push(attribute)?,
        }
    }
    Ok(Some(joined))
}
