//! The type of a record expression, from the types of its entries.
ghost use Rattle.std.specs.Prelude.{◌≡◌, ◌++◌, ◌∷◌, [], IfOk, OnOk, true};
ghost use Rattle.cedar_schema_types.specs.Ordered.{AreNamesDistinct, IsRecordOf};
ghost use Rattle.cedar_schema_types.specs.Types.{Attributes, record_of};
ghost use Rattle.cedar_check_spec.specs.Rows.{as_type};
ghost use Rattle.cedar_check_operators.specs.View.{tree_of, typing_view};

use cedar_check_operators::{LentType, Typing};
use cedar_schema::{Attribute, RecordType, Type, TypeKind};
use cedar_value::SharedText;
use std::alloc::{AllocError, Global};

// The type as one of its own. One that was built is not copied.
fn owned_type<'a>(alloc: Global, ty: LentType<'a>) -> Result<Type, AllocError>
    ensures { IfOk result (λ t. t ≡ tree_of ty.entry) }
{
    match ty {
        LentType::Boolean(truth) => Ok(Type::new(TypeKind::Boolean(truth))),
        LentType::Long => Ok(Type::new(TypeKind::Long)),
        LentType::String => Ok(Type::new(TypeKind::String)),
        LentType::Extension(extension) => Ok(Type::new(TypeKind::Extension(extension))),
        LentType::Entity(name) => Ok(Type::new(TypeKind::Entity(name.try_clone(alloc)?))),
        LentType::Lent(ty) => ty.try_clone(alloc),
        LentType::Made(ty) => Ok(ty),
    }
}

/// Adds a required attribute of this name and type to the end.
///
/// # Errors
///
/// Fails only when out of memory.
pub(crate) fn push_attribute<'a>(
    alloc: Global,
    attributes: &mut Vec<Attribute>,
    name: &SharedText,
    ty: LentType<'a>,
) -> Result<(), AllocError>
    ensures { OnOk result (attributes.new.items ≡ attributes.old.items ++ record { name = name.now; ty = tree_of ty.entry; required = true } ∷ []) }
{
    let ty = owned_type(alloc, ty)?;
    attributes.push(Attribute {
        name: name.share()?,
        ty,
        required: true,
    })?;
    Ok(())
}

/// The type of records of these attributes, in whatever order they come, which gains nothing. It takes a number of comparisons
/// that is that of the attributes, times its logarithm (Cedar documentation, strict validation).
///
/// # Errors
///
/// Fails only when out of memory.
#[inline(never)]
pub(crate) fn record_type<'a>(
    alloc: Global,
    attributes: Vec<Attribute>,
) -> Result<Typing<'a>, AllocError>
    requires { AreNamesDistinct attributes.items }
    ensures { IfOk result (λ t. (r : Attributes) × IsRecordOf attributes.items r × (typing_view t ≡ as_type (record_of r))) }
{
    let Some(attributes) = RecordType::from_attributes(attributes)? else {
        unreachable!()
    };
    let ty = Type::new(TypeKind::Record(attributes));
    Ok(Typing::plain(alloc, LentType::Made(ty)))
}
