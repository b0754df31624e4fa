//! Types that are built: of sets and of records.
ghost use Rattle.std.specs.Prelude.{◌≡◌, IfOk, OnOk, option_and_then, true};
ghost use Rattle.cedar_schema_types.specs.Ordered.{with_attribute};
ghost use Rattle.cedar_schema_types.specs.Types.{set};
ghost use Rattle.cedar_check_spec.specs.Rows.{as_type};
ghost use Rattle.cedar_check_operators.specs.View.{element_view, tree_of, typing_view};

use crate::lent_type::LentType;
use crate::typing::Typing;
use cedar_schema::{Attribute, RecordType, Type, TypeKind};
use cedar_value::SharedText;
use std::alloc::{AllocError, Global};

/// The type of sets of members of this type, which gains nothing.
pub fn set_type<'a>(alloc: Global, member: Typing<'a>) -> Result<Typing<'a>, AllocError>
    ensures { IfOk result (λ t. typing_view t ≡ option_and_then (λ m. as_type (set m)) (element_view member.entry)) }
{
    let x = match member {
        Typing::Typed(x) => x,
        Typing::Refused(fault) => return Ok(Typing::Refused(fault)),
    };
    let ty = Box::new(alloc, x.ty.to_type(alloc)?)?;
    Ok(Typing::plain(alloc, LentType::Made(Type::new(TypeKind::Set(ty)))))
}

/// Puts a required attribute of this type in its place.
pub fn add_attribute<'a>(
    alloc: Global,
    attributes: &mut RecordType,
    key: &SharedText,
    ty: &LentType<'a>,
) -> Result<(), AllocError>
    ensures { OnOk result (attributes.new ≡ with_attribute key.now true (tree_of ty.now) attributes.old) }
{
    attributes.insert(Attribute {
        name: key.share()?,
        ty: ty.to_type(alloc)?,
        required: true,
    })
}
