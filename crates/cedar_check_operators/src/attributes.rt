//! The rows of `has` and `.`.
ghost use Rattle.std.specs.Prelude.{◌≡◌, IfOk, option_and_then, option_copied};
ghost use Rattle.cedar_schema_types.specs.Lookup.{attribute_at};
ghost use Rattle.cedar_check_spec.specs.Private.Checking.{get_type, has_type, is_held};
ghost use Rattle.cedar_check_spec.specs.Typing.{attributes_in};
ghost use Rattle.std.specs.Prelude.{◌||◌};
ghost use Rattle.cedar_check_operators.specs.View.{capability_view, held_view, tree_of, typing_view};

use crate::capabilities::is_held;
use crate::capability::Capability;
use crate::declared::declared;
use crate::lent_type::{LentType, TypeGlance};
use crate::type_fault::TypeFault;
use crate::typing::{Typed, Typing};
use cedar_schema::{Attribute, Schema, Truth};
use std::alloc::{AllocError, Global};

// The row of `has`, for what is declared.
fn has_found<'a>(
    alloc: Global,
    held: &[Capability<'a>],
    this: Capability<'a>,
    ty: &LentType<'a>,
    found: Option<&Attribute>,
) -> Result<Typing<'a>, AllocError>
    ensures { IfOk result (λ t. typing_view t ≡ has_type (held_view held.now) this.entry.on.now this.entry.key.now (tree_of ty.now) (option_copied found.entry)) }
{
    let Some(attribute) = found else {
        return Ok(Typing::plain(alloc, LentType::Boolean(Truth::False)));
    };
    if is_held(this, held) || (ty.is_record() && attribute.required) {
        return Ok(Typing::plain(alloc, LentType::Boolean(Truth::True)));
    }
    let mut gained = Vec::new(alloc);
    gained.push(this)?;
    Ok(Typing::Typed(Typed {
        ty: LentType::Boolean(Truth::Any),
        gained,
    }))
}

/// The row of `has`. It takes memory for the capability that it gains.
pub(crate) fn has_type<'a>(
    alloc: Global,
    schema: &Schema,
    held: &[Capability<'a>],
    this: Capability<'a>,
    ty: &LentType<'a>,
) -> Result<Typing<'a>, AllocError>
    ensures { IfOk result (λ t. typing_view t ≡ option_and_then (λ at. has_type (held_view held.now) this.entry.on.now this.entry.key.now (tree_of ty.now) (attribute_at this.entry.key.now at)) (attributes_in schema.now (tree_of ty.now))) }
{
    match declared(schema, ty.glance(), this.key) {
        None => Ok(Typing::Refused(TypeFault::OperandKind)),
        Some(found) => has_found(alloc, held, this, ty, found),
    }
}

// Whether the attribute may be read: it is required, or it is held.
fn may_read(held: &[Capability<'_>], this: Capability<'_>, attribute: &Attribute) -> bool
    ensures { result ≡ (attribute.now.required || is_held (capability_view this.entry) (held_view held.now)) }
{
    attribute.required || is_held(this, held)
}

// The row of `.`, for what is declared in a type that is lent.
fn get_lent<'a>(
    alloc: Global,
    held: &[Capability<'a>],
    this: Capability<'a>,
    found: Option<&'a Attribute>,
) -> Typing<'a>
    ensures { typing_view result ≡ get_type (held_view held.now) this.entry.on.now this.entry.key.now (option_copied found.entry) }
{
    let Some(attribute) = found else {
        return Typing::Refused(TypeFault::NoAttribute);
    };
    if may_read(held, this, attribute) {
        Typing::plain(alloc, LentType::Lent(&attribute.ty))
    } else {
        Typing::Refused(TypeFault::Unguarded)
    }
}

// The row of `.`, for what is declared in a type that was built.
fn get_made<'a>(
    alloc: Global,
    held: &[Capability<'a>],
    this: Capability<'a>,
    found: Option<&Attribute>,
) -> Result<Typing<'a>, AllocError>
    ensures { IfOk result (λ t. typing_view t ≡ get_type (held_view held.now) this.entry.on.now this.entry.key.now (option_copied found.entry)) }
{
    let Some(attribute) = found else {
        return Ok(Typing::Refused(TypeFault::NoAttribute));
    };
    if may_read(held, this, attribute) {
        let ty = attribute.ty.try_clone(alloc)?;
        Ok(Typing::plain(alloc, LentType::Made(ty)))
    } else {
        Ok(Typing::Refused(TypeFault::Unguarded))
    }
}

/// The row of `.`. It takes memory where the type was built.
pub(crate) fn get_type<'a>(
    alloc: Global,
    schema: &'a Schema,
    held: &[Capability<'a>],
    this: Capability<'a>,
    ty: &LentType<'a>,
) -> Result<Typing<'a>, AllocError>
    ensures { IfOk result (λ t. typing_view t ≡ option_and_then (λ at. get_type (held_view held.now) this.entry.on.now this.entry.key.now (attribute_at this.entry.key.now at)) (attributes_in schema.now (tree_of ty.now))) }
{
    match ty.lent_glance() {
        Some(glance) => match declared(schema, glance, this.key) {
            None => Ok(Typing::Refused(TypeFault::OperandKind)),
            Some(found) => Ok(get_lent(alloc, held, this, found)),
        },
        None => match declared(schema, ty.glance(), this.key) {
            None => Ok(Typing::Refused(TypeFault::OperandKind)),
            Some(found) => get_made(alloc, held, this, found),
        },
    }
}
