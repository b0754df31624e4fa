//! Joins of types, lent where they can be.
ghost use Rattle.std.specs.Prelude.{◌≡◌, IfOk, option_map};
ghost use Rattle.cedar_schema_types.specs.Joining.{join, join_truths};
ghost use Rattle.cedar_schema_types.specs.Types.{record_of, set};
ghost use Rattle.cedar_check_operators.specs.View.{tree_of};

use crate::lent_type::{LentType, TypeGlance};
use cedar_schema::{RecordType, Truth, Type, TypeKind, join};
use std::alloc::{AllocError, Global};

// What is known where either holds.
fn join_truths(left: Truth, right: Truth) -> Truth
    ensures { result ≡ join_truths left right }
{
    if left == right { left } else { Truth::Any }
}

// The join of two record types.
fn join_records<'a>(
    alloc: Global,
    one: &RecordType,
    two: &RecordType,
) -> Result<Option<LentType<'a>>, AllocError>
    ensures { IfOk result (λ joined. option_map tree_of joined ≡ join (record_of one.now) (record_of two.now)) }
{
    let left = Type::new(TypeKind::Record(one.try_clone(alloc)?));
    let right = Type::new(TypeKind::Record(two.try_clone(alloc)?));
    match join(alloc, &left, &right)? {
        Some(ty) => Ok(Some(LentType::Made(ty))),
        None => Ok(None),
    }
}

// The join of two types of sets.
fn join_sets<'a>(alloc: Global, one: &Type, two: &Type) -> Result<Option<LentType<'a>>, AllocError>
    ensures { IfOk result (λ joined. option_map tree_of joined ≡ join (set one.now) (set two.now)) }
{
    match join(alloc, one, two)? {
        Some(ty) => Ok(Some(LentType::Made(Type::new(TypeKind::Set(Box::new(alloc, ty)?))))),
        None => Ok(None),
    }
}

/// The join of two types, if they have one (Cedar documentation, strict validation). For Booleans, numbers, strings, extension
/// types and lent entities it takes no memory.
pub fn join_types<'a>(
    alloc: Global,
    one: &LentType<'a>,
    two: &LentType<'a>,
) -> Result<Option<LentType<'a>>, AllocError>
    ensures { IfOk result (λ joined. option_map tree_of joined ≡ join (tree_of one.now) (tree_of two.now)) }
{
    match one.glance() {
        TypeGlance::Boolean(left) => match two.glance() {
            TypeGlance::Boolean(right) => Ok(Some(LentType::Boolean(join_truths(left, right)))),
            _ => Ok(None),
        },
        TypeGlance::Long => match two.glance() {
            TypeGlance::Long => Ok(Some(LentType::Long)),
            _ => Ok(None),
        },
        TypeGlance::String => match two.glance() {
            TypeGlance::String => Ok(Some(LentType::String)),
            _ => Ok(None),
        },
        TypeGlance::Extension(left) => match two.glance() {
            TypeGlance::Extension(right) => {
                if left.same(right) {
                    Ok(Some(LentType::Extension(left)))
                } else {
                    Ok(None)
                }
            }
            _ => Ok(None),
        },
        TypeGlance::Entity(left) => match two.glance() {
            TypeGlance::Entity(right) => {
                if left == right {
                    Ok(Some(one.try_copy(alloc)?))
                } else {
                    Ok(None)
                }
            }
            _ => Ok(None),
        },
        TypeGlance::Set(left) => match two.glance() {
            TypeGlance::Set(right) => join_sets(alloc, left, right),
            _ => Ok(None),
        },
        TypeGlance::Record(left) => match two.glance() {
            TypeGlance::Record(right) => join_records(alloc, left, right),
            _ => Ok(None),
        },
    }
}
