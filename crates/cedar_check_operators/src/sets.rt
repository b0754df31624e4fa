//! The rows of `contains`, `containsAll`, `containsAny` and `isEmpty`.
ghost use Rattle.std.specs.Prelude.{◌≡◌, option_and_then};
ghost use Rattle.cedar_schema_types.specs.Joining.{join};
ghost use Rattle.cedar_schema_types.specs.Types.{boolean};
ghost use Rattle.cedar_schema_types.specs.declared.truth.Truth.TheVariants.{Any};
ghost use Rattle.cedar_check_spec.specs.Rows.{any_where, as_type, element_in, sets_type};
ghost use Rattle.cedar_check_operators.specs.View.{tree_of, typing_view};
ghost use Rattle.cedar_check_operators.specs.Private.View.{type_seen};

use crate::joins::types_join;
use crate::lent_type::{LentType, TypeGlance, glance_at};
use crate::type_fault::TypeFault;
use crate::typing::Typing;
use cedar_schema::Truth;
use std::alloc::Global;

// Any Boolean, where the two types join.
fn any_where<'a>(alloc: Global, one: TypeGlance<'_>, two: TypeGlance<'_>) -> Typing<'a>
    ensures { typing_view result ≡ option_and_then as_type (any_where (join (type_seen one.entry) (type_seen two.entry))) }
{
    if types_join(one, two) {
        Typing::plain(alloc, LentType::Boolean(Truth::Any))
    } else {
        Typing::Refused(TypeFault::NoJoin)
    }
}

/// The row of `contains`.
pub(crate) fn contains_type<'a>(alloc: Global, one: &LentType<'a>, two: &LentType<'a>) -> Typing<'a>
    ensures { typing_view result ≡ option_and_then as_type (option_and_then (λ m. any_where (join m (tree_of two.now))) (element_in (tree_of one.now))) }
{
    match one.element() {
        None => Typing::Refused(TypeFault::OperandKind),
        Some(member) => any_where(alloc, glance_at(member), two.glance()),
    }
}

/// The row of `containsAll` and `containsAny`.
pub(crate) fn sets_type<'a>(alloc: Global, one: &LentType<'a>, two: &LentType<'a>) -> Typing<'a>
    ensures { typing_view result ≡ option_and_then as_type (sets_type (tree_of one.now) (tree_of two.now)) }
{
    match one.element() {
        None => Typing::Refused(TypeFault::OperandKind),
        Some(left) => match two.element() {
            None => Typing::Refused(TypeFault::OperandKind),
            Some(right) => any_where(alloc, glance_at(left), glance_at(right)),
        },
    }
}

/// The row of `isEmpty`.
pub(crate) fn is_empty_type<'a>(alloc: Global, ty: &LentType<'a>) -> Typing<'a>
    ensures { typing_view result ≡ option_and_then (λ m. as_type (boolean Any)) (element_in (tree_of ty.now)) }
{
    match ty.element() {
        None => Typing::Refused(TypeFault::OperandKind),
        Some(_) => Typing::plain(alloc, LentType::Boolean(Truth::Any)),
    }
}
