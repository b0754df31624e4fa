//! The rows of `in` and `is`.
ghost use Rattle.std.specs.Prelude.{◌≡◌, ◌||◌, Some, bytes_eq, option_and_then, option_copied, option_map};
ghost use Rattle.std.specs.List.{list_any};
ghost use Rattle.cedar_schema_types.specs.Joining.{only_if};
ghost use Rattle.cedar_schema_types.specs.Types.{boolean};
ghost use Rattle.cedar_ast_expressions.specs.Expression.{expressions_of};
ghost use Rattle.cedar_schema_spec.specs.Declarations.{is_action, type_below};
ghost use Rattle.cedar_check_spec.specs.Rows.{any_if, as_type, entity_in, in_truth, is_or_descends, target_in};
ghost use Rattle.cedar_check_spec.specs.Typing.{all_uids, one_uid, written_uids};
ghost use Rattle.cedar_check_operators.specs.View.{tree_of, typing_view};
ghost use Rattle.cedar_check_operators.specs.Private.View.{is_row};

use crate::declared::{is_action, is_declared_type, is_or_descends, type_below};
use crate::equality::known;
use crate::lent_type::LentType;
use crate::type_fault::TypeFault;
use crate::typing::Typing;
use cedar_ast_expressions::{Expr, ExprKind};
use cedar_schema::{Schema, Truth};
use cedar_value::{Name, Uid, ValueKind};
use std::alloc::Global;

/// The row of `is`.
pub(crate) fn is_type<'a>(
    alloc: Global,
    schema: &Schema,
    name: &Name,
    ty: &LentType<'a>,
) -> Typing<'a>
    ensures { typing_view result ≡ is_row schema.now name.now (tree_of ty.now) }
{
    let Some(entity) = ty.entity() else {
        return Typing::Refused(TypeFault::OperandKind);
    };
    if is_declared_type(schema, name) {
        Typing::plain(alloc, LentType::Boolean(known(entity == name)))
    } else {
        Typing::Refused(TypeFault::Undeclared)
    }
}

// The uid that a literal writes.
fn one_uid(expression: &Expr) -> Option<&Uid>
    ensures { option_copied result ≡ one_uid expression.now }
{
    match expression.kind() {
        ExprKind::Literal(value) => match value.kind() {
            ValueKind::Uid(uid) => Some(uid),
            _ => None,
        },
        _ => None,
    }
}

// Whether an action is one of the uids that members write, or descends from one; None where one of them
// writes no uid.
fn in_members(schema: &Schema, action: &Uid, members: &[Expr]) -> Option<bool>
    ensures { result ≡ option_map (λ vs. list_any (is_or_descends schema.now action.now) vs) (all_uids (expressions_of members.now)) }
{
    let mut found = false;
    for member in members {
        let Some(uid) = one_uid(member) else {
            return None;
        };
        if is_or_descends(schema, action, uid) {
            found = true;
        }
    }
    Some(found)
}

// Whether an action is one of the uids that an expression writes, or descends from one; None where it
// does not write uids.
fn in_written(schema: &Schema, action: &Uid, right: &Expr) -> Option<bool>
    ensures { result ≡ option_map (λ vs. list_any (is_or_descends schema.now action.now) vs) (written_uids right.now) }
{
    match right.kind() {
        ExprKind::Set(members) => in_members(schema, action, members),
        _ => match one_uid(right) {
            Some(uid) => Some(is_or_descends(schema, action, uid)),
            None => None,
        },
    }
}

// The uid of a declared action that a literal writes.
fn named_action<'e>(schema: &Schema, left: &'e Expr) -> Option<&'e Uid>
    ensures { option_copied result ≡ option_and_then (λ u. only_if (is_action schema.now u) (Some u)) (one_uid left.now) }
{
    let Some(uid) = one_uid(left) else {
        return None;
    };
    if is_action(schema, uid) {
        Some(uid)
    } else {
        None
    }
}

// What the two types alone show.
fn by_types(schema: &Schema, low: &Name, high: &Name) -> Truth
    ensures { result ≡ any_if (bytes_eq low.now high.now || type_below schema.now low.now high.now) }
{
    if low == high || type_below(schema, low, high) {
        Truth::Any
    } else {
        Truth::False
    }
}

// What is known of `in`.
fn in_truth(schema: &Schema, left: &Expr, right: &Expr, low: &Name, high: &Name) -> Truth
    ensures { result ≡ in_truth schema.now left.now right.now low.now high.now }
{
    match named_action(schema, left) {
        None => by_types(schema, low, high),
        Some(action) => match in_written(schema, action, right) {
            None => by_types(schema, low, high),
            Some(truth) => known(truth),
        },
    }
}

/// The row of `in`.
pub(crate) fn in_type<'a>(
    alloc: Global,
    schema: &Schema,
    left: &Expr,
    right: &Expr,
    one: &LentType<'a>,
    two: &LentType<'a>,
) -> Typing<'a>
    ensures { typing_view result ≡ option_and_then as_type (option_and_then (λ m. option_and_then (λ n. Some (boolean (in_truth schema.now left.now right.now m n))) (target_in (tree_of two.now))) (entity_in (tree_of one.now))) }
{
    let Some(low) = one.entity() else {
        return Typing::Refused(TypeFault::OperandKind);
    };
    let Some(high) = two.target() else {
        return Typing::Refused(TypeFault::OperandKind);
    };
    let truth = in_truth(schema, left, right, low, high);
    Typing::plain(alloc, LentType::Boolean(truth))
}
