//! Whether the checker comes to a part of an expression: it does where each part that it looks at before has a type.
use crate::checking::Checking;
use crate::looking::untyped_of;
use cedar_ast_expressions::{Expr, ExprKind};
use cedar_check_operators::{Capability, Typing, join_types};
use std::alloc::AllocError;

// Whether these members of a set have types that join.
fn are_joined<'a>(
    checking: Checking<'a>,
    held: &[Capability<'a>],
    members: &'a [Expr],
) -> Result<bool, AllocError> {
    let Some((first, others)) = members.split_first() else {
        return Ok(true);
    };
    let Typing::Typed(x) = checking.typing(held, first)? else {
        return Ok(false);
    };
    let mut joined = x.ty;
    for member in others {
        let Typing::Typed(y) = checking.typing(held, member)? else {
            return Ok(false);
        };
        match join_types(checking.alloc, &joined, &y.ty)? {
            Some(ty) => joined = ty,
            None => return Ok(false),
        }
    }
    Ok(true)
}

/// Whether each part before the part of this number has a type, where the checker looks at it; of a set, also whether they join.
pub(crate) fn is_typed_before<'a>(
    checking: Checking<'a>,
    held: &[Capability<'a>],
    expression: &'a Expr,
    number: usize,
) -> Result<bool, AllocError> {
    if let ExprKind::Set(members) = expression.kind() {
        return match members.split_at_checked(number) {
            Some((earlier, _)) => are_joined(checking, held, earlier),
            None => Ok(false),
        };
    }
    for earlier in 0..number {
        if untyped_of(checking, held, expression, earlier)?.is_some() {
            return Ok(false);
        }
    }
    Ok(true)
}
