//! Why a test is always false.
use crate::attributes::lacking_words;
use crate::spot::Spot;
use crate::type_words::entity_of;
use crate::words::Words;
use cedar_ast_expressions::{BinaryOperator, ExprKind, UnaryOperator};
use cedar_check_operators::LentType;
use std::alloc::AllocError;

/// Says why the test at a spot is false. Returns whether it is `x has a`.
pub(crate) fn why_false(spot: Spot<'_>, words: &mut Words) -> Result<bool, AllocError> {
    match spot.part.kind() {
        ExprKind::Unary(operator, operand) => {
            let Some(ty) = spot.part_type(0)? else {
                return Ok(false);
            };
            if let UnaryOperator::Has(key) = operator {
                lacking_words(spot.checking, words, operand, key, &ty);
                return Ok(true);
            }
            words.says.add("the entity is never of this type");
            spot.add_operand(words, 0, &ty)?;
        }
        ExprKind::Binary(operator, _, _) => {
            let Some(left) = spot.part_type(0)? else {
                return Ok(false);
            };
            let Some(right) = spot.part_type(1)? else {
                return Ok(false);
            };
            let (says, are_shown) = reason_of(spot, *operator, &left);
            words.says.add(says);
            if are_shown {
                spot.add_operand(words, 0, &left)?;
                spot.add_operand(words, 1, &right)?;
            }
        }
        _ => {}
    }
    Ok(false)
}

// Why `==` or `in` is false, from the type of its left operand, and whether the types show it.
fn reason_of(
    spot: Spot<'_>,
    operator: BinaryOperator,
    left: &LentType<'_>,
) -> (&'static str, bool) {
    let is_in = operator == BinaryOperator::In;
    match entity_of(left) {
        Some(name) if spot.checking.schema.has_action_type(name) => {
            if is_in {
                ("no action that the policy applies to is in this", false)
            } else {
                ("no action that the policy applies to is this one", false)
            }
        }
        _ if is_in => ("no entity of the one type is in one of the other", true),
        Some(_) => ("entities of different types are never equal", true),
        None => ("the two literals are not equal", false),
    }
}
