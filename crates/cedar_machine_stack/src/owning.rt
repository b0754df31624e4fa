//! Attributes, as operands that borrow nothing.
ghost use Rattle.std.specs.Prelude.{◌≡◌, IfOk, option_copied};
ghost use Rattle.cedar_value.specs.Glance.{datum_seen};
ghost use Rattle.cedar_ast_expressions.specs.Operators.{source, get_in, attribute_of};

use crate::operand::Operand;
use cedar_ast_expressions::EvaluationError;
use cedar_value::{Glance, Hierarchy, Value};
use std::alloc::{AllocError, Global};

/// A copy of the attribute of a value, or the error that the value does not have it (Cedar language reference, operators, `.`).
pub fn attribute_copy<H: Hierarchy>(
    alloc: Global,
    value: Glance<'_>,
    key: &str,
    hierarchy: &H,
) -> Result<Result<Operand<'static>, EvaluationError>, AllocError>
    ensures { IfOk result (λ a. a ≡ get_in key.now (source (H.world hierarchy.now) (datum_seen value.entry))) }
{
    match value {
        Glance::Record(pairs) => copy_found(alloc, pairs.get(key)),
        Glance::Uid(entity) => match hierarchy.attributes(entity) {
            Some(pairs) => copy_found(alloc, pairs.get(key)),
            None => Ok(Err(EvaluationError::MissingEntity)),
        },
        _ => Ok(Err(EvaluationError::Type)),
    }
}

// A copy of the attribute that was found.
fn copy_found(
    alloc: Global,
    found: Option<&Value>,
) -> Result<Result<Operand<'static>, EvaluationError>, AllocError>
    ensures { IfOk result (λ a. a ≡ attribute_of (option_copied found.entry)) }
{
    match found {
        Some(value) => {
            let copy = Operand::owned(alloc, value.glance())?;
            Ok(Ok(copy))
        }
        None => Ok(Err(EvaluationError::MissingAttribute)),
    }
}
