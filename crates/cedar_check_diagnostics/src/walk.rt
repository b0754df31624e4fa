//! The step from an expression to one of its parts, with what is gained before it.
ghost use Rattle.std.specs.Prelude.{◌≡◌, IfNone, IfOk, IfSome};
ghost use Rattle.cedar_ast_expressions.specs.Expression.{Expression};
ghost use Rattle.cedar_check_spec.specs.Capabilities.{Capabilities};
ghost use Rattle.cedar_check_operators.specs.View.{held_view};
ghost use Rattle.cedar_check_diagnostics.specs.Paths.{Gains, IsStep};
ghost use Rattle.cedar_check_diagnostics.specs.Private.Truths.{may_hold};

use crate::checking::Checking;
use crate::parts::{guard_of, part_of};
use cedar_ast_expressions::Expr;
use cedar_check_operators::{Capability, Typing};
use cedar_schema::Truth;
use std::alloc::AllocError;

/// A part of an expression, and what is gained before it is evaluated.
#[derive(Drop)]
pub(crate) struct Step<'a> {
    /// What is gained.
    pub(crate) gained: Vec<Capability<'a>>,
    /// The part.
    pub(crate) part: &'a Expr,
}

// Whether it is a Boolean that is not known to be false.
fn may_hold(truth: Option<Truth>) -> bool
    ensures { result ≡ may_hold truth }
{
    match truth {
        Some(Truth::True) => true,
        Some(Truth::Any) => true,
        Some(Truth::False) => false,
        None => false,
    }
}

// What a guard gains where it is true; none where it has no type, or is never true.
fn gained_by<'a>(
    checking: Checking<'a>,
    held: &[Capability<'a>],
    guard: &'a Expr,
) -> Result<Option<Vec<Capability<'a>>>, AllocError>
    ensures some { IfOk result (λ o. IfSome o (λ g. Gains checking.entry.settings checking.entry.schema.now checking.entry.environment.now (held_view held.now) guard.now (held_view g.items))) }
    ensures none { IfOk result (λ o. IfNone o ((g : Capabilities) → ¬ Gains checking.entry.settings checking.entry.schema.now checking.entry.environment.now (held_view held.now) guard.now g)) }
{
    let typing = checking.typing(held, guard)?;
    match typing {
        Typing::Refused(_) => Ok(None),
        Typing::Typed(x) => {
            if may_hold(x.ty.truth()) {
                Ok(Some(x.gained))
            } else {
                Ok(None)
            }
        }
    }
}

/// The part of this number of an expression, where these capabilities are held; none where there is no such part, or where its
/// guard is never true.
pub(crate) fn step_to<'a>(
    checking: Checking<'a>,
    held: &[Capability<'a>],
    expression: &'a Expr,
    number: usize,
) -> Result<Option<Step<'a>>, AllocError>
    ensures some { IfOk result (λ o. IfSome o (λ x. IsStep checking.entry.settings checking.entry.schema.now checking.entry.environment.now (held_view held.now) expression.now number (held_view x.gained.items) x.part.now)) }
    ensures none { IfOk result (λ o. IfNone o ((g : Capabilities) (p : Expression) → ¬ IsStep checking.entry.settings checking.entry.schema.now checking.entry.environment.now (held_view held.now) expression.now number g p)) }
{
    let Some(part) = part_of(expression, number) else {
        return Ok(None);
    };
    let Some(guard) = guard_of(expression, number) else {
        return Ok(Some(Step {
            gained: Vec::new(checking.alloc),
            part,
        }));
    };
    let gains = gained_by(checking, held, guard)?;
    match gains {
        Some(gained) => Ok(Some(Step { gained, part })),
        None => Ok(None),
    }
}
