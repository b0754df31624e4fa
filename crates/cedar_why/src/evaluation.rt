//! The evaluation of policies and of their parts.
ghost use Rattle.std.specs.Prelude.{◌≡◌, ◌<◌, length, IfOk, IfSome, Some, slice_get};
ghost use Rattle.cedar_ast_expressions.specs.Evaluation.{eval};
ghost use Rattle.cedar_ast_expressions.specs.Expression.{Expression};
ghost use Rattle.cedar_ast.specs.Condition.{condition_of};
ghost use Rattle.cedar_ast.specs.PolicyTree.{PolicyTree};
ghost use Rattle.cedar_code.specs.Code.{code_of};
ghost use Rattle.cedar_code.specs.Machine.{outcome_of};
ghost use Rattle.cedar_why.specs.Ending.{ending_of};

use crate::ending::{Ending, ending_at};
use cedar_ast_expressions::Expr;
use cedar_auth::Ready;
use cedar_code::{Code, CodeFault, compile};
use cedar_machine::{Outcome, run};
use cedar_store::Store;
use cedar_value::Request;
use std::alloc::{AllocError, Global};

// How the execution of a code ends: as the expression evaluates whose code it is.
fn executed(
    alloc: Global,
    code: &Code,
    request: &Request,
    store: &Store,
) -> Result<Outcome, AllocError>
    ensures { IfOk result (λ o. (e : Expression) → code.now.instructions ≡ code_of e → o ≡ outcome_of (eval e request.now store.now)) }
{
    let ended = run(alloc, code, request, store)?;
    Ok(ended.outcome)
}

/// How the evaluation of a part ends for a request, with its value; or none if its code would be too long.
pub(crate) fn part_outcome(
    alloc: Global,
    ready: &Ready,
    request: &Request,
    part: &Expr,
) -> Result<Option<Outcome>, AllocError>
    ensures { IfOk result (λ o. IfSome o (λ ended. ended ≡ outcome_of (eval part.now request.now ready.now.world))) }
{
    match compile(alloc, part) {
        Ok(code) => {
            let ended = executed(alloc, &code, request, ready.store());
            drop(code);
            Ok(Some(ended?))
        }
        Err(CodeFault::OutOfMemory) => Err(AllocError),
        Err(CodeFault::TooLong) => Ok(None),
    }
}

/// How the evaluation of a part of a condition ends for a request over the entities; or none if the part's code would have more
/// than 1,000,000 instructions, which no part of an accepted policy has.
///
/// # Errors
///
/// Fails only when out of memory.
pub fn part_ending(
    alloc: Global,
    ready: &Ready,
    request: &Request,
    part: &Expr,
) -> Result<Option<Ending>, AllocError>
    ensures { IfOk result (λ o. IfSome o (λ ending. ending ≡ ending_of part.now request.now ready.now.world)) }
{
    match part_outcome(alloc, ready, request, part)? {
        Some(ended) => {
            let ending = ending_at(&ended);
            drop(ended);
            Ok(Some(ending))
        }
        None => Ok(None),
    }
}

/// How the evaluation of the policy at a position, from 0, ends for a request over the entities.
///
/// # Errors
///
/// Fails only when out of memory.
pub fn policy_ending(
    alloc: Global,
    ready: &Ready,
    request: &Request,
    position: usize,
) -> Result<Ending, AllocError>
    requires { position < length ready.now.policies.policies }
    ensures { IfOk result (λ ending. (p : PolicyTree) → slice_get ready.now.policies.policies position ≡ Some p
        → ending ≡ ending_of (condition_of p) request.now ready.now.world) }
{
    let (code, _, _) = ready.part(position);
    let ended = executed(alloc, code, request, ready.store())?;
    let ending = ending_at(&ended);
    drop(ended);
    Ok(ending)
}
