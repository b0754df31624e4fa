//! The way down to a smallest part without a type.
ghost use Rattle.std.specs.Prelude.{◌≡◌, ◌++◌, ◌∷◌, [], IfOk, IfSome, None};
ghost use Rattle.cedar_check.specs.Typings.{IsTypingOf};
ghost use Rattle.cedar_check_operators.specs.View.{held_view};
ghost use Rattle.cedar_check_diagnostics.specs.Looking.{HasTypedParts};
ghost use Rattle.cedar_check_diagnostics.specs.Paths.{IsStep, LeadsTo};
ghost use Rattle.cedar_check_diagnostics.specs.Private.Down.{IsBelow};

use crate::before::is_typed_before;
use crate::checking::Checking;
use crate::looking::{UntypedPart, may_look_at, untyped_part_of};
use crate::walk::{Step, step_to};
use crate::way::way_of;
use cedar_ast_expressions::Expr;
use cedar_check_operators::{Capability, TypeFault, Typing, extended, together};
use std::alloc::AllocError;

// How many steps of a way are tried at once at first. Then half as many are tried, and so on, so that almost twice as many can be made.
const MOST_STEPS: usize = 1_024;

/// A part of a condition that has no type.
#[derive(Drop)]
pub(crate) struct Untyped<'a> {
    /// From the condition to the part, the number of the child at each step.
    pub(crate) path: Vec<usize>,
    /// What is held at the part.
    pub(crate) held: Vec<Capability<'a>>,
    /// The part.
    pub(crate) part: &'a Expr,
    /// Why it has no type.
    pub(crate) fault: TypeFault,
}

// The part of this number, where the checker comes to it: it looks at it, and each part that it looks at before has a type.
fn first_step<'a>(
    checking: Checking<'a>,
    held: &[Capability<'a>],
    expression: &'a Expr,
    number: usize,
) -> Result<Option<Step<'a>>, AllocError>
    ensures { IfOk result (λ o. IfSome o (λ x. IsStep checking.entry.settings checking.entry.schema.now checking.entry.environment.now (held_view held.now) expression.now number (held_view x.gained.items) x.part.now)) }
{
    if !is_typed_before(checking, held, expression, number)? {
        return Ok(None);
    }
    if !may_look_at(checking, held, expression, number)? {
        return Ok(None);
    }
    step_to(checking, held, expression, number)
}

// The part that a way leads to, where it has no type, and where the checker finds a type for each part that it looks at before it.
fn at_end<'a>(
    checking: Checking<'a>,
    from: &Untyped<'a>,
    way: &[usize],
) -> Result<Option<Untyped<'a>>, AllocError>
    ensures below { IfOk result (λ o. IfSome o (λ u. IsBelow checking.entry.settings checking.entry.schema.now checking.entry.environment.now from.now.path.items (held_view from.now.held.items) from.now.part.now u.path.items (held_view u.held.items) u.part.now)) }
    ensures untyped { IfOk result (λ o. IfSome o (λ u. IsTypingOf checking.entry.settings checking.entry.schema.now checking.entry.environment.now (held_view u.held.items) u.part.now None)) }
{
    let mut path = Vec::from_slice(checking.alloc, &from.path)?;
    let mut held = extended(checking.alloc, &[], &from.held)?;
    let mut part = from.part;
    'walk: for number in way {
        let found = first_step(checking, &held, part, *number)?;
        let Some(next) = found else {
            return Ok(None);
        };
        path.push(*number)?;
        let more = together(held, next.gained)?;
        held = more;
        part = next.part;
    }
    let typing = checking.typing(&held, part)?;
    match typing {
        Typing::Typed(_) => Ok(None),
        Typing::Refused(fault) => Ok(Some(Untyped {
            path,
            held,
            part,
            fault,
        })),
    }
}

// From a part that has no type, down on a way as far as the part there has no type either. The number of steps is found by halves, so
// that the part is typed a dozen times, and not once for each step.
fn along<'a>(
    checking: Checking<'a>,
    start: Untyped<'a>,
    way: &[usize],
) -> Result<Untyped<'a>, AllocError>
    requires { IsTypingOf checking.settings checking.schema.now checking.environment.now (held_view start.held.items) start.part.now None }
    ensures below { IfOk result (λ u. IsBelow checking.entry.settings checking.entry.schema.now checking.entry.environment.now start.entry.path.items (held_view start.entry.held.items) start.entry.part.now u.path.items (held_view u.held.items) u.part.now) }
    ensures untyped { IfOk result (λ u. IsTypingOf checking.entry.settings checking.entry.schema.now checking.entry.environment.now (held_view u.held.items) u.part.now None) }
{
    let mut at = start;
    let mut rest = way;
    let mut count = MOST_STEPS;
    'halves: while count > 0 {
        if let Some((steps, others)) = rest.split_at_checked(count) {
            let found = at_end(checking, &at, steps)?;
            if let Some(further) = found {
                at = further;
                rest = others;
            }
        }
        count /= 2;
    }
    Ok(at)
}

// One step further down.
fn stepped<'a>(from: Untyped<'a>, next: UntypedPart<'a>) -> Result<Untyped<'a>, AllocError>
    ensures path { IfOk result (λ u. u.path.items ≡ from.entry.path.items ++ next.entry.number ∷ []) }
    ensures held { IfOk result (λ u. held_view u.held.items ≡ held_view from.entry.held.items ++ held_view next.entry.gained.items) }
    ensures part { IfOk result (λ u. u.part.now ≡ next.entry.part.now) }
{
    let mut path = from.path;
    path.push(next.number)?;
    Ok(Untyped {
        path,
        held: together(from.held, next.gained)?,
        part: next.part,
        fault: next.fault,
    })
}

/// From a condition that has no type for this reason, down while a part that the checker looks at has none: to the first one in the
/// checker's order. The time is about that of a dozen typings, however high the condition is.
pub(crate) fn smallest<'a>(
    checking: Checking<'a>,
    condition: &'a Expr,
    fault: TypeFault,
) -> Result<Untyped<'a>, AllocError>
    requires { IsTypingOf checking.settings checking.schema.now checking.environment.now [] condition.now None }
    ensures leads { IfOk result (λ u. LeadsTo checking.entry.settings checking.entry.schema.now checking.entry.environment.now [] condition.now u.path.items (held_view u.held.items) u.part.now) }
    ensures untyped { IfOk result (λ u. IsTypingOf checking.entry.settings checking.entry.schema.now checking.entry.environment.now (held_view u.held.items) u.part.now None) }
    ensures smallest { IfOk result (λ u. HasTypedParts checking.entry.settings checking.entry.schema.now checking.entry.environment.now (held_view u.held.items) u.part.now) }
{
    let mut at = Untyped {
        path: Vec::new(checking.alloc),
        held: Vec::new(checking.alloc),
        part: condition,
        fault,
    };
    'down: loop {
        let way = way_of(checking.alloc, at.part)?;
        let further = along(checking, at, &way)?;
        let found = untyped_part_of(checking, &further.held, further.part)?;
        let Some(next) = found else {
            return Ok(further);
        };
        let below = stepped(further, next)?;
        at = below;
    }
}
