//! The row of `if`: what its branches give.
ghost use Rattle.std.specs.Prelude.{◌≡◌, IfOk, option_and_then, option_map};
ghost use Rattle.cedar_check_operators.specs.View.{held_view, typed_view, typing_view};
ghost use Rattle.cedar_check.specs.Private.View.{joined_branches, kept_branch};

use cedar_check_operators::{
    Capability, TypeFault, Typed, Typing, common, extended, join_types, together,
};
use std::alloc::{AllocError, Global};

/// The first branch, after a condition that is known true: it gains what the condition gains too. It takes memory where both
/// gain.
#[inline(never)]
pub(crate) fn if_known<'a>(
    gained: Vec<Capability<'a>>,
    first: Typing<'a>,
) -> Result<Typing<'a>, AllocError>
    ensures { IfOk result (λ t. typing_view t ≡ option_map (kept_branch (held_view gained.entry.items)) (typing_view first.entry)) }
{
    let x = match first {
        Typing::Typed(x) => x,
        Typing::Refused(fault) => return Ok(Typing::Refused(fault)),
    };
    let gained = together(gained, x.gained)?;
    Ok(Typing::Typed(Typed { ty: x.ty, gained }))
}

// The two branches, which both have a type.
#[tactic(auto, using(crate::proofs::Kept::kept_in))]
fn joined<'a>(
    alloc: Global,
    gained: &[Capability<'a>],
    first: &Typed<'a>,
    second: &Typed<'a>,
) -> Result<Typing<'a>, AllocError>
    ensures { IfOk result (λ t. typing_view t ≡ joined_branches (held_view gained.now) (typed_view first.now) (typed_view second.now)) }
{
    let Some(ty) = join_types(alloc, &first.ty, &second.ty)? else {
        return Ok(Typing::Refused(TypeFault::NoJoin));
    };
    let chosen = extended(alloc, gained, &first.gained)?;
    let gained = common(alloc, &chosen, &second.gained)?;
    Ok(Typing::Typed(Typed { ty, gained }))
}

/// The two branches, after a condition of which nothing is known: their types join, and they gain what both of them gain.
#[inline(never)]
pub(crate) fn if_joined<'a>(
    alloc: Global,
    gained: &[Capability<'a>],
    first: Typing<'a>,
    second: Typing<'a>,
) -> Result<Typing<'a>, AllocError>
    ensures { IfOk result (λ t. typing_view t ≡ option_and_then (λ x. option_and_then (joined_branches (held_view gained.now) x) (typing_view second.entry)) (typing_view first.entry)) }
{
    let x = match first {
        Typing::Typed(x) => x,
        Typing::Refused(fault) => return Ok(Typing::Refused(fault)),
    };
    let y = match second {
        Typing::Typed(y) => y,
        Typing::Refused(fault) => return Ok(Typing::Refused(fault)),
    };
    joined(alloc, gained, &x, &y)
}
