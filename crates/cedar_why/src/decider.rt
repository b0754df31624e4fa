//! The part of a condition that decides how it ends.
ghost use Rattle.std.specs.Prelude.{◌≡◌, IfOk, IfSome};
ghost use Rattle.cedar_why.specs.Ending.{ending_of};

use crate::child::child_at;
use crate::ending::Ending;
use crate::evaluation::part_ending;
use crate::side::side_of;
use cedar_ast_expressions::{Expr, ExprKind};
use cedar_auth::Ready;
use cedar_code::MOST_INSTRUCTIONS;
use cedar_value::Request;
use std::alloc::{AllocError, Global};

/// A chain all of whose sides end in one way.
#[derive(Clone, Copy, PartialEq, Eq)]
pub enum Joined {
    /// There is no such chain.
    Alone,
    /// All sides of an `&&` are true.
    ByAnd,
    /// All sides of an `||` are false.
    ByOr,
}

/// A part of a condition, and the way to it from the whole condition.
#[derive(Drop)]
pub struct Way<'e> {
    /// The part.
    pub part: &'e Expr,
    /// The position of the side, from 0, at each part on the way.
    pub path: Vec<usize>,
    /// The last chain on the way whose other sides end the same.
    pub joined: Joined,
}

// The chain that is joined once the way goes on to a side.
fn joined_by(part: &Expr, ending: Ending, index: usize, before: Joined) -> Joined {
    match (part.kind(), ending, index) {
        (ExprKind::And(_, _), Ending::Holds, 1) => Joined::ByAnd,
        (ExprKind::Or(_, _), Ending::Fails, 1) => Joined::ByOr,
        _ => before,
    }
}

/// The way to the part that decides how a condition ends. It takes no more steps than a code has instructions.
pub fn way_to_decider<'e>(
    alloc: Global,
    ready: &Ready,
    request: &Request,
    condition: &'e Expr,
    ending: Ending,
) -> Result<Way<'e>, AllocError> {
    let mut path = Vec::new(alloc);
    let mut joined = Joined::Alone;
    let mut part = condition;
    let mut ends = ending;
    for _ in 0..MOST_INSTRUCTIONS {
        let Some(side) = side_of(alloc, ready, request, part, ends)? else {
            break;
        };
        let Some(next) = child_at(part, side.index) else {
            break;
        };
        path.push(side.index)?;
        joined = joined_by(part, ends, side.index, joined);
        part = next;
        ends = side.ending;
    }
    Ok(Way { part, path, joined })
}

/// A part, and how it ends.
#[derive(Clone, Copy)]
pub struct Ended<'e> {
    /// The part.
    pub part: &'e Expr,
    /// How it ends.
    pub ending: Ending,
}

/// The part with its ending, which is evaluated here, so that no other ending is said of it; or none if its code would be too long.
pub fn with_ending<'e>(
    alloc: Global,
    ready: &Ready,
    request: &Request,
    part: &'e Expr,
) -> Result<Option<Ended<'e>>, AllocError>
    ensures ending { IfOk result (λ o. IfSome o (λ d. d.ending ≡ ending_of d.part.now request.now ready.now.world)) }
{
    match part_ending(alloc, ready, request, part)? {
        Some(ending) => Ok(Some(Ended { part, ending })),
        None => Ok(None),
    }
}
