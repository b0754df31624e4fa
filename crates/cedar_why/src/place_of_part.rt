//! Where a part is written.
use crate::child::child_at;
use crate::sign::negated_sign_of;
use cedar_ast_expressions::{Expr, ExprKind, UnaryOperator};
use cedar_parser_places::{PartPlace, StatementPlaces};
use std::alloc::{AllocError, Global};

/// A part of a policy, and where it is written.
#[derive(Clone, Copy)]
pub struct Placed<'e> {
    /// The part.
    pub part: &'e Expr,
    /// Where it begins in the policy text, in bytes from 0, if it is written there.
    pub at: Option<usize>,
}

// Whether a text writes a `!` and the comparison in it as one operator, such as `>`; also if it is not known.
fn is_one_operator(comparison: &Expr, text: &str, place: Option<PartPlace>) -> bool {
    let (Some(sign), Some(place)) = (negated_sign_of(comparison), place) else {
        return true;
    };
    match text.get(place.name.start..place.name.end) {
        Some(written) => written == sign.name,
        None => true,
    }
}

// The comparison in a `!`, if a text writes the two apart, as `unless` does.
fn apart<'e>(part: &'e Expr, text: &str, place: Option<PartPlace>) -> Option<&'e Expr> {
    match part.kind() {
        ExprKind::Unary(UnaryOperator::Not, operand) => {
            if is_one_operator(operand, text, place) {
                None
            } else {
                child_at(part, 0)
            }
        }
        _ => None,
    }
}

/// The part of a policy to which a path leads from the whole condition, with its place in the policy text. The comparison in a `!`
/// is taken instead, if the text writes the two apart.
pub fn place_part<'e>(
    alloc: Global,
    places: &StatementPlaces<'_>,
    id: &str,
    part: &'e Expr,
    path: &[usize],
) -> Result<Placed<'e>, AllocError> {
    let place = places.part(alloc, id, path)?;
    let Some(inner) = apart(part, places.text(), place) else {
        return Ok(Placed {
            part,
            at: start_of(place),
        });
    };
    let mut longer = Vec::from_slice(alloc, path)?;
    longer.push(0)?;
    let place = places.part(alloc, id, &longer)?;
    Ok(Placed {
        part: inner,
        at: start_of(place),
    })
}

fn start_of(place: Option<PartPlace>) -> Option<usize> {
    match place {
        Some(place) => Some(place.whole.start),
        None => None,
    }
}
