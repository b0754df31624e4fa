//! The way down to the largest parts, which is where most of a condition is.
use crate::parts::{count_of, part_of};
use crate::preorder::Preorder;
use cedar_ast_expressions::Expr;
use std::alloc::{AllocError, Global};

// A part on the way.
#[derive(Clone, Copy)]
struct Visit<'a> {
    // The part.
    part: &'a Expr,
    // Its place in the order.
    place: usize,
    // Its number in the part that it is a part of.
    number: usize,
}

// The largest part of an expression at a place, with its place and its number.
fn largest<'a>(order: &Preorder<'_>, expression: &'a Expr, above: usize) -> Option<Visit<'a>> {
    let mut found = None;
    let mut most = 0usize;
    let mut place = above.saturating_add(1);
    for number in 0..count_of(expression) {
        let size = order.size(place);
        if size > most {
            most = size;
            if let Some(part) = part_of(expression, number) {
                found = Some(Visit {
                    part,
                    place,
                    number,
                });
            }
        }
        place = place.saturating_add(size);
    }
    found
}

/// The numbers of the parts on the way down from an expression that goes on to the largest part at each step. A part beside the way has at
/// most half of the nodes of the expression that it is a part of.
pub(crate) fn way_of<'a>(alloc: Global, expression: &'a Expr) -> Result<Vec<usize>, AllocError> {
    let order = Preorder::of(alloc, expression)?;
    let mut way = Vec::new(alloc);
    let mut part = expression;
    let mut place = 0usize;
    for _ in 0..order.parts.len() {
        let Some(next) = largest(&order, part, place) else {
            break;
        };
        way.push(next.number)?;
        part = next.part;
        place = next.place;
    }
    Ok(way)
}
