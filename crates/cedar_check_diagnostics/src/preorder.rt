//! The parts of an expression in order, each before its own parts.
use crate::parts::part_of;
use cedar_ast_expressions::Expr;
use std::alloc::{AllocError, Global};

// A part whose own parts are gone through.
#[derive(Clone, Copy)]
struct Visit<'a> {
    // The part.
    part: &'a Expr,
    // Its place.
    place: usize,
    // The number of the next of its own parts.
    number: usize,
}

/// The parts of an expression in order, each before its own parts. The place of a part is its position there, from 0.
#[derive(Drop)]
pub(crate) struct Preorder<'a> {
    /// The parts.
    pub(crate) parts: Vec<&'a Expr>,
    /// The number of nodes of each.
    pub(crate) sizes: Vec<usize>,
}

impl<'a> Preorder<'a> {
    /// The parts of an expression, which is the first of them.
    pub(crate) fn of(alloc: Global, expression: &'a Expr) -> Result<Self, AllocError> {
        let mut order = Preorder {
            parts: Vec::new(alloc),
            sizes: Vec::new(alloc),
        };
        let mut open = Vec::new(alloc);
        open.push(order.visit(expression)?)?;
        for _ in 0..u64::MAX {
            let Some(visit) = open.pop() else {
                break;
            };
            let Some(part) = part_of(visit.part, visit.number) else {
                order.end(visit.place);
                continue;
            };
            open.push(Visit {
                part: visit.part,
                place: visit.place,
                number: visit.number.saturating_add(1),
            })?;
            open.push(order.visit(part)?)?;
        }
        Ok(order)
    }

    // Adds a part, and gives the visit of it.
    fn visit(&mut self, part: &'a Expr) -> Result<Visit<'a>, AllocError> {
        let place = self.parts.len();
        self.parts.push(part)?;
        self.sizes.push(1)?;
        Ok(Visit {
            part,
            place,
            number: 0,
        })
    }

    // Notes that all parts of the part at a place have been added.
    fn end(&mut self, place: usize) {
        let count = self.parts.len();
        if let Some(size) = self.sizes.get_mut(place) {
            *size = count.saturating_sub(place);
        }
    }

    /// The number of nodes of the part at a place.
    pub(crate) fn size(&self, place: usize) -> usize {
        self.sizes.get(place).copied().unwrap_or(1)
    }
}
