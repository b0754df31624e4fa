//! Where in a condition the tests are that types may decide.
use crate::parts::{count_of, part_of};
use crate::preorder::Preorder;
use cedar_ast_expressions::{BinaryOperator, Expr, ExprKind, UnaryOperator};
use std::alloc::{AllocError, Global};

/// How many steps lead past the scope of a condition `principal && (action && (resource && conditions))`.
const SCOPE_STEPS: usize = 3;

/// The places of the tests that types may decide, which are not in the scope: `x has a`, `x is T`, `x == y` and `x in y`. They are
/// numbered from 0 in the order in which they are written. The place of a part is its position among the parts of the condition, each
/// before its own parts, from 0.
#[derive(Drop)]
pub(crate) struct GuardPlaces {
    // The number of nodes of each part of the condition.
    sizes: Vec<usize>,
    // For each part of the condition, and for the end, how many tests are before it.
    before: Vec<usize>,
    // The place of each.
    places: Vec<usize>,
}

// Whether a part is a test that types may decide.
fn is_test(part: &Expr) -> bool {
    match part.kind() {
        ExprKind::Unary(operator, _) => match operator {
            UnaryOperator::Has(_) => true,
            UnaryOperator::Is(_) => true,
            _ => false,
        },
        ExprKind::Binary(operator, _, _) => match operator {
            BinaryOperator::Equal => true,
            BinaryOperator::In => true,
            _ => false,
        },
        _ => false,
    }
}

// The place of the conditions, on the right of the parts of the scope, where the parts of the whole have these sizes.
fn place_of_conditions(sizes: &[usize]) -> usize {
    let mut place = 0usize;
    for _ in 0..SCOPE_STEPS {
        let left = place.saturating_add(1);
        place = left.saturating_add(sizes.get(left).copied().unwrap_or(0));
    }
    place
}

impl GuardPlaces {
    /// The places in the whole condition of a policy.
    pub(crate) fn of(alloc: Global, condition: &Expr) -> Result<Self, AllocError> {
        let Preorder { parts, sizes } = Preorder::of(alloc, condition)?;
        let conditions = place_of_conditions(&sizes);
        let mut before = Vec::new(alloc);
        let mut places = Vec::new(alloc);
        for (place, part) in parts.iter().enumerate() {
            before.push(places.len())?;
            if place >= conditions && is_test(*part) {
                places.push(place)?;
            }
        }
        before.push(places.len())?;
        Ok(GuardPlaces {
            sizes,
            before,
            places,
        })
    }

    /// How many there are.
    pub(crate) fn count(&self) -> usize {
        self.places.len()
    }

    /// The number of nodes of the part at a place of the condition.
    pub(crate) fn size(&self, place: usize) -> usize {
        self.sizes.get(place).copied().unwrap_or(1)
    }

    /// How many are before a place of the condition: of one that is there, its number.
    pub(crate) fn number_at(&self, place: usize) -> usize {
        self.before.get(place).copied().unwrap_or(self.places.len())
    }

    /// Whether the part at a place of the condition is one of the tests.
    pub(crate) fn is_one(&self, place: usize) -> bool {
        self.number_at(place) < self.number_at(place.saturating_add(1))
    }

    /// Whether the part at a place of the condition is one of the tests, or has one.
    pub(crate) fn has_any(&self, place: usize) -> bool {
        let end = place.saturating_add(self.size(place));
        self.number_at(place) < self.number_at(end)
    }

    // Of the parts of a part, which is at the place `above`, the one that another place is in: its number, and itself with its place.
    fn part_around<'e>(
        &self,
        expression: &'e Expr,
        above: usize,
        place: usize,
    ) -> Option<(usize, &'e Expr, usize)> {
        let mut child = above.saturating_add(1);
        for number in 0..count_of(expression) {
            let end = child.saturating_add(self.size(child));
            if place < end {
                return part_of(expression, number).map(|part| (number, part, child));
            }
            child = end;
        }
        None
    }

    /// From the condition to the one of this number, the number of the part at each step.
    pub(crate) fn path_to(
        &self,
        alloc: Global,
        condition: &Expr,
        number: usize,
    ) -> Result<Vec<usize>, AllocError> {
        let place = self.places.get(number).copied().unwrap_or(0);
        let mut path = Vec::new(alloc);
        let mut here = condition;
        let mut above = 0usize;
        for _ in 0..self.sizes.len() {
            if above >= place {
                break;
            }
            let Some((step, part, child)) = self.part_around(here, above, place) else {
                break;
            };
            path.push(step)?;
            here = part;
            above = child;
        }
        Ok(path)
    }
}
