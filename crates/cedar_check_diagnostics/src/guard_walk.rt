//! The tests of a condition that the checker looks at in an environment.
use crate::checking::Checking;
use crate::guard_places::GuardPlaces;
use crate::parts::{count_of, part_of};
use cedar_ast_expressions::{Expr, ExprKind};
use cedar_check_operators::{Capability, Typing, extended, together};
use cedar_schema::Truth;
use std::alloc::{AllocError, Global};

/// A test that the checker looks at.
#[derive(Drop)]
pub(crate) struct Guard<'a> {
    /// Its number among those of the condition.
    pub(crate) number: usize,
    /// What is known of it.
    pub(crate) truth: Option<Truth>,
    /// The test.
    pub(crate) part: &'a Expr,
    /// What is held there.
    pub(crate) held: Vec<Capability<'a>>,
}

// A part, and its place in the condition.
#[derive(Clone, Copy)]
struct Placed<'a> {
    part: &'a Expr,
    place: usize,
}

// How parts that are looked at one after another bear on each other.
#[derive(Clone, Copy, PartialEq, Eq)]
enum Joint {
    // By `&&`: what one gains is held at those after it, and after one that is false none is looked at.
    And,
    // By `||`: after one that is true none is looked at.
    Or,
    // Not at all.
    Apart,
}

// Parts that are looked at one after another.
#[derive(Drop)]
struct Row<'a> {
    joint: Joint,
    // Those that are left. The last one is next.
    left: Vec<Placed<'a>>,
    // What is held at the next one.
    held: Vec<Capability<'a>>,
}

impl<'a> Row<'a> {
    // What is left after a part of this truth, which gains these capabilities.
    fn after(
        self,
        truth: Option<Truth>,
        gained: Vec<Capability<'a>>,
    ) -> Result<Row<'a>, AllocError> {
        let Row {
            joint,
            mut left,
            mut held,
        } = self;
        if joint == Joint::And {
            held = together(held, gained)?;
        }
        let ends = match joint {
            Joint::And => truth == Some(Truth::False),
            Joint::Or => truth == Some(Truth::True),
            Joint::Apart => false,
        };
        if ends {
            left.clear();
        }
        Ok(Row { joint, left, held })
    }
}

// The sides of an expression that is joined so.
fn sides_of(expression: &Expr, joint: Joint) -> Option<(&Expr, &Expr)> {
    match expression.kind() {
        ExprKind::And(left, right) => {
            if joint == Joint::And {
                Some((left, right))
            } else {
                None
            }
        }
        ExprKind::Or(left, right) => {
            if joint == Joint::Or {
                Some((left, right))
            } else {
                None
            }
        }
        _ => None,
    }
}

/// A walk through a condition, over the parts that the checker looks at. The operands of a chain of `&&` or `||` are typed one after
/// another, so that each part is typed once for each change between chains above it, and not once for each operator.
#[derive(Drop)]
pub(crate) struct GuardWalk<'a, 'g> {
    checking: Checking<'a>,
    places: &'g GuardPlaces,
    // The rows of parts that are open, the innermost last.
    rows: Vec<Row<'a>>,
}

impl<'a, 'g> GuardWalk<'a, 'g> {
    /// A walk that begins at a condition with these places.
    pub(crate) fn new(
        checking: Checking<'a>,
        places: &'g GuardPlaces,
        condition: &'a Expr,
    ) -> Result<Self, AllocError> {
        let alloc = checking.alloc;
        let mut walk = GuardWalk {
            checking,
            places,
            rows: Vec::new(alloc),
        };
        let whole = Placed {
            part: condition,
            place: 0,
        };
        walk.push_one(whole, Vec::new(alloc))?;
        Ok(walk)
    }

    /// The next test that is looked at; none at the end.
    pub(crate) fn next(&mut self) -> Result<Option<Guard<'a>>, AllocError> {
        for _ in 0..u64::MAX {
            let Some(mut row) = self.rows.pop() else {
                break;
            };
            let Some(here) = row.left.pop() else {
                continue;
            };
            let found = self.look_at(row, here)?;
            if found.is_some() {
                return Ok(found);
            }
        }
        Ok(None)
    }

    // Looks at a part, which was next in a row. After a part without a type none is looked at.
    fn look_at(&mut self, row: Row<'a>, here: Placed<'a>) -> Result<Option<Guard<'a>>, AllocError> {
        let has_any = self.places.has_any(here.place);
        if row.joint == Joint::Apart && !has_any {
            self.rows.push(row)?;
            return Ok(None);
        }
        let Typing::Typed(x) = self.checking.typing(&row.held, here.part)? else {
            return Ok(None);
        };
        let held = extended(self.checking.alloc, &row.held, &[])?;
        let truth = x.ty.truth();
        self.rows.push(row.after(truth, x.gained)?)?;
        if has_any {
            self.open(here, held, truth)
        } else {
            Ok(None)
        }
    }

    // Goes into a part, and gives it if it is a test.
    fn open(
        &mut self,
        here: Placed<'a>,
        held: Vec<Capability<'a>>,
        truth: Option<Truth>,
    ) -> Result<Option<Guard<'a>>, AllocError> {
        let mut found = None;
        if self.places.is_one(here.place) {
            found = Some(Guard {
                number: self.places.number_at(here.place),
                truth,
                part: here.part,
                held: extended(self.checking.alloc, &held, &[])?,
            });
        }
        match here.part.kind() {
            ExprKind::And(_, _) => self.push_chain(Joint::And, here, held)?,
            ExprKind::Or(_, _) => self.push_chain(Joint::Or, here, held)?,
            ExprKind::If(condition, first, second) => {
                self.open_if(here.place, condition, first, second, held)?
            }
            _ => self.push_parts(here, held)?,
        }
        Ok(found)
    }

    // Goes into `if`: its condition, and each branch that may be evaluated.
    fn open_if(
        &mut self,
        place: usize,
        condition: &'a Expr,
        first: &'a Expr,
        second: &'a Expr,
        held: Vec<Capability<'a>>,
    ) -> Result<(), AllocError> {
        let alloc = self.checking.alloc;
        let condition = self.first_of(place, condition);
        let first = self.after(condition, first);
        let second = self.after(first, second);
        let Typing::Typed(x) = self.checking.typing(&held, condition.part)? else {
            return Ok(());
        };
        let truth = x.ty.truth();
        if truth != Some(Truth::True) {
            self.push_one(second, extended(alloc, &held, &[])?)?;
        }
        if truth != Some(Truth::False) {
            self.push_one(first, extended(alloc, &held, &x.gained)?)?;
        }
        self.push_one(condition, held)
    }

    // The first part of the part at a place.
    fn first_of(&self, place: usize, part: &'a Expr) -> Placed<'a> {
        Placed {
            part,
            place: place.saturating_add(1),
        }
    }

    // The part after another one.
    fn after(&self, earlier: Placed<'a>, part: &'a Expr) -> Placed<'a> {
        Placed {
            part,
            place: earlier
                .place
                .saturating_add(self.places.size(earlier.place)),
        }
    }

    // Adds a row of one part.
    fn push_one(&mut self, part: Placed<'a>, held: Vec<Capability<'a>>) -> Result<(), AllocError> {
        let mut left = Vec::new(self.checking.alloc);
        left.push(part)?;
        self.rows.push(Row {
            joint: Joint::Apart,
            left,
            held,
        })?;
        Ok(())
    }

    // Adds the operands of a chain of `&&` or `||` as a row.
    fn push_chain(
        &mut self,
        joint: Joint,
        here: Placed<'a>,
        held: Vec<Capability<'a>>,
    ) -> Result<(), AllocError> {
        let mut open = Vec::new(self.checking.alloc);
        let mut left = Vec::new(self.checking.alloc);
        open.push(here)?;
        for _ in 0..u64::MAX {
            let Some(next) = open.pop() else {
                break;
            };
            match sides_of(next.part, joint) {
                // The right side comes first, so that the first operand is the last one.
                Some((one, other)) => {
                    let one = self.first_of(next.place, one);
                    open.push(one)?;
                    open.push(self.after(one, other))?;
                }
                None => left.push(next)?,
            }
        }
        self.rows.push(Row { joint, left, held })?;
        Ok(())
    }

    // Adds the parts of a part that have a test as a row.
    fn push_parts(
        &mut self,
        here: Placed<'a>,
        held: Vec<Capability<'a>>,
    ) -> Result<(), AllocError> {
        let mut left = Vec::new(self.checking.alloc);
        let mut place = here.place.saturating_add(1);
        for number in 0..count_of(here.part) {
            if let Some(part) = part_of(here.part, number) {
                if self.places.has_any(place) {
                    left.push(Placed { part, place })?;
                }
            }
            place = place.saturating_add(self.places.size(place));
        }
        // The first one is next.
        left.reverse();
        self.rows.push(Row {
            joint: Joint::Apart,
            left,
            held,
        })?;
        Ok(())
    }
}
