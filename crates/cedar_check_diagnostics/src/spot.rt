//! Where a condition has no type.
use crate::checking::Checking;
use crate::refusal::Operand;
use crate::type_words::add_type;
use crate::walk::step_to;
use crate::words::Words;
use base_places::Draft;
use cedar_ast_expressions::Expr;
use cedar_check_operators::{Capability, LentType, Typing, extended};
use std::alloc::{AllocError, Global};

/// A part of a condition that has no type, and what is around it.
#[derive(Clone, Copy)]
pub(crate) struct Spot<'a> {
    /// What typing needs.
    pub(crate) checking: Checking<'a>,
    /// What is held at the part.
    pub(crate) held: &'a [Capability<'a>],
    /// The part.
    pub(crate) part: &'a Expr,
    /// The expressions around the part, from the condition to the one that it is a part of.
    pub(crate) above: &'a [&'a Expr],
    /// From the condition to the part, the number of the child at each step.
    pub(crate) path: &'a [usize],
}

impl<'a> Spot<'a> {
    /// Where memory comes from.
    pub(crate) fn alloc(self) -> Global {
        self.checking.alloc
    }

    /// The expression that the part is a part of.
    pub(crate) fn parent(self) -> Option<&'a Expr> {
        self.above.last().copied()
    }

    /// Whether the part is reached from the condition by second children alone, as the scopes and the conditions of a policy are.
    pub(crate) fn is_joint(self) -> bool {
        for number in self.path {
            if *number != 1 {
                return false;
            }
        }
        true
    }

    /// The type of a part of the part, where it has one.
    pub(crate) fn part_type(self, number: usize) -> Result<Option<LentType<'a>>, AllocError> {
        let Some(next) = step_to(self.checking, self.held, self.part, number)? else {
            return Ok(None);
        };
        let held = extended(self.checking.alloc, self.held, &next.gained)?;
        match self.checking.typing(&held, next.part)? {
            Typing::Typed(x) => Ok(Some(x.ty)),
            Typing::Refused(_) => Ok(None),
        }
    }

    /// Adds a part of the part to the operands, with its type in words.
    pub(crate) fn add_operand(
        self,
        words: &mut Words,
        number: usize,
        ty: &LentType<'_>,
    ) -> Result<(), AllocError> {
        let mut path = Vec::from_slice(self.checking.alloc, self.path)?;
        path.push(number)?;
        let mut says = Draft::new(self.checking.alloc);
        add_type(&mut says, ty);
        let says = says.done()?;
        words.operands.push(Operand { path, says })?;
        Ok(())
    }

    /// Adds two parts of the part to the operands, with their types in words. Returns the types, or none where one of them has none.
    pub(crate) fn add_operands(
        self,
        words: &mut Words,
        one: usize,
        two: usize,
    ) -> Result<Option<(LentType<'a>, LentType<'a>)>, AllocError> {
        let Some(left) = self.part_type(one)? else {
            return Ok(None);
        };
        let Some(right) = self.part_type(two)? else {
            return Ok(None);
        };
        self.add_operand(words, one, &left)?;
        self.add_operand(words, two, &right)?;
        Ok(Some((left, right)))
    }
}
