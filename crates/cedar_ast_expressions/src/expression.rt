//! Expressions, which contracts see as trees with no pointers.
ghost use Rattle.std.specs.Prelude.{◌≡◌, IfOk, IfErr};
ghost use Rattle.cedar_ast_expressions.specs.Expression.{literal, variable, and, or, if_else, unary, binary, set_with, record_with, expressions_of, entries_of};
ghost use Rattle.cedar_ast_expressions.specs.ExprKind.{expression_of};
ghost use Rattle.cedar_ast_expressions.specs.Keys.{AreDistinct, keys_of};
ghost use Rattle.cedar_ast_expressions.specs.RecordFault.{number_of, refused};
ghost use Rattle.cedar_ast_expressions.specs.Replacement.{replace};

use crate::entries::Entries;
use crate::operator::{BinaryOperator, UnaryOperator};
use crate::record_fault::RecordFault;
use crate::replacement::replaced_part;
use crate::variable::Variable;
use cedar_value::{SharedText, Uid, Value};
use std::alloc::{AllocError, Global};
use std::marker::Model;

/// The form of an expression, with its parts (Cedar language reference, expressions).
#[cycle(expression)]
#[derive(Drop)]
pub enum ExprKind {
    /// A value.
    Literal(Value),
    /// A part of the request.
    Variable(Variable),
    /// `&&`; the right side is evaluated only where the left one is true.
    And(Box<Expr>, Box<Expr>),
    /// `||`; the right side is evaluated only where the left one is false.
    Or(Box<Expr>, Box<Expr>),
    /// `if`, the condition first; one of the two branches is evaluated.
    If(Box<Expr>, Box<Expr>, Box<Expr>),
    /// An operator on one operand.
    Unary(UnaryOperator, Box<Expr>),
    /// An operator on two operands.
    Binary(BinaryOperator, Box<Expr>, Box<Expr>),
    /// The set of the members' values.
    Set(Vec<Expr>),
    /// The record of the entries' keys and values.
    Record(Entries),
}

/// An expression, which contracts see as an `Expression`.
#[cycle(expression)]
pub struct Expr {
    kind: ExprKind,
}

impl Drop for Expr {
    /// Frees the expression. It has no contract: there is nothing to say beside safety.
    ///
    /// What frees an expression calls itself for each level. A derived `drop` would be compiled once more in each crate that drops
    /// an expression, and a level would need twice the call stack in some. This function is compiled once, and is not inlined.
    #[cycle(freeing)]
    #[inline(never)]
    fn drop(self) {
        let Expr { kind } = self;
        drop(kind);
    }
}

impl Model for Expr {
    ghost use Rattle.cedar_ast_expressions.specs.Expression.{Expression};
    ghost use Rattle.cedar_ast_expressions.specs.Private.ExpressionCode.{expression_code};

    ghost Value = { Expression };

    ghost coded = { expression_code };

    ghost use Rattle.cedar_ast_expressions.specs.Private.Depth.{depth};
    ghost use Rattle.cedar_ast_expressions.specs.ExprKind.{expression_of};

    ghost view = { λ e. expression_of e.kind };

    ghost size = { depth };

    ghost use Rattle.cedar_ast_expressions.specs.Private.Falls.{deep_le-depth};

    ghost size_decreases = { λ e _. deep_le-depth e.kind };
}

impl Expr {
    /// The expression of this form. Takes no memory.
    pub fn new(kind: ExprKind) -> Self
        ensures { result ≡ expression_of kind }
    {
        Expr { kind }
    }

    /// A value. Takes no memory.
    pub fn literal(value: Value) -> Self
        ensures { result ≡ literal value }
    {
        Expr::new(ExprKind::Literal(value))
    }

    /// A part of the request. Takes no memory.
    pub fn variable(name: Variable) -> Self
        ensures { result ≡ variable name }
    {
        Expr::new(ExprKind::Variable(name))
    }

    /// `left && right`.
    ///
    /// # Errors
    ///
    /// Fails only when out of memory.
    pub fn and(alloc: Global, left: Expr, right: Expr) -> Result<Self, AllocError>
        ensures { IfOk result (λ e. e ≡ and left right) }
    {
        let (left, right) = boxed(alloc, left, right)?;
        Ok(Expr::new(ExprKind::And(left, right)))
    }

    /// `left || right`.
    ///
    /// # Errors
    ///
    /// Fails only when out of memory.
    pub fn or(alloc: Global, left: Expr, right: Expr) -> Result<Self, AllocError>
        ensures { IfOk result (λ e. e ≡ or left right) }
    {
        let (left, right) = boxed(alloc, left, right)?;
        Ok(Expr::new(ExprKind::Or(left, right)))
    }

    /// `if condition then if_true else if_false`.
    ///
    /// # Errors
    ///
    /// Fails only when out of memory.
    pub fn if_else(
        alloc: Global,
        condition: Expr,
        if_true: Expr,
        if_false: Expr,
    ) -> Result<Self, AllocError>
        ensures { IfOk result (λ e. e ≡ if_else condition if_true if_false) }
    {
        let (if_true, if_false) = boxed(alloc, if_true, if_false)?;
        let condition = Box::new(alloc, condition)?;
        Ok(Expr::new(ExprKind::If(condition, if_true, if_false)))
    }

    /// An operator on its operand.
    ///
    /// # Errors
    ///
    /// Fails only when out of memory.
    pub fn unary(alloc: Global, operator: UnaryOperator, operand: Expr) -> Result<Self, AllocError>
        ensures { IfOk result (λ e. e ≡ unary operator operand) }
    {
        let operand = Box::new(alloc, operand)?;
        Ok(Expr::new(ExprKind::Unary(operator, operand)))
    }

    /// An operator on its operands.
    ///
    /// # Errors
    ///
    /// Fails only when out of memory.
    pub fn binary(
        alloc: Global,
        operator: BinaryOperator,
        left: Expr,
        right: Expr,
    ) -> Result<Self, AllocError>
        ensures { IfOk result (λ e. e ≡ binary operator left right) }
    {
        let (left, right) = boxed(alloc, left, right)?;
        Ok(Expr::new(ExprKind::Binary(operator, left, right)))
    }

    /// The set of these members. Takes no memory.
    pub fn set(members: Vec<Expr>) -> Self
        ensures { result ≡ set_with (expressions_of members.items) }
    {
        Expr::new(ExprKind::Set(members))
    }

    /// The record of these keys with their expressions, in the order in which they are written (Cedar language reference,
    /// records).
    ///
    /// # Errors
    ///
    /// 203 where a key is repeated, 1 when out of memory. Each hands the pairs back.
    pub fn record(alloc: Global, pairs: Vec<(SharedText, Expr)>) -> Result<Self, RecordFault>
        ensures ok { IfOk result (λ e. e ≡ record_with (entries_of pairs.items)) }
        ensures distinct { IfOk result (λ e. AreDistinct (keys_of pairs.items)) }
        ensures duplicate { IfErr result (λ fault. number_of fault ≡ 203 → AreDistinct (keys_of pairs.items) → ⊥) }
        ensures handed_back { IfErr result (λ fault. refused fault ≡ pairs.items) }
    {
        let entries = Entries::new(alloc, pairs)?;
        Ok(Expr::new(ExprKind::Record(entries)))
    }

    /// A copy in which the variable `action` is replaced by a uid wherever it occurs, as the strict checker types a condition
    /// in an environment.
    ///
    /// # Errors
    ///
    /// Fails only when out of memory.
    pub fn with_action(&self, alloc: Global, action: &Uid) -> Result<Self, AllocError>
        ensures { IfOk result (λ e. e ≡ replace action.now self.now) }
    {
        Ok(Box::into_inner(replaced_part(alloc, self, Some(action))?))
    }

    /// The form, with its parts, lent.
    pub fn kind(&self) -> &ExprKind
        ensures { expression_of result.now ≡ self.now }
    {
        &self.kind
    }

    /// A copy, equal to the original.
    ///
    /// # Errors
    ///
    /// Fails only when out of memory.
    pub fn try_clone(&self, alloc: Global) -> Result<Self, AllocError>
        ensures { IfOk result (λ e. e ≡ self.now) }
    {
        Ok(Box::into_inner(replaced_part(alloc, self, None)?))
    }
}

// The two expressions, each in a box.
fn boxed(alloc: Global, left: Expr, right: Expr) -> Result<(Box<Expr>, Box<Expr>), AllocError>
    ensures left { IfOk result (λ both. both.0.value ≡ left) }
    ensures right { IfOk result (λ both. both.1.value ≡ right) }
{
    match Box::new(alloc, left) {
        Ok(left) => Ok((left, Box::new(alloc, right)?)),
        Err(refused) => {
            drop(right);
            Err(refused.into())
        }
    }
}
