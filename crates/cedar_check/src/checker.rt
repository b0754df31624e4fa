//! The typing of an expression, one method for each form.
ghost use Rattle.std.specs.Prelude.{◌≡◌, ◌++◌, [], IfOk, Some};
ghost use Rattle.cedar_ast_expressions.specs.Expression.{and, binary, entries_of, expressions_of, record_with, set_with};
ghost use Rattle.cedar_ast_expressions.specs.Keys.{AreDistinct, keys_of};
ghost use Rattle.cedar_check_spec.specs.Rows.{binary_type};
ghost use Rattle.cedar_check_spec.specs.Private.Checking.{and_type, if_type, on_boolean, on_two, or_type, type_of_with, types_onto};
ghost use Rattle.cedar_check_operators.specs.View.{element_view, held_view, tree_of, typing_view};
ghost use Rattle.cedar_check.specs.Private.Spine.{left_of, row_from};

use crate::branches::{if_joined, if_known};
use crate::prepared::Parts;
use crate::records::{push_attribute, record_type};
use crate::rows::{and_right, binary_row, literal_type, or_right, unary_row, variable_type};
use crate::spine::Spine;
use cedar_ast_expressions::{BinaryOperator, Expr, ExprKind};
use cedar_check_operators::{
    Capability, LentType, TypeFault, Typing, extended, join_types, set_type,
};
use cedar_check_spec::Settings;
use cedar_schema::{Environment, Schema, Truth};
use cedar_value::SharedText;
use std::alloc::{AllocError, Global};

/// What typing needs of an environment, the same for each part of an expression.
#[derive(Clone, Copy)]
pub(crate) struct Checker<'a> {
    /// Where memory comes from.
    pub(crate) alloc: Global,
    /// The choices beyond strict validation.
    pub(crate) settings: Settings,
    /// The schema.
    pub(crate) schema: &'a Schema,
    /// The environment.
    pub(crate) environment: &'a Environment,
}

impl<'a> Checker<'a> {
    /// The type of an expression under these settings, in an environment where these capabilities are held, and
    /// what it gains, or why it has no type (Cedar documentation, strict validation). A high expression is mostly high on its
    /// left side, so that side is typed in a loop, from its end upwards.
    #[cycle(check)]
    #[inline(never)]
    pub(crate) fn check(
        &self,
        held: &[Capability<'a>],
        expression: &'a Expr,
    ) -> Result<Typing<'a>, AllocError>
        ensures { IfOk result (λ t. typing_view t ≡ type_of_with self.now.settings self.now.schema.now self.now.environment.now (held_view held.now) expression.now) }
    {
        let spine = Spine::new(expression);
        let mut typing = self.check_last(held, spine.last)?;
        let passed = &spine.passed[..spine.count];
        let mut count = passed.len();
        'up: while count > 0 {
            count -= 1;
            typing = self.check_row(held, passed[count], typing)?;
        }
        Ok(typing)
    }

    // The type of the last part of a spine. Mostly it has no left part.
    #[cycle(check)]
    #[inline(never)]
    fn check_last(
        &self,
        held: &[Capability<'a>],
        expression: &'a Expr,
    ) -> Result<Typing<'a>, AllocError>
        ensures { IfOk result (λ t. typing_view t ≡ type_of_with self.now.settings self.now.schema.now self.now.environment.now (held_view held.now) expression.now) }
    {
        match expression.kind() {
            ExprKind::Literal(value) => Ok(literal_type(self.alloc, self.schema, value)),
            ExprKind::Variable(variable) => Ok(variable_type(
                self.alloc,
                self.environment,
                *variable,
            )),
            ExprKind::And(left, _) => self.check_above(held, expression, left),
            ExprKind::Or(left, _) => self.check_above(held, expression, left),
            ExprKind::If(condition, _, _) => self.check_above(held, expression, condition),
            ExprKind::Unary(_, operand) => self.check_above(held, expression, operand),
            ExprKind::Binary(_, left, _) => self.check_above(held, expression, left),
            ExprKind::Set(members) => self.check_set(held, members),
            ExprKind::Record(entries) => self.check_record(held, entries.pairs()),
        }
    }

    // The type of an expression with this left part.
    #[cycle(check)]
    #[inline(never)]
    fn check_above(
        &self,
        held: &[Capability<'a>],
        expression: &'a Expr,
        left: &'a Expr,
    ) -> Result<Typing<'a>, AllocError>
        requires { left_of expression.now ≡ Some left.now }
        ensures { IfOk result (λ t. typing_view t ≡ type_of_with self.now.settings self.now.schema.now self.now.environment.now (held_view held.now) expression.now) }
    {
        let typing = self.check(held, left)?;
        self.check_row(held, expression, typing)
    }

    // The row of an expression, from the typing of its left part.
    #[cycle(check)]
    fn check_row(
        &self,
        held: &[Capability<'a>],
        expression: &'a Expr,
        left: Typing<'a>,
    ) -> Result<Typing<'a>, AllocError>
        ensures { IfOk result (λ t. typing_view t ≡ row_from self.now.settings self.now.schema.now self.now.environment.now (held_view held.now) expression.now (typing_view left.entry)) }
    {
        match expression.kind() {
            ExprKind::And(_, right) => self.check_and(held, left, right),
            ExprKind::Or(_, right) => self.check_or(held, left, right),
            ExprKind::If(_, first, second) => self.check_if(held, left, first, second),
            ExprKind::Unary(operator, operand) => unary_row(
                self.alloc,
                self.settings,
                self.schema,
                held,
                operator,
                operand,
                left,
            ),
            ExprKind::Binary(operator, operand, right) => {
                self.check_binary(held, *operator, left, operand, right)
            }
            ExprKind::Literal(_) | ExprKind::Variable(_) | ExprKind::Set(_) | ExprKind::Record(_) =>
                Ok(left),
        }
    }

    // The type of an expression where these capabilities are gained in addition to those that are held. It takes memory where
    // there are some of both.
    #[cycle(check)]
    #[inline(never)]
    fn check_holding(
        &self,
        held: &[Capability<'a>],
        gained: &[Capability<'a>],
        expression: &'a Expr,
    ) -> Result<Typing<'a>, AllocError>
        ensures { IfOk result (λ t. typing_view t ≡ type_of_with self.now.settings self.now.schema.now self.now.environment.now (held_view held.now ++ held_view gained.now) expression.now) }
    {
        if gained.is_empty() {
            return self.check(held, expression);
        }
        if held.is_empty() {
            return self.check(gained, expression);
        }
        let more = extended(self.alloc, held, gained)?;
        self.check(&more, expression)
    }

    // The row of `left && right`. Where the right side is itself a chain of `&&`, its parts are typed from the left to the
    // right: `a && (b && c)` has the type of `(a && b) && c`.
    #[cycle(check)]
    #[inline(never)]
    fn check_and(
        &self,
        held: &[Capability<'a>],
        left: Typing<'a>,
        right: &'a Expr,
    ) -> Result<Typing<'a>, AllocError>
        ensures { IfOk result (λ t. typing_view t ≡ on_boolean (typing_view left.entry) (and_type (held_view held.now) (λ k. type_of_with self.now.settings self.now.schema.now self.now.environment.now k right.now))) }
    {
        let mut typing = left;
        let mut rest = right;
        'parts: while let ExprKind::And(first, others) = rest.kind() {
            typing = self.check_part(held, typing, first)?;
            rest = others;
        }
        self.check_part(held, typing, rest)
    }

    // The row of `left && right`.
    #[cycle(check)]
    #[inline(never)]
    fn check_part(
        &self,
        held: &[Capability<'a>],
        left: Typing<'a>,
        right: &'a Expr,
    ) -> Result<Typing<'a>, AllocError>
        ensures { IfOk result (λ t. typing_view t ≡ on_boolean (typing_view left.entry) (and_type (held_view held.now) (λ k. type_of_with self.now.settings self.now.schema.now self.now.environment.now k right.now))) }
    {
        let x = match left {
            Typing::Typed(x) => x,
            Typing::Refused(fault) => return Ok(Typing::Refused(fault)),
        };
        let known = x.ty.truth();
        drop(x.ty);
        let Some(truth) = known else {
            return Ok(Typing::Refused(TypeFault::OperandKind));
        };
        if truth == Truth::False {
            return Ok(Typing::plain(self.alloc, LentType::Boolean(Truth::False)));
        }
        let right = self.check_holding(held, &x.gained, right)?;
        and_right(self.alloc, truth, x.gained, right)
    }

    // The type of `one OPERATOR two`.
    fn check_relation(
        &self,
        held: &[Capability<'a>],
        operator: BinaryOperator,
        one: &'a Expr,
        two: &'a Expr,
    ) -> Result<Typing<'a>, AllocError>
        ensures { IfOk result (λ t. typing_view t ≡ type_of_with self.now.settings self.now.schema.now self.now.environment.now (held_view held.now) (binary operator one.now two.now)) }
    {
        let typing = self.check(held, one)?;
        self.check_binary(held, operator, typing, one, two)
    }

    // The row of `left && one OPERATOR two`, where nothing is held.
    fn check_asked(
        &self,
        left: Typing<'a>,
        operator: BinaryOperator,
        one: &'a Expr,
        two: &'a Expr,
    ) -> Result<Typing<'a>, AllocError>
        ensures { IfOk result (λ t. typing_view t ≡ on_boolean (typing_view left.entry) (and_type [] (λ k. type_of_with self.now.settings self.now.schema.now self.now.environment.now k (binary operator one.now two.now)))) }
    {
        let x = match left {
            Typing::Typed(x) => x,
            Typing::Refused(fault) => return Ok(Typing::Refused(fault)),
        };
        let known = x.ty.truth();
        drop(x.ty);
        let Some(truth) = known else {
            return Ok(Typing::Refused(TypeFault::OperandKind));
        };
        if truth == Truth::False {
            return Ok(Typing::plain(self.alloc, LentType::Boolean(Truth::False)));
        }
        let asked = self.check_relation(&x.gained, operator, one, two)?;
        and_right(self.alloc, truth, x.gained, asked)
    }

    /// The type of a condition by its parts, with this literal in place of the action, where nothing is held. Where the
    /// condition on the principal is known false, the rest is not looked at.
    pub(crate) fn check_scoped(
        &self,
        parts: Parts<'a>,
        action: &'a Expr,
    ) -> Result<Typing<'a>, AllocError>
        ensures { IfOk result (λ t. typing_view t ≡ type_of_with self.now.settings self.now.schema.now self.now.environment.now [] (and parts.entry.principal.now (and (binary parts.entry.operator action.now parts.entry.operand.now) parts.entry.rest.now))) }
    {
        let typing = self.check(&[], parts.principal)?;
        let typing = self.check_asked(typing, parts.operator, action, parts.operand)?;
        self.check_and(&[], typing, parts.rest)
    }

    // The row of `left || right`.
    #[cycle(check)]
    #[inline(never)]
    fn check_or(
        &self,
        held: &[Capability<'a>],
        left: Typing<'a>,
        right: &'a Expr,
    ) -> Result<Typing<'a>, AllocError>
        ensures { IfOk result (λ t. typing_view t ≡ on_boolean (typing_view left.entry) (or_type (type_of_with self.now.settings self.now.schema.now self.now.environment.now (held_view held.now) right.now))) }
    {
        let x = match left {
            Typing::Typed(x) => x,
            Typing::Refused(fault) => return Ok(Typing::Refused(fault)),
        };
        let known = x.ty.truth();
        drop(x.ty);
        let Some(truth) = known else {
            return Ok(Typing::Refused(TypeFault::OperandKind));
        };
        if truth == Truth::True {
            return Ok(Typing::plain(self.alloc, LentType::Boolean(Truth::True)));
        }
        let right = self.check(held, right)?;
        or_right(self.alloc, truth, x.gained, right)
    }

    // The row of `if condition then first else second`, from the typing of the condition.
    #[cycle(check)]
    #[inline(never)]
    fn check_if(
        &self,
        held: &[Capability<'a>],
        condition: Typing<'a>,
        first: &'a Expr,
        second: &'a Expr,
    ) -> Result<Typing<'a>, AllocError>
        ensures { IfOk result (λ t. typing_view t ≡ on_boolean (typing_view condition.entry) (if_type (λ g. type_of_with self.now.settings self.now.schema.now self.now.environment.now (held_view held.now ++ g) first.now) (type_of_with self.now.settings self.now.schema.now self.now.environment.now (held_view held.now) second.now))) }
    {
        let x = match condition {
            Typing::Typed(x) => x,
            Typing::Refused(fault) => return Ok(Typing::Refused(fault)),
        };
        let known = x.ty.truth();
        drop(x.ty);
        match known {
            None => Ok(Typing::Refused(TypeFault::OperandKind)),
            Some(Truth::False) => self.check(held, second),
            Some(Truth::True) => {
                let chosen = self.check_holding(held, &x.gained, first)?;
                if_known(x.gained, chosen)
            }
            Some(Truth::Any) => {
                let chosen = self.check_holding(held, &x.gained, first)?;
                let other = self.check(held, second)?;
                if_joined(self.alloc, &x.gained, chosen, other)
            }
        }
    }

    // The row of an operator on two operands, from the typing of the left one.
    #[cycle(check)]
    #[inline(never)]
    fn check_binary(
        &self,
        held: &[Capability<'a>],
        operator: BinaryOperator,
        typing: Typing<'a>,
        left: &'a Expr,
        right: &'a Expr,
    ) -> Result<Typing<'a>, AllocError>
        ensures { IfOk result (λ t. typing_view t ≡ on_two (typing_view typing.entry) (type_of_with self.now.settings self.now.schema.now self.now.environment.now (held_view held.now) right.now) (binary_type self.now.schema.now operator left.now right.now)) }
    {
        if let Typing::Refused(fault) = &typing {
            return Ok(Typing::Refused(*fault));
        }
        let other = self.check(held, right)?;
        Ok(binary_row(
            self.alloc,
            self.schema,
            operator,
            left,
            right,
            typing,
            other,
        ))
    }

    // What the first type and those of the members join to.
    #[cycle(check)]
    #[inline(never)]
    fn check_members(
        &self,
        held: &[Capability<'a>],
        first: LentType<'a>,
        others: &'a [Expr],
    ) -> Result<Typing<'a>, AllocError>
        ensures { IfOk result (λ t. element_view t ≡ types_onto self.now.settings self.now.schema.now self.now.environment.now (held_view held.now) (tree_of first.entry) (expressions_of others.now)) }
    {
        let mut joined = first;
        for member in others {
            let x = match self.check(held, member)? {
                Typing::Typed(x) => x,
                Typing::Refused(fault) => return Ok(Typing::Refused(fault)),
            };
            match join_types(self.alloc, &joined, &x.ty)? {
                Some(ty) => joined = ty,
                None => return Ok(Typing::Refused(TypeFault::NoJoin)),
            }
        }
        Ok(Typing::plain(self.alloc, joined))
    }

    // A set of these members.
    #[cycle(check)]
    #[inline(never)]
    fn check_set(
        &self,
        held: &[Capability<'a>],
        members: &'a [Expr],
    ) -> Result<Typing<'a>, AllocError>
        ensures { IfOk result (λ t. typing_view t ≡ type_of_with self.now.settings self.now.schema.now self.now.environment.now (held_view held.now) (set_with (expressions_of members.now))) }
    {
        let Some((first, others)) = members.split_first() else {
            return Ok(Typing::Refused(TypeFault::EmptySet));
        };
        let x = match self.check(held, first)? {
            Typing::Typed(x) => x,
            Typing::Refused(fault) => return Ok(Typing::Refused(fault)),
        };
        let member = self.check_members(held, x.ty, others)?;
        set_type(self.alloc, member)
    }

    // A record of these entries.
    #[cycle(check)]
    #[inline(never)]
    fn check_record(
        &self,
        held: &[Capability<'a>],
        pairs: &'a [(SharedText, Expr)],
    ) -> Result<Typing<'a>, AllocError>
        requires { AreDistinct (keys_of pairs.now) }
        ensures { IfOk result (λ t. typing_view t ≡ type_of_with self.now.settings self.now.schema.now self.now.environment.now (held_view held.now) (record_with (entries_of pairs.now))) }
    {
        let mut attributes = Vec::new(self.alloc);
        for pair in pairs {
            let x = match self.check(held, &pair.1)? {
                Typing::Typed(x) => x,
                Typing::Refused(fault) => return Ok(Typing::Refused(fault)),
            };
            push_attribute(self.alloc, &mut attributes, &pair.0, x.ty)?;
        }
        record_type(self.alloc, attributes)
    }
}
