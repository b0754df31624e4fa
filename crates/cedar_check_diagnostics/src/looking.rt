//! The parts of an expression that the checker looks at, and whether each of them has a type.
ghost use Rattle.std.specs.Prelude.{◌≡◌, ◌++◌, false, [], IfNone, IfOk, IfSome, None, Some};
ghost use Rattle.cedar_ast_expressions.specs.Expression.{Expression, expressions_of, set_with};
ghost use Rattle.cedar_check.specs.Typings.{IsTypingOf};
ghost use Rattle.cedar_check_spec.specs.Capabilities.{Capabilities};
ghost use Rattle.cedar_check_spec.specs.Private.Checking.{types_all};
ghost use Rattle.cedar_check_operators.specs.View.{held_view, tree_of};
ghost use Rattle.cedar_check_diagnostics.specs.Looking.{HasType, HasTypedParts, IsLookedAt, MayBeFalse, MayLookInto, first_members};
ghost use Rattle.cedar_check_diagnostics.specs.Paths.{IsStep};
ghost use Rattle.cedar_check_diagnostics.specs.Private.Truths.{may_fail};

use crate::checking::Checking;
use crate::parts::{count_of, denied_of};
use crate::walk::step_to;
use cedar_ast_expressions::{Expr, ExprKind, UnaryOperator};
use cedar_check_operators::{Capability, LentType, TypeFault, Typing, extended, join_types};
use cedar_check_spec::Settings;
use cedar_schema::Truth;
use std::alloc::{AllocError, Global};

/// A part of an expression that has no type.
#[derive(Drop)]
pub(crate) struct UntypedPart<'a> {
    /// Its number.
    pub(crate) number: usize,
    /// What is gained before it.
    pub(crate) gained: Vec<Capability<'a>>,
    /// The part.
    pub(crate) part: &'a Expr,
    /// Why it has no type.
    pub(crate) fault: TypeFault,
}

// A member of a set, before which nothing is gained.
fn member_without<'a>(
    alloc: Global,
    number: usize,
    member: &'a Expr,
    fault: TypeFault,
) -> UntypedPart<'a>
    ensures number { result.number ≡ number }
    ensures gained { result.gained.items ≡ [] }
    ensures part { result.part.now ≡ member.now }
{
    UntypedPart {
        number,
        gained: Vec::new(alloc),
        part: member,
        fault,
    }
}

// Whether it is a Boolean that is not known to be true.
fn may_fail(truth: Option<Truth>) -> bool
    ensures { result ≡ may_fail truth }
{
    match truth {
        Some(Truth::False) => true,
        Some(Truth::Any) => true,
        Some(Truth::True) => false,
        None => false,
    }
}

// Whether an expression is a Boolean that may be false.
fn may_be_false<'a>(
    checking: Checking<'a>,
    held: &[Capability<'a>],
    expression: &'a Expr,
) -> Result<bool, AllocError>
    ensures { IfOk result (λ b. b ≡ false → ¬ MayBeFalse checking.entry.settings checking.entry.schema.now checking.entry.environment.now (held_view held.now) expression.now) }
{
    let typing = checking.typing(held, expression)?;
    match typing {
        Typing::Refused(_) => Ok(false),
        Typing::Typed(x) => Ok(may_fail(x.ty.truth())),
    }
}

// Whether the checker looks into the operands of an operator.
fn may_look_into(settings: Settings, expression: &Expr) -> bool
    ensures { result ≡ false → ¬ MayLookInto settings expression.now }
{
    match expression.kind() {
        ExprKind::Unary(operator, _) => match operator {
            UnaryOperator::Construct(constructor) => settings.takes_any_string(*constructor),
            _ => true,
        },
        _ => true,
    }
}

/// Whether the checker may look at the part of this number, as far as its guard does not say.
pub(crate) fn may_look_at<'a>(
    checking: Checking<'a>,
    held: &[Capability<'a>],
    expression: &'a Expr,
    number: usize,
) -> Result<bool, AllocError>
    ensures { IfOk result (λ b. b ≡ false → (g : Capabilities) (p : Expression) → ¬ IsLookedAt checking.entry.settings checking.entry.schema.now checking.entry.environment.now (held_view held.now) expression.now number g p) }
{
    if !may_look_into(checking.settings, expression) {
        return Ok(false);
    }
    match denied_of(expression, number) {
        Some(denied) => may_be_false(checking, held, denied),
        None => Ok(true),
    }
}

/// The part of this number, where the checker looks at it and it has no type.
pub(crate) fn untyped_of<'a>(
    checking: Checking<'a>,
    held: &[Capability<'a>],
    expression: &'a Expr,
    number: usize,
) -> Result<Option<UntypedPart<'a>>, AllocError>
    ensures step { IfOk result (λ o. IfSome o (λ x. IsStep checking.entry.settings checking.entry.schema.now checking.entry.environment.now (held_view held.now) expression.now x.number (held_view x.gained.items) x.part.now)) }
    ensures untyped { IfOk result (λ o. IfSome o (λ x. IsTypingOf checking.entry.settings checking.entry.schema.now checking.entry.environment.now (held_view held.now ++ held_view x.gained.items) x.part.now None)) }
    ensures typed { IfOk result (λ o. IfNone o ((g : Capabilities) (p : Expression) → IsLookedAt checking.entry.settings checking.entry.schema.now checking.entry.environment.now (held_view held.now) expression.now number g p → HasType checking.entry.settings checking.entry.schema.now checking.entry.environment.now (held_view held.now ++ g) p)) }
{
    if !may_look_at(checking, held, expression, number)? {
        return Ok(None);
    }
    let Some(step) = step_to(checking, held, expression, number)? else {
        return Ok(None);
    };
    let more = extended(checking.alloc, held, &step.gained)?;
    let typing = checking.typing(&more, step.part)?;
    match typing {
        Typing::Typed(_) => Ok(None),
        Typing::Refused(fault) => Ok(Some(UntypedPart {
            number,
            gained: step.gained,
            part: step.part,
            fault,
        })),
    }
}

// The first operand, branch or entry that the checker looks at and that has no type.
fn untyped_operand<'a>(
    checking: Checking<'a>,
    held: &[Capability<'a>],
    expression: &'a Expr,
) -> Result<Option<UntypedPart<'a>>, AllocError>
    ensures step { IfOk result (λ o. IfSome o (λ x. IsStep checking.entry.settings checking.entry.schema.now checking.entry.environment.now (held_view held.now) expression.now x.number (held_view x.gained.items) x.part.now)) }
    ensures untyped { IfOk result (λ o. IfSome o (λ x. IsTypingOf checking.entry.settings checking.entry.schema.now checking.entry.environment.now (held_view held.now ++ held_view x.gained.items) x.part.now None)) }
    ensures typed { IfOk result (λ o. IfNone o (HasTypedParts checking.entry.settings checking.entry.schema.now checking.entry.environment.now (held_view held.now) expression.now)) }
{
    for number in 0..count_of(expression) {
        let found = untyped_of(checking, held, expression, number)?;
        if let Some(part) = found {
            return Ok(Some(part));
        }
    }
    Ok(None)
}

// The first member of a set, after the first one of this type, that has no type. The members after one that does not join are not
// looked at.
fn untyped_other<'a>(
    checking: Checking<'a>,
    held: &[Capability<'a>],
    first: LentType<'a>,
    members: &'a [Expr],
) -> Result<Option<UntypedPart<'a>>, AllocError>
    requires { types_all checking.settings checking.schema.now checking.environment.now (held_view held.now) (first_members 1 (expressions_of members.now)) ≡ Some (tree_of first) }
    ensures step { IfOk result (λ o. IfSome o (λ x. IsStep checking.entry.settings checking.entry.schema.now checking.entry.environment.now (held_view held.now) (set_with (expressions_of members.now)) x.number (held_view x.gained.items) x.part.now)) }
    ensures untyped { IfOk result (λ o. IfSome o (λ x. IsTypingOf checking.entry.settings checking.entry.schema.now checking.entry.environment.now (held_view held.now ++ held_view x.gained.items) x.part.now None)) }
    ensures typed { IfOk result (λ o. IfNone o (HasTypedParts checking.entry.settings checking.entry.schema.now checking.entry.environment.now (held_view held.now) (set_with (expressions_of members.now)))) }
{
    let mut joined = first;
    for number in 1..members.len() {
        let member = &members[number];
        let typing = checking.typing(held, member)?;
        let x = match typing {
            Typing::Typed(x) => x,
            Typing::Refused(fault) => return Ok(Some(member_without(
                checking.alloc,
                number,
                member,
                fault,
            ))),
        };
        match join_types(checking.alloc, &joined, &x.ty)? {
            Some(ty) => joined = ty,
            None => return Ok(None),
        }
    }
    Ok(None)
}

// The first member of a set that the checker looks at and that has no type.
fn untyped_member<'a>(
    checking: Checking<'a>,
    held: &[Capability<'a>],
    members: &'a [Expr],
) -> Result<Option<UntypedPart<'a>>, AllocError>
    ensures step { IfOk result (λ o. IfSome o (λ x. IsStep checking.entry.settings checking.entry.schema.now checking.entry.environment.now (held_view held.now) (set_with (expressions_of members.now)) x.number (held_view x.gained.items) x.part.now)) }
    ensures untyped { IfOk result (λ o. IfSome o (λ x. IsTypingOf checking.entry.settings checking.entry.schema.now checking.entry.environment.now (held_view held.now ++ held_view x.gained.items) x.part.now None)) }
    ensures typed { IfOk result (λ o. IfNone o (HasTypedParts checking.entry.settings checking.entry.schema.now checking.entry.environment.now (held_view held.now) (set_with (expressions_of members.now)))) }
{
    if members.is_empty() {
        return Ok(None);
    }
    let first = &members[0];
    let typing = checking.typing(held, first)?;
    match typing {
        Typing::Typed(x) => untyped_other(checking, held, x.ty, members),
        Typing::Refused(fault) => Ok(Some(member_without(checking.alloc, 0, first, fault))),
    }
}

/// The first part of an expression that the checker looks at and that has no type; none where each of them has one.
pub(crate) fn untyped_part_of<'a>(
    checking: Checking<'a>,
    held: &[Capability<'a>],
    expression: &'a Expr,
) -> Result<Option<UntypedPart<'a>>, AllocError>
    ensures step { IfOk result (λ o. IfSome o (λ x. IsStep checking.entry.settings checking.entry.schema.now checking.entry.environment.now (held_view held.now) expression.now x.number (held_view x.gained.items) x.part.now)) }
    ensures untyped { IfOk result (λ o. IfSome o (λ x. IsTypingOf checking.entry.settings checking.entry.schema.now checking.entry.environment.now (held_view held.now ++ held_view x.gained.items) x.part.now None)) }
    ensures typed { IfOk result (λ o. IfNone o (HasTypedParts checking.entry.settings checking.entry.schema.now checking.entry.environment.now (held_view held.now) expression.now)) }
{
    match expression.kind() {
        ExprKind::Set(members) => untyped_member(checking, held, members),
        _ => untyped_operand(checking, held, expression),
    }
}
