//! The rows of strict typing for expressions whose parts are typed already, or that have none.
ghost use Rattle.std.specs.Prelude.{◌≡◌, ◌||◌, IfOk, option_and_then};
ghost use Rattle.cedar_schema_types.specs.Types.{boolean};
ghost use Rattle.cedar_schema_spec.specs.Declarations.{is_action, is_entity};
ghost use Rattle.cedar_value.specs.Datum.{uid as uid_datum};
ghost use Rattle.cedar_check_spec.specs.Rows.{binary_type, gaining};
ghost use Rattle.cedar_check_spec.specs.Private.Checking.{and_right, literal_type, on_boolean, on_two, or_right, or_type, unary_type, variable_type};
ghost use Rattle.cedar_check_operators.specs.View.{held_view, typing_view};

use cedar_ast_expressions::{BinaryOperator, Expr, UnaryOperator, Variable};
use cedar_check_operators::{
    Capability, LentType, TypeFault, Typed, Typing, binary_type, common, is_action, together,
    unary_type,
};
use cedar_check_spec::Settings;
use cedar_schema::{Environment, Schema, Truth};
use cedar_value::{Uid, Value, ValueKind};
use std::alloc::{AllocError, Global};

/// Whether the literal of a uid has a type: the uid's type is a declared entity type and has it, or the uid is a declared action.
pub(crate) fn is_declared(schema: &Schema, uid: &Uid) -> bool
    ensures { result ≡ (is_entity schema.now uid.now || is_action schema.now uid.now) }
{
    schema.attributes(&uid.ty).is_some() && schema.lists_uid(uid) || is_action(schema, uid)
}

// The type of a uid that is written.
fn uid_type<'a>(alloc: Global, schema: &Schema, uid: &'a Uid) -> Typing<'a>
    ensures { typing_view result ≡ literal_type schema.now (uid_datum uid.now) }
{
    if is_declared(schema, uid) {
        Typing::plain(alloc, LentType::Entity(&uid.ty))
    } else {
        Typing::Refused(TypeFault::Undeclared)
    }
}

/// The row of literals.
#[inline(never)]
pub(crate) fn literal_type<'a>(alloc: Global, schema: &Schema, value: &'a Value) -> Typing<'a>
    ensures { typing_view result ≡ literal_type schema.now value.now }
{
    match value.kind() {
        ValueKind::Boolean(true) => Typing::plain(alloc, LentType::Boolean(Truth::True)),
        ValueKind::Boolean(false) => Typing::plain(alloc, LentType::Boolean(Truth::False)),
        ValueKind::Long(_) => Typing::plain(alloc, LentType::Long),
        ValueKind::String(_) => Typing::plain(alloc, LentType::String),
        ValueKind::Uid(uid) => uid_type(alloc, schema, uid),
        ValueKind::Set(_) | ValueKind::Record(_) | ValueKind::Extension(_) => {
            Typing::Refused(TypeFault::OperandKind)
        }
    }
}

/// The row of variables. `action` has none, since the environment's action replaces it.
#[inline(never)]
pub(crate) fn variable_type<'a>(
    alloc: Global,
    environment: &'a Environment,
    variable: Variable,
) -> Typing<'a>
    ensures { typing_view result ≡ variable_type environment.now variable }
{
    match variable {
        Variable::Principal => Typing::plain(alloc, LentType::Entity(&environment.principal)),
        Variable::Action => Typing::Refused(TypeFault::OperandKind),
        Variable::Resource => Typing::plain(alloc, LentType::Entity(&environment.resource)),
        Variable::Context => Typing::plain(alloc, LentType::Lent(&environment.context)),
    }
}

/// The row of `&&` where the left side is not known false: what the right side gives. It takes memory where both sides gain.
#[inline(never)]
pub(crate) fn and_right<'a>(
    alloc: Global,
    truth: Truth,
    gained: Vec<Capability<'a>>,
    right: Typing<'a>,
) -> Result<Typing<'a>, AllocError>
    ensures { IfOk result (λ t. typing_view t ≡ on_boolean (typing_view right.entry) (and_right truth (held_view gained.entry.items))) }
{
    let y = match right {
        Typing::Typed(y) => y,
        Typing::Refused(fault) => return Ok(Typing::Refused(fault)),
    };
    match y.ty.truth() {
        None => Ok(Typing::Refused(TypeFault::OperandKind)),
        Some(Truth::False) => Ok(Typing::plain(alloc, LentType::Boolean(Truth::False))),
        Some(Truth::True) => Ok(Typing::Typed(Typed {
            ty: LentType::Boolean(truth),
            gained: together(gained, y.gained)?,
        })),
        Some(Truth::Any) => Ok(Typing::Typed(Typed {
            ty: LentType::Boolean(Truth::Any),
            gained: together(gained, y.gained)?,
        })),
    }
}

// A Boolean with what it gains. Another type is refused.
fn boolean_alone<'a>(typing: Typing<'a>) -> Typing<'a>
    ensures { typing_view result ≡ on_boolean (typing_view typing.entry) (λ f g. gaining (boolean f) g) }
{
    let x = match typing {
        Typing::Typed(x) => x,
        Typing::Refused(fault) => return Typing::Refused(fault),
    };
    match x.ty.truth() {
        None => Typing::Refused(TypeFault::OperandKind),
        Some(truth) => Typing::Typed(Typed {
            ty: LentType::Boolean(truth),
            gained: x.gained,
        }),
    }
}

// The row of `||` where nothing is known of the left side: what the right side gives.
#[tactic(auto, using(crate::proofs::Kept::kept_in))]
fn or_any<'a>(
    alloc: Global,
    gained: Vec<Capability<'a>>,
    right: Typing<'a>,
) -> Result<Typing<'a>, AllocError>
    ensures { IfOk result (λ t. typing_view t ≡ on_boolean (typing_view right.entry) (or_right (held_view gained.entry.items))) }
{
    let y = match right {
        Typing::Typed(y) => y,
        Typing::Refused(fault) => return Ok(Typing::Refused(fault)),
    };
    match y.ty.truth() {
        None => Ok(Typing::Refused(TypeFault::OperandKind)),
        Some(Truth::True) => Ok(Typing::plain(alloc, LentType::Boolean(Truth::True))),
        Some(Truth::False) => Ok(Typing::Typed(Typed {
            ty: LentType::Boolean(Truth::Any),
            gained,
        })),
        Some(Truth::Any) => Ok(Typing::Typed(Typed {
            ty: LentType::Boolean(Truth::Any),
            gained: common(alloc, &gained, &y.gained)?,
        })),
    }
}

/// The row of `||`: what the right side gives where the left side is not known true.
#[tactic(auto, using(crate::proofs::Kept::kept_in))]
#[inline(never)]
pub(crate) fn or_right<'a>(
    alloc: Global,
    truth: Truth,
    gained: Vec<Capability<'a>>,
    right: Typing<'a>,
) -> Result<Typing<'a>, AllocError>
    ensures { IfOk result (λ t. typing_view t ≡ or_type (typing_view right.entry) truth (held_view gained.entry.items)) }
{
    match truth {
        Truth::True => Ok(Typing::plain(alloc, LentType::Boolean(Truth::True))),
        Truth::False => Ok(boolean_alone(right)),
        Truth::Any => or_any(alloc, gained, right),
    }
}

// Why an operator on a refused operand has no type. Where a constructor takes literals alone, an operand that is not a literal
// is itself the fault.
fn unary_fault(settings: Settings, operator: &UnaryOperator, fault: TypeFault) -> TypeFault {
    match operator {
        UnaryOperator::Construct(made) => {
            if settings.takes_any_string(*made) {
                fault
            } else {
                TypeFault::NoLiteral
            }
        }
        _ => fault,
    }
}

/// The row of an operator on its operand. The operand may have no type.
#[tactic(auto, using(crate::proofs::Kept::unary_given))]
#[inline(never)]
pub(crate) fn unary_row<'a>(
    alloc: Global,
    settings: Settings,
    schema: &'a Schema,
    held: &[Capability<'a>],
    operator: &'a UnaryOperator,
    operand: &'a Expr,
    typing: Typing<'a>,
) -> Result<Typing<'a>, AllocError>
    ensures { IfOk result (λ t. typing_view t ≡ option_and_then (unary_type settings schema.now (held_view held.now) operator.now operand.now) (typing_view typing.entry)) }
{
    match typing {
        Typing::Typed(typed) => {
            unary_type(alloc, settings, schema, held, operator, operand, &typed)
        }
        Typing::Refused(fault) => Ok(Typing::Refused(unary_fault(settings, operator, fault))),
    }
}

/// The row of an operator on two operands. Either of them may have no type.
#[inline(never)]
pub(crate) fn binary_row<'a>(
    alloc: Global,
    schema: &Schema,
    operator: BinaryOperator,
    left: &Expr,
    right: &Expr,
    one: Typing<'a>,
    two: Typing<'a>,
) -> Typing<'a>
    ensures { typing_view result ≡ on_two (typing_view one.entry) (typing_view two.entry) (binary_type schema.now operator left.now right.now) }
{
    let x = match one {
        Typing::Typed(x) => x,
        Typing::Refused(fault) => return Typing::Refused(fault),
    };
    let y = match two {
        Typing::Typed(y) => y,
        Typing::Refused(fault) => return Typing::Refused(fault),
    };
    binary_type(alloc, schema, operator, left, right, &x.ty, &y.ty)
}
