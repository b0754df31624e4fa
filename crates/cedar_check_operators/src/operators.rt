//! The rows of operators, for the types of their operands.
ghost use Rattle.std.specs.Prelude.{◌≡◌, IfOk, option_and_then};
ghost use Rattle.cedar_check_spec.specs.Rows.{IsUnaryRow, as_type, binary_type, constructed_literal_type, constructor_type};
ghost use Rattle.cedar_check_operators.specs.View.{held_view, tree_of, typed_view, typing_view};

use crate::attributes::{get_type, has_type};
use crate::capability::Capability;
use crate::equality::equal_type;
use crate::hierarchy::{in_type, is_type};
use crate::lent_type::LentType;
use crate::operands::{comparison_type, flipped, longs_type, method_type, unary_method_type};
use crate::sets::{contains_type, is_empty_type, sets_type};
use crate::type_fault::TypeFault;
use crate::typing::{Typed, Typing};
use cedar_ast_expressions::{BinaryOperator, Expr, ExprKind, UnaryOperator};
use cedar_check_spec::Settings;
use cedar_ext::ExtensionType;
use cedar_schema::{Schema, Truth};
use cedar_value::{Value, ValueKind};
use std::alloc::{AllocError, Global};

// Why a constructor of an operand that is not a string has no type. Where the constructor takes any string, the fault is the
// operand's type, and otherwise that it is not a string literal.
fn no_text(settings: Settings, made: ExtensionType) -> TypeFault {
    if settings.takes_any_string(made) {
        TypeFault::OperandKind
    } else {
        TypeFault::NoLiteral
    }
}

// The row of a constructor for a literal: a string that writes a value of its type.
fn constructed_literal_type<'a>(
    alloc: Global,
    settings: Settings,
    made: ExtensionType,
    value: &Value,
) -> Typing<'a>
    ensures { typing_view result ≡ constructed_literal_type made value.now }
{
    match value.kind() {
        ValueKind::String(text) => match made.read(text.as_str()) {
            Some(_) => Typing::plain(alloc, LentType::Extension(made)),
            None => Typing::Refused(TypeFault::NoLiteral),
        },
        _ => Typing::Refused(no_text(settings, made)),
    }
}

// The row of a constructor: one string literal that writes a value of its type. Where the settings speak of it, also any string
// that is not a literal.
fn constructor_type<'a>(
    alloc: Global,
    settings: Settings,
    made: ExtensionType,
    operand: &Expr,
    ty: &LentType<'a>,
) -> Typing<'a>
    ensures { typing_view result ≡ constructor_type settings made operand.now (tree_of ty.now) }
{
    match operand.kind() {
        ExprKind::Literal(value) => constructed_literal_type(alloc, settings, made, value),
        _ => {
            if settings.takes_any_string(made) && ty.is_string() {
                Typing::plain(alloc, LentType::Extension(made))
            } else {
                Typing::Refused(no_text(settings, made))
            }
        }
    }
}

/// The rows of the operators on one operand. Takes no memory, except for `has`, and for `.` of a type that was built.
#[tactic(auto, using(crate::proofs::Held::unary_answered))]
pub fn unary_type<'a>(
    alloc: Global,
    settings: Settings,
    schema: &'a Schema,
    held: &[Capability<'a>],
    operator: &'a UnaryOperator,
    operand: &'a Expr,
    typed: &Typed<'a>,
) -> Result<Typing<'a>, AllocError>
    ensures { IfOk result (λ t. IsUnaryRow settings schema.now (held_view held.now) operator.now operand.now (typed_view typed.now) (typing_view t)) }
{
    match operator {
        UnaryOperator::Not => match typed.ty.truth() {
            Some(truth) => Ok(Typing::plain(alloc, LentType::Boolean(flipped(truth)))),
            None => Ok(Typing::Refused(TypeFault::OperandKind)),
        },
        UnaryOperator::Negate => {
            if typed.ty.is_long() {
                Ok(Typing::plain(alloc, LentType::Long))
            } else {
                Ok(Typing::Refused(TypeFault::OperandKind))
            }
        }
        UnaryOperator::Has(key) => {
            has_type(
                alloc,
                schema,
                held,
                Capability::new(operand, key),
                &typed.ty,
            )
        }
        UnaryOperator::Get(key) => {
            get_type(
                alloc,
                schema,
                held,
                Capability::new(operand, key),
                &typed.ty,
            )
        }
        UnaryOperator::Like(_) => {
            if typed.ty.is_string() {
                Ok(Typing::plain(alloc, LentType::Boolean(Truth::Any)))
            } else {
                Ok(Typing::Refused(TypeFault::OperandKind))
            }
        }
        UnaryOperator::Is(name) => Ok(is_type(alloc, schema, name, &typed.ty)),
        UnaryOperator::Construct(made) => Ok(constructor_type(
            alloc, settings, *made, operand, &typed.ty,
        )),
        UnaryOperator::IsEmpty => Ok(is_empty_type(alloc, &typed.ty)),
        UnaryOperator::Call(method) => Ok(unary_method_type(alloc, *method, &typed.ty)),
    }
}

/// The rows of the operators on two operands. Takes no memory.
pub fn binary_type<'a>(
    alloc: Global,
    schema: &Schema,
    operator: BinaryOperator,
    left: &Expr,
    right: &Expr,
    one: &LentType<'a>,
    two: &LentType<'a>,
) -> Typing<'a>
    ensures { typing_view result ≡ option_and_then as_type (binary_type schema.now operator left.now right.now (tree_of one.now) (tree_of two.now)) }
{
    match operator {
        BinaryOperator::Equal => equal_type(alloc, left, right, one, two),
        BinaryOperator::Less | BinaryOperator::LessEqual => comparison_type(alloc, one, two),
        BinaryOperator::Add | BinaryOperator::Subtract | BinaryOperator::Multiply => {
            longs_type(alloc, LentType::Long, one, two)
        }
        BinaryOperator::In => in_type(alloc, schema, left, right, one, two),
        BinaryOperator::Contains => contains_type(alloc, one, two),
        BinaryOperator::ContainsAll | BinaryOperator::ContainsAny => sets_type(alloc, one, two),
        BinaryOperator::Call(method) => method_type(alloc, method, one, two),
    }
}
