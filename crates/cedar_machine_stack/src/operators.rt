//! The operators on values (Cedar language reference, operators).
ghost use Rattle.std.specs.Prelude.{◌≡◌, ◌+ℤ◌, ◌-ℤ◌, ◌*ℤ◌, IfSome, Ok, Err, int_lt, int_le};
ghost use Rattle.std.specs.List.{list_all, list_any};
ghost use Rattle.cedar_ext.specs.Matching.{is_match};
ghost use Rattle.cedar_value.specs.Datum.{boolean, long, uid, set, members_of};
ghost use Rattle.cedar_value.specs.Glance.{datum_seen};
ghost use Rattle.cedar_value.specs.Sets.{has_member};
ghost use Rattle.cedar_value.specs.World.{World};
ghost use Rattle.cedar_ast_expressions.specs.Operators.{unary_of, binary_of, not_of, negative_of, source, has_in, like_of, is_of, constructed, called, called_alone, compared, scalar_or_error, of_longs, of_set, of_sets, is_empty, long_or_overflow, in_of, is_uid};
ghost use Rattle.cedar_machine_stack.specs.Access.{IsNoAccess};
ghost use Rattle.cedar_machine_stack.specs.Truth.{truth_found};

use crate::operand::Operand;
use cedar_ast_expressions::{BinaryOperator, EvaluationError, UnaryOperator};
use cedar_ext::{BinaryMethod, ExtensionType, MethodError, Pattern, Scalar, UnaryMethod};
use cedar_value::{Glance, Hierarchy, Name, Uid, Value, ValueKind, ValueSet};

/// The answer of an operator for its operand (Cedar language reference, operators).
pub fn unary<'a, H: Hierarchy>(
    hierarchy: &'a H,
    operator: &UnaryOperator,
    operand: Operand<'a>,
) -> Result<Operand<'a>, EvaluationError>
    ensures { result ≡ unary_of (H.world hierarchy.now) operator.now operand.entry }
{
    match operator {
        UnaryOperator::Get(key) => operand.into_attribute(key.as_str(), hierarchy),
        _ => unary_but_get(hierarchy, operator, operand.glance()),
    }
}

/// The answer of an operator other than the look-up of an attribute (Cedar language reference, operators).
pub fn unary_but_get<H: Hierarchy>(
    hierarchy: &H,
    operator: &UnaryOperator,
    operand: Glance<'_>,
) -> Result<Operand<'static>, EvaluationError>
    requires { IsNoAccess operator.now }
    ensures { result ≡ unary_of (H.world hierarchy.now) operator.now (datum_seen operand.entry) }
{
    match operator {
        UnaryOperator::Get(_) => unreachable!(),
        UnaryOperator::Not => not(operand),
        UnaryOperator::Negate => negative(operand),
        UnaryOperator::Has(key) => has(hierarchy, key.as_str(), operand),
        UnaryOperator::Like(pattern) => like(pattern, operand),
        UnaryOperator::Is(ty) => is(ty, operand),
        UnaryOperator::Construct(ty) => construct(*ty, operand),
        UnaryOperator::IsEmpty => is_empty(operand),
        UnaryOperator::Call(method) => call_alone(*method, operand),
    }
}

/// The truth of an operator's answer for a value that is looked at, where a Boolean is expected, or the error (Cedar language
/// reference, operators).
pub fn truth_of_one<H: Hierarchy>(
    hierarchy: &H,
    operator: &UnaryOperator,
    operand: Glance<'_>,
) -> Result<bool, EvaluationError>
    ensures { result ≡ truth_found (unary_of (H.world hierarchy.now) operator.now (datum_seen operand.entry)) }
{
    truth_or_error(unary(hierarchy, operator, Operand::lent(operand)))
}

// The truth of an answer, where a Boolean is expected.
#[inline(always)]
fn truth_or_error(answer: Result<Operand<'_>, EvaluationError>) -> Result<bool, EvaluationError>
    ensures { result ≡ truth_found answer.entry }
{
    match answer {
        Ok(operand) => match operand.truth() {
            Some(truth) => Ok(truth),
            None => Err(EvaluationError::Type),
        },
        Err(error) => Err(error),
    }
}

// `!`
fn not(operand: Glance<'_>) -> Result<Operand<'static>, EvaluationError>
    ensures { result ≡ not_of (datum_seen operand.entry) }
{
    match operand {
        Glance::Boolean(truth) => Ok(Operand::boolean(!truth)),
        _ => Err(EvaluationError::Type),
    }
}

// `-`
fn negative(operand: Glance<'_>) -> Result<Operand<'static>, EvaluationError>
    ensures { result ≡ negative_of (datum_seen operand.entry) }
{
    match operand {
        Glance::Long(number) => {
            let negative = number.checked_neg().ok_or(EvaluationError::Overflow)?;
            Ok(Operand::long(negative))
        }
        _ => Err(EvaluationError::Type),
    }
}

// `has`
fn has<H: Hierarchy>(
    hierarchy: &H,
    key: &str,
    operand: Glance<'_>,
) -> Result<Operand<'static>, EvaluationError>
    ensures { result ≡ has_in key.now (source (H.world hierarchy.now) (datum_seen operand.entry)) }
{
    match operand {
        Glance::Record(pairs) => Ok(Operand::boolean(pairs.get(key).is_some())),
        Glance::Uid(entity) => match hierarchy.attributes(entity) {
            Some(pairs) => Ok(Operand::boolean(pairs.get(key).is_some())),
            None => Ok(Operand::boolean(false)),
        },
        _ => Err(EvaluationError::Type),
    }
}

// `like`
fn like(pattern: &Pattern, operand: Glance<'_>) -> Result<Operand<'static>, EvaluationError>
    ensures { result ≡ like_of (datum_seen operand.entry) (is_match pattern.now) }
{
    match operand {
        Glance::String(text) => Ok(Operand::boolean(pattern.matches(text.as_str()))),
        _ => Err(EvaluationError::Type),
    }
}

// `is`
fn is(ty: &Name, operand: Glance<'_>) -> Result<Operand<'static>, EvaluationError>
    ensures { result ≡ is_of ty.now (datum_seen operand.entry) }
{
    match operand {
        Glance::Uid(entity) => Ok(Operand::boolean(entity.ty == *ty)),
        _ => Err(EvaluationError::Type),
    }
}

// The constructor of an extension type.
fn construct(ty: ExtensionType, operand: Glance<'_>) -> Result<Operand<'static>, EvaluationError>
    ensures { result ≡ constructed ty (datum_seen operand.entry) }
{
    match operand {
        Glance::String(text) => match ty.read(text.as_str()) {
            Some(value) => Ok(Operand::extension(value)),
            None => Err(EvaluationError::Decimal),
        },
        _ => Err(EvaluationError::Type),
    }
}

// `isEmpty`
fn is_empty(operand: Glance<'_>) -> Result<Operand<'static>, EvaluationError>
    ensures { result ≡ of_set is_empty (datum_seen operand.entry) }
{
    match operand {
        Glance::Set(members) => Ok(Operand::boolean(members.members().is_empty())),
        _ => Err(EvaluationError::Type),
    }
}

/// The answer of an operator for two operands (Cedar language reference, operators). Two numbers are compared directly, without
/// the general case.
#[inline(always)]
pub fn of_two<H: Hierarchy>(
    hierarchy: &H,
    operator: BinaryOperator,
    left: &Operand<'_>,
    right: &Operand<'_>,
) -> Result<Operand<'static>, EvaluationError>
    ensures { result ≡ binary_of (H.world hierarchy.now) operator left.now right.now }
{
    if let (Some(one), Some(two)) = (left.number(), right.number())
        && let Some(truth) = compare_numbers(operator, one, two)
    {
        return Ok(Operand::boolean(truth));
    }
    binary(hierarchy, operator, left.glance(), right.glance())
}

/// The truth of an operator's answer for two values that are looked at, where a Boolean is expected, or the error (Cedar language
/// reference, operators). Two numbers are compared directly, without the general case, and no operand is made of the answer.
#[inline(always)]
pub fn truth_of_two<H: Hierarchy>(
    hierarchy: &H,
    operator: BinaryOperator,
    left: Glance<'_>,
    right: Glance<'_>,
) -> Result<bool, EvaluationError>
    ensures { result ≡ truth_found (binary_of (H.world hierarchy.now) operator (datum_seen left.entry) (datum_seen right.entry)) }
{
    if let (Glance::Long(one), Glance::Long(two)) = (left, right)
        && let Some(truth) = compare_numbers(operator, one, two)
    {
        return Ok(truth);
    }
    truth_in_general(hierarchy, operator, left, right)
}

// The truth of the answer for two values of any types. No operand is made of the answer for two values of extension types.
fn truth_in_general<H: Hierarchy>(
    hierarchy: &H,
    operator: BinaryOperator,
    left: Glance<'_>,
    right: Glance<'_>,
) -> Result<bool, EvaluationError>
    ensures { result ≡ truth_found (binary_of (H.world hierarchy.now) operator (datum_seen left.entry) (datum_seen right.entry)) }
{
    match (operator, left, right) {
        (BinaryOperator::Equal, _, _) => Ok(left.same(right)),
        (BinaryOperator::Less, Glance::Extension(left), Glance::Extension(right)) => {
            truth_given(left.less(right))
        }
        (BinaryOperator::LessEqual, Glance::Extension(left), Glance::Extension(right)) => {
            truth_given(left.less_equal(right))
        }
        (BinaryOperator::Call(method), Glance::Extension(left), Glance::Extension(right)) => {
            truth_given(method.call(left, right))
        }
        _ => truth_or_error(binary(hierarchy, operator, left, right)),
    }
}

// The truth of what a method of an extension type gives, where a Boolean is expected.
#[inline(always)]
fn truth_given(given: Result<Scalar, MethodError>) -> Result<bool, EvaluationError>
    ensures { result ≡ truth_found (scalar_or_error given) }
{
    match given {
        Ok(Scalar::Boolean(truth)) => Ok(truth),
        Ok(_) => Err(EvaluationError::Type),
        Err(error) => Err(error_of(error)),
    }
}

// Whether two numbers compare as the operator says, for an operator that compares numbers.
#[inline(always)]
fn compare_numbers(operator: BinaryOperator, one: i64, two: i64) -> Option<bool>
    ensures { IfSome result (λ b. (w : World) → binary_of w operator (long one) (long two) ≡ Ok (boolean b)) }
{
    match operator {
        BinaryOperator::Equal => Some(one == two),
        BinaryOperator::Less => Some(one < two),
        BinaryOperator::LessEqual => Some(one <= two),
        _ => None,
    }
}

/// The answer of an operator for its two operands (Cedar language reference, operators).
pub fn binary<H: Hierarchy>(
    hierarchy: &H,
    operator: BinaryOperator,
    left: Glance<'_>,
    right: Glance<'_>,
) -> Result<Operand<'static>, EvaluationError>
    ensures { result ≡ binary_of (H.world hierarchy.now) operator (datum_seen left.entry) (datum_seen right.entry) }
{
    match operator {
        BinaryOperator::Equal => Ok(Operand::boolean(left.same(right))),
        BinaryOperator::Less => less(left, right),
        BinaryOperator::LessEqual => less_equal(left, right),
        BinaryOperator::Add => add(left, right),
        BinaryOperator::Subtract => subtract(left, right),
        BinaryOperator::Multiply => multiply(left, right),
        BinaryOperator::In => within(hierarchy, left, right),
        BinaryOperator::Contains => contains(left, right),
        BinaryOperator::ContainsAll => contains_all(left, right),
        BinaryOperator::ContainsAny => contains_any(left, right),
        BinaryOperator::Call(method) => call(method, left, right),
    }
}

// `<`
fn less(left: Glance<'_>, right: Glance<'_>) -> Result<Operand<'static>, EvaluationError>
    ensures { result ≡ compared int_lt (datum_seen left.entry) (datum_seen right.entry) }
{
    match (left, right) {
        (Glance::Long(left), Glance::Long(right)) => Ok(Operand::boolean(left < right)),
        (Glance::Extension(left), Glance::Extension(right)) => answer(left.less(right)),
        _ => Err(EvaluationError::Type),
    }
}

// `<=`
fn less_equal(left: Glance<'_>, right: Glance<'_>) -> Result<Operand<'static>, EvaluationError>
    ensures { result ≡ compared int_le (datum_seen left.entry) (datum_seen right.entry) }
{
    match (left, right) {
        (Glance::Long(left), Glance::Long(right)) => Ok(Operand::boolean(left <= right)),
        (Glance::Extension(left), Glance::Extension(right)) => answer(left.less_equal(right)),
        _ => Err(EvaluationError::Type),
    }
}

// `+`
fn add(left: Glance<'_>, right: Glance<'_>) -> Result<Operand<'static>, EvaluationError>
    ensures { result ≡ of_longs (λ m n. long_or_overflow (m +ℤ n)) (datum_seen left.entry) (datum_seen right.entry) }
{
    match (left, right) {
        (Glance::Long(left), Glance::Long(right)) => {
            let sum = left.checked_add(right).ok_or(EvaluationError::Overflow)?;
            Ok(Operand::long(sum))
        }
        _ => Err(EvaluationError::Type),
    }
}

// `-`
fn subtract(left: Glance<'_>, right: Glance<'_>) -> Result<Operand<'static>, EvaluationError>
    ensures { result ≡ of_longs (λ m n. long_or_overflow (m -ℤ n)) (datum_seen left.entry) (datum_seen right.entry) }
{
    match (left, right) {
        (Glance::Long(left), Glance::Long(right)) => {
            let difference = left.checked_sub(right).ok_or(EvaluationError::Overflow)?;
            Ok(Operand::long(difference))
        }
        _ => Err(EvaluationError::Type),
    }
}

// `*`
fn multiply(left: Glance<'_>, right: Glance<'_>) -> Result<Operand<'static>, EvaluationError>
    ensures { result ≡ of_longs (λ m n. long_or_overflow (m *ℤ n)) (datum_seen left.entry) (datum_seen right.entry) }
{
    match (left, right) {
        (Glance::Long(left), Glance::Long(right)) => {
            let product = left.checked_mul(right).ok_or(EvaluationError::Overflow)?;
            Ok(Operand::long(product))
        }
        _ => Err(EvaluationError::Type),
    }
}

// What a method of an extension type gives.
fn answer(given: Result<Scalar, MethodError>) -> Result<Operand<'static>, EvaluationError>
    ensures { result ≡ scalar_or_error given }
{
    match given {
        Ok(Scalar::Boolean(truth)) => Ok(Operand::boolean(truth)),
        Ok(Scalar::Long(number)) => Ok(Operand::long(number)),
        Ok(Scalar::Extension(value)) => Ok(Operand::extension(value)),
        Err(error) => Err(error_of(error)),
    }
}

// The error of a method of an extension type.
fn error_of(error: MethodError) -> EvaluationError
    ensures { scalar_or_error (Err error) ≡ Err result }
{
    match error {
        MethodError::Type => EvaluationError::Type,
        MethodError::Overflow => EvaluationError::Overflow,
    }
}

// A method of an extension type that takes no argument.
fn call_alone(method: UnaryMethod, operand: Glance<'_>) -> Result<Operand<'static>, EvaluationError>
    ensures { result ≡ called_alone method (datum_seen operand.entry) }
{
    match operand {
        Glance::Extension(value) => answer(method.call(value)),
        _ => Err(EvaluationError::Type),
    }
}

// A method of an extension type that takes one argument.
fn call(
    method: BinaryMethod,
    left: Glance<'_>,
    right: Glance<'_>,
) -> Result<Operand<'static>, EvaluationError>
    ensures { result ≡ called method (datum_seen left.entry) (datum_seen right.entry) }
{
    match (left, right) {
        (Glance::Extension(left), Glance::Extension(right)) => answer(method.call(left, right)),
        _ => Err(EvaluationError::Type),
    }
}

// `contains`
fn contains(left: Glance<'_>, right: Glance<'_>) -> Result<Operand<'static>, EvaluationError>
    ensures { result ≡ of_set (λ ms. has_member ms (datum_seen right.entry)) (datum_seen left.entry) }
{
    match left {
        Glance::Set(members) => Ok(Operand::boolean(members.has(right))),
        _ => Err(EvaluationError::Type),
    }
}

// `containsAll`
fn contains_all(left: Glance<'_>, right: Glance<'_>) -> Result<Operand<'static>, EvaluationError>
    ensures { result ≡ of_sets (λ ms ns. list_all (has_member ms) ns) (datum_seen left.entry) (datum_seen right.entry) }
{
    match (left, right) {
        (Glance::Set(left), Glance::Set(right)) => Ok(Operand::boolean(left.contains_all(right))),
        _ => Err(EvaluationError::Type),
    }
}

// `containsAny`
fn contains_any(left: Glance<'_>, right: Glance<'_>) -> Result<Operand<'static>, EvaluationError>
    ensures { result ≡ of_sets (λ ms ns. list_any (has_member ms) ns) (datum_seen left.entry) (datum_seen right.entry) }
{
    match (left, right) {
        (Glance::Set(left), Glance::Set(right)) => Ok(Operand::boolean(left.contains_any(right))),
        _ => Err(EvaluationError::Type),
    }
}

// `in`
fn within<H: Hierarchy>(
    hierarchy: &H,
    left: Glance<'_>,
    right: Glance<'_>,
) -> Result<Operand<'static>, EvaluationError>
    ensures { result ≡ in_of (H.world hierarchy.now) (datum_seen left.entry) (datum_seen right.entry) }
{
    match (left, right) {
        (Glance::Uid(low), Glance::Uid(high)) => {
            Ok(Operand::boolean(low == high || hierarchy.is_below(low, high)))
        }
        (Glance::Uid(low), Glance::Set(highs)) => within_set(hierarchy, low, highs),
        _ => Err(EvaluationError::Type),
    }
}

// `in` a set. All members have to be uids, also those after one that qualifies.
fn within_set<H: Hierarchy>(
    hierarchy: &H,
    low: &Uid,
    highs: &ValueSet,
) -> Result<Operand<'static>, EvaluationError>
    ensures { result ≡ in_of (H.world hierarchy.now) (uid low.now) (set (members_of highs.now)) }
{
    if !all_uids(highs.members()) {
        return Err(EvaluationError::Type);
    }
    if highs.has(Glance::Uid(low)) {
        return Ok(Operand::boolean(true));
    }
    Ok(Operand::boolean(hierarchy.is_below_any(low, highs)))
}

// Whether the value is a uid, as each member of the set at `in` has to be.
fn is_uid(value: &Value) -> bool
    ensures { result ≡ is_uid value.now }
{
    matches!(value.kind(), ValueKind::Uid(_))
}

// Whether each member is a uid.
fn all_uids(members: &[Value]) -> bool
    ensures { result ≡ list_all is_uid members.entry.now }
{
    let mut left = members;
    'walk: while let Some((member, others)) = left.split_first() {
        if !is_uid(member) {
            return false;
        }
        left = others;
    }
    true
}
