//! The methods of extension types that take one argument, as a table: the name, the types and the result of each.
ghost use Rattle.std.specs.Prelude.{◌≡◌, int_lt, int_le};
ghost use Rattle.cedar_ext.specs.Methods.{call_of, has_method, method_name, method_named, of_decimals, offset_of, row_of, since_of, within_of, RowsAreTyped};

use crate::extension::{Extension, ExtensionType};
use crate::language::Language;
use crate::method_error::MethodError;
use crate::scalar::{Scalar, ScalarType};

/// A method of an extension type that takes one argument (Cedar language reference, functions).
#[derive(Clone, Copy, Debug, PartialEq, Eq)]
pub enum BinaryMethod {
    /// `lessThan`, of decimals.
    LessThan,
    /// `lessThanOrEqual`, of decimals.
    LessThanOrEqual,
    /// `greaterThan`, of decimals.
    GreaterThan,
    /// `greaterThanOrEqual`, of decimals.
    GreaterThanOrEqual,
    /// `isInRange`, of IP addresses.
    IsInRange,
    /// `offset`, of a datetime and a duration.
    Offset,
    /// `durationSince`, of datetimes.
    DurationSince,
}

/// The types of a method: of the operand before the point, of its argument, and of what it gives.
#[derive(Clone, Copy, Debug)]
pub struct Row {
    /// The type of the operand before the point.
    pub left: ExtensionType,
    /// The type of the argument.
    pub right: ExtensionType,
    /// The type of the result.
    pub result: ScalarType,
}

impl BinaryMethod {
    /// How the method is written.
    pub fn name(self) -> &'static str
        ensures { result.now ≡ method_name self }
    {
        match self {
            BinaryMethod::LessThan => "lessThan",
            BinaryMethod::LessThanOrEqual => "lessThanOrEqual",
            BinaryMethod::GreaterThan => "greaterThan",
            BinaryMethod::GreaterThanOrEqual => "greaterThanOrEqual",
            BinaryMethod::IsInRange => "isInRange",
            BinaryMethod::Offset => "offset",
            BinaryMethod::DurationSince => "durationSince",
        }
    }

    /// The method that is written like this.
    pub fn named(name: &str) -> Option<BinaryMethod>
        ensures { result ≡ method_named name.now }
    {
        match name {
            "lessThan" => Some(BinaryMethod::LessThan),
            "lessThanOrEqual" => Some(BinaryMethod::LessThanOrEqual),
            "greaterThan" => Some(BinaryMethod::GreaterThan),
            "greaterThanOrEqual" => Some(BinaryMethod::GreaterThanOrEqual),
            "isInRange" => Some(BinaryMethod::IsInRange),
            "offset" => Some(BinaryMethod::Offset),
            "durationSince" => Some(BinaryMethod::DurationSince),
            _ => None,
        }
    }

    /// Whether a language has the method: where it has the type of the operand before the point.
    pub fn is_in(self, language: Language) -> bool
        ensures { result ≡ has_method language self }
    {
        self.row().left.is_in(language)
    }

    /// The types of the method.
    pub fn row(self) -> Row
        ensures { result ≡ row_of self }
    {
        match self {
            BinaryMethod::LessThan
            | BinaryMethod::LessThanOrEqual
            | BinaryMethod::GreaterThan
            | BinaryMethod::GreaterThanOrEqual => {
                Row {
                    left: ExtensionType::Decimal,
                    right: ExtensionType::Decimal,
                    result: ScalarType::Boolean,
                }
            }
            BinaryMethod::IsInRange => Row {
                left: ExtensionType::Ip,
                right: ExtensionType::Ip,
                result: ScalarType::Boolean,
            },
            BinaryMethod::Offset => Row {
                left: ExtensionType::Datetime,
                right: ExtensionType::Duration,
                result: ScalarType::Extension(ExtensionType::Datetime),
            },
            BinaryMethod::DurationSince => Row {
                left: ExtensionType::Datetime,
                right: ExtensionType::Datetime,
                result: ScalarType::Extension(ExtensionType::Duration),
            },
        }
    }

    /// What the method gives for two operands (Cedar language reference, functions).
    ///
    /// # Errors
    ///
    /// `Type` where an operand is not of the type of the row, and `Overflow` where the result does not fit 64 bits.
    pub fn call(self, left: &Extension, right: &Extension) -> Result<Scalar, MethodError>
        ensures { result ≡ call_of self left.now right.now }
    {
        match self {
            BinaryMethod::LessThan => less_than(left, right),
            BinaryMethod::LessThanOrEqual => less_than_or_equal(left, right),
            BinaryMethod::GreaterThan => less_than(right, left),
            BinaryMethod::GreaterThanOrEqual => less_than_or_equal(right, left),
            BinaryMethod::IsInRange => is_in_range(left, right),
            BinaryMethod::Offset => offset(left, right),
            BinaryMethod::DurationSince => duration_since(left, right),
        }
    }
}

// `lessThan`
fn less_than(left: &Extension, right: &Extension) -> Result<Scalar, MethodError>
    ensures { result ≡ of_decimals int_lt left.now right.now }
{
    match (left, right) {
        (Extension::Decimal(one), Extension::Decimal(two)) => Ok(Scalar::Boolean(one < two)),
        _ => Err(MethodError::Type),
    }
}

// `lessThanOrEqual`
fn less_than_or_equal(left: &Extension, right: &Extension) -> Result<Scalar, MethodError>
    ensures { result ≡ of_decimals int_le left.now right.now }
{
    match (left, right) {
        (Extension::Decimal(one), Extension::Decimal(two)) => Ok(Scalar::Boolean(one <= two)),
        _ => Err(MethodError::Type),
    }
}

// `isInRange`
fn is_in_range(left: &Extension, right: &Extension) -> Result<Scalar, MethodError>
    ensures { result ≡ within_of left.now right.now }
{
    match (left, right) {
        (Extension::Ip(ip), Extension::Ip(range)) => Ok(Scalar::Boolean(ip.is_in_range(*range))),
        _ => Err(MethodError::Type),
    }
}

// `offset`
fn offset(left: &Extension, right: &Extension) -> Result<Scalar, MethodError>
    ensures { result ≡ offset_of left.now right.now }
{
    match (left, right) {
        (Extension::Datetime(moment), Extension::Duration(duration)) => {
            match moment.offset(*duration) {
                Some(later) => Ok(Scalar::Extension(Extension::Datetime(later))),
                None => Err(MethodError::Overflow),
            }
        }
        _ => Err(MethodError::Type),
    }
}

// `durationSince`
fn duration_since(left: &Extension, right: &Extension) -> Result<Scalar, MethodError>
    ensures { result ≡ since_of left.now right.now }
{
    match (left, right) {
        (Extension::Datetime(one), Extension::Datetime(two)) => match one.duration_since(*two) {
            Some(duration) => Ok(Scalar::Extension(Extension::Duration(duration))),
            None => Err(MethodError::Overflow),
        },
        _ => Err(MethodError::Type),
    }
}

/// Each method gives what its row says, for operands of the types that its row says (cedar-spec, Lean: `Cedar.Thm.Validation`). A
/// law: it runs no code.
pub fn rows_are_typed()
    ensures { RowsAreTyped }
{}
