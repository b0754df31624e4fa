//! `<` and `<=` on values of extension types (Cedar language reference, comparison operators).
ghost use Rattle.std.specs.Prelude.{◌≡◌, int_lt, int_le};
ghost use Rattle.cedar_ext.specs.Methods.{OrderedAreTyped, is_ordered, ordered_of};

use crate::extension::{Extension, ExtensionType};
use crate::method_error::MethodError;
use crate::scalar::Scalar;

impl ExtensionType {
    /// Whether `<` and `<=` compare values of the type: those of datetimes and of durations.
    pub fn is_ordered(self) -> bool
        ensures { result ≡ is_ordered self }
    {
        match self {
            ExtensionType::Decimal | ExtensionType::Ip => false,
            ExtensionType::Datetime | ExtensionType::Duration => true,
        }
    }
}

impl Extension {
    /// What `<` gives for two values.
    ///
    /// # Errors
    ///
    /// `Type` where they are not two datetimes or two durations.
    pub fn less(&self, other: &Extension) -> Result<Scalar, MethodError>
        ensures { result ≡ ordered_of int_lt self.now other.now }
    {
        match (self, other) {
            (Extension::Datetime(one), Extension::Datetime(two)) => Ok(Scalar::Boolean(one < two)),
            (Extension::Duration(one), Extension::Duration(two)) => Ok(Scalar::Boolean(one < two)),
            _ => Err(MethodError::Type),
        }
    }

    /// What `<=` gives for two values.
    ///
    /// # Errors
    ///
    /// `Type` where they are not two datetimes or two durations.
    pub fn less_equal(&self, other: &Extension) -> Result<Scalar, MethodError>
        ensures { result ≡ ordered_of int_le self.now other.now }
    {
        match (self, other) {
            (Extension::Datetime(one), Extension::Datetime(two)) => Ok(Scalar::Boolean(one <= two)),
            (Extension::Duration(one), Extension::Duration(two)) => Ok(Scalar::Boolean(one <= two)),
            _ => Err(MethodError::Type),
        }
    }
}

/// `<` and `<=` give a Boolean for two values of one type that they compare (cedar-spec, Lean: `Cedar.Thm.Validation`). A law: it runs
/// no code.
pub fn ordered_are_typed()
    ensures { OrderedAreTyped }
{}
