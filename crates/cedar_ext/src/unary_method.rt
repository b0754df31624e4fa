//! The methods of extension types that take no argument, as a table: the name, the types and the result of each.
ghost use Rattle.std.specs.Prelude.{◌≡◌};
ghost use Rattle.cedar_ext.specs.UnaryMethods.{UnaryRowsAreTyped, datetime_call, duration_call, has_unary, ip_call, unary_call_of, unary_name, unary_named, unary_row_of};

use crate::extension::{Extension, ExtensionType};
use crate::language::Language;
use crate::method_error::MethodError;
use crate::scalar::{Scalar, ScalarType};
use cedar_ext_ip::Ip;
use cedar_ext_time::{Datetime, Duration};

/// A method of an extension type that takes no argument (Cedar language reference, functions).
#[derive(Clone, Copy, Debug, PartialEq, Eq)]
pub enum UnaryMethod {
    /// `isIpv4`, of an IP address.
    IsIpv4,
    /// `isIpv6`, of an IP address.
    IsIpv6,
    /// `isLoopback`, of an IP address.
    IsLoopback,
    /// `isMulticast`, of an IP address.
    IsMulticast,
    /// `toDate`, of a datetime.
    ToDate,
    /// `toTime`, of a datetime.
    ToTime,
    /// `toMilliseconds`, of a duration.
    ToMilliseconds,
    /// `toSeconds`, of a duration.
    ToSeconds,
    /// `toMinutes`, of a duration.
    ToMinutes,
    /// `toHours`, of a duration.
    ToHours,
    /// `toDays`, of a duration.
    ToDays,
}

/// The types of a method that takes no argument.
#[derive(Clone, Copy, Debug)]
pub struct UnaryRow {
    /// The type of the operand.
    pub operand: ExtensionType,
    /// The type of the result.
    pub result: ScalarType,
}

impl UnaryMethod {
    /// How the method is written.
    pub fn name(self) -> &'static str
        ensures { result.now ≡ unary_name self }
    {
        match self {
            UnaryMethod::IsIpv4 => "isIpv4",
            UnaryMethod::IsIpv6 => "isIpv6",
            UnaryMethod::IsLoopback => "isLoopback",
            UnaryMethod::IsMulticast => "isMulticast",
            UnaryMethod::ToDate => "toDate",
            UnaryMethod::ToTime => "toTime",
            UnaryMethod::ToMilliseconds => "toMilliseconds",
            UnaryMethod::ToSeconds => "toSeconds",
            UnaryMethod::ToMinutes => "toMinutes",
            UnaryMethod::ToHours => "toHours",
            UnaryMethod::ToDays => "toDays",
        }
    }

    /// The method that is written like this.
    pub fn named(name: &str) -> Option<UnaryMethod>
        ensures { result ≡ unary_named name.now }
    {
        match name {
            "isIpv4" => Some(UnaryMethod::IsIpv4),
            "isIpv6" => Some(UnaryMethod::IsIpv6),
            "isLoopback" => Some(UnaryMethod::IsLoopback),
            "isMulticast" => Some(UnaryMethod::IsMulticast),
            "toDate" => Some(UnaryMethod::ToDate),
            "toTime" => Some(UnaryMethod::ToTime),
            "toMilliseconds" => Some(UnaryMethod::ToMilliseconds),
            "toSeconds" => Some(UnaryMethod::ToSeconds),
            "toMinutes" => Some(UnaryMethod::ToMinutes),
            "toHours" => Some(UnaryMethod::ToHours),
            "toDays" => Some(UnaryMethod::ToDays),
            _ => None,
        }
    }

    /// Whether a language has the method: where it has the type of its operand.
    pub fn is_in(self, language: Language) -> bool
        ensures { result ≡ has_unary language self }
    {
        self.row().operand.is_in(language)
    }

    /// The types of the method.
    pub fn row(self) -> UnaryRow
        ensures { result ≡ unary_row_of self }
    {
        match self {
            UnaryMethod::IsIpv4
            | UnaryMethod::IsIpv6
            | UnaryMethod::IsLoopback
            | UnaryMethod::IsMulticast => UnaryRow {
                operand: ExtensionType::Ip,
                result: ScalarType::Boolean,
            },
            UnaryMethod::ToDate => UnaryRow {
                operand: ExtensionType::Datetime,
                result: ScalarType::Extension(ExtensionType::Datetime),
            },
            UnaryMethod::ToTime => UnaryRow {
                operand: ExtensionType::Datetime,
                result: ScalarType::Extension(ExtensionType::Duration),
            },
            UnaryMethod::ToMilliseconds
            | UnaryMethod::ToSeconds
            | UnaryMethod::ToMinutes
            | UnaryMethod::ToHours
            | UnaryMethod::ToDays => UnaryRow {
                operand: ExtensionType::Duration,
                result: ScalarType::Long,
            },
        }
    }

    /// What the method gives for its operand (Cedar language reference, functions).
    ///
    /// # Errors
    ///
    /// `Type` where the operand is not of the type of the row, and `Overflow` where the result does not fit 64 bits.
    pub fn call(self, operand: &Extension) -> Result<Scalar, MethodError>
        ensures { result ≡ unary_call_of self operand.now }
    {
        match operand {
            Extension::Decimal(_) => Err(MethodError::Type),
            Extension::Ip(ip) => self.of_ip(*ip),
            Extension::Datetime(moment) => self.of_datetime(*moment),
            Extension::Duration(duration) => self.of_duration(*duration),
        }
    }

    // What the method gives for an IP address.
    fn of_ip(self, ip: Ip) -> Result<Scalar, MethodError>
        ensures { result ≡ ip_call self ip }
    {
        match self {
            UnaryMethod::IsIpv4 => Ok(Scalar::Boolean(ip.is_ipv4())),
            UnaryMethod::IsIpv6 => Ok(Scalar::Boolean(ip.is_ipv6())),
            UnaryMethod::IsLoopback => Ok(Scalar::Boolean(ip.is_loopback())),
            UnaryMethod::IsMulticast => Ok(Scalar::Boolean(ip.is_multicast())),
            _ => Err(MethodError::Type),
        }
    }

    // What the method gives for a datetime.
    fn of_datetime(self, moment: Datetime) -> Result<Scalar, MethodError>
        ensures { result ≡ datetime_call self moment }
    {
        match self {
            UnaryMethod::ToDate => match moment.to_date() {
                Some(midnight) => Ok(Scalar::Extension(Extension::Datetime(midnight))),
                None => Err(MethodError::Overflow),
            },
            UnaryMethod::ToTime => Ok(Scalar::Extension(Extension::Duration(moment.to_time()))),
            _ => Err(MethodError::Type),
        }
    }

    // What the method gives for a duration.
    fn of_duration(self, duration: Duration) -> Result<Scalar, MethodError>
        ensures { result ≡ duration_call self duration }
    {
        match self {
            UnaryMethod::ToMilliseconds => Ok(Scalar::Long(duration.to_milliseconds())),
            UnaryMethod::ToSeconds => Ok(Scalar::Long(duration.to_seconds())),
            UnaryMethod::ToMinutes => Ok(Scalar::Long(duration.to_minutes())),
            UnaryMethod::ToHours => Ok(Scalar::Long(duration.to_hours())),
            UnaryMethod::ToDays => Ok(Scalar::Long(duration.to_days())),
            _ => Err(MethodError::Type),
        }
    }
}

/// Each method gives what its row says, for an operand of the type that its row says (cedar-spec, Lean: `Cedar.Thm.Validation`). A
/// law: it runs no code.
pub fn unary_rows_are_typed()
    ensures { UnaryRowsAreTyped }
{}
