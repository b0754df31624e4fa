//! Values of extension types, and these types.
ghost use Rattle.std.specs.Prelude.{◌≡◌, ◌↔◌, IsTrue};
ghost use Rattle.cedar_ext.specs.Extensions.{IsExtension, content_cmp, extension_cmp, has_type, in_language, rank_of, same_extension, same_type, type_in, type_name, type_named, type_of};

use crate::decimal::Decimal;
use crate::language::Language;
use cedar_ext_ip::Ip;
use cedar_ext_time::{Datetime, Duration};
use std::cmp::Ordering;

/// A type beside those of the core of the language (Cedar language reference, data types, extension types).
#[derive(Clone, Copy, Debug, PartialEq, Eq)]
pub enum ExtensionType {
    /// Decimals.
    Decimal,
    /// IP addresses, and ranges of them.
    Ip,
    /// Datetimes.
    Datetime,
    /// Durations.
    Duration,
}

impl ExtensionType {
    /// How a schema writes the type.
    pub fn name(self) -> &'static str
        ensures { result.now ≡ type_name self }
    {
        match self {
            ExtensionType::Decimal => "decimal",
            ExtensionType::Ip => "ipaddr",
            ExtensionType::Datetime => "datetime",
            ExtensionType::Duration => "duration",
        }
    }

    /// The type that a schema writes like this.
    pub fn named(name: &str) -> Option<ExtensionType>
        ensures { result ≡ type_named name.now }
    {
        match name {
            "decimal" => Some(ExtensionType::Decimal),
            "ipaddr" => Some(ExtensionType::Ip),
            "datetime" => Some(ExtensionType::Datetime),
            "duration" => Some(ExtensionType::Duration),
            _ => None,
        }
    }

    /// The type that a schema of a language writes like this.
    pub fn named_in(language: Language, name: &str) -> Option<ExtensionType>
        ensures { result ≡ type_in language name.now }
    {
        ExtensionType::if_in(language, ExtensionType::named(name))
    }

    // The type, if the language has it.
    pub(crate) fn if_in(language: Language, ty: Option<ExtensionType>) -> Option<ExtensionType>
        ensures { result ≡ in_language language ty }
    {
        match ty {
            Some(ty) => { if ty.is_in(language) { Some(ty) } else { None } }
            None => None,
        }
    }

    /// Whether a language has the type and its constructor: the profile has decimals alone.
    pub fn is_in(self, language: Language) -> bool
        ensures { result ≡ has_type language self }
    {
        match (language, self) {
            (Language::Cedar4, _) | (Language::Profile, ExtensionType::Decimal) => true,
            (Language::Profile, _) => false,
        }
    }

    /// Whether two types are the same.
    pub fn same(self, other: ExtensionType) -> bool
        ensures gives { result ≡ same_type self other }
        ensures equal { IsTrue result ↔ (self ≡ other) }
    {
        self.is_type(other)
    }

    // Whether two types are the same.
    fn is_type(self, other: ExtensionType) -> bool
        ensures { result ≡ same_type self other }
    {
        match (self, other) {
            (ExtensionType::Decimal, ExtensionType::Decimal) => true,
            (ExtensionType::Ip, ExtensionType::Ip) => true,
            (ExtensionType::Datetime, ExtensionType::Datetime) => true,
            (ExtensionType::Duration, ExtensionType::Duration) => true,
            _ => false,
        }
    }

    /// The place of the type in the order of types, from 0.
    pub fn rank(self) -> u8
        ensures { result ≡ rank_of self }
    {
        match self {
            ExtensionType::Decimal => 0,
            ExtensionType::Ip => 1,
            ExtensionType::Datetime => 2,
            ExtensionType::Duration => 3,
        }
    }
}

/// A value of an extension type (Cedar language reference, data types, extension types).
#[derive(Clone, Copy, Debug)]
pub enum Extension {
    /// A decimal.
    Decimal(Decimal),
    /// An IP address, or a range of them.
    Ip(Ip),
    /// A datetime.
    Datetime(Datetime),
    /// A duration.
    Duration(Duration),
}

impl Extension {
    /// The type of the value.
    pub fn ty(&self) -> ExtensionType
        ensures { result ≡ type_of self.now }
    {
        match self {
            Extension::Decimal(_) => ExtensionType::Decimal,
            Extension::Ip(_) => ExtensionType::Ip,
            Extension::Datetime(_) => ExtensionType::Datetime,
            Extension::Duration(_) => ExtensionType::Duration,
        }
    }

    /// Whether two values are the same (Cedar language reference, `==`).
    pub fn same(&self, other: &Extension) -> bool
        ensures gives { result ≡ same_extension self.now other.now }
        ensures equal { IsTrue result ↔ (self.now ≡ other.now) }
    {
        self.is_value(other)
    }

    // Whether two values are the same.
    fn is_value(&self, other: &Extension) -> bool
        ensures { result ≡ same_extension self.now other.now }
    {
        match (self, other) {
            (Extension::Decimal(one), Extension::Decimal(two)) => one == two,
            (Extension::Ip(one), Extension::Ip(two)) => one == two,
            (Extension::Datetime(one), Extension::Datetime(two)) => one == two,
            (Extension::Duration(one), Extension::Duration(two)) => one == two,
            _ => false,
        }
    }

    /// How two values compare in the order of values: first their types, and then what they hold.
    pub fn order(&self, other: &Extension) -> Ordering
        ensures { result ≡ extension_cmp self.now other.now }
    {
        let by_type = self.ty().rank().cmp(&other.ty().rank());
        by_type.then(self.content_order(other))
    }

    // How what two values of one type hold compares. Equal for two types.
    fn content_order(&self, other: &Extension) -> Ordering
        ensures { result ≡ content_cmp self.now other.now }
    {
        match (self, other) {
            (Extension::Decimal(one), Extension::Decimal(two)) => one.cmp(two),
            (Extension::Ip(one), Extension::Ip(two)) => one.cmp(two),
            (Extension::Datetime(one), Extension::Datetime(two)) => one.cmp(two),
            (Extension::Duration(one), Extension::Duration(two)) => one.cmp(two),
            _ => Ordering::Equal,
        }
    }

    /// The numbers of a value are within their bounds (Cedar language reference, data types). A law: it runs no code.
    pub fn well_formedness(&self)
        ensures { IsExtension self.now }
    {
        match self {
            Extension::Decimal(number) => {
                let _units = number.units();
            }
            Extension::Ip(ip) => {
                let _address = ip.address();
            }
            Extension::Datetime(moment) => {
                let _milliseconds = moment.milliseconds();
            }
            Extension::Duration(duration) => {
                let _milliseconds = duration.to_milliseconds();
            }
        }
    }
}
