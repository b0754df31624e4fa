//! The constructors of extension types: functions of one string (Cedar language reference, functions).
ghost use Rattle.std.specs.Prelude.{◌≡◌};
ghost use Rattle.cedar_ext.specs.Extensions.{constructor_in, constructor_name, constructor_named, extension_of};

use crate::decimal::Decimal;
use crate::extension::{Extension, ExtensionType};
use crate::language::Language;
use cedar_ext_ip::Ip;
use cedar_ext_time::{Datetime, Duration};

impl ExtensionType {
    /// How the constructor of the type is written (Cedar language reference, functions).
    pub fn constructor(self) -> &'static str
        ensures { result.now ≡ constructor_name self }
    {
        match self {
            ExtensionType::Decimal => "decimal",
            ExtensionType::Ip => "ip",
            ExtensionType::Datetime => "datetime",
            ExtensionType::Duration => "duration",
        }
    }

    /// The type whose constructor is written like this (Cedar language reference, functions).
    pub fn of_constructor(name: &str) -> Option<ExtensionType>
        ensures { result ≡ constructor_named name.now }
    {
        match name {
            "decimal" => Some(ExtensionType::Decimal),
            "ip" => Some(ExtensionType::Ip),
            "datetime" => Some(ExtensionType::Datetime),
            "duration" => Some(ExtensionType::Duration),
            _ => None,
        }
    }

    /// The type whose constructor is written like this in a language (Cedar language reference, functions).
    pub fn of_constructor_in(language: Language, name: &str) -> Option<ExtensionType>
        ensures { result ≡ constructor_in language name.now }
    {
        ExtensionType::if_in(language, ExtensionType::of_constructor(name))
    }

    /// The value of the type that a text writes, if it writes one (Cedar language reference, functions).
    pub fn read(self, text: &str) -> Option<Extension>
        ensures { result ≡ extension_of self text.now }
    {
        match self {
            ExtensionType::Decimal => Decimal::read(text).map(Extension::Decimal),
            ExtensionType::Ip => Ip::read(text).map(Extension::Ip),
            ExtensionType::Datetime => Datetime::read(text).map(Extension::Datetime),
            ExtensionType::Duration => Duration::read(text).map(Extension::Duration),
        }
    }
}
