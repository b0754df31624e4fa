//! Extension types in words.
use crate::extension::ExtensionType;

impl ExtensionType {
    /// One value of the type in words, for example `a decimal`.
    pub fn one(self) -> &'static str {
        match self {
            ExtensionType::Decimal => "a decimal",
            ExtensionType::Ip => "an IP address",
            ExtensionType::Datetime => "a datetime",
            ExtensionType::Duration => "a duration",
        }
    }

    /// Several values of the type in words, for example `decimals`.
    pub fn many(self) -> &'static str {
        match self {
            ExtensionType::Decimal => "decimals",
            ExtensionType::Ip => "IP addresses",
            ExtensionType::Datetime => "datetimes",
            ExtensionType::Duration => "durations",
        }
    }
}
