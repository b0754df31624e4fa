//! The language that is read, and the choices that a service may take beyond strict validation.
ghost use Rattle.std.specs.Prelude.{◌≡◌};
ghost use Rattle.cedar_check_spec.specs.Settings.{default_settings};
ghost use Rattle.cedar_check_spec.specs.Typing.{takes_any_string};

use cedar_ext::{ExtensionType, Language};

/// Which language is read, and which choices beyond strict validation are taken (own). The default reads the profile and takes none,
/// which is strict validation as Cedar documents it.
#[derive(Clone, Copy, Debug, PartialEq, Eq)]
pub struct Settings {
    /// Whether `decimal` accepts any string, for example an attribute, and not only a literal. A policy may then fail at run
    /// time with the error `decimal`, where the string is not a decimal.
    pub any_decimal: bool,
    /// The language in which the schema and the policies are written.
    pub language: Language,
}

impl Settings {
    /// Whether the constructor of a type takes any string, and not literals alone: where `any_decimal` is on, that of decimals
    /// does.
    pub fn takes_any_string(self, ty: ExtensionType) -> bool
        ensures { result ≡ takes_any_string self ty }
    {
        match ty {
            ExtensionType::Decimal => self.any_decimal,
            ExtensionType::Ip | ExtensionType::Datetime | ExtensionType::Duration => false,
        }
    }
}

impl Default for Settings {
    ghost is_default = { λ settings. settings ≡ default_settings };

    fn default() -> Self {
        Settings {
            any_decimal: false,
            language: Language::Profile,
        }
    }
}
