//! Settings as bits.
ghost use Rattle.std.specs.Option.{MatchOption};
ghost use Rattle.cedar_check_spec.specs.declared.settings.Settings.{Settings as SettingsTree};
ghost use Rattle.cedar_c.specs.SettingBits.{AreSettings};

use cedar_check_spec::Settings;
use cedar_ext::Language;

/// The settings of these bits, where this version knows each bit that is set: bit 0 is `any_decimal`, and bit 1 the language of Cedar 4.
pub(crate) fn settings_of(bits: u32) -> Option<Settings>
    ensures { MatchOption result ((settings : SettingsTree) → ¬ AreSettings bits settings) (AreSettings bits) }
{
    let (any_decimal, language) = match bits {
        0 => (false, Language::Profile),
        1 => (true, Language::Profile),
        2 => (false, Language::Cedar4),
        3 => (true, Language::Cedar4),
        _ => return None,
    };
    Some(Settings {
        any_decimal,
        language,
    })
}
