//! The names of extension types.
use crate::naming::refused_name;
use crate::part::{Refusal, part_of};
use crate::setting::Setting;
use crate::text::shown;
use base_names::{Nearest, apart};
use cedar_ext::{ExtensionType, Language};
use std::alloc::Global;

/// The extension types of Cedar.
const EXTENSIONS: [ExtensionType; 4] = [
    ExtensionType::Decimal,
    ExtensionType::Ip,
    ExtensionType::Datetime,
    ExtensionType::Duration,
];

/// The extension type of Cedar that a name means, as a schema writes it or in other words; none of another name. Whether a language
/// has it is another question.
pub(crate) fn cedar_extension(name: &str) -> Option<ExtensionType> {
    let written = match name {
        "Decimal" | "Float" | "float" | "Double" | "double" => "decimal",
        "ip" | "IP" | "IpAddr" => "ipaddr",
        "DateTime" | "date" | "Date" | "timestamp" | "Timestamp" => "datetime",
        "Duration" => "duration",
        _ => name,
    };
    ExtensionType::named(written)
}

/// What to do about an extension type of Cedar that is not in the language; none of another name.
pub(crate) fn left_out_extension(language: Language, name: &str) -> Option<&'static str> {
    let Some(extension) = cedar_extension(name) else {
        return None;
    };
    if extension.is_in(language) {
        return None;
    }
    match extension {
        ExtensionType::Decimal => None,
        ExtensionType::Ip => Some(
            "use `--language 4`, or write {\"type\":\"String\"}, and compare it with `==`",
        ),
        ExtensionType::Datetime => Some(
            "use `--language 4`, or write {\"type\":\"Long\"}, for example milliseconds since 1970",
        ),
        ExtensionType::Duration => Some(
            "use `--language 4`, or write {\"type\":\"Long\"}, for example milliseconds",
        ),
    }
}

/// The name of the extension type of the language that is likely meant by the name of a type, or none. A name that an entity type has
/// means a decimal at most, or an extension type of just this name.
pub(crate) fn meant_extension(
    language: Language,
    text: &str,
    is_entity: bool,
) -> Option<&'static str> {
    let Some(extension) = cedar_extension(text) else {
        return None;
    };
    let name = extension.name();
    if !extension.is_in(language) || is_entity && name != "decimal" && name != text {
        return None;
    }
    Some(name)
}

/// Why the name of an extension type is refused (302, 303, 306), or none.
pub(crate) fn refused_extension_name(
    alloc: Global,
    setting: Setting<'_>,
    text: &str,
) -> Option<Refusal> {
    if ExtensionType::named_in(setting.language, text).is_some() {
        return None;
    }
    let found = refused_name(alloc, setting.number, text);
    if found.is_some() || setting.number != 303 {
        return found;
    }
    undeclared_extension(alloc, setting.language, text)
}

/// What is said of a name that is not that of an extension type of the language.
pub(crate) fn undeclared_extension(
    alloc: Global,
    language: Language,
    text: &str,
) -> Option<Refusal> {
    if let Some(hint) = left_out_extension(language, text) {
        let says = [
            "the extension type `",
            shown(text),
            "` is not supported without `--language 4`",
        ];
        return part_of(alloc, &says, &[hint]);
    }
    match language {
        Language::Profile => no_decimal(alloc, text),
        Language::Cedar4 => no_extension(alloc, text),
    }
}

// What is said of a name in the profile, whose extension type is `decimal`.
fn no_decimal(alloc: Global, text: &str) -> Option<Refusal> {
    let says = [
        "there is no extension type `",
        shown(text),
        "`: `decimal` is the only one",
    ];
    match apart(text, "decimal") {
        Some(_) => part_of(alloc, &says, &["did you mean `decimal`?"]),
        None => part_of(alloc, &says, &[]),
    }
}

// What is said of a name in the language of Cedar 4.
fn no_extension(alloc: Global, text: &str) -> Option<Refusal> {
    let says = [
        "there is no extension type `",
        shown(text),
        "`: they are `decimal`, `ipaddr`, `datetime` and `duration`",
    ];
    match near_extension(text) {
        Some(name) => part_of(alloc, &says, &["did you mean `", name, "`?"]),
        None => part_of(alloc, &says, &[]),
    }
}

// The extension type of Cedar 4 that is likely meant by a name, or none.
fn near_extension(text: &str) -> Option<&'static str> {
    if let Some(extension) = cedar_extension(text) {
        return Some(extension.name());
    }
    let mut nearest = Nearest::new(text);
    for extension in EXTENSIONS {
        let name = extension.name();
        nearest = nearest.compare(name, name);
    }
    nearest.name()
}
