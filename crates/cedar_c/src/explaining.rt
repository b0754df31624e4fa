//! Explains why texts make no engine, and why changes of entities and request lines are refused.
ghost use Rattle.std.specs.Prelude.{◌<◌};
ghost use Rattle.std.specs.Option.{MatchOption};
ghost use Rattle.cedar_c.specs.Explaining.{IsFormat};

use crate::texts::Texts;
use cedar_auth::Ready;
use cedar_check_spec::Settings;
use cedar_ext::Language;
use cedar_files::FileNames;
use cedar_files_diagnostics::{
    Explanation, Format, explain_changes, explain_files, explain_request,
    explain_request_with_entities,
};
use std::alloc::{AllocError, Global};

/// What an explained request line is called.
const REQUEST: &str = "request";

/// The form of this number: 0 words for a person, 1 lines of JSON.
pub(crate) fn format_of(number: u32) -> Option<Format>
    ensures { MatchOption result (1 < number) (IsFormat number) }
{
    match number {
        0 => Some(Format::Human),
        1 => Some(Format::Json),
        _ => None,
    }
}

/// The explanation, of length 0 where there is nothing to explain. The files have the names that they have by default.
pub(crate) fn explanation(
    alloc: Global,
    texts: &Texts<'_>,
    settings: Settings,
    format: Format,
) -> Result<Vec<u8>, AllocError> {
    let names = FileNames {
        schema: None,
        policies: None,
        links: None,
        entities: None,
    };
    explain_files(alloc, texts, names, settings, format)
}

/// The explanation of changes that are refused with a number for the schema, which is read in a language. It has length 0 where changes do
/// not get the number.
pub(crate) fn explanation_of_changes(
    alloc: Global,
    language: Language,
    schema: &[u8],
    changes: &[u8],
    number: u32,
    format: Format,
) -> Result<Vec<u8>, AllocError> {
    match u16::try_from(number) {
        Ok(number) => explain_changes(alloc, language, schema, changes, number, format),
        Err(_) => Ok(Vec::new(alloc)),
    }
}

/// The explanation of a request line that is refused, of length 0 where it is not, or not with this number. Number 0 is for each.
pub(crate) fn explanation_of_line(
    alloc: Global,
    ready: &Ready,
    line: &[u8],
    may_bring_entities: bool,
    number: u32,
    format: Format,
) -> Result<Vec<u8>, AllocError> {
    let found = if may_bring_entities {
        explain_request_with_entities(alloc, ready, line, "")?
    } else {
        explain_request(alloc, ready.validated().schema(), line, "")?
    };
    match found {
        Some(diagnostic) if number == 0 || number == u32::from(diagnostic.number) => {
            let explanation = Explanation::of_one(alloc, REQUEST, diagnostic)?;
            let text = explanation.to_text(alloc, format)?;
            Ok(text.into_bytes())
        }
        _ => Ok(Vec::new(alloc)),
    }
}
