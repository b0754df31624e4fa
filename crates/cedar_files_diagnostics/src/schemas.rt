//! Schema files that are refused: the path of the part, and what to write instead.
use crate::again::schema_again;
use crate::diagnostic::Explanation;
use crate::diagnostic_draft::DiagnosticDraft;
use crate::file_kind::schema_text;
use crate::json_text::explain_json_with;
use crate::policy_text::MOST_TRIED;
use crate::schema_texts::explain_schema_text;
use crate::words::words_of;
use cedar_ext::Language;
use cedar_files::MemoryFiles;
use cedar_schema_diagnostics::refused_part;
use std::alloc::{AllocError, Global};

/// What is explained of a schema file that is refused with another number than 301 in a language; or none of a number that a schema does not get.
pub fn explain_schema(
    alloc: Global,
    file: &str,
    number: u16,
    bytes: &[u8],
    language: Language,
) -> Result<Option<Explanation>, AllocError> {
    if let Some(text) = schema_text(alloc, language, bytes)? {
        return explain_schema_text(alloc, file, number, text);
    }
    let Some((reason, hint)) = words_of(number) else {
        return Ok(None);
    };
    let refused = refused_part(alloc, language, bytes, number)?;
    let mut diagnostic = DiagnosticDraft::error(alloc, number, reason);
    diagnostic.advise(hint);
    if let Some(refused) = &refused {
        diagnostic.part.add(refused.path.as_str());
        diagnostic.note(&[refused.says.as_str()]);
        if let Some(hint) = &refused.hint {
            diagnostic.advise(hint.as_str());
        }
    }
    diagnostic.alone(file).map(Some)
}

/// The number of a schema that is not JSON.
const NOT_JSON: u16 = 301;

/// The hint at a schema text of Cedar 4, where the language of Cedar 3 is read.
const OF_CEDAR4: &str = "`--language 4` reads the file as it is";

/// What is explained of a schema file that is not JSON, where schemas are read in a language.
pub(crate) fn explain_json_schema(
    alloc: Global,
    file: &str,
    bytes: Vec<u8>,
    language: Language,
) -> Result<Option<Explanation>, AllocError> {
    let is_tried = language == Language::Profile && bytes.len() <= MOST_TRIED;
    if is_tried && is_read_in_cedar4(alloc, &bytes)? {
        return explain_json_with(alloc, file, NOT_JSON, bytes, Some(OF_CEDAR4));
    }
    explain_json_with(alloc, file, NOT_JSON, bytes, None)
}

// Whether Cedar 4 reads a schema from bytes that the profile does not read. An empty file is not meant as a schema.
fn is_read_in_cedar4(alloc: Global, bytes: &[u8]) -> Result<bool, AllocError> {
    if bytes.iter().all(|byte| byte.is_ascii_whitespace()) {
        return Ok(false);
    }
    let files = MemoryFiles {
        schema: Some(bytes),
        policies: None,
        links: None,
        entities: None,
    };
    match schema_again(alloc, &files, Language::Cedar4)? {
        Some(schema) => {
            drop(schema);
            Ok(true)
        }
        None => Ok(false),
    }
}
