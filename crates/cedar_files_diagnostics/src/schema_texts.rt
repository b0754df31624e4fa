//! Schema texts that are refused: the place, what is expected there, and the declaration whose JSON is refused.
use crate::diagnostic::Explanation;
use crate::diagnostic_draft::DiagnosticDraft;
use crate::words::words_of;
use base_places::Place;
use cedar_ext::Language;
use cedar_schema_diagnostics::{RefusedPart, declaration_path, refused_part_of};
use cedar_schema_text::{SchemaTextFault, read_schema_text};
use cedar_schema_text_diagnostics::{Declared, Section, declared_in, explain_text};
use std::alloc::{AllocError, Global};

/// The number of an `appliesTo` that lacks a list.
const LACKS_LIST: u16 = 308;

/// The number of a part of the wrong form.
const FORM: u16 = 302;

/// What is explained of a schema text that is refused with a number; or none of a number that a schema text does not get.
pub(crate) fn explain_schema_text(
    alloc: Global,
    file: &str,
    number: u16,
    text: &str,
) -> Result<Option<Explanation>, AllocError> {
    let Some((reason, hint)) = words_of(number) else {
        return Ok(None);
    };
    let mut diagnostic = DiagnosticDraft::error(alloc, number, reason);
    diagnostic.advise(meant_in_text(number).unwrap_or(hint));
    match read_schema_text(alloc, text) {
        Ok(json) => {
            let refused = refused_part_of(alloc, Language::Cedar4, &json, number);
            drop(json);
            if let Some(part) = &refused? {
                add_part(alloc, &mut diagnostic, text, part)?;
            }
        }
        Err(fault) => add_fault(alloc, &mut diagnostic, text, fault)?,
    }
    let mut explanation = diagnostic.alone(file)?;
    explanation.text = String::from_str(alloc, text)?;
    Ok(Some(explanation))
}

// What to do in a schema text about a number, where it is something else than in JSON.
fn meant_in_text(number: u16) -> Option<&'static str> {
    match number {
        FORM => Some("docs/SCHEMA.md says what a schema has"),
        LACKS_LIST => Some("write `principal` and `resource` in the braces of `appliesTo`"),
        _ => None,
    }
}

// Adds the place of a fault of the text, what is wrong there, and what is likely meant.
fn add_fault(
    alloc: Global,
    diagnostic: &mut DiagnosticDraft,
    text: &str,
    fault: SchemaTextFault,
) -> Result<(), AllocError> {
    let explained = explain_text(alloc, text, fault)?;
    diagnostic.place = Some(Place::of(text.as_bytes(), explained.at));
    diagnostic.mark(explained.at, explained.at, explained.says.as_str());
    if let Some(second) = explained.second {
        diagnostic.mark(second.at, second.at, second.says);
    }
    diagnostic.advise(explained.hint.unwrap_or(""));
    Ok(())
}

// Adds the part of the JSON that is refused, and the name of the declaration that it belongs to.
fn add_part(
    alloc: Global,
    diagnostic: &mut DiagnosticDraft,
    text: &str,
    part: &RefusedPart,
) -> Result<(), AllocError> {
    match declared_at(alloc, text, part.path.as_str())? {
        Some(declared) => {
            diagnostic.place = Some(Place::of(text.as_bytes(), declared.start));
            diagnostic.mark(declared.start, declared.end, part.says.as_str());
        }
        None => diagnostic.note(&[part.says.as_str()]),
    }
    diagnostic.note(&["in the JSON that the text denotes: ", part.path.as_str()]);
    match &part.hint {
        Some(hint) if diagnostic.number != LACKS_LIST => diagnostic.advise(hint.as_str()),
        _ => {}
    }
    Ok(())
}

// The declaration of a text to which a path of its JSON leads, or into which it leads.
fn declared_at<'t>(
    alloc: Global,
    text: &'t str,
    path: &str,
) -> Result<Option<Declared<'t>>, AllocError> {
    let mut found = None;
    let mut longest = 0usize;
    for declared in declared_in(alloc, text)? {
        let own = path_of(alloc, declared)?;
        if own.len() > longest && leads_into(path, own.as_str()) {
            longest = own.len();
            found = Some(declared);
        }
    }
    Ok(found)
}

// The path of what is declared.
fn path_of(alloc: Global, declared: Declared<'_>) -> Result<String, AllocError> {
    let key = match declared.section {
        Section::CommonType => "commonTypes",
        Section::EntityType => "entityTypes",
        Section::Action => "actions",
        Section::Namespace => return declaration_path(alloc, declared.namespace, None),
    };
    declaration_path(alloc, declared.namespace, Some((key, declared.name)))
}

// Whether a path is another one, or goes on after it.
fn leads_into(path: &str, outer: &str) -> bool {
    match path.strip_prefix(outer) {
        Some(rest) => rest.is_empty() || rest.starts_with('.') || rest.starts_with('['),
        None => false,
    }
}
