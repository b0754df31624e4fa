//! Policy files that are refused.
ghost use Rattle.std.specs.Prelude.{◌≡◌, IfNone, IfOk, IfSome, Some};
ghost use Rattle.base_places.specs.Places.{place_of};
ghost use Rattle.cedar_ast.specs.PolicySetTree.{PolicySetTree};
ghost use Rattle.cedar_parser.specs.PolicyText.{HasFault, IsPolicyText};
ghost use Rattle.cedar_parser_tokens.specs.Faults.{offset_of};

use crate::again::{policies_again, tokens_again, tokens_read};
use crate::around::Around;
use crate::diagnostic::Explanation;
use crate::diagnostic_draft::DiagnosticDraft;
use crate::json_text::advise_both;
use crate::policy_words::{hint_of, mark_of, reason_of};
use crate::second_place::{SecondPlace, before_unexpected, second_place};
use crate::token_words::{meant_by_character, meant_by_function};
use crate::unexpected::mark_unexpected;
use base_places::Place;
use cedar_ext::Language;
use cedar_files::MemoryFiles;
use cedar_parser::parse_in;
use cedar_parser_tokens::ParseFault;
use cedar_text::TextFault;
use std::alloc::{AllocError, Global};

/// The hint at a text of Cedar 4, where the language of Cedar 3 is read.
const OF_CEDAR4: &str = "`--language 4` reads the text as it is";
/// Texts of so many bytes at most are tried in Cedar 4 for this hint: reading takes some 50 bytes of memory for a byte of text.
pub(crate) const MOST_TRIED: usize = 64 << 10;

/// A fault of a policy text, with its place.
#[derive(Clone, Copy, Debug, PartialEq, Eq)]
pub struct PolicyPlace {
    /// The fault.
    pub fault: ParseFault,
    /// Where it is, in bytes from 0.
    pub offset: usize,
    /// Where it is, in lines and columns from 0.
    pub place: Place,
}

/// The fault for which `cedar` refuses a policy text in a language, with its line and column; or none if the text has policies.
pub fn policy_place(
    alloc: Global,
    language: Language,
    text: &str,
) -> Result<Option<PolicyPlace>, AllocError>
    ensures none { IfOk result (λ o. IfNone o ((set : PolicySetTree) × IsPolicyText language text.now set)) }
    ensures fault { IfOk result (λ o. IfSome o (λ found. HasFault language text.now found.fault)) }
    ensures offset { IfOk result (λ o. IfSome o (λ found. offset_of found.fault ≡ Some found.offset)) }
    ensures place { IfOk result (λ o. IfSome o (λ found. found.place ≡ place_of text.now found.offset)) }
{
    let fault = match parse_in(alloc, language, text) {
        Ok(policies) => {
            drop(policies);
            return Ok(None);
        }
        Err(fault) => fault,
    };
    match fault.offset() {
        None => Err(AllocError),
        Some(offset) => Ok(Some(PolicyPlace {
            fault,
            offset,
            place: Place::of(text.as_bytes(), offset),
        })),
    }
}

/// What is explained of a policy file that `cedar` refuses in a language; or none if its text has policies.
pub fn explain_policies(
    alloc: Global,
    language: Language,
    file: &str,
    bytes: Vec<u8>,
) -> Result<Option<Explanation>, AllocError> {
    match String::from_utf8(bytes) {
        Ok(text) => explain_text(alloc, language, file, text),
        Err(fault) => {
            let bytes = fault.into_bytes();
            explain_bytes(alloc, file, &bytes).map(Some)
        }
    }
}

fn explain_text(
    alloc: Global,
    language: Language,
    file: &str,
    text: String,
) -> Result<Option<Explanation>, AllocError> {
    let Some(found) = policy_place(alloc, language, text.as_str())? else {
        return Ok(None);
    };
    let diagnostic = diagnostic_of(alloc, language, text.as_str(), found)?;
    let mut explanation = diagnostic.alone(file)?;
    explanation.text = text;
    Ok(Some(explanation))
}

// What to do about a fault of a text, if one thing is likely.
fn hint_for(language: Language, text: &str, fault: ParseFault) -> Option<&'static str> {
    match fault {
        ParseFault::Text(TextFault::BadCharacter(at)) => {
            let (before, rest) = text.split_at_checked(at).unwrap_or((text, ""));
            meant_by_character(before, rest)
        }
        ParseFault::UnknownFunction(at) => Some(meant_by_function(
            language,
            text.get(at..).unwrap_or(""),
        )),
        _ => hint_of(language, fault),
    }
}

// Marks the second place and adds the hint, as far as there are these.
fn add_rest(
    diagnostic: &mut DiagnosticDraft,
    second: Option<SecondPlace>,
    hint: Option<&'static str>,
) {
    if let Some(second) = second {
        diagnostic.mark(second.at, second.at, second.says);
    }
    if let Some(hint) = hint {
        diagnostic.advise(hint);
    }
}

// Marks the token at a place where it is not allowed, and what explains it. The text is cut into tokens once for all of this.
fn add_unexpected(
    alloc: Global,
    language: Language,
    diagnostic: &mut DiagnosticDraft,
    text: &str,
    at: usize,
) -> Result<(), AllocError> {
    let written = tokens_again(alloc, text)?;
    let second = before_unexpected(alloc, &written, at)?;
    let found = tokens_read(alloc, language, written)?;
    let around = Around::of(&found, at);
    drop(found);
    let hint = mark_unexpected(alloc, language, diagnostic, text, around, at)?;
    add_rest(diagnostic, second, hint);
    let is_tried = language == Language::Profile && text.len() <= MOST_TRIED;
    if is_tried && is_read_in_cedar4(alloc, text)? {
        advise_both(diagnostic, hint, Some(OF_CEDAR4));
    }
    Ok(())
}

// Whether the text, which the profile does not read, has policies in Cedar 4, as a policy text or as JSON.
fn is_read_in_cedar4(alloc: Global, text: &str) -> Result<bool, AllocError> {
    let files = MemoryFiles {
        schema: None,
        policies: Some(text.as_bytes()),
        links: None,
        entities: None,
    };
    match policies_again(alloc, &files, Language::Cedar4)? {
        Some(policies) => {
            drop(policies);
            Ok(true)
        }
        None => Ok(false),
    }
}

// What is explained of a fault of a text.
fn diagnostic_of(
    alloc: Global,
    language: Language,
    text: &str,
    found: PolicyPlace,
) -> Result<DiagnosticDraft, AllocError> {
    let fault = found.fault;
    let mut diagnostic = DiagnosticDraft::error(alloc, fault.number(), reason_of(fault));
    diagnostic.place = Some(found.place);
    if let ParseFault::Syntax(at) = fault {
        add_unexpected(alloc, language, &mut diagnostic, text, at)?;
        return Ok(diagnostic);
    }
    diagnostic.mark(found.offset, found.offset, mark_of(fault));
    let second = second_place(alloc, text, fault)?;
    add_rest(&mut diagnostic, second, hint_for(language, text, fault));
    Ok(diagnostic)
}

// What is explained of a file that is not UTF-8.
fn explain_bytes(alloc: Global, file: &str, bytes: &[u8]) -> Result<Explanation, AllocError> {
    let at = match str::from_utf8(bytes) {
        Ok(text) => text.len(),
        Err(fault) => fault.valid_up_to(),
    };
    let mut diagnostic = DiagnosticDraft::error(alloc, 105, "the policy file is not UTF-8");
    diagnostic.place = Some(Place::of(bytes, at));
    diagnostic.advise("save the file as UTF-8: the byte here is not valid UTF-8");
    diagnostic.alone(file)
}
