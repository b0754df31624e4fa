//! What is explained of a refused file.
use crate::again::bytes_again;
use crate::diagnostic::Explanation;
use crate::entities::explain_entities;
use crate::file_kind::is_json_policies;
use crate::json_policies::explain_json_policies;
use crate::json_text::explain_json;
use crate::links::explain_links;
use crate::policy_text::explain_policies;
use crate::refused::RefusedFile;
use crate::schemas::{explain_json_schema, explain_schema};
use crate::words::explain_number;
use cedar_ext::Language;
use cedar_files::{Files, Role};
use std::alloc::{AllocError, Global};

/// What is explained of a file that is refused where schemas and policies are read in a language, and that has this name; or none if it
/// cannot be read again.
///
/// # Errors
///
/// Fails only when out of memory. It never explains less since memory ran out.
pub fn explain_file<F: Files>(
    alloc: Global,
    files: &F,
    name: &str,
    refused: RefusedFile,
    language: Language,
) -> Result<Option<Explanation>, AllocError> {
    let Some(bytes) = bytes_again(alloc, files, refused.role)? else {
        return Ok(None);
    };
    let number = refused.refusal.number;
    let explained = match (refused.role, number) {
        (Role::Policies, 701) => Ok(None),
        (Role::Policies, _) if is_json_policies(language, &bytes) => {
            explain_json_policies(alloc, name, number, bytes)
        }
        (Role::Policies, _) => explain_policies(alloc, language, name, bytes),
        (Role::Schema, 301) => explain_json_schema(alloc, name, bytes, language),
        (_, 501) => explain_json(alloc, name, number, bytes),
        (Role::Schema, _) => explain_schema(alloc, name, number, &bytes, language),
        (Role::Links, _) => explain_links(alloc, files, name, number, &bytes, language),
        (Role::Entities, _) => explain_entities(alloc, files, name, number, bytes, language),
    };
    match explained? {
        Some(explained) => Ok(Some(explained)),
        None => explain_number(alloc, name, number),
    }
}
