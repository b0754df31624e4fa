//! What is explained of files, for a host that has them in memory.
use crate::diagnostic::Explanation;
use crate::explain::explain_file;
use crate::faulty::explain_report;
use crate::format::Format;
use crate::refused::RefusedFile;
use cedar_check_spec::Settings;
use cedar_files::{FileNames, Files, Role, Unprepared, read_all};
use std::alloc::{AllocError, Global};

// The name of a file, or what such a file is called if it has no name.
fn name_of<'a>(names: FileNames<'a>, role: Role) -> &'a str {
    match role {
        Role::Schema => names.schema.unwrap_or("schema.json"),
        Role::Policies => names.policies.unwrap_or("policies.cedar"),
        Role::Links => names.links.unwrap_or("links.json"),
        Role::Entities => names.entities.unwrap_or("entities.json"),
    }
}

// What is explained where a file is refused or the policies have faults.
fn explained<F: Files>(
    alloc: Global,
    files: &F,
    names: FileNames<'_>,
    settings: Settings,
) -> Result<Option<Explanation>, AllocError> {
    match read_all(alloc, files, settings) {
        Ok(ready) => {
            drop(ready);
            Ok(None)
        }
        Err(Unprepared::Refused(role, refusal)) => {
            let name = name_of(names, role);
            let refused = RefusedFile { role, refusal };
            explain_file(alloc, files, name, refused, settings.language)
        }
        Err(Unprepared::Faults(refused)) => {
            let name = name_of(names, Role::Policies);
            let explained = explain_report(
                alloc,
                files,
                name,
                &refused.schema,
                &refused.policies,
                settings,
            );
            drop(refused);
            explained
        }
        Err(Unprepared::Unnamed | Unprepared::Device) => Ok(None),
        Err(Unprepared::Memory) => Err(AllocError),
    }
}

/// Explains in a form why these files are refused, or which faults their policies have under these settings. Of no bytes where the
/// files are accepted, or where one cannot be read or is not there. A file without a name is called `schema.json`,
/// `policies.cedar`, `links.json` or `entities.json`.
///
/// # Errors
///
/// Fails only when out of memory.
pub fn explain_files<F: Files>(
    alloc: Global,
    files: &F,
    names: FileNames<'_>,
    settings: Settings,
    format: Format,
) -> Result<Vec<u8>, AllocError> {
    match explained(alloc, files, names, settings)? {
        Some(explained) => {
            let text = explained.to_text(alloc, format)?;
            Ok(text.into_bytes())
        }
        None => Ok(Vec::new(alloc)),
    }
}
