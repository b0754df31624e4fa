//! The faults of the policies of files.
use crate::again::{bytes_again, links_again};
use crate::diagnostic::Explanation;
use crate::fault_part::Checked;
use crate::faults::explain_faults;
use crate::file_kind::is_json_policies;
use cedar_ast::PolicySet;
use cedar_check::check_with;
use cedar_check_spec::Settings;
use cedar_files::{Files, Role, Unprepared, read_linked};
use cedar_schema::Schema;
use std::alloc::{AllocError, Global};

/// What is explained of the faults and the warnings of these policies, which the schema, the policies and the links of the files gave; or
/// none if the links or the text of the policies cannot be read again. `name` is that of the policy file.
///
/// # Errors
///
/// Fails only when out of memory.
pub fn explain_report<F: Files>(
    alloc: Global,
    files: &F,
    name: &str,
    schema: &Schema,
    policies: &PolicySet,
    settings: Settings,
) -> Result<Option<Explanation>, AllocError> {
    let Some(links) = links_again(alloc, files)? else {
        return Ok(None);
    };
    let checked = Checked {
        schema,
        policies,
        links: &links,
        settings,
    };
    let explained = over_text(alloc, files, name, checked);
    drop(links);
    explained
}

/// The same, where the schema and the policies are read once more, too.
///
/// # Errors
///
/// Fails only when out of memory.
pub fn explain_policy_faults<F: Files>(
    alloc: Global,
    files: &F,
    name: &str,
    settings: Settings,
) -> Result<Option<Explanation>, AllocError> {
    match read_linked(alloc, files, settings.language) {
        Ok((schema, policies)) => {
            let explained = explain_report(alloc, files, name, &schema, &policies, settings);
            drop(policies);
            drop(schema);
            explained
        }
        Err(Unprepared::Memory) => Err(AllocError),
        Err(other) => {
            drop(other);
            Ok(None)
        }
    }
}

// What is explained of what was checked, with the text of the policy file. Of policies in JSON no place is known, and nothing is quoted.
fn over_text<F: Files>(
    alloc: Global,
    files: &F,
    name: &str,
    checked: Checked<'_>,
) -> Result<Option<Explanation>, AllocError> {
    let Some(bytes) = bytes_again(alloc, files, Role::Policies)? else {
        return Ok(None);
    };
    if is_json_policies(checked.settings.language, &bytes) {
        drop(bytes);
        let report = check_with(alloc, checked.schema, checked.policies, checked.settings)?;
        let text = String::new(alloc);
        return explain_faults(alloc, name, text, checked, &report).map(Some);
    }
    let text = match String::from_utf8(bytes) {
        Ok(text) => text,
        Err(fault) => {
            drop(fault.into_bytes());
            return Ok(None);
        }
    };
    let report = check_with(alloc, checked.schema, checked.policies, checked.settings)?;
    explain_faults(alloc, name, text, checked, &report).map(Some)
}
