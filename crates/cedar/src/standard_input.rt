//! Command lines that name standard input.
use crate::host_files::{ROLES, STANDARD_INPUT, name_of, option_of};
use base_places::Draft;
use cedar_cli::{Subcommand, Words};
use std::alloc::{AllocError, Global};

// Whether the subcommand reads request lines from standard input.
fn reads_lines(subcommand: Subcommand) -> bool {
    matches!(subcommand, Subcommand::Authorize | Subcommand::Why)
}

// The options of a command line that name standard input.
fn options(alloc: Global, words: &Words<'_>) -> Result<Vec<&'static str>, AllocError> {
    let mut options = Vec::new(alloc);
    for role in ROLES {
        if name_of(words.files, role) == Some(STANDARD_INPUT) {
            options.push(option_of(role))?;
        }
    }
    if words.request.context == Some(STANDARD_INPUT) {
        options.push("--context")?;
    }
    if words.request.request == Some(STANDARD_INPUT) {
        options.push("--request")?;
    }
    Ok(options)
}

/// Why standard input cannot be what a command line wants of it, if so: it can be read once.
///
/// # Errors
///
/// Fails only when out of memory.
pub fn wanted_twice(alloc: Global, words: &Words<'_>) -> Result<Option<String>, AllocError> {
    let options = options(alloc, words)?;
    let mut says = Draft::new(alloc);
    match (options.first(), options.get(1)) {
        (Some(first), _) if reads_lines(words.subcommand) => says.add_all(&[
            "error: '",
            *first,
            " -' wants standard input, which has the request lines\n",
        ]),
        (Some(first), Some(second)) => says.add_all(&[
            "error: '",
            *first,
            " -' and '",
            *second,
            " -' both want standard input, which can be read once\n",
        ]),
        _ => return Ok(None),
    }
    Ok(Some(says.done()?))
}
