//! What to write in place of a command line that is refused, or that names a file which is not there.
use crate::foreign::{for_option, for_subcommand};
use crate::host_files::{ROLES, name_of, option_of};
use base_places::Draft;
use cedar_cli::{Subcommand, Words};
use clap::error::ErrorKind;
use std::alloc::{AllocError, Global};

/// What prints the version.
const VERSION: &str = "'cedar --version' prints the version";

/// What is said where a command line has no subcommand.
const SUBCOMMAND_FIRST: &str =
    "a subcommand comes first: 'validate', 'authorize', 'why', 'ask' or 'check-parse'";

/// The subcommands.
const SUBCOMMANDS: [&str; 6] = [
    "validate",
    "authorize",
    "why",
    "ask",
    "check-parse",
    "explain",
];

/// The options that take no value.
const FLAGS: [&str; 7] = [
    "--quiet",
    "--any-decimal",
    "--deny-warnings",
    "--entities-in-lines",
    "--explain-lines",
    "--all",
    "--json",
];

/// The options that take a value.
const VALUES: [&str; 12] = [
    "--schema",
    "--policies",
    "--links",
    "--entities",
    "--principal",
    "--action",
    "--resource",
    "--context",
    "--request",
    "--diagnostics",
    "--report",
    "--language",
];

/// What is read from files with such a part in their names, and the option that names them, as a word and as a letter.
const OPTIONS: [(&str, &str, &str, &str); 3] = [
    ("schema", "the schema", "--schema", "-s"),
    ("entit", "the entities", "--entities", "-e"),
    ("link", "the links", "--links", "-l"),
];

// An option without its value, where that follows `=`.
fn name_in<'w>(word: &'w str) -> &'w str {
    match word.split_once('=') {
        Some((name, _)) => name,
        None => word,
    }
}

// The long option that a word names after one dash.
fn after_one_dash(word: &str) -> Option<&'static str> {
    let name = name_in(word.strip_prefix('-')?);
    for option in VALUES {
        if option.strip_prefix("--") == Some(name) {
            return Some(option);
        }
    }
    for option in FLAGS {
        if option.strip_prefix("--") == Some(name) {
            return Some(option);
        }
    }
    None
}

// The first long option that has one dash.
fn one_dash(words: &[&str]) -> Option<&'static str> {
    for word in words.iter().skip(1) {
        if let Some(option) = after_one_dash(*word) {
            return Some(option);
        }
    }
    None
}

// Adds how a long option is written.
fn add_dashes(tip: &mut Draft, option: &str) {
    tip.add_all(&["a long option has two dashes: '", option, "'"]);
}

// Whether a word is an option, and the word after it its value.
fn takes_next(word: &str) -> bool {
    word.starts_with('-') && !word.contains('=') && !FLAGS.contains(&word)
}

// The first word that is neither a subcommand, an option nor the value of one.
fn plain_word<'w>(words: &[&'w str]) -> Option<&'w str> {
    let mut is_value = false;
    for word in words.iter().skip(2) {
        if !word.starts_with('-') && !is_value {
            return Some(*word);
        }
        is_value = takes_next(*word);
    }
    None
}

// How often an option is there, as a word or as a letter.
fn times(words: &[&str], option: &str, letter: &str) -> usize {
    let mut times: usize = 0;
    for word in words.iter().skip(2) {
        if name_in(*word) == option || word.starts_with(letter) {
            times = times.saturating_add(1);
        }
    }
    times
}

// What is read from a file of this name, most likely, and the option that names such a file, as a word and as a letter.
fn read_from(name: &str) -> Option<(&'static str, &'static str, &'static str)> {
    if name.ends_with(".cedar") {
        return Some(("the policies", "--policies", "-p"));
    }
    for (part, what, option, letter) in OPTIONS {
        if name.contains(part) {
            return Some((what, option, letter));
        }
    }
    None
}

// Adds that an option takes one file.
fn add_one_file(tip: &mut Draft, option: &str) {
    tip.add_all(&["'", option, "' takes one file"]);
    if option == "--policies" {
        tip.add(": 'cat *.cedar > all.cedar' makes one of many");
    }
}

// Adds how a file is named.
fn add_file(tip: &mut Draft, words: &[&str], name: &str) {
    if name.ends_with(".jsonl") {
        tip.add("request lines are read from standard input: write '< ");
        tip.add_shown(name);
        tip.add("'");
    } else if let Some((what, option, letter)) = read_from(name) {
        if times(words, option, letter) > 0 {
            add_one_file(tip, option);
            return;
        }
        tip.add_all(&["to read ", what, " from it, write '", option, " "]);
        tip.add_shown(name);
        tip.add("'");
    } else {
        tip.add("an option names each file: '--schema', '--policies', '--links' and '--entities'");
    }
}

// The first word that is a file, where a subcommand that reads files is given one without its option.
fn plain_file<'w>(words: &[&'w str]) -> Option<&'w str> {
    match words.get(1) {
        Some(&"explain") => None,
        _ => plain_word(words).filter(|word| !word.contains("::")),
    }
}

// The subcommand of words that begin with an option.
fn late_subcommand<'w>(words: &[&'w str]) -> Option<&'w str> {
    for word in words.iter().skip(2) {
        if SUBCOMMANDS.contains(word) {
            return Some(*word);
        }
    }
    None
}

fn is_plain_byte(byte: u8) -> bool {
    byte.is_ascii_alphanumeric() || matches!(byte, b'-' | b'_' | b'.' | b'/' | b'=' | b',' | b'+')
}

// Adds the words with the subcommand first. In place of a word that a shell may read otherwise come two dots.
fn add_in_order(tip: &mut Draft, words: &[&str], subcommand: &str) {
    tip.add_all(&["the subcommand comes first: 'cedar ", subcommand]);
    for word in words.iter().skip(1) {
        if *word != subcommand {
            let is_plain = word.as_bytes().iter().all(|byte| is_plain_byte(*byte));
            tip.add_all(&[" ", if is_plain { *word } else { ".." }]);
        }
    }
    tip.add("'");
}

// Adds what to do with words that begin with an option. Says whether there is something.
fn add_first(tip: &mut Draft, words: &[&str], first: &str) -> bool {
    if let Some(subcommand) = late_subcommand(words) {
        add_in_order(tip, words, subcommand);
        return true;
    }
    let is_ours = VALUES.contains(&name_in(first)) || FLAGS.contains(&first);
    if is_ours || matches!(first, "-s" | "-p" | "-l" | "-e" | "-c") {
        tip.add(SUBCOMMAND_FIRST);
        return true;
    }
    false
}

// What to write in place of the first option that the subcommand does not have.
fn foreign_option(words: &[&str], subcommand: &str) -> Option<&'static str> {
    let mut is_value = false;
    for word in words.iter().skip(2) {
        if word.starts_with('-') && !is_value {
            if let Some(tip) = for_option(subcommand, name_in(*word)) {
                return Some(tip);
            }
        }
        is_value = !is_value && takes_next(*word);
    }
    None
}

// Adds what to write in place of a word that is not expected. Says whether there is something.
fn add_unexpected(tip: &mut Draft, words: &[&str], first: &str) -> bool {
    if first.starts_with('-') {
        return add_first(tip, words, first);
    }
    if let Some(instead) = foreign_option(words, first) {
        tip.add(instead);
        return true;
    }
    match plain_file(words) {
        Some(name) => {
            add_file(tip, words, name);
            true
        }
        None => false,
    }
}

// Adds what to write in place of these words, the second of which is given. Says whether there is something.
fn add_tip(tip: &mut Draft, kind: ErrorKind, words: &[&str], first: &str) -> bool {
    match kind {
        ErrorKind::InvalidSubcommand => match for_subcommand(first) {
            Some(instead) => tip.add(instead),
            None if first.contains('.') => tip.add(SUBCOMMAND_FIRST),
            None => return false,
        },
        ErrorKind::UnknownArgument if first == "-v" => tip.add(VERSION),
        ErrorKind::UnknownArgument | ErrorKind::ArgumentConflict => match one_dash(words) {
            Some(option) => add_dashes(tip, option),
            None if kind == ErrorKind::UnknownArgument => return add_unexpected(tip, words, first),
            None if times(words, "--policies", "-p") > 1 => add_one_file(tip, "--policies"),
            None => return false,
        },
        _ => return false,
    }
    true
}

/// The line with what to write in place of these words, which `clap` refuses, the program's name first; or none.
///
/// # Errors
///
/// Fails only when out of memory.
pub fn tip(alloc: Global, kind: ErrorKind, words: &[&str]) -> Result<Option<String>, AllocError> {
    let mut tip = Draft::new(alloc);
    tip.add("\n  tip: ");
    match words.get(1) {
        Some(first) if add_tip(&mut tip, kind, words, *first) => {}
        _ => return Ok(None),
    }
    tip.add("\n");
    Ok(Some(tip.done()?))
}

// Whether a text is what a file would hold, and not its name.
fn is_content(text: &str) -> bool {
    let text = text.trim_start();
    text.starts_with('{') || text.starts_with('[') || text.contains("(principal")
}

// The first option with what a file would hold in place of its name, and that.
fn content_for_file<'a>(words: &Words<'a>) -> Option<(&'static str, &'a str)> {
    for role in ROLES {
        if let Some(name) = name_of(words.files, role) {
            if is_content(name) {
                return Some((option_of(role), name));
            }
        }
    }
    match words.request.context {
        Some(name) if is_content(name) => Some(("--context", name)),
        _ => None,
    }
}

// Adds that an option takes the name of a file, and how a text is given to it.
fn add_content(tip: &mut Draft, words: &Words<'_>, option: &str, text: &str) {
    tip.add_all(&["'", option, "' takes the name of a file"]);
    let subcommand = match words.subcommand {
        Subcommand::Validate => "validate",
        Subcommand::Ask => "ask",
        Subcommand::CheckParse => "check-parse",
        // The others read standard input themselves.
        _ => return,
    };
    tip.add(", or '-' for standard input");
    if !text.contains('\'') {
        tip.add(": echo '");
        tip.add_shown(text);
        tip.add_all(&["' | cedar ", subcommand, " .. ", option, " -"]);
    }
}

/// The line with what to write in place of these words, which name a file that cannot be read; or none. `given` is the command line as
/// it was written, the program's name first.
///
/// # Errors
///
/// Fails only when out of memory.
pub fn file_tip(
    alloc: Global,
    words: &Words<'_>,
    given: &[&str],
) -> Result<Option<String>, AllocError> {
    let mut tip = Draft::new(alloc);
    tip.add("  tip: ");
    if let Some((option, text)) = content_for_file(words) {
        add_content(&mut tip, words, option, text);
    } else if let Some(option) = one_dash(given) {
        add_dashes(&mut tip, option);
    } else {
        return Ok(None);
    }
    tip.add("\n");
    Ok(Some(tip.done()?))
}
