//! Reads the command line.
ghost use Rattle.std.specs.Prelude.{◌≡◌, IfOk, IfErr, IfSome, true, map, option_map};
ghost use Rattle.clap.specs.Words.{takes, kind_of};
ghost use Rattle.cedar_cli.specs.CommandLine.{program};
ghost use Rattle.cedar_cli.specs.GivenWords.{AreGiven, language_of, subcommand_name};

use crate::command::command;
use crate::options::{AskedRequest, Subcommand, Words};
use cedar_check_spec::Settings;
use cedar_ext::Language;
use cedar_files::FileNames;
use clap::error::ErrorKind;
use std::alloc::{AllocError, Global};

fn subcommand_of(name: &str) -> Option<Subcommand>
    ensures { IfSome result (λ s. name.now ≡ subcommand_name s) }
{
    if name == "validate" {
        return Some(Subcommand::Validate);
    }
    if name == "authorize" {
        return Some(Subcommand::Authorize);
    }
    if name == "why" {
        return Some(Subcommand::Why);
    }
    if name == "ask" {
        return Some(Subcommand::Ask);
    }
    if name == "check-parse" {
        return Some(Subcommand::CheckParse);
    }
    if name == "explain" {
        return Some(Subcommand::Explain);
    }
    None
}

// The language that a value of `--language` asks for. Which values there are is the caller's to say.
fn language_of(value: Option<&str>) -> Language
    ensures { result ≡ language_of (option_map (λ s. s.now) value.entry) }
{
    match value {
        Some("4") => Language::Cedar4,
        Some(_) | None => Language::Profile,
    }
}

/// Why the words of a command line are refused: `clap`'s error, which prints itself.
pub type WordsFault = clap::Error;

/// What the words of a command line say, the program's name first.
///
/// # Errors
///
/// The error is `clap`'s own. It comes only where `clap`'s definition does not take the words, or when out of memory.
pub fn words<'a>(alloc: Global, words: &'a [&'a str]) -> Result<Words<'a>, WordsFault>
    ensures ok { IfOk result (AreGiven (map (λ s. s.now) words.now)) }
    ensures err { IfErr result (λ e. takes program (map (λ s. s.now) words.now) ≡ true → kind_of e ≡ ErrorKind.OutOfMemory) }
{
    let matches = command(alloc)?.try_get_matches_from(words)?;
    let Some((name, found)) = matches.subcommand() else {
        // A subcommand is required, so the parse refused this.
        return Err(WordsFault::from(AllocError));
    };
    let Some(subcommand) = subcommand_of(name) else {
        // The subcommand `help`, which the parse refuses.
        return Err(WordsFault::from(AllocError));
    };
    let language = found.get_str("language");
    Ok(Words {
        subcommand,
        files: FileNames {
            schema: found.get_str("schema"),
            policies: found.get_str("policies"),
            links: found.get_str("links"),
            entities: found.get_str("entities"),
        },
        request: AskedRequest {
            principal: found.get_str("principal"),
            action: found.get_str("action"),
            resource: found.get_str("resource"),
            context: found.get_str("context"),
            request: found.get_str("request"),
        },
        number: found.get_str("number"),
        diagnostics: found.get_str("diagnostics"),
        report: found.get_str("report"),
        language,
        settings: Settings {
            any_decimal: found.get_flag("any-decimal"),
            language: language_of(language),
        },
        quiet: found.get_flag("quiet"),
        deny_warnings: found.get_flag("deny-warnings"),
        explain_lines: found.get_flag("explain-lines"),
        entities_in_lines: found.get_flag("entities-in-lines"),
        all: found.get_flag("all"),
        json: found.get_flag("json"),
    })
}
