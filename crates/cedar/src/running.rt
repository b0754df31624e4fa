//! Runs the subcommands.
use crate::asking::run_ask;
use crate::explaining::Explainer;
use crate::format::Forms;
use crate::host_files::{HostFiles, standard_input};
use crate::lines::explain_lines;
use crate::output::{Output, output_failed};
use crate::standard_input::wanted_twice;
use crate::unnamed::{refuse_unnamed_entities, refused_request};
use crate::validating::run_validate;
use crate::warning::authorize_and_warn;
use crate::whys::run_why;
use base_lines::{SliceSource, StdSource};
use cedar_cli::{Subcommand, Words, check_parse};
use cedar_cli_refusals::explain;
use cedar_files::End;
use cedar_files_diagnostics::{CountingSink, Format, RefusedFile, refused_lines};
use std::alloc::{AllocError, Global};
use std::io;

/// Prints the line for a device that failed, or for memory that ran out.
pub fn say(rt: &HostRuntime, end: End) {
    let said = match end {
        End::Device => rt.eprintln("cedar: device failed"),
        End::Memory => rt.eprintln("cedar: out of memory"),
        _ => Ok(()),
    };
    // Where standard error is gone, the line is lost.
    let _ = said;
}

/// Says how a run over files ended, explains it in a form, if one is wanted, and gives the exit status. `refused` is the file that
/// standard output says is refused.
pub fn ended(
    rt: &HostRuntime,
    files: &HostFiles<'_>,
    words: &Words<'_>,
    format: Option<Format>,
    end: End,
    refused: Option<RefusedFile>,
) -> u8 {
    say(rt, end);
    if let Some(format) = format {
        let explainer = Explainer {
            rt,
            files,
            words,
            format,
        };
        explainer.say(explainer.text(end, refused, None));
    }
    end.status()
}

// `authorize` that says nothing of the lines that were refused, so they are not counted.
fn run_quiet(rt: &HostRuntime, files: &HostFiles<'_>, words: &Words<'_>) -> u8 {
    let mut fault = None;
    let mut source = StdSource::new(rt.reader());
    let mut sink = Output::new(io::writer(rt), &mut fault);
    let end = authorize_and_warn(rt, files, &mut source, &mut sink, words, None);
    drop(sink);
    match &fault {
        Some(error) => output_failed(rt, error),
        None => ended(rt, files, words, None, end, None),
    }
}

// `authorize` that says in a form how many lines were refused.
fn run_counting(rt: &HostRuntime, files: &HostFiles<'_>, words: &Words<'_>, format: Format) -> u8 {
    let mut fault = None;
    let mut source = StdSource::new(rt.reader());
    let mut sink = CountingSink::new(Output::new(io::writer(rt), &mut fault));
    let end = authorize_and_warn(rt, files, &mut source, &mut sink, words, Some(format));
    let counts = sink.counts();
    drop(sink);
    if let Some(error) = &fault {
        return output_failed(rt, error);
    }
    let status = ended(rt, files, words, Some(format), end, counts.refused_file);
    if let End::Done = end {
        if let Ok(says) = refused_lines(rt.alloc(), format, counts) {
            // Where standard error is gone, the line is lost.
            let _ = rt.eprint(says.as_str());
        }
    }
    status
}

// Explains the lines that were refused, which are kept.
fn explain_kept(
    rt: &HostRuntime,
    files: &HostFiles<'_>,
    words: &Words<'_>,
    format: Format,
    input: &[u8],
) {
    let explainer = Explainer {
        rt,
        files,
        words,
        format,
    };
    explain_lines(explainer, input);
}

// `authorize --explain-lines`: all lines are read before the first is answered.
fn run_kept_lines(
    rt: &HostRuntime,
    files: &HostFiles<'_>,
    words: &Words<'_>,
    format: Option<Format>,
) -> u8 {
    let input = match standard_input(rt) {
        Ok(input) => input,
        Err(end) => return ended(rt, files, words, format, end, None),
    };
    let mut fault = None;
    let mut source = SliceSource::new(&input);
    let mut sink = CountingSink::new(Output::new(io::writer(rt), &mut fault));
    let end = authorize_and_warn(rt, files, &mut source, &mut sink, words, format);
    let refused = sink.counts().refused_file;
    drop(sink);
    if let Some(error) = &fault {
        return output_failed(rt, error);
    }
    let status = ended(rt, files, words, format, end, refused);
    if let (End::Done, Some(format)) = (end, format) {
        explain_kept(rt, files, words, format, &input);
    }
    status
}

// `check-parse`.
fn run_check_parse(
    rt: &HostRuntime,
    files: &HostFiles<'_>,
    words: &Words<'_>,
    format: Option<Format>,
) -> u8 {
    let mut fault = None;
    let mut sink = CountingSink::new(Output::new(io::writer(rt), &mut fault));
    let end = check_parse(rt.alloc(), files, words.settings.language, &mut sink);
    let refused = sink.counts().refused_file;
    drop(sink);
    match &fault {
        Some(error) => output_failed(rt, error),
        None => ended(rt, files, words, format, end, refused),
    }
}

// The number that a word names, perhaps after an `E`, as in `E602`; 0 where it names none.
fn number_of(word: &str) -> u16 {
    let digits = word.strip_prefix('E').unwrap_or(word);
    digits.parse::<u16>().unwrap_or(0)
}

// `explain`.
fn run_explain(rt: &HostRuntime, words: &Words<'_>) -> u8 {
    let number = number_of(words.number.unwrap_or(""));
    let end = match explain(rt.alloc(), number) {
        Ok(Some(text)) => match rt.print(text.as_str()) {
            Ok(()) => End::Done,
            Err(error) => return output_failed(rt, &error),
        },
        Ok(None) => {
            // Where standard error is gone, the line is lost.
            let _ = rt.eprintln("error: unknown number: docs/REFUSALS.md lists them all");
            End::CommandLine
        }
        Err(_) => End::Memory,
    };
    say(rt, end);
    end.status()
}

// Whether the command line names no entities file, and request lines bring no entities either.
fn lacks_entities(words: &Words<'_>) -> bool {
    words.files.entities.is_none() && !words.entities_in_lines
}

// Runs a subcommand over files.
fn run_over_files(rt: &HostRuntime, words: &Words<'_>, forms: Forms) -> u8 {
    let files = match HostFiles::new(rt, words) {
        Ok(files) => files,
        Err(end) => {
            say(rt, end);
            return end.status();
        }
    };
    let format = forms.explanations;
    match words.subcommand {
        Subcommand::Validate => run_validate(rt, &files, words, forms),
        Subcommand::Authorize if words.explain_lines => run_kept_lines(rt, &files, words, format),
        Subcommand::Authorize => match format {
            Some(format) => run_counting(rt, &files, words, format),
            None => run_quiet(rt, &files, words),
        },
        Subcommand::Why => run_why(rt, &files, words, format),
        Subcommand::Ask => run_ask(rt, &files, words, format),
        Subcommand::CheckParse => run_check_parse(rt, &files, words, format),
        Subcommand::Explain => run_explain(rt, words),
    }
}

// Why a command line of `ask` says no request, or none.
fn refused_words(alloc: Global, words: &Words<'_>) -> Result<Option<String>, AllocError> {
    if words.subcommand == Subcommand::Ask {
        refused_request(alloc, words.request)
    } else {
        Ok(None)
    }
}

/// Runs the subcommand of a command line, which writes in these forms, and gives the exit status.
pub fn run_words(rt: &HostRuntime, words: &Words<'_>, forms: Forms) -> u8 {
    if words.subcommand == Subcommand::Authorize && lacks_entities(words) {
        return refuse_unnamed_entities(rt);
    }
    let refused = match refused_words(rt.alloc(), words) {
        Ok(None) => wanted_twice(rt.alloc(), words),
        refused => refused,
    };
    match refused {
        Ok(None) => run_over_files(rt, words, forms),
        Ok(Some(says)) => {
            // Where standard error is gone, the refusal is lost.
            let _ = rt.eprint(says.as_str());
            End::CommandLine.status()
        }
        Err(_) => {
            say(rt, End::Memory);
            End::Memory.status()
        }
    }
}
