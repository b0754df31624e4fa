//! The program `cedar`: `validate` checks policies against a schema, and `authorize` answers request lines.
#![tactic(auto)]

mod asking;
mod discarding;
mod explaining;
mod foreign;
mod format;
mod host_files;
mod lines;
mod output;
mod request_line;
mod running;
mod standard_input;
mod tips;
mod unnamed;
mod validating;
mod warning;
mod whys;

use crate::format::{Forms, WrongValue, forms_of};
use crate::output::output_failed;
use crate::running::{run_words, say};
use crate::tips::{file_tip, tip};
use base_places::Draft;
use cedar_cli::{Words, words};
use cedar_files::End;
use cedar_files_diagnostics::Format;
use clap::error::ErrorKind;
use std::alloc::{AllocError, Global};
use std::process::ExitCode;
use std::{env, io};

/// Prints what `clap` says of a command line that gives no words: a refusal, with a tip if there is one, or the help that the user wanted.
fn tell(rt: &HostRuntime, error: &clap::Error, words: &[&str]) -> io::Result<End> {
    if error.kind() == ErrorKind::OutOfMemory {
        return Ok(End::Memory);
    }
    error.print(rt)?;
    match tip(rt.alloc(), error.kind(), words) {
        Ok(Some(tip)) => rt.eprint(tip.as_str())?,
        Ok(None) => {}
        Err(_) => return Ok(End::Memory),
    }
    Ok(if error.use_stderr() {
        End::CommandLine
    } else {
        End::Done
    })
}

/// Says that the words of the command line cannot be read, for example where one is not UTF-8. The command line is then
/// refused.
fn refuse_words(rt: &HostRuntime, error: &io::Error) -> io::Result<End> {
    if error.kind() == io::ErrorKind::OutOfMemory {
        return Ok(End::Memory);
    }
    rt.eprintln("error: an argument is not valid UTF-8")?;
    Ok(End::CommandLine)
}

// What is said of a value that its option does not take.
fn says_of_value(alloc: Global, wrong: WrongValue<'_>) -> Result<String, AllocError> {
    let mut says = Draft::new(alloc);
    says.add("error: invalid value '");
    says.add_shown(wrong.value);
    says.add_all(&[
        "' for '",
        wrong.option,
        "'\n  [possible values: ",
        wrong.values,
        "]\n",
    ]);
    says.done()
}

/// Says that an option does not take a value. The command line is then refused.
fn refuse_value(rt: &HostRuntime, wrong: WrongValue<'_>) -> io::Result<End> {
    match says_of_value(rt.alloc(), wrong) {
        Ok(says) => {
            rt.eprint(says.as_str())?;
            Ok(End::CommandLine)
        }
        Err(_) => Ok(End::Memory),
    }
}

/// Runs the subcommand of these words, and gives the exit status. Where a file cannot be read, it says after that what to write in its place,
/// if that is known. `given` is the command line as it was written.
fn run_and_tell(rt: &HostRuntime, words: &Words<'_>, forms: Forms, given: &[&str]) -> u8 {
    let status = run_words(rt, words, forms);
    if status == End::Device.status() && matches!(forms.explanations, Some(Format::Human)) {
        if let Ok(Some(tip)) = file_tip(rt.alloc(), words, given) {
            // Where standard error is gone, the tip is lost.
            let _ = rt.eprint(tip.as_str());
        }
    }
    status
}

/// Runs the subcommand of the command line, and gives the exit status.
fn run(rt: &HostRuntime) -> io::Result<u8> {
    let alloc = rt.alloc();
    let given = match env::args(rt) {
        Ok(given) => given,
        Err(error) => return said(rt, refuse_words(rt, &error)?),
    };
    let arguments: Vec<String> = given.collect(alloc)?;
    let mut texts = Vec::with_capacity(alloc, arguments.len())?;
    for argument in &arguments {
        texts.push(argument.as_str())?;
    }
    let words = match words(alloc, &texts) {
        Ok(words) => words,
        Err(error) => return said(rt, tell(rt, &error, &texts)?),
    };
    match forms_of(&words) {
        Ok(forms) => Ok(run_and_tell(rt, &words, forms, &texts)),
        Err(wrong) => said(rt, refuse_value(rt, wrong)?),
    }
}

/// The exit status of a run without words, whose line is printed.
fn said(rt: &HostRuntime, end: End) -> io::Result<u8> {
    say(rt, end);
    Ok(end.status())
}

/// Says why a call of the host failed, and gives the exit status.
fn failed(rt: &HostRuntime, error: &io::Error) -> u8 {
    if error.kind() == io::ErrorKind::OutOfMemory {
        say(rt, End::Memory);
        return End::Memory.status();
    }
    output_failed(rt, error)
}

fn main(rt: HostRuntime) -> ExitCode {
    let status = match run(&rt) {
        Ok(status) => status,
        Err(error) => failed(&rt, &error),
    };
    ExitCode::from(status)
}
