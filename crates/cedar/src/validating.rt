//! `validate`: the report on policies, and what is to be warned of.
ghost use Rattle.std.specs.Prelude.{◌-◌, ◌<◌, ◌^◌};

use crate::discarding::Discarding;
use crate::explaining::{Explainer, Read};
use crate::format::Forms;
use crate::host_files::HostFiles;
use crate::output::{Output, output_failed};
use crate::running::say;
use base_lines::Sink;
use base_places::Draft;
use cedar_ast::PolicySet;
use cedar_cli::Words;
use cedar_files::{End, Role, validate_keeping};
use cedar_files_diagnostics::{CountingSink, Format, LineCounts, has_false_guard};
use cedar_schema::Schema;
use std::alloc::AllocError;
use std::io;
use std::mem::forget;

// How a run ended.
#[derive(Clone, Copy)]
struct Ran {
    end: End,
    // What its lines say.
    counts: LineCounts,
    // Whether there is something to warn of, and nothing worse.
    warns: bool,
}

// Whether the policies that `validate` accepted have a part `x has a` that is always false. Such parts are not looked for where neither
// words nor the status would say so.
fn is_guard_false(
    rt: &HostRuntime,
    words: &Words<'_>,
    forms: Forms,
    read: &Option<(Schema, PolicySet)>,
) -> Result<bool, AllocError> {
    let Some((schema, policies)) = read else {
        return Ok(false);
    };
    if !words.deny_warnings && words_of(forms).is_none() {
        return Ok(false);
    }
    has_false_guard(rt.alloc(), schema, policies, words.settings)
}

// The form of what is said in words: on standard output where the report is for people, or else on standard error.
fn words_of(forms: Forms) -> Option<Format> {
    match forms.report {
        Format::Human => Some(Format::Human),
        Format::Json => forms.explanations,
    }
}

// Writes the report to a sink, keeps what was read, and says how that ended.
fn report_to<K: Sink>(
    rt: &HostRuntime,
    files: &HostFiles<'_>,
    words: &Words<'_>,
    forms: Forms,
    sink: &mut CountingSink<K>,
    read: &mut Option<(Schema, PolicySet)>,
) -> Ran
    requires { K.failed sink.old < 2 ^ 64 - 1 }
{
    let end = validate_keeping(rt.alloc(), files, sink, words.settings, read);
    let counts = sink.counts();
    let warns = match end {
        End::Done if counts.warnings == 0 => is_guard_false(rt, words, forms, read),
        other => Ok(other == End::Done),
    };
    match warns {
        Ok(warns) => Ran { end, counts, warns },
        Err(AllocError) => Ran {
            end: End::Memory,
            counts,
            warns: false,
        },
    }
}

// What is said of a run: why it ended so, which faults and warnings there are, and which templates were not looked at. The report for
// people says, too, that there is nothing to say.
fn text_of(
    explainer: Explainer<'_>,
    forms: Forms,
    ran: Ran,
    read: Read<'_>,
) -> Result<String, AllocError> {
    let explained = if ran.warns {
        explainer.warnings(read)?
    } else {
        explainer.text(ran.end, ran.counts.refused_file, read)?
    };
    let mut says = Draft::from_text(explained);
    if forms.report == Format::Human && ran.end == End::Done && !ran.warns {
        says.add_shown(explainer.files.name(Role::Policies).unwrap_or(""));
        says.add(": no faults, no warnings\n");
    }
    let unlinked = explainer.unlinked(read)?;
    says.add(unlinked.as_str());
    says.done()
}

// Prints the report for people, and gives the exit status, which is that of the run if nothing fails.
fn print_report(explainer: Explainer<'_>, says: Result<String, AllocError>, end: End) -> u8 {
    match says {
        Ok(says) => match explainer.rt.print(says.as_str()) {
            Ok(()) => end.status(),
            Err(error) => output_failed(explainer.rt, &error),
        },
        Err(AllocError) => {
            say(explainer.rt, End::Memory);
            End::Memory.status()
        }
    }
}

// Says in words what the run found, where it is to be said, and gives the exit status. A file that cannot be read is named on standard
// error.
fn explained(
    rt: &HostRuntime,
    files: &HostFiles<'_>,
    words: &Words<'_>,
    forms: Forms,
    ran: Ran,
    read: Read<'_>,
) -> u8 {
    let Some(format) = words_of(forms) else {
        return ran.end.status();
    };
    let explainer = Explainer {
        rt,
        files,
        words,
        format,
    };
    match (forms.report, ran.end) {
        (Format::Human, End::Done | End::Faults | End::Refused) => {
            print_report(explainer, text_of(explainer, forms, ran, read), ran.end)
        }
        _ if forms.explanations.is_none() => ran.end.status(),
        _ => {
            explainer.say(text_of(explainer, forms, ran, read));
            ran.end.status()
        }
    }
}

// Says how a run ended whose report is written, and gives the exit status. With `--deny-warnings` a report with warnings alone ends as one
// with faults, and so do policies with a part `x has a` that is always false.
fn end_run(
    rt: &HostRuntime,
    files: &HostFiles<'_>,
    words: &Words<'_>,
    forms: Forms,
    ran: Ran,
    read: Read<'_>,
) -> u8 {
    say(rt, ran.end);
    let status = explained(rt, files, words, forms, ran, read);
    if status == End::Done.status() && ran.warns && words.deny_warnings {
        End::Faults.status()
    } else {
        status
    }
}

/// `validate`.
pub fn run_validate(
    rt: &HostRuntime,
    files: &HostFiles<'_>,
    words: &Words<'_>,
    forms: Forms,
) -> u8 {
    let mut read = None;
    let mut fault = None;
    let ran = match forms.report {
        Format::Json => {
            let mut sink = CountingSink::new(Output::new(io::writer(rt), &mut fault));
            let ran = report_to(rt, files, words, forms, &mut sink, &mut read);
            drop(sink);
            ran
        }
        Format::Human => {
            let mut sink = CountingSink::new(Discarding);
            report_to(rt, files, words, forms, &mut sink, &mut read)
        }
    };
    let status = match &fault {
        Some(error) => output_failed(rt, error),
        None => end_run(rt, files, words, forms, ran, read.as_ref()),
    };
    // The system takes all memory at once when the program ends.
    forget(read);
    status
}
