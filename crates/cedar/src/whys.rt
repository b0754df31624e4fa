//! `why`: what each request line comes to, policy by policy.
ghost use Rattle.std.specs.Prelude.{◌-◌, ◌<◌, ◌^◌};

use crate::host_files::HostFiles;
use crate::output::{Output, output_failed};
use crate::running::ended;
use base_lines::{ServeFault, Sink, StdSource};
use cedar_cli::Words;
use cedar_ext::Language;
use cedar_files::{End, Files, Role, prepare};
use cedar_files_diagnostics::{CountingSink, Format, is_json_policies};
use cedar_why::{WhyOptions, why};
use std::alloc::Global;
use std::io;

// The policy text, of which places are said; nothing where it cannot be read again, and of policies in JSON.
fn policy_text(alloc: Global, files: &HostFiles<'_>, language: Language) -> String {
    match files.read(alloc, Role::Policies) {
        Ok(Some(bytes)) if is_json_policies(language, &bytes) => {
            drop(bytes);
            String::new(alloc)
        }
        Ok(Some(bytes)) => match String::from_utf8(bytes) {
            Ok(text) => text,
            Err(fault) => {
                drop(fault.into_bytes());
                String::new(alloc)
            }
        },
        Ok(None) | Err(_) => String::new(alloc),
    }
}

// Answers the request lines with what each policy comes to, and says how that ended.
fn why_lines<K: Sink>(
    rt: &HostRuntime,
    files: &HostFiles<'_>,
    words: &Words<'_>,
    sink: &mut K,
) -> End
    requires { K.failed sink.old < 2 ^ 64 - 1 }
{
    let alloc = rt.alloc();
    let ready = match prepare(alloc, files, sink, words.settings) {
        Ok(ready) => ready,
        Err(end) => return end,
    };
    let options = WhyOptions {
        all: words.all,
        json: words.json,
    };
    let text = policy_text(alloc, files, words.settings.language);
    let mut source = StdSource::new(rt.reader());
    let end = match why(alloc, &ready, text.as_str(), options, &mut source, sink) {
        Ok(()) => End::Done,
        Err(ServeFault::OutOfMemory) => End::Memory,
        Err(ServeFault::ReadFailed | ServeFault::WriteFailed) => End::Device,
    };
    drop(text);
    drop(ready);
    end
}

/// Says why each request line of standard input is allowed or denied, and gives the exit status.
pub fn run_why(
    rt: &HostRuntime,
    files: &HostFiles<'_>,
    words: &Words<'_>,
    format: Option<Format>,
) -> u8 {
    let mut fault = None;
    let mut sink = CountingSink::new(Output::new(io::writer(rt), &mut fault));
    let end = why_lines(rt, files, words, &mut sink);
    let refused = sink.counts().refused_file;
    drop(sink);
    match &fault {
        Some(error) => output_failed(rt, error),
        None => ended(rt, files, words, format, end, refused),
    }
}
