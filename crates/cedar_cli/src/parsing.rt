//! The subcommand `check-parse`.
ghost use Rattle.std.specs.Prelude.{◌≡◌, ◌⊎◌, ◌-◌, ◌<◌, ◌^◌, ◌++◌, [], ◌∷◌, IfOk, OnOk};
ghost use Rattle.std.specs.Io.KnownBytes.{Keeps};
ghost use Rattle.serde_json.specs.Written.{compact_text};
ghost use Rattle.base_lines.specs.AnswerText.{Writes};
ghost use Rattle.base_lines.specs.Lines.{line_feed};
ghost use Rattle.cedar_cli.specs.Parsing.{BeginsCountsLine, ChecksParse, IsCountsLine, counts_data};
ghost use Rattle.cedar_files.specs.Standing.{BeginsRefusal, IsRefusalLine};
ghost use Rattle.cedar_files.specs.Private.Tokens.{data_tokens};

use base_lines::{Sink, flush};
use cedar_ast::PolicySet;
use cedar_ext::Language;
use cedar_files::{End, FileRefusal, Files, Role, Unread, read_policies, refuse};
use json::Writer;
use std::alloc::{AllocError, Global};

// Ends the program where a file cannot be used.
fn stop<K: Sink>(alloc: Global, role: Role, unread: Unread, sink: &mut K) -> End
    requires { K.failed sink.old < 2 ^ 64 - 1 }
    ensures refused { result ≡ End.Refused → (refusal : FileRefusal) × (unread ≡ Unread.Refused refusal)
        × Writes (K.written sink.old) (K.written sink.new) (IsRefusalLine role refusal) }
    ensures unnamed { result ≡ End.CommandLine → unread ≡ Unread.Unnamed }
    ensures untouched { result ≡ End.CommandLine → sink.new ≡ sink.old }
    ensures device { result ≡ End.Device → (unread ≡ Unread.Device) ⊎ (K.failed sink.old < K.failed sink.new) }
    ensures stands { result ≡ End.Device → Keeps (K.written sink.old) (K.written sink.new)
        ⊎ ((refusal : FileRefusal) × (unread ≡ Unread.Refused refusal)
        × Writes (K.written sink.old) (K.written sink.new) (BeginsRefusal role refusal)) }
    ensures stands_whole { result ≡ End.Memory → Keeps (K.written sink.old) (K.written sink.new) }
    ensures others { (result ≡ End.Done → ⊥) × (result ≡ End.Faults → ⊥) }
{
    match unread {
        Unread::Refused(refusal) => refuse(alloc, role, refusal, sink),
        Unread::Unnamed => End::CommandLine,
        Unread::Device => End::Device,
        Unread::Memory => End::Memory,
    }
}

// `{"policies":P,"templates":T}`
fn write_counts(writer: &mut Writer, policies: usize, templates: usize) -> Result<(), AllocError>
    ensures tokens { OnOk result (writer.new.tokens ≡ writer.old.tokens ++ data_tokens (counts_data policies templates)) }
    ensures before { writer.new.before ≡ writer.old.before }
{
    writer.begin_object()?;
    writer.key("policies")?;
    writer.u64(policies as u64)?;
    writer.key("templates")?;
    writer.u64(templates as u64)?;
    writer.end_object()?;
    Ok(())
}

// The line that says how many policies and templates there are.
fn counts_line(alloc: Global, policies: usize, templates: usize) -> Result<Vec<u8>, AllocError>
    ensures { IfOk result (λ line. line.items ≡ compact_text (counts_data policies templates) ++ line_feed ∷ []) }
{
    let mut writer = Writer::new(Vec::new(alloc));
    write_counts(&mut writer, policies, templates)?;
    let mut line = writer.into_inner();
    line.push(b'\n')?;
    Ok(line)
}

// Writes how many policies and templates there are.
fn report_counts<K: Sink>(alloc: Global, policies: &PolicySet, sink: &mut K) -> End
    requires { K.failed sink.old < 2 ^ 64 - 1 }
    ensures done { result ≡ End.Done → Writes (K.written sink.old) (K.written sink.new) (IsCountsLine policies.now) }
    ensures device { result ≡ End.Device → K.failed sink.old < K.failed sink.new }
    ensures stands { result ≡ End.Device → Writes (K.written sink.old) (K.written sink.new) (BeginsCountsLine policies.now) }
    ensures stands_whole { result ≡ End.Memory → Keeps (K.written sink.old) (K.written sink.new) }
    ensures others { (result ≡ End.Refused → ⊥) × (result ≡ End.Faults → ⊥) × (result ≡ End.CommandLine → ⊥) }
{
    let Ok(mut line) = counts_line(alloc, policies.count(), policies.template_count()) else {
        return End::Memory;
    };
    match flush(&mut line, sink) {
        Ok(()) => End::Done,
        Err(_) => End::Device,
    }
}

/// Reads the policies of the policy file in a language, without a schema, and writes how many policies and templates they are:
/// `{"policies":6,"templates":1}`. It ends with:
///
/// - `Done`: the file holds policies, and the line was written.
/// - `Refused`: the file is refused. One line such as `{"file":"policies","offset":43,"refused":104}` gives the number and the place.
/// - `CommandLine`: the command line names no policy file. Nothing is written.
/// - `Device`: the file can't be read, or the sink failed, which may leave a part of a line.
/// - `Memory`: memory ran out, which leaves nothing.
pub fn check_parse<F: Files, K: Sink>(
    alloc: Global,
    files: &F,
    language: Language,
    sink: &mut K,
) -> End
    requires { K.failed sink.old < 2 ^ 64 - 1 }
    ensures ends { ChecksParse language (F.holds files.now Role.Policies) (K.failed sink.old < K.failed sink.new) (K.written sink.old) (K.written sink.new) result }
    ensures untouched { result ≡ End.CommandLine → sink.new ≡ sink.old }
{
    let policies = match read_policies(alloc, files, language) {
        Ok(policies) => policies,
        Err(unread) => return stop(alloc, Role::Policies, unread, sink),
    };
    report_counts(alloc, &policies, sink)
}
