//! The subcommand `ask`.
ghost use Rattle.std.specs.Prelude.{◌≡◌, ◌⊎◌, ◌-◌, ◌<◌, ◌^◌, MatchResult};
ghost use Rattle.base_lines.specs.AnswerText.{IsAnswerText, Writes};
ghost use Rattle.cedar_auth.specs.AnswerLine.{AnswersLine};
ghost use Rattle.cedar_cli.specs.Asking.{DecidesLine, EndsUndecided, IsDecided, IsRefusedLine, IsUndecided};

use crate::authorizing::answer;
use base_lines::{Sink, SliceSource};
use cedar_ast::Decision;
use cedar_auth::Ready;
use cedar_check_spec::Settings;
use cedar_conform_values::ConformFault;
use cedar_files::{End, Files, prepare};
use std::alloc::Global;

// What the policies decide of a line; or how the program ends where the line is refused or memory ran out.
fn decision_of(alloc: Global, ready: &Ready, line: &[u8]) -> Result<Decision, End>
    ensures { MatchResult result (λ decision. DecidesLine ready.now line.now decision)
        (λ end. ((end ≡ End.Refused) × IsRefusedLine ready.now line.now) ⊎ (end ≡ End.Memory)) }
{
    match ready.read(alloc, line) {
        Ok(request) => match ready.answer(alloc, &request) {
            Ok(response) => Ok(response.decision),
            Err(_) => Err(End::Memory),
        },
        Err(ConformFault::OutOfMemory) => Err(End::Memory),
        Err(_) => Err(End::Refused),
    }
}

// Answers a line, and gives what the policies decide of it.
fn answer_line<K: Sink>(
    alloc: Global,
    ready: &Ready,
    line: &[u8],
    sink: &mut K,
) -> Result<Decision, End>
    requires { K.failed sink.old < 2 ^ 64 - 1 }
    ensures { MatchResult result
        (λ decision. DecidesLine ready.now line.now decision × Writes (K.written sink.old) (K.written sink.new) (IsAnswerText (AnswersLine ready.now) line.now))
        (EndsUndecided ready.now line.now (K.failed sink.old < K.failed sink.new) (K.written sink.old) (K.written sink.new)) }
{
    let mut source = SliceSource::new(line);
    match answer(alloc, ready, &mut source, sink) {
        End::Done => decision_of(alloc, ready, line),
        end => Err(end),
    }
}

/// Answers one request line, which has no line feed: it reads the files as `authorize` does, writes the answer line, and gives the
/// decision.
///
/// # Errors
///
/// The error is how the program ends: `Refused` where a file or the line is refused, and otherwise as `authorize` ends. What is
/// written then is what `authorize` writes.
pub fn ask<F: Files, K: Sink>(
    alloc: Global,
    files: &F,
    line: &[u8],
    sink: &mut K,
    settings: Settings,
) -> Result<Decision, End>
    requires { K.failed sink.old < 2 ^ 64 - 1 }
    ensures { MatchResult result
        (IsDecided settings (F.holds files.now) line.now (K.written sink.old) (K.written sink.new))
        (IsUndecided settings (F.holds files.now) line.now (K.failed sink.old < K.failed sink.new) (K.written sink.old) (K.written sink.new)) }
{
    let ready = prepare(alloc, files, sink, settings)?;
    answer_line(alloc, &ready, line, sink)
}
