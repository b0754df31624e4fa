//! Answers request lines.
ghost use Rattle.std.specs.Prelude.{ℕ, List, ◌≡◌, ◌≢◌, ◌-◌, ◌^◌, ◌<◌, ◌++◌, IfSome, OnOk, OnErr, IsErrOf};
ghost use Rattle.serde_json.specs.Written.{compact_text};
ghost use Rattle.cedar_value.specs.declared.request.Request.{Request as RequestTree};
ghost use Rattle.base_lines.specs.Lines.{lines_of, ended_lines_of};
ghost use Rattle.base_lines.specs.AnswerText.{AnswersEach, AnswersFirst, BeginsAnswers, BeginsAnswerText, IsAnswerText, Receives, Writes};
ghost use Rattle.cedar_conform_values.specs.declared.conform_fault.ConformFault.TheVariants.{OutOfMemory};
ghost use Rattle.cedar_conform_values.specs.Numbers.{number_of};
ghost use Rattle.cedar_conform.specs.Requests.{LineDenotes};
ghost use Rattle.cedar_schema_spec.specs.Conformance.{Fits};
ghost use Rattle.cedar_auth_spec.specs.AnswerJson.{refused_data};
ghost use Rattle.cedar_auth.specs.AnswerLine.{AnswersLine};
ghost use Rattle.cedar_auth_spec.specs.Headline.{IsAnsweredSoundlyWith};

use crate::answer::{append_refusal, append_response};
use crate::ready::Ready;
use crate::room::Room;
use base_lines::{Engine, ServeFault, Sink, Source};
use cedar_conform_values::ConformFault;
use std::alloc::{AllocError, Global};

/// Answers lines by policies that are ready, which lend it their ids.
#[derive(Clone, Copy)]
struct Answering<'r> {
    ready: &'r Ready,
}

/// Appends the answer to a request that is refused, `{"refused":N}` with the number of its fault. Without LF.
///
/// # Errors
///
/// Fails when out of memory, and where that is the fault. The text is then as before.
pub fn append_fault(
    alloc: Global,
    fault: &ConformFault,
    out: &mut Vec<u8>,
) -> Result<(), AllocError>
    ensures ok { OnOk result (out.new.items ≡ out.old.items ++ compact_text (refused_data (number_of fault.now))) }
    ensures told { OnOk result (fault.now ≢ OutOfMemory) }
    ensures err { OnErr result (out.new.items ≡ out.old.items) }
{
    let number = fault.number();
    if number == 1 {
        return Err(AllocError);
    }
    append_refusal(alloc, number, out)?;
    Ok(())
}

impl<'r> Engine for Answering<'r> {
    type Buffers = Room<'r>;

    ghost answers = { λ answering line text. AnswersLine answering.ready.now line text };

    fn answer_line(
        &self,
        alloc: Global,
        buffers: &mut Room<'r>,
        line: &[u8],
        out: &mut Vec<u8>,
    ) -> Result<(), AllocError> {
        let ready = self.ready;
        match ready.read_fitting(alloc, line, &mut buffers.reader) {
            Ok(found) => {
                ready.tally_fitting(alloc, &found, &mut buffers.selection, &mut buffers.tally)?;
                append_response(alloc, &buffers.tally.told(), out)?;
                buffers.reader.keep(found.request);
                Ok(())
            }
            Err(fault) => {
                append_fault(alloc, &fault, out)?;
                Ok(())
            }
        }
    }
}

/// Answers each line of the source by one line to the sink: the response of the policies to the request that the line denotes for
/// the schema, or `{"refused":N}`. At `Ok` all of the answer text was written.
///
/// # Errors
///
/// - 1: out of memory. The answers of some first lines were written, whole.
/// - 2: the source failed during the call. The answers to the lines that were read with their LF were written, whole.
/// - 3: the sink failed during the call. A beginning of the answers was written, which may end within a line.
pub fn serve<S: Source, K: Sink>(
    alloc: Global,
    ready: &Ready,
    source: &mut S,
    sink: &mut K,
) -> Result<(), ServeFault>
    requires source_count { S.failed source.old < 2 ^ 64 - 1 }
    requires sink_count { K.failed sink.old < 2 ^ 64 - 1 }

    ensures ok { OnOk result (IfSome (S.left source.old) (λ input.
        Writes (K.written sink.old) (K.written sink.new) (IsAnswerText (AnswersLine ready.now) input))) }
    ensures err { OnErr result (IfSome (S.left source.old) (λ input.
        Writes (K.written sink.old) (K.written sink.new) (BeginsAnswers (AnswersLine ready.now) (lines_of input)))) }
    // What was written is a beginning of an answer text of the whole input.
    ensures whole { OnErr result (IfSome (S.left source.old) (λ input.
        Writes (K.written sink.old) (K.written sink.new) (BeginsAnswerText (AnswersLine ready.now) input))) }
    ensures memory { IsErrOf result ServeFault.OutOfMemory → IfSome (S.left source.old) (λ input.
        Writes (K.written sink.old) (K.written sink.new) (AnswersFirst (AnswersLine ready.now) (lines_of input))) }
    // The lines of what was read that had their LF, and no part of another.
    ensures read { IsErrOf result ServeFault.ReadFailed → Receives (S.left source.old) (S.left source.new) (λ given.
        Writes (K.written sink.old) (K.written sink.new) (AnswersEach (AnswersLine ready.now) (ended_lines_of given))) }

    ensures read_rose { IsErrOf result ServeFault.ReadFailed → S.failed source.old < S.failed source.new }
    ensures write_rose { IsErrOf result ServeFault.WriteFailed → K.failed sink.old < K.failed sink.new }

    // Each request that a line denotes for the schema is answered soundly: the only errors that are named are overflow and
    // missing entity, and a decimal error where the settings have `any_decimal` on.
    ensures sound { (line : List ℕ) (q : RequestTree) → LineDenotes ready.now.schema line q
        → IsAnsweredSoundlyWith ready.now.settings ready.now.policies.policies q ready.now.world }
    // And so is each other request that fits.
    ensures fitting { (q : RequestTree) → Fits ready.now.schema q
        → IsAnsweredSoundlyWith ready.now.settings ready.now.policies.policies q ready.now.world }
{
    // Each line has an answer, and each request that a line denotes is answered soundly.
    ready.soundness();
    ready.lines_are_answered_soundly();
    ready.lines_have_answers();
    let Ok(mut buffers) = Room::new(alloc) else {
        return Err(ServeFault::OutOfMemory);
    };
    base_lines::serve(alloc, &Answering { ready }, &mut buffers, source, sink)
}
