//! Answers request lines with entities.
ghost use Rattle.std.specs.Prelude.{ℕ, List, ◌≡◌, ◌-◌, ◌^◌, ◌<◌, IfSome, OnOk, OnErr, IsErrOf};
ghost use Rattle.cedar_value.specs.World.{World};
ghost use Rattle.cedar_value.specs.declared.request.Request.{Request as RequestTree};
ghost use Rattle.base_lines.specs.Lines.{lines_of, ended_lines_of};
ghost use Rattle.base_lines.specs.AnswerText.{AnswersEach, AnswersFirst, BeginsAnswers, BeginsAnswerText, IsAnswerText, Receives, Writes};
ghost use Rattle.cedar_conform.specs.RequestsWithEntities.{LineDenotesWithEntities};
ghost use Rattle.cedar_schema_spec.specs.Conformance.{Fits};
ghost use Rattle.cedar_auth.specs.AnswerLineWithEntities.{AnswersLineWithEntities};
ghost use Rattle.cedar_auth_spec.specs.Headline.{IsAnsweredSoundlyWith};

use crate::answer::append_response;
use crate::ready::Ready;
use crate::room::Room;
use crate::serving::append_fault;
use base_lines::{Engine, ServeFault, Sink, Source};
use std::alloc::{AllocError, Global};

/// Answers lines with entities by policies that are ready, which lend it their ids.
#[derive(Clone, Copy)]
struct AnsweringWith<'r> {
    ready: &'r Ready,
}

impl<'r> Engine for AnsweringWith<'r> {
    type Buffers = Room<'r>;

    ghost answers = { λ answering line text. AnswersLineWithEntities answering.ready.now line text };

    fn answer_line(
        &self,
        alloc: Global,
        buffers: &mut Room<'r>,
        line: &[u8],
        out: &mut Vec<u8>,
    ) -> Result<(), AllocError> {
        let ready = self.ready;
        match ready.read_with_entities(alloc, line, &mut buffers.reader) {
            Ok((request, brought)) => {
                ready.tally_for(alloc, &request, &brought, buffers)?;
                append_response(alloc, &buffers.tally.told(), out)?;
                buffers.reader.keep(request);
                Ok(())
            }
            Err(fault) => {
                append_fault(alloc, &fault, out)?;
                Ok(())
            }
        }
    }
}

/// Like [`serve`](crate::serve), for lines that may bring entities of their own: a line may have the key `entities`, a list of
/// entries, which for this line alone are upserted into the entities that are ready. The next line begins with these as they
/// were.
///
/// # Errors
///
/// Those of [`serve`](crate::serve).
pub fn serve_with_entities<S: Source, K: Sink>(
    alloc: Global,
    ready: &Ready,
    source: &mut S,
    sink: &mut K,
) -> Result<(), ServeFault>
    requires source_count { S.failed source.old < 2 ^ 64 - 1 }
    requires sink_count { K.failed sink.old < 2 ^ 64 - 1 }

    ensures ok { OnOk result (IfSome (S.left source.old) (λ input.
        Writes (K.written sink.old) (K.written sink.new) (IsAnswerText (AnswersLineWithEntities ready.now) input))) }
    ensures err { OnErr result (IfSome (S.left source.old) (λ input.
        Writes (K.written sink.old) (K.written sink.new) (BeginsAnswers (AnswersLineWithEntities ready.now) (lines_of input)))) }
    // What was written is a beginning of an answer text of the whole input.
    ensures whole { OnErr result (IfSome (S.left source.old) (λ input.
        Writes (K.written sink.old) (K.written sink.new) (BeginsAnswerText (AnswersLineWithEntities ready.now) input))) }
    ensures memory { IsErrOf result ServeFault.OutOfMemory → IfSome (S.left source.old) (λ input.
        Writes (K.written sink.old) (K.written sink.new) (AnswersFirst (AnswersLineWithEntities ready.now) (lines_of input))) }
    // The lines of what was read that had their LF, and no part of another.
    ensures read { IsErrOf result ServeFault.ReadFailed → Receives (S.left source.old) (S.left source.new) (λ given.
        Writes (K.written sink.old) (K.written sink.new) (AnswersEach (AnswersLineWithEntities ready.now) (ended_lines_of given))) }

    ensures read_rose { IsErrOf result ServeFault.ReadFailed → S.failed source.old < S.failed source.new }
    ensures write_rose { IsErrOf result ServeFault.WriteFailed → K.failed sink.old < K.failed sink.new }

    // Each request that a line denotes is answered soundly over the world that the line denotes for it: the only errors that are
    // named are overflow and missing entity, and a decimal error where the settings have `any_decimal` on.
    ensures sound { (line : List ℕ) (q : RequestTree) (w : World) → LineDenotesWithEntities ready.now.schema ready.now.world line q w
        → IsAnsweredSoundlyWith ready.now.settings ready.now.policies.policies q w }
    // And so is each request that fits, over the entities that are ready.
    ensures fitting { (q : RequestTree) → Fits ready.now.schema q
        → IsAnsweredSoundlyWith ready.now.settings ready.now.policies.policies q ready.now.world }
{
    // Each line has an answer, and each request that a line denotes is answered soundly.
    ready.soundness();
    ready.lines_with_entities_are_answered_soundly();
    ready.lines_with_entities_have_answers();
    let Ok(mut buffers) = Room::new(alloc) else {
        return Err(ServeFault::OutOfMemory);
    };
    base_lines::serve(alloc, &AnsweringWith { ready }, &mut buffers, source, sink)
}
