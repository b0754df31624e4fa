//! Answers request lines.
ghost use Rattle.std.specs.Prelude.{ℕ, List, ◌≡◌, ◌≢◌, ◌≤◌, [], ◌∷◌, drop, length, take};
ghost use Rattle.base_lines.specs.AnswerText.{IsAnswerText};
ghost use Rattle.cedar_auth.specs.AnswerLine.{AnswersLine};
ghost use Rattle.cedar_auth.specs.AnswerLineWithEntities.{AnswersLineWithEntities};
ghost use Rattle.cedar_files.specs.Authorization.{AreAnsweredSoundlyWithEntities};
ghost use Rattle.cedar_c.specs.Buffers.{IsTooLong};
ghost use Rattle.cedar_c.specs.Statuses.{IsOneOf};

use crate::buffer::give;
use crate::engine::Engine;
use crate::status::MEMORY;
use base_lines::{SliceSource, VecSink};
use cedar_auth::{Ready, answer_line, serve, serve_with_entities};
use cedar_conform::RequestReader;
use std::alloc::Global;

// Gives what policies that are ready answer to one line.
fn give_answer(
    alloc: Global,
    ready: &Ready,
    reader: &mut RequestReader,
    room: &mut Vec<u8>,
    line: &[u8],
    text: &mut [u8],
    written: &mut usize,
) -> u32
    ensures ok { result ≡ 0 → AnswersLine ready.now line.now (take written.new text.new) }
    ensures rest { result ≡ 0 → drop written.new text.new ≡ drop written.new text.old }
    ensures fits { result ≡ 0 → written.new ≤ length text.old }
    ensures room { result ≡ 6 → (answer : List ℕ) × AnswersLine ready.now line.now answer
        × IsTooLong answer text.old written.new }
    ensures untouched { result ≢ 0 → text.new ≡ text.old }
    ensures unwritten { result ≡ 1 → written.new ≡ written.old }
    ensures known { IsOneOf (0 ∷ 1 ∷ 6 ∷ []) result }
{
    room.clear();
    let Ok(()) = answer_line(alloc, ready, reader, line, room) else {
        return MEMORY;
    };
    give(room, text, written)
}

impl Engine {
    /// Gives the answers to request lines, a line for each.
    pub(crate) fn answer(
        &mut self,
        alloc: Global,
        lines: &[u8],
        text: &mut [u8],
        written: &mut usize,
    ) -> u32
        ensures same { self.new ≡ self.old }
        ensures ok { result ≡ 0 → IsAnswerText (AnswersLine self.old) lines.now (take written.new text.new) }
        ensures rest { result ≡ 0 → drop written.new text.new ≡ drop written.new text.old }
        ensures fits { result ≡ 0 → written.new ≤ length text.old }
        ensures room { result ≡ 6 → (answer : List ℕ) × IsAnswerText (AnswersLine self.old) lines.now answer
            × IsTooLong answer text.old written.new }
        ensures untouched { result ≢ 0 → text.new ≡ text.old }
        ensures unwritten { result ≡ 1 → written.new ≡ written.old }
        ensures known { IsOneOf (0 ∷ 1 ∷ 6 ∷ []) result }
    {
        let mut source = SliceSource::new(lines);
        let mut sink = VecSink::new(alloc);
        match serve(alloc, &self.ready, &mut source, &mut sink) {
            Ok(()) => give(sink.bytes(), text, written),
            Err(_) => MEMORY,
        }
    }

    /// Gives the answers to request lines that may bring entities, a line for each.
    pub(crate) fn answer_with_entities(
        &mut self,
        alloc: Global,
        lines: &[u8],
        text: &mut [u8],
        written: &mut usize,
    ) -> u32
        ensures same { self.new ≡ self.old }
        ensures sound { AreAnsweredSoundlyWithEntities self.old }
        ensures ok { result ≡ 0 → IsAnswerText (AnswersLineWithEntities self.old) lines.now (take written.new text.new) }
        ensures rest { result ≡ 0 → drop written.new text.new ≡ drop written.new text.old }
        ensures fits { result ≡ 0 → written.new ≤ length text.old }
        ensures room { result ≡ 6 → (answer : List ℕ) × IsAnswerText (AnswersLineWithEntities self.old) lines.now answer
            × IsTooLong answer text.old written.new }
        ensures untouched { result ≢ 0 → text.new ≡ text.old }
        ensures unwritten { result ≡ 1 → written.new ≡ written.old }
        ensures known { IsOneOf (0 ∷ 1 ∷ 6 ∷ []) result }
    {
        // Each request that a line denotes is answered soundly.
        self.ready.lines_with_entities_are_answered_soundly();
        let mut source = SliceSource::new(lines);
        let mut sink = VecSink::new(alloc);
        match serve_with_entities(alloc, &self.ready, &mut source, &mut sink) {
            Ok(()) => give(sink.bytes(), text, written),
            Err(_) => MEMORY,
        }
    }

    /// Gives the answer to one request line, without LF.
    pub(crate) fn answer_line(
        &mut self,
        alloc: Global,
        line: &[u8],
        text: &mut [u8],
        written: &mut usize,
    ) -> u32
        ensures same { self.new ≡ self.old }
        ensures ok { result ≡ 0 → AnswersLine self.old line.now (take written.new text.new) }
        ensures rest { result ≡ 0 → drop written.new text.new ≡ drop written.new text.old }
        ensures fits { result ≡ 0 → written.new ≤ length text.old }
        ensures room { result ≡ 6 → (answer : List ℕ) × AnswersLine self.old line.now answer
            × IsTooLong answer text.old written.new }
        ensures untouched { result ≢ 0 → text.new ≡ text.old }
        ensures unwritten { result ≡ 1 → written.new ≡ written.old }
        ensures known { IsOneOf (0 ∷ 1 ∷ 6 ∷ []) result }
    {
        give_answer(
            alloc,
            &self.ready,
            &mut self.reader,
            &mut self.text,
            line,
            text,
            written,
        )
    }
}
