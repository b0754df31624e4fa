//! The loop over lines.
ghost use Rattle.std.specs.Prelude.{◌≡◌, ℕ, ◌+◌, ◌-◌, ◌^◌, ◌<◌, List, [], IfSome, OnOk, OnErr, IsErrOf};
ghost use Rattle.std.specs.Io.KnownBytes.{IsAtEnd};
ghost use Rattle.base_lines.specs.Lines.{lines_of, ended_lines_of};
ghost use Rattle.base_lines.specs.AnswerText.{AnswersEach, AnswersFirst, BeginsAnswerText, BeginsAnswers, IsAnswerText, Receives, Writes};
ghost use Rattle.base_lines.specs.Private.Progress.{IsPiece, Served, ServedAll};

use crate::chunk::{answer_chunk, end_line};
use crate::engine::Engine;
use crate::output::flush;
use crate::serve_fault::ServeFault;
use crate::sink::Sink;
use crate::source::Source;
use std::alloc::Global;

/// How many bytes are read at a time, at most.
const CHUNK: usize = 4096;

/// Reads the whole source. At `Ok` and after `OutOfMemory` some answer lines wait in `out`.
fn answer_all<E: Engine, S: Source, K: Sink>(
    alloc: Global,
    engine: &E,
    buffers: &mut E::Buffers,
    source: &mut S,
    out: &mut Vec<u8>,
    sink: &mut K,
) -> Result<(), ServeFault>
    requires source_count { S.failed source.old < 2 ^ 64 - 1 }
    requires sink_count { K.failed sink.old < 2 ^ 64 - 1 }
    requires empty { out.old.items ≡ [] }

    ensures ok { OnOk result (IsAtEnd (S.left source.new) × ServedAll (E.answers engine.now)
        (S.left source.old) (S.left source.new) (K.written sink.old) (K.written sink.new) out.new.items) }
    ensures memory { IsErrOf result ServeFault.OutOfMemory → (rest : List ℕ) × Served (E.answers engine.now)
        (S.left source.old) (S.left source.new) (K.written sink.old) (K.written sink.new) rest out.new.items }
    ensures read { IsErrOf result ServeFault.ReadFailed → (rest : List ℕ) × IsPiece rest × Served (E.answers engine.now)
        (S.left source.old) (S.left source.new) (K.written sink.old) (K.written sink.new) rest [] }
    ensures write { IsErrOf result ServeFault.WriteFailed → (rest waits : List ℕ) × Served (E.answers engine.now)
        (S.left source.old) (S.left source.new) (K.written sink.old) (K.written sink.new) rest waits }

    ensures read_rose { IsErrOf result ServeFault.ReadFailed → S.failed source.new ≡ S.failed source.old + 1 }
    ensures write_rose { IsErrOf result ServeFault.WriteFailed → K.failed sink.new ≡ K.failed sink.old + 1 }
    ensures sink_ok { OnOk result (K.failed sink.new ≡ K.failed sink.old) }
    ensures sink_memory { IsErrOf result ServeFault.OutOfMemory → K.failed sink.new ≡ K.failed sink.old }
{
    let mut chunk = [0u8; CHUNK];
    let mut line = Vec::new(alloc);
    'chunks: loop {
        // Before a read nothing waits, so a reader at the other end has each answer.
        flush(out, sink)?;
        let count = source.read(&mut chunk)?;
        if count == 0 {
            break;
        }
        let (bytes, _) = chunk.split_at(count);
        answer_chunk(alloc, engine, buffers, bytes, &mut line, out, sink)?;
    }
    if !line.is_empty() {
        end_line(alloc, engine, buffers, &mut line, &[], out)?;
    }
    Ok(())
}

/// Answers each line of the source by one line to the sink, which ends with LF. At `Ok` all of the answer text was written.
/// `buffers` is the engine's room for what it uses again from line to line. Before each read all answers so far are written, so
/// a peer may wait for one answer before it sends the next line.
///
/// # Errors
///
/// - 1: out of memory. The answers of some first lines were written, whole.
/// - 2: the source failed during the call. The answers to the lines that were read with their LF were written, whole.
/// - 3: the sink failed during the call. A beginning of the answers was written, which may end within a line.
pub fn serve<E: Engine, S: Source, K: Sink>(
    alloc: Global,
    engine: &E,
    buffers: &mut E::Buffers,
    source: &mut S,
    sink: &mut K,
) -> Result<(), ServeFault>
    requires source_count { S.failed source.old < 2 ^ 64 - 1 }
    requires sink_count { K.failed sink.old < 2 ^ 64 - 1 }

    ensures ok { OnOk result (IfSome (S.left source.old) (λ input.
        Writes (K.written sink.old) (K.written sink.new) (IsAnswerText (E.answers engine.now) input))) }
    ensures err { OnErr result (IfSome (S.left source.old) (λ input.
        Writes (K.written sink.old) (K.written sink.new) (BeginsAnswers (E.answers engine.now) (lines_of input)))) }
    // What was written begins an answer text of the whole input, where the engine answers every line.
    ensures whole { ((line : List ℕ) → (answer : List ℕ) × E.answers engine.now line answer)
        → OnErr result (IfSome (S.left source.old) (λ input.
        Writes (K.written sink.old) (K.written sink.new) (BeginsAnswerText (E.answers engine.now) input))) }
    ensures memory { IsErrOf result ServeFault.OutOfMemory → IfSome (S.left source.old) (λ input.
        Writes (K.written sink.old) (K.written sink.new) (AnswersFirst (E.answers engine.now) (lines_of input))) }
    // The lines of what was read that had their LF, and no part of another.
    ensures read { IsErrOf result ServeFault.ReadFailed → Receives (S.left source.old) (S.left source.new) (λ given.
        Writes (K.written sink.old) (K.written sink.new) (AnswersEach (E.answers engine.now) (ended_lines_of given))) }

    ensures read_rose { IsErrOf result ServeFault.ReadFailed → S.failed source.old < S.failed source.new }
    ensures write_rose { IsErrOf result ServeFault.WriteFailed → K.failed sink.old < K.failed sink.new }
{
    let mut out = Vec::new(alloc);
    match answer_all(alloc, engine, buffers, source, &mut out, sink) {
        Ok(()) => {
            flush(&mut out, sink)?;
            Ok(())
        }
        Err(ServeFault::OutOfMemory) => {
            flush(&mut out, sink)?;
            Err(ServeFault::OutOfMemory)
        }
        Err(ServeFault::ReadFailed) => Err(ServeFault::ReadFailed),
        Err(ServeFault::WriteFailed) => Err(ServeFault::WriteFailed),
    }
}
