//! The lines that end in a chunk of bytes.
ghost use Rattle.std.specs.Prelude.{◌≡◌, ℕ, ◌+◌, ◌-◌, ◌^◌, ◌<◌, List, [], ◌∷◌, ◌++◌, MatchOption, OnOk, OnErr, IsErrOf};
ghost use Rattle.base_lines.specs.Lines.{line_feed};
ghost use Rattle.base_lines.specs.Private.Progress.{IsPiece, SendsOn};

use crate::engine::Engine;
use crate::output::flush;
use crate::serve_fault::ServeFault;
use crate::sink::Sink;
use memchr::memchr;
use std::alloc::{AllocError, Global};

/// Answers that wait are written once they have so many bytes.
const FLUSH_AT: usize = 8192;

/// The bytes before the first LF, and those after it.
fn cut_line(bytes: &[u8]) -> Option<(&[u8], &[u8])>
    ensures { MatchOption result (IsPiece bytes.now)
        (λ cut. IsPiece cut.0.now × (bytes.now ≡ cut.0.now ++ (line_feed ∷ cut.1.now))) }
{
    match memchr(b'\n', bytes) {
        Some(end) => Some((&bytes[..end], &bytes[end + 1..])),
        None => None,
    }
}

/// Appends the answer line of a line to `out`. Where memory runs out, `out` is as before.
fn append_answer<E: Engine>(
    alloc: Global,
    engine: &E,
    buffers: &mut E::Buffers,
    line: &[u8],
    out: &mut Vec<u8>,
) -> Result<(), AllocError>
    ensures ok { OnOk result ((answer : List ℕ) × E.answers engine.now line.now answer
        × (out.new.items ≡ out.old.items ++ (answer ++ (line_feed ∷ [])))) }
    ensures err { OnErr result (out.new.items ≡ out.old.items) }
{
    let before = out.len();
    engine.answer_line(alloc, buffers, line, out)?;
    if out.push(b'\n').is_err() {
        out.truncate(before);
        return Err(AllocError);
    }
    Ok(())
}

/// Appends the answer line of the line that `line` begins and `end` ends, and empties `line`. Where nothing waits in `line`,
/// the line is lent as it was read.
pub(crate) fn end_line<E: Engine>(
    alloc: Global,
    engine: &E,
    buffers: &mut E::Buffers,
    line: &mut Vec<u8>,
    end: &[u8],
    out: &mut Vec<u8>,
) -> Result<(), AllocError>
    ensures ok { OnOk result ((answer : List ℕ) × E.answers engine.now (line.old.items ++ end.now) answer
        × (out.new.items ≡ out.old.items ++ (answer ++ (line_feed ∷ []))) × (line.new.items ≡ [])) }
    ensures err { OnErr result (out.new.items ≡ out.old.items) }
{
    if line.is_empty() {
        return append_answer(alloc, engine, buffers, end, out);
    }
    line.extend_from_slice(end)?;
    append_answer(alloc, engine, buffers, line, out)?;
    line.clear();
    Ok(())
}

/// Answers the lines that end in `chunk`. What is left of it waits in `line`, and the last answers wait in `out`.
pub(crate) fn answer_chunk<E: Engine, K: Sink>(
    alloc: Global,
    engine: &E,
    buffers: &mut E::Buffers,
    chunk: &[u8],
    line: &mut Vec<u8>,
    out: &mut Vec<u8>,
    sink: &mut K,
) -> Result<(), ServeFault>
    requires count { K.failed sink.old < 2 ^ 64 - 1 }
    requires piece { IsPiece line.old.items }

    ensures ok { OnOk result (IsPiece line.new.items × SendsOn (E.answers engine.now) chunk.now
        line.old.items line.new.items (K.written sink.old) (K.written sink.new) out.old.items out.new.items) }
    ensures memory { IsErrOf result ServeFault.OutOfMemory → (rest : List ℕ) × SendsOn (E.answers engine.now) chunk.now
        line.old.items rest (K.written sink.old) (K.written sink.new) out.old.items out.new.items }
    ensures write { IsErrOf result ServeFault.WriteFailed → (rest waits : List ℕ) × SendsOn (E.answers engine.now) chunk.now
        line.old.items rest (K.written sink.old) (K.written sink.new) out.old.items waits }
    ensures never_read { IsErrOf result ServeFault.ReadFailed → ⊥ }

    ensures count { IsErrOf result ServeFault.WriteFailed → K.failed sink.new ≡ K.failed sink.old + 1 }
    ensures count_ok { OnOk result (K.failed sink.new ≡ K.failed sink.old) }
    ensures count_memory { IsErrOf result ServeFault.OutOfMemory → K.failed sink.new ≡ K.failed sink.old }
{
    let mut rest = chunk;
    'lines: while let Some((end, after)) = cut_line(rest) {
        end_line(alloc, engine, buffers, line, end, out)?;
        if out.len() >= FLUSH_AT {
            flush(out, sink)?;
        }
        rest = after;
    }
    line.extend_from_slice(rest)?;
    Ok(())
}
