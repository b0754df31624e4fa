//! Writes the answers that wait.
ghost use Rattle.std.specs.Prelude.{◌≡◌, ℕ, ◌+◌, ◌-◌, ◌^◌, ◌<◌, List, [], ◌++◌, OnOk, OnErr};
ghost use Rattle.std.specs.Io.KnownBytes.{Appends};
ghost use Rattle.base_lines.specs.AnswerText.{Writes};

use crate::sink::{Sink, WriteFailed};

/// Writes all of `out` and empties it. After a failure some beginning of it was written.
pub fn flush<K: Sink>(out: &mut Vec<u8>, sink: &mut K) -> Result<(), WriteFailed>
    requires { K.failed sink.old < 2 ^ 64 - 1 }
    ensures ok { OnOk result ((out.new.items ≡ []) × Appends (K.written sink.old) (K.written sink.new) out.old.items) }
    ensures err { OnErr result (Writes (K.written sink.old) (K.written sink.new) (λ text. (more : List ℕ) × (out.old.items ≡ text ++ more))) }
    ensures count_ok { OnOk result (K.failed sink.new ≡ K.failed sink.old) }
    ensures count_err { OnErr result (K.failed sink.new ≡ K.failed sink.old + 1) }
{
    let mut rest = out.as_slice();
    while !rest.is_empty() {
        let count = sink.write(rest)?;
        let (_, left) = rest.split_at(count);
        rest = left;
    }
    out.clear();
    Ok(())
}
