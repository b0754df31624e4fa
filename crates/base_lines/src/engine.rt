//! What answers a line.
ghost use Rattle.std.specs.Prelude.{◌≡◌, ℕ, ◌++◌, List, OnOk, OnErr};

use std::alloc::{AllocError, Global};

/// Answers one line at a time.
pub trait Engine {
    /// The room that is used again from line to line, so that a line takes no memory for it.
    type Buffers;

    // Whether the second text answers the first.
    ghost answers: { Self → List ℕ → List ℕ → Type 0 };

    /// Appends the answer to the line to `out`. The line is given without its LF. Where memory runs out, `out` is as before.
    fn answer_line(
        &self,
        alloc: Global,
        buffers: &mut Self::Buffers,
        line: &[u8],
        out: &mut Vec<u8>,
    ) -> Result<(), AllocError>
        ensures ok { OnOk result ((answer : List ℕ) × answers self.now line.now answer
            × (out.new.items ≡ out.old.items ++ answer)) }
        ensures err { OnErr result (out.new.items ≡ out.old.items) };
}
