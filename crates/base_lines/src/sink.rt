//! Where answer lines go.
ghost use Rattle.std.specs.Prelude.{◌≡◌, ℕ, ◌+◌, ◌-◌, ◌^◌, ◌<◌, ◌≤◌, List, length, Option, None, OnOk, OnErr, IfOk};
ghost use Rattle.std.specs.Io.KnownBytes.{WriteAppends};

use thiserror::Error;

mod piecewise_sink;
mod std_sink;
mod vec_sink;

pub use piecewise_sink::PiecewiseSink;
pub use std_sink::StdSink;
pub use vec_sink::VecSink;

/// A write failed. The sink has counted it, and took none of the bytes.
#[derive(Clone, Copy, Debug, PartialEq, Eq, Error)]
#[error("a write failed")]
pub struct WriteFailed;

/// Where bytes are written to. A sink counts its failures. A write that is given bytes and takes none of them is a failure.
pub trait Sink {
    // The bytes that were written, where they are known.
    ghost written: { Self → Option (List ℕ) } = { λ _. None };

    // How often a write failed.
    ghost failed: { Self → ℕ };

    /// Takes some bytes of the front of `bytes`, at least one if there is one, and returns how many. A write that fails takes
    /// none.
    fn write(&mut self, bytes: &[u8]) -> Result<usize, WriteFailed>
        requires { failed self.old < 2 ^ 64 - 1 }
        ensures bytes { WriteAppends (written self.old) (written self.new) result bytes.now }
        ensures bound { IfOk result (λ n. n ≤ length bytes.now) }
        ensures some { IfOk result (λ n. 0 < length bytes.now → 0 < n) }
        ensures ok { OnOk result (failed self.new ≡ failed self.old) }
        ensures err { OnErr result (failed self.new ≡ failed self.old + 1) };

    /// How often a write failed.
    fn failures(&self) -> u64
        ensures { result ≡ failed self.now };
}
