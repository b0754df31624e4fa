//! Where lines come from.
ghost use Rattle.std.specs.Prelude.{◌≡◌, ℕ, ◌+◌, ◌-◌, ◌^◌, ◌<◌, ◌≤◌, List, length, Option, None, OnOk, OnErr, IfOk};
ghost use Rattle.std.specs.Io.KnownBytes.{ReadConsumes};

use thiserror::Error;

mod piecewise_source;
mod slice_source;
mod std_source;

pub use piecewise_source::PiecewiseSource;
pub use slice_source::SliceSource;
pub use std_source::StdSource;

/// A read failed. The source has counted it, and the bytes that it has left are as before.
#[derive(Clone, Copy, Debug, PartialEq, Eq, Error)]
#[error("a read failed")]
pub struct ReadFailed;

/// Where bytes are read from. A source counts its failures, and has a finite number of bytes that it can still
/// give.
pub trait Source {
    // The bytes that reads will give from here on, where they are known.
    ghost left: { Self → Option (List ℕ) } = { λ _. None };

    // How many bytes it can still give, at most.
    ghost can_give: { Self → ℕ };

    // How often a read failed.
    ghost failed: { Self → ℕ };

    /// Reads into the front of `buf`, and returns how many bytes it put there. Where `buf` has room, `Ok(0)` is the end of the
    /// input. A read that fails gives nothing.
    fn read(&mut self, buf: &mut [u8]) -> Result<usize, ReadFailed>
        requires { failed self.old < 2 ^ 64 - 1 }
        ensures bytes { ReadConsumes (left self.old) (left self.new) result buf.new }
        ensures bound { IfOk result (λ n. n ≤ length buf.new) }
        ensures uses_up { IfOk result (λ n. can_give self.new + n ≤ can_give self.old) }
        ensures ok { OnOk result (failed self.new ≡ failed self.old) }
        ensures err { OnErr result (failed self.new ≡ failed self.old + 1) };

    /// How often a read failed.
    fn failures(&self) -> u64
        ensures { result ≡ failed self.now };
}
