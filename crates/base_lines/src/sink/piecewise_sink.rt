//! A sink that takes small pieces and fails once, for tests of what writes.
ghost use Rattle.std.specs.Prelude.{◌≡◌, [], Some};

use crate::countdown::Countdown;
use crate::sink::{Sink, WriteFailed};
use std::alloc::Global;
use std::marker::Model;

/// Writes into memory, at most `piece` bytes at a time, and one write fails. With a piece of 0 each write of some
/// bytes fails. Contracts see the bytes that were written and how often a write failed.
#[derive(Drop)]
pub struct PiecewiseSink {
    bytes: Vec<u8>,
    piece: usize,
    countdown: Countdown,
    failed_writes: u64,
}

impl Model for PiecewiseSink {
    ghost use Rattle.base_lines.specs.Counted.{Counted};

    ghost Value = { Counted };

    ghost view = { λ s. record { bytes = s.bytes.items; failures = s.failed_writes } };
}

impl PiecewiseSink {
    /// A sink of which the write of number `fail_at` fails, counted from 1; with 0 none does. It takes no memory yet.
    pub fn new(alloc: Global, piece: usize, fail_at: u64) -> PiecewiseSink
        ensures bytes { result.bytes ≡ [] }
        ensures none { result.failures ≡ 0 }
    {
        PiecewiseSink {
            bytes: Vec::new(alloc),
            piece,
            countdown: Countdown::to(fail_at),
            failed_writes: 0,
        }
    }

    /// What was written.
    pub fn bytes(&self) -> &[u8]
        ensures { result.now ≡ self.now.bytes }
    {
        &self.bytes
    }
}

impl Sink for PiecewiseSink {
    ghost written = { λ s. Some s.bytes };

    ghost failed = { λ s. s.failures };

    fn write(&mut self, bytes: &[u8]) -> Result<usize, WriteFailed> {
        let count = bytes.len().min(self.piece);
        let (front, _) = bytes.split_at(count);
        if self.countdown.ends()
            || (count == 0 && !bytes.is_empty())
            || self.bytes.extend_from_slice(front).is_err()
        {
            self.failed_writes += 1;
            return Err(WriteFailed);
        }
        Ok(count)
    }

    fn failures(&self) -> u64 {
        self.failed_writes
    }
}
