//! A source that gives small pieces and fails once, for tests of what reads.
ghost use Rattle.std.specs.Prelude.{◌≡◌, ◌<◌, length, Some};

use crate::countdown::Countdown;
use crate::source::{ReadFailed, Source};
use std::marker::Model;

/// Reads from bytes in memory, at most `piece` of them at a time, and one read fails. Contracts see the bytes that
/// are left and how often a read failed.
#[derive(Drop)]
pub struct PiecewiseSource<'a> {
    bytes: &'a [u8],
    piece: usize,
    countdown: Countdown,
    failed_reads: u64,
}

impl<'a> Model for PiecewiseSource<'a> {
    ghost use Rattle.std.specs.Prelude.{◌<◌};
    ghost use Rattle.base_lines.specs.Counted.{Counted};

    ghost Value = { Counted };

    ghost view = { λ s. record { bytes = s.bytes.now; failures = s.failed_reads } };

    ghost invariant = { λ s. 0 < s.piece };
}

impl<'a> PiecewiseSource<'a> {
    /// A source of these bytes of which the read of number `fail_at` fails, counted from 1; with 0 none does.
    pub fn new(bytes: &'a [u8], piece: usize, fail_at: u64) -> PiecewiseSource<'a>
        requires { 0 < piece }
        ensures bytes { result.bytes ≡ bytes.now }
        ensures none { result.failures ≡ 0 }
    {
        PiecewiseSource {
            bytes,
            piece,
            countdown: Countdown::to(fail_at),
            failed_reads: 0,
        }
    }
}

impl Source for PiecewiseSource<'_> {
    ghost left = { λ s. Some s.bytes };

    ghost can_give = { λ s. length s.bytes };

    ghost failed = { λ s. s.failures };

    fn read(&mut self, buf: &mut [u8]) -> Result<usize, ReadFailed> {
        if self.countdown.ends() {
            self.failed_reads += 1;
            return Err(ReadFailed);
        }
        let count = buf.len().min(self.piece).min(self.bytes.len());
        let (front, rest) = self.bytes.split_at(count);
        buf[..count].copy_from_slice(front);
        self.bytes = rest;
        Ok(count)
    }

    fn failures(&self) -> u64 {
        self.failed_reads
    }
}
