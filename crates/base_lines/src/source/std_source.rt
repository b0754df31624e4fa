//! A source over the readers of `std`.
ghost use Rattle.std.specs.Prelude.{◌≡◌, ◌-◌, ◌^◌};

use crate::source::{ReadFailed, Source};
use std::io::Read;
use std::marker::Model;

/// How many bytes a [`StdSource`] gives at most.
const MOST_BYTES: u64 = 9223372036854775807;

/// Reads from a reader of `std`, and counts its failures. What it has left is the first of what the reader says that it
/// still has; of a file or a terminal that is not known. Contracts see the reader, how many bytes it can still give at
/// most, and how often a read failed.
#[derive(Drop)]
pub struct StdSource<R> {
    reader: R,
    can_give: u64,
    failed_reads: u64,
}

impl<R> Model for StdSource<R> {
    ghost use Rattle.base_lines.specs.Counted.{Given};

    ghost Value = { Given R };

    ghost view = { λ s. record { reader = s.reader; can_give = s.can_give; failures = s.failed_reads } };
}

impl<R: Read> StdSource<R> {
    /// A source that gives 9,223,372,036,854,775,807 bytes of the reader at most, and then the end of the input.
    pub fn new(reader: R) -> StdSource<R>
        ensures reader { result.reader ≡ reader }
        ensures whole { result.can_give ≡ 2 ^ 63 - 1 }
        ensures none { result.failures ≡ 0 }
    {
        StdSource {
            reader,
            can_give: MOST_BYTES,
            failed_reads: 0,
        }
    }
}

impl<R: Read> Source for StdSource<R> {
    ghost use Rattle.base_lines.specs.Counted.{first_of};

    ghost left = { λ s. first_of s.can_give (R.remaining s.reader) };

    ghost can_give = { λ s. s.can_give };

    ghost failed = { λ s. s.failures };

    fn read(&mut self, buf: &mut [u8]) -> Result<usize, ReadFailed> {
        let room = buf.len().min(self.can_give as usize);
        if room == 0 {
            return Ok(0);
        }
        match self.reader.read(&mut buf[..room]) {
            Ok(count) => {
                self.can_give -= count as u64;
                Ok(count)
            }
            Err(_) => {
                self.failed_reads += 1;
                Err(ReadFailed)
            }
        }
    }

    fn failures(&self) -> u64 {
        self.failed_reads
    }
}
