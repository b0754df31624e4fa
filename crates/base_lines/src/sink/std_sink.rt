//! A sink over the writers of `std`.
ghost use Rattle.std.specs.Prelude.{◌≡◌, ◌-◌, ◌^◌};

use crate::sink::{Sink, WriteFailed};
use std::io::Write;
use std::marker::Model;

/// Writes to a writer of `std`, and counts its failures. What it wrote is what the writer says that it holds; of a file or
/// a terminal that is not known. It doesn't flush: what the writer keeps back waits there. Contracts see the writer, and
/// how often a write failed.
#[derive(Drop)]
pub struct StdSink<W> {
    writer: W,
    failed_writes: u64,
}

impl<W> Model for StdSink<W> {
    ghost use Rattle.base_lines.specs.Counted.{WrittenTo};

    ghost Value = { WrittenTo W };

    ghost view = { λ s. record { writer = s.writer; failures = s.failed_writes } };
}

impl<W: Write> StdSink<W> {
    /// A sink over the writer.
    pub fn new(writer: W) -> StdSink<W>
        ensures writer { result.writer ≡ writer }
        ensures none { result.failures ≡ 0 }
    {
        StdSink {
            writer,
            failed_writes: 0,
        }
    }
}

impl<W: Write> Sink for StdSink<W> {
    ghost written = { λ s. W.contents s.writer };

    ghost failed = { λ s. s.failures };

    fn write(&mut self, bytes: &[u8]) -> Result<usize, WriteFailed> {
        if bytes.is_empty() {
            return Ok(0);
        }
        match self.writer.write(bytes) {
            Ok(count) if count != 0 => Ok(count),
            _ => {
                self.failed_writes += 1;
                Err(WriteFailed)
            }
        }
    }

    fn failures(&self) -> u64 {
        self.failed_writes
    }
}
