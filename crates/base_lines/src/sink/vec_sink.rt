//! A sink into memory.
ghost use Rattle.std.specs.Prelude.{◌≡◌, [], Some};

use crate::sink::{Sink, WriteFailed};
use std::alloc::Global;
use std::marker::Model;

/// Writes into memory; a write fails where memory does. Contracts see the bytes that were written and how often a
/// write failed.
#[derive(Drop)]
pub struct VecSink {
    bytes: Vec<u8>,
    failed_writes: u64,
}

impl Model for VecSink {
    ghost use Rattle.base_lines.specs.Counted.{Counted};

    ghost Value = { Counted };

    ghost view = { λ s. record { bytes = s.bytes.items; failures = s.failed_writes } };
}

impl VecSink {
    /// A sink that nothing was written to. It takes no memory yet.
    pub fn new(alloc: Global) -> VecSink
        ensures bytes { result.bytes ≡ [] }
        ensures none { result.failures ≡ 0 }
    {
        VecSink {
            bytes: Vec::new(alloc),
            failed_writes: 0,
        }
    }

    /// What was written.
    pub fn bytes(&self) -> &[u8]
        ensures { result.now ≡ self.now.bytes }
    {
        &self.bytes
    }
}

impl Sink for VecSink {
    ghost written = { λ s. Some s.bytes };

    ghost failed = { λ s. s.failures };

    fn write(&mut self, bytes: &[u8]) -> Result<usize, WriteFailed> {
        match self.bytes.extend_from_slice(bytes) {
            Ok(()) => Ok(bytes.len()),
            Err(_) => {
                self.failed_writes += 1;
                Err(WriteFailed)
            }
        }
    }

    fn failures(&self) -> u64 {
        self.failed_writes
    }
}
