//! A sink for lines that are not wanted.
use base_lines::{Sink, WriteFailed};

/// A sink that forgets what is written to it.
#[derive(Clone, Copy, Debug)]
pub struct Discarding;

impl Sink for Discarding {
    ghost failed = { λ _. 0 };

    fn write(&mut self, bytes: &[u8]) -> Result<usize, WriteFailed> {
        Ok(bytes.len())
    }

    fn failures(&self) -> u64 {
        0
    }
}
