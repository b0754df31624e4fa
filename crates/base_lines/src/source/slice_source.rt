//! A source over bytes in memory.
ghost use Rattle.std.specs.Prelude.{◌≡◌, length, Some};

use crate::source::{ReadFailed, Source};
use std::marker::Model;

/// Reads from bytes in memory, and never fails. Contracts see the bytes that are left.
#[derive(Drop)]
pub struct SliceSource<'a> {
    bytes: &'a [u8],
}

impl<'a> Model for SliceSource<'a> {
    ghost use Rattle.std.specs.Prelude.{List, ℕ};

    ghost Value = { List ℕ };

    ghost view = { λ s. s.bytes.now };
}

impl<'a> SliceSource<'a> {
    /// A source of these bytes.
    pub fn new(bytes: &'a [u8]) -> SliceSource<'a>
        ensures { result ≡ bytes.now }
    {
        SliceSource { bytes }
    }
}

impl Source for SliceSource<'_> {
    ghost left = { λ bytes. Some bytes };

    ghost can_give = { λ bytes. length bytes };

    ghost failed = { λ _. 0 };

    fn read(&mut self, buf: &mut [u8]) -> Result<usize, ReadFailed> {
        let count = buf.len().min(self.bytes.len());
        let (front, rest) = self.bytes.split_at(count);
        buf[..count].copy_from_slice(front);
        self.bytes = rest;
        Ok(count)
    }

    fn failures(&self) -> u64 {
        0
    }
}
