//! A sink that counts what the lines say that go through it.
ghost use Rattle.std.specs.Prelude.{◌≡◌};

use crate::refused::{RefusedFile, number_of, refused_file};
use base_lines::{Sink, WriteFailed};
use std::marker::Model;

/// How the answer to a refused request line begins.
const REFUSED: &[u8] = b"{\"refused\":";

/// How the last line of a report without faults begins.
const TOTALS: &[u8] = b"{\"faults\":0,\"warnings\":";

/// How many bytes of a line are looked at: as many as the longest line may have that says which file is refused.
const LOOKED_AT: usize = 80;

/// The first line that is refused: its number from 1, and that of its refusal.
#[derive(Clone, Copy, Debug, PartialEq, Eq)]
pub struct FirstRefused {
    /// The line, from 1.
    pub line: usize,
    /// The number of its refusal.
    pub number: usize,
}

/// What the lines said that were written: answers to request lines, or a report.
#[derive(Clone, Copy, Debug, PartialEq, Eq)]
pub struct LineCounts {
    /// How many lines there are.
    pub lines: usize,
    /// How many of them say that a request line is refused.
    pub refused: usize,
    /// The first of these.
    pub first: Option<FirstRefused>,
    /// How many warnings a report without faults has.
    pub warnings: usize,
    /// The file that is refused, if the first line says so.
    pub refused_file: Option<RefusedFile>,
}

// The number after a beginning, if a line begins so.
fn number_after(line: &[u8], begin: &[u8]) -> Option<usize> {
    if !line.starts_with(begin) {
        return None;
    }
    line.get(begin.len()..).map(number_of)
}

impl LineCounts {
    // No line yet.
    fn new() -> Self {
        LineCounts {
            lines: 0,
            refused: 0,
            first: None,
            warnings: 0,
            refused_file: None,
        }
    }

    // Counts a line that begins with these bytes.
    fn count(&mut self, line: &[u8]) {
        self.lines = self.lines.saturating_add(1);
        if self.lines == 1 {
            self.refused_file = refused_file(line);
        }
        // The byte after `{"` says what most lines are without a comparison.
        match line.get(2) {
            Some(b'r') => self.count_refused(line),
            Some(b'f') => self.count_totals(line),
            _ => {}
        }
    }

    // Counts a line that may say that a request line is refused.
    fn count_refused(&mut self, line: &[u8]) {
        let Some(number) = number_after(line, REFUSED) else {
            return;
        };
        self.refused = self.refused.saturating_add(1);
        if self.first.is_none() {
            self.first = Some(FirstRefused {
                line: self.lines,
                number,
            });
        }
    }

    // Takes the warnings from a line that may be the last one of a report.
    fn count_totals(&mut self, line: &[u8]) {
        if let Some(number) = number_after(line, TOTALS) {
            self.warnings = number;
        }
    }
}

// Counts lines, of which one may have begun in the bytes before.
#[derive(Clone, Copy)]
struct LineCounter {
    counts: LineCounts,
    // The first bytes of the line that has begun.
    begun: [u8; LOOKED_AT],
    // How many they are.
    filled: usize,
}

impl LineCounter {
    fn new() -> Self {
        LineCounter {
            counts: LineCounts::new(),
            begun: [0; LOOKED_AT],
            filled: 0,
        }
    }

    // Keeps the first of the bytes with which a line begins or goes on.
    fn keep(&mut self, bytes: &[u8]) {
        for byte in bytes {
            let Some(place) = self.begun.get_mut(self.filled) else {
                break;
            };
            *place = *byte;
            self.filled = self.filled.saturating_add(1);
        }
    }

    // Counts the line that ends with these bytes.
    fn end_line(&mut self, bytes: &[u8]) {
        if self.filled == 0 {
            self.counts.count(bytes);
            return;
        }
        self.keep(bytes);
        let begun = self.begun;
        let kept = begun.as_slice();
        let (line, _) = kept.split_at(self.filled.min(kept.len()));
        self.counts.count(line);
        self.filled = 0;
    }

    // Counts the lines that end in these bytes.
    fn count(&mut self, bytes: &[u8]) {
        let mut rest = bytes;
        for _ in 0..bytes.len() {
            let Some(end) = memchr::memchr(b'\n', rest) else {
                break;
            };
            self.end_line(rest.get(..end).unwrap_or(&[]));
            rest = rest.get(end.saturating_add(1)..).unwrap_or(&[]);
        }
        self.keep(rest);
    }
}

/// A sink that passes on what is written to another one, and counts its lines. Contracts see the other one.
#[derive(Drop)]
pub struct CountingSink<K> {
    sink: K,
    counter: LineCounter,
}

impl<K> Model for CountingSink<K> {
    ghost Value = { K };

    ghost view = { λ s. s.sink };
}

impl<K: Sink> CountingSink<K> {
    /// A sink that has counted nothing yet. Takes no memory.
    pub fn new(sink: K) -> Self
        ensures { result ≡ sink }
    {
        CountingSink {
            sink,
            counter: LineCounter::new(),
        }
    }

    /// What was counted.
    pub fn counts(&self) -> LineCounts {
        self.counter.counts
    }
}

impl<K: Sink> Sink for CountingSink<K> {
    ghost written = { λ s. K.written s };

    ghost failed = { λ s. K.failed s };

    fn write(&mut self, bytes: &[u8]) -> Result<usize, WriteFailed> {
        let count = self.sink.write(bytes)?;
        self.counter.count(bytes.get(..count).unwrap_or(&[]));
        Ok(count)
    }

    fn failures(&self) -> u64 {
        self.sink.failures()
    }
}
