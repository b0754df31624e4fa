//! A text of lines, each of them JSON.
ghost use Rattle.std.specs.Prelude.{◌≡◌, ◌+◌, ◌-◌, ◌<◌, ◌^◌, ℕ, List, ◌++◌, [], ◌∷◌, length, OnErr, OnOk};
ghost use Rattle.std.specs.Io.KnownBytes.{Appends};
ghost use Rattle.json.specs.Print.{print};
ghost use Rattle.base_lines.specs.AnswerText.{Writes};
ghost use Rattle.base_lines.specs.Lines.{line_feed};

use base_lines::{Sink, WriteFailed, flush};
use json::Writer;
use std::alloc::{AllocError, Global};
use std::marker::Model;
use std::mem;

/// A text of lines, each of them JSON (RFC 8259). Contracts see its bytes.
///
/// Each line is written in a buffer of its own, which the next line uses again. A [`Writer`] clears spare capacity of its buffer
/// ahead, more of it the longer the buffer is, and the text may be long.
#[derive(Drop)]
pub(crate) struct JsonLines {
    text: Vec<u8>,
    room: Vec<u8>,
}

impl Model for JsonLines {
    ghost use Rattle.std.specs.Prelude.{ℕ, List};

    ghost Value = { List ℕ };

    ghost view = { λ s. s.text.items };
}

impl JsonLines {
    /// A text without lines. Takes no memory.
    pub(crate) fn new(alloc: Global) -> Self
        ensures { result ≡ [] }
    {
        JsonLines {
            text: Vec::new(alloc),
            room: Vec::new(alloc),
        }
    }

    /// A writer for the next line. The line is in the text once it is ended.
    pub(crate) fn begin(&mut self) -> Writer
        ensures before { result.before ≡ [] }
        ensures tokens { result.tokens ≡ [] }
        ensures text { self.new ≡ self.old }
    {
        let nothing = Vec::new(*self.room.allocator());
        let mut room = mem::replace(&mut self.room, nothing);
        room.clear();
        Writer::new(room)
    }

    /// Appends what was written, and LF. Where memory runs out, the text may end within the line.
    pub(crate) fn end(&mut self, writer: Writer) -> Result<(), AllocError>
        requires { writer.before ≡ [] }
        ensures { OnOk result (self.new ≡ self.old ++ print writer.tokens ++ line_feed ∷ []) }
    {
        self.room = writer.into_inner();
        self.text.extend_from_slice(&self.room)?;
        self.text.push(b'\n')?;
        Ok(())
    }

    /// How many bytes the text has.
    pub(crate) fn len(&self) -> usize
        ensures { result ≡ length self.now }
    {
        self.text.len()
    }

    /// Writes the text to a sink, and empties it. After a failure some beginning of it was written.
    pub(crate) fn send<K: Sink>(&mut self, sink: &mut K) -> Result<(), WriteFailed>
        requires { K.failed sink.old < 2 ^ 64 - 1 }
        ensures ok { OnOk result ((self.new ≡ []) × Appends (K.written sink.old) (K.written sink.new) self.old) }
        ensures err { OnErr result (Writes (K.written sink.old) (K.written sink.new) (λ text. (more : List ℕ) × (self.old ≡ text ++ more))) }
        ensures count_ok { OnOk result (K.failed sink.new ≡ K.failed sink.old) }
        ensures count_err { OnErr result (K.failed sink.new ≡ K.failed sink.old + 1) }
    {
        flush(&mut self.text, sink)
    }

    /// The text. Takes no memory.
    pub(crate) fn into_text(self) -> Vec<u8>
        ensures { result.items ≡ self }
    {
        self.text
    }
}
