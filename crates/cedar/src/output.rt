//! Standard output, and how the program ends where it fails.
ghost use Rattle.std.specs.Prelude.{◌≡◌};

use base_lines::{Sink, WriteFailed};
use base_places::Draft;
use std::io::{self, ErrorKind, Write};

/// The exit status after a closed pipe: that of a program which SIGPIPE ends, 128 and the number of the signal.
const CLOSED_PIPE: u8 = 141;

/// The exit status where standard output fails otherwise.
const FAILED: u8 = 1;

/// A sink over a writer that notes why a write failed.
#[derive(Drop)]
pub struct Output<'f, W> {
    writer: W,
    failed_writes: u64,
    fault: &'f mut Option<io::Error>,
}

impl<'f, W: Write> Output<'f, W> {
    /// A sink over the writer.
    pub fn new(writer: W, fault: &'f mut Option<io::Error>) -> Output<'f, W>
        ensures { result.failed_writes ≡ 0 }
    {
        Output {
            writer,
            failed_writes: 0,
            fault,
        }
    }
}

impl<'f, W: Write> Sink for Output<'f, W> {
    ghost failed = { λ s. s.failed_writes };

    fn write(&mut self, bytes: &[u8]) -> Result<usize, WriteFailed> {
        if bytes.is_empty() {
            return Ok(0);
        }
        match self.writer.write(bytes) {
            Ok(count) if count != 0 => return Ok(count),
            Ok(_) => {}
            Err(error) => *self.fault = Some(error),
        }
        self.failed_writes += 1;
        Err(WriteFailed)
    }

    fn failures(&self) -> u64 {
        self.failed_writes
    }
}

/// Says why standard output failed, and gives the exit status. Nothing is said where its reader has closed the pipe.
pub fn output_failed(rt: &HostRuntime, error: &io::Error) -> u8 {
    if error.kind() == ErrorKind::BrokenPipe {
        return CLOSED_PIPE;
    }
    if let Ok(reason) = error.to_string(rt.alloc()) {
        let mut says = Draft::new(rt.alloc());
        says.add_all(&["cedar: standard output: ", reason.as_str()]);
        if let Ok(says) = says.done() {
            // Where standard error is gone, the line is lost.
            let _ = rt.eprintln(says.as_str());
        }
    }
    FAILED
}
