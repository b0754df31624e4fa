//! Explains the decisions about request lines.
ghost use Rattle.std.specs.Prelude.{◌-◌, ◌^◌, ◌<◌, IsErrOf};

use crate::line::line_with_places;
use crate::options::WhyOptions;
use base_lines::{Engine, ServeFault, Sink, Source, serve};
use cedar_auth::Ready;
use cedar_parser_places::StatementPlaces;
use std::alloc::{AllocError, Global};

// Explains the lines of one source.
#[derive(Drop)]
struct Explaining<'r> {
    ready: &'r Ready,
    places: &'r StatementPlaces<'r>,
    options: WhyOptions,
}

// How many lines were explained.
#[derive(Drop)]
struct Explained {
    lines: usize,
}

impl<'r> Engine for Explaining<'r> {
    type Buffers = Explained;

    ghost answers = { λ _ _ _. Unit {0} };

    fn answer_line(
        &self,
        alloc: Global,
        buffers: &mut Explained,
        line: &[u8],
        out: &mut Vec<u8>,
    ) -> Result<(), AllocError> {
        let number = buffers.lines.saturating_add(1);
        let says = line_with_places(alloc, self.ready, self.places, line, number, self.options)?;
        buffers.lines = number;
        // An answer ends without its line feed. After a text an empty line follows.
        let answer = if self.options.json {
            says.as_str().trim_end()
        } else {
            says.as_str()
        };
        out.extend_from_slice(answer.as_bytes())?;
        Ok(())
    }
}

/// Explains the decision about each line of the source: what [`why_line`](crate::why_line) says of it. As text an empty line follows each.
///
/// # Errors
///
/// - 1: out of memory. What is said of some first lines was written, whole.
/// - 2: the source failed during the call. What is said of the lines that were read with their LF was written, whole.
/// - 3: the sink failed during the call. A beginning was written, which may end within a line.
pub fn why<S: Source, K: Sink>(
    alloc: Global,
    ready: &Ready,
    text: &str,
    options: WhyOptions,
    source: &mut S,
    sink: &mut K,
) -> Result<(), ServeFault>
    requires source_count { S.failed source.old < 2 ^ 64 - 1 }
    requires sink_count { K.failed sink.old < 2 ^ 64 - 1 }

    ensures read_rose { IsErrOf result ServeFault.ReadFailed → S.failed source.old < S.failed source.new }
    ensures write_rose { IsErrOf result ServeFault.WriteFailed → K.failed sink.old < K.failed sink.new }
{
    let places = StatementPlaces::of(alloc, text)?;
    let explaining = Explaining {
        ready,
        places: &places,
        options,
    };
    let mut explained = Explained { lines: 0 };
    serve(alloc, &explaining, &mut explained, source, sink)
}
