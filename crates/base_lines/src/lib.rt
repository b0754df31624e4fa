//! Reads input line by line, and writes the answer of an engine to each line.
//!
//! ```rust
//! use base_lines::{SliceSource, VecSink, serve};
//!
//! let mut source = SliceSource::new(b"ping\nping\n");
//! let mut sink = VecSink::new(alloc);
//! serve(alloc, &engine, &mut buffers, &mut source, &mut sink)?;
//! assert_eq!(rt; sink.bytes(), b"pong\npong\n".as_slice());
//! ```
//!
//! [`serve`] promises, for any engine, which answers were written, at its end and after each failure. To use your own source,
//! sink or engine, implement [`Source`], [`Sink`] or [`Engine`].
#![tactic(auto)]

mod chunk;
mod countdown;
mod engine;
mod law;
mod output;
mod serve_fault;
mod serving;
mod sink;
mod source;

pub use engine::Engine;
pub use law::beginnings_go_on;
pub use output::flush;
pub use serve_fault::ServeFault;
pub use serving::serve;
pub use sink::{PiecewiseSink, Sink, StdSink, VecSink, WriteFailed};
pub use source::{PiecewiseSource, ReadFailed, SliceSource, Source, StdSource};
