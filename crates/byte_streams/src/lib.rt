//! Inputs and outputs of bytes as traits, over std's readers and writers and in memory. For
//! programs that read standard input and write standard output, and for their tests. One begins
//! with `StdSource::new` and `StdSink::new`, then `Source::read` and `write_whole`.
//!
//! Each stream counts its failed calls. Implementations in memory also expose their bytes to
//! contracts.
#![tactic(auto)]

mod parts;
mod real;
mod stream_memory;
mod streams;
mod sure_streams;

pub use parts::{FailedWrites, hand_out, keep, next_call};
pub use real::{Counted, StdSink, StdSource};
pub use stream_memory::{MemSink, MemSource};
pub use streams::{Sink, Source, write_whole};
pub use sure_streams::{SureSink, SureSource};
