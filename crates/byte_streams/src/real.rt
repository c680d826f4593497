//! Streams over std's readers and writers. They expose nothing of the bytes, and are trusted.
ghost use Rattle.std.specs.Prelude.{None};

use crate::streams::{Sink, Source};
use desk_traits::Failed;
use std::io::{Read, Write};

/// A reader or a writer, with a count of its failed calls.
#[derive(Drop)]
pub struct Counted<T> {
    inner: T,
    faults: u64,
}

impl<T> Counted<T> {
    /// Returns a stream over `inner`, none of whose calls has failed.
    pub fn new(inner: T) -> Self {
        Counted { inner, faults: 0 }
    }
}

/// A reader with a count of its failed reads.
pub type StdSource<R> = Counted<R>;

/// A writer with a count of its failed writes. A writer that takes no byte of a non-empty slice has
/// failed.
pub type StdSink<W> = Counted<W>;

impl<R: Read> Source for Counted<R> {
    ghost inflow = { λ s. record { left = None; faults = s.faults } };

    ghost reads = { λ _ _. Unit {0} };

    /// Reads once from the inner reader. Every error of it, an interrupted read too, is a failed
    /// read.
    fn read(&mut self, into: &mut [u8]) -> Result<usize, Failed> {
        match self.inner.read(into) {
            Ok(count) => Ok(count),
            Err(_) => {
                self.faults = self.faults.saturating_add(1);
                Err(Failed)
            }
        }
    }
}

impl<W: Write> Sink for Counted<W> {
    ghost outflow = { λ s. record { taken = None; faults = s.faults } };

    ghost writes = { λ _ _. Unit {0} };

    ghost no_writes = { λ _. tt };

    ghost more_writes = { λ _ _ _ _ _. tt };

    /// Writes once to the inner writer. Every error of it, and a write that takes no byte of a
    /// non-empty slice, is a failed write.
    fn write(&mut self, bytes: &[u8]) -> Result<usize, Failed> {
        match self.inner.write(bytes) {
            Ok(count) if 0 < count || bytes.is_empty() => Ok(count),
            _ => {
                self.faults = self.faults.saturating_add(1);
                Err(Failed)
            }
        }
    }
}
