//! A source and a sink that never fail.
ghost use Rattle.std.specs.Prelude.{◌≡◌, ◌≤◌, None, Some, drop, length, IfOk};
ghost use Rattle.byte_streams.specs.Flows.{inflow, outflow};

use crate::parts::hand_out;
use crate::streams::{Sink, Source};
use desk_traits::Failed;
use hazard_types::{List, Oom, Text};
use std::alloc::Global;

/// A source over bytes in memory that never fails and exposes its bytes.
#[derive(Debug, Drop)]
pub struct SureSource {
    bytes: Text,
    at: usize,
    ghost within: { at ≤ length bytes },
}

impl SureSource {
    /// Returns a source of a copy of `bytes`, none of which has been read.
    ///
    /// # Errors
    ///
    /// Out of memory.
    pub fn new(alloc: Global, bytes: &[u8]) -> Result<Self, Oom>
        ensures { IfOk result
            (λ source. ⟦<SureSource as Source>⟧.inflow source ≡ inflow (Some bytes.now) 0) }
    {
        Ok(SureSource {
            bytes: List::from_slice(alloc, bytes)?,
            at: 0,
        })
    }
}

impl Source for SureSource {
    ghost inflow = { λ s. record { left = Some (drop s.at s.bytes); faults = 0 } };

    ghost reads = { λ _ _. Unit {0} };

    /// Copies as many of the remaining bytes as fit to the start of `into`, and returns how many.
    /// Never fails.
    fn read(&mut self, into: &mut [u8]) -> Result<usize, Failed> {
        let count = hand_out(self.bytes.as_slice(), self.at, usize::MAX, into);
        self.at += count;
        Ok(count)
    }
}

/// A sink that drops all that is written to it. It never fails, and exposes nothing.
#[derive(Debug, Drop)]
pub struct SureSink;

impl Sink for SureSink {
    ghost outflow = { λ _. record { taken = None; faults = 0 } };

    ghost writes = { λ _ _. Unit {0} };

    ghost no_writes = { λ _. tt };

    ghost more_writes = { λ _ _ _ _ _. tt };

    /// Returns the length of `bytes`, which are dropped. Never fails.
    fn write(&mut self, bytes: &[u8]) -> Result<usize, Failed> {
        Ok(bytes.len())
    }
}
