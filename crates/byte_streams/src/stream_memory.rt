//! A source and a sink in memory, which fail at given calls.
ghost use Rattle.std.specs.Prelude.{◌≡◌, ◌≤◌, ◌↔◌, length, min, IfOk, OnErr, IsErr, Contains, [], false};
ghost use Rattle.desk_traits.specs.Faults.{next_count};
ghost use Rattle.byte_streams.specs.Flows.{Reads, Writes};
ghost use Rattle.byte_streams.specs.StreamMemory.{FailsWhereListed, inflow_of, outflow_of};

use crate::parts::{FailedWrites, hand_out, keep, next_call};
use crate::streams::{Sink, Source};
use desk_traits::Failed;
use hazard_types::{List, Oom, Text};
use std::alloc::Global;
use std::marker::Model;

/// Bytes in memory, handed out in pieces.
#[derive(Debug, Drop)]
pub struct MemSource {
    bytes: Text,
    at: usize,
    piece: usize,
    failing: List<u64>,
    calls: u64,
    faults: u64,
}

impl Model for MemSource {
    ghost use Rattle.std.specs.Prelude.{◌≤◌, length, drop};
    ghost use Rattle.byte_streams.specs.StreamMemory.{SourceInMemory};

    ghost Value = { SourceInMemory };

    ghost view = { λ s. record { left = drop s.at s.bytes; piece = s.piece; failing = s.failing; calls = s.calls; faults = s.faults } };

    ghost invariant = { λ s. (s.at ≤ length s.bytes) × (1 ≤ s.piece) };
}

impl MemSource {
    /// Returns a source of `bytes` that hands out at most `piece` bytes a call. Call n, counted
    /// from 1, fails if n is in `failing`.
    ///
    /// # Errors
    ///
    /// Out of memory.
    pub fn new(alloc: Global, bytes: &[u8], piece: usize, failing: &List<u64>) -> Result<Self, Oom>
        requires { 1 ≤ piece }
        ensures { IfOk result (λ s. s
            ≡ record { left = bytes.now; piece = piece; failing = failing.now; calls = 0; faults = 0 }) }
    {
        Ok(MemSource {
            bytes: List::from_slice(alloc, bytes)?,
            at: 0,
            piece,
            failing: failing.clone()?,
            calls: 0,
            faults: 0,
        })
    }
}

impl Source for MemSource {
    ghost inflow = { inflow_of };

    ghost reads = { λ _ _. Unit {0} };

    /// Copies the next bytes to the start of `into`, as many as are left and fit both the piece
    /// size and `into`, and returns how many. The call fails exactly if its number, counted from 1,
    /// is one of those given to `new`.
    fn read(&mut self, into: &mut [u8]) -> Result<usize, Failed>
        ensures read { Reads (inflow_of self.old) (inflow_of self.new) result into.new }
        ensures counted { OnErr result (self.new.faults ≡ next_count self.old.faults) }
        ensures beside { Unit {0} }

        // It fails exactly at the listed calls; otherwise it returns as many bytes as remain and
        // fit both the piece and the buffer.
        ensures failing { IsErr result ↔ Contains self.old.failing (next_count self.old.calls) }
        ensures amount { IfOk result
            (λ n. n ≡ min (min (length self.old.left) self.old.piece) (length into.old)) }
        ensures called { self.new.calls ≡ next_count self.old.calls }
        ensures kept { (self.new.failing ≡ self.old.failing) × (self.new.piece ≡ self.old.piece) }
    {
        next_call(&self.failing, &mut self.calls, &mut self.faults)?;
        let count = hand_out(self.bytes.as_slice(), self.at, self.piece, into);
        self.at += count;
        Ok(count)
    }
}

/// A sink that keeps the written bytes.
#[derive(Debug, Drop)]
pub struct MemSink {
    taken: Text,
    failing: List<u64>,
    calls: u64,
    faults: FailedWrites,
}

impl Model for MemSink {
    ghost use Rattle.byte_streams.specs.StreamMemory.{SinkInMemory};

    ghost Value = { SinkInMemory };

    ghost view = { λ s. record { taken = s.taken; failing = s.failing; calls = s.calls; faults = s.faults.count; lacked = s.faults.lacked } };
}

impl MemSink {
    /// Returns a sink without bytes. Call n, counted from 1, fails if n is in `failing`, and so
    /// does each call for which memory runs out.
    ///
    /// # Errors
    ///
    /// Out of memory.
    pub fn new(alloc: Global, failing: &List<u64>) -> Result<Self, Oom>
        ensures { IfOk result (λ s. s
            ≡ record { taken = []; failing = failing.now; calls = 0; faults = 0; lacked = false }) }
    {
        Ok(MemSink {
            taken: List::new(alloc),
            failing: failing.clone()?,
            calls: 0,
            faults: FailedWrites {
                count: 0,
                lacked: false,
            },
        })
    }

    /// Returns all bytes written so far, in order.
    pub fn taken(&self) -> &Text
        ensures { result.now ≡ self.now.taken }
    {
        &self.taken
    }
}

impl Sink for MemSink {
    ghost outflow = { outflow_of };

    ghost writes = { λ _ _. Unit {0} };

    ghost no_writes = { λ _. tt };

    ghost more_writes = { λ _ _ _ _ _. tt };

    /// Appends all of `bytes` to the written bytes and returns how many they are. The call fails,
    /// is counted and appends nothing if its number, counted from 1, is one of those given to
    /// `new`, or if memory runs out.
    fn write(&mut self, bytes: &[u8]) -> Result<usize, Failed>
        ensures written { Writes (outflow_of self.old) (outflow_of self.new) result bytes.now }
        ensures counted { OnErr result (self.new.faults ≡ next_count self.old.faults) }
        ensures beside { Unit {0} }

        // It fails exactly at the listed calls and where memory runs out; otherwise it takes all
        // bytes.
        ensures failing { FailsWhereListed (Contains self.old.failing (next_count self.old.calls))
            self.old.lacked self.new.lacked result }
        ensures amount { IfOk result (λ n. n ≡ length bytes.now) }
        ensures called { self.new.calls ≡ next_count self.old.calls }
        ensures kept { self.new.failing ≡ self.old.failing }
    {
        next_call(&self.failing, &mut self.calls, &mut self.faults.count)?;
        keep(&mut self.taken, bytes, &mut self.faults)?;
        Ok(bytes.len())
    }
}
