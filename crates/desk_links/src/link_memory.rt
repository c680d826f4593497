//! A link in memory, which fails at given calls.
ghost use Rattle.std.specs.Prelude.{◌≡◌, ◌≤◌, ◌+◌, ◌-◌, ◌^◌, ◌↔◌, length, min, IfOk};
ghost use Rattle.std.specs.Prelude.{OnErr, IsErr, IsTrue, Contains, []};
ghost use Rattle.desk_traits.specs.Faults.{next_count};
ghost use Rattle.byte_streams.specs.Flows.{Reads, Writes};
ghost use Rattle.byte_streams.specs.StreamMemory.{FailsWhereListed};
ghost use Rattle.desk_links.specs.LinkMemory.{KeepsIn, KeepsOut, link_input, link_output};
ghost use Rattle.desk_links.specs.LinkMemory.{link_with, next_piece, with_failed_read};

use crate::link::Link;
use byte_streams::{FailedWrites, Sink, Source, hand_out, keep, next_call};
use desk_traits::Failed;
use hazard_types::{List, Oom, Text};
use std::alloc::Global;
use std::marker::Model;

/// A link over bytes in memory, handed out in pieces, that keeps the written bytes.
#[derive(Debug, Drop)]
pub struct MemLink {
    bytes: Text,
    at: usize,
    written: Text,
    piece: usize,
    failing: List<u64>,
    calls: u64,
    read_faults: u64,
    write_faults: FailedWrites,
}

impl Model for MemLink {
    ghost use Rattle.std.specs.Prelude.{◌≤◌, length, take, drop};
    ghost use Rattle.desk_links.specs.LinkMemory.{LinkInMemory};

    ghost Value = { LinkInMemory };

    ghost view = { λ l. record {
      read = take l.at l.bytes;
      left = drop l.at l.bytes;
      written = l.written;
      piece = l.piece;
      failing = l.failing;
      calls = l.calls;
      read_faults = l.read_faults;
      write_faults = l.write_faults.count;
      lacked = l.write_faults.lacked;
    } };

    ghost invariant = { λ l. (l.at ≤ length l.bytes) × (1 ≤ l.piece) };
}

impl MemLink {
    /// Returns a link whose reads return `bytes` in order, at most `piece` of them a read, which
    /// must be at least 1, and to which nothing was written. Reads and writes are counted together,
    /// from 1; call n fails if n is in `failing`, and so does each write for which memory runs out.
    ///
    /// # Errors
    ///
    /// Out of memory.
    pub fn new(alloc: Global, bytes: &[u8], piece: usize, failing: &List<u64>) -> Result<Self, Oom>
        requires { 1 ≤ piece }
        ensures { IfOk result (λ l. l ≡ link_with bytes.now piece failing.now) }
    {
        Ok(MemLink {
            bytes: List::from_slice(alloc, bytes)?,
            at: 0,
            written: List::new(alloc),
            piece,
            failing: failing.clone()?,
            calls: 0,
            read_faults: 0,
            write_faults: FailedWrites {
                count: 0,
                lacked: false,
            },
        })
    }

    /// Returns all bytes written to the link so far, in order.
    pub fn written(&self) -> &Text
        ensures { result.now ≡ self.now.written }
    {
        &self.written
    }

    /// Whether no byte is left to read.
    pub(crate) fn is_at_end(&self) -> bool
        ensures { IsTrue result ↔ (self.now.left ≡ []) }
    {
        self.bytes.as_slice()[self.at..].is_empty()
    }

    /// Returns the bytes that the next read may return: the first of those left, at most as many as
    /// the piece size given to `new`, and none at the end.
    pub(crate) fn next_piece(&self) -> &[u8]
        ensures { result.now ≡ next_piece self.now }
    {
        let rest = &self.bytes.as_slice()[self.at..];
        &rest[..rest.len().min(self.piece)]
    }

    /// Counts a failed read: adds 1 to the number of calls and to that of failed reads.
    pub(crate) fn fail_read(&mut self)
        ensures later { self.old.read_faults ≤ self.new.read_faults }
        ensures new { self.new ≡ with_failed_read self.old }
    {
        self.calls = self.calls.saturating_add(1);
        self.read_faults = self.read_faults.saturating_add(1);
    }

    /// Returns the number of failed reads and of failed writes, added up, at most 2^64 - 1.
    pub(crate) fn all_faults(&self) -> u64
        ensures { result ≡ min (self.now.read_faults + self.now.write_faults) (2 ^ 64 - 1) }
    {
        self.read_faults.saturating_add(self.write_faults.count)
    }
}

impl Source for MemLink {
    ghost inflow = { link_input };

    ghost reads = { KeepsOut };

    /// Copies the next bytes to the start of `into`, as many as are left and fit both the piece
    /// size given to `new` and `into`, and returns how many; 0 for a non-empty `into` means that
    /// none is left. The call fails, which is counted, exactly if its number, counted from 1 over
    /// reads and writes, is one of those given to `new`.
    fn read(&mut self, into: &mut [u8]) -> Result<usize, Failed>
        ensures read { Reads (link_input self.old) (link_input self.new) result into.new }
        ensures counted { OnErr result (self.new.read_faults ≡ next_count self.old.read_faults) }
        ensures beside { KeepsOut self.old self.new }

        // It fails exactly at the listed calls; otherwise it returns as many bytes as remain and
        // fit both the piece and the buffer.
        ensures failing { IsErr result ↔ Contains self.old.failing (next_count self.old.calls) }
        ensures amount { IfOk result
            (λ n. n ≡ min (min (length self.old.left) self.old.piece) (length into.old)) }
        ensures called { self.new.calls ≡ next_count self.old.calls }
        ensures kept { (self.new.failing ≡ self.old.failing) × (self.new.piece ≡ self.old.piece)
            × (self.new.lacked ≡ self.old.lacked) }
    {
        next_call(&self.failing, &mut self.calls, &mut self.read_faults)?;
        let count = hand_out(self.bytes.as_slice(), self.at, self.piece, into);
        self.at += count;
        Ok(count)
    }
}

impl Sink for MemLink {
    ghost use Rattle.desk_links.specs.LinkMemory.{keeps_in_none, keeps_in_more};

    ghost outflow = { link_output };

    ghost writes = { KeepsIn };

    ghost no_writes = { keeps_in_none };

    ghost more_writes = { keeps_in_more };

    /// Appends all of `bytes` to the written bytes and returns how many they are. The call fails,
    /// is counted and appends nothing if its number, counted from 1 over reads and writes, is one
    /// of those given to `new`, or if memory runs out.
    fn write(&mut self, bytes: &[u8]) -> Result<usize, Failed>
        ensures written { Writes (link_output self.old) (link_output self.new) result bytes.now }
        ensures counted { OnErr result (self.new.write_faults ≡ next_count self.old.write_faults) }
        ensures beside { KeepsIn self.old self.new }

        // It fails exactly at the listed calls and where memory runs out; otherwise it takes all
        // bytes.
        ensures failing { FailsWhereListed (Contains self.old.failing (next_count self.old.calls))
            self.old.lacked self.new.lacked result }
        ensures amount { IfOk result (λ n. n ≡ length bytes.now) }
        ensures called { self.new.calls ≡ next_count self.old.calls }
        ensures kept { (self.new.failing ≡ self.old.failing) × (self.new.piece ≡ self.old.piece) }
    {
        next_call(&self.failing, &mut self.calls, &mut self.write_faults.count)?;
        keep(&mut self.written, bytes, &mut self.write_faults)?;
        Ok(bytes.len())
    }
}

impl Link for MemLink {
    ghost use Rattle.std.specs.Prelude.{refl};
    ghost use Rattle.desk_links.specs.LinkMemory.{ends_in, keeps_input, keeps_output, link_state};

    ghost state = { link_state };

    ghost shows_input = { λ _. refl };

    ghost shows_output = { λ _. refl };

    ghost reads_alone = { keeps_output };

    ghost writes_alone = { keeps_input };

    ghost told_whole = { ends_in };
}
