//! A buffer of bytes that are read before they are asked for.
ghost use Rattle.std.specs.Prelude.{◌≡◌, ◌++◌, ◌↔◌, [], length, take, min, IsTrue, OnOk, OnErr};
ghost use Rattle.desk_traits.specs.Faults.{HasCause};
ghost use Rattle.byte_streams.specs.Flows.{Takes, IsAtEnd};

use byte_streams::Source;
use desk_traits::Failed;
use std::marker::Model;

// The size of the buffer in bytes.
const ROOM: usize = 4096;

/// The bytes that were read from a source and not yet handed out.
#[derive(Drop)]
pub struct Ahead {
    bytes: [u8; ROOM],
    from: usize,
    to: usize,
}

impl Model for Ahead {
    ghost use Rattle.std.specs.Prelude.{◌≤◌, ℕ, List, take, drop};

    ghost Value = { List ℕ };

    ghost view = { λ a. drop a.from (take a.to a.bytes) };

    ghost invariant = { λ a. (a.from ≤ a.to) × (a.to ≤ 4096) };
}

impl Ahead {
    /// Returns a buffer without bytes.
    pub fn none() -> Self
        ensures { result ≡ [] }
    {
        Ahead {
            bytes: [0; ROOM],
            from: 0,
            to: 0,
        }
    }

    /// Whether the buffer holds no byte that is still to be handed out.
    pub fn is_empty(&self) -> bool
        ensures { IsTrue result ↔ (self.now ≡ []) }
    {
        self.bytes[self.from..self.to].is_empty()
    }

    /// Returns the bytes of the buffer that were not yet handed out, in the order in which they
    /// were read.
    pub fn as_slice(&self) -> &[u8]
        ensures { result.now ≡ self.now }
    {
        &self.bytes[self.from..self.to]
    }

    /// Reads up to 4,096 bytes of `source` into the buffer, which must be empty, with one read.
    /// After `Ok` the buffer is still empty only if `source` had no byte left.
    ///
    /// # Errors
    ///
    /// `Failed` if the read failed; the buffer stays empty, and the source's count of faults has
    /// risen.
    pub fn fill<S: Source>(&mut self, source: &mut S) -> Result<(), Failed>
        requires { self.old ≡ [] }
        ensures bytes { OnOk result
            (Takes (S.inflow source.old).left (S.inflow source.new).left self.new) }
        ensures end { OnOk result (self.new ≡ [] → IsAtEnd (S.inflow source.new).left) }
        ensures err { OnErr result ((self.new ≡ [])
            × ((S.inflow source.new).left ≡ (S.inflow source.old).left)) }
        ensures cause { HasCause (S.inflow source.old).faults (S.inflow source.new).faults result }
        ensures steady { OnOk result ((S.inflow source.new).faults ≡ (S.inflow source.old).faults) }
        ensures beside { S.reads source.old source.new }
    {
        self.from = 0;
        self.to = 0;
        self.to = source.read(&mut self.bytes)?;
        Ok(())
    }

    /// Moves the first bytes of the buffer to the start of `into`, as many as the buffer holds and
    /// `into` has room for, and returns how many.
    pub fn hand_out(&mut self, into: &mut [u8]) -> usize
        ensures count { result ≡ min (length self.old) (length into.old) }
        ensures bytes { self.old ≡ take result into.new ++ self.new }
        ensures room { length into.new ≡ length into.old }
    {
        let ahead = &self.bytes[self.from..self.to];
        let count = ahead.len().min(into.len());
        into[..count].copy_from_slice(&ahead[..count]);
        self.from += count;
        count
    }
}
