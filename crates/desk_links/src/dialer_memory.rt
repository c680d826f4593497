//! A dialer in memory, which lends the links that it was made with.
ghost use Rattle.std.specs.Prelude.{◌≡◌, ◌⊎◌, ◌<◌, ◌+◌, ◌++◌, ◌∷◌, ◌^◌, ◌↔◌, []};
ghost use Rattle.std.specs.Prelude.{length, min, Contains, IfOk, OnErr, IsErr};
ghost use Rattle.desk_traits.specs.Faults.{next_count};
ghost use Rattle.byte_streams.specs.Flows.{Reads};
ghost use Rattle.desk_links.specs.Links.{GivesLink, HandsOut, with_count};
ghost use Rattle.desk_links.specs.LinkMemory.{KeepsIn, KeepsOut, Lends, door_state};
ghost use Rattle.desk_links.specs.LinkMemory.{link_input, link_output, link_state};
ghost use Rattle.desk_links.specs.LinkMemory.{next_piece};

use crate::dialer::{Dialer, Peer};
use crate::lent::LentLinks;
use crate::link::Link;
use crate::link_memory::MemLink;
use byte_streams::{Sink, Source};
use desk_traits::Failed;
use hazard_types::Text;
use std::marker::Model;

/// A link in memory whose reads fail where its bytes end.
#[derive(Debug, Drop)]
pub struct MemPeer {
    link: MemLink,
}

impl Model for MemPeer {
    ghost use Rattle.desk_links.specs.LinkMemory.{LinkInMemory};

    ghost Value = { LinkInMemory };

    ghost view = { λ p. p.link };
}

impl MemPeer {
    /// Returns a peer that reads and writes over `link`: as `link` does, except that a read where
    /// no byte is left fails unless its buffer is empty.
    pub fn new(link: MemLink) -> Self
        ensures { result ≡ link }
    {
        MemPeer { link }
    }

    /// Returns all bytes written to the link so far, in order.
    pub fn written(&self) -> &Text
        ensures { result.now ≡ self.now.written }
    {
        self.link.written()
    }
}

impl Source for MemPeer {
    ghost inflow = { link_input };

    ghost reads = { KeepsOut };

    /// Copies the next bytes to the start of `into`, as many as are left and fit both the link's
    /// piece size and `into`, and returns how many. Fails, which is counted, if the number of the
    /// call, counted from 1 over reads and writes, is one of those given to `MemLink::new`, or if
    /// no byte is left and `into` is not empty.
    fn read(&mut self, into: &mut [u8]) -> Result<usize, Failed>
        ensures read { Reads (link_input self.old) (link_input self.new) result into.new }
        ensures counted { OnErr result (self.new.read_faults ≡ next_count self.old.read_faults) }
        ensures beside { KeepsOut self.old self.new }

        // It fails exactly at the listed calls, and where no byte is left for a non-empty buffer.
        ensures failing { IsErr result ↔ (Contains self.old.failing (next_count self.old.calls)
            ⊎ ((self.old.left ≡ []) × (0 < length into.old))) }
        ensures amount { IfOk result
            (λ n. n ≡ min (min (length self.old.left) self.old.piece) (length into.old)) }
        ensures called { self.new.calls ≡ next_count self.old.calls }

        // A read of no more bytes than the next piece has returns a prefix of it.
        ensures waited { HandsOut (next_piece self.old) result into.new }
    {
        if !into.is_empty() && self.link.is_at_end() {
            self.link.fail_read();
            return Err(Failed);
        }
        self.link.read(into)
    }
}

impl Sink for MemPeer {
    ghost use Rattle.desk_links.specs.LinkMemory.{keeps_in_none, keeps_in_more};

    ghost outflow = { link_output };

    ghost writes = { KeepsIn };

    ghost no_writes = { keeps_in_none };

    ghost more_writes = { keeps_in_more };

    /// Appends all of `bytes` to the written bytes and returns how many they are. The call fails,
    /// is counted and appends nothing if its number, counted from 1 over reads and writes, is one
    /// of those given to `MemLink::new`, or if memory runs out.
    fn write(&mut self, bytes: &[u8]) -> Result<usize, Failed> {
        self.link.write(bytes)
    }
}

impl Link for MemPeer {
    ghost use Rattle.std.specs.Prelude.{refl};
    ghost use Rattle.desk_links.specs.LinkMemory.{ends_in, keeps_input, keeps_output, link_state};

    ghost state = { link_state };

    ghost shows_input = { λ _. refl };

    ghost shows_output = { λ _. refl };

    ghost reads_alone = { keeps_output };

    ghost writes_alone = { keeps_input };

    ghost told_whole = { ends_in };
}

impl Peer for MemPeer {
    ghost use Rattle.desk_links.specs.LinkMemory.{begins_left};

    ghost held = { next_piece };

    ghost held_first = { begins_left };

    /// Returns the bytes that the next read returns first: the first of those left, as many as the
    /// link hands out at one read, and none at the end.
    fn waiting(&self) -> &[u8] {
        self.link.next_piece()
    }

    /// Copies the next bytes to the start of `into`, which must not be empty, and returns how many:
    /// as many as are left and fit both the link's piece size and `into`. Fails, which is counted,
    /// if no byte is left, or if the number of the call, counted from 1 over reads and writes, is
    /// one of those given to `MemLink::new`.
    fn read_some(&mut self, into: &mut [u8]) -> Result<usize, Failed> {
        self.read(into)
    }
}

/// A dialer that lends its links in order. It fails at given dials, and once no link is left.
pub type MemDialer = LentLinks;

impl Dialer for LentLinks {
    type Link = MemPeer;

    ghost state = { door_state };

    /// Returns the next link, in the order given to `LentLinks::new`, as a peer. Fails, which is
    /// counted, if no link is left or the number of the dial, counted from 1, is one of the failing
    /// ones given to `LentLinks::new`.
    fn dial(&mut self) -> Result<MemPeer, Failed>
        requires none_out { self.old.given ≡ length self.old.back }
        requires few { length self.old.back < 2 ^ 32 }
        ensures gives { GivesLink link_state (door_state self.old) (door_state self.new) result }
        ensures lends { Lends self.old self.new result }
    {
        let link = self.lend()?;
        Ok(MemPeer { link })
    }

    /// Appends `link`, the one that is lent, to the returned links, and adds the numbers of its
    /// failed reads and failed writes to the dialer's count of faults.
    fn return_link(&mut self, link: MemPeer)
        requires one_out { self.old.given ≡ length self.old.back + 1 }
        ensures counted { door_state self.new ≡ with_count (door_state self.old) (link_state link) }
        ensures back { self.new.back ≡ self.old.back ++ link ∷ [] }
        ensures given { self.new.given ≡ self.old.given }
    {
        let count = link.link.all_faults();
        self.add_faults(count);
        self.take_back(link.link);
    }
}
