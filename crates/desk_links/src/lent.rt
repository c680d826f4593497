//! The links of a door or of a dialer in memory: those still to lend, and those returned.
ghost use Rattle.std.specs.Prelude.{◌≡◌, ◌<◌, ◌+◌, ◌^◌, All, length, IfOk};
ghost use Rattle.desk_links.specs.Links.{GivesLink};
ghost use Rattle.desk_links.specs.LinkMemory.{IsUntouched, Lends, door_state, door_with};
ghost use Rattle.desk_links.specs.LinkMemory.{link_state, with_back, with_faults};

use crate::link_memory::MemLink;
use desk_traits::Failed;
use hazard_types::{List, Oom};
use std::alloc::Global;
use std::collections::VecDeque;
use std::marker::Model;

/// Links in memory, lent in order. `back` has room for all of them, so taking one back takes no
/// memory.
#[derive(Drop)]
pub struct LentLinks {
    waiting: VecDeque<MemLink>,
    back: Vec<MemLink>,
    failing: List<u64>,
    calls: u64,
    faults: u64,
    given: u64,
}

impl Model for LentLinks {
    ghost use Rattle.std.specs.Prelude.{◌≤◌, ◌+◌, All, length, vec_capacity};
    ghost use Rattle.desk_links.specs.LinkMemory.{DoorInMemory, IsUntouched};

    ghost Value = { DoorInMemory };

    ghost view = { λ d. record {
      waiting = d.waiting.items;
      back = d.back.items;
      failing = d.failing;
      calls = d.calls;
      faults = d.faults;
      given = d.given;
    } };

    ghost invariant = { λ d. (d.given + length d.waiting.items ≤ vec_capacity d.back)
        × All IsUntouched d.waiting.items };
}

impl LentLinks {
    /// Returns a lender of `links`, in their order, none of them lent; they must be unused, with
    /// nothing read, nothing written and no failure. Call n of `lend`, counted from 1, fails if n
    /// is in `failing`, and so does each call once no link is left.
    ///
    /// # Errors
    ///
    /// Out of memory.
    pub fn new(alloc: Global, links: List<MemLink>, failing: &List<u64>) -> Result<Self, Oom>
        requires { All IsUntouched links }
        ensures { IfOk result (λ lent. lent ≡ door_with links failing.now) }
    {
        let back = Vec::with_capacity(alloc, links.len())?;
        Ok(LentLinks {
            waiting: VecDeque::from_vec(links.into_vec()),
            back,
            failing: failing.clone()?,
            calls: 0,
            faults: 0,
            given: 0,
        })
    }

    /// Returns the first of the links that were not yet lent, which is then lent. Every link that
    /// was lent before must have been taken back. The calls that fail are those whose numbers,
    /// counted from 1 over all calls, `new` got as `failing`, and all once no link is left.
    ///
    /// # Errors
    ///
    /// `Failed` if the call is in `failing` or no link is left; the count of faults has risen.
    pub fn lend(&mut self) -> Result<MemLink, Failed>
        requires none_out { self.old.given ≡ length self.old.back }
        requires few { length self.old.back < 2 ^ 32 }
        ensures gives { GivesLink link_state (door_state self.old) (door_state self.new) result }
        ensures lends { Lends self.old self.new result }
    {
        self.calls = self.calls.saturating_add(1);
        if !self.failing.as_slice().contains(&self.calls) {
            if let Some(link) = self.waiting.pop_front() {
                self.given += 1;
                return Ok(link);
            }
        }
        self.faults = self.faults.saturating_add(1);
        Err(Failed)
    }

    /// Appends `link`, the one that is lent, to the returned links. Takes no memory and can't fail.
    pub fn take_back(&mut self, link: MemLink)
        requires one_out { self.old.given ≡ length self.old.back + 1 }
        ensures { self.new ≡ with_back self.old link }
    {
        self.back.push_reserved(link);
    }

    /// Adds `count` to the count of faults, which stays at 2^64 - 1 once it is reached.
    pub fn add_faults(&mut self, count: u64)
        ensures { self.new ≡ with_faults self.old count }
    {
        self.faults = self.faults.saturating_add(count);
    }

    /// Returns the links that were lent and taken back, in the order in which they were taken back.
    pub fn links(&self) -> &[MemLink]
        ensures { result.now ≡ self.now.back }
    {
        &self.back
    }

    /// Returns the count of faults: the number of failed calls of `lend` and what `add_faults`
    /// added, at most 2^64 - 1.
    pub fn faults(&self) -> u64
        ensures { result ≡ self.now.faults }
    {
        self.faults
    }

    /// Returns the links that were lent and taken back, in the order in which they were taken back,
    /// and drops those that were never lent.
    pub fn into_back(self) -> Vec<MemLink>
        ensures { result.items ≡ self.back }
    {
        self.back
    }
}
