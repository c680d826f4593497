//! The bytes of a link that were read and not yet used.
ghost use Rattle.std.specs.Prelude.{◌≡◌, ◌≤◌, ◌<◌, ◌+◌, ◌-◌, [], length};
ghost use Rattle.std.specs.Prelude.{take, drop, IfOk, OnErr, OnOk};
ghost use Rattle.desk_traits.specs.Faults.{HasCause};
ghost use Rattle.byte_streams.specs.Flows.{IsAtEnd};
ghost use Rattle.desk_links.specs.Links.{ReadsLink};
ghost use Rattle.call_inbox.specs.Reading.{HasRead};

use desk_links::{Link, read_link};
use desk_traits::Failed;
use hazard_types::Oom;
use std::alloc::Global;
use std::marker::Model;

/// The most bytes of a head.
pub const MOST_HEAD: usize = 8_192;

/// The most bytes of a body.
const MOST_BODY: usize = 65_536;

/// The most bytes of a call, and the size of the buffer.
pub const MOST_CALL: usize = MOST_HEAD + MOST_BODY;

/// The bytes of a link that were read and not yet used, at most 73,728.
#[derive(Drop)]
pub struct Inbox {
    buffer: Vec<u8>,
    start: usize,
    end: usize,
}

impl Model for Inbox {
    ghost use Rattle.std.specs.Prelude.{◌≡◌, ◌≤◌, ◌-◌, ℕ, List, length, take, drop};

    ghost Value = { List ℕ };

    ghost view = { λ i. take (i.end - i.start) (drop i.start i.buffer.items) };

    ghost invariant = { λ i. (i.start ≤ i.end) × (i.end ≤ 73728)
        × (length i.buffer.items ≡ 73728) };
}

impl Inbox {
    /// Returns an inbox without bytes, with all the memory that it ever takes.
    ///
    /// # Errors
    ///
    /// Out of memory.
    pub fn new(alloc: Global) -> Result<Self, Oom>
        ensures { IfOk result (λ inbox. inbox ≡ []) }
    {
        let buffer = Vec::from_elem(alloc, 0, MOST_CALL)?;
        Ok(Inbox {
            buffer,
            start: 0,
            end: 0,
        })
    }

    /// Returns the bytes that were read and not yet skipped.
    pub fn as_slice(&self) -> &[u8]
        ensures { result.now ≡ self.now }
    {
        &self.buffer[self.start..self.end]
    }

    /// Removes the first `count` bytes. There must be so many.
    pub fn skip(&mut self, count: usize)
        requires { count ≤ length self.old }
        ensures { self.new ≡ drop count self.old }
    {
        self.start += count;
    }

    /// Removes all bytes.
    pub fn clear(&mut self)
        ensures { self.new ≡ [] }
    {
        self.start = 0;
        self.end = 0;
    }

    /// Reads from `link` after the bytes that are there, and returns how many bytes it read: 0 only
    /// at the end of the input. The inbox must not be full, so it has fewer than 73,728 bytes.
    ///
    /// # Errors
    ///
    /// `Failed` if the read failed; nothing was read, and the link's count of faults has risen.
    pub(crate) fn fill<L: Link>(&mut self, link: &mut L) -> Result<usize, Failed>
        requires { length self.old < 73728 }
        ensures read { HasRead self.old self.new (L.state link.old) (L.state link.new) }
        ensures count { IfOk result (λ n. length self.new ≡ length self.old + n) }
        ensures end { IfOk result (λ n. n ≡ 0 → IsAtEnd (L.state link.new).input.left) }
        ensures cause { HasCause (L.state link.old).input.faults (L.state link.new).input.faults
            result }
        ensures steady { OnOk result
            ((L.state link.new).input.faults ≡ (L.state link.old).input.faults) }
        ensures unread { OnErr result (self.new ≡ self.old) }
    {
        let (start, end) = make_room_behind(self.buffer.as_mut_slice(), self.start, self.end);
        self.start = start;
        self.end = end;
        let count = read_behind(link, self.buffer.as_mut_slice(), end)?;
        self.end = end + count;
        Ok(count)
    }
}

/// Moves the bytes `start..end` to the start of the buffer if there is no room after them, and
/// returns where they start and end then. They must be fewer than the buffer's bytes.
fn make_room_behind(buffer: &mut [u8], start: usize, end: usize) -> (usize, usize)
    requires order { start ≤ end }
    requires within { end ≤ length buffer.old }
    requires fewer { end - start < length buffer.old }
    ensures len { length buffer.new ≡ length buffer.old }
    ensures order { result.0 ≤ result.1 }
    ensures room { result.1 < length buffer.new }
    ensures same { take (result.1 - result.0) (drop result.0 buffer.new)
        ≡ take (end - start) (drop start buffer.old) }
{
    if end < buffer.len() {
        return (start, end);
    }
    buffer.copy_within(start..end, 0);
    (0, end - start)
}

/// Reads from the link into the buffer from index `end` on, and returns how many bytes it read: 0
/// only at the end of the input. `end` must be below the buffer's length; `Failed` if the read
/// failed.
fn read_behind<L: Link>(link: &mut L, buffer: &mut [u8], end: usize) -> Result<usize, Failed>
    requires { end < length buffer.old }
    ensures len { length buffer.new ≡ length buffer.old }
    ensures front { take end buffer.new ≡ take end buffer.old }
    ensures read { ReadsLink (L.state link.old) (L.state link.new) result (drop end buffer.new) }
{
    read_link(link, &mut buffer[end..])
}
