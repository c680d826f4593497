//! The bytes that a feed keeps of a stream, and how far they were searched for heading lines.
ghost use Rattle.std.specs.Prelude.{◌≡◌, ◌≤◌, ◌++◌, false, true, Ok, Some, None, [], length, drop, IfOk, OnOk, OnErr};
ghost use Rattle.std.specs.List.{slice_range};
ghost use Rattle.product_decoder.specs.Feeding.{has_heading, IsQuiet, Keeps};
ghost use Rattle.product_decoder.specs.Holding.{Scans, HeldIs, rest_of, IsTrimmed, Moves, TakesWhole, TakesLast};

use hazard_types::{List, Oom, Text};
use product_frame::{is_heading, next_start};
use std::alloc::Global;

/// Bytes of a stream, of which those from `from` on count. All positions are offsets into `bytes`.
#[derive(Drop)]
pub struct Held {
    pub bytes: Vec<u8>,
    /// Where the bytes that count start.
    pub from: usize,
    /// Where the line starts that is looked at next.
    pub seen: usize,
    /// No line ends between `seen` and here.
    pub looked: usize,
    /// Whether a heading line starts at `from`, and no other before `seen`.
    pub headed: bool,
}

/// What is found among whole lines, as offsets.
#[derive(Clone, Copy, Debug)]
pub enum Scan {
    /// The first heading line, from its start to its end.
    Heading(usize, usize),
    /// There is none; the line that starts here is not whole.
    Line(usize),
}

/// Whether the bytes from offset `from` up to `to` start with a heading line.
fn is_heading_at(bytes: &[u8], from: usize, to: usize) -> bool
    requires order { from ≤ to }
    requires within { to ≤ length bytes.now }
    ensures { result ≡ has_heading (slice_range bytes.now from to) }
{
    is_heading(&bytes[from..to])
}

/// Whether the bytes from offset `from` on start with a heading line.
fn is_heading_from(bytes: &[u8], from: usize) -> bool
    requires { from ≤ length bytes.now }
    ensures { result ≡ has_heading (drop from bytes.now) }
{
    is_heading(&bytes[from..])
}

/// Returns the first heading line among the whole lines from offset `from`, where a line starts,
/// on; if there is none, the start of the line that is not whole. No line may end between `from`
/// and `looked`, so these bytes are not searched for a line end.
fn find_heading(bytes: &[u8], from: usize, looked: usize) -> Scan
    requires order { from ≤ looked }
    requires within { looked ≤ length bytes.now }
    requires quiet { IsQuiet (slice_range bytes.now from looked) }
    ensures { Scans bytes.now from result }
{
    let mut start = from;
    let mut at = looked;
    while let Some(end) = next_start(bytes, at) {
        if is_heading_at(bytes, start, end) {
            return Scan::Heading(start, end);
        }
        start = end;
        at = end;
    }
    Scan::Line(start)
}

impl Held {
    /// Returns a `Held` without bytes and without capacity.
    pub fn new(alloc: Global) -> Self
        ensures holds { HeldIs result }
        ensures rest { rest_of result ≡ [] }
    {
        Held {
            bytes: Vec::new(alloc),
            from: 0,
            seen: 0,
            looked: 0,
            headed: false,
        }
    }

    /// Returns how many bytes count: those that were appended and neither returned nor passed over.
    pub fn len(&self) -> usize
        requires { HeldIs self.now }
        ensures { result ≡ length (rest_of self.now) }
    {
        self.bytes.len() - self.from
    }

    /// Frees the bytes that do not count: those before `from`, which were returned or passed over.
    /// `Err` is out of memory, and nothing changes.
    fn shrink(&mut self, alloc: Global) -> Result<(), Oom>
        requires { HeldIs self.old }
        ensures holds { HeldIs self.new }
        ensures rest { rest_of self.new ≡ rest_of self.old }
    {
        let kept = Vec::from_slice(alloc, &self.bytes[self.from..])?;
        self.bytes = kept;
        self.seen -= self.from;
        self.looked -= self.from;
        self.from = 0;
        Ok(())
    }

    /// Appends a piece. On `Oom` the bytes that count are as before.
    fn add(&mut self, piece: &[u8]) -> Result<(), Oom>
        requires { HeldIs self.old }
        ensures holds { HeldIs self.new }
        ensures ok { OnOk result (rest_of self.new ≡ rest_of self.old ++ piece.now) }
        ensures err { OnErr result (rest_of self.new ≡ rest_of self.old) }
    {
        self.bytes.extend_from_slice(piece)?;
        Ok(())
    }

    /// Appends a piece of the stream. If more than half of the bytes were returned or passed over,
    /// these are freed first. On `Oom` the bytes that count are as before.
    ///
    /// # Errors
    ///
    /// Out of memory.
    pub fn push(&mut self, alloc: Global, piece: &[u8]) -> Result<(), Oom>
        requires { HeldIs self.old }
        ensures holds { HeldIs self.new }
        ensures ok { OnOk result (rest_of self.new ≡ rest_of self.old ++ piece.now) }
        ensures err { OnErr result (rest_of self.new ≡ rest_of self.old) }
    {
        if self.from > self.bytes.len() / 2 {
            self.shrink(alloc)?;
        }
        self.add(piece)
    }

    /// Passes over the whole lines before the first heading line, or over all whole lines if there
    /// is none. It does nothing if the bytes that count start with a heading line that was found
    /// before; `headed` then tells whether they start with one.
    fn skip_to_heading(&mut self)
        requires { HeldIs self.old }
        ensures holds { HeldIs self.new }
        ensures trimmed { IsTrimmed (rest_of self.old) (rest_of self.new) }
        ensures none { self.new.headed ≡ false → IsQuiet (rest_of self.new) }
    {
        if self.headed {
            return;
        }
        match find_heading(&self.bytes, self.seen, self.looked) {
            Scan::Heading(at, end) => {
                self.from = at;
                self.seen = end;
                self.looked = end;
                self.headed = true;
            }
            Scan::Line(at) => {
                self.from = at;
                self.seen = at;
                self.looked = self.bytes.len();
            }
        }
    }

    /// Returns the product at the start of the bytes that count, up to the next heading line, and
    /// passes over it; `None` if no next heading line is whole yet. The bytes that count must start
    /// with a heading line. `Err` is out of memory, and they are as before.
    fn advance(&mut self, alloc: Global) -> Result<Option<Text>, Oom>
        requires holds { HeldIs self.old }
        requires headed { self.old.headed ≡ true }
        ensures holds { HeldIs self.new }
        ensures headed { self.new.headed ≡ true }
        ensures moves { IfOk result (λ text. Moves (rest_of self.old) text (rest_of self.new)) }
        ensures quiet { result ≡ Ok None → IsQuiet (drop self.new.seen self.new.bytes.items) }
        ensures err { OnErr result (rest_of self.new ≡ rest_of self.old) }
    {
        match find_heading(&self.bytes, self.seen, self.looked) {
            Scan::Heading(at, end) => {
                let text = List::from_slice(alloc, &self.bytes[self.from..at])?;
                self.from = at;
                self.seen = end;
                self.looked = end;
                Ok(Some(text))
            }
            Scan::Line(at) => {
                self.seen = at;
                self.looked = self.bytes.len();
                Ok(None)
            }
        }
    }

    /// Returns the next product, from its heading line up to the next one, and passes over it;
    /// `None` if there is no heading line yet, or none after it that is whole. What comes before
    /// the first heading line is passed over.
    ///
    /// # Errors
    ///
    /// Out of memory.
    pub fn take_whole(&mut self, alloc: Global) -> Result<Option<Text>, Oom>
        requires { HeldIs self.old }
        ensures holds { HeldIs self.new }
        ensures taken { IfOk result
            (λ text. TakesWhole (rest_of self.old) text (rest_of self.new)) }
        ensures err { OnErr result (Keeps (rest_of self.old) (rest_of self.new)) }
    {
        self.skip_to_heading();
        if !self.headed {
            return Ok(None);
        }
        self.advance(alloc)
    }

    /// Returns all bytes that count, never `None`, after which none do. `Err` is out of memory, and
    /// they are as before.
    fn give_all(&mut self, alloc: Global) -> Result<Option<Text>, Oom>
        requires { HeldIs self.old }
        ensures holds { HeldIs self.new }
        ensures text { IfOk result (λ text. text ≡ Some (rest_of self.old)) }
        ensures rest { OnOk result (rest_of self.new ≡ []) }
        ensures err { OnErr result (rest_of self.new ≡ rest_of self.old) }
    {
        let text = List::from_slice(alloc, &self.bytes[self.from..])?;
        self.clear();
        Ok(Some(text))
    }

    /// Passes over all bytes, so that none count.
    fn clear(&mut self)
        requires { HeldIs self.old }
        ensures holds { HeldIs self.new }
        ensures rest { rest_of self.new ≡ [] }
    {
        self.from = self.bytes.len();
        self.seen = self.from;
        self.looked = self.from;
        self.headed = false;
    }

    /// Returns the bytes that count up to the last line, which starts at `seen`, never `None`. From
    /// then on only the last line counts. `Err` is out of memory, and nothing changes.
    fn take_until_last_line(&mut self, alloc: Global) -> Result<Option<Text>, Oom>
        requires holds { HeldIs self.old }
        ensures holds { HeldIs self.new }
        ensures text { IfOk result
            (λ text. text ≡ Some (slice_range self.old.bytes.items self.old.from self.old.seen)) }
        ensures rest { OnOk result (rest_of self.new ≡ drop self.old.seen self.old.bytes.items) }
        ensures err { OnErr result (rest_of self.new ≡ rest_of self.old) }
    {
        let text = List::from_slice(alloc, &self.bytes[self.from..self.seen])?;
        self.from = self.seen;
        self.headed = false;
        Ok(Some(text))
    }

    /// Returns the bytes that count of a stream that has ended, or, if its last line, which has no
    /// line end, is a heading line, those up to this line; never `None`. They must start with a
    /// heading line, and no other may follow among the whole lines. `Err` is out of memory, and
    /// they are as before.
    fn last_product(&mut self, alloc: Global) -> Result<Option<Text>, Oom>
        requires holds { HeldIs self.old }
        requires headed { self.old.headed ≡ true }
        requires quiet { IsQuiet (drop self.old.seen self.old.bytes.items) }
        ensures holds { HeldIs self.new }
        ensures taken { IfOk result (λ text. TakesLast (rest_of self.old) text (rest_of self.new)) }
        ensures err { OnErr result (rest_of self.new ≡ rest_of self.old) }
    {
        if is_heading_from(&self.bytes, self.seen) {
            return self.take_until_last_line(alloc);
        }
        self.give_all(alloc)
    }

    /// Returns the last line of a stream that has ended if it is a heading line, else `None`, and
    /// passes over it. The bytes that count must be this line, without a line end. `Err` is out of
    /// memory, and they are as before.
    fn last_line(&mut self, alloc: Global) -> Result<Option<Text>, Oom>
        requires holds { HeldIs self.old }
        requires quiet { IsQuiet (rest_of self.old) }
        ensures holds { HeldIs self.new }
        ensures taken { IfOk result (λ text. TakesLast (rest_of self.old) text (rest_of self.new)) }
        ensures err { OnErr result (rest_of self.new ≡ rest_of self.old) }
    {
        if is_heading_from(&self.bytes, self.from) {
            return self.give_all(alloc);
        }
        self.clear();
        Ok(None)
    }

    /// Returns the next product of a stream that has ended, and passes over it; never `None`. The
    /// bytes that count must start with a heading line. `Err` is out of memory, and they are as
    /// before.
    fn last_headed(&mut self, alloc: Global) -> Result<Option<Text>, Oom>
        requires holds { HeldIs self.old }
        requires headed { self.old.headed ≡ true }
        ensures holds { HeldIs self.new }
        ensures taken { IfOk result (λ text. TakesLast (rest_of self.old) text (rest_of self.new)) }
        ensures err { OnErr result (rest_of self.new ≡ rest_of self.old) }
    {
        let text = self.advance(alloc)?;
        if text.is_some() {
            return Ok(text);
        }
        self.last_product(alloc)
    }

    /// Returns the next product of a stream that has ended, and passes over it; `None` once no
    /// heading line is left. The last line counts even if it has no line end.
    ///
    /// # Errors
    ///
    /// Out of memory.
    pub fn take_last(&mut self, alloc: Global) -> Result<Option<Text>, Oom>
        requires { HeldIs self.old }
        ensures holds { HeldIs self.new }
        ensures taken { IfOk result (λ text. TakesLast (rest_of self.old) text (rest_of self.new)) }
        ensures err { OnErr result (Keeps (rest_of self.old) (rest_of self.new)) }
    {
        self.skip_to_heading();
        if !self.headed {
            return self.last_line(alloc);
        }
        self.last_headed(alloc)
    }
}
