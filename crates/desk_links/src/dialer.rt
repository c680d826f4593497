//! The traits of the asking side: a dialer connects to a port, and lends one link at a time.
ghost use Rattle.std.specs.Prelude.{◌≡◌, ◌<◌, ◌+◌, ◌^◌, ℕ, List, length, IfOk};
ghost use Rattle.desk_links.specs.Links.{BeginsLeft, DialerState, GivesLink, HandsOut, ReadsLink};
ghost use Rattle.desk_links.specs.Links.{with_count};

use crate::link::Link;
use desk_traits::Failed;

/// A link whose read fails, and is counted, where the other side's bytes end.
pub trait Peer: Link {
    /// The bytes that were received and not yet handed out; the next reads return them first.
    ghost held: { Self → List ℕ };

    /// Returns the bytes that were received from the other side and that no read has returned yet,
    /// in order. There may be none; the next reads return them first.
    fn waiting(&self) -> &[u8]
        ensures { result.now ≡ held self.now };

    /// Reads 1 to `into.len()` bytes into the start of `into`, which must not be empty, and returns
    /// how many.
    ///
    /// # Errors
    ///
    /// `Failed` if the read failed or the other side's bytes ended; nothing was read, and the count
    /// of the reads' faults has risen.
    fn read_some(&mut self, into: &mut [u8]) -> Result<usize, Failed>
        requires { 0 < length into.old }
        ensures read { ReadsLink (Self.state self.old) (Self.state self.new) result into.new }
        ensures some { IfOk result (λ n. 0 < n) }
        ensures waited { HandsOut (held self.old) result into.new };

    /// If the link exposes its remaining bytes, they start with the bytes held.
    ghost held_first: { (peer : Self)
        → BeginsLeft (Self.Link.state peer).input.left (held peer) };
}

/// A client side that lends links, one at a time, and takes each back.
pub trait Dialer {
    type Link: Peer;

    /// The number of links lent and of links returned, the returned links in their final states if
    /// the dialer exposes them, and the number of failed dials and of failures on the returned
    /// links.
    ghost state: { Self → DialerState };

    /// Connects, and returns a link of which nothing was read and to which nothing was written.
    /// Every link that was lent before must have been returned.
    ///
    /// # Errors
    ///
    /// `Failed` if no link came; the count of faults has risen.
    fn dial(&mut self) -> Result<Self::Link, Failed>
        requires none_out { (state self.old).given ≡ (state self.old).returned }
        requires few { (state self.old).returned < 2 ^ 32 }
        ensures { GivesLink Self.Link.state (state self.old) (state self.new) result };

    /// Takes back `link`, the one that is lent, and adds the numbers of its failed reads and failed
    /// writes to the dialer's count of faults. Takes no memory and can't fail.
    fn return_link(&mut self, link: Self::Link)
        requires one_out { (state self.old).given ≡ (state self.old).returned + 1 }
        ensures { state self.new ≡ with_count (state self.old) (Self.Link.state link) };
}
