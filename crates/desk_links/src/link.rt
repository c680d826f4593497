//! The trait for a connection, and a read and a write of one.
ghost use Rattle.std.specs.Prelude.{◌≡◌};
ghost use Rattle.desk_links.specs.Links.{EndsIn, KeepsInput, KeepsOutput};
ghost use Rattle.desk_links.specs.Links.{LinkState, ReadsLink, WritesLink};

use byte_streams::{Sink, Source, write_whole};
use desk_traits::Failed;

/// A connection: a source and a sink, where a read leaves the sink unchanged and a write the
/// source. Its count of faults is the sum of its failed reads and its failed writes.
pub trait Link: Source + Sink {
    /// The bytes that came and those left, the bytes written, each if the link exposes them, and
    /// the counts of failed reads and writes.
    ghost state: { Self → LinkState };

    /// Its input is what it exposes as a source.
    ghost shows_input: { (link : Self)
        → (state link).input ≡ Self.Source.inflow link };

    /// Its output is what it exposes as a sink.
    ghost shows_output: { (link : Self)
        → (state link).output ≡ Self.Sink.outflow link };

    /// A read leaves the output unchanged.
    ghost reads_alone: { (old new : Self)
        → Self.Source.reads old new → KeepsOutput (state old) (state new) };

    /// A write leaves the input unchanged.
    ghost writes_alone: { (old new : Self)
        → Self.Sink.writes old new → KeepsInput (state old) (state new) };

    /// The remaining bytes are a suffix of the bytes that came.
    ghost told_whole: { (link : Self) → EndsIn (state link).came (state link).input.left };
}

/// Reads up to `into.len()` bytes of `link` into the start of `into` and returns how many. `Ok(0)`
/// for a non-empty `into` means that the bytes from the other side have ended.
///
/// # Errors
///
/// `Failed` if the read failed; nothing was read, and the count of the reads' faults has risen.
pub fn read_link<L: Link>(link: &mut L, into: &mut [u8]) -> Result<usize, Failed>
    ensures { ReadsLink (L.state link.old) (L.state link.new) result into.new }
{
    link.read(into)
}

/// Writes all of `bytes` to `link`.
///
/// # Errors
///
/// `Failed` if a write failed; the count of the writes' faults has risen, and a prefix of `bytes`
/// may have been written.
pub fn write_link<L: Link>(link: &mut L, bytes: &[u8]) -> Result<(), Failed>
    ensures { WritesLink (L.state link.old) (L.state link.new) result bytes.now }
{
    write_whole(link, bytes)
}
