//! The traits for an input and an output of bytes.
ghost use Rattle.byte_streams.specs.Flows.{Inflow, Outflow, Reads, Writes, WritesWhole};

use desk_traits::Failed;

/// An input of bytes.
pub trait Source {
    /// The remaining bytes, if the source exposes them, and the number of failed reads.
    ghost inflow: { Self → Inflow };

    /// What a read leaves unchanged in the rest of the value: a link is a sink as well.
    ghost reads: { Self → Self → Type 0 };

    /// Reads up to `into.len()` bytes into the start of `into` and returns how many. `Ok(0)` for a
    /// non-empty buffer means the end of the input.
    ///
    /// # Errors
    ///
    /// `Failed` if the read failed; nothing was read, and the count of faults has risen.
    fn read(&mut self, into: &mut [u8]) -> Result<usize, Failed>
        ensures read { Reads (inflow self.old) (inflow self.new) result into.new }
        ensures beside { reads self.old self.new };
}

/// An output of bytes.
pub trait Sink {
    /// The bytes written so far, if the sink exposes them, and the number of failed writes.
    ghost outflow: { Self → Outflow };

    /// What any number of writes leaves unchanged in the rest of the value.
    ghost writes: { Self → Self → Type 0 };

    /// Writes a prefix of `bytes` and returns its length, at least 1 unless `bytes` is empty.
    ///
    /// # Errors
    ///
    /// `Failed` if the write failed; nothing was written, and the count of faults has risen.
    fn write(&mut self, bytes: &[u8]) -> Result<usize, Failed>
        ensures written { Writes (outflow self.old) (outflow self.new) result bytes.now }
        ensures beside { writes self.old self.new };

    /// `writes` is reflexive.
    ghost no_writes: { (sink : Self) → writes sink sink };

    /// `writes` is transitive.
    ghost more_writes: { (old mid new : Self) → writes old mid → writes mid new → writes old new };
}

/// Writes all of `bytes` to `sink`, in as many writes as it takes.
///
/// # Errors
///
/// `Failed` if a write failed; the count of faults has risen, and a prefix of `bytes` may have been
/// written.
pub fn write_whole<K: Sink>(sink: &mut K, bytes: &[u8]) -> Result<(), Failed>
    ensures written { WritesWhole (K.outflow sink.old) (K.outflow sink.new) result bytes.now }
    ensures beside { K.writes sink.old sink.new }
{
    let mut at = 0;
    while at < bytes.len() {
        at += sink.write(&bytes[at..])?;
    }
    Ok(())
}
