//! The answer to a line.
ghost use Rattle.program_ends.specs.Ends.{WritesText};
ghost use Rattle.program_ends.specs.Replies.{bytes_of};

use crate::ending::write_both;
use byte_streams::{Sink, write_whole};
use desk_traits::Failed;
use hazard_types::Text;

/// The answer to a line.
#[derive(Debug, Drop)]
pub enum Reply {
    /// Nothing is written.
    Nothing,
    /// A text without LF; the run writes an LF after it.
    Line(Text),
    /// A fixed text without LF, which takes no memory; the run writes an LF after it.
    Fixed(&'static [u8]),
    /// A text that is written as it is.
    Whole(Text),
}

impl Reply {
    /// Writes the reply to `output`: its text, and an LF after that of a `Line` or a `Fixed`; for
    /// `Nothing` it writes nothing. It errs if a write failed; a prefix of the reply may be written
    /// then.
    pub(crate) fn write<K: Sink>(&self, output: &mut K) -> Result<(), Failed>
        ensures { WritesText (K.outflow output.old) (K.outflow output.new) result
            (bytes_of self.now) }
    {
        match self {
            Reply::Nothing => Ok(()),
            Reply::Line(text) => write_both(output, text.as_slice(), b"\n"),
            Reply::Fixed(text) => write_both(output, text, b"\n"),
            Reply::Whole(text) => write_both(output, text.as_slice(), b""),
        }
    }
}
