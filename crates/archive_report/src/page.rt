//! The buffer of a report's text.
ghost use Rattle.std.specs.Prelude.{◌≡◌, [], OnOk, IfErr};
ghost use Rattle.program_ends.specs.Steps.{IsCauseOf};
ghost use Rattle.archive_report.specs.Pieces.{Halts, Pages};

use byte_streams::{Sink, write_whole};
use desk_traits::Failed;
use hazard_types::{List, Text};
use program_ends::Stop;
use std::alloc::Global;

/// The size in bytes from which the buffer is written.
const ENOUGH: usize = 65_536;

/// Writes the buffer `out` to `output` and empties it.
///
/// # Errors
///
/// `Stop::Write` if a write failed; a prefix of the buffer was then written.
pub fn flush<K: Sink>(alloc: Global, out: &mut Text, output: &mut K) -> Result<(), Stop>
    ensures told { OnOk result (Pages (K.outflow output.old) (K.outflow output.new)
        out.old out.new []) }
    ensures none { OnOk result (out.new ≡ []) }
    ensures halted { IfErr result (Halts (K.outflow output.old) (K.outflow output.new) out.old) }
    ensures cause { IsCauseOf Stop.Write
        (K.outflow output.old).faults (K.outflow output.new).faults result }
{
    match write_whole(output, out.as_slice()) {
        Ok(()) => {
            *out = List::new(alloc);
            Ok(())
        }
        Err(Failed) => Err(Stop::Write),
    }
}

/// Writes the buffer `out` to `output` and empties it if it has 65,536 bytes or more, and else does
/// nothing.
///
/// # Errors
///
/// `Stop::Write` if a write failed; a prefix of the buffer was then written.
pub fn flush_if_full<K: Sink>(alloc: Global, out: &mut Text, output: &mut K) -> Result<(), Stop>
    ensures told { OnOk result (Pages (K.outflow output.old) (K.outflow output.new)
        out.old out.new []) }
    ensures halted { IfErr result (Halts (K.outflow output.old) (K.outflow output.new) out.old) }
    ensures cause { IsCauseOf Stop.Write
        (K.outflow output.old).faults (K.outflow output.new).faults result }
{
    if out.len() < ENOUGH {
        return Ok(());
    }
    flush(alloc, out, output)
}
