//! Writes the report of an input.
ghost use Rattle.std.specs.Prelude.{◌≤◌};
ghost use Rattle.byte_streams.specs.Flows.{streams};
ghost use Rattle.program_ends.specs.Steps.{IsCauseOf};
ghost use Rattle.program_ends.specs.Lines.{most_bytes};
ghost use Rattle.archive_report.specs.Pieces.{WritesTo, Reports};

use crate::findings::write_rest;
use crate::input::write_input_report;
use crate::tally::Tally;
use crate::words::Asked;
use byte_streams::{Sink, Source};
use program_ends::Stop;
use std::alloc::Global;

/// Reads `input`, of at most `limit` bytes, to its end and writes its report, for the office, class
/// and minute of `asked`, to `output`. Returns how many faults, breaches and gaps the report lists
/// in all.
///
/// # Errors
///
/// `Stop::Read` or `Stop::Write` if a read or a write failed, `Stop::TooLong` if the input has more
/// than `limit` bytes, and `Stop::OutOfMemory`. What was written begins the report in each case.
pub fn write_report<S: Source, K: Sink>(
    alloc: Global,
    asked: &Asked,
    limit: usize,
    input: &mut S,
    output: &mut K,
) -> Result<usize, Stop>
    requires { limit ≤ most_bytes }
    ensures run { WritesTo asked.now limit
        (streams (S.inflow input.old) (K.outflow output.old))
        (streams (S.inflow input.new) (K.outflow output.new)) (Reports asked.now) result }
    ensures read { IsCauseOf Stop.Read
        (S.inflow input.old).faults (S.inflow input.new).faults result }
    ensures write { IsCauseOf Stop.Write
        (K.outflow output.old).faults (K.outflow output.new).faults result }
{
    let mut tally = Tally::new(alloc, asked);
    write_input_report(alloc, asked, limit, &mut tally, input, output)?;
    write_rest(alloc, asked, &tally, output)
}
