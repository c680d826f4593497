//! Runs the statistics as the words of a command ask for them.
ghost use Rattle.std.specs.Prelude.{codes, ◌≤◌};
ghost use Rattle.program_ends.specs.Lines.{most_bytes};
ghost use Rattle.program_ends.specs.Steps.{IsCauseOf};
ghost use Rattle.stats_report.specs.Readings.{WritesTo};
ghost use Rattle.stats_report.specs.Runs.{DoesAsAsked};

use crate::input::count_input;
use crate::lines::text_of;
use crate::tally::Tally;
use archive_report::{Asked, asked_of};
use byte_streams::{Sink, Source, write_whole};
use desk_traits::Failed;
use hazard_types::{List, Text};
use program_ends::{End, Stop, end_at_once, end_run};
use program_outside::Program;
use std::alloc::Global;

/// Reads an input of at most `limit` bytes to its end, and then writes the text of its statistics.
/// `asked` has the office and class whose lines count, and the minute before which minutes are
/// counted. On `Stop::Write` a part of the text may be written, on another error nothing is.
fn write_stats<S: Source, K: Sink>(
    alloc: Global,
    asked: &Asked,
    limit: usize,
    input: &mut S,
    output: &mut K,
) -> Result<(), Stop>
    requires { limit ≤ most_bytes }
    ensures run { WritesTo asked.now limit (S.inflow input.old).left (S.inflow input.new).left
        (K.outflow output.old).taken (K.outflow output.new).taken result }
    ensures read { IsCauseOf Stop.Read (S.inflow input.old).faults (S.inflow input.new).faults
        result }
    ensures write { IsCauseOf Stop.Write (K.outflow output.old).faults (K.outflow output.new).faults
        result }
{
    let mut tally = Tally::new(alloc);
    count_input(alloc, asked, limit, &mut tally, input)?;
    let text = text_of(alloc, &tally)?;
    match write_whole(output, text.as_slice()) {
        Ok(()) => Ok(()),
        Err(Failed) => Err(Stop::Write),
    }
}

/// The program `warn_stats`. A run does what the words `OFFICE CLASS STAMP` ask for.
///
/// Source: docs/STATISTICS.md, "Exit statuses".
pub struct Statistics;

impl<S: Source, K: Sink> Program<S, K> for Statistics {
    ghost does = { DoesAsAsked };

    ghost usage = { codes "warn_stats OFFICE CLASS STAMP\n" };

    /// Returns the usage line of `warn_stats`, with its LF.
    fn usage() -> &'static str {
        "warn_stats OFFICE CLASS STAMP\n"
    }

    /// Writes the statistics of an input of at most `limit` bytes, as the words ask for them, or
    /// how the run failed, and returns the exit status. If the words are not `OFFICE CLASS STAMP`,
    /// nothing is read.
    fn run(alloc: Global, words: &List<Text>, limit: usize, input: &mut S, output: &mut K) -> u8 {
        let Some(asked) = asked_of(words) else {
            return end_at_once(output, End::Usage);
        };
        match write_stats(alloc, &asked, limit, input, output) {
            Ok(()) => 0,
            Err(stop) => end_run(output, Some(End::from(stop))),
        }
    }
}
