//! Runs a report as the words of a command ask for it.
ghost use Rattle.std.specs.Prelude.{codes};
ghost use Rattle.archive_report.specs.Runs.{DoesAsAsked};

use crate::report::write_report;
use crate::words::asked_of;
use byte_streams::{Sink, Source};
use hazard_types::{List, Text};
use program_ends::{End, end_at_once, end_run};
use program_outside::Program;
use std::alloc::Global;

/// The status of a report that lists a fault, a breach or a gap.
const LISTED: u8 = 3;

/// The program `warn_archive`. A run does what the words `OFFICE CLASS STAMP` ask for.
///
/// Source: docs/ARCHIVE.md, "Exit status".
pub struct Archive;

impl<S: Source, K: Sink> Program<S, K> for Archive {
    ghost does = { DoesAsAsked };

    ghost usage = { codes "warn_archive OFFICE CLASS STAMP\n" };

    fn usage() -> &'static str {
        "warn_archive OFFICE CLASS STAMP\n"
    }

    fn run(alloc: Global, words: &List<Text>, limit: usize, input: &mut S, output: &mut K) -> u8 {
        let Some(asked) = asked_of(words) else {
            return end_at_once(output, End::Usage);
        };
        match write_report(alloc, &asked, limit, input, output) {
            Ok(0) => 0,
            Ok(_listed) => LISTED,
            Err(stop) => end_run(output, Some(End::from(stop))),
        }
    }
}
