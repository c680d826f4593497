//! The program `watch_notice`.
ghost use Rattle.std.specs.Prelude.{codes, ◌<◌, ◌+◌, ◌^◌, IsTrue};
ghost use Rattle.hazard_types.specs.Characters.{is_office};
ghost use Rattle.byte_streams.specs.Flows.{streams};
ghost use Rattle.county_notices.specs.NoticeRuns.{DoesAsAsked, IsNoticeRun};

use crate::issuer::Issuer;
use crate::notices::Notices;
use crate::words::parse_issuer;
use byte_streams::{Sink, Source};
use hazard_types::{List, Text};
use program_ends::{End, end_at_once, run_lines};
use program_outside::Program;
use std::alloc::Global;

/// Writes for each line of the input, one command a line, its notice or its refusal, and nothing
/// for an empty line. Returns the exit status: 0, or that of the fault that ended the run, whose
/// line is written last. `limit` is the most bytes of the input.
fn answer_lines<S: Source, K: Sink>(
    alloc: Global,
    issuer: Issuer,
    input: &mut S,
    output: &mut K,
    limit: usize,
) -> u8
    requires office { IsTrue (is_office issuer.office) }
    requires limit { limit + 1 < 2 ^ 64 }
    ensures { IsNoticeRun issuer limit
        (streams (S.inflow input.old) (K.outflow output.old))
        (streams (S.inflow input.new) (K.outflow output.new)) result }
{
    let mut notices = Notices::new(alloc, issuer);
    run_lines(alloc, limit, &mut notices, input, output)
}

/// The program `watch_notice`. A run does what the words `OFFICE ZONE` ask for: it answers each
/// line of the input with its notice or its refusal.
///
/// Source: docs/NOTICES.md, "Exit status".
pub struct CountyNotices;

impl<S: Source, K: Sink> Program<S, K> for CountyNotices {
    ghost does = { DoesAsAsked };

    ghost usage = { codes "watch_notice OFFICE ZONE\n" };

    fn usage() -> &'static str {
        "watch_notice OFFICE ZONE\n"
    }

    fn run(alloc: Global, words: &List<Text>, limit: usize, input: &mut S, output: &mut K) -> u8 {
        match parse_issuer(words) {
            Some(issuer) => answer_lines(alloc, issuer, input, output, limit),
            None => end_at_once(output, End::Usage),
        }
    }
}
