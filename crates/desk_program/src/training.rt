//! The command `dry`.
ghost use Rattle.std.specs.Prelude.{◌+◌, ◌<◌, ◌^◌, IsTrue};
ghost use Rattle.hazard_types.specs.Characters.{is_office};
ghost use Rattle.desk_program.specs.Runs.{IsDryRun};
ghost use Rattle.byte_streams.specs.Flows.{streams};

use crate::training_desk::TrainingDesk;
use crate::words::Dry;
use byte_streams::{Sink, Source};
use office_core::{a_request_has_one_answer, offices_begin_in_agreement};
use program_ends::{End, end_at_once, run_lines};
use std::alloc::Global;

/// Writes the answer of a training office to each line of an input of at most `limit` bytes, and
/// returns the exit status. A line describes an issue, and its answer is the text of the product or
/// the refusal. `dry` gives the office's code and the minute of all products.
pub fn run_training<S: Source, K: Sink>(
    alloc: Global,
    dry: &Dry,
    limit: usize,
    input: &mut S,
    output: &mut K,
) -> u8
    requires office { IsTrue (is_office dry.now.office) }
    requires limit { limit + 1 < 2 ^ 64 }
    ensures { IsDryRun dry.now limit
        (streams (S.inflow input.old) (K.outflow output.old))
        (streams (S.inflow input.new) (K.outflow output.new))
        result }
{
    offices_begin_in_agreement();
    a_request_has_one_answer();
    match TrainingDesk::new(alloc, dry) {
        Ok(mut desk) => run_lines(alloc, limit, &mut desk, input, output),
        Err(_) => end_at_once(output, End::OutOfMemory),
    }
}
