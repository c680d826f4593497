//! The run of a command.
ghost use Rattle.std.specs.Prelude.{◌<◌, ◌+◌, ◌^◌};
ghost use Rattle.desk_program.specs.Runs.{DoesAsAsked};
ghost use Rattle.desk_program.specs.Worlds.{world};

use crate::training::run_training;
use crate::words::{Command, command_of};
use byte_streams::{Sink, Source};
use desk_commands::{Ended, run_board, run_export, run_init, run_script, run_upgrade};
use desk_drill::run_drill;
use desk_traits::{Clock, Disk};
use hazard_types::{List, Text};
use program_ends::{End, end_at_once};
use std::alloc::Global;

/// Runs the command that the arguments `words` name, with an input of at most `limit` bytes, and
/// returns the exit status and the disk. `dry` and `drill` leave the disk unused. Words that are no
/// command write the line of the fault `Usage` and have its status.
pub fn desk_within<S: Source, K: Sink, D: Disk, C: Clock>(
    alloc: Global,
    words: &List<Text>,
    input: &mut S,
    output: &mut K,
    disk: D,
    clock: &mut C,
    limit: usize,
) -> Ended<D>
    requires { limit + 1 < 2 ^ 64 }
    ensures { DoesAsAsked D.Disk C.Clock words.now limit
        (world (S.inflow input.old) (K.outflow output.old) disk clock.old)
        (world (S.inflow input.new) (K.outflow output.new) result.disk clock.new)
        result.status }
{
    match command_of(words) {
        None => Ended {
            status: end_at_once(output, End::Usage),
            disk,
        },
        Some(Command::Init) => run_init(alloc, input, output, disk),
        Some(Command::Script) => run_script(alloc, limit, input, output, disk, clock),
        Some(Command::Export) => run_export(alloc, output, disk),
        Some(Command::Upgrade) => run_upgrade(alloc, output, disk),
        Some(Command::Board(minute)) => run_board(alloc, minute, output, disk, clock),
        Some(Command::Dry(dry)) => Ended {
            status: run_training(alloc, &dry, limit, input, output),
            disk,
        },
        Some(Command::Drill(drill)) => Ended {
            status: run_drill(alloc, &drill, output),
            disk,
        },
    }
}
