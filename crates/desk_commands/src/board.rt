//! The command `board`.
ghost use Rattle.std.specs.Prelude.{◌≡◌, ◌⊎◌};
ghost use Rattle.office_journal.specs.Kept.{state_of};
ghost use Rattle.desk_commands.specs.Opening.{IsUnopenedRun};
ghost use Rattle.desk_commands.specs.Commands.{IsBoardAt, IsBoardRun, WritesBoard};

use crate::ended::{Ended, ended_at_once};
use crate::opening::open;
use byte_streams::Sink;
use desk_traits::{Clock, Disk};
use hazard_types::{Minute, Or};
use office_core::requests_stand_once;
use office_journal::KeptOffice;
use office_types::Query;
use program_ends::{End, end_at_once, tell};
use std::alloc::Global;

/// Writes the board of the office at minute `at`, counted from 2000-01-01T00:00Z, ends the run and
/// returns the exit status. If the minute is not from 0 to 52,000,000 or memory runs out, the line
/// of that fault is written instead.
fn write_board<D: Disk, K: Sink>(alloc: Global, kept: &KeptOffice<D>, at: i64, output: &mut K) -> u8
    ensures { WritesBoard (state_of kept.now) at
        (K.outflow output.old) (K.outflow output.new) result }
{
    match kept.look(alloc, &Query::Board, at) {
        Ok(text) => tell(output, text.as_slice()),
        Err(Or::No(_)) => end_at_once(output, End::ClockOut),
        Err(Or::OutOfMemory) => end_at_once(output, End::OutOfMemory),
    }
}

/// Returns the minute of the board, counted from 2000-01-01T00:00Z: `minute`, or the clock's
/// reading if it is `None`.
fn board_at<C: Clock>(minute: Option<Minute>, clock: &mut C) -> i64
    ensures { IsBoardAt C.Clock minute clock.old clock.new result }
{
    match minute {
        Some(minute) => i64::from(minute.get()),
        None => clock.tick(),
    }
}

/// Writes the board of the office in the journal, at `minute` or, for `None`, at the clock's
/// reading, and returns the exit status and the disk. If the office can't be opened or shown, the
/// line of the fault is written instead. The clock is read only if the office was opened and
/// `minute` is `None`.
pub fn run_board<K: Sink, D: Disk, C: Clock>(
    alloc: Global,
    minute: Option<Minute>,
    output: &mut K,
    disk: D,
    clock: &mut C,
) -> Ended<D>
    ensures { (IsUnopenedRun D.Disk disk result.disk
        (K.outflow output.old) (K.outflow output.new) result.status
        × (clock.new ≡ clock.old))
        ⊎ IsBoardRun D.Disk C.Clock minute disk result.disk clock.old clock.new
        (K.outflow output.old) (K.outflow output.new) result.status }
{
    requests_stand_once();
    match open(alloc, disk) {
        Ok(kept) => {
            kept.a_crash_leaves_the_history();
            let at = board_at(minute, clock);
            let status = write_board(alloc, &kept, at, output);
            Ended {
                status,
                disk: kept.into_disk(),
            }
        }
        Err((disk, end)) => ended_at_once(output, disk, end),
    }
}
