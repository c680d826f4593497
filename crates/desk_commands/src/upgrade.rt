//! The command `upgrade`.
ghost use Rattle.desk_commands.specs.Opening.{UnopenedOr};
ghost use Rattle.desk_commands.specs.Commands.{IsUpgradeRun, WritesUpgrade};

use crate::ended::{Ended, ended_at_once};
use crate::opening::open;
use byte_streams::Sink;
use desk_traits::Disk;
use office_core::requests_stand_once;
use office_journal::Upgrade;
use program_ends::{End, end_at_once, tell};
use std::alloc::Global;

/// Writes `edition 2` if the journal has the mark of edition Two, put there now (`Done`) or before
/// (`Already`), or else the line of the fault, ends the run and returns the exit status.
fn write_upgrade<K: Sink>(output: &mut K, upgrade: Upgrade) -> u8
    ensures { WritesUpgrade upgrade (K.outflow output.old) (K.outflow output.new) result }
{
    match upgrade {
        Upgrade::Done => tell(output, b"edition 2\n"),
        Upgrade::Already => tell(output, b"edition 2\n"),
        Upgrade::Full => end_at_once(output, End::JournalFull),
        Upgrade::DiskFault => end_at_once(output, End::DiskFault),
        Upgrade::OutOfMemory => end_at_once(output, End::OutOfMemory),
    }
}

/// Appends the mark of edition Two to the journal unless it is there, writes `edition 2`, and
/// returns the exit status and the disk. The texts of products sent after the mark are of edition
/// Two. If that fails, the line of the fault is written instead.
pub fn run_upgrade<K: Sink, D: Disk>(alloc: Global, output: &mut K, disk: D) -> Ended<D>
    ensures { UnopenedOr D.Disk (IsUpgradeRun D.Disk) disk result.disk
        (K.outflow output.old) (K.outflow output.new) result.status }
{
    requests_stand_once();
    match open(alloc, disk) {
        Ok(mut kept) => {
            kept.a_crash_leaves_the_history();
            let upgrade = kept.upgrade(alloc);
            let status = write_upgrade(output, upgrade);
            kept.a_crash_leaves_the_history();
            Ended {
                status,
                disk: kept.into_disk(),
            }
        }
        Err((disk, end)) => ended_at_once(output, disk, end),
    }
}
