//! The command `export`.
ghost use Rattle.office_core.specs.Agreement.{texts_of};
ghost use Rattle.office_journal.specs.Kept.{state_of};
ghost use Rattle.desk_commands.specs.Opening.{UnopenedOr};
ghost use Rattle.desk_commands.specs.Commands.{Exported, IsExportRun};

use crate::ended::{Ended, ended_at_once};
use crate::opening::open;
use byte_streams::{Sink, write_whole};
use desk_traits::{Disk, Failed};
use hazard_types::Or;
use office_core::requests_stand_once;
use office_journal::KeptOffice;
use office_types::Query;
use program_ends::{End, end_run};
use std::alloc::Global;

/// Writes the texts of all products of the office, in the order in which they were sent. Returns
/// the fault at which it stopped, a failed write or out of memory, or `None` if all are written.
fn write_products<D: Disk, K: Sink>(
    alloc: Global,
    kept: &KeptOffice<D>,
    output: &mut K,
) -> Option<End>
    ensures { Exported (texts_of (state_of kept.now))
        (K.outflow output.old) (K.outflow output.new) result }
{
    for index in 0..kept.products() {
        match kept.look(alloc, &Query::Product(index + 1), 0) {
            Ok(text) => match write_whole(output, text.as_slice()) {
                Ok(()) => {}
                Err(Failed) => return Some(End::WriteFault),
            },
            Err(Or::No(_)) => unreachable!(),
            Err(Or::OutOfMemory) => return Some(End::OutOfMemory),
        }
    }
    None
}

/// Writes the texts of all products of the office in the journal, in the order in which they were
/// sent, and returns the exit status and the disk. The line of a fault is written after the texts,
/// or alone if the office can't be opened.
pub fn run_export<K: Sink, D: Disk>(alloc: Global, output: &mut K, disk: D) -> Ended<D>
    ensures { UnopenedOr D.Disk (IsExportRun D.Disk) disk result.disk
        (K.outflow output.old) (K.outflow output.new) result.status }
{
    requests_stand_once();
    match open(alloc, disk) {
        Ok(kept) => {
            kept.a_crash_leaves_the_history();
            let end = write_products(alloc, &kept, output);
            Ended {
                status: end_run(output, end),
                disk: kept.into_disk(),
            }
        }
        Err((disk, end)) => ended_at_once(output, disk, end),
    }
}
