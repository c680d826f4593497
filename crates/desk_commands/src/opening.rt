//! How the office of a journal is opened.
ghost use Rattle.std.specs.Prelude.{◌≡◌, false, IfErr, MatchResult};
ghost use Rattle.program_ends.specs.Ends.{is_write_fault};
ghost use Rattle.desk_commands.specs.Opening.{IsOpened, IsUnopened};

use desk_traits::Disk;
use office_journal::{KeepFault, KeptOffice};
use program_ends::End;
use std::alloc::Global;

/// Opens the office of the journal on `disk`.
///
/// # Errors
///
/// The disk, whose file is as before, and
///
/// - `NoJournal` if the file is fresh,
/// - `Damaged` with a byte, counted from 0, if it is neither fresh nor a journal,
/// - `DiskFault` if a call of the disk failed,
/// - `OutOfMemory`.
pub fn open<D: Disk>(alloc: Global, disk: D) -> Result<KeptOffice<D>, (D, End)>
    ensures opened { MatchResult result (IsOpened D.Disk disk)
        (λ e. IsUnopened D.Disk disk e.0 e.1) }
    ensures end { IfErr result (λ e. is_write_fault e.1 ≡ false) }
{
    match KeptOffice::adopt(alloc, disk) {
        Ok(kept) => Ok(kept),
        Err((disk, fault)) => match fault {
            KeepFault::Fresh => Err((disk, End::NoJournal)),
            KeepFault::Damaged { at } => Err((disk, End::Damaged(at))),
            KeepFault::DiskFault => Err((disk, End::DiskFault)),
            KeepFault::OutOfMemory => Err((disk, End::OutOfMemory)),
            KeepFault::Settings(_) | KeepFault::NotFresh => unreachable!(),
        },
    }
}
