//! A write and a sync together.
ghost use Rattle.std.specs.Prelude.{◌≡◌, length, OnOk};
ghost use Rattle.desk_traits.specs.Crash.{Passes};
ghost use Rattle.desk_traits.specs.Faults.{HasCause};
ghost use Rattle.desk_traits.specs.File.{Torn, IsWithin, WritesAt, Only, NotesSync};

use crate::disk::Disk;
use crate::faults::Failed;

/// Writes `bytes` over the file from byte `at` on, counted from 0 and at most its length, and makes
/// this and all earlier writes stable: a crash directly afterwards leaves the file as a read
/// returns it. What goes past the end makes the file longer.
///
/// # Errors
///
/// `Failed` if the write or the sync failed; the count of faults has risen, and the range may hold
/// any bytes.
pub fn write_synced<D: Disk>(disk: &mut D, at: u64, bytes: &[u8]) -> Result<(), Failed>
    requires { IsWithin at (D.seen disk.old) }
    ensures seen { WritesAt at bytes.now (D.seen disk.old) (D.seen disk.new) result }
    ensures crash { Passes (Torn at (length bytes.now)) (D.crash disk.old) (D.crash disk.new) }
    ensures syncs { NotesSync (D.crash disk.new).moment (D.syncs disk.old) (D.syncs disk.new)
        result }
    ensures durable { OnOk result (Only (D.seen disk.new) (D.crash disk.new).may_leave) }
    ensures cause { HasCause (D.faults disk.old) (D.faults disk.new) result }
    ensures steady { OnOk result (D.faults disk.new ≡ D.faults disk.old) }
{
    disk.write_at(at, bytes)?;
    disk.sync()
}
