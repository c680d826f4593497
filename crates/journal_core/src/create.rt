//! Makes the file of a journal on a fresh disk.
ghost use Rattle.std.specs.Prelude.{◌≡◌, ◌⊎◌, ◌↔◌, ◌+◌, ◌<◌, ◌≤◌, ℕ, List, Some, option_map, [], ◌∷◌, length, IfOk, OnOk, IsTrue, false};
ghost use Rattle.desk_traits.specs.Crash.{Passes, LeavesOnly};
ghost use Rattle.desk_traits.specs.Faults.{HasCause};
ghost use Rattle.desk_traits.specs.File.{Same, IsWithin, Only};

use crate::packet::Packet;
use desk_traits::{Disk, Failed, write_synced};

/// How a file starts: with at most one byte (`Short`), with `.` (`Begun`) or with another byte.
#[derive(Clone, Copy, Debug, PartialEq, Eq)]
pub(crate) enum Start {
    Short,
    Begun,
    Other,
}

ghost use Rattle.journal_core.specs.Create.{Starts};
ghost use Rattle.journal_core.specs.Adopt.{Settles};

/// Syncs the disk and returns how its file starts: `Short` if it has at most one byte, else `Begun`
/// if it starts with `.`, else `Other`. Nothing is written. Errs if a call of the disk fails.
pub(crate) fn look<D: Disk>(disk: &mut D) -> Result<Start, Failed>
    ensures seen { D.seen disk.new ≡ D.seen disk.old }
    ensures start { IfOk result (λ start. Starts start (D.seen disk.old)) }
    ensures durable { OnOk result (Only (D.seen disk.new) (D.crash disk.new).may_leave) }
    ensures settled { (file before : List ℕ) → D.seen disk.old ≡ Some file
        → D.syncs disk.old ≡ Some before
        → OnOk result (Settles D.crash D.syncs before file disk.new) }
    ensures crash { Passes Same (D.crash disk.old) (D.crash disk.new) }
    ensures cause { HasCause (D.faults disk.old) (D.faults disk.new) result }
    ensures steady { OnOk result (D.faults disk.new ≡ D.faults disk.old) }
{
    disk.sync()?;
    if disk.len()? < 2 {
        return Ok(Start::Short);
    }
    let mut first = [0; 1];
    disk.read_at(0, &mut first)?;
    if first[0] == b'.' {
        Ok(Start::Begun)
    } else {
        Ok(Start::Other)
    }
}

ghost use Rattle.journal_core.specs.Create.{IsBlank, IsMade, IsMaking};
ghost use Rattle.journal_core.specs.Image.{Fresh};
ghost use Rattle.journal_core.specs.Packet.{framed};
ghost use Rattle.journal_core.specs.Written.{put, with_record};

/// Writes the first record of a file and syncs: from byte 1 on the body's length, the body and a
/// closed gate, and only then, with another sync, the open gate `G` at byte 0. Errs if a call of
/// the disk fails.
fn first<D: Disk>(disk: &mut D, body: &Packet) -> Result<(), Failed>
    requires within { IsWithin 1 (D.seen disk.old) }
    requires room { length body.now ≤ 268435450 }
    ensures put { OnOk result
        (D.seen disk.new
        ≡ option_map (put 0 (71 ∷ [])) (option_map (put 1 (framed body.now)) (D.seen disk.old))) }
    ensures within { OnOk result (IsWithin (length body.now + 6) (D.seen disk.new)) }
    ensures made { IsBlank D.seen D.crash disk.old
        → OnOk result (IsMade D.seen D.crash disk.new body.now) }
    ensures any_moment { IsBlank D.seen D.crash disk.old
        → LeavesOnly (D.crash disk.old) (D.crash disk.new) (IsMaking body.now) }
    ensures cause { HasCause (D.faults disk.old) (D.faults disk.new) result }
    ensures steady { OnOk result (D.faults disk.new ≡ D.faults disk.old) }
{
    write_synced(disk, 1, body.framed())?;
    write_synced(disk, 0, b"G")
}

/// Writes a journal of one body and returns `true` if the file is fresh (it has at most one byte,
/// or starts with `.`). Returns `false` if it is not fresh, and writes nothing. Errs if a call of
/// the disk fails.
pub(crate) fn make<D: Disk>(disk: &mut D, body: &Packet) -> Result<bool, Failed>
    requires { length body.now ≤ 268435450 }
    ensures fresh { (file : List ℕ) → D.seen disk.old ≡ Some file → IfOk result
        (λ made. IsTrue made ↔ Fresh file) }
    ensures same { IfOk result (λ made. IsTrue made ⊎ (D.seen disk.new ≡ D.seen disk.old)) }
    ensures written { (file : List ℕ) → D.seen disk.old ≡ Some file → IfOk result
        (λ made. IsTrue made → D.seen disk.new ≡ Some (with_record 0 body.now file)) }
    ensures untouched { IfOk result
        (λ made. made ≡ false
        → LeavesOnly (D.crash disk.old) (D.crash disk.new) (D.crash disk.old).may_leave) }
    ensures within { IfOk result
        (λ made. IsTrue made → IsWithin (length body.now + 6) (D.seen disk.new)) }
    ensures made { (file : List ℕ) → D.seen disk.old ≡ Some file → IfOk result
        (λ made. IsTrue made → IsMade D.seen D.crash disk.new body.now) }
    ensures any_moment { (file : List ℕ) → D.seen disk.old ≡ Some file
        → LeavesOnly (D.crash disk.old) (D.crash disk.new)
        (λ c. (D.crash disk.old).may_leave c ⊎ IsMaking body.now c) }
    ensures cause { HasCause (D.faults disk.old) (D.faults disk.new) result }
    ensures steady { OnOk result (D.faults disk.new ≡ D.faults disk.old) }
{
    match look(disk)? {
        Start::Other => Ok(false),
        Start::Begun => {
            first(disk, body)?;
            Ok(true)
        }
        Start::Short => {
            write_synced(disk, 0, b".")?;
            first(disk, body)?;
            Ok(true)
        }
    }
}
