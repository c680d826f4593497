//! Appends bodies to a journal.
ghost use Rattle.std.specs.Prelude.{◌≡◌, ◌⊎◌, ◌+◌, ◌<◌, ◌≤◌, ◌↔◌, ℕ, List, Option, None, Some, option_map, [], ◌∷◌, ◌++◌, length, OnOk, OnErr, MatchResult, IsTrue, IsErrOf};
ghost use Rattle.desk_traits.specs.Crash.{LeavesOnly};
ghost use Rattle.desk_traits.specs.Faults.{HasCause, Rose};
ghost use Rattle.desk_traits.specs.File.{IsWithin, Only};
ghost use Rattle.journal_core.specs.Image.{Image, Half, IsOneOf};
ghost use Rattle.journal_core.specs.Journal.{IsStaged, MayPend, Rests, LeavesBodies};
ghost use Rattle.journal_core.specs.Packet.{framed};
ghost use Rattle.journal_core.specs.Written.{put, with_record};
ghost use Rattle.journal_core.specs.Kept.{disk_of, gate_of, Keeps};
ghost use Rattle.journal_core.specs.declared.faults.AppendFault.TheVariants.{DiskFault};

use crate::faults::AppendFault;
use crate::journal::Journal;
use crate::packet::Packet;
use desk_traits::{Disk, Failed, write_synced};

/// The most bytes of a journal's file.
pub const LIMIT: u64 = 268_435_456;

impl From<Failed> for AppendFault {
    ghost from_gives = { λ _ e. e ≡ DiskFault };

    fn from(_: Failed) -> Self {
        AppendFault::DiskFault
    }
}

impl<D: Disk> Journal<D> {
    /// Whether a body of `n` bytes has room: with it the file would have at most 268,435,456 bytes.
    pub fn room(&self, n: usize) -> bool
        ensures { IsTrue result ↔ (gate_of self.now + 6 + n ≤ 268435456) }
    {
        self.gate <= LIMIT - 6 && n as u64 <= LIMIT - 6 - self.gate
    }

    /// Appends a body and syncs it, so that no crash loses it. Allocates no memory.
    ///
    /// # Errors
    ///
    /// `Full` if the file would have more than `LIMIT` bytes; nothing changes. `DiskFault` if a
    /// call of the disk failed; at most one body is then pending, this one or the one that was
    /// pending before.
    ///
    /// Source: docs/JOURNAL.md, "How it is written".
    pub fn append(&mut self, body: &Packet) -> Result<(), AppendFault>

        // The file would be too long, and nothing changes.
        ensures full { IsErrOf result AppendFault.Full
            ↔ (268435456 < gate_of self.old + 6 + length body.now) }
        ensures unchanged { IsErrOf result AppendFault.Full → self.new ≡ self.old }

        // The last gate moves to after the body's record, or stays where it is.
        ensures gate { MatchResult result
            (λ _. gate_of self.new ≡ gate_of self.old + (length body.now + 5))
            (λ _. gate_of self.new ≡ gate_of self.old) }

        // The disk failed in this call.
        ensures later { D.faults (disk_of self.old) ≤ D.faults (disk_of self.new) }
        ensures cause { IsErrOf result AppendFault.DiskFault
            → Rose (D.faults (disk_of self.old)) (D.faults (disk_of self.new)) }

        // If the body was appended, the count of faults is as before.
        ensures steady { OnOk result (D.faults (disk_of self.new) ≡ D.faults (disk_of self.old)) }

        // From now on each crash leaves the bodies with this one, and nothing is pending.
        ensures ok { (bodies : List (List ℕ)) (pending : Option (List ℕ))
            → Keeps D.seen D.crash self.old bodies pending
            → OnOk result
            (Keeps D.seen D.crash self.new (bodies ++ body.now ∷ []) None
            × Only (D.seen (disk_of self.new)) (D.crash (disk_of self.new)).may_leave) }

        // The body's record is at the last gate, with a closed gate after it, and no other byte is
        // changed.
        ensures written { (file : List ℕ) → D.seen (disk_of self.old) ≡ Some file
            → OnOk result
            (D.seen (disk_of self.new) ≡ Some (with_record (gate_of self.old) body.now file)) }

        // The bodies are as before, and at most one is pending: the one that was pending before, or
        // this one. A crash now leaves the bodies, or the bodies and the pending one.
        ensures failed { (bodies : List (List ℕ)) (pending : Option (List ℕ))
            → Keeps D.seen D.crash self.old bodies pending
            → IsErrOf result AppendFault.DiskFault → (next : Option (List ℕ))
            × MayPend pending body.now next × Keeps D.seen D.crash self.new bodies next
            × ((c : List ℕ) → (D.crash (disk_of self.new)).may_leave c
            → LeavesBodies bodies next c) }

        // A crash at any moment of the call leaves the bodies, alone or with the one that was
        // pending or with this one.
        ensures any_moment { (bodies : List (List ℕ)) (pending : Option (List ℕ))
            → Keeps D.seen D.crash self.old bodies pending
            → LeavesOnly (D.crash (disk_of self.old)) (D.crash (disk_of self.new))
            (IsOneOf bodies pending body.now) }
    {
        if !self.room(body.len()) {
            return Err(AppendFault::Full);
        }
        self.close()?;
        self.stage(body)?;
        self.open(body)?;
        Ok(())
    }

    /// Writes a closed gate, the byte `.`, over the last gate and syncs, if a fault of the disk has
    /// left it unknown whether that gate is open. Otherwise nothing is written. Errs if a call of
    /// the disk fails.
    fn close(&mut self) -> Result<(), Failed>
        ensures put { OnOk result
            ((D.seen self.new.disk ≡ D.seen self.old.disk)
            ⊎ (D.seen self.new.disk
            ≡ option_map (put self.old.gate (46 ∷ [])) (D.seen self.old.disk))) }
        ensures gate { self.new.gate ≡ self.old.gate }
        ensures ok { (bodies : List (List ℕ)) (pending : Option (List ℕ))
            → Keeps D.seen D.crash self.old bodies pending
            → OnOk result (Keeps D.seen D.crash self.new bodies None) }
        ensures err { (bodies : List (List ℕ)) (pending : Option (List ℕ))
            → Keeps D.seen D.crash self.old bodies pending
            → OnErr result (Keeps D.seen D.crash self.new bodies pending) }
        ensures any_moment { (bodies : List (List ℕ)) (pending : Option (List ℕ))
            → Keeps D.seen D.crash self.old bodies pending
            → LeavesOnly (D.crash (disk_of self.old)) (D.crash (disk_of self.new))
            (Rests bodies pending) }
        ensures cause { HasCause (D.faults (disk_of self.old)) (D.faults (disk_of self.new))
            result }
        ensures steady { OnOk result (D.faults (disk_of self.new) ≡ D.faults (disk_of self.old)) }
    {
        if self.unsure {
            write_synced(&mut self.disk, self.gate, b".")?;
            self.unsure = false;
        }
        Ok(())
    }

    /// Writes the body's length, the body and a closed gate behind the last gate, which must be
    /// closed, and syncs. The body is not in the journal until `open` opens the gate before it.
    /// Errs if a call of the disk fails; the bodies of the journal are then as before.
    fn stage(&mut self, body: &Packet) -> Result<(), Failed>
        requires { self.old.gate + 6 + length body.now ≤ 268435456 }
        ensures put { OnOk result
            (D.seen self.new.disk
            ≡ option_map (put (self.old.gate + 1) (framed body.now)) (D.seen self.old.disk)) }
        ensures behind { OnOk result
            (IsWithin (self.new.gate + 6 + length body.now) (D.seen (disk_of self.new))) }
        ensures gate { self.new.gate ≡ self.old.gate }
        ensures ok { (bodies : List (List ℕ)) → Keeps D.seen D.crash self.old bodies None
            → OnOk result (IsStaged D.seen D.crash self.new.disk self.new.gate bodies body.now) }
        ensures err { (bodies : List (List ℕ)) → Keeps D.seen D.crash self.old bodies None
            → OnErr result (Keeps D.seen D.crash self.new bodies None) }
        ensures any_moment { (bodies : List (List ℕ)) → Keeps D.seen D.crash self.old bodies None
            → LeavesOnly (D.crash (disk_of self.old)) (D.crash (disk_of self.new))
            (λ c. Image c bodies) }
        ensures cause { HasCause (D.faults (disk_of self.old)) (D.faults (disk_of self.new))
            result }
        ensures steady { OnOk result (D.faults (disk_of self.new) ≡ D.faults (disk_of self.old)) }
    {
        write_synced(&mut self.disk, self.gate + 1, body.framed())
    }

    /// Writes an open gate, the byte `G`, before the body that `stage` has just written, and syncs.
    /// The body is then in the journal, and the gate after it is the last one. Errs if a call of
    /// the disk fails; a crash may then leave the journal with the body or without it.
    fn open(&mut self, body: &Packet) -> Result<(), Failed>
        requires within { IsWithin (self.old.gate + 6 + length body.now)
            (D.seen (disk_of self.old)) }
        requires room { self.old.gate + 6 + length body.now ≤ 268435456 }
        ensures put { OnOk result
            (D.seen self.new.disk
            ≡ option_map (put self.old.gate (71 ∷ [])) (D.seen self.old.disk)) }
        ensures gate { MatchResult result
            (λ _. self.new.gate ≡ self.old.gate + (length body.now + 5))
            (λ _. self.new.gate ≡ self.old.gate) }
        ensures ok { (bodies : List (List ℕ))
            → IsStaged D.seen D.crash self.old.disk self.old.gate bodies body.now
            → OnOk result
            (Keeps D.seen D.crash self.new (bodies ++ body.now ∷ []) None
            × Only (D.seen (disk_of self.new)) (D.crash (disk_of self.new)).may_leave) }
        ensures err { (bodies : List (List ℕ))
            → IsStaged D.seen D.crash self.old.disk self.old.gate bodies body.now
            → OnErr result (Keeps D.seen D.crash self.new bodies (Some body.now)) }
        ensures any_moment { (bodies : List (List ℕ))
            → IsStaged D.seen D.crash self.old.disk self.old.gate bodies body.now
            → LeavesOnly (D.crash (disk_of self.old)) (D.crash (disk_of self.new))
            (λ c. Half c bodies body.now) }
        ensures cause { HasCause (D.faults (disk_of self.old)) (D.faults (disk_of self.new))
            result }
        ensures steady { OnOk result (D.faults (disk_of self.new) ≡ D.faults (disk_of self.old)) }
    {
        self.unsure = true;
        write_synced(&mut self.disk, self.gate, b"G")?;
        self.unsure = false;
        self.gate += body.framed().len() as u64;
        Ok(())
    }
}
