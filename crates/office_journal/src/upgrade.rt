//! Upgrades an office to edition Two.
ghost use Rattle.std.specs.Prelude.{◌≡◌, ◌≢◌, ◌⊎◌, ◌↔◌, ◌+◌, ◌≤◌, ◌<◌, ℕ, List, Option, Some, None};
ghost use Rattle.desk_traits.specs.Crash.{LeavesOnly};
ghost use Rattle.desk_traits.specs.Faults.{Rose};
ghost use Rattle.desk_traits.specs.File.{Only};
ghost use Rattle.office_types.specs.declared.request.Edition.TheVariants.{One, Two};
ghost use Rattle.office_core.specs.State.{in_edition};
ghost use Rattle.office_journal.specs.Changes.{Change, Leaves, changed};
ghost use Rattle.office_journal.specs.Histories.{History};
ghost use Rattle.office_journal.specs.Kept.{Holds, disk_of, entries_of, gate_of, notes_of, state_of};
ghost use Rattle.office_journal.specs.Submitting.{MayTouch};

use crate::answers::Upgrade;
use crate::kept::KeptOffice;
use desk_traits::Disk;
use journal_core::{AppendFault, Packet};
use office_types::Edition;
use std::alloc::Global;

impl<D: Disk> KeptOffice<D> {
    /// Appends the mark of edition Two to the journal, and returns `Done`; or `Already` if the
    /// edition was Two, `Full` if the journal has no room for the mark, `DiskFault` or
    /// `OutOfMemory`. After `Done` the office writes texts of edition Two; otherwise its edition is
    /// as before.
    ///
    /// Source: docs/JOURNAL.md, "The file, byte by byte"; docs/PRODUCTS.md, "Editions".
    pub fn upgrade(&mut self, alloc: Global) -> Upgrade

        // The edition was One, and is Two now. The journal has the mark, durably, and nothing is
        // pending.
        ensures done { result ≡ Upgrade.Done → ((state_of self.old).edition ≡ One)
            × (state_of self.new ≡ in_edition Two (state_of self.old))
            × ((file : List ℕ) (h : History) (pending : Option Change)
            → Holds D.seen D.crash self.old file h pending
            → Holds D.seen D.crash self.new file (changed h Change.marked) None
            × Only (D.seen (disk_of self.new)) (D.crash (disk_of self.new)).may_leave) }
        ensures already { (result ≡ Upgrade.Already) ↔ ((state_of self.old).edition ≡ Two) }
        ensures full { result ≡ Upgrade.Full → ((state_of self.old).edition ≡ One)
            × (268435456 < gate_of self.old + 15) }
        ensures room { (state_of self.old).edition ≡ One → 268435456 < gate_of self.old + 15
            → (result ≡ Upgrade.Full) ⊎ (result ≡ Upgrade.OutOfMemory) }

        // The disk failed in this call. The office is as before, and at most one change is pending:
        // the one that was pending before, or the mark.
        ensures cause { result ≡ Upgrade.DiskFault → ((state_of self.old).edition ≡ One)
            × Rose (D.faults (disk_of self.old)) (D.faults (disk_of self.new)) }
        ensures failed { result ≡ Upgrade.DiskFault
            → (file : List ℕ) (h : History) (pending : Option Change)
            → Holds D.seen D.crash self.old file h pending
            → (next : Option Change) × MayTouch pending Change.marked next
            × Holds D.seen D.crash self.new file h next }
        ensures state { result ≢ Upgrade.Done → state_of self.new ≡ state_of self.old }
        ensures entries { entries_of self.new ≡ entries_of self.old }
        ensures notes { notes_of self.new ≡ notes_of self.old }

        // In every other case nothing changes.
        ensures untouched { result ≢ Upgrade.Done → result ≢ Upgrade.DiskFault
            → (disk_of self.new ≡ disk_of self.old)
            × ((file : List ℕ) (h : History) (pending : Option Change)
            → Holds D.seen D.crash self.old file h pending
            → Holds D.seen D.crash self.new file h pending) }
        ensures later { D.faults (disk_of self.old) ≤ D.faults (disk_of self.new) }

        // In every case but `DiskFault` the count of faults is as before.
        ensures steady { result ≢ Upgrade.DiskFault
            → D.faults (disk_of self.new) ≡ D.faults (disk_of self.old) }

        // A crash at any moment of the call leaves an image of the history, of the history and the
        // change that was pending, or of the history and the mark.
        ensures any_moment { (file : List ℕ) (h : History) (pending : Option Change)
            → Holds D.seen D.crash self.old file h pending
            → LeavesOnly (D.crash (disk_of self.old)) (D.crash (disk_of self.new))
            (Leaves file h
            (λ change. (pending ≡ Some change) ⊎ ((change ≡ Change.marked) × (h.edition ≡ One)))) }
    {
        self.a_crash_leaves_the_history();
        if self.office.edition() == Edition::Two {
            return Upgrade::Already;
        }
        let Ok(mark) = Packet::new(alloc, b"edition 2") else {
            return Upgrade::OutOfMemory;
        };
        match self.journal.append(&mark) {
            Ok(()) => {
                self.office.set_edition(Edition::Two);
                Upgrade::Done
            }
            Err(AppendFault::Full) => Upgrade::Full,
            Err(AppendFault::DiskFault) => Upgrade::DiskFault,
        }
    }
}
