//! Opens an office from its journal.
ghost use Rattle.std.specs.Prelude.{◌≡◌, ◌≤◌, ◌<◌, ℕ, List, Some, None, IfOk, IfErr, MatchResult, length};
ghost use Rattle.desk_traits.specs.Crash.{LeavesOnly};
ghost use Rattle.desk_traits.specs.Faults.{Rose};
ghost use Rattle.desk_traits.specs.File.{Only};
ghost use Rattle.desk_settings.specs.declared.fault.SettingsFault.{SettingsFault as Fault};
ghost use Rattle.journal_core.specs.Adopt.{Settles};
ghost use Rattle.journal_core.specs.Image.{Fresh, records};
ghost use Rattle.journal_core.specs.Kept.{gate_of};
ghost use Rattle.office_core.specs.Agreement.{ReadsAsTheBoard};
ghost use Rattle.office_journal.specs.Adopting.{Opens};
ghost use Rattle.office_journal.specs.Damage.{IsDamagedAt};
ghost use Rattle.office_journal.specs.Histories.{History, ImageOf};
ghost use Rattle.office_journal.specs.Kept.{HasHistory, Holds, disk_of, notes_of, state_of};
ghost use Rattle.office_journal.specs.declared.faults.KeepFault.TheVariants.{Damaged};
ghost use Rattle.office_journal.specs.declared.faults.KeepFault.TheVariants as keep;

use crate::faults::KeepFault;
use crate::kept::KeptOffice;
use crate::replay::replay;
use desk_traits::Disk;
use hazard_types::{Or, Text};
use journal_core::Journal;
use std::alloc::Global;

impl<D: Disk> KeptOffice<D> {
    /// Opens and returns the office whose journal is in the file of the disk. Checks each of the
    /// journal's requests again, in order, against the requests before it. Syncs the disk and
    /// writes nothing.
    ///
    /// # Errors
    ///
    /// The disk, whose file is as before, comes back with the fault. `Fresh` if the file is fresh,
    /// `Damaged` with the first place, in bytes from 0, from which on it is no office's journal,
    /// `DiskFault` if a call of the disk failed, and `OutOfMemory`.
    ///
    /// Source: docs/JOURNAL.md, "What is a journal, and what is not"; docs/DECISIONS.md, "The kept
    /// office and its commands".
    pub fn adopt(alloc: Global, disk: D) -> Result<KeptOffice<D>, (D, KeepFault)>

        // The file is an image of exactly this history, all of it is synced, and nothing is
        // pending.
        ensures ok { (bytes : List ℕ) → D.seen disk ≡ Some bytes
            → IfOk result
            (λ kept. (file : List ℕ) × (h : History) × ImageOf bytes file h
            × Holds D.seen D.crash kept file h None × (D.seen (disk_of kept) ≡ Some bytes)
            × Only (D.seen (disk_of kept)) (D.crash (disk_of kept)).may_leave) }

        // Whatever the disk shows, the office is at the state of a legal history, whose records end
        // at the last gate.
        ensures legal { IfOk result
            (λ kept. (file : List ℕ) × (h : History) × HasHistory kept file h) }

        // A reader of the texts alone finds the board.
        ensures reads { IfOk result (λ kept. ReadsAsTheBoard (state_of kept)) }

        // No append has met a disk fault yet.
        ensures notes { IfOk result (λ kept. notes_of kept ≡ 0) }

        ensures fresh { (bytes : List ℕ) → D.seen disk ≡ Some bytes → IfErr result
            (λ e. e.1 ≡ keep.Fresh → Fresh bytes) }
        ensures damaged { (bytes : List ℕ) → D.seen disk ≡ Some bytes → IfErr result
            (λ e. (at : ℕ) → e.1 ≡ Damaged at → IsDamagedAt bytes at) }

        // No other fault is returned here.
        ensures reasons { IfErr result
            (λ e. (e.1 ≡ keep.NotFresh → ⊥) × ((fault : Fault) → e.1 ≡ keep.Settings fault → ⊥)) }

        // A crash since the first sync of the call might have left what a read returns, and nothing
        // else.
        ensures settled { (bytes before : List ℕ) → D.seen disk ≡ Some bytes
            → D.syncs disk ≡ Some before
            → IfOk result (λ kept. Settles D.crash D.syncs before bytes (disk_of kept)) }

        // The disk failed in this call.
        ensures cause { IfErr result
            (λ e. e.1 ≡ keep.DiskFault → Rose (D.faults disk) (D.faults e.0)) }
        ensures later { MatchResult result (λ kept. D.faults disk ≤ D.faults (disk_of kept))
            (λ e. D.faults disk ≤ D.faults e.0) }

        // In every other case the count of faults is as before.
        ensures steady { MatchResult result (λ kept. D.faults (disk_of kept) ≡ D.faults disk)
            (λ e. (e.1 ≡ keep.DiskFault → ⊥) → D.faults e.0 ≡ D.faults disk) }

        // In every case a read returns the same as before, and a crash since the start of the call
        // leaves what one at the start might have left.
        ensures seen { MatchResult result (λ kept. D.seen (disk_of kept) ≡ D.seen disk)
            (λ e. D.seen e.0 ≡ D.seen disk) }
        ensures any_moment { MatchResult result
            (λ kept. LeavesOnly (D.crash disk) (D.crash (disk_of kept)) (D.crash disk).may_leave)
            (λ e. LeavesOnly (D.crash disk) (D.crash e.0) (D.crash disk).may_leave) }
    {
        match Journal::adopt(alloc, disk) {
            Ok((journal, bodies)) => match office_of(alloc, journal, bodies.as_slice()) {
                Ok(kept) => Ok(kept),
                Err(fault) => Err(fault),
            },
            Err((disk, fault)) => Err((disk, KeepFault::from(fault))),
        }
    }
}

/// Returns the office that the bodies `all` of a journal make, in their order. There is at least
/// one body, the text of the settings, and `journal` has just these. Otherwise the disk comes back
/// with `Damaged`, with the place in bytes from 0 of the first body that fails, or with
/// `OutOfMemory`.
fn office_of<D: Disk>(
    alloc: Global,
    journal: Journal<D>,
    all: &[Text],
) -> Result<KeptOffice<D>, (D, KeepFault)>
    requires gate { gate_of journal ≡ length (records all.now) }
    requires some { 0 < length all.now }
    ensures { Opens journal all.now result }
{
    match replay(alloc, all) {
        Ok(found) => Ok(KeptOffice {
            journal,
            office: found.office,
            entries: found.entries,
            notes: 0,
        }),
        Err(Or::No(at)) => Err((journal.into_disk(), KeepFault::Damaged { at })),
        Err(Or::OutOfMemory) => Err((journal.into_disk(), KeepFault::OutOfMemory)),
    }
}
