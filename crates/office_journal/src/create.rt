//! Makes the journal of an office.
ghost use Rattle.std.specs.Prelude.{◌≡◌, ◌⊎◌, ◌≤◌, ◌+◌, ◌∷◌, ◌++◌, [], ℕ, List, Some, None, Ok, Err, IfOk, IfErr, OnOk, MatchResult, length};
ghost use Rattle.desk_traits.specs.Crash.{LeavesOnly};
ghost use Rattle.desk_traits.specs.Faults.{Rose};
ghost use Rattle.desk_traits.specs.File.{Only};
ghost use Rattle.desk_settings.specs.AreSettings.{AreSettings};
ghost use Rattle.desk_settings.specs.Reading.{settings_of};
ghost use Rattle.desk_settings.specs.declared.fault.SettingsFault.{SettingsFault as Fault};
ghost use Rattle.hazard_types.specs.declared.codes.Class.TheVariants.{O};
ghost use Rattle.office_types.specs.declared.request.Edition.TheVariants.{One, Two};
ghost use Rattle.journal_core.specs.Create.{IsMaking};
ghost use Rattle.journal_core.specs.Image.{Fresh, IsOneOf};
ghost use Rattle.journal_core.specs.Kept.{Keeps};
ghost use Rattle.journal_core.specs.Kept.{disk_of as journal_disk, gate_of as journal_gate};
ghost use Rattle.office_core.specs.State.{first_state, in_edition};
ghost use Rattle.office_journal.specs.Bodies.{mark};
ghost use Rattle.office_journal.specs.Histories.{empty};
ghost use Rattle.office_journal.specs.Kept.{Holds, disk_of, entries_of, notes_of, state_of};
ghost use Rattle.office_journal.specs.Making.{IsMadeFor, IsMakingFault, IsMakingOf};
ghost use Rattle.office_journal.specs.declared.faults.KeepFault.TheVariants.{Damaged};
ghost use Rattle.office_journal.specs.declared.faults.KeepFault.TheVariants as keep;

use crate::faults::KeepFault;
use crate::kept::KeptOffice;
use desk_settings::{Settings, read_settings};
use desk_traits::Disk;
use hazard_types::{Class, Oom, Or};
use journal_core::{AppendFault, CreateFault, Journal, Packet};
use office_core::Office;
use office_types::Edition;
use std::alloc::Global;

impl<D: Disk> KeptOffice<D> {
    /// Makes the journal of a new office on a disk whose file is fresh (at most one byte, or `.`
    /// first), and returns the office, in edition Two. `settings` is the text of the settings'
    /// file, which the journal has byte for byte.
    ///
    /// # Errors
    ///
    /// The disk comes back with the fault. `Settings` with the first fault of the settings if the
    /// file is fresh, `NotFresh` if it is not, `OutOfMemory`; in these cases the file is as before.
    /// `DiskFault` if a call of the disk failed; a crash then leaves what it might have left before
    /// the call, or a file that is being made.
    ///
    /// Source: docs/JOURNAL.md, "The file, byte by byte".
    pub fn create(
        alloc: Global,
        mut disk: D,
        settings: &[u8],
    ) -> Result<KeptOffice<D>, (D, KeepFault)>

        // The file was fresh, and on the disk the office has the empty history in edition Two.
        ensures fresh { (bytes : List ℕ) → D.seen disk ≡ Some bytes → OnOk result (Fresh bytes) }
        ensures ok { (bytes : List ℕ) → D.seen disk ≡ Some bytes
            → IfOk result
            (λ kept. Holds D.seen D.crash kept settings.now (empty Two) None
            × Only (D.seen (disk_of kept)) (D.crash (disk_of kept)).may_leave) }

        // This holds of the office in memory whatever the disk shows.
        ensures made { IfOk result (λ kept. IsMadeFor settings.now kept) }

        // No append has met a disk fault yet.
        ensures notes { IfOk result (λ kept. notes_of kept ≡ 0) }

        // The settings have this fault first, and the file is fresh.
        ensures settings { (fault : Fault) → IfErr result
            (λ e. e.1 ≡ keep.Settings fault → settings_of settings.now ≡ Err fault) }
        ensures settings_fresh { (bytes : List ℕ) (fault : Fault) → D.seen disk ≡ Some bytes
            → IfErr result (λ e. e.1 ≡ keep.Settings fault → Fresh bytes) }

        // The file was not fresh.
        ensures not_fresh { (bytes : List ℕ) → D.seen disk ≡ Some bytes → IfErr result
            (λ e. e.1 ≡ keep.NotFresh → Fresh bytes → ⊥) }

        // No other fault is returned here.
        ensures reasons { IfErr result
            (λ e. (e.1 ≡ keep.Fresh → ⊥) × ((at : ℕ) → e.1 ≡ Damaged at → ⊥)) }

        // After a fault of the settings, a file that was not fresh, and out of memory, the file is
        // as before.
        ensures same { IfErr result
            (λ e. ((fault : Fault) × (e.1 ≡ keep.Settings fault)) ⊎ (e.1 ≡ keep.NotFresh)
            ⊎ (e.1 ≡ keep.OutOfMemory) → D.seen e.0 ≡ D.seen disk) }
        ensures untouched { IfErr result
            (λ e. ((fault : Fault) × (e.1 ≡ keep.Settings fault)) ⊎ (e.1 ≡ keep.NotFresh)
            ⊎ (e.1 ≡ keep.OutOfMemory)
            → LeavesOnly (D.crash disk) (D.crash e.0) (D.crash disk).may_leave) }

        // The disk failed in this call.
        ensures cause { IfErr result
            (λ e. e.1 ≡ keep.DiskFault → Rose (D.faults disk) (D.faults e.0)) }
        ensures later { MatchResult result (λ kept. D.faults disk ≤ D.faults (disk_of kept))
            (λ e. D.faults disk ≤ D.faults e.0) }

        // In every other case the count of faults is as before.
        ensures steady { MatchResult result (λ kept. D.faults (disk_of kept) ≡ D.faults disk)
            (λ e. (e.1 ≡ keep.DiskFault → ⊥) → D.faults e.0 ≡ D.faults disk) }

        // A crash at any moment of the call leaves what one at its start might have left, or a file
        // that is being made.
        ensures any_moment { (bytes : List ℕ) → D.seen disk ≡ Some bytes
            → MatchResult result
            (λ kept. LeavesOnly (D.crash disk) (D.crash (disk_of kept))
            (λ c. (D.crash disk).may_leave c ⊎ IsMakingOf settings.now c))
            (λ e. LeavesOnly (D.crash disk) (D.crash e.0)
            (λ c. (D.crash disk).may_leave c ⊎ IsMakingOf settings.now c)) }
    {
        match read_settings(alloc, settings) {
            Ok(read) => make(alloc, disk, settings, read),
            Err(Or::OutOfMemory) => Err((disk, KeepFault::OutOfMemory)),
            Err(Or::No(fault)) => match Journal::is_fresh(&mut disk) {
                Ok(true) => Err((disk, KeepFault::Settings(fault))),
                Ok(false) => Err((disk, KeepFault::NotFresh)),
                Err(_) => Err((disk, KeepFault::DiskFault)),
            },
        }
    }
}

/// Returns the office of these settings, in edition One and before any request, and the first two
/// bodies of its journal. These are `text`, which is the text of the settings' file, at most
/// 1,048,576 bytes, and the mark of edition Two.
fn beginnings(
    alloc: Global,
    text: &[u8],
    settings: Settings,
) -> Result<(Office, Packet, Packet), Oom>
    requires forms { AreSettings settings }
    requires size { length text.now ≤ 1048576 }
    ensures office { IfOk result (λ parts. parts.0.state ≡ first_state settings O One) }
    ensures text { IfOk result (λ parts. parts.1 ≡ text.now) }
    ensures goes_over { IfOk result (λ parts. parts.2 ≡ mark) }
{
    let office = Office::new(alloc, settings, Class::O, Edition::One)?;
    let body = Packet::new(alloc, text)?;
    let second = Packet::new(alloc, b"edition 2")?;
    Ok((office, body, second))
}

/// Makes the journal of a new office on a disk whose file is fresh (at most one byte, or `.`
/// first), and returns the office, in edition Two. `text` is the text of the settings' file, and
/// `settings` what was read from it. Otherwise the disk comes back with `NotFresh`, `DiskFault` or
/// `OutOfMemory`.
fn make<D: Disk>(
    alloc: Global,
    disk: D,
    text: &[u8],
    settings: Settings,
) -> Result<KeptOffice<D>, (D, KeepFault)>
    requires read { settings_of text.now ≡ Ok settings }
    requires forms { AreSettings settings }
    requires size { length text.now ≤ 1048576 }
    ensures fresh { (bytes : List ℕ) → D.seen disk ≡ Some bytes → OnOk result (Fresh bytes) }
    ensures ok { (bytes : List ℕ) → D.seen disk ≡ Some bytes
        → IfOk result
        (λ kept. Holds D.seen D.crash kept text.now (empty Two) None
        × Only (D.seen (disk_of kept)) (D.crash (disk_of kept)).may_leave) }
    ensures made { IfOk result (λ kept. IsMadeFor text.now kept) }
    ensures notes { IfOk result (λ kept. notes_of kept ≡ 0) }
    ensures not_fresh { (bytes : List ℕ) → D.seen disk ≡ Some bytes → IfErr result
        (λ e. e.1 ≡ keep.NotFresh → Fresh bytes → ⊥) }
    ensures reasons { IfErr result (λ e. IsMakingFault e.1) }
    ensures same { IfErr result
        (λ e. (e.1 ≡ keep.NotFresh) ⊎ (e.1 ≡ keep.OutOfMemory) → D.seen e.0 ≡ D.seen disk) }
    ensures untouched { IfErr result
        (λ e. (e.1 ≡ keep.NotFresh) ⊎ (e.1 ≡ keep.OutOfMemory)
        → LeavesOnly (D.crash disk) (D.crash e.0) (D.crash disk).may_leave) }
    ensures cause { IfErr result (λ e. e.1 ≡ keep.DiskFault → Rose (D.faults disk) (D.faults e.0)) }
    ensures later { MatchResult result (λ kept. D.faults disk ≤ D.faults (disk_of kept))
        (λ e. D.faults disk ≤ D.faults e.0) }
    ensures steady { MatchResult result (λ kept. D.faults (disk_of kept) ≡ D.faults disk)
        (λ e. (e.1 ≡ keep.DiskFault → ⊥) → D.faults e.0 ≡ D.faults disk) }
    ensures any_moment { (bytes : List ℕ) → D.seen disk ≡ Some bytes
        → MatchResult result
        (λ kept. LeavesOnly (D.crash disk) (D.crash (disk_of kept))
        (λ c. (D.crash disk).may_leave c ⊎ IsMakingOf text.now c))
        (λ e. LeavesOnly (D.crash disk) (D.crash e.0)
        (λ c. (D.crash disk).may_leave c ⊎ IsMakingOf text.now c)) }
{
    let Ok((office, body, second)) = beginnings(alloc, text, settings) else {
        return Err((disk, KeepFault::OutOfMemory));
    };
    match first_journal(disk, &body) {
        Ok(journal) => append_edition_mark(journal, office, &second),
        Err(failed) => Err(failed),
    }
}

/// Makes and returns a journal whose only body is `body`, the text of the settings' file, on a disk
/// whose file is fresh (at most one byte, or `.` first). Otherwise the disk comes back with
/// `NotFresh` or `DiskFault`.
fn first_journal<D: Disk>(disk: D, body: &Packet) -> Result<Journal<D>, (D, KeepFault)>
    ensures fresh { (bytes : List ℕ) → D.seen disk ≡ Some bytes → OnOk result (Fresh bytes) }
    ensures ok { (bytes : List ℕ) → D.seen disk ≡ Some bytes → IfOk result
        (λ journal. Keeps D.seen D.crash journal (body.now ∷ []) None) }
    ensures gate { IfOk result (λ journal. journal_gate journal ≡ length body.now + 5) }
    ensures not_fresh { (bytes : List ℕ) → D.seen disk ≡ Some bytes → IfErr result
        (λ e. e.1 ≡ keep.NotFresh → Fresh bytes → ⊥) }
    ensures reasons { IfErr result (λ e. IsMakingFault e.1) }
    ensures same { IfErr result
        (λ e. (e.1 ≡ keep.NotFresh) ⊎ (e.1 ≡ keep.OutOfMemory) → D.seen e.0 ≡ D.seen disk) }
    ensures untouched { IfErr result
        (λ e. (e.1 ≡ keep.NotFresh) ⊎ (e.1 ≡ keep.OutOfMemory)
        → LeavesOnly (D.crash disk) (D.crash e.0) (D.crash disk).may_leave) }
    ensures cause { IfErr result (λ e. e.1 ≡ keep.DiskFault → Rose (D.faults disk) (D.faults e.0)) }
    ensures later { MatchResult result (λ journal. D.faults disk ≤ D.faults (journal_disk journal))
        (λ e. D.faults disk ≤ D.faults e.0) }
    ensures steady { MatchResult result (λ journal. D.faults (journal_disk journal) ≡ D.faults disk)
        (λ e. (e.1 ≡ keep.DiskFault → ⊥) → D.faults e.0 ≡ D.faults disk) }
    ensures any_moment { (bytes : List ℕ) → D.seen disk ≡ Some bytes
        → MatchResult result
        (λ journal. LeavesOnly (D.crash disk) (D.crash (journal_disk journal))
        (λ c. (D.crash disk).may_leave c ⊎ IsMaking body.now c))
        (λ e. LeavesOnly (D.crash disk) (D.crash e.0)
        (λ c. (D.crash disk).may_leave c ⊎ IsMaking body.now c)) }
{
    match Journal::create(disk, body) {
        Ok(journal) => Ok(journal),
        Err((disk, CreateFault::NotFresh)) => Err((disk, KeepFault::NotFresh)),
        Err((disk, CreateFault::DiskFault)) => Err((disk, KeepFault::DiskFault)),
    }
}

/// Appends `second`, the mark of edition Two, to a journal that was just made, and returns the
/// office in edition Two. `office` is in edition One and before any request, and the journal must
/// have room for the mark. Otherwise the disk comes back with `DiskFault`.
fn append_edition_mark<D: Disk>(
    mut journal: Journal<D>,
    mut office: Office,
    second: &Packet,
) -> Result<KeptOffice<D>, (D, KeepFault)>
    requires goes_over { second.now ≡ mark }
    requires room { journal_gate journal + 15 ≤ 268435456 }
    requires edition { office.state.edition ≡ One }
    requires begun { office.state.begun ≡ 0 }
    ensures state { IfOk result (λ kept. state_of kept ≡ in_edition Two office.state) }
    ensures entries { IfOk result (λ kept. entries_of kept ≡ 0) }
    ensures notes { IfOk result (λ kept. notes_of kept ≡ 0) }
    ensures ok { (all : List (List ℕ)) → Keeps D.seen D.crash journal all None
        → IfOk result
        (λ kept. Keeps D.seen D.crash kept.journal (all ++ mark ∷ []) None
        × Only (D.seen (disk_of kept)) (D.crash (disk_of kept)).may_leave) }
    ensures err { IfErr result (λ e. e.1 ≡ keep.DiskFault) }
    ensures cause { IfErr result (λ e. Rose (D.faults (journal_disk journal)) (D.faults e.0)) }
    ensures later { MatchResult result
        (λ kept. D.faults (journal_disk journal) ≤ D.faults (disk_of kept))
        (λ e. D.faults (journal_disk journal) ≤ D.faults e.0) }
    ensures steady { IfOk result
        (λ kept. D.faults (disk_of kept) ≡ D.faults (journal_disk journal)) }
    ensures any_moment { (all : List (List ℕ)) → Keeps D.seen D.crash journal all None
        → MatchResult result
        (λ kept. LeavesOnly (D.crash (journal_disk journal)) (D.crash (disk_of kept))
        (IsOneOf all None mark))
        (λ e. LeavesOnly (D.crash (journal_disk journal)) (D.crash e.0) (IsOneOf all None mark)) }
{
    match journal.append(second) {
        Ok(()) => {
            office.set_edition(Edition::Two);
            Ok(KeptOffice {
                journal,
                office,
                entries: 0,
                notes: 0,
            })
        }
        Err(AppendFault::Full) => unreachable!(),
        Err(AppendFault::DiskFault) => Err((journal.into_disk(), KeepFault::DiskFault)),
    }
}
