//! Makes, opens and closes a journal.
ghost use Rattle.std.specs.Prelude.{◌≡◌, ◌⊎◌, ◌+◌, ◌<◌, ◌≤◌, ◌↔◌, ℕ, List, None, Some, [], ◌∷◌, length, IfOk, IfErr, OnOk, MatchResult, IsTrue};
ghost use Rattle.desk_traits.specs.Crash.{LeavesOnly};
ghost use Rattle.desk_traits.specs.Faults.{HasCause, Rose};
ghost use Rattle.desk_traits.specs.File.{Only};
ghost use Rattle.journal_core.specs.Image.{records, Image, Fresh};
ghost use Rattle.journal_core.specs.Written.{with_record};
ghost use Rattle.journal_core.specs.Kept.{disk_of, gate_of, Keeps};
ghost use Rattle.journal_core.specs.Create.{IsMaking};
ghost use Rattle.journal_core.specs.Adopt.{DamagedAt, Settles};

use crate::adopt::{Found, ReadFault, find};
use crate::create::{Start, look, make};
use crate::faults::{AdoptFault, CreateFault};
use crate::journal::Journal;
use crate::packet::Packet;
use desk_traits::{Disk, Failed};
use hazard_types::{List, Text};
use std::alloc::Global;

impl<D: Disk> Journal<D> {
    /// Whether a journal may be made in the file: it has at most one byte, or starts with `.`.
    /// Syncs the disk and writes nothing.
    ///
    /// # Errors
    ///
    /// `Failed` if a call of the disk failed; its count of faults rose.
    pub fn is_fresh(disk: &mut D) -> Result<bool, Failed>
        ensures seen { D.seen disk.new ≡ D.seen disk.old }
        ensures told { (file : List ℕ) → D.seen disk.old ≡ Some file → IfOk result
            (λ fresh. IsTrue fresh ↔ Fresh file) }

        // A crash since the start of the call leaves what one at the start might have left.
        ensures untouched { LeavesOnly (D.crash disk.old) (D.crash disk.new)
            (D.crash disk.old).may_leave }

        // The disk failed in this call.
        ensures cause { HasCause (D.faults disk.old) (D.faults disk.new) result }

        // In every other case the count of faults is as before.
        ensures steady { OnOk result (D.faults disk.new ≡ D.faults disk.old) }
    {
        match look(disk)? {
            Start::Other => Ok(false),
            Start::Begun | Start::Short => Ok(true),
        }
    }

    /// Returns a journal of one body, which is made on a disk whose file is fresh: it has at most
    /// one byte, or starts with `.`.
    ///
    /// # Errors
    ///
    /// The disk comes back with the fault. `NotFresh` if its file was not fresh; the file is as
    /// before. `DiskFault` if a call of the disk failed; a crash then leaves what it might have
    /// left before the call, or a file that is being made.
    ///
    /// Source: docs/JOURNAL.md, "How it is written".
    pub fn create(mut disk: D, body: &Packet) -> Result<Journal<D>, (D, CreateFault)>

        // The file was fresh, and on the disk the journal has this body alone.
        ensures fresh { (file : List ℕ) → D.seen disk ≡ Some file → OnOk result (Fresh file) }
        ensures ok { (file : List ℕ) → D.seen disk ≡ Some file
            → IfOk result
            (λ journal. Keeps D.seen D.crash journal (body.now ∷ []) None
            × Only (D.seen (disk_of journal)) (D.crash (disk_of journal)).may_leave) }

        // The record is at the start of the file, with a closed gate after it, and no other byte is
        // changed.
        ensures written { (file : List ℕ) → D.seen disk ≡ Some file → IfOk result
            (λ journal. D.seen (disk_of journal) ≡ Some (with_record 0 body.now file)) }

        // The last gate is after that record.
        ensures gate { IfOk result (λ journal. gate_of journal ≡ length body.now + 5) }

        // The file was not fresh, and is as before.
        ensures not_fresh { (file : List ℕ) → D.seen disk ≡ Some file → IfErr result
            (λ e. e.1 ≡ CreateFault.NotFresh → (Fresh file → ⊥)) }
        ensures same { IfErr result (λ e. e.1 ≡ CreateFault.NotFresh → D.seen e.0 ≡ D.seen disk) }

        ensures untouched { IfErr result
            (λ e. e.1 ≡ CreateFault.NotFresh
            → LeavesOnly (D.crash disk) (D.crash e.0) (D.crash disk).may_leave) }

        // The disk failed in this call.
        ensures cause { IfErr result
            (λ e. e.1 ≡ CreateFault.DiskFault → Rose (D.faults disk) (D.faults e.0)) }
        ensures later { MatchResult result (λ journal. D.faults disk ≤ D.faults (disk_of journal))
            (λ e. D.faults disk ≤ D.faults e.0) }

        // In every other case the count of faults is as before.
        ensures steady { MatchResult result
            (λ journal. D.faults (disk_of journal) ≡ D.faults disk)
            (λ e. e.1 ≡ CreateFault.NotFresh → D.faults e.0 ≡ D.faults disk) }

        // A crash at any moment of the call leaves what one at its start might have left, or a file
        // that is being made.
        ensures any_moment { (file : List ℕ) → D.seen disk ≡ Some file
            → MatchResult result
            (λ journal. LeavesOnly (D.crash disk) (D.crash (disk_of journal))
            (λ c. (D.crash disk).may_leave c ⊎ IsMaking body.now c))
            (λ e. LeavesOnly (D.crash disk) (D.crash e.0)
            (λ c. (D.crash disk).may_leave c ⊎ IsMaking body.now c)) }
    {
        let length = body.len();
        match make(&mut disk, body) {
            Err(_) => Err((disk, CreateFault::DiskFault)),
            Ok(false) => Err((disk, CreateFault::NotFresh)),
            Ok(true) => Ok(Journal {
                disk,
                gate: length as u64 + 5,
                unsure: false,
            }),
        }
    }

    /// Opens the journal in the file of a disk and returns its bodies, in order. Syncs the disk and
    /// writes nothing.
    ///
    /// # Errors
    ///
    /// The disk, whose file is as before, comes back with the fault. `Fresh` if no journal has been
    /// made yet, `Damaged` with a place in bytes from 0 if the file is no journal, `DiskFault` if a
    /// call of the disk failed, and `OutOfMemory`.
    ///
    /// Source: docs/JOURNAL.md, "What is a journal, and what is not".
    pub fn adopt(alloc: Global, mut disk: D) -> Result<(Journal<D>, List<Text>), (D, AdoptFault)>

        // The file is an image of exactly these bodies, all of it is synced, and nothing is
        // pending.
        ensures ok { (file : List ℕ) → D.seen disk ≡ Some file
            → IfOk result
            (λ r. Image file r.1 × Keeps D.seen D.crash r.0 r.1 None
            × Only (D.seen (disk_of r.0)) (D.crash (disk_of r.0)).may_leave) }

        // The last gate is after the records of these bodies, of which there is at least one.
        ensures gate { IfOk result (λ r. (gate_of r.0 ≡ length (records r.1)) × (0 < length r.1)) }

        ensures fresh { (file : List ℕ) → D.seen disk ≡ Some file → IfErr result
            (λ e. e.1 ≡ AdoptFault.Fresh → Fresh file) }
        ensures damaged { (file : List ℕ) → D.seen disk ≡ Some file → IfErr result
            (λ e. (at : ℕ) → e.1 ≡ AdoptFault.Damaged at → DamagedAt file at) }

        // A crash since the first sync of the call might have left what a read returns, and nothing
        // else.
        ensures settled { (file before : List ℕ) → D.seen disk ≡ Some file
            → D.syncs disk ≡ Some before
            → IfOk result (λ r. Settles D.crash D.syncs before file (disk_of r.0)) }

        // The disk failed in this call.
        ensures cause { IfErr result
            (λ e. e.1 ≡ AdoptFault.DiskFault → Rose (D.faults disk) (D.faults e.0)) }
        ensures later { MatchResult result (λ r. D.faults disk ≤ D.faults (disk_of r.0))
            (λ e. D.faults disk ≤ D.faults e.0) }

        // In every other case the count of faults is as before.
        ensures steady { MatchResult result
            (λ r. D.faults (disk_of r.0) ≡ D.faults disk)
            (λ e. (e.1 ≡ AdoptFault.DiskFault → ⊥) → D.faults e.0 ≡ D.faults disk) }

        // In every case a read returns the same as before, and a crash since the start of the call
        // leaves what one at the start might have left.
        ensures seen { MatchResult result (λ r. D.seen (disk_of r.0) ≡ D.seen disk)
            (λ e. D.seen e.0 ≡ D.seen disk) }
        ensures any_moment { MatchResult result
            (λ r. LeavesOnly (D.crash disk) (D.crash (disk_of r.0)) (D.crash disk).may_leave)
            (λ e. LeavesOnly (D.crash disk) (D.crash e.0) (D.crash disk).may_leave) }
    {
        match find(alloc, &mut disk) {
            Err(ReadFault::Failing) => Err((disk, AdoptFault::DiskFault)),
            Err(ReadFault::Memory) => Err((disk, AdoptFault::OutOfMemory)),
            Ok(Found::Unmade) => Err((disk, AdoptFault::Fresh)),
            Ok(Found::Damaged { at }) => Err((disk, AdoptFault::Damaged { at })),
            Ok(Found::Whole { gate, bodies }) => Ok((
                Journal {
                    disk,
                    gate,
                    unsure: false,
                },
                bodies,
            )),
        }
    }

    /// Gives up the journal and returns the disk that has its file.
    pub fn into_disk(self) -> D
        ensures { result ≡ disk_of self }
    {
        let Journal {
            disk,
            gate: _,
            unsure: _,
        } = self;
        disk
    }
}
