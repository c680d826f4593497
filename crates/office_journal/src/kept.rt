//! `KeptOffice`, an office with its journal.
ghost use Rattle.std.specs.Prelude.{◌≤◌, ◌<◌};
ghost use Rattle.std.proofs.Props.{props};
ghost use Rattle.journal_core.specs.Kept.{gate_of};

use desk_traits::Disk;
use journal_core::Journal;
use office_core::Office;

/// An office in memory whose accepted requests are in a journal on a disk. Contracts see the state
/// of the office, the disk, the place of the journal's last gate, and the counts of entries and of
/// disk faults.
///
/// Source: docs/JOURNAL.md; docs/DECISIONS.md, "The kept office and its commands".
#[derive(Drop)]
pub struct KeptOffice<D: Disk> {
    pub(crate) journal: Journal<D>,
    pub(crate) office: Office,
    pub(crate) entries: u64,
    pub(crate) notes: u64,
    // Each draft was opened by an entry, and each entry has a record in the journal.
    pub(crate) ghost begun: { office.state.begun ≤ entries } by { Prim.hlevel props },
    pub(crate) ghost recorded: { entries ≤ gate_of journal } by { Prim.hlevel props },
    pub(crate) ghost within: { gate_of journal < 4294967295 } by { Prim.hlevel props },
}
