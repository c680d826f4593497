//! What happens to an office over its journal.
use desk_traits::Disk;
use office_core::Prepared;
use office_journal::KeptOffice;
use std::snapshot::Snapshot;

/// What happened to an office: an entry was added to its journal, or the disk failed under one.
/// Contracts know by the snapshots what was prepared, and of an entry the office as its request was
/// answered. A value takes a byte.
#[derive(Drop)]
pub enum Happening<D: Disk> {
    Entry(Snapshot<Prepared>, Snapshot<KeptOffice<D>>),
    Fault(Snapshot<Prepared>),
}
