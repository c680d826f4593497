//! The journal.
ghost use Rattle.std.specs.Prelude.{◌+◌, ◌≤◌, length, IfSome};
ghost use Rattle.std.proofs.Props.{props};

use desk_traits::Disk;

/// A list of bodies in one file of a disk. The file is records, each an open gate `G`, the body's
/// length in four bytes (most significant first) and the body, and after the last of them one byte
/// that is not `G`. Contracts see the disk (`disk_of`), the place of the last gate in bytes from 0
/// (`gate_of`), and which bodies the journal has (`Keeps`).
///
/// Source: docs/JOURNAL.md, "The file, byte by byte".
#[derive(Drop)]
pub struct Journal<D: Disk> {
    pub(crate) disk: D,
    pub(crate) gate: u64,
    pub(crate) unsure: bool,
    ghost within: { IfSome (D.seen disk)
        (λ file. gate + 1 ≤ length file) } by { Prim.hlevel props },
}
