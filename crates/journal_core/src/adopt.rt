//! Reads a journal from a disk, record by record.
ghost use Rattle.std.specs.Prelude.{◌≡◌, ◌+◌, ◌<◌, ℕ, List, Some, length, IfOk, OnOk};
ghost use Rattle.std.specs.Int.{w32, to_be_bytes, from_be_bytes};
ghost use Rattle.desk_traits.specs.Crash.{Passes};
ghost use Rattle.desk_traits.specs.File.{Same, IsLength};
ghost use Rattle.journal_core.specs.declared.adopt.ReadFault.TheVariants.{Failing, Memory};

use crate::create::{Start, look};
use desk_traits::{Disk, Failed};
use hazard_types::{List, Oom, Text};
use std::alloc::{AllocError, Global};

/// Why reading stopped: the disk failed, or memory ran out.
#[derive(Clone, Copy, Debug, PartialEq, Eq)]
pub(crate) enum ReadFault {
    Failing,
    Memory,
}

impl From<Failed> for ReadFault {
    ghost from_gives = { λ _ e. e ≡ Failing };

    fn from(_: Failed) -> Self {
        ReadFault::Failing
    }
}

impl From<Oom> for ReadFault {
    ghost from_gives = { λ _ e. e ≡ Memory };

    fn from(_: Oom) -> Self {
        ReadFault::Memory
    }
}

impl From<AllocError> for ReadFault {
    ghost from_gives = { λ _ e. e ≡ Memory };

    fn from(_: AllocError) -> Self {
        ReadFault::Memory
    }
}

/// What is at a gate: an open gate and a whole record with a byte after it (`Body`), a gate that is
/// not open (`Shut`), or an open gate without such a record (`Cut`).
#[derive(Debug, Drop)]
pub(crate) enum Step {
    Body(Text),
    Shut,
    Cut,
}

/// What the whole file is. `gate` and `at` are places in bytes from 0.
#[derive(Debug, Drop)]
pub(crate) enum Found {
    Whole { gate: u64, bodies: List<Text> },
    Damaged { at: u64 },
    Unmade,
}

ghost use Rattle.journal_core.specs.Image.{Fresh};
ghost use Rattle.journal_core.specs.Adopt.{Counts, Steps, Ends, IsFound, IsGated, Settles};

/// Returns the length in bytes of a record's body, which `head`, the four bytes after its gate,
/// write with the most significant byte first.
fn body_length_of(head: [u8; 4]) -> u32
    ensures value { result ≡ from_be_bytes w32 head }
    ensures back { to_be_bytes w32 result ≡ head }
{
    u32::from_be_bytes(head)
}

/// Returns what is at byte `at`, from 0, of a file of `n` bytes: the body of a whole record with a
/// byte after it, a gate that is not `G` (`Shut`), or a gate `G` without such a record (`Cut`).
/// `at` is below `n`. Errs if a call of the disk fails or memory runs out.
fn read_record<D: Disk>(alloc: Global, disk: &mut D, at: u64, n: u64) -> Result<Step, ReadFault>
    requires place { at < n }
    requires length { IsLength n (D.seen disk.old) }
    ensures seen { D.seen disk.new ≡ D.seen disk.old }
    ensures syncs { D.syncs disk.new ≡ D.syncs disk.old }
    ensures step { IfOk result (λ step. Steps at step (D.seen disk.old)) }
    ensures bound { IfOk result (λ step. Ends at n step) }
    ensures crash { Passes Same (D.crash disk.old) (D.crash disk.new) }
    ensures faults { Counts (D.faults disk.old) (D.faults disk.new) result }
{
    let mut gate = [0; 1];
    disk.read_at(at, &mut gate)?;
    if gate[0] != b'G' {
        return Ok(Step::Shut);
    }
    if n - at < 6 {
        return Ok(Step::Cut);
    }
    let mut head = [0; 4];
    disk.read_at(at + 1, &mut head)?;
    let size = body_length_of(head);
    if n - at - 6 < u64::from(size) {
        return Ok(Step::Cut);
    }
    let mut body = vec![in alloc; 0; size as usize]?;
    disk.read_at(at + 5, &mut body)?;
    Ok(Step::Body(List::from_vec(body)))
}

/// Returns what a file of `n` bytes that is not fresh is. It is `Whole`, with its bodies in order
/// and the byte of its last gate, if it is a journal, else `Damaged` at the byte of the first gate
/// `G` whose record is cut short or has no byte after it, or at 0 if it does not start with `G`.
/// Bytes count from 0; it errs if a call of the disk fails or memory runs out.
fn scan<D: Disk>(alloc: Global, disk: &mut D, n: u64) -> Result<Found, ReadFault>
    requires { IsLength n (D.seen disk.old) }
    ensures seen { D.seen disk.new ≡ D.seen disk.old }
    ensures syncs { D.syncs disk.new ≡ D.syncs disk.old }
    ensures found { (file : List ℕ) → D.seen disk.old ≡ Some file → (Fresh file → ⊥) → IfOk result
        (λ found. IsFound found file) }
    ensures gate { IfOk result IsGated }
    ensures crash { Passes Same (D.crash disk.old) (D.crash disk.new) }
    ensures faults { Counts (D.faults disk.old) (D.faults disk.new) result }
{
    let mut bodies: List<Text> = List::new(alloc);
    let mut at: u64 = 0;
    while at < n {
        match read_record(alloc, disk, at, n)? {
            Step::Cut => return Ok(Found::Damaged { at }),
            Step::Shut => {
                if at == 0 {
                    return Ok(Found::Damaged { at });
                }
                return Ok(Found::Whole { gate: at, bodies });
            }
            Step::Body(body) => {
                at += 5 + body.len() as u64;
                bodies.push(body)?;
            }
        }
    }
    Ok(Found::Damaged { at })
}

/// Syncs the disk, writes nothing, and returns what its file is: `Unmade` if it is fresh (it has at
/// most one byte, or starts with `.`), or `Whole`, with the bodies in order and the byte of the
/// last gate, if it is a journal. Else it is `Damaged` at the byte of the first gate `G` whose
/// record is cut short or has no byte after it, or at 0 if the file does not start with `G`. Bytes
/// count from 0; it errs if a call of the disk fails or memory runs out.
pub(crate) fn find<D: Disk>(alloc: Global, disk: &mut D) -> Result<Found, ReadFault>
    ensures seen { D.seen disk.new ≡ D.seen disk.old }
    ensures found { (file : List ℕ) → D.seen disk.old ≡ Some file → IfOk result
        (λ found. IsFound found file) }
    ensures gate { IfOk result IsGated }
    ensures durable { (file : List ℕ) → D.seen disk.old ≡ Some file
        → OnOk result ((c : List ℕ) → (D.crash disk.new).may_leave c → c ≡ file) }
    ensures settled { (file before : List ℕ) → D.seen disk.old ≡ Some file
        → D.syncs disk.old ≡ Some before
        → OnOk result (Settles D.crash D.syncs before file disk.new) }
    ensures crash { Passes Same (D.crash disk.old) (D.crash disk.new) }
    ensures faults { Counts (D.faults disk.old) (D.faults disk.new) result }
{
    match look(disk)? {
        Start::Short => Ok(Found::Unmade),
        Start::Begun => Ok(Found::Unmade),
        Start::Other => {
            let n = disk.len()?;
            scan(alloc, disk, n)
        }
    }
}
