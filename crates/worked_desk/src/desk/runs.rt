//! Runs of a command over a disk in memory.
use byte_streams::{MemSink, MemSource};
use desk_program::desk_within;
use desk_traits::{MemDisk, SetClock};
use hazard_types::{List, Oom, Text};
use std::alloc::Global;
use worked_lines::words_of;

/// The largest number of bytes of an input.
const LIMIT: usize = 100_000;

/// The largest number of bytes that a read returns.
const PIECE: usize = 4096;

/// The faults of a disk and an output.
#[derive(Clone, Copy, Debug)]
pub struct Faults {
    /// The number of a call of the disk that fails.
    pub failing: Option<u64>,
    /// The number of the last call of the disk that may succeed.
    pub stop: Option<u64>,
    /// What a crash leaves of the disk's writes.
    pub pick: Option<u64>,
    /// The number of a write of the output that fails.
    pub unwritten: Option<u64>,
}

/// No fault.
pub const NO_FAULTS: Faults = Faults {
    failing: None,
    stop: None,
    pick: None,
    unwritten: None,
};

/// The input of a command, and the readings of its clock.
#[derive(Drop)]
pub struct Given {
    pub input: Text,
    pub readings: List<i64>,
}

/// What a command left: its exit status, what it wrote, and its disk.
#[derive(Drop)]
pub struct Run {
    pub status: u8,
    pub text: Text,
    pub disk: MemDisk,
}

/// Returns a list that has only the number `call`, or an empty one for `None`.
fn failing_calls(alloc: Global, call: Option<u64>) -> Result<List<u64>, Oom> {
    let mut failing: List<u64> = List::new(alloc);
    if let Some(call) = call {
        failing.push(call)?;
    }
    Ok(failing)
}

/// Returns a disk in memory with the bytes `file` as its file. `faults` give the call that fails
/// and the last call that may succeed, each `None` if there is none, and the number that chooses
/// what a crash leaves, for which `None` stands for 0. The fault of the output is not read.
fn disk_of(alloc: Global, file: &[u8], faults: &Faults) -> Result<MemDisk, Oom> {
    let failing = failing_calls(alloc, faults.failing)?;
    MemDisk::new(alloc, file, &failing, faults.stop, faults.pick.unwrap_or(0))
}

/// Returns a clock with these readings, in minutes since 2000-01-01 00:00 UTC, or with the reading
/// 0 if there are none.
fn clock_of(alloc: Global, readings: &List<i64>) -> Result<SetClock, Oom> {
    if readings.is_empty() {
        let zero = List::from_slice(alloc, &[0])?;
        return SetClock::new(&zero);
    }
    SetClock::new(readings)
}

/// Runs a command of the desk, the words of `command`, over a disk with the bytes `file` as its
/// file, and returns its exit status, what it wrote, and its disk. `given` has its input, of which
/// at most 100,000 bytes are allowed, and the readings of its clock; without any the clock reads
/// 2000-01-01 00:00 UTC. `faults` are those of the disk and the output.
///
/// # Errors
///
/// Out of memory.
pub fn run_command(
    alloc: Global,
    command: &str,
    given: &Given,
    file: &[u8],
    faults: &Faults,
) -> Result<Run, Oom> {
    let words = words_of(alloc, command)?;
    let none = List::new(alloc);
    let mut source = MemSource::new(alloc, given.input.as_slice(), PIECE, &none)?;
    let unwritten = failing_calls(alloc, faults.unwritten)?;
    let mut sink = MemSink::new(alloc, &unwritten)?;
    let mut clock = clock_of(alloc, &given.readings)?;
    let disk = disk_of(alloc, file, faults)?;
    let ended = desk_within(
        alloc,
        &words,
        &mut source,
        &mut sink,
        disk,
        &mut clock,
        LIMIT,
    );
    Ok(Run {
        status: ended.status,
        text: sink.taken().clone()?,
        disk: ended.disk,
    })
}

/// Returns what the command `export` writes over a disk with the bytes `file` as its file: the
/// texts of the office's products, or a fault. `given` has the readings of the clock.
///
/// # Errors
///
/// Out of memory.
pub fn exported(alloc: Global, given: &Given, file: &[u8]) -> Result<Text, Oom> {
    let run = run_command(alloc, "export", given, file, &NO_FAULTS)?;
    Ok(run.text)
}
