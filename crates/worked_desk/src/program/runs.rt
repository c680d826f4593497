//! Runs of the program over a source, a sink and a disk in memory.
use crate::streams::Run;
use byte_streams::{MemSink, MemSource, Sink, Source, SureSink, SureSource};
use desk_program::desk_within;
use desk_traits::{Disk, SetClock, SureDisk};
use hazard_types::{List, Oom, Text};
use program_ends::LIMIT;
use std::alloc::Global;
use worked_lines::{Given, words_of};

/// The number of bytes that a disk has room for.
const ROOM: usize = 200_000;

/// The reading of the clock: 2018-01-03 15:30 UTC, in minutes since 2000-01-01 00:00 UTC.
const MINUTE: i64 = 9_471_810;

/// How a run ended: its exit status, and its disk.
#[derive(Drop)]
pub struct Left {
    pub status: u8,
    pub disk: SureDisk,
}

/// Returns a disk that has room for 200,000 bytes, without a file, and never fails.
///
/// # Errors
///
/// Out of memory.
pub fn new_disk(alloc: Global) -> Result<SureDisk, Oom> {
    SureDisk::new(alloc, ROOM)
}

/// Returns a new disk with the same file, or its first 200,000 bytes if it has more.
///
/// # Errors
///
/// Out of memory.
pub fn copy_of(alloc: Global, disk: &mut SureDisk) -> Result<SureDisk, Oom> {
    let mut copy = new_disk(alloc)?;
    let length = disk.len().unwrap_or(0);
    let length = usize::try_from(length).unwrap_or(0).min(ROOM);
    let mut file = Vec::from_elem(alloc, 0u8, length)?;
    let _read = disk.read_at(0, file.as_mut_slice());
    let _written = copy.write_at(0, file.as_slice());
    Ok(copy)
}

/// Runs the desk's program with the words of a line as arguments, and returns its exit status and
/// its disk. An input of more than `limit` bytes, or than the program's own limit, is too long. The
/// clock reads 2018-01-03 15:30 UTC.
fn end_of<S: Source, K: Sink>(
    alloc: Global,
    line: &str,
    source: &mut S,
    sink: &mut K,
    disk: SureDisk,
    limit: usize,
) -> Result<Left, Oom> {
    let words = words_of(alloc, line)?;
    let minutes = List::from_slice(alloc, &[MINUTE])?;
    let mut clock = SetClock::new(&minutes)?;
    let limit = limit.min(LIMIT);
    let ended = desk_within(alloc, &words, source, sink, disk, &mut clock, limit);
    Ok(Left {
        status: ended.status,
        disk: ended.disk,
    })
}

/// Runs the desk's program over an input that never fails and an output that is dropped, and
/// returns its exit status and its disk. The words of `line` are its arguments.
///
/// # Errors
///
/// Out of memory.
pub fn run_surely(alloc: Global, line: &str, input: &Text, disk: SureDisk) -> Result<Left, Oom> {
    let mut source = SureSource::new(alloc, input.as_slice())?;
    end_of(alloc, line, &mut source, &mut SureSink, disk, LIMIT)
}

/// Runs the desk's program with the words of `line` as arguments, and returns its exit status, what
/// it wrote, and its disk. `given` sets the most bytes of a read, at least 1, the most bytes of the
/// input, at most the program's own limit, and the numbers of the reads and writes that fail.
///
/// # Errors
///
/// Out of memory.
pub fn run_words(
    alloc: Global,
    line: &str,
    input: &Text,
    given: &Given,
    disk: SureDisk,
) -> Result<(Run, SureDisk), Oom> {
    let mut source = MemSource::new(
        alloc,
        input.as_slice(),
        given.piece.max(1),
        &given.bad_reads,
    )?;
    let mut sink = MemSink::new(alloc, &given.bad_writes)?;
    let ended = end_of(alloc, line, &mut source, &mut sink, disk, given.limit)?;
    let text = sink.taken().clone()?;
    let run = Run {
        status: ended.status,
        text,
    };
    Ok((run, ended.disk))
}
