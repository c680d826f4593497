//! Disks, clocks, links and outputs in memory, and the serving of an office over them: functions of
//! one call each, with no more clauses than a row needs.
ghost use Rattle.std.specs.Prelude.{◌≡◌, ◌<◌, ◌≤◌, length, IfOk};
ghost use Rattle.desk_links.specs.LinkMemory.{IsUntouched};
ghost use Rattle.serve_command.specs.Words.{IsServing};

use crate::offices::{self, Left, created, requests_in};
use byte_streams::MemSink;
use desk_commands::Ended;
use desk_links::{Gate, MemLink, Port};
use desk_traits::{MemDisk, SetClock};
use hazard_types::{List, Oom, Text};
use serve_command::{Means, Serving};
use std::alloc::Global;
use std::sync::Wait;
use std::thread::Threads;

/// Returns a disk in memory with this file, on which no call fails.
///
/// # Errors
///
/// Out of memory.
pub fn disk_of(alloc: Global, file: &[u8]) -> Result<MemDisk, Oom> {
    MemDisk::new(alloc, file, &List::new(alloc), None, 0)
}

/// Returns a clock with these readings, in order, in minutes since 2000-01-01 00:00 UTC; the last
/// is repeated. There must be one at least.
///
/// # Errors
///
/// Out of memory.
pub fn clock_of(readings: &List<i64>) -> Result<SetClock, Oom>
    requires { 0 < length readings.now }
{
    SetClock::new(readings)
}

/// Returns a link in memory on which these bytes come, at most `piece` of them a read. `failing`
/// are the numbers, from 1, of its calls that fail, reads and writes counted together.
///
/// # Errors
///
/// Out of memory.
pub fn link_of(
    alloc: Global,
    bytes: &[u8],
    piece: usize,
    failing: &List<u64>,
) -> Result<MemLink, Oom>
    requires { 1 ≤ piece }
    ensures { IfOk result IsUntouched }
{
    let link = MemLink::new(alloc, bytes, piece, failing)?;
    Ok(link)
}

/// Returns an output in memory on which the writes with the numbers in `failing`, from 1, fail.
///
/// # Errors
///
/// Out of memory.
pub fn output_of(alloc: Global, failing: &List<u64>) -> Result<MemSink, Oom> {
    MemSink::new(alloc, failing)
}

/// Returns the journal of a new office that this call creates on a disk, with `settings`, the text
/// of its settings' file. `None` if the office was not created, as on a disk that is not fresh or
/// with settings that have a fault.
///
/// # Errors
///
/// Out of memory.
pub fn journal_of(alloc: Global, disk: MemDisk, settings: &[u8]) -> Result<Option<Text>, Oom> {
    match created(alloc, disk, settings) {
        Some(disk) => Ok(Some(disk.file().clone()?)),
        None => Ok(None),
    }
}

/// Returns the number of requests that the office with this journal has accepted. `None` if the
/// bytes are no office's journal, or memory runs out while they are read.
///
/// # Errors
///
/// Out of memory.
pub fn requests_of(alloc: Global, journal: &[u8]) -> Result<Option<u64>, Oom> {
    Ok(requests_in(alloc, disk_of(alloc, journal)?))
}

/// Serves the calls on a link by the office on a disk, and returns how the link ended, the number
/// of requests of the office, and the disk. `None` if no office can be opened: the disk has no
/// office's journal, or while it is opened a call of the disk fails or memory runs out.
///
/// # Errors
///
/// Out of memory.
pub fn serve_link<R: Wait>(
    rt: &R,
    alloc: Global,
    disk: MemDisk,
    link: &mut MemLink,
    clock: &SetClock,
) -> Result<Option<Left<MemDisk>>, Oom> {
    offices::serve_link(rt, alloc, disk, link, clock)
}

/// Serves a port by the office on a disk, as the command `serve` does, and returns the exit status
/// and the disk. `means` has the threads, the memory, the clock and the gate that the calls pass,
/// `serving` the port number and the numbers of workers and connections, and `output` gets what the
/// program writes. No link of the port must have been returned before.
pub fn serve_port<R: Threads + Wait + Sync, P: Port, G: Gate + Sync>(
    means: &Means<'_, R, SetClock, G>,
    serving: &Serving,
    output: &mut MemSink,
    disk: MemDisk,
    port: &mut P,
) -> Ended<MemDisk>
    requires form { IsServing serving.now }
    requires unused { (P.state port.old).returned ≡ 0 }
{
    offices::serve_port(means, serving, output, disk, port)
}
