//! Sweeps: the same bytes in pieces of each size, cut at each byte, or over disks that stop after
//! each call.
ghost use Rattle.std.specs.Prelude.{◌≤◌};
ghost use Rattle.serve_command.specs.Words.{IsServing};

use crate::memory::requests_of;
use crate::serve::answers::{count_of, end_name};
use crate::serve::gate::HoldingGate;
use crate::serve::given::Given;
use crate::serve::links::{LinkRun, run_link};
use crate::serve::ports::{DoorGiven, PortRun, serve_doors};
use desk_links::MemPort;
use hazard_types::Oom;
use serve_command::Serving;
use std::alloc::Global;
use std::sync::Wait;
use std::thread::Threads;
use warn_serve::LinkEnd;

/// The states that a crash leaves of the writes since the last sync.
const PICKS: [u64; 6] = [0, 1, 2, 3, 5, 15];

/// The bytes that the reply to an accepted request has, and no other reply.
const ACCEPTED: &[u8] = b"\"ok\":";

/// Whether two links were served alike: they ended alike, and what was written on them and the
/// files of the disks are the same.
fn are_alike(one: &LinkRun, other: &LinkRun) -> bool {
    one.end == other.end
        && one.written.as_slice() == other.written.as_slice()
        && one.file.as_slice() == other.file.as_slice()
}

/// Whether a link on which `bytes` come, at most `piece` of them a read, is served like `whole`,
/// the run in which all of them came in one read. Alike are how the link ends, what is written on
/// it, and the file of the disk. False if the file is no office's journal.
fn is_served_as<R: Wait>(
    rt: &R,
    alloc: Global,
    given: &Given,
    bytes: &[u8],
    piece: usize,
    whole: &LinkRun,
) -> Result<bool, Oom>
    requires { 1 ≤ piece }
{
    Ok(match run_link(rt, alloc, given, bytes, piece)? {
        Some(run) => are_alike(&run, whole),
        None => false,
    })
}

/// Returns how many sizes of reads, from 1 to the number of bytes, give a run that differs from
/// `whole`, the run in which all bytes came in one read. A run differs in how the link ends, in
/// what is written on it, or in the file of the disk.
fn count_others<R: Wait>(
    rt: &R,
    alloc: Global,
    given: &Given,
    bytes: &[u8],
    whole: &LinkRun,
) -> Result<u64, Oom> {
    let mut differ = 0u64;
    for smaller in 0..bytes.len() {
        if !is_served_as(rt, alloc, given, bytes, smaller + 1, whole)? {
            differ = differ.saturating_add(1);
        }
    }
    Ok(differ)
}

/// Serves a link with these bytes once for each size of a read, from 1 to the number of bytes.
/// Returns the line `sizes COUNT, differ COUNT`: the number of the sizes, and how many of them give
/// another end, other answers or another file than a single read of all bytes. The second number is
/// 0 if the file is no office's journal.
///
/// # Errors
///
/// Out of memory.
pub fn sweep_pieces<R: Wait>(
    rt: &R,
    alloc: Global,
    given: &Given,
    bytes: &[u8],
) -> Result<String, Oom> {
    let sizes = bytes.len();
    let differ = match run_link(rt, alloc, given, bytes, usize::MAX)? {
        Some(whole) => count_others(rt, alloc, given, bytes, &whole)?,
        None => 0,
    };
    Ok(format!(in alloc; "sizes {sizes}, differ {differ}\n")?)
}

/// Returns how a link ends on which `bytes` come in one read, or `None` if the file that `given`
/// sets is no office's journal.
fn end_of<R: Wait>(
    rt: &R,
    alloc: Global,
    given: &Given,
    bytes: &[u8],
) -> Result<Option<LinkEnd>, Oom> {
    match run_link(rt, alloc, given, bytes, usize::MAX)? {
        Some(run) => Ok(Some(run.end)),
        None => Ok(None),
    }
}

/// Serves a link with the first 0, 1, .. up to all of the bytes. Returns a line `from COUNT END`
/// for 0 bytes, and for each number of bytes with which the link ends otherwise than with one byte
/// fewer. Returns an empty text if the file is no office's journal.
///
/// # Errors
///
/// Out of memory.
pub fn sweep_ends<R: Wait>(
    rt: &R,
    alloc: Global,
    given: &Given,
    bytes: &[u8],
) -> Result<String, Oom> {
    let mut answer = String::new(alloc);
    let mut last: Option<LinkEnd> = None;
    for count in 0..=bytes.len() {
        let Some(end) = end_of(rt, alloc, given, &bytes[..count])? else {
            return Ok(answer);
        };
        if last != Some(end) {
            let name = end_name(end);
            answer.push_str(format!(in alloc; "from {count} {name}\n")?.as_str())?;
        }
        last = Some(end);
    }
    Ok(answer)
}

/// Returns the number of accepted requests, by the replies that were written on a port's links. A
/// request that was sent twice counts twice.
fn accepted_on(port: &MemPort) -> u64 {
    let mut count = 0u64;
    for links in port.links() {
        for link in links {
            let accepted = count_of(link.written().as_slice(), ACCEPTED);
            count = count.saturating_add(accepted);
        }
    }
    count
}

/// Whether the file that a crash leaves after a run has as many requests as were answered as
/// accepted, or one more. False if the file is no office's journal.
fn crash_leaves_accepted(alloc: Global, run: &PortRun) -> Result<bool, Oom> {
    let Some(left) = requests_of(alloc, run.ran.left.as_slice())? else {
        return Ok(false);
    };
    let accepted = accepted_on(&run.port);
    Ok(accepted <= left && left <= accepted.saturating_add(1))
}

/// Serves the doors, and returns whether the file that a crash then leaves has as many requests as
/// were answered as accepted, or one more.
fn serving_survives_crash<R: Threads + Wait + Sync>(
    rt: &R,
    alloc: Global,
    given: &Given,
    doors: &[DoorGiven],
    serving: &Serving,
) -> Result<bool, Oom>
    requires { IsServing serving.now }
{
    let gate = HoldingGate::new(false);
    let run = serve_doors(rt, alloc, given, doors, serving, &gate)?;
    crash_leaves_accepted(alloc, &run)
}

/// Serves the doors over disks that stop after each of the first `calls` calls, once for each of
/// six states that a crash may leave. Returns the line `crashes COUNT, differ COUNT`: the number of
/// runs, and how many are wrong. A run is right if the file that the crash leaves has as many
/// requests as were answered as accepted, or one more.
///
/// # Errors
///
/// Out of memory.
pub fn sweep_crashes<R: Threads + Wait + Sync>(
    rt: &R,
    alloc: Global,
    given: &Given,
    doors: &[DoorGiven],
    serving: &Serving,
    calls: u64,
) -> Result<String, Oom>
    requires { IsServing serving.now }
{
    let mut runs = 0u64;
    let mut differ = 0u64;
    for call in 1..=calls {
        for pick in PICKS {
            let stopping = given.stopping(call, pick)?;
            runs = runs.saturating_add(1);
            if !serving_survives_crash(rt, alloc, &stopping, doors, serving)? {
                differ = differ.saturating_add(1);
            }
        }
    }
    Ok(format!(in alloc; "crashes {runs}, differ {differ}\n")?)
}
