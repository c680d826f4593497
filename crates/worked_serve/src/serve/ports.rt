//! The serving of a port in memory over the office of a journal.
ghost use Rattle.std.specs.Prelude.{◌≡◌, [], All, IfOk};
ghost use Rattle.desk_links.specs.LinkMemory.{IsUntouched};
ghost use Rattle.serve_command.specs.Words.{IsServing};

use crate::memory::{link_of, output_of, serve_port};
use crate::serve::answers::{add_bytes, count_answers};
use crate::serve::gate::HoldingGate;
use crate::serve::given::Given;
use byte_streams::MemSink;
use desk_commands::Ended;
use desk_links::{MemLink, MemPort, Port};
use desk_traits::{MemDisk, SetClock};
use hazard_types::{List, Oom, Text};
use serve_command::{Means, Serving};
use std::alloc::Global;
use std::sync::Wait;
use std::thread::Threads;

/// The bytes that come on each link of a door, and the numbers of its accepts that fail.
#[derive(Drop)]
pub struct DoorGiven {
    pub links: List<Text>,
    pub failing: List<u64>,
}

impl DoorGiven {
    /// Returns a door on which no link comes and no accept fails.
    pub fn new(alloc: Global) -> Self {
        DoorGiven {
            links: List::new(alloc),
            failing: List::new(alloc),
        }
    }
}

/// The largest number of bytes that a read of a link returns.
const PIECE: usize = 4096;

/// Returns the links, in memory and in order, that come on `door`. On each of them the calls with
/// the numbers in `given.broken` fail, from 1, reads and writes counted together.
fn links_of(alloc: Global, given: &Given, door: &DoorGiven) -> Result<List<MemLink>, Oom>
    ensures { IfOk result (All IsUntouched) }
{
    let mut links = List::new(alloc);
    for bytes in door.links.as_slice() {
        links.push(link_of(alloc, bytes.as_slice(), PIECE, &given.broken)?)?;
    }
    Ok(links)
}

/// Returns a port in memory with the doors `doors`, on which nothing was served yet. On each of its
/// links the calls with the numbers in `given.broken` fail, from 1, reads and writes counted
/// together, and of each door the accepts with the numbers that it sets.
fn port_of(alloc: Global, given: &Given, doors: &[DoorGiven]) -> Result<MemPort, Oom>
    ensures { IfOk result (λ port. port.back ≡ []) }
{
    let mut links = List::new(alloc);
    let mut failing = List::new(alloc);
    for door in doors {
        links.push(links_of(alloc, given, door)?)?;
        failing.push(door.failing.clone()?)?;
    }
    MemPort::new(alloc, links, &failing)
}

/// What is printed of each link: the bytes written on it, or the number of answers among them.
#[derive(Clone, Copy, Debug, PartialEq, Eq)]
pub enum Shown {
    Texts,
    Counts,
}

/// Appends, for each door that has taken links back, the line `door of COUNT` with the number of
/// these links. After it comes for each of the links, in the order in which they were taken back,
/// what was written on it (`Texts`), or a line with the number of answers among that (`Counts`).
fn add_links(alloc: Global, answer: &mut String, port: &MemPort, shown: Shown) -> Result<(), Oom> {
    for links in port.links() {
        let count = links.len();
        answer.push_str(format!(in alloc; "door of {count}\n")?.as_str())?;
        for link in links {
            match shown {
                Shown::Texts => add_bytes(answer, link.written().as_slice())?,
                Shown::Counts => {
                    let count = count_answers(link.written());
                    answer.push_str(format!(in alloc; "answers {count}\n")?.as_str())?;
                }
            }
        }
    }
    Ok(())
}

/// Appends a line for each port number at which the port listened, in order.
fn add_numbers(alloc: Global, answer: &mut String, port: &MemPort) -> Result<(), Oom> {
    for number in port.numbers() {
        answer.push_str(format!(in alloc; "listened at {number}\n")?.as_str())?;
    }
    Ok(())
}

/// How the program ended: what it wrote, its exit status, the file of the disk, and the file that a
/// crash leaves.
#[derive(Drop)]
pub struct Ran {
    pub output: Text,
    pub status: u8,
    pub file: Text,
    pub left: Text,
}

impl Ran {
    /// Returns how the program ended. `output` has what it wrote, and `ended` its exit status and
    /// its disk, of which the file and what a crash leaves are taken.
    fn of(output: &MemSink, ended: Ended<MemDisk>) -> Result<Self, Oom> {
        let Ended { status, disk } = ended;
        let output = output.taken().clone()?;
        let file = disk.file().clone()?;
        let left = disk.crashed()?;
        Ok(Ran {
            output,
            status,
            file,
            left,
        })
    }
}

/// Appends what the program wrote, and then the line `status STATUS` with its exit status.
///
/// # Errors
///
/// Out of memory.
pub fn add_output(alloc: Global, answer: &mut String, ran: &Ran) -> Result<(), Oom> {
    add_bytes(answer, ran.output.as_slice())?;
    let status = ran.status;
    answer.push_str(format!(in alloc; "status {status}\n")?.as_str())?;
    Ok(())
}

/// Serves `port` over the disk that `given` sets, and returns how the program ended. `means` has
/// the threads, the clock and the gate of the calls, and `serving` the port number, workers and
/// connections. No link of the port must have been returned before.
///
/// # Errors
///
/// Out of memory.
pub fn serve_given<R: Threads + Wait + Sync, P: Port>(
    means: &Means<'_, R, SetClock, HoldingGate>,
    given: &Given,
    serving: &Serving,
    port: &mut P,
) -> Result<Ran, Oom>
    requires form { IsServing serving.now }
    requires unused { (P.state port.old).returned ≡ 0 }
{
    let mut output = output_of(means.alloc, &List::new(means.alloc))?;
    let disk = given.disk(means.alloc)?;
    let ended = serve_port(means, serving, &mut output, disk, port);
    Ran::of(&output, ended)
}

/// The port after a run, and how the program ended.
#[derive(Drop)]
pub struct PortRun {
    pub port: MemPort,
    pub ran: Ran,
}

/// Serves a port in memory with the doors `doors` over the disk and the clock that `given` sets,
/// and returns the port and how the program ended. The calls pass `gate`, which may hold the first
/// one.
///
/// # Errors
///
/// Out of memory.
pub fn serve_doors<R: Threads + Wait + Sync>(
    rt: &R,
    alloc: Global,
    given: &Given,
    doors: &[DoorGiven],
    serving: &Serving,
    gate: &HoldingGate,
) -> Result<PortRun, Oom>
    requires { IsServing serving.now }
{
    let clock = given.clock(alloc)?;
    let mut port = port_of(alloc, given, doors)?;
    let means = Means {
        rt,
        alloc,
        clock: &clock,
        gate,
    };
    let ran = serve_given(&means, given, serving, &mut port)?;
    Ok(PortRun { port, ran })
}

/// Returns what is printed of a run: the port numbers that were listened at, then of each link what
/// `shown` selects, then what the program wrote and its exit status.
///
/// # Errors
///
/// Out of memory.
pub fn port_answer(alloc: Global, run: &PortRun, shown: Shown) -> Result<String, Oom> {
    let mut answer = String::new(alloc);
    add_numbers(alloc, &mut answer, &run.port)?;
    add_links(alloc, &mut answer, &run.port, shown)?;
    add_output(alloc, &mut answer, &run.ran)?;
    Ok(answer)
}
