//! The command `serve`.
ghost use Rattle.std.specs.Prelude.{◌≡◌, IfOk, length};
ghost use Rattle.office_journal.specs.Kept.{entries_of, state_of};
ghost use Rattle.desk_commands.specs.Opening.{IsOpened};
ghost use Rattle.serve_command.specs.Serving.{IsServeRun, Serves, WritesServed, summary};
ghost use Rattle.serve_command.specs.Words.{IsServing};

use crate::growing::an_opened_office_keeps_its_history;
use crate::words::Serving;
use byte_streams::Sink;
use desk_commands::{Ended, open};
use desk_links::{Gate, Port};
use desk_traits::{Clock, Disk};
use hazard_types::{List, Oom, Text, write_number};
use office_journal::KeptOffice;
use program_ends::{End, end_at_once, tell};
use std::alloc::Global;
use std::sync::Wait;
use std::thread::Threads;
use warn_serve::{ServeEnd, serve};

/// What a service uses: the runtime, the allocator, and the clock and the hook that its workers
/// share.
#[derive(Drop)]
pub struct Means<'a, R, C, G> {
    pub rt: &'a R,
    pub alloc: Global,
    /// The clock, read in the turn of each call.
    pub clock: &'a C,
    /// The hook called before each call is judged and after it was handled.
    pub gate: &'a G,
}

/// Returns the line `requests R products P` with these numbers, and LF.
#[tactic(auto, unfolding(crate::specs::Serving::summary))]
fn summary(alloc: Global, requests: u64, products: u32) -> Result<Text, Oom>
    ensures { IfOk result (λ text. text ≡ summary requests products) }
{
    let mut text = List::new(alloc);
    text.extend(b"requests ")?;
    write_number(alloc, &mut text, requests as usize)?;
    text.extend(b" products ")?;
    write_number(alloc, &mut text, products as usize)?;
    text.extend(b"\n")?;
    Ok(text)
}

/// Writes the last line of a service and returns the exit status. If `end` is `Done`, the line is
/// `requests R products P`, where R is the number of the requests that the office accepted, and P
/// that of its products. Else, or if memory runs out for that line, it is the line of the fault: of
/// the port or out of memory.
fn write_served<K: Sink, D: Disk>(
    alloc: Global,
    output: &mut K,
    kept: &KeptOffice<D>,
    end: ServeEnd,
) -> u8
    ensures { WritesServed end (summary (entries_of kept.now) (length (state_of kept.now).products))
        (K.outflow output.old) (K.outflow output.new) result }
{
    match end {
        ServeEnd::Done => match summary(alloc, kept.entries(), kept.products()) {
            Ok(line) => tell(output, line.as_slice()),
            Err(Oom) => end_at_once(output, End::OutOfMemory),
        },
        ServeEnd::PortFault => end_at_once(output, End::PortFault),
        ServeEnd::OutOfMemory => end_at_once(output, End::OutOfMemory),
    }
}

/// Serves the office `kept` over the links of `port` until as many links as `serving.connections`
/// were served or a fault ends it. It then writes `requests R products P`, or the line of the
/// fault, and returns the exit status and the disk.
fn serve_office<
    R: Threads + Wait + Sync,
    K: Sink,
    D: Disk + Send,
    P: Port,
    C: Clock + Sync,
    G: Gate + Sync,
>(
    means: &Means<'_, R, C, G>,
    serving: &Serving,
    output: &mut K,
    kept: KeptOffice<D>,
    port: &mut P,
) -> Ended<D>
    requires form { IsServing serving.now }
    requires unused { (P.state port.old).returned ≡ 0 }
    ensures { (disk : D) → IsOpened D.Disk disk kept →
        IsServeRun D.Disk (C.gives means.now.clock.now) serving.now disk result.disk
        (P.state port.old) (P.state port.new) (K.outflow output.old) (K.outflow output.new)
        result.status }
{
    let (kept, end) = serve(
        means.rt,
        means.alloc,
        kept,
        port,
        serving.port,
        usize::from(serving.workers),
        u64::from(serving.connections),
        means.clock,
        means.gate,
    );
    an_opened_office_keeps_its_history(&kept);
    let status = write_served(means.alloc, output, &kept, end);
    Ended {
        status,
        disk: kept.into_disk(),
    }
}

/// Serves the office of the journal on `disk` over the links of `port`, and returns the exit status
/// and the disk. At its end it writes `requests R products P`, or the line of a fault. If no office
/// can be opened, it writes why, and the port is left as it is.
///
/// docs/SERVING.md.
pub fn run_serve<
    R: Threads + Wait + Sync,
    K: Sink,
    D: Disk + Send,
    P: Port,
    C: Clock + Sync,
    G: Gate + Sync,
>(means: &Means<'_, R, C, G>, serving: &Serving, output: &mut K, disk: D, port: &mut P) -> Ended<D>
    requires form { IsServing serving.now }
    requires unused { (P.state port.old).returned ≡ 0 }
    ensures { Serves D.Disk (C.gives means.now.clock.now) serving.now disk result.disk
        (P.state port.old) (P.state port.new) (K.outflow output.old) (K.outflow output.new)
        result.status }
{
    match open(means.alloc, disk) {
        Ok(kept) => serve_office(means, serving, output, kept, port),
        Err((disk, end)) => Ended {
            status: end_at_once(output, end),
            disk,
        },
    }
}
