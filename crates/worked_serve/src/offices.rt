//! The calls of an office whose contracts are long: functions of one call each, with no more
//! clauses than a caller here needs.
ghost use Rattle.std.specs.Prelude.{◌≡◌, IfSome};
ghost use Rattle.serve_command.specs.Words.{IsServing};
ghost use Rattle.turn_lock.specs.Passes.{KeepsRights};

use byte_streams::Sink;
use desk_commands::Ended;
use desk_links::{Gate, Link, OpenGate, Port};
use desk_traits::{Clock, Disk};
use hazard_types::Oom;
use office_journal::KeptOffice;
use office_turns::SharedOffice;
use serve_command::{Means, Serving, run_serve};
use std::alloc::Global;
use std::sync::Wait;
use std::thread::Threads;
use turn_lock::{Pass, TurnLock};
use warn_serve::{self, LinkEnd};

/// Creates a new office with `settings`, the text of its settings' file, on a disk, and returns the
/// disk, which then has its journal. `None` if the office was not created: the disk is not fresh,
/// the settings have a fault, a call of the disk fails, or memory runs out.
pub fn created<D: Disk + Drop>(alloc: Global, disk: D, settings: &[u8]) -> Option<D> {
    match KeptOffice::create(alloc, disk, settings) {
        Ok(kept) => Some(kept.into_disk()),
        Err(_refused) => None,
    }
}

/// Returns the office of the journal on a disk. `None` if the disk has no office's journal, a call
/// of the disk fails, or memory runs out.
fn opened<D: Disk + Drop>(alloc: Global, disk: D) -> Option<KeptOffice<D>> {
    match KeptOffice::adopt(alloc, disk) {
        Ok(kept) => Some(kept),
        Err(_refused) => None,
    }
}

/// Returns the number of requests that the office on a disk has accepted. `None` if the disk has no
/// office's journal, a call of the disk fails, or memory runs out.
pub fn requests_in<D: Disk + Drop>(alloc: Global, disk: D) -> Option<u64> {
    Some(opened(alloc, disk)?.entries())
}

/// Returns a lock over an office, at which threads take turns, and a pass for its turns with all of
/// its 1,024 shares. `None` if memory runs out.
fn started<D: Disk + Drop>(
    alloc: Global,
    kept: KeptOffice<D>,
) -> Option<(TurnLock<SharedOffice<D>>, Pass<SharedOffice<D>>)>
    ensures lock { IfSome result (λ made. made.1.lock ≡ made.0) }
    ensures shares { IfSome result (λ made. made.1.shares ≡ 1024) }
{
    match TurnLock::start(alloc, SharedOffice::open(alloc, kept)) {
        Ok(made) => Some(made),
        Err(_shared) => None,
    }
}

/// Serves the calls on a link by the office that is in `lock`, and returns how the link ended.
/// `pass`, which gives the right to turns, must be of this lock; it keeps its shares.
fn served<R: Wait, D: Disk, L: Link, C: Clock>(
    rt: &R,
    alloc: Global,
    lock: &TurnLock<SharedOffice<D>>,
    pass: &mut Pass<SharedOffice<D>>,
    link: &mut L,
    clock: &C,
) -> LinkEnd
    requires { pass.old.lock ≡ lock.now }
    ensures { KeepsRights pass.old pass.new }
{
    warn_serve::serve_link(rt, alloc, lock, pass, link, clock, &OpenGate)
}

/// Ends a lock and returns the office in it. `pass`, which gives the right to turns, must be of
/// this lock and have all of its 1,024 shares.
fn closed<D: Disk>(lock: TurnLock<SharedOffice<D>>, pass: Pass<SharedOffice<D>>) -> KeptOffice<D>
    requires lock { pass.lock ≡ lock }
    requires shares { pass.shares ≡ 1024 }
{
    lock.close(pass).into_kept()
}

/// Serves the calls on a link by the office `kept`, and returns the office and how the link ended.
/// `None` if memory runs out before the first call.
fn serve_one<R: Wait, D: Disk + Drop, L: Link, C: Clock>(
    rt: &R,
    alloc: Global,
    kept: KeptOffice<D>,
    link: &mut L,
    clock: &C,
) -> Option<(KeptOffice<D>, LinkEnd)> {
    let (lock, mut pass) = started(alloc, kept)?;
    let end = served(rt, alloc, &lock, &mut pass, link, clock);
    Some((closed(lock, pass), end))
}

/// What the serving of a link left: how the link ended, the number of requests of the office, and
/// its disk.
#[derive(Drop)]
pub struct Left<D> {
    pub end: LinkEnd,
    pub requests: u64,
    pub disk: D,
}

/// Opens the office of the journal on a disk and serves the calls on a link by it. Returns how the
/// link ended, how many requests the office has accepted since its journal was made, and the disk.
/// `None` if the office could not be opened: the disk has no office's journal, a call of the disk
/// fails, or memory runs out. `Err` if the office was opened, but memory runs out for the lock over
/// it; then nothing is served.
///
/// # Errors
///
/// Out of memory.
pub fn serve_link<R: Wait, D: Disk + Drop, L: Link, C: Clock>(
    rt: &R,
    alloc: Global,
    disk: D,
    link: &mut L,
    clock: &C,
) -> Result<Option<Left<D>>, Oom> {
    let Some(kept) = opened(alloc, disk) else {
        return Ok(None);
    };
    let Some((kept, end)) = serve_one(rt, alloc, kept, link, clock) else {
        return Err(Oom);
    };
    Ok(Some(Left {
        end,
        requests: kept.entries(),
        disk: kept.into_disk(),
    }))
}

/// Serves a port by the office on a disk, as the command `serve` does, and returns the exit status
/// and the disk. `means` has the threads, the memory, the clock and the gate that the calls pass,
/// `serving` the port number and the numbers of workers and connections, and `output` gets what the
/// program writes. No link of the port must have been returned before.
pub fn serve_port<
    R: Threads + Wait + Sync,
    K: Sink,
    D: Disk + Send,
    P: Port,
    C: Clock + Sync,
    G: Gate + Sync,
>(means: &Means<'_, R, C, G>, serving: &Serving, output: &mut K, disk: D, port: &mut P) -> Ended<D>
    requires form { IsServing serving.now }
    requires unused { (P.state port.old).returned ≡ 0 }
{
    run_serve(means, serving, output, disk, port)
}
