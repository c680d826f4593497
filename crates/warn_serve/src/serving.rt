//! The whole service: workers over the doors of a port, who share one office.
ghost use Rattle.std.specs.Prelude.{◌≡◌, ◌≤◌, ◌<◌, ◌+◌, ℕ, List, All, map, vec_len};
ghost use Rattle.warn_serve.specs.Calls.{AnswersCall, LosesCall};
ghost use Rattle.warn_serve.specs.Gathered.{HasDone, IsFresh, IsGathered, end_after, end_with_losses};
ghost use Rattle.warn_serve.specs.Shares.{SharesOut, total_of};
ghost use Rattle.warn_serve.specs.Served.{HasListened, IsServed};

use crate::hiring::{Worker, work_all};
use crate::service::Service;
use crate::workers::WorkerEnd;
use desk_links::{Gate, Port};
use desk_traits::{Clock, Disk, Failed};
use hazard_types::Or;
use office_journal::KeptOffice;
use office_turns::SharedOffice;
use std::alloc::Global;
use std::sync::Wait;
use std::thread::Threads;
use turn_lock::{Pass, TurnLock};
use warn_http::Routes;

/// How a service ended.
#[derive(Clone, Copy, Debug, PartialEq, Eq)]
pub enum ServeEnd {
    /// All links were served, and memory ran out for none of them.
    Done,
    /// The port can't be had, or an accept failed.
    PortFault,
    /// Memory ran out at the start, for a worker, or for a link.
    OutOfMemory,
}

/// Returns `OutOfMemory` if `end` is `Done` and memory ran out for some links, else `end`. `lacks`
/// is the count of these links.
fn end_with_losses(end: ServeEnd, lacks: u64) -> ServeEnd
    ensures { result ≡ end_with_losses end lacks }
{
    match end {
        ServeEnd::Done => {
            if lacks == 0 {
                ServeEnd::Done
            } else {
                ServeEnd::OutOfMemory
            }
        }
        ServeEnd::PortFault => ServeEnd::PortFault,
        ServeEnd::OutOfMemory => ServeEnd::OutOfMemory,
    }
}

/// Returns how the service ended, where `end` is how it ended as far as the workers before this one
/// tell, and `worked` is how this one ended. A failed accept makes it `PortFault`, and links for
/// which memory ran out make `Done` into `OutOfMemory`; otherwise it stays `end`.
fn end_after(end: ServeEnd, worked: WorkerEnd) -> ServeEnd
    ensures { result ≡ end_after end worked }
{
    match worked {
        WorkerEnd::Done(lacks) => end_with_losses(end, lacks),
        WorkerEnd::PortFault => ServeEnd::PortFault,
    }
}

impl<R, D: Disk, C: Clock, G> Service<'_, R, D, C, G> {
    /// Joins the passes of all workers, their rights to take turns at the office, to `pass`, gives
    /// their doors back to the port, and returns how the service ended: `PortFault` if an accept of
    /// a worker failed, else `OutOfMemory` if memory ran out for a link, else `Done`. The workers
    /// must have served their shares of links.
    fn gather<P: Port>(
        &self,
        pass: &mut Pass<SharedOffice<D>>,
        port: &mut P,
        workers: Vec<Worker<SharedOffice<D>, P::Door>>,
    ) -> ServeEnd
        requires lock { pass.old.lock ≡ self.now.lock.now }
        requires done { All (λ w. HasDone (AnswersCall (C.gives self.now.clock.now))
            (LosesCall (C.gives self.now.clock.now))
            pass.old w.share (P.Door.state w.door) w.pass w.end) workers.items }
        requires few { (P.state port.old).returned + total_of (map (λ w. w.share) workers.items)
            ≤ 1000000 }
        ensures shares { pass.new.shares ≡ pass.old.shares + vec_len workers }
        ensures numbers { (P.state port.new).numbers ≡ (P.state port.old).numbers }
        ensures gathered { IsGathered (AnswersCall (C.gives self.now.clock.now))
            (LosesCall (C.gives self.now.clock.now))
            (map (λ w. w.share) workers.items)
            (total_of (map (λ w. w.share) workers.items)) (P.state port.old) (P.state port.new)
            pass.old pass.new result }
    {
        let mut end = ServeEnd::Done;
        for worker in workers {
            let Worker {
                pass: part,
                door,
                end: worked,
                ..
            } = worker;
            self.lock.join(pass, part);
            port.return_door(door);
            end = end_after(end, worked);
        }
        end
    }
}

impl<R: Threads + Wait + Sync, D: Disk + Send, C: Clock + Sync, G: Gate + Sync> Service<
    '_,
    R,
    D,
    C,
    G,
> {
    /// Serves the links of all workers, joins their passes, their rights to take turns at the
    /// office, to `pass`, and gives their doors back to the port. Returns how the service ended:
    /// `PortFault` if an accept failed, else `OutOfMemory` if memory ran out for a link, else
    /// `Done`. The workers must not have served yet.
    fn serve_shares<P: Port>(
        &self,
        pass: &mut Pass<SharedOffice<D>>,
        port: &mut P,
        mut workers: Vec<Worker<SharedOffice<D>, P::Door>>,
    ) -> ServeEnd
        requires lock { pass.old.lock ≡ self.now.lock.now }
        requires fresh { All (λ w. IsFresh pass.old w.pass (P.Door.state w.door) w.share 1000000)
            workers.items }
        requires few { (P.state port.old).returned + total_of (map (λ w. w.share) workers.items)
            ≤ 1000000 }
        ensures shares { pass.new.shares ≡ pass.old.shares + vec_len workers }
        ensures numbers { (P.state port.new).numbers ≡ (P.state port.old).numbers }
        ensures gathered { IsGathered (AnswersCall (C.gives self.now.clock.now))
            (LosesCall (C.gives self.now.clock.now))
            (map (λ w. w.share) workers.items)
            (total_of (map (λ w. w.share) workers.items)) (P.state port.old) (P.state port.new)
            pass.old pass.new result }
    {
        work_all(self, workers.as_mut_slice());
        self.gather(pass, port, workers)
    }

    /// Serves `connections` links (1 to 1,000,000) at the port `number`, with a worker for each of
    /// `workers` doors (1 to 16), and returns how the service ended. If the port can't be had, that
    /// is `PortFault`, or `OutOfMemory` if memory ran out for it, and no link is served. Links of a
    /// worker for which memory runs out are served by nobody, which makes `Done` into
    /// `OutOfMemory`.
    fn serve_port<P: Port>(
        &self,
        pass: &mut Pass<SharedOffice<D>>,
        port: &mut P,
        number: u16,
        workers: usize,
        connections: u64,
    ) -> ServeEnd
        requires lock { pass.old.lock ≡ self.now.lock.now }
        requires shares { pass.old.shares ≡ 1024 }
        requires workers { (1 ≤ workers) × (workers ≤ 16) }
        requires connections { (1 ≤ connections) × (connections ≤ 1000000) }
        requires unused { (P.state port.old).returned ≡ 0 }
        ensures shares { pass.new.shares ≡ 1024 }
        ensures listened { HasListened number (P.state port.old) (P.state port.new) }
        ensures gathered { (given : List ℕ) × IsGathered (AnswersCall (C.gives self.now.clock.now))
            (LosesCall (C.gives self.now.clock.now))
            given connections (P.state port.old) (P.state port.new) pass.old pass.new result
            × SharesOut workers connections given result }
    {
        let doors = match port.listen(number, workers) {
            Ok(doors) => doors.into_vec(),
            Err(Or::No(Failed)) => return ServeEnd::PortFault,
            Err(Or::OutOfMemory) => return ServeEnd::OutOfMemory,
        };
        let (hired, lost) = self.share_out(pass, port, doors, connections);
        let end = self.serve_shares(pass, port, hired);
        end_with_losses(end, lost)
    }
}

/// Serves `connections` links (1 to 1,000,000) at port `number` with `workers` workers (1 to 16)
/// over one office, and returns the office and how the service ended. It ends with `PortFault` if
/// the port can't be had or an accept fails, and otherwise with `OutOfMemory` if memory runs out at
/// the start, so that no link is served, for a worker, whose links nobody serves, or for a link.
/// The port's count of faults has risen only if the end is `PortFault`.
///
/// docs/SERVING.md, and docs/DECISIONS.md, "The server".
pub fn serve<R: Threads + Wait + Sync, D: Disk + Send, P: Port, C: Clock + Sync, G: Gate + Sync>(
    rt: &R,
    alloc: Global,
    kept: KeptOffice<D>,
    port: &mut P,
    number: u16,
    workers: usize,
    connections: u64,
    clock: &C,
    gate: &G,
) -> (KeptOffice<D>, ServeEnd)
    requires workers { (1 ≤ workers) × (workers ≤ 16) }
    requires connections { (1 ≤ connections) × (connections ≤ 1000000) }
    requires unused { (P.state port.old).returned ≡ 0 }
    ensures { IsServed D.Disk (C.gives clock.now) kept result.0 number workers connections
        (P.state port.old) (P.state port.new) result.1 }
{
    let shared = SharedOffice::open(alloc, kept);
    let Ok(routes) = Routes::new(alloc) else {
        return (shared.into_kept(), ServeEnd::OutOfMemory);
    };
    let (lock, mut pass) = match TurnLock::start(alloc, shared) {
        Ok(made) => made,
        Err(shared) => return (shared.into_kept(), ServeEnd::OutOfMemory),
    };
    let service = Service {
        rt,
        alloc,
        lock: &lock,
        routes: &routes,
        clock,
        gate,
    };
    let end = service.serve_port(&mut pass, port, number, workers, connections);
    let closed = lock.close(pass);
    (closed.into_kept(), end)
}
