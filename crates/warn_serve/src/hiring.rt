//! Workers, each with a share of the pass and of the links.
ghost use Rattle.std.specs.Prelude.{◌≡◌, ◌≤◌, ◌<◌, ◌+◌, ◌-◌, [], ℕ, All, IfOk, OnErr, OnOk};
ghost use Rattle.std.specs.Prelude.{length, map, slice_index_or, vec_capacity, vec_len};
ghost use Rattle.turn_lock.specs.Passes.{one_share_fewer, one_share_of};
ghost use Rattle.warn_serve.specs.Calls.{AnswersCall, LosesCall};
ghost use Rattle.warn_serve.specs.Gathered.{DoesShare, IsFresh, KeepsWhole, TakesBack};
ghost use Rattle.warn_serve.specs.Shares.{share_at, shares_of, total_of, with_links};
ghost use Rattle.desk_links.specs.Links.{IsUnused};

use crate::service::Service;
use crate::workers::WorkerEnd;
use call_inbox::Inbox;
use desk_links::{Door, Gate, Port};
use desk_traits::{Clock, Disk};
use hazard_types::Oom;
use office_turns::SharedOffice;
use std::sync::Wait;
use std::thread;
use std::thread::Threads;
use turn_lock::{Pass, Storied};

/// A worker: its pass, its door, its inbox, the number of links that it is to serve, and how it
/// ended.
#[derive(Drop)]
pub(crate) struct Worker<T: Storied, Dr> {
    pub(crate) pass: Pass<T>,
    pub(crate) door: Dr,
    pub(crate) inbox: Inbox,
    pub(crate) share: u64,
    pub(crate) end: WorkerEnd,
}

/// Returns the number of links for the next worker: `whole`, and one more if `more` is not 0.
/// `more` is how many workers from this one on get one link more; beside the number it returns how
/// many of those after this one do.
fn share_of(whole: u64, more: u64) -> (u64, u64)
    requires { whole ≤ 1000000 }
    ensures share { result.0 ≡ share_at whole more }
    ensures more { result.1 ≡ more - 1 }
{
    if more == 0 {
        (whole, 0)
    } else {
        (whole + 1, more - 1)
    }
}

impl<R, D: Disk, C, G> Service<'_, R, D, C, G> {
    /// Returns a share of `pass`, the right to take turns at the office, and an empty inbox for one
    /// more worker, and makes room for that worker in `workers`. `pass` must have two shares at
    /// least. If memory runs out, the pass and the workers are as before.
    fn equip<Dr>(
        &self,
        pass: &mut Pass<SharedOffice<D>>,
        workers: &mut Vec<Worker<SharedOffice<D>, Dr>>,
    ) -> Result<(Pass<SharedOffice<D>>, Inbox), Oom>
        requires lock { pass.old.lock ≡ self.now.lock.now }
        requires shares { 1 < pass.old.shares }
        ensures part { IfOk result (λ made. made.0 ≡ one_share_of pass.old) }
        ensures fewer { OnOk result (pass.new ≡ one_share_fewer pass.old) }
        ensures kept { OnErr result (pass.new ≡ pass.old) }
        ensures workers { workers.new.items ≡ workers.old.items }
        ensures room { OnOk result (length workers.new.items < vec_capacity workers.new) }
    {
        workers.reserve(1)?;
        let inbox = Inbox::new(self.alloc)?;
        let part = self.lock.split(pass)?;
        Ok((part, inbox))
    }

    /// Makes a worker for each door, with a share of `pass`, the right to take turns at the office,
    /// and of the links: worker k of W gets the whole part of `connections` / W, and one more if k,
    /// counted from 1, is at most the remainder. If memory runs out for a worker, its door goes
    /// back to the port. Returns the workers, and the number of links that have none.
    pub(crate) fn share_out<P: Port>(
        &self,
        pass: &mut Pass<SharedOffice<D>>,
        port: &mut P,
        doors: Vec<P::Door>,
        connections: u64,
    ) -> (Vec<Worker<SharedOffice<D>, P::Door>>, u64)
        requires lock { pass.old.lock ≡ self.now.lock.now }
        requires some { 0 < vec_len doors }
        requires shares { vec_len doors < pass.old.shares }
        requires connections { connections ≤ 1000000 }
        requires unused { All (λ door. IsUnused (P.Door.state door)) doors.items }
        requires few { (P.state port.old).returned ≤ 1000000 }
        ensures kept { KeepsWhole pass.old pass.new }
        ensures shares { pass.new.shares + vec_len result.0 ≡ pass.old.shares }
        ensures fresh { All (λ w. IsFresh pass.old w.pass (P.Door.state w.door) w.share connections)
            result.0.items }
        ensures total { total_of (map (λ w. w.share) result.0.items) + result.1 ≡ connections }
        ensures even { result.1 ≡ 0 → with_links (map (λ w. w.share) result.0.items)
            ≡ with_links (shares_of (vec_len doors) connections) }
        ensures port { TakesBack (P.state port.old) (P.state port.new) [] }
        ensures steady { (P.state port.new).faults ≤ (P.state port.old).faults }
        ensures numbers { (P.state port.new).numbers ≡ (P.state port.old).numbers }
    {
        let count = doors.len() as u64;
        let whole = connections / count;
        let mut more = connections % count;
        let mut workers = Vec::new(self.alloc);
        let mut lost = 0;
        for door in doors {
            let (share, rest) = share_of(whole, more);
            more = rest;
            let Ok((part, inbox)) = self.equip(pass, &mut workers) else {
                port.return_door(door);
                lost += share;
                continue;
            };
            workers.push_reserved(Worker {
                pass: part,
                door,
                inbox,
                share,
                end: WorkerEnd::Done(0),
            });
        }
        (workers, lost)
    }
}

impl<R: Wait, D: Disk, C: Clock, G: Gate> Service<'_, R, D, C, G> {
    /// Serves the worker's share of links over its door, which must be unused, and sets in
    /// `one.end` how the worker ended.
    fn work<Dr: Door>(&self, one: &mut Worker<SharedOffice<D>, Dr>)
        requires lock { one.old.pass.lock ≡ self.now.lock.now }
        requires few { one.old.share ≤ 1000000 }
        requires none_given { (Dr.state one.old.door).given ≡ 0 }
        requires none_returned { (Dr.state one.old.door).returned ≡ 0 }
        ensures share { one.new.share ≡ one.old.share }
        ensures does { DoesShare (AnswersCall (C.gives self.now.clock.now))
            (LosesCall (C.gives self.now.clock.now)) one.old.share
            (Dr.state one.old.door)
            (Dr.state one.new.door) one.old.pass one.new.pass one.new.end }
    {
        let share = one.share;
        one.end = self.worker(&mut one.pass, &mut one.inbox, &mut one.door, share);
    }
}

/// Serves the share of links of each worker, each in a thread of its own if one can be made, and
/// sets how each worker ended. With more than 16 workers some share a thread.
pub(crate) fn work_all<
    R: Threads + Wait + Sync,
    D: Disk + Send,
    Dr: Door + Send,
    C: Clock + Sync,
    G: Gate + Sync,
>(service: &Service<'_, R, D, C, G>, workers: &mut [Worker<SharedOffice<D>, Dr>])
    requires lock { All (λ w. w.pass.lock ≡ service.now.lock.now) workers.old }
    requires few { All (λ w. w.share ≤ 1000000) workers.old }
    requires none_given { All (λ w. (Dr.state w.door).given ≡ 0) workers.old }
    requires none_returned { All (λ w. (Dr.state w.door).returned ≡ 0) workers.old }
    ensures count { length workers.new ≡ length workers.old }
    ensures share { (i : ℕ) (w : _) → i < length workers.old
        → (slice_index_or workers.new i w).share ≡ (slice_index_or workers.old i w).share }
    ensures does { (i : ℕ) (w : _) → i < length workers.old
        → DoesShare (AnswersCall (C.gives service.now.clock.now))
        (LosesCall (C.gives service.now.clock.now))
        (slice_index_or workers.old i w).share
        (Dr.state (slice_index_or workers.old i w).door)
        (Dr.state (slice_index_or workers.new i w).door)
        (slice_index_or workers.old i w).pass (slice_index_or workers.new i w).pass
        (slice_index_or workers.new i w).end }
{
    let Service {
        rt,
        alloc,
        lock,
        routes,
        clock,
        gate,
    } = *service;
    thread::for_each_mut(
        rt,
        workers,
        16,
        &|_: usize, one: &mut Worker<SharedOffice<D>, Dr>|
            requires { (one.old.pass.lock ≡ lock.now) × (one.old.share ≤ 1000000)
                × ((Dr.state one.old.door).given ≡ 0) × ((Dr.state one.old.door).returned ≡ 0) }
            ensures share { one.new.share ≡ one.old.share }
            ensures does { DoesShare (AnswersCall (C.gives clock.entry.now))
                (LosesCall (C.gives clock.entry.now)) one.old.share
                (Dr.state one.old.door)
                (Dr.state one.new.door) one.old.pass one.new.pass one.new.end }
        {
            let service = Service {
                rt,
                alloc,
                lock,
                routes,
                clock,
                gate,
            };
            service.work(one);
        },
    );
}
