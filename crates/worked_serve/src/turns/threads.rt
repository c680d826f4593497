//! The threads: one has the turn, and the others wait for theirs.
ghost use Rattle.std.specs.Prelude.{◌≡◌, ◌+◌, ◌<◌, ◌≤◌, vec_len, IfOk};
ghost use Rattle.std.specs.Thread.{IsSync};
ghost use Rattle.worked_serve.specs.Turns.{Adds};

use crate::turns::entries::{Entries, Entry};
use crate::turns::jobs::{Add, Hold};
use hazard_types::Oom;
use std::alloc::Global;
use std::sync::Wait;
use std::thread::{Parker, Threads, join};
use std::time::{Clock, Duration};
use turn_lock::{Pass, TurnLock};

/// The largest number of threads that wait. A whole pass has more shares.
pub const MOST_WAITING: u32 = 1000;

/// Takes a turn at the list in `lock` that lasts `time`, adds the entry `Held` in it, and returns
/// the pass. At the beginning of the turn it lets the thread that is parked on `begun` go on.
/// `pass`, which gives the right to turns, must be of this lock.
fn hold<R: Wait + Clock>(
    rt: &R,
    lock: &TurnLock<Entries>,
    mut pass: Pass<Entries>,
    begun: &Parker,
    time: Duration,
) -> Result<Pass<Entries>, Oom>
    requires { pass.lock ≡ lock.now }
    ensures { IfOk result (λ after. Adds 1 pass after) }
{
    lock.turn(rt, &mut pass, Hold { rt, begun, time })?;
    Ok(pass)
}

/// Waits for a turn at the list in `lock`, adds the entry `Waited` in it, and returns the pass.
/// `pass`, which gives the right to turns, must be of this lock.
fn wait<R: Wait>(
    rt: &R,
    lock: &TurnLock<Entries>,
    mut pass: Pass<Entries>,
) -> Result<Pass<Entries>, Oom>
    requires { pass.lock ≡ lock.now }
    ensures { IfOk result (λ after. Adds 1 pass after) }
{
    lock.turn(rt, &mut pass, Add)?;
    Ok(pass)
}

/// Runs `waiting` threads that each wait for a turn at the list in `lock` and add an entry, and
/// returns the pass, which has seen what all added. `pass`, which gives the right to turns, is of
/// this lock, and must have more shares than there are threads, of which each gets one.
fn wait_each<R: Threads + Wait + Sync>(
    rt: &R,
    lock: &TurnLock<Entries>,
    mut pass: Pass<Entries>,
    waiting: u32,
) -> Result<Pass<Entries>, Oom>
    requires lock { pass.lock ≡ lock.now }
    requires shares { waiting < pass.shares }
    ensures { IfOk result (λ after. Adds waiting pass after) }
{
    if waiting == 0 {
        return Ok(pass);
    }
    let other = lock.split(&mut pass)?;
    let left = waiting - 1;
    let (one, others) = join(
        rt,
        || -> Result<Pass<Entries>, Oom>
            requires { other.lock ≡ lock.now }
            ensures { IfOk result (λ after. Adds 1 other after) }
        { wait(rt, lock, other) },
        || -> Result<Pass<Entries>, Oom>
            requires { IsSync R.row × (pass.lock ≡ lock.now) × (left < pass.shares) }
            ensures { IfOk result (λ after. Adds left pass after) }
        { wait_each(rt, lock, pass, left) },
    );
    let mut whole = others?;
    lock.join(&mut whole, one?);
    Ok(whole)
}

/// Returns the entries, in the order of the turns, of one thread that has the turn for `time`, and
/// of `waiting` threads, at most 1,000, that wait for their turns meanwhile.
///
/// # Errors
///
/// Out of memory.
pub fn take_turns<R: Threads + Wait + Clock + Sync>(
    rt: &R,
    alloc: Global,
    waiting: u32,
    time: Duration,
) -> Result<Vec<Entry>, Oom>
    requires { waiting ≤ MOST_WAITING }
    ensures { IfOk result (λ entries. vec_len entries ≡ waiting + 1) }
{
    let Ok((lock, mut pass)) = TurnLock::start(alloc, Entries::new(alloc)) else {
        return Err(Oom);
    };
    let shared = &lock;
    let begun = Parker::new();
    let holds = &begun;
    let other = lock.split(&mut pass)?;
    let (one, others) = join(
        rt,
        || -> Result<Pass<Entries>, Oom>
            requires { other.lock ≡ shared.now }
            ensures { IfOk result (λ after. Adds 1 other after) }
        { hold(rt, shared, other, holds, time) },
        || -> Result<Pass<Entries>, Oom>
            requires { IsSync R.row × (pass.lock ≡ shared.now) × (waiting < pass.shares) }
            ensures { IfOk result (λ after. Adds waiting pass after) }
        {
            holds.park(rt);
            wait_each(rt, shared, pass, waiting)
        },
    );
    let mut whole = others?;
    lock.join(&mut whole, one?);
    let Entries { items } = lock.close(whole);
    Ok(items)
}
