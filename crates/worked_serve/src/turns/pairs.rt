//! Two threads that add to one list of numbers.
ghost use Rattle.std.specs.Prelude.{◌≡◌, ◌+◌, [], length, IfSome};
ghost use Rattle.turn_lock.specs.Passes.{KeepsRights};
ghost use Rattle.turn_lock.specs.Story.{StandAt, IsOfTwo};

use hazard_types::Oom;
use std::alloc::Global;
use std::sync::Wait;
use std::thread::{Threads, join};
use turn_lock::{Job, Pass, Storied, TurnLock};

/// A list of numbers with a label, which is its base.
#[derive(Drop)]
struct Numbers {
    label: u64,
    items: Vec<u64>,
}

impl Storied for Numbers {
    type Base = u64;

    type Entry = u64;

    ghost base = { λ numbers. numbers.label };

    ghost story = { λ numbers. numbers.items.items };

    fn count(&self) -> u64 {
        self.items.len() as u64
    }
}

/// A job that adds a number at the end and returns the list's label. `None`, with the list
/// unchanged, if memory runs out.
#[derive(Drop)]
struct Push {
    number: u64,
}

impl Job<Numbers> for Push {
    ghost use Rattle.std.specs.Prelude.{◌≡◌, ◌++◌, ◌∷◌, [], MatchOption};

    type Out = Option<u64>;

    ghost may_run = { λ _. Unit {0} };

    ghost meets = { λ job base before after answer. MatchOption answer (after ≡ before)
        (λ label. (label ≡ base) × (after ≡ before ++ job.number ∷ [])) };

    fn run(self, value: &mut Numbers) -> Option<u64> {
        match value.items.push(self.number) {
            Ok(()) => Some(value.label),
            Err(_) => None,
        }
    }
}

/// Adds the numbers, in order and each in a turn of its own, to the list in `lock`, and returns the
/// pass, or `None` if memory runs out. `pass`, which gives the right to turns, is of this lock, and
/// nothing was added with it yet.
fn add_each<R: Wait>(
    rt: &R,
    lock: &TurnLock<Numbers>,
    mut pass: Pass<Numbers>,
    numbers: &[u64],
) -> Option<Pass<Numbers>>
    requires pass { pass.lock ≡ lock.now }
    requires fresh { pass.mine ≡ [] }
    ensures kept { IfSome result (λ after. KeepsRights pass after) }
    ensures added { IfSome result (λ after. StandAt after.seen after.mine numbers.now) }
    ensures alone { IfSome result (λ after. pass.shares ≡ 1024 →
        length after.seen ≡ length pass.seen + length numbers.now) }
{
    for number in numbers {
        match lock.turn(rt, &mut pass, Push { number: *number }) {
            Some(_label) => {}
            None => return None,
        }
    }
    Some(pass)
}

/// Returns the list, with label 7, to which two threads have added, one the numbers `ours`, the
/// other the numbers `theirs`, each in its order. `None` if memory runs out.
fn add_side_by_side<R: Threads + Wait + Sync>(
    rt: &R,
    alloc: Global,
    ours: &[u64],
    theirs: &[u64],
) -> Option<Numbers>
    ensures base { IfSome result (λ numbers. numbers.label ≡ 7) }
    ensures shared { IfSome result (λ numbers. IsOfTwo numbers.items.items ours.now theirs.now) }
{
    let empty = Numbers {
        label: 7,
        items: Vec::new(alloc),
    };
    let Ok((whole, mut pass)) = TurnLock::start(alloc, empty) else {
        return None;
    };
    let lock = &whole;
    let Ok(other) = lock.split(&mut pass) else {
        return None;
    };
    let (ours_done, theirs_done) = join(
        rt,
        || -> Option<Pass<Numbers>>
            requires { (pass.lock ≡ lock.now) × (pass.mine ≡ []) }
            ensures { IfSome result
                (λ after. KeepsRights pass after × StandAt after.seen after.mine ours.entry.now) }
        { add_each(rt, lock, pass, ours) },
        || -> Option<Pass<Numbers>>
            requires { (other.lock ≡ lock.now) × (other.mine ≡ []) }
            ensures { IfSome result (λ after. KeepsRights other after
                × StandAt after.seen after.mine theirs.entry.now) }
        { add_each(rt, lock, other, theirs) },
    );
    let mut ours_pass = ours_done?;
    let theirs_pass = theirs_done?;
    whole.join(&mut ours_pass, theirs_pass);
    Some(whole.close(ours_pass))
}

/// Returns `place` + 1 if `number` is the one at `place`, from 0, of `numbers`. Otherwise it
/// returns 1000, which is to be a place past their end.
fn behind(numbers: &[u64], place: usize, number: u64) -> usize {
    match numbers.get(place) {
        Some(next) => {
            if *next == number {
                place.saturating_add(1)
            } else {
                1000
            }
        }
        None => 1000,
    }
}

/// Whether the numbers up to 100 among `numbers` are exactly `ours`, in the same order, and those
/// above 100 exactly `theirs`. `ours` and `theirs` have fewer than 1000 numbers.
fn are_in_order(numbers: &[u64], ours: &[u64], theirs: &[u64]) -> bool {
    let mut our_place = 0;
    let mut their_place = 0;
    for number in numbers {
        if *number <= 100 {
            our_place = behind(ours, our_place, *number);
        } else {
            their_place = behind(theirs, their_place, *number);
        }
    }
    our_place == ours.len() && their_place == theirs.len()
}

/// Returns how many numbers are in a list to which two threads have added a hundred each, and
/// whether each thread's numbers are all there and in the order in which it added them.
///
/// # Errors
///
/// Out of memory.
pub fn work_side_by_side<R: Threads + Wait + Sync>(
    rt: &R,
    alloc: Global,
) -> Result<(usize, bool), Oom> {
    let mut ours = Vec::new(alloc);
    let mut theirs = Vec::new(alloc);
    for number in 1..=100u64 {
        ours.push(number)?;
        theirs.push(1000 + number)?;
    }
    let Some(numbers) = add_side_by_side(rt, alloc, ours.as_slice(), theirs.as_slice()) else {
        return Err(Oom);
    };
    let items = numbers.items.as_slice();
    Ok((
        items.len(),
        are_in_order(items, ours.as_slice(), theirs.as_slice()),
    ))
}
