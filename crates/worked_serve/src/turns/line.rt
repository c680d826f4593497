//! The lines of turns.
ghost use Rattle.std.specs.Prelude.{◌≤◌, IfSome};

use crate::turns::entries::Entry;
use crate::turns::pairs::work_side_by_side;
use crate::turns::threads::{MOST_WAITING, take_turns};
use hazard_types::Oom;
use std::alloc::Global;
use std::sync::Wait;
use std::thread::Threads;
use std::time::{Clock, Duration};

/// Returns the COUNT of threads that wait and how long another thread has the turn, which a line
/// `COUNT MILLISECONDS` says. `None` if the line has another form, or COUNT is above 1,000.
fn read(line: &str) -> Option<(u32, Duration)>
    ensures { IfSome result (λ said. said.0 ≤ MOST_WAITING) }
{
    let (waiting, time) = line.split_once(' ')?;
    let waiting = waiting.parse::<u32>().ok()?;
    let time = time.parse::<u64>().ok()?;
    if waiting > MOST_WAITING {
        return None;
    }
    Some((waiting, Duration::from_millis(time)))
}

/// Returns the number of entries after the first, if the first is that of the thread that had the
/// first turn, else 0. `entries` are in the order of the turns.
fn count_waited(entries: &[Entry]) -> usize {
    match entries {
        [Entry::Held, waited @ ..] => waited.len(),
        _ => 0,
    }
}

/// Lets threads take turns as the line `COUNT MILLISECONDS` asks, and two threads add numbers to
/// one list. Returns two lines: how many threads waited and how many entries there are, and how
/// many numbers and whether they are in order. For other words it returns the line `unread: LINE`.
///
/// # Errors
///
/// Out of memory.
pub fn answer<R: Clock + Threads + Wait + Sync>(
    rt: &R,
    alloc: Global,
    line: &str,
) -> Result<String, Oom> {
    let Some((waiting, time)) = read(line) else {
        return Ok(format!(in alloc; "unread: {line}\n")?);
    };
    let entries = take_turns(rt, alloc, waiting, time)?;
    let waited = count_waited(entries.as_slice());
    let count = entries.len();
    let (numbers, in_order) = work_side_by_side(rt, alloc)?;
    let order = if in_order { "in order" } else { "out of order" };
    Ok(format!(in alloc; "{waited} waited, {count} entries\n{numbers} numbers, {order}\n")?)
}
