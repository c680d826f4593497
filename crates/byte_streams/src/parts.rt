//! The parts of a call of a stream in memory.
ghost use Rattle.std.specs.Prelude.{◌≡◌, ◌≤◌, ◌+◌, ◌++◌, ◌↔◌, drop, length, min, true};
ghost use Rattle.std.specs.Prelude.{Contains, IsErr, OnErr, OnOk, Ok, Some};
ghost use Rattle.desk_traits.specs.Faults.{HasCause, next_count};
ghost use Rattle.desk_traits.specs.declared.faults.Failed.{Failed};
ghost use Rattle.byte_streams.specs.Flows.{Gives};

use desk_traits::Failed;
use hazard_types::{List, Text};

/// The failed writes of a sink in memory: how many, and whether memory ran out for one.
#[derive(Clone, Copy, Debug, PartialEq, Eq)]
pub struct FailedWrites {
    pub count: u64,
    pub lacked: bool,
}

/// Counts one more call in `calls`, and fails if its number, 1 for the first, is in `failing`.
/// `faults` is the count of failed calls.
///
/// # Errors
///
/// `Failed` if its number is in `failing`; the count of faults has risen.
pub fn next_call(failing: &List<u64>, calls: &mut u64, faults: &mut u64) -> Result<(), Failed>
    ensures failing { IsErr result ↔ Contains failing.now (next_count calls.old) }
    ensures called { calls.new ≡ next_count calls.old }
    ensures cause { HasCause faults.old faults.new result }
    ensures counted { OnErr result (faults.new ≡ next_count faults.old) }
    ensures steady { OnOk result (faults.new ≡ faults.old) }
{
    *calls = calls.saturating_add(1);
    if failing.as_slice().contains(calls) {
        *faults = faults.saturating_add(1);
        return Err(Failed);
    }
    Ok(())
}

/// Copies bytes of `bytes` from index `at` on to the start of `into`, and returns how many: as many
/// as are left, but at most `most` and at most the length of `into`.
pub fn hand_out(bytes: &[u8], at: usize, most: usize, into: &mut [u8]) -> usize
    requires within { at ≤ length bytes.now }
    requires some { 1 ≤ most }
    ensures count { result ≡ min (min (length (drop at bytes.now)) most) (length into.old) }
    ensures within { at + result ≤ length bytes.now }
    ensures gives { Gives {E = Failed} (Some (drop at bytes.now))
        (Some (drop (at + result) bytes.now)) (Ok result) into.new }
{
    let rest = &bytes[at..];
    let count = rest.len().min(most).min(into.len());
    into[..count].copy_from_slice(&rest[..count]);
    count
}

/// Appends `bytes` to `taken`, all that was written to a sink in memory so far. `faults` counts the
/// failed writes, and keeps whether memory ran out for one.
///
/// # Errors
///
/// `Failed` if memory runs out; nothing was appended, and the fault is counted.
pub fn keep(taken: &mut Text, bytes: &[u8], faults: &mut FailedWrites) -> Result<(), Failed>
    ensures ok { OnOk result (taken.new ≡ taken.old ++ bytes.now) }
    ensures err { OnErr result (taken.new ≡ taken.old) }
    ensures cause { HasCause faults.old.count faults.new.count result }
    ensures counted { OnErr result (faults.new.count ≡ next_count faults.old.count) }
    ensures lacked { OnErr result (faults.new.lacked ≡ true) }
    ensures steady { OnOk result (faults.new ≡ faults.old) }
{
    if taken.extend(bytes).is_err() {
        faults.count = faults.count.saturating_add(1);
        faults.lacked = true;
        return Err(Failed);
    }
    Ok(())
}
