//! What a crash leaves of a file in memory, chosen by the digits of a number, the pick.
ghost use Rattle.std.specs.Prelude.{◌≡◌, ◌≤◌, ◌<◌, ◌+◌, ◌++◌, length, take, drop, IfOk};
ghost use Rattle.desk_traits.specs.DiskMemory.{written, torn_to, crash_after, picked};

use crate::disk_record::DiskCall;
use hazard_types::{List, Oom, Text};
use std::alloc::Global;

/// A file as a read returns it, the same file as a crash leaves it, and the remaining digits of the
/// pick, in base 4 from the lowest on.
#[derive(Debug, Drop)]
pub struct Crashed {
    pub seen: Text,
    pub left: Text,
    pub digits: u64,
}

/// Returns `file` with `bytes` written over it from byte `at` on, counted from 0; what goes past
/// its end makes it longer. `at` must be at most the length of `file`.
///
/// # Errors
///
/// Out of memory.
pub fn splice(alloc: Global, file: &Text, at: usize, bytes: &[u8]) -> Result<Text, Oom>
    requires { at ≤ length file.now }
    ensures { IfOk result
        (λ new. new ≡ take at file.now ++ (bytes.now ++ drop (at + length bytes.now) file.now)) }
{
    let file = file.as_slice();
    let mut next = file[..at].to_vec(alloc)?;
    next.extend_from_slice(bytes)?;
    if bytes.len() < file.len() - at {
        next.extend_from_slice(&file[at + bytes.len()..])?;
    }
    Ok(List::from_vec(next))
}

/// Returns `file` with `bytes` written over it from byte `at` on, counted from 0; what goes past
/// its end makes it longer. If `at` itself is past the end, the file is unchanged.
fn file_after(alloc: Global, file: Text, at: u64, bytes: &[u8]) -> Result<Text, Oom>
    ensures { IfOk result (λ new. new ≡ written at bytes.now file) }
{
    if at <= file.len() as u64 {
        splice(alloc, &file, at as usize, bytes)
    } else {
        Ok(file)
    }
}

/// Returns `file` with what a crash leaves of a write of `bytes` from byte `at` on, counted from 0,
/// that was not synced. `digit`, 0 to 3, chooses this: 0 nothing of the write, 1 all, 2 the first
/// half of the bytes, 3 as many bytes `G`.
fn torn_to(alloc: Global, digit: u64, at: u64, bytes: &[u8], file: Text) -> Result<Text, Oom>
    ensures { IfOk result (λ new. new ≡ torn_to digit at bytes.now file) }
{
    if digit == 0 {
        return Ok(file);
    }
    if digit == 1 {
        return file_after(alloc, file, at, bytes);
    }
    if digit == 2 {
        return file_after(alloc, file, at, &bytes[..bytes.len() / 2]);
    }
    let other = vec![in alloc; b'G'; bytes.len()]?;
    file_after(alloc, file, at, &other)
}

/// Returns the file as a read returns it and as a crash leaves it after `call`, where `crash` has
/// them before it. A write, failed or not, takes the lowest base-4 digit of those that remain of
/// `pick`: 0 leaves nothing of it after a crash, 1 all, 2 the first half, 3 as many bytes `G`.
/// After a successful sync a crash leaves what a read returns, and the digits are again all those
/// of `pick`.
fn crash_after(alloc: Global, pick: u64, call: &DiskCall, crash: Crashed) -> Result<Crashed, Oom>
    ensures { IfOk result (λ new. new ≡ crash_after pick call.now crash) }
{
    match call {
        DiskCall::Wrote { at, bytes } => {
            let Crashed { seen, left, digits } = crash;
            let bytes = bytes.as_slice();
            Ok(Crashed {
                seen: file_after(alloc, seen, *at, bytes)?,
                left: torn_to(alloc, digits % 4, *at, bytes, left)?,
                digits: digits / 4,
            })
        }
        DiskCall::WriteFailed { at, bytes } => {
            let Crashed { seen, left, digits } = crash;
            Ok(Crashed {
                seen,
                left: torn_to(alloc, digits % 4, *at, bytes.as_slice(), left)?,
                digits: digits / 4,
            })
        }
        DiskCall::Synced => Ok(Crashed {
            left: crash.seen.clone()?,
            seen: crash.seen,
            digits: pick,
        }),
        _ => Ok(crash),
    }
}

/// Returns the file that a crash after `calls`, in the order in which they were made, leaves, where
/// `first` was the file before them. Each write since the last successful sync takes a digit of
/// `pick` in base 4, from the lowest on: 0 leaves nothing of it, 1 all, 2 the first half, 3 as many
/// bytes `G`.
///
/// # Errors
///
/// Out of memory.
pub fn file_left(alloc: Global, first: &Text, pick: u64, calls: &[DiskCall]) -> Result<Text, Oom>
    ensures { IfOk result (λ file. file ≡ picked first.now pick calls.now) }
{
    let mut crash = Crashed {
        seen: first.clone()?,
        left: first.clone()?,
        digits: pick,
    };
    for call in calls {
        crash = crash_after(alloc, pick, call, crash)?;
    }
    Ok(crash.left)
}
