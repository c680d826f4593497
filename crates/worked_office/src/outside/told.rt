//! The bytes and the faults with which a line makes what it calls.
ghost use Rattle.std.specs.Prelude.{◌≤◌};

use crate::outside::words::{bytes_of, numbers_of};
use hazard_types::{List, Oom, Text};
use std::alloc::Global;

/// The bytes and the faults of what is made.
#[derive(Drop)]
pub struct Told {
    /// The bytes of a stream, a disk or a link.
    pub bytes: Text,
    /// The numbers of the calls that fail.
    pub failing: List<u64>,
    /// The number of the last call that may succeed.
    pub stop: Option<u64>,
    /// What a crash leaves of a disk's writes.
    pub pick: u64,
    /// The largest number of bytes that a read returns.
    pub piece: usize,
    pub ghost positive: { 1 ≤ piece },
}

/// Sets in `told` what a word gives, and returns `true`: `failing=NUMBERS` the numbers of the calls
/// that fail, with commas between them or `-` for none, `stop=NUMBER` the number of the last call
/// that may succeed, `pick=NUMBER` what a crash leaves of a disk's writes, and `piece=NUMBER` the
/// most bytes that a read returns, from 1 on. For any other word, or if a number is not below 2^64,
/// it changes nothing and returns `false`.
fn take_word(alloc: Global, told: &mut Told, word: &str) -> Result<bool, Oom> {
    let Some((key, value)) = word.split_once('=') else {
        return Ok(false);
    };
    if key == "failing" {
        return match numbers_of(alloc, value)? {
            Some(failing) => {
                told.failing = failing;
                Ok(true)
            }
            None => Ok(false),
        };
    }
    let Ok(number) = value.parse::<u64>() else {
        return Ok(false);
    };
    match key {
        "stop" => told.stop = Some(number),
        "pick" => told.pick = number,
        "piece" if 1 <= number => told.piece = number as usize,
        _ => return Ok(false),
    }
    Ok(true)
}

/// Returns the bytes that the first word gives and the faults that the other words give, or `None`
/// if a word cannot be read. The other words are `failing=NUMBERS`, the calls that fail,
/// `stop=NUMBER`, the last call that may succeed, `pick=NUMBER`, what a crash leaves of a disk's
/// writes, and `piece=NUMBER`, the most bytes that a read returns. Without them no call fails, a
/// crash leaves no unsynced write, and a read returns at most 65,536 bytes.
///
/// # Errors
///
/// Out of memory.
pub fn told_by(alloc: Global, words: &str) -> Result<Option<Told>, Oom> {
    let (first, rest) = words.split_once(' ').unwrap_or((words, ""));
    let Some(bytes) = bytes_of(alloc, first)? else {
        return Ok(None);
    };
    let mut told = Told {
        bytes,
        failing: List::new(alloc),
        stop: None,
        pick: 0,
        piece: 65_536,
    };
    for word in rest.split_whitespace() {
        if !take_word(alloc, &mut told, word)? {
            return Ok(None);
        }
    }
    Ok(Some(told))
}
