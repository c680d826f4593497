//! What a script sets for a run over an input in memory.
use hazard_types::{List, Oom, Text};
use std::alloc::Global;

/// The largest number of bytes that a read returns, unless a script sets it.
const PIECE: usize = 4096;

/// How an input comes, and which calls fail.
#[derive(Drop)]
pub struct Given {
    /// The largest number of bytes that a read returns.
    pub piece: usize,
    /// The largest number of bytes of the input.
    pub limit: usize,
    /// The numbers of the reads that fail.
    pub bad_reads: List<u64>,
    /// The numbers of the writes that fail.
    pub bad_writes: List<u64>,
}

/// What one line sets for the next run.
#[derive(Clone, Copy, Debug)]
pub enum Setting {
    /// The largest number of bytes that a read returns.
    Piece(usize),
    /// The largest number of bytes of the input.
    Limit(usize),
    /// One more read that fails.
    BadRead(u64),
    /// One more write that fails.
    BadWrite(u64),
}

/// Returns what a line `WORD NUMBER` sets for the next run: the most bytes of a read (`piece`) or
/// of the input (`limit`), or the number of a call that fails (`read`, `write`). `None` for another
/// word.
pub fn setting_of(word: &str, number: u32) -> Option<Setting> {
    match word {
        "piece" => Some(Setting::Piece(number as usize)),
        "limit" => Some(Setting::Limit(number as usize)),
        "read" => Some(Setting::BadRead(u64::from(number))),
        "write" => Some(Setting::BadWrite(u64::from(number))),
        _ => None,
    }
}

impl Given {
    /// Returns what holds for a run unless its script sets it: reads of at most 4,096 bytes, an
    /// input of at most `limit` bytes, and no call that fails.
    pub fn new(alloc: Global, limit: usize) -> Self {
        Given {
            piece: PIECE,
            limit,
            bad_reads: List::new(alloc),
            bad_writes: List::new(alloc),
        }
    }

    /// Sets the most bytes that a read returns or that the input has, or adds one more read or
    /// write that fails.
    ///
    /// # Errors
    ///
    /// Out of memory.
    pub fn set(&mut self, setting: Setting) -> Result<(), Oom> {
        match setting {
            Setting::Piece(size) => self.piece = size,
            Setting::Limit(most) => self.limit = most,
            Setting::BadRead(call) => self.bad_reads.push(call)?,
            Setting::BadWrite(call) => self.bad_writes.push(call)?,
        }
        Ok(())
    }
}

/// Appends a line and after it `end`, its line end, to an input.
///
/// # Errors
///
/// Out of memory.
pub fn add_line(input: &mut Text, line: &str, end: &str) -> Result<(), Oom> {
    input.extend(line.as_bytes())?;
    input.extend(end.as_bytes())
}
