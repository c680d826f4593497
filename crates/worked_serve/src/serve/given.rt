//! What a script sets for a run of the server.
ghost use Rattle.std.specs.Prelude.{◌<◌, length, IfOk};

use crate::memory::{clock_of, journal_of};
use desk_traits::{MemDisk, SetClock};
use hazard_types::{List, Oom, Text, parse_stamp};
use std::alloc::Global;

/// Returns a list of the one clock reading `reading`, in minutes since 2000-01-01 00:00 UTC.
///
/// # Errors
///
/// Out of memory.
pub fn one_reading(alloc: Global, reading: i64) -> Result<List<i64>, Oom>
    ensures { IfOk result (λ readings. 0 < length readings) }
{
    let mut readings = List::new(alloc);
    readings.push(reading)?;
    Ok(readings)
}

/// The disk, the clock and the faults of a run.
#[derive(Drop)]
pub struct Given {
    /// The file of the disk.
    pub file: Text,
    /// The readings of the clock, in minutes since 2000-01-01 00:00 UTC.
    pub readings: List<i64>,
    /// The numbers of the calls of the disk that fail.
    pub failing: List<u64>,
    /// The numbers of the calls of each link that fail.
    pub broken: List<u64>,
    /// The number of the last call of the disk that may succeed.
    pub stop: Option<u64>,
    /// What a crash leaves of the disk's writes.
    pub pick: u64,
}

impl Given {
    /// Returns an empty file, a clock without readings, and no fault.
    pub fn new(alloc: Global) -> Self {
        Given {
            file: List::new(alloc),
            readings: List::new(alloc),
            failing: List::new(alloc),
            broken: List::new(alloc),
            stop: None,
            pick: 0,
        }
    }

    /// Returns a disk in memory with the file, the calls that fail, and the state after a crash
    /// that are set here.
    ///
    /// # Errors
    ///
    /// Out of memory.
    pub fn disk(&self, alloc: Global) -> Result<MemDisk, Oom> {
        MemDisk::new(
            alloc,
            self.file.as_slice(),
            &self.failing,
            self.stop,
            self.pick,
        )
    }

    /// Returns a copy of what is set, with a disk whose calls after call `stop`, counted from 1,
    /// all fail. `pick` chooses which of the disk's writes since the last sync a crash leaves.
    ///
    /// # Errors
    ///
    /// Out of memory.
    pub fn stopping(&self, stop: u64, pick: u64) -> Result<Self, Oom> {
        Ok(Given {
            file: self.file.clone()?,
            readings: self.readings.clone()?,
            failing: self.failing.clone()?,
            broken: self.broken.clone()?,
            stop: Some(stop),
            pick,
        })
    }

    /// Returns a clock with the readings that are set; without any it is at 2000-01-01 00:00 UTC.
    ///
    /// # Errors
    ///
    /// Out of memory.
    pub fn clock(&self, alloc: Global) -> Result<SetClock, Oom> {
        if self.readings.is_empty() {
            return clock_of(&one_reading(alloc, 0)?);
        }
        clock_of(&self.readings)
    }

    /// Makes the file the journal of a new office with `settings`, the text of its settings' file,
    /// and returns whether the office was created. If it was not, as for a file that has a journal
    /// or settings that have a fault, the file is as before.
    ///
    /// # Errors
    ///
    /// Out of memory.
    pub fn make_journal(&mut self, alloc: Global, settings: &[u8]) -> Result<bool, Oom> {
        let disk = self.disk(alloc)?;
        match journal_of(alloc, disk, settings)? {
            Some(journal) => {
                self.file = journal;
                Ok(true)
            }
            None => Ok(false),
        }
    }
}

/// Returns the minutes, since 2000-01-01 00:00 UTC, of the stamps in `stamps`, which white space
/// separates, in order. `None` if a word is no stamp, such as `180103T1530Z`.
///
/// # Errors
///
/// Out of memory.
pub fn minutes_of(alloc: Global, stamps: &str) -> Result<Option<List<i64>>, Oom> {
    let mut minutes = List::new(alloc);
    for stamp in stamps.split_whitespace() {
        match parse_stamp(stamp.as_bytes()) {
            Some(minute) => minutes.push(i64::from(minute.get()))?,
            None => return Ok(None),
        }
    }
    Ok(Some(minutes))
}
