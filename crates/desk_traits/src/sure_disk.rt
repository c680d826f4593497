//! A disk in memory that never fails.
ghost use Rattle.std.specs.Prelude.{◌≤◌, None, length};
ghost use Rattle.desk_traits.specs.Crash.{any_crash, any_are};

use crate::disk::Disk;
use crate::faults::Failed;
use hazard_types::Oom;
use std::alloc::Global;

/// A disk of fixed size in memory, which never fails and exposes nothing of its file. Bytes past
/// its size are dropped, and a read past the file's end leaves the rest of the buffer as it is. The
/// programs use it for the path `-` (docs/DECISIONS.md, "Journal and disk").
#[derive(Debug, Drop)]
pub struct SureDisk {
    room: Vec<u8>,
    len: usize,
    ghost within: { len ≤ length room.items },
}

impl SureDisk {
    /// Returns a disk with an empty file, which can grow to `room` bytes.
    ///
    /// # Errors
    ///
    /// Out of memory.
    pub fn new(alloc: Global, room: usize) -> Result<Self, Oom> {
        Ok(SureDisk {
            room: vec![in alloc; 0; room]?,
            len: 0,
        })
    }
}

impl Disk for SureDisk {
    ghost seen = { λ _. None };

    ghost crash = { λ _. any_crash };

    ghost syncs = { λ _. None };

    ghost faults = { λ _. 0 };

    ghost seen_is_left = { λ _ _ _. tt };

    ghost are_crashes = { λ _. any_are };

    fn len(&mut self) -> Result<u64, Failed> {
        Ok(self.len as u64)
    }

    fn read_at(&mut self, at: u64, into: &mut [u8]) -> Result<(), Failed> {
        let from = self.len.min(at as usize);
        let count = into.len().min(self.len - from);
        into[..count].copy_from_slice(&self.room[from..from + count]);
        Ok(())
    }

    fn write_at(&mut self, at: u64, bytes: &[u8]) -> Result<(), Failed> {
        let from = self.room.len().min(at as usize);
        let count = bytes.len().min(self.room.len() - from);
        self.room[from..from + count].copy_from_slice(&bytes[..count]);
        self.len = self.len.max(from + count);
        Ok(())
    }

    fn sync(&mut self) -> Result<(), Failed> {
        Ok(())
    }
}
