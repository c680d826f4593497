//! A file of the system as a disk. It exposes nothing of its content, and is trusted.
ghost use Rattle.std.specs.Prelude.{◌≡◌, None};
ghost use Rattle.desk_traits.specs.Crash.{any_crash, any_are};

use crate::disk::Disk;
use crate::faults::Failed;
use std::fs::File;
use std::os::unix::fs::FileExt;

/// A file of the system with a count of its failed calls. Without a file each call fails.
#[derive(Drop)]
pub struct FileDisk {
    file: Option<File>,
    faults: u64,
}

impl FileDisk {
    /// Returns a disk over an open file, or for `None` one whose calls all fail.
    pub fn new(file: Option<File>) -> Self
        ensures { ⟦<FileDisk as Disk>⟧.faults result ≡ 0 }
    {
        FileDisk { file, faults: 0 }
    }
}

impl Disk for FileDisk {
    ghost seen = { λ _. None };

    ghost crash = { λ _. any_crash };

    ghost syncs = { λ _. None };

    ghost faults = { λ disk. disk.faults };

    ghost seen_is_left = { λ _ _ _. tt };

    ghost are_crashes = { λ _. any_are };

    fn len(&mut self) -> Result<u64, Failed> {
        if let Some(file) = &self.file
            && let Ok(facts) = file.metadata()
        {
            return Ok(facts.len());
        }
        self.faults = self.faults.saturating_add(1);
        Err(Failed)
    }

    fn read_at(&mut self, at: u64, into: &mut [u8]) -> Result<(), Failed> {
        if let Some(file) = &self.file
            && file.read_exact_at(into, at).is_ok()
        {
            return Ok(());
        }
        self.faults = self.faults.saturating_add(1);
        Err(Failed)
    }

    fn write_at(&mut self, at: u64, bytes: &[u8]) -> Result<(), Failed> {
        if let Some(file) = &self.file
            && file.write_all_at(bytes, at).is_ok()
        {
            return Ok(());
        }
        self.faults = self.faults.saturating_add(1);
        Err(Failed)
    }

    fn sync(&mut self) -> Result<(), Failed> {
        if let Some(file) = &self.file
            && file.sync_all().is_ok()
        {
            return Ok(());
        }
        self.faults = self.faults.saturating_add(1);
        Err(Failed)
    }
}
