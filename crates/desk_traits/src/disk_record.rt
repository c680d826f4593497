//! The data of a disk in memory: its file, the calls so far, and which calls fail.
ghost use Rattle.std.specs.Prelude.{◌≡◌};
ghost use Rattle.desk_traits.specs.DiskMemory.{replay};

use hazard_types::{List, Text};
use std::alloc::Global;

/// A call of a disk with its outcome. `Looked` is a call of `len`; `at` is an offset in bytes from
/// 0, and `count` a number of bytes.
#[derive(Debug, Drop, PartialEq, Eq)]
pub enum DiskCall {
    Looked,
    Read { at: u64, count: usize },
    Wrote { at: u64, bytes: Text },
    Synced,
    LookFailed,
    ReadFailed { at: u64, count: usize },
    WriteFailed { at: u64, bytes: Text },
    SyncFailed,
}

/// A disk in memory. It records its calls, and fails at those that `MemDisk::new` was given.
#[derive(Debug, Drop)]
pub struct MemDisk {
    pub(crate) alloc: Global,
    pub(crate) first: Text,
    pub(crate) file: Text,
    pub(crate) calls: Vec<DiskCall>,
    pub(crate) failing: List<u64>,
    pub(crate) stop: Option<u64>,
    pub(crate) pick: u64,
    pub(crate) count: u64,
    pub(crate) faults: u64,
    pub(crate) lacked: bool,
    ghost kept: { file ≡ replay first calls.items },
}
