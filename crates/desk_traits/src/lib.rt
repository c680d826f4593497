//! The disk and the clock of a program as traits, with implementations over the system and in
//! memory. For crates that keep a journal or ask for the time, and for their tests. One begins with
//! `FileDisk::new` and `SystemClock::new`, or with `MemDisk::new` and `SetClock::new` in a test.
//!
//! A disk counts its failures. Implementations in memory also expose their content to contracts.
#![tactic(auto)]

mod clocks;
mod disk;
mod disk_crash;
mod disk_memory;
mod disk_real;
mod disk_record;
mod faults;
mod steps;
mod sure_disk;

pub use clocks::{Clock, SetClock, SystemClock};
pub use disk::Disk;
pub use disk_real::FileDisk;
pub use disk_record::{DiskCall, MemDisk};
pub use faults::Failed;
pub use steps::write_synced;
pub use sure_disk::SureDisk;
