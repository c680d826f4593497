//! Rows of an office: a script sets the settings, the file, an input, the readings of the clock and
//! the faults of a disk, and then runs commands of the desk over them.

pub mod answers;
pub mod cuts;
pub mod files;
pub mod runs;
pub mod script;
pub mod steps;
pub mod sweeps;
