//! The drill: generated requests through an office in memory, whose texts are read as they are
//! written. For the program `warn_main` and for tests. One begins with `parse_drill` for the
//! arguments and `run_drill`.
//!
//! docs/COMMANDS.md, "The commands".
#![tactic(auto)]

mod desk;
mod draws;
mod drill;
mod laws;
mod requests;
mod settings;
mod summary;
mod texts;
mod words;

pub use drill::{Drill, run_drill};
pub use laws::texts_that_read_as_the_board_have_no_breach;
pub use words::parse_drill;
