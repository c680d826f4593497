//! The commands of the desk's program but `serve`, and training in memory. For the program
//! `warn_main` and for tests. One begins with `command_of` for the arguments, or with `desk_within`
//! for a whole run.
#![tactic(auto)]

mod desk;
mod training;
mod training_desk;
mod words;

pub use desk::desk_within;
pub use words::{Command, Dry, command_of};
