//! The commands over a journal: `init`, `script`, `export`, `board` and `upgrade`. For the desk's
//! program and for tests. Each takes the journal's disk, and returns it with the exit status; one
//! begins with `run_init`, then `run_script`.
//!
//! docs/COMMANDS.md, "The commands".
#![tactic(auto)]

mod board;
mod ended;
mod export;
mod init;
mod lines;
mod opening;
mod script;
mod upgrade;

pub use board::run_board;
pub use ended::Ended;
pub use export::run_export;
pub use init::run_init;
pub use lines::refusal_line;
pub use opening::open;
pub use script::run_script;
pub use upgrade::run_upgrade;
