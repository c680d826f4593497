//! A ticket lock over one value, whose callers learn which entries came before their own. For
//! programs that share a value among threads. One begins with `TurnLock::start`, gives each thread
//! a `Pass` by `split`, calls `turn` with a `Job`, and ends with `join` and `close`.
#![tactic(auto)]

mod bells;
mod lock;
mod pass;
mod plays;
mod steps;
mod story;
mod view;

pub use lock::TurnLock;
pub use pass::Pass;
pub use story::{Job, Storied};
