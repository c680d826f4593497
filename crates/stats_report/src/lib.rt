//! Counts, in an office's archived texts, the minutes in effect, the openings and their lead times,
//! by hazard and by zone. For the program `warn_stats`; begin with `Statistics`, which
//! `Outside::run` of `program_outside` runs, or with its `run` for other inputs and outputs.
#![tactic(auto)]

mod events;
mod input;
mod laws;
mod lines;
mod standing;
mod stats;
mod sums;
mod tally;

pub use laws::{minutes_add_up, the_greatest_issue_minute_governs};
pub use stats::Statistics;
