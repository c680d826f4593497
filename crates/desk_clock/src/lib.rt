//! Day stamps (day, hour and minute, without month and year) and the local time of an office, both
//! ways.
//!
//! For crates that read or write the texts of products. One begins with `local_line`,
//! `read_local_line` and `has_near_day_stamp`.
#![tactic(auto)]

mod abbreviations;
mod day_stamps;
mod local_lines;
mod local_times;
mod names;
mod reading;
mod words;
mod zones;

pub use abbreviations::Abbreviation;
pub use day_stamps::{day_stamp, has_near_day_stamp, resolve_day_stamp};
pub use local_lines::{local_line, local_short};
pub use local_times::calendars_agree;
pub use reading::{LocalFault, lines_read_back, read_local_line};
pub use zones::{offsets_are_jiffs, rules_are_read};
