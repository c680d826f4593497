//! Answers requests for county notices of tornado and severe thunderstorm watches, whose numbers
//! the national centre assigns, with the text of the notice or a refusal. For the program
//! `watch_notice`; begin with `CountyNotices`, which `Outside::run` of `program_outside` runs, with
//! its `run` for other inputs and outputs, or with `Notices` for one line after another.
#![tactic(auto)]

mod issuer;
mod laws;
mod lines;
mod notice;
mod notices;
mod rules;
mod run;
mod words;

pub use issuer::Issuer;
pub use laws::{
    accepted_commands_keep_the_rows, notices_leave_the_desks_numbers, notices_read_as_noted,
};
pub use notices::Notices;
pub use run::CountyNotices;
