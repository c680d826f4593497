//! Reads the JSON lines that ask for county notices of watches, and writes their refusals as JSON.
//! For `county_notices`; begin with `read_command` and `refusal_text`.
#![tactic(auto)]

mod command;
mod laws;
mod reading;
mod refusal;
mod refusal_texts;
mod values;
mod verb;

pub use command::{Command, Deed, Watch};
pub use laws::refusal_texts_are_lines;
pub use reading::read_command;
pub use refusal::NoticeRefusal;
pub use refusal_texts::refusal_text;
