//! How the desk's programs read lines, take their arguments and end. For the programs and their
//! libraries. One begins with `given_words` for the arguments, `run_lines` over an `Answers` for an
//! input of lines, and `end_run` or `tell` for the last line and the exit status.
#![tactic(auto)]

mod ending;
mod ends;
mod laws;
mod line;
mod lines;
mod numbers;
mod offices;
mod pieces;
mod reading;
mod reply;
mod words;

pub use ending::{end_at_once, end_run, tell};
pub use ends::End;
pub use laws::lines_make_up_the_input;
pub use lines::{Answers, LIMIT, run_lines};
pub use numbers::{count_in, number_in};
pub use offices::office_of;
pub use pieces::Pieces;
pub use reading::{Stop, read_some};
pub use reply::Reply;
pub use words::given_words;
