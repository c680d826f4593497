//! The command `serve`: its arguments, and the office of a journal served over the links of a
//! port. For the program `warn_main` and for tests. One begins with `parse_serve_args` for the
//! arguments and `run_serve`.
#![tactic(auto)]

mod growing;
mod serving;
mod words;

pub use growing::an_opened_office_keeps_its_history;
pub use serving::{Means, run_serve};
pub use words::{Serving, parse_serve_args};
