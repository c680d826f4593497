//! HTTP/1.0 and HTTP/1.1 calls and answers as bytes, without a network. For servers of the desk and
//! their tests. One begins with `Routes::new`, `read_call` for the bytes of a link, and
//! `write_call_answer` for the outcome of a call.
//!
//! docs/HTTP.md has the rules byte for byte.
#![tactic(auto)]

mod answers;
mod fields;
mod heads;
mod laws;
mod numbers;
mod outcomes;
mod read;
mod routes;
mod table;
mod wants;

pub use answers::{BodyKind, is_status, refusal_status, write_answer};
pub use laws::{
    calls_are_one, calls_go_on, calls_stay, heads_end_with_a_line_feed, routes_are_paths,
    unfinished_calls_are_not_whole, unfinished_calls_are_short,
};
pub use outcomes::{Outcome, disk_fault_answer, kind_of, no_memory_answer, write_call_answer};
pub use read::{Call, HttpRead, least_missing_bytes, read_call};
pub use table::Routes;
