//! Reads the requests of the desks and the lines of the training office as JSON, and writes the
//! texts of requests, replies, refusals and drafts.
//!
//! For crates that read requests or write replies. One begins with `read_request`, `reply_text` and
//! `refusal_text`.
#![tactic(auto)]

mod asked;
mod canonical;
mod drafts;
mod fields;
mod issues;
mod keys;
mod laws;
mod pieces;
mod refusals;
mod replies;
mod request;

pub use asked::Asked;
pub use canonical::{intent_text, request_text, text_of_request};
pub use drafts::draft_text;
pub use laws::{canonical_texts_are_lines, canonical_texts_read_back};
pub use refusals::refusal_text;
pub use replies::{disk_fault_text, out_of_memory_text, reply_text};
pub use request::{read_request, read_training_issue};
