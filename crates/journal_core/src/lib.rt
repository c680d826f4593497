//! Keeps a list of bodies (byte strings) in one file. A crash at any moment leaves the bodies that
//! were appended, and at most one more, each whole. For `office_journal`; begin with
//! `Journal::create` or `Journal::adopt`, then `Packet::new` and `Journal::append`.
#![tactic(auto)]

mod adopt;
mod append;
mod create;
mod faults;
mod journal;
mod laws;
mod opening;
mod packet;

pub use append::LIMIT;
pub use faults::{AdoptFault, AppendFault, CreateFault};
pub use journal::Journal;
pub use laws::{a_crash_leaves_the_bodies, read_in_one_way};
pub use packet::Packet;
