//! Keeps an office in a journal: a request that is accepted is on the disk before its reply can be
//! written. For the commands and the server of a desk; begin with `KeptOffice::create` or
//! `KeptOffice::adopt`, then `submit` and `look`.
#![tactic(auto)]

mod adopt;
mod answers;
mod create;
mod entry_bodies;
mod faults;
mod kept;
mod laws;
mod parts;
mod reading;
mod replay;
mod submit;
mod upgrade;

pub use answers::{Answer, Upgrade};
pub use faults::KeepFault;
pub use kept::KeptOffice;
pub use laws::files_hold_one_history;
pub use submit::KeptReply;
