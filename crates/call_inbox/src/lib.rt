//! The bytes of one HTTP link that were read and not yet used, and the next call in them. For
//! servers. One begins with `Inbox::new` and `next_call`, and removes a call with `Inbox::skip`.
#![tactic(auto)]

mod inbox;
mod next;
mod watch;

pub use inbox::Inbox;
pub use next::{NextCall, next_call};
