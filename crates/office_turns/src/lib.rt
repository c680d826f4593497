//! An office over its journal that threads share by turns, with the history of what happened to it
//! since it was opened. For servers. One begins with `SharedOffice::open`, `TurnLock::start` over
//! it, and `submit_in_turn` or a turn of `Look`.
#![tactic(auto)]

mod happening;
mod jobs;
mod shared;
mod submit;
mod tied;
mod turns;

pub use happening::Happening;
pub use jobs::{Look, Submit};
pub use shared::{SharedOffice, Story};
pub use tied::{HasStory, WithStory};
pub use turns::submit_in_turn;
