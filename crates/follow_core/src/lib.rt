//! A follower of an office's products, which takes each once, in order, whatever answers are late,
//! lost or repeated. For programs that ask a served board for its products, as `follow_links` does:
//! begin with `Follower::new`, `Follower::place` and `Follower::hear`, then read with
//! `Follower::shown`.
#![tactic(auto)]

mod follower;
mod laws;

pub use follower::{Follower, Heard};
pub use laws::{followers_lose_nothing, places_never_go_back};
