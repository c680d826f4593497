//! Rows of following: a script sets the answers that come on links, or the schedule of a follower,
//! and what the follower does is printed. The other end of a link may be a served office.

pub mod answers;
pub mod given;
pub mod office;
pub mod runs;
pub mod schedule;
pub mod script;
pub mod shown;
pub mod sweeps;
