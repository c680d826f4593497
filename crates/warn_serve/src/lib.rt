//! The office served over HTTP: the answer to a call, the calls of a link, a worker over the links
//! of a door, and workers over the doors of a port who share one office. For the command `serve`
//! and for tests. One begins with `serve` for a port, or with `serve_link` for one link.
#![tactic(auto)]

mod answers;
mod calls;
mod hiring;
mod laws;
mod links;
mod pieces;
mod service;
mod serving;
mod workers;

pub use laws::links_end_by_their_causes;
pub use links::{LinkEnd, MOST_CALLS, serve_link};
pub use service::Service;
pub use serving::{ServeEnd, serve};
pub use workers::WorkerEnd;
