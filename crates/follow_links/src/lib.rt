//! A follower over links: asks a server for an office's products, one after another, and writes the
//! rows that they leave live. For `warn_follow` and programs like it: begin with `run_program`,
//! which is the whole program over a `Network`, or with `follow_run` over a dialer.
#![tactic(auto)]

mod answers;
mod asks;
mod fields;
mod network;
mod reading;
mod rounds;
mod run;
mod talk;
mod telling;
mod words;

pub use network::{HostNetwork, Network};
pub use run::{follow_run, run_program};
