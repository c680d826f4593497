//! The program of a follower of an office's products: `warn_follow OFFICE CLASS STAMP PORT ROUNDS`.
//! `follow_links::run_program` does all of it (docs/FOLLOWING.md).
#![tactic(auto)]

use follow_links::{HostNetwork, run_program};
use program_outside::host_io;
use std::process::ExitCode;

/// Runs the follower of an office's products over the system's command line, network and standard
/// output, and returns the exit code.
fn main(rt: HostRuntime) -> ExitCode {
    run_program(&mut host_io(&rt), &mut HostNetwork::new(&rt))
}
