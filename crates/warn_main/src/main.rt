//! The program of a warning desk: `warn_main PATH WORDS..`. `desk_run` carries the promise of the
//! program, and `run_program` is the whole program over anything that it may open.
//!
//! docs/COMMANDS.md.
#![tactic(auto)]

mod access;
mod desk;
mod laws;
mod place;
mod program;

use crate::program::{Desk, run_program};
use desk_links::{OpenGate, TcpPort};
use desk_traits::SystemClock;
use program_outside::{HostFiles, host_io};
use std::process::ExitCode;

/// Runs the program over the host's words, input, output, files, clock and network.
fn main(rt: HostRuntime) -> ExitCode {
    let mut desk = Desk {
        port: TcpPort::new(rt.alloc(), &rt),
        clock: SystemClock::new(&rt),
        gate: OpenGate,
    };
    run_program(&rt, &mut host_io(&rt), &mut HostFiles::new(&rt), &mut desk)
}
