//! The program of county notices: `watch_notice OFFICE ZONE`. `county_notices::CountyNotices` does
//! all of it (docs/NOTICES.md).
#![tactic(auto)]

use county_notices::CountyNotices;
use program_outside::host_io;
use std::process::ExitCode;

/// Runs the county notices over the system's command line, standard input and output, and returns
/// the exit code.
fn main(rt: HostRuntime) -> ExitCode {
    host_io(&rt).run::<CountyNotices>()
}
