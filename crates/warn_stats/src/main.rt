//! The program of the statistics of an archive: `warn_stats OFFICE CLASS STAMP`.
//! `stats_report::Statistics` does all of it (docs/STATISTICS.md).
#![tactic(auto)]

use program_outside::host_io;
use stats_report::Statistics;
use std::process::ExitCode;

/// Runs the statistics of an archive over the system's command line, standard input and output, and
/// returns the exit code.
fn main(rt: HostRuntime) -> ExitCode {
    host_io(&rt).run::<Statistics>()
}
