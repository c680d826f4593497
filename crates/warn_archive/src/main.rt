//! The program of the archive's report: `warn_archive OFFICE CLASS STAMP`.
//! `archive_report::Archive` does all of it (docs/ARCHIVE.md).
#![tactic(auto)]

use archive_report::Archive;
use program_outside::host_io;
use std::process::ExitCode;

/// Runs the archive's report over the system's command line, standard input and output, and returns
/// the exit code.
fn main(rt: HostRuntime) -> ExitCode {
    host_io(&rt).run::<Archive>()
}
