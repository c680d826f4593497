//! The common parts of the row programs, which run a script of lines from standard input against
//! the libraries: the main function, the words of a line, and an example of each refusal.
//!
//! A row program implements `Scripts` for the scripts of its kinds of lines and calls `work_lines`;
//! `worked_serve` has a loop of its own.
#![tactic(auto)]

mod given;
mod refusals;
mod words;

pub use given::{Given, Setting, add_line, setting_of};
use hazard_types::Oom;
pub use refusals::refusal_named;
use std::alloc::Global;
use std::io;
use std::process::ExitCode;
pub use words::{is_remark, numbers_of, shown, text_of, times_of, unread, with_status, words_of};

/// Returns NAME of a line `rows of NAME`, which says what kind the lines after it are, or `None`
/// for another line.
pub fn rows_named(line: &str) -> Option<&str> {
    line.strip_prefix("rows of ")
}

/// A script: it runs its lines one after another.
pub trait Work {
    /// Runs a line and returns what to print for it.
    ///
    /// # Errors
    ///
    /// Out of memory.
    fn work(&mut self, alloc: Global, line: &str) -> Result<String, Oom>;
}

/// Scripts of several kinds of lines, each with a name.
pub trait Scripts {
    /// Whether one of the scripts has this name.
    fn has(&self, name: &str) -> bool;

    /// Runs a line by the script with this name, or by the first script if none has the name, and
    /// returns what to print for the line.
    ///
    /// # Errors
    ///
    /// Out of memory.
    fn work_as(&mut self, alloc: Global, name: &str, line: &str) -> Result<String, Oom>;
}

/// Why a run ends before the last line.
#[derive(Debug, Drop)]
pub enum Stop {
    Stream(io::Error),
    OutOfMemory,
}

impl From<io::Error> for Stop {
    fn from(error: io::Error) -> Self {
        Stop::Stream(error)
    }
}

impl From<Oom> for Stop {
    fn from(_: Oom) -> Self {
        Stop::OutOfMemory
    }
}

/// Returns the exit status of a run: `SUCCESS`, or `FAILURE` if it ended before the last line.
pub fn status_of(run: Result<(), Stop>) -> ExitCode {
    match run {
        Ok(()) => ExitCode::SUCCESS,
        Err(_stop) => ExitCode::FAILURE,
    }
}

/// Returns the name of the script that a line `rows of NAME` sets for the lines after it. `None`
/// for another line, or if no script has the name.
fn script_named<'a, S: Scripts>(scripts: &S, line: &'a str) -> Option<&'a str> {
    let name = rows_named(line)?;
    if scripts.has(name) { Some(name) } else { None }
}

/// Runs each line of standard input by the script that was named last, or by the first one while
/// none was named, and prints what the script returns. A line `rows of NAME` that names a script is
/// printed unchanged. Errs with the first error, in reading, printing or memory, and the lines
/// after it do not run.
fn run<R: AllocGlobal + Input + Print, S: Scripts>(rt: &R, scripts: &mut S) -> Result<(), Stop> {
    let alloc = rt.alloc();
    let text = io::read_to_string(alloc, rt.reader())?;
    let mut name = "";
    for line in text.lines() {
        match script_named(scripts, line) {
            Some(named) => {
                name = named;
                rt.print(line)?;
                rt.print("\n")?;
            }
            None => {
                let answer = scripts.work_as(alloc, name, line)?;
                rt.print(answer.as_str())?;
            }
        }
    }
    Ok(())
}

/// Runs each line of standard input by the script that a line `rows of NAME` named last, or by the
/// first script before such a line, and prints what it returns. Returns `FAILURE` at the first
/// error, in reading, printing or memory, and the lines after it do not run.
pub fn work_lines<R: AllocGlobal + Input + Print, S: Scripts + Drop>(
    rt: &R,
    mut scripts: S,
) -> ExitCode {
    status_of(run(rt, &mut scripts))
}
