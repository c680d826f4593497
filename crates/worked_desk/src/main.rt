//! A program that runs a script of the commands of an office, of the desk's program, or of county
//! notices, and prints what each wrote. A line `rows of NAME` sets what kind the lines after it
//! are; until the first such line they are commands of an office.
#![tactic(auto)]

mod desk;
mod notices;
mod program;
mod streams;

use crate::desk::script::Script as Desk;
use crate::notices::script::Notices;
use crate::program::script::Program;
use crate::streams::Script as Streams;
use hazard_types::Oom;
use std::alloc::Global;
use std::process::ExitCode;
use worked_lines::{Scripts, Work, work_lines};

/// The scripts of the kinds of lines.
#[derive(Drop)]
struct Script {
    desk: Desk,
    program: Streams<Program>,
    notices: Streams<Notices>,
}

impl Scripts for Script {
    /// Whether lines have a kind of this name: `desk`, `program` or `notices`.
    fn has(&self, name: &str) -> bool {
        matches!(name, "desk" | "program" | "notices")
    }

    /// Does a line in the script `program` or `notices`, or for any other name in that of the desk,
    /// and returns what is printed for it.
    fn work_as(&mut self, alloc: Global, name: &str, line: &str) -> Result<String, Oom> {
        match name {
            "program" => self.program.work(alloc, line),
            "notices" => self.notices.work(alloc, line),
            _ => self.desk.work(alloc, line),
        }
    }
}

/// Runs each line of standard input by its script and prints what it returns. The exit status is
/// `FAILURE` at the first error in reading, printing or memory.
fn main(rt: HostRuntime) -> ExitCode {
    let alloc = rt.alloc();
    let script = Script {
        desk: Desk::new(alloc),
        program: Streams::new(alloc, Program::new()),
        notices: Streams::new(alloc, Notices),
    };
    work_lines(&rt, script)
}
