//! A program that runs a script of the lives of events, of drafts at a desk, or of archives, and
//! prints what the libraries return for each line. A line `rows of NAME` sets what kind the lines
//! after it are; until the first such line they are steps of lives.
#![tactic(auto)]

mod archive;
mod board;
mod steps;

use crate::archive::script::Script as Archive;
use crate::board::script::Script as Board;
use crate::steps::script::Script as Steps;
use hazard_types::Oom;
use std::alloc::Global;
use std::process::ExitCode;
use worked_lines::{Scripts, Work, work_lines};

/// The scripts of the kinds of lines.
#[derive(Drop)]
struct Script {
    steps: Steps,
    board: Board,
    archive: Archive,
}

impl Scripts for Script {
    /// Whether lines have a kind of this name: `steps`, `board` or `archive`.
    fn has(&self, name: &str) -> bool {
        matches!(name, "steps" | "board" | "archive")
    }

    /// Does a line in the script `board` or `archive`, or for any other name in `steps`, and
    /// returns what is printed for it.
    fn work_as(&mut self, alloc: Global, name: &str, line: &str) -> Result<String, Oom> {
        match name {
            "board" => self.board.work(alloc, line),
            "archive" => self.archive.work(alloc, line),
            _ => self.steps.work(alloc, line),
        }
    }
}

/// Runs each line of standard input by its script and prints what it returns. The exit status is
/// `FAILURE` at the first error in reading, printing or memory.
fn main(rt: HostRuntime) -> ExitCode {
    let alloc = rt.alloc();
    let script = Script {
        steps: Steps::new(alloc),
        board: Board::new(alloc),
        archive: Archive::new(alloc),
    };
    work_lines(&rt, script)
}
