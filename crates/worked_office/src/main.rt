//! A program that runs a script of the days of an office, or of streams, clocks, disks, links and
//! journals with their faults, and prints what the libraries return for each line. A line `rows of
//! NAME` sets what kind the lines after it are; until the first such line they are days of an
//! office.
#![tactic(auto)]

mod office;
mod outside;

use crate::office::script::Script as Office;
use crate::outside::script::Script as Outside;
use hazard_types::Oom;
use std::alloc::Global;
use std::process::ExitCode;
use worked_lines::{Scripts, Work, work_lines};

/// The scripts of the kinds of lines.
#[derive(Drop)]
struct Script<'a> {
    office: Office,
    outside: Outside<'a>,
}

impl Scripts for Script<'_> {
    /// Whether there is a script with this name, `office` or `outside`.
    fn has(&self, name: &str) -> bool {
        matches!(name, "office" | "outside")
    }

    /// Returns what to print for a line, which runs in the script `outside`, or for any other name
    /// in that of an office.
    fn work_as(&mut self, alloc: Global, name: &str, line: &str) -> Result<String, Oom> {
        match name {
            "outside" => self.outside.work(alloc, line),
            _ => self.office.work(alloc, line),
        }
    }
}

/// Runs each line of standard input by the script that a line `rows of office` or `rows of outside`
/// named last, or by that of an office before such a line, and prints what it returns. The exit
/// status is `FAILURE` at the first error in reading, printing or memory, and the lines after it do
/// not run.
fn main(rt: HostRuntime) -> ExitCode {
    let script = Script {
        office: Office::new(rt.alloc()),
        outside: Outside { rt: &rt },
    };
    work_lines(&rt, script)
}
