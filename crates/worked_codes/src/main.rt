//! A program that runs a script of codes, texts, requests and calls, and a tour of the libraries,
//! and prints what the libraries return for each line. A line `rows of NAME` sets what kind the
//! lines after it are; until the first such line they are codes.
#![tactic(auto)]

mod calls;
mod codes;
mod requests;
mod texts;
mod tour;

use crate::calls::script::Script as Calls;
use crate::codes::answers::Codes;
use crate::requests::script::Script as Requests;
use crate::texts::answers::Texts;
use crate::tour::script::Tour;
use hazard_types::Oom;
use std::alloc::Global;
use std::process::ExitCode;
use worked_lines::{Scripts, Work, work_lines};

/// The scripts of the kinds of lines.
#[derive(Drop)]
struct Script {
    calls: Calls,
    tour: Tour,
}

impl Scripts for Script {
    /// Whether a kind of lines has this name: `codes`, `texts`, `requests`, `calls` or `tour`.
    fn has(&self, name: &str) -> bool {
        matches!(name, "codes" | "texts" | "requests" | "calls" | "tour")
    }

    /// Runs a line by the script of the kind with this name, of `codes` for any other name, and
    /// returns what to print for it.
    fn work_as(&mut self, alloc: Global, name: &str, line: &str) -> Result<String, Oom> {
        match name {
            "texts" => Texts.work(alloc, line),
            "requests" => Requests.work(alloc, line),
            "calls" => self.calls.work(alloc, line),
            "tour" => self.tour.work(alloc, line),
            _ => Codes.work(alloc, line),
        }
    }
}

/// Runs each line of standard input by the script of its kind and prints what it returns. The exit
/// status is `FAILURE` if an error ends the run.
fn main(rt: HostRuntime) -> ExitCode {
    let alloc = rt.alloc();
    match Calls::new(alloc) {
        Ok(calls) => work_lines(
            &rt,
            Script {
                calls,
                tour: Tour::new(alloc),
            },
        ),
        Err(_oom) => ExitCode::FAILURE,
    }
}
