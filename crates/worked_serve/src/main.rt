//! A program that runs a script of calls on links and a server of them, of answers on links and a
//! follower of them, or of threads that take turns, and prints what each did. A line `rows of NAME`
//! sets what kind the lines after it are; until the first such line they are calls.
#![tactic(auto)]

mod follow;
mod memory;
mod offices;
mod plain;
mod serve;
mod turns;

use crate::follow::script::Script as Following;
use crate::serve::script::Script as Serving;
use crate::turns::line::answer as turns_answer;
use std::io;
use std::net::{Net, TcpListener, TcpStream};
use std::process::ExitCode;
use std::sync::Wait;
use std::thread::Threads;
use std::time::Clock;
use worked_lines::{Stop, Work, rows_named, status_of};

/// What kind the lines are.
#[derive(Clone, Copy)]
enum Rows {
    Serve,
    Follow,
    Turns,
}

impl Rows {
    /// Returns the kind of lines with this name, `serve`, `follow` or `turns`, or `None` for
    /// another name.
    fn of(name: &str) -> Option<Self> {
        match name {
            "serve" => Some(Rows::Serve),
            "follow" => Some(Rows::Follow),
            "turns" => Some(Rows::Turns),
            _ => None,
        }
    }
}

/// Runs each line of standard input by the script of its kind, and prints what the script returns.
/// A line `rows of NAME` that sets the kind is printed unchanged. Errs with the first error, in
/// reading, printing or memory, and the lines after it do not run.
fn run<
    R: AllocGlobal
        + Input
        + Print
        + Clock
        + Threads
        + Wait
        + Sync
        + Net<Listener = TcpListener, Stream = TcpStream>,
>(rt: &R) -> Result<(), Stop> {
    let alloc = rt.alloc();
    let text = io::read_to_string(alloc, rt.reader())?;
    let mut serving = Serving::new(rt, alloc);
    let mut following = Following::new(rt, alloc);
    let mut rows = Rows::Serve;
    for line in text.lines() {
        if let Some(named) = rows_named(line).and_then(Rows::of) {
            rows = named;
            rt.print(line)?;
            rt.print("\n")?;
            continue;
        }
        let answer = match rows {
            Rows::Serve => serving.answer(alloc, line)?,
            Rows::Follow => following.work(alloc, line)?,
            Rows::Turns => turns_answer(rt, alloc, line)?,
        };
        rt.print(answer.as_str())?;
    }
    Ok(())
}

/// Runs the lines of standard input, and returns `FAILURE` if an error ended the run before the
/// last one.
fn main(rt: HostRuntime) -> ExitCode {
    status_of(run(&rt))
}
