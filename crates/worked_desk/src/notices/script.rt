//! The script of county notices.
use crate::notices::lines::{line_of_counties, numbered_line};
use crate::notices::runs::run_words;
use crate::notices::steps::{Step, step_of};
use crate::streams::{Run, Runs, Stream};
use hazard_types::Oom;
use std::alloc::Global;
use worked_lines::add_line;

/// The runs of notices.
#[derive(Clone, Copy, Debug)]
pub struct Notices;

/// Appends to the input, for each number from 1 to `last`, the pattern with the number in it, and
/// LF. The number stands in place of the first `###`, and as minutes of a day, `HHMM`, in place of
/// the first `@@@@` after that.
fn add_each(alloc: Global, stream: &mut Stream, last: u16, pattern: &str) -> Result<(), Oom> {
    for before in 0..last {
        let line = numbered_line(alloc, pattern, before + 1)?;
        add_line(&mut stream.input, line.as_str(), "\n")?;
    }
    Ok(())
}

impl Runs for Notices {
    /// Runs `county_notices` over a stream with these words as arguments, and returns the exit
    /// status and what it wrote.
    fn run(&mut self, alloc: Global, words: &str, stream: &Stream) -> Result<Run, Oom> {
        run_words(alloc, words, &stream.input, &stream.given)
    }

    /// Returns the line `N bytes` with the number of bytes that the run wrote.
    fn before_last(&self, alloc: Global, bytes: usize) -> Result<String, Oom> {
        Ok(format!(in alloc; "{bytes} bytes\n")?)
    }

    /// Appends lines of a pattern to the input if `line` is `each NUMBER PATTERN` or `counties
    /// NUMBER PATTERN`, and returns an empty text. Returns `None` for another line.
    fn step(&mut self, alloc: Global, on: &mut Stream, line: &str) -> Result<Option<String>, Oom> {
        match step_of(line) {
            Some(Step::Each(last, pattern)) => add_each(alloc, on, last, pattern)?,
            Some(Step::Counties(last, pattern)) => {
                let line = line_of_counties(alloc, pattern, last)?;
                add_line(&mut on.input, line.as_str(), "\n")?;
            }
            None => return Ok(None),
        }
        Ok(Some(String::new(alloc)))
    }
}
