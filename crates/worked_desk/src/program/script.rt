//! The script of the desk's program.
use crate::program::runs::{new_disk, run_surely, run_words};
use crate::program::steps::{Step, step_of};
use crate::program::sweeps::{Failing, sweep};
use crate::streams::{Run, Runs, Stream};
use desk_traits::SureDisk;
use hazard_types::{List, Oom, Text};
use std::alloc::Global;
use worked_lines::add_line;

/// The runs of the program, and the disk that the last run left.
#[derive(Drop)]
pub struct Program {
    disk: Option<SureDisk>,
}

/// Appends requests of desk A, with numbers from 1 on, that open and discard `count` drafts of
/// category WSW one after another.
fn add_drafts(alloc: Global, input: &mut Text, count: u32) -> Result<(), Oom> {
    let mut seq = 0u32;
    for draft in 0..count {
        let number = draft.saturating_add(1);
        seq = seq.saturating_add(1);
        let open = format!(in alloc;
            "{{\"desk\":\"A\",\"seq\":{seq},\"do\":\"open\",\"category\":\"WSW\"}}"
        )?;
        seq = seq.saturating_add(1);
        let discard = format!(in alloc;
            "{{\"desk\":\"A\",\"seq\":{seq},\"do\":\"discard\",\"draft\":{number}}}"
        )?;
        add_line(input, open.as_str(), "\n")?;
        add_line(input, discard.as_str(), "\n")?;
    }
    Ok(())
}

impl Program {
    /// Returns a value that runs the desk's program, with no disk kept from an earlier run.
    pub fn new() -> Self {
        Program { disk: None }
    }

    /// Returns the disk that the last run left, which is then no longer kept, or a new one if there
    /// is none.
    fn take_disk(&mut self, alloc: Global) -> Result<SureDisk, Oom> {
        match self.disk.take() {
            Some(disk) => Ok(disk),
            None => new_disk(alloc),
        }
    }

    /// Runs with these words as arguments over the input of `stream` and an output, neither of
    /// which ever fails, and returns the line `status N`. The input is then empty, and the disk is
    /// the one that the run left.
    fn sure_step(
        &mut self,
        alloc: Global,
        stream: &mut Stream,
        words: &str,
    ) -> Result<String, Oom> {
        let disk = self.take_disk(alloc)?;
        let ended = run_surely(alloc, words, &stream.input, disk)?;
        stream.input = List::new(alloc);
        self.disk = Some(ended.disk);
        let status = ended.status;
        Ok(format!(in alloc; "status {status}\n")?)
    }

    /// Returns the line `CALLS runs, ENDED ended by a fault, DIFFER differ` of a sweep: runs over
    /// `input` with `words` as arguments, in which each of the first `calls` reads or writes, as
    /// `failing` says, fails in turn. DIFFER counts the runs ended by the fault that did not write
    /// a beginning of what a run without faults writes and then the line of the fault, and the
    /// others that are not equal to that run. The disk stays as it is.
    fn sweep_step(
        &mut self,
        alloc: Global,
        failing: Failing,
        calls: u32,
        words: &str,
        input: &Text,
    ) -> Result<String, Oom> {
        let mut disk = self.take_disk(alloc)?;
        let tally = sweep(alloc, failing, calls, words, input, &mut disk)?;
        self.disk = Some(disk);
        let ended = tally.ended;
        let differ = tally.differ;
        Ok(format!(in alloc; "{calls} runs, {ended} ended by a fault, {differ} differ\n")?)
    }
}

impl Runs for Program {
    /// Runs the program over a stream and the disk, with these words as arguments, and returns how
    /// it ended and what it wrote.
    fn run(&mut self, alloc: Global, words: &str, stream: &Stream) -> Result<Run, Oom> {
        let disk = self.take_disk(alloc)?;
        let (run, disk) = run_words(alloc, words, &stream.input, &stream.given, disk)?;
        self.disk = Some(disk);
        Ok(run)
    }

    /// Returns an empty text, since nothing is printed before the last line of a run of the
    /// program.
    fn before_last(&self, alloc: Global, _bytes: usize) -> Result<String, Oom> {
        Ok(String::new(alloc))
    }

    /// Does the step of a line and returns what is printed for it, or `None` for another line. `no
    /// file` drops the disk and `drafts COUNT` appends requests that open and discard so many
    /// drafts to the input, for which nothing is printed. `sure WORDS` runs with no call failing,
    /// and `sweep KIND CALLS WORDS` with each of the first CALLS reads or writes failing in turn.
    fn step(&mut self, alloc: Global, on: &mut Stream, line: &str) -> Result<Option<String>, Oom> {
        let answer = match step_of(line) {
            Some(Step::Sure(words)) => self.sure_step(alloc, on, words)?,
            Some(Step::Sweep(failing, calls, words)) => {
                self.sweep_step(alloc, failing, calls, words, &on.input)?
            }
            Some(Step::Drafts(count)) => {
                add_drafts(alloc, &mut on.input, count)?;
                String::new(alloc)
            }
            Some(Step::NoFile) => {
                self.disk = None;
                String::new(alloc)
            }
            None => return Ok(None),
        };
        Ok(Some(answer))
    }
}
