//! Sweeps: runs in which one read of the input, or one write of the output, fails, for each call in
//! turn.
use crate::program::runs::{copy_of, run_words};
use crate::streams::Run;
use desk_traits::SureDisk;
use hazard_types::{List, Oom, Text};
use program_ends::LIMIT;
use std::alloc::Global;
use worked_lines::Given;

/// Which calls fail in turn.
#[derive(Clone, Copy, Debug)]
pub enum Failing {
    Reads,
    Writes,
}

/// How many runs a fault ended, and how many runs differ from what they should write.
#[derive(Clone, Copy, Debug)]
pub struct Tally {
    pub ended: u64,
    pub differ: u64,
}

impl Failing {
    /// Returns the exit status of a run that a failed call of this kind ends: 7 for a read, 8 for a
    /// write.
    fn status(self) -> u8 {
        match self {
            Failing::Reads => 7,
            Failing::Writes => 8,
        }
    }

    /// Returns the line, with its LF, that a run writes last if a failed call of this kind ends it.
    fn line(self) -> &'static [u8] {
        match self {
            Failing::Reads => b"fault ReadFault\n",
            Failing::Writes => b"fault WriteFault\n",
        }
    }

    /// Returns the settings of a run whose input comes one byte at a time and whose read or write
    /// number `call` fails. Calls are counted from 1, so none fails if `call` is 0.
    fn given(self, alloc: Global, call: u32) -> Result<Given, Oom> {
        let bad = List::from_slice(alloc, &[u64::from(call)])?;
        let (bad_reads, bad_writes) = match self {
            Failing::Reads => (bad, List::new(alloc)),
            Failing::Writes => (List::new(alloc), bad),
        };
        Ok(Given {
            piece: 1,
            limit: LIMIT,
            bad_reads,
            bad_writes,
        })
    }
}

/// Whether `text` is the first bytes of `whole`, any number of them, and then `line`.
fn is_beginning(text: &[u8], line: &[u8], whole: &[u8]) -> bool {
    match text.strip_suffix(line) {
        Some(front) => whole.starts_with(front),
        None => false,
    }
}

/// Returns how many runs a fault ended, and how many differ from what they should write, of the
/// runs in which read or write 1 to `calls` fails, one call in each run. Each runs with the
/// arguments `words` over a copy of the disk. One that the fault ended should write a beginning of
/// what a run without a fault writes and then the line of the fault, and any other should be equal
/// to that run.
///
/// # Errors
///
/// Out of memory.
pub fn sweep(
    alloc: Global,
    failing: Failing,
    calls: u32,
    words: &str,
    input: &Text,
    disk: &mut SureDisk,
) -> Result<Tally, Oom> {
    let none = failing.given(alloc, 0)?;
    let (whole, _disk) = run_words(alloc, words, input, &none, copy_of(alloc, disk)?)?;
    let mut tally = Tally {
        ended: 0,
        differ: 0,
    };
    for call in 1..=calls {
        let given = failing.given(alloc, call)?;
        let (run, _disk) = run_words(alloc, words, input, &given, copy_of(alloc, disk)?)?;
        tally.count(failing, &run, &whole);
    }
    Ok(tally)
}

impl Tally {
    /// Adds a run to the counts, and compares it with `whole`, the run without faults. A run that a
    /// fault ended must write a beginning of what `whole` wrote and then the line of the fault; any
    /// other must be equal to `whole`.
    fn count(&mut self, failing: Failing, run: &Run, whole: &Run) {
        let text = run.text.as_slice();
        let as_defined = if run.status == failing.status() {
            self.ended = self.ended.saturating_add(1);
            is_beginning(text, failing.line(), whole.text.as_slice())
        } else {
            run.status == whole.status && text == whole.text.as_slice()
        };
        if !as_defined {
            self.differ = self.differ.saturating_add(1);
        }
    }
}
