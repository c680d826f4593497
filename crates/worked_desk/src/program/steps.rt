//! The steps of a script of the desk's program beside its runs and their streams, one a line.
use crate::program::sweeps::Failing;

/// A step of the script.
#[derive(Clone, Copy, Debug)]
pub enum Step<'a> {
    /// Appends requests that open and discard this many drafts, one after another.
    Drafts(u32),
    /// Removes the disk, so that the next run has a new one, without a file.
    NoFile,
    /// Runs with these words over a source and a sink that never fail.
    Sure(&'a str),
    /// Runs with these words, with each of this many first calls failing in turn.
    Sweep(Failing, u32, &'a str),
}

/// Returns the sweep of `rest`, which is `reads CALLS WORDS` or `writes CALLS WORDS`, or `None` if
/// it is neither. CALLS is a decimal number, of the first calls that fail in turn, and WORDS are
/// the arguments of the runs.
fn sweep_step(rest: &str) -> Option<Step<'_>> {
    let (kind, rest) = rest.split_once(' ')?;
    let (calls, words) = rest.split_once(' ')?;
    let calls = calls.parse::<u32>().ok()?;
    match kind {
        "reads" => Some(Step::Sweep(Failing::Reads, calls, words)),
        "writes" => Some(Step::Sweep(Failing::Writes, calls, words)),
        _ => None,
    }
}

/// Returns the step of a line `no file`, `drafts COUNT`, `sure WORDS` or `sweep KIND CALLS WORDS`,
/// where KIND is `reads` or `writes`. It is `None` for another line, or if COUNT or CALLS is no
/// decimal number below 2^32.
pub fn step_of(line: &str) -> Option<Step<'_>> {
    if line == "no file" {
        return Some(Step::NoFile);
    }
    let (word, rest) = line.split_once(' ')?;
    match word {
        "drafts" => Some(Step::Drafts(rest.parse::<u32>().ok()?)),
        "sure" => Some(Step::Sure(rest)),
        "sweep" => sweep_step(rest),
        _ => None,
    }
}
