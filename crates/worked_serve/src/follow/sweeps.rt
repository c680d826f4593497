//! Sweeps: the same run with the first link cut at each byte, or with pieces of each size.
use crate::follow::given::Given;
use crate::follow::runs::{Cut, Run, WHOLE, run_follow};
use hazard_types::{List, Oom, Text};
use std::alloc::Global;

/// Returns the number of bytes that come on the first link, 0 without a link.
fn first_length(given: &Given) -> usize {
    match given.links.as_slice() {
        [link, ..] => link.bytes.len(),
        [] => 0,
    }
}

/// Whether two runs ended alike: the same exit status, the same output, and as many links.
fn are_alike(one: &Run, other: &Run) -> bool {
    one.status == other.status && one.told == other.told && one.asked.len() == other.asked.len()
}

/// Returns the first line of `told`, what the program wrote, without its line end, or all of it if
/// it has none.
fn first_line(alloc: Global, told: &Text) -> Result<String, Oom> {
    let mut line = String::new(alloc);
    for byte in told.as_slice() {
        if *byte == b'\n' {
            return Ok(line);
        }
        line.push(char::from(*byte))?;
    }
    Ok(line)
}

/// Runs the follower with only the first `count` bytes of the first link, and returns how the run
/// ended. `words` are the follower's arguments.
fn run_cut(alloc: Global, given: &Given, words: &List<Text>, count: usize) -> Result<Run, Oom> {
    let cut = Cut {
        first: count,
        piece: usize::MAX,
    };
    run_follow(alloc, given, words, cut)
}

/// Returns the line `from COUNT: LINE, status STATUS, links LINKS` of a run with only the first
/// `count` bytes of the first link. LINE is the first line that the program wrote, and LINKS the
/// number of its links.
fn cut_line(alloc: Global, count: usize, run: &Run) -> Result<String, Oom> {
    let status = run.status;
    let links = run.asked.len();
    let line = first_line(alloc, &run.told)?;
    Ok(format!(in alloc; "from {count}: {line}, status {status}, links {links}\n")?)
}

/// The lines so far, and the last run.
#[derive(Drop)]
struct Sweep {
    answer: String,
    last: Option<Run>,
}

impl Sweep {
    /// Whether there was a run before, and the last one ended like `run`: with the same exit
    /// status, the same output, and as many links.
    fn had(&self, run: &Run) -> bool {
        match &self.last {
            Some(last) => are_alike(last, run),
            None => false,
        }
    }

    /// Sets the last run to `run`, one with only the first `count` bytes of the first link. Appends
    /// its line to the answer if it ended otherwise than the last run before it, or was the first.
    fn take(&mut self, alloc: Global, count: usize, run: Run) -> Result<(), Oom> {
        if !self.had(&run) {
            let line = cut_line(alloc, count, &run)?;
            self.answer.push_str(line.as_str())?;
        }
        self.last = Some(run);
        Ok(())
    }
}

/// Runs the follower, with the arguments `words`, on the first 0, 1, .. up to all bytes of the
/// first link. Returns the line `from COUNT: LINE, status STATUS, links LINKS` of the first run and
/// of each that ended otherwise than the one before it: with another exit status, another output or
/// another number of links. LINE is the first line that the follower wrote.
///
/// # Errors
///
/// Out of memory.
pub fn sweep_cuts(alloc: Global, given: &Given, words: &List<Text>) -> Result<String, Oom> {
    let mut sweep = Sweep {
        answer: String::new(alloc),
        last: None,
    };
    for count in 0..=first_length(given) {
        let run = run_cut(alloc, given, words, count)?;
        sweep.take(alloc, count, run)?;
    }
    Ok(sweep.answer)
}

/// Runs the follower over links whose reads return at most `piece` bytes, and returns how the run
/// ended. `words` are the follower's arguments.
fn run_pieces(alloc: Global, given: &Given, words: &List<Text>, piece: usize) -> Result<Run, Oom> {
    let cut = Cut {
        first: usize::MAX,
        piece,
    };
    run_follow(alloc, given, words, cut)
}

/// Runs the follower, with the arguments `words`, once for each size of a read, from 1 to the
/// number of bytes of the first link. Returns the line `sizes COUNT, differ COUNT`: the number of
/// the sizes, and with how many of them the run had another exit status, another output or another
/// number of links than with all bytes at once.
///
/// # Errors
///
/// Out of memory.
pub fn sweep_pieces(alloc: Global, given: &Given, words: &List<Text>) -> Result<String, Oom> {
    let whole = run_follow(alloc, given, words, WHOLE)?;
    let sizes = first_length(given);
    let mut differ = 0u64;
    for smaller in 0..sizes {
        let run = run_pieces(alloc, given, words, smaller.saturating_add(1))?;
        if !are_alike(&run, &whole) {
            differ = differ.saturating_add(1);
        }
    }
    Ok(format!(in alloc; "sizes {sizes}, differ {differ}\n")?)
}
