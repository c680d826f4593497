//! Runs of the archive's report and of the statistics, over a source and a sink in memory.
use archive_report::Archive;
use byte_streams::{MemSink, MemSource};
use hazard_types::{List, Oom, Text};
use program_ends::LIMIT;
use program_outside::Program;
use sha2::{Digest, Sha256};
use stats_report::Statistics;
use std::alloc::Global;
use worked_lines::Given;

/// What is written of an archive.
#[derive(Clone, Copy, Debug)]
pub enum Telling {
    Report,
    Stats,
}

/// How a run ended: its exit status, and the text that it wrote.
#[derive(Drop)]
pub struct Run {
    pub status: u8,
    pub text: Text,
}

impl Run {
    /// Returns a line with the exit status of the run, and of the text that it wrote the number of
    /// lines, the number of bytes and the SHA-256 in hex.
    ///
    /// # Errors
    ///
    /// Out of memory.
    pub fn in_short(&self, alloc: Global) -> Result<String, Oom> {
        let text = self.text.as_slice();
        let status = self.status;
        let lines = text.iter().filter(|byte| **byte == b'\n').count();
        let bytes = text.len();
        let mut out = format!(in alloc; "status {status}, {lines} lines, {bytes} bytes, SHA-256 ")?;
        for byte in Sha256::digest(text) {
            write!(out, "{byte:02x}")?;
        }
        out.push('\n')?;
        Ok(out)
    }
}

/// Runs the report or the statistics, as `telling` says, over the archive `input` with `words` as
/// arguments, and returns the exit status and what was written. `given` has the size of the pieces
/// in bytes, the limit, and which reads and writes fail.
///
/// # Errors
///
/// Out of memory.
pub fn run_telling(
    alloc: Global,
    telling: Telling,
    words: &List<Text>,
    input: &[u8],
    given: &Given,
) -> Result<Run, Oom> {
    let mut source = MemSource::new(alloc, input, given.piece.max(1), &given.bad_reads)?;
    let mut sink = MemSink::new(alloc, &given.bad_writes)?;
    let limit = given.limit.min(LIMIT);
    let status = match telling {
        Telling::Report => Archive::run(alloc, words, limit, &mut source, &mut sink),
        Telling::Stats => Statistics::run(alloc, words, limit, &mut source, &mut sink),
    };
    let text = sink.taken().clone()?;
    Ok(Run { status, text })
}

/// Runs the report over the archive `input`, read in pieces of at most `piece` bytes, with `words`
/// as arguments, and returns the exit status and what was written. No read or write fails.
fn whole_report(alloc: Global, words: &List<Text>, input: &[u8], piece: usize) -> Result<Run, Oom> {
    let mut given = Given::new(alloc, LIMIT);
    given.piece = piece;
    run_telling(alloc, Telling::Report, words, input, &given)
}

/// Whether two runs have the same exit status and wrote the same text.
fn is_same(one: &Run, other: &Run) -> bool {
    one.status == other.status && one.text == other.text
}

/// How many beginnings of an archive were tried, and for how many of them the report failed or
/// depended on the size of the pieces.
#[derive(Drop)]
pub struct Tally {
    pub cuts: usize,
    pub differ: usize,
}

/// Returns how many beginnings of `input` were tried, from 0 bytes to all, and for how many of them
/// the report fails or depends on the size of the pieces. The report of each, with `words` as
/// arguments, is run in pieces of 1, 7 and 1000 bytes; it fails if an exit status is not 0 or 3.
///
/// # Errors
///
/// Out of memory.
pub fn try_cuts(alloc: Global, words: &List<Text>, input: &[u8]) -> Result<Tally, Oom> {
    let mut cuts = 0usize;
    let mut differ = 0usize;
    for length in 0..input.len() + 1 {
        let front = &input[..length];
        let single = whole_report(alloc, words, front, 1)?;
        let seven = whole_report(alloc, words, front, 7)?;
        let thousand = whole_report(alloc, words, front, 1000)?;
        let reported = single.status == 0 || single.status == 3;
        if !(reported && is_same(&single, &seven) && is_same(&single, &thousand)) {
            differ = differ.saturating_add(1);
        }
        cuts = cuts.saturating_add(1);
    }
    Ok(Tally { cuts, differ })
}
