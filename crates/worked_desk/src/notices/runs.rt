//! Runs of the notices over a source and a sink in memory.
use crate::streams::Run;
use byte_streams::{MemSink, MemSource};
use county_notices::CountyNotices;
use hazard_types::{Oom, Text};
use program_ends::LIMIT;
use program_outside::Program;
use std::alloc::Global;
use worked_lines::{Given, words_of};

/// Runs `county_notices` with the words of `line` as arguments, and returns its exit status and
/// what it wrote. `given` sets the most bytes of a read, at least 1, the most bytes of the input,
/// at most the program's own limit, and the numbers of the reads and writes that fail.
///
/// # Errors
///
/// Out of memory.
pub fn run_words(alloc: Global, line: &str, input: &Text, given: &Given) -> Result<Run, Oom> {
    let words = words_of(alloc, line)?;
    let piece = given.piece.max(1);
    let mut source = MemSource::new(alloc, input.as_slice(), piece, &given.bad_reads)?;
    let mut sink = MemSink::new(alloc, &given.bad_writes)?;
    let limit = given.limit.min(LIMIT);
    let status = CountyNotices::run(alloc, &words, limit, &mut source, &mut sink);
    let text = sink.taken().clone()?;
    Ok(Run { status, text })
}
