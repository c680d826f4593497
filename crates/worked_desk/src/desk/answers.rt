//! What is printed for the lines of a script.
use crate::desk::sweeps::Tally;
use hazard_types::{Oom, Text};
use std::alloc::Global;

/// Returns what a command wrote, as text, and then the line `status STATUS, BYTES bytes` with its
/// exit status and the number of bytes of the file after it. The line ends with `, unchanged` if
/// the file is unchanged. `old` and `new` are the bytes of the file before and after the command.
///
/// # Errors
///
/// Out of memory.
pub fn run_answer(
    alloc: Global,
    written: &Text,
    status: u8,
    old: &[u8],
    new: &[u8],
) -> Result<String, Oom> {
    let mut answer = String::from_utf8_lossy(alloc, written.as_slice())?;
    let bytes = new.len();
    let change = if old == new { ", unchanged" } else { "" };
    let line = format!(in alloc; "status {status}, {bytes} bytes{change}\n")?;
    answer.push_str(line.as_str())?;
    Ok(answer)
}

/// Returns the line `from COUNT: LAST, BYTES bytes, status STATUS` for a run over the first `count`
/// bytes of a file or of settings. LAST is the last line of `written`, which is what the run wrote,
/// or nothing if that is empty. BYTES is the number of bytes of all that was written.
///
/// # Errors
///
/// Out of memory.
pub fn cut_answer(alloc: Global, count: usize, written: &Text, status: u8) -> Result<String, Oom> {
    let text = String::from_utf8_lossy(alloc, written.as_slice())?;
    let last = text.as_str().lines().last().unwrap_or("");
    let bytes = written.len();
    Ok(format!(in alloc; "from {count}: {last}, {bytes} bytes, status {status}\n")?)
}

/// Returns the line `sweep: RUNS runs, DIFFER differ` with the counts of a sweep: its runs, and
/// those that ended otherwise than they must.
///
/// # Errors
///
/// Out of memory.
pub fn sweep_answer(alloc: Global, tally: &Tally) -> Result<String, Oom> {
    let runs = tally.runs;
    let differ = tally.differ;
    Ok(format!(in alloc; "sweep: {runs} runs, {differ} differ\n")?)
}
