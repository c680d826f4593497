//! What is printed of a run.
use crate::follow::runs::Run;
use hazard_types::{Oom, Text};
use std::alloc::Global;

/// Appends the bytes as one line, with each CR and LF as a backslash and the letter r or n, and a
/// line end.
fn add_line(answer: &mut String, bytes: &[u8]) -> Result<(), Oom> {
    for byte in bytes {
        match byte {
            b'\r' => answer.push_str("\\r")?,
            b'\n' => answer.push_str("\\n")?,
            _ => answer.push(char::from(*byte))?,
        }
    }
    answer.push('\n')?;
    Ok(())
}

/// Appends a text, and a line end if it is not empty and does not end with one.
fn add_text(answer: &mut String, text: &Text) -> Result<(), Oom> {
    for byte in text.as_slice() {
        answer.push(char::from(*byte))?;
    }
    if !text.is_empty() && text.as_slice().last() != Some(&b'\n') {
        answer.push('\n')?;
    }
    Ok(())
}

/// Returns what is printed of a run: what the program wrote, the line `status STATUS`, and a line
/// `link BYTES` for each link with what was written on it, in order.
///
/// # Errors
///
/// Out of memory.
pub fn run_answer(alloc: Global, run: &Run) -> Result<String, Oom> {
    let mut answer = String::new(alloc);
    add_text(&mut answer, &run.told)?;
    let status = run.status;
    answer.push_str(format!(in alloc; "status {status}\n")?.as_str())?;
    for asked in run.asked.as_slice() {
        answer.push_str("link ")?;
        add_line(&mut answer, asked.as_slice())?;
    }
    Ok(answer)
}

/// Returns what the program wrote, and a line of numbers: its exit status, how many links it had,
/// and how many bytes were written on all of them together.
///
/// # Errors
///
/// Out of memory.
pub fn tally_answer(alloc: Global, run: &Run) -> Result<String, Oom> {
    let mut answer = String::new(alloc);
    add_text(&mut answer, &run.told)?;
    let status = run.status;
    let links = run.asked.len();
    let mut bytes = 0usize;
    for asked in run.asked.as_slice() {
        bytes = bytes.saturating_add(asked.len());
    }
    let line = format!(in alloc; "status {status}, links {links}, asked in {bytes} bytes\n")?;
    answer.push_str(line.as_str())?;
    Ok(answer)
}
