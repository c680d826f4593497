//! Bytes that come on a link as a line of a script writes them.
use hazard_types::{Oom, Text};
use worked_lines::add_line;

/// Appends the bytes of a line of a script, and returns true: `rest` with CR and LF if `word` is
/// `head`, and `rest` alone if it is `bytes`. Returns false for another word, and appends nothing.
///
/// # Errors
///
/// Out of memory.
pub fn add_plain(bytes: &mut Text, word: &str, rest: &str) -> Result<bool, Oom> {
    match word {
        "head" => add_line(bytes, rest, "\r\n")?,
        "bytes" => bytes.extend(rest.as_bytes())?,
        _ => return Ok(false),
    }
    Ok(true)
}
