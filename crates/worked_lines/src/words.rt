//! The words of a line.
use hazard_types::{List, Oom, Text};
use std::alloc::Global;
use std::str;

/// The largest number of repetitions that `times_of` returns.
const MOST_TIMES: u32 = 100_000;

/// Whether a line does and prints nothing: an empty one, or one that begins with `#`.
pub fn is_remark(line: &str) -> bool {
    line.is_empty() || line.starts_with('#')
}

/// Returns what is printed for a line that a script cannot read: `unread: LINE`, with a line end.
///
/// # Errors
///
/// Out of memory.
pub fn unread(alloc: Global, line: &str) -> Result<String, Oom> {
    Ok(format!(in alloc; "unread: {line}\n")?)
}

/// Returns the words of a line, which white space separates, in order.
///
/// # Errors
///
/// Out of memory.
pub fn words_of(alloc: Global, line: &str) -> Result<List<Text>, Oom> {
    let mut words = List::new(alloc);
    for word in line.split_whitespace() {
        words.push(List::from_slice(alloc, word.as_bytes())?)?;
    }
    Ok(words)
}

/// Returns the decimal numbers of a line, which white space separates, in order. `None` if a word
/// is no number below 2^64.
///
/// # Errors
///
/// Out of memory.
pub fn numbers_of(alloc: Global, line: &str) -> Result<Option<List<u64>>, Oom> {
    let mut numbers = List::new(alloc);
    for word in line.split_whitespace() {
        match word.parse::<u64>() {
            Ok(number) => numbers.push(number)?,
            Err(_) => return Ok(None),
        }
    }
    Ok(Some(numbers))
}

/// Returns N, or 100,000 if N is greater, and LINE for a line `times N LINE`, where N is a decimal
/// number below 2^32. For any other line it returns 1 and the whole line.
pub fn times_of(line: &str) -> (u32, &str) {
    let Some((times, repeated)) = line
        .strip_prefix("times ")
        .and_then(|rest| rest.split_once(' '))
    else {
        return (1, line);
    };
    match times.parse::<u32>() {
        Ok(times) => (times.min(MOST_TIMES), repeated),
        Err(_) => (1, line),
    }
}

/// Returns the bytes as text, or `?` if they are not UTF-8 as a whole.
pub fn text_of(bytes: &[u8]) -> &str {
    str::from_utf8(bytes).unwrap_or("?")
}

/// Returns the bytes as text, with U+FFFD in place of what is not UTF-8.
///
/// # Errors
///
/// Out of memory.
pub fn shown(alloc: Global, bytes: &[u8]) -> Result<String, Oom> {
    Ok(String::from_utf8_lossy(alloc, bytes)?)
}

/// Returns a text, with U+FFFD in place of what is not UTF-8, and then the line `status STATUS`.
///
/// # Errors
///
/// Out of memory.
pub fn with_status(alloc: Global, text: &[u8], status: u8) -> Result<String, Oom> {
    let text = shown(alloc, text)?;
    Ok(format!(in alloc; "{text}status {status}\n")?)
}
