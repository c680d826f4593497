//! What is printed of the bytes on a link.
ghost use Rattle.std.specs.Prelude.{◌<◌, length};

use hazard_types::{Oom, Text};
use warn_serve::LinkEnd;

/// The bytes that each answer on a link begins with.
const ANSWER: &[u8] = b"HTTP/1.1 ";

/// Appends the bytes, each CR of them as a backslash and the letter r, and then a line end if they
/// do not end with one.
///
/// # Errors
///
/// Out of memory.
pub fn add_bytes(answer: &mut String, bytes: &[u8]) -> Result<(), Oom> {
    for byte in bytes {
        match byte {
            b'\r' => answer.push_str("\\r")?,
            _ => answer.push(char::from(*byte))?,
        }
    }
    if bytes.last() != Some(&b'\n') {
        answer.push('\n')?;
    }
    Ok(())
}

/// Returns at how many places of the bytes `part`, which is not empty, begins.
pub fn count_of(bytes: &[u8], part: &[u8]) -> u64
    requires { 0 < length part.now }
{
    let mut count = 0u64;
    for window in bytes.windows(part.len()) {
        if window == part {
            count = count.saturating_add(1);
        }
    }
    count
}

/// Returns at how many places of what was written on a link `HTTP/1.1 ` begins, with which each
/// HTTP answer begins. This is the number of answers if no body has these bytes.
pub fn count_answers(written: &Text) -> u64 {
    count_of(written.as_slice(), ANSWER)
}

/// Returns the name of the variant `end`, which says how the serving of a link ended, as `Closed`.
pub fn end_name(end: LinkEnd) -> &'static str {
    match end {
        LinkEnd::Closed => "Closed",
        LinkEnd::Cut => "Cut",
        LinkEnd::Spent => "Spent",
        LinkEnd::LinkFault => "LinkFault",
        LinkEnd::OutOfMemory => "OutOfMemory",
    }
}
