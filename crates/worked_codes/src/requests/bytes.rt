//! Bytes as a script writes them: `~` and two hex digits are one byte.
use crate::calls::bytes::hex_byte;
use hazard_types::{List, Oom, Text};
use std::alloc::Global;

/// How much of an escape has been read.
#[derive(Clone, Copy, Debug, PartialEq, Eq)]
enum Escape {
    /// No escape has begun.
    Outside,
    /// The `~`.
    Begun,
    /// The `~`, and this digit.
    Behind(u8),
}

/// Returns the bytes that a script's text writes: `~` and two hex digits, `0` to `9` or `a` to `f`,
/// are one byte, any other byte is itself. A byte after `~` that is no hex digit counts as 0, and
/// an escape that the text ends in writes nothing.
///
/// # Errors
///
/// Out of memory.
pub fn bytes_of(alloc: Global, text: &str) -> Result<Text, Oom> {
    let mut out = List::new(alloc);
    let mut escape = Escape::Outside;
    for byte in text.as_bytes() {
        escape = match escape {
            Escape::Outside => {
                if *byte == b'~' {
                    Escape::Begun
                } else {
                    out.push(*byte)?;
                    Escape::Outside
                }
            }
            Escape::Begun => Escape::Behind(*byte),
            Escape::Behind(high) => {
                out.push(hex_byte(high, *byte))?;
                Escape::Outside
            }
        };
    }
    Ok(out)
}

/// Returns the JSON of empty arrays, one in another, `depth` deep: `[[]]` for 2, no bytes for 0.
///
/// # Errors
///
/// Out of memory.
pub fn nested(alloc: Global, depth: u8) -> Result<Text, Oom> {
    let mut out = List::new(alloc);
    for _ in 0..depth {
        out.push(b'[')?;
    }
    for _ in 0..depth {
        out.push(b']')?;
    }
    Ok(out)
}
