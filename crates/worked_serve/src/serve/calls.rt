//! HTTP calls, as the bytes that come on a link.
use crate::plain::add_plain;
use hazard_types::{Oom, Text};
use std::alloc::Global;
use worked_lines::times_of;

/// Appends the bytes that a line of a script stands for, and returns true. `get PATH` is an HTTP
/// call that gets a path, `post BODY` one that posts BODY to `/requests`, `head LINE` one line of a
/// head, and `bytes BYTES` these bytes alone. Returns false, and appends nothing, for another word.
fn add_once(alloc: Global, bytes: &mut Text, line: &str) -> Result<bool, Oom> {
    let (word, rest) = line.split_once(' ').unwrap_or((line, ""));
    match word {
        "get" => bytes.extend(format!(in alloc; "GET {rest} HTTP/1.1\r\n\r\n")?.as_bytes())?,
        "post" => {
            let count = rest.len();
            let head = format!(in alloc;
                "POST /requests HTTP/1.1\r\nContent-Length: {count}\r\n\r\n"
            )?;
            bytes.extend(head.as_bytes())?;
            bytes.extend(rest.as_bytes())?;
        }
        _ => return add_plain(bytes, word, rest),
    }
    Ok(true)
}

/// Appends the bytes that a line of a script stands for, and returns true: `get PATH` or `post
/// BODY` (an HTTP call), `head LINE` (a line of a head) or `bytes BYTES`. For a line `times N LINE`
/// it appends those of LINE N times, at most 100,000; for N = 0 LINE may be anything. Returns
/// false, and appends nothing, for any other line.
///
/// # Errors
///
/// Out of memory.
pub fn add_calls(alloc: Global, bytes: &mut Text, line: &str) -> Result<bool, Oom> {
    let (times, line) = times_of(line);
    for _ in 0..times {
        if !add_once(alloc, bytes, line)? {
            return Ok(false);
        }
    }
    Ok(true)
}
