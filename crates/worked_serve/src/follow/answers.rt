//! HTTP answers, as the bytes that come on a link.
use crate::plain::add_plain;
use hazard_types::{Oom, Text};
use std::alloc::Global;
use worked_lines::times_of;

/// The body of the answer that there is no later product.
const NO_PRODUCT: &str = "{\"no\":\"E14\",\"rule\":\"NoProduct\"}";

/// Returns the text at the place `number`, counted from 1, of the list `kept`, or `None` if the
/// word is no number or there is no text at that place.
pub fn kept_text<'a>(kept: &'a [Text], number: &str) -> Option<&'a [u8]> {
    let number = number.parse::<usize>().ok()?;
    let text = kept.get(number.checked_sub(1)?)?;
    Some(text.as_slice())
}

/// Appends an HTTP answer with a body. `status` is such as `200 OK`, and `field` is empty or the
/// last field of the head, with its CR and LF.
fn add_answer(
    alloc: Global,
    bytes: &mut Text,
    status: &str,
    field: &str,
    body: &[u8],
) -> Result<(), Oom> {
    let count = body.len();
    let head = format!(in alloc; "HTTP/1.1 {status}\r\nContent-Length: {count}\r\n{field}\r\n")?;
    bytes.extend(head.as_bytes())?;
    bytes.extend(body)
}

/// Appends the bytes that a line of a script stands for, and returns true. `answer K` is an HTTP
/// answer with text K, from 1, of `kept` as its body, `closing K` the same with a closing link,
/// `none` the answer that there is no later product, `head LINE` one line of a head, and `bytes
/// BYTES` these bytes alone. Returns false, and appends nothing, for another word or if `kept` has
/// no text K.
fn add_once(alloc: Global, bytes: &mut Text, kept: &[Text], line: &str) -> Result<bool, Oom> {
    let (word, rest) = line.split_once(' ').unwrap_or((line, ""));
    match word {
        "answer" | "closing" => {
            let Some(text) = kept_text(kept, rest) else {
                return Ok(false);
            };
            let field = if word == "closing" {
                "Connection: close\r\n"
            } else {
                ""
            };
            add_answer(alloc, bytes, "200 OK", field, text)?;
        }
        "none" => add_answer(alloc, bytes, "404 Not Found", "", NO_PRODUCT.as_bytes())?,
        _ => return add_plain(bytes, word, rest),
    }
    Ok(true)
}

/// Appends the bytes that a line of a script stands for, and returns true: `answer K` or `closing
/// K` (an answer with text K, from 1, of `kept` as its body), `none`, `head LINE` or `bytes BYTES`.
/// For a line `times N LINE` it appends those of LINE N times, at most 100,000; for N = 0 LINE may
/// be anything. Returns false, and appends nothing, for any other line and if `kept` has no text K.
///
/// # Errors
///
/// Out of memory.
pub fn add_bytes(alloc: Global, bytes: &mut Text, kept: &[Text], line: &str) -> Result<bool, Oom> {
    let (times, line) = times_of(line);
    for _ in 0..times {
        if !add_once(alloc, bytes, kept, line)? {
            return Ok(false);
        }
    }
    Ok(true)
}
