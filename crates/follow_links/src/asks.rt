//! The request for the next product.
ghost use Rattle.std.specs.Prelude.{◌≡◌, ◌++◌, decimal, IfOk};
ghost use Rattle.follow_links.specs.Talks.{ask};

use hazard_types::{Oom, Text, write_number};
use std::alloc::Global;

/// Returns `front`, the number in decimal and `behind`, one after another.
///
/// # Errors
///
/// Out of memory.
pub fn with_number(alloc: Global, front: &[u8], number: u32, behind: &[u8]) -> Result<Text, Oom>
    ensures { IfOk result (λ text. text ≡ front.now ++ (decimal number ++ behind.now)) }
{
    let mut text = Text::new(alloc);
    text.extend(front)?;
    write_number(alloc, &mut text, number as usize)?;
    text.extend(behind)?;
    Ok(text)
}

/// Returns the HTTP request for the next product after the first `place` products of an office: the
/// line `GET /products/after/PLACE HTTP/1.1` and an empty line, both with CRLF.
///
/// Source: docs/FOLLOWING.md, "A round".
///
/// # Errors
///
/// Out of memory.
pub fn ask_text(alloc: Global, place: u32) -> Result<Text, Oom>
    ensures { IfOk result (λ text. text ≡ ask place) }
{
    with_number(alloc, b"GET /products/after/", place, b" HTTP/1.1\r\n\r\n")
}
