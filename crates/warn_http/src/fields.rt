//! What the fields of a head say of the body's length and of the end of the link.
ghost use Rattle.std.specs.Prelude.{◌≡◌, length, map, All};
ghost use Rattle.httparse.specs.Spans.{IsHeaderWithin, header_bytes};
ghost use Rattle.warn_http.specs.Heads.{length_by, stated, closes};

use crate::numbers::{Number, number_of};
use http_heads::{has_close, is_named};
use httparse::spans::HeaderSpan;

/// The most bytes of a body.
pub const MOST_BODY: u32 = 65_536;

/// What the fields state of the body's length, in bytes.
#[derive(Clone, Copy, Debug, PartialEq, Eq)]
pub enum Stated {
    Absent,
    Bytes(u32),
    /// A number of bytes over `MOST_BODY`.
    TooLong,
    /// `Content-Length` is there twice, or is no decimal number.
    Wrong,
}

/// Returns what a single `Content-Length` field states of the body's length, where `number` is what
/// its value was read as. It is `Wrong` for no number, and `TooLong` for one over 65,536 bytes.
fn length_by(number: Number) -> Stated
    ensures { result ≡ length_by number }
{
    match number {
        Number::NoNumber => Stated::Wrong,
        Number::TooLarge => Stated::TooLong,
        Number::Is(count) => Stated::Bytes(count),
    }
}

/// Returns the body's length in bytes that the fields state by `Content-Length`. It is `Absent`
/// without that field, `TooLong` above 65,536, and `Wrong` if the field is there twice or is no
/// decimal number. `buf` has the bytes in which the spans of `fields` lie.
#[tactic(auto, using(crate::proofs::Folding::stated_is))]
pub fn stated_length(buf: &[u8], fields: &[HeaderSpan]) -> Stated
    requires { All (IsHeaderWithin (length buf.now)) fields.now }
    ensures { result ≡ stated (map (header_bytes buf.now) fields.now) }
{
    let mut found = Stated::Absent;
    for field in fields {
        if is_named(buf, field, b"content-length") {
            found = match found {
                Stated::Absent => length_by(number_of(MOST_BODY, field.value.of(buf))),
                _ => Stated::Wrong,
            };
        }
    }
    found
}

/// Whether the link closes after a call of HTTP/1.`minor` with these fields: if `minor` is 0, or if
/// a field `Connection` is `close`. `buf` has the bytes in which the spans of `fields` lie
/// (docs/HTTP.md, "When the link closes").
#[tactic(auto, unfolding(crate::specs::Heads::closes))]
pub fn closes(minor: u8, buf: &[u8], fields: &[HeaderSpan]) -> bool
    requires { All (IsHeaderWithin (length buf.now)) fields.now }
    ensures { result ≡ closes minor (map (header_bytes buf.now) fields.now) }
{
    minor == 0 || has_close(buf, fields)
}
