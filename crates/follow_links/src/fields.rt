//! What the fields of a head say of the answer's length.
ghost use Rattle.std.specs.Prelude.{◌≡◌, ◌≤◌, ◌<◌, None, IfSome, length, map, All};
ghost use Rattle.httparse.specs.Spans.{IsHeaderWithin, header_bytes};
ghost use Rattle.follow_links.specs.Answers.{length_in};

use http_heads::{has_field, is_named};
use httparse::spans::HeaderSpan;
use program_ends::number_in;

/// The most bytes of a body.
const MOST_BODY: u64 = 65_536;

/// Returns the length of the body in bytes, or `None` if the head does not state it. Exactly one
/// `Content-Length` must state it, as a decimal number of at most 65,536. `fields` are the fields
/// of the head, as ranges of `buf`.
///
/// Source: docs/DECISIONS.md, "Following".
pub fn length_in(buf: &[u8], fields: &[HeaderSpan]) -> Option<u64>
    requires { All (IsHeaderWithin (length buf.now)) fields.now }
    ensures value { result ≡ length_in (map (header_bytes buf.now) fields.now) }
    ensures within { IfSome result (λ n. n ≤ MOST_BODY) }
{
    let mut at = 0;
    while at < fields.len() {
        let field = &fields[at];
        if is_named(buf, field, b"content-length") {
            if has_field(buf, &fields[at + 1..], b"content-length") {
                return None;
            }
            return number_in(field.value.of(buf), MOST_BODY);
        }
        at += 1;
    }
    None
}
