//! The call at the start of a link's bytes.
ghost use Rattle.std.specs.Prelude.{◌≡◌, ◌≤◌, ◌<◌, ◌+◌, ◌^◌, ◌++◌, ℕ, List, length, take, IsUtf8, IfSome, Some, None};
ghost use Rattle.httparse.specs.Spans.{IsRequestWithin, span_bytes};
ghost use Rattle.httparse.specs.Grammar.{print_request};
ghost use Rattle.warn_http.specs.Heads.{stated, IsCutHead};
ghost use Rattle.warn_http.specs.Calls.{call_at, IsAnswer, IsCutBody, IsUnfinished};
ghost use Rattle.warn_http.specs.Readings.{wanted_at, answer_to, pairs_at, missing};

use crate::fields::{Stated, stated_length};
use crate::heads::{Head, MOST_BYTES, MOST_FIELDS, read_head, whole_head};
use crate::routes::Aim;
use crate::table::Routes;
use crate::wants::{Wanted, want_of};
use hazard_types::Span;
use httparse::spans::{EMPTY_HEADER_SPAN, HeaderSpan, RequestSpans};
use office_types::{Query, Refusal};
use std::alloc::Global;

/// What a call asks for: to post the request in its body, or to look at something.
#[derive(Clone, Copy, Debug, PartialEq, Eq)]
pub enum Call {
    /// The bytes of the body, counted from the call's first byte.
    Post(Span),
    Look(Query),
}

/// What a link's bytes start with.
#[derive(Clone, Debug, Drop, PartialEq, Eq)]
pub enum HttpRead {
    /// A whole call: what it asks for, the bytes of its head and body in all, and whether the link
    /// closes after it.
    Call { call: Call, used: usize, last: bool },
    /// The head, or the body of the stated length, is not yet whole.
    More,
    /// The call is refused by one of F1 to F6.
    Refused(Refusal),
    OutOfMemory,
}

/// Returns the call that asks for `aim`. For a post it has the range of the body, which is `body`
/// bytes after a head of `size` bytes, counted from the call's first byte.
fn call_at(aim: Aim, size: usize, body: usize) -> Call
    requires { size + body < 2 ^ 64 }
    ensures { result ≡ call_at aim size body }
{
    match aim {
        Aim::Post => Call::Post(Span {
            from: size,
            to: size + body,
        }),
        Aim::Look(query) => Call::Look(query),
    }
}

/// Returns the call of a whole head of `size` bytes that asks for `wanted`, or `More` if its body
/// is not yet whole. `total` is how many bytes are there, counted from the call's first byte on.
fn answer_to(size: usize, total: usize, wanted: &Wanted) -> HttpRead
    requires { size ≤ total }
    ensures { result ≡ answer_to size total (Ok wanted.now) }
{
    if total - size < wanted.body {
        return HttpRead::More;
    }
    HttpRead::Call {
        call: call_at(wanted.aim, size, wanted.body),
        used: size + wanted.body,
        last: wanted.last,
    }
}

/// Returns the call of a whole head within the limits, `More` if its body is not yet whole, or the
/// refusal of the head. `front` has the bytes of the head, `spans` say where its parts lie in them,
/// and `headers` are the spans of its fields. `total` is how many bytes are there, counted from the
/// call's first byte on.
fn answer(
    routes: &Routes,
    front: &[u8],
    total: usize,
    spans: &RequestSpans,
    headers: &[HeaderSpan],
) -> HttpRead
    requires within { IsRequestWithin front.now headers.now spans.now }
    requires target { IsUtf8 (span_bytes front.now spans.now.path) }
    requires total { length front.now ≤ total }
    ensures { result ≡ answer_to spans.now.len total (wanted_at front.now headers.now spans.now) }
{
    match want_of(routes, front, spans, headers) {
        Ok(wanted) => answer_to(spans.len, total, &wanted),
        Err(refusal) => HttpRead::Refused(refusal),
    }
}

/// Returns the first 8,192 bytes, in which a head must lie, or all if there are fewer.
fn front_of(bytes: &[u8]) -> &[u8]
    ensures front { result.now ≡ take 8192 bytes.now }
    ensures size { length result.now ≤ 8192 }
    ensures total { length result.now ≤ length bytes.now }
{
    if bytes.len() < MOST_BYTES {
        bytes
    } else {
        &bytes[..MOST_BYTES]
    }
}

/// Returns the call at the start of a link's bytes, `More` if it is not yet whole, or the refusal
/// by the first of the rules F1 (`BadHead`) to F6 (`BodyTooLong`) that it breaks. If both F1 and F2
/// are broken, it is either; a body sent with a GET is counted in the call but not used. Memory is
/// taken only for a head of more than 32 fields.
pub fn read_call(alloc: Global, routes: &Routes, bytes: &[u8]) -> HttpRead
    ensures { IsAnswer bytes.now result }
{
    let front = front_of(bytes);
    let mut headers = [EMPTY_HEADER_SPAN; MOST_FIELDS];
    match read_head(alloc, front, &mut headers) {
        Head::Whole(spans) => answer(routes, front, bytes.len(), &spans, &headers),
        Head::More => HttpRead::More,
        Head::Bad => HttpRead::Refused(Refusal::BadHead),
        Head::TooLong => HttpRead::Refused(Refusal::HeadTooLong),
        Head::OutOfMemory => HttpRead::OutOfMemory,
    }
}

/// Returns how many bytes of a body are missing, or 1 if none is known to be. The head has `size`
/// bytes, `total` bytes are there, counted from the call's first byte on, and `stated` is what the
/// head says of the body's length.
fn missing(size: usize, total: usize, stated: Stated) -> usize
    requires { size ≤ total }
    ensures { result ≡ missing size total stated }
{
    match stated {
        Stated::Bytes(body) => {
            let behind = total - size;
            let body = body as usize;
            if behind < body { body - behind } else { 1 }
        }
        Stated::Absent | Stated::TooLong | Stated::Wrong => 1,
    }
}

/// Returns what the fields of a whole head state of the body's length, in bytes. `front` has the
/// bytes of the head, `spans` say how many fields it has, and `headers` are the spans of the
/// fields.
fn stated_by(front: &[u8], spans: &RequestSpans, headers: &[HeaderSpan]) -> Stated
    requires { IsRequestWithin front.now headers.now spans.now }
    ensures { result ≡ stated (pairs_at front.now headers.now spans.now) }
{
    stated_length(front, &headers[..spans.headers])
}

/// Returns the least number of bytes that must follow `bytes`, an unfinished call with a whole
/// head, before the call can be whole; it is 1 if no byte is known to be missing. It is `None` if
/// the head is not yet whole, is over the limits or is no head. Takes no memory.
pub fn least_missing_bytes(bytes: &[u8]) -> Option<usize>
    ensures some { IfSome result (λ n. 0 < n) }
    ensures head { IsCutHead bytes.now → result ≡ None }
    ensures body { (cut : IsCutBody bytes.now) →
        (n : ℕ) × (result ≡ Some n)
        × (length bytes.now + n ≡ length (print_request cut.head) + cut.wants.body) }
    ensures fewer { IsUnfinished bytes.now
        → (n : ℕ) (more : List ℕ) → result ≡ Some n
        → length more < n
        → IsUnfinished (bytes.now ++ more) }
{
    let front = front_of(bytes);
    let mut headers = [EMPTY_HEADER_SPAN; MOST_FIELDS];
    match whole_head(front, &mut headers) {
        Some(spans) => {
            let stated = stated_by(front, &spans, &headers);
            Some(missing(spans.len, bytes.len(), stated))
        }
        None => None,
    }
}
