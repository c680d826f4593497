//! Heads of calls, as the crate `httparse` reads them.
ghost use Rattle.std.specs.Prelude.{◌≤◌, List, length, IfSome, IfNone};
ghost use Rattle.httparse.specs.Spans.{RequestOverflows};
ghost use Rattle.httparse.specs.declared.spans.HeaderSpan.{HeaderSpan};
ghost use Rattle.warn_http.specs.Readings.{Says, HasNoHead};

use httparse::spans::{EMPTY_HEADER_SPAN, HeaderSpan, RequestSpans, parse_request};
use httparse::{Error, Status};
use std::alloc::Global;

/// The head at the start of a link's bytes: whole, incomplete, no head, or over the limits.
#[derive(Clone, Copy, Debug)]
pub enum Head {
    Whole(RequestSpans),
    More,
    Bad,
    TooLong,
    OutOfMemory,
}

/// The most bytes of a head, with the empty lines before it.
pub const MOST_BYTES: usize = 8192;

/// The most fields of a head.
pub const MOST_FIELDS: usize = 32;

/// More fields than `MOST_BYTES` bytes can hold.
const ROOM: usize = 2731;

/// Returns what `bytes` start with, if it is a head of more than 32 fields, by reading it again
/// with room for all of them. It is `TooLong` if the head is whole, or if it is not and `bytes` are
/// 8,192; `More` if it is not and they are fewer; and `Bad` if it is no head. Memory is taken, and
/// may run out.
fn with_room(alloc: Global, bytes: &[u8]) -> Head
    requires small { length bytes.now ≤ 8192 }
    requires many { RequestOverflows 32 bytes.now }
    ensures { (headers : List HeaderSpan) → Says bytes.now headers result }
{
    let Ok(mut headers) = Vec::from_elem(alloc, EMPTY_HEADER_SPAN, ROOM) else {
        return Head::OutOfMemory;
    };
    match parse_request(bytes, headers.as_mut_slice()) {
        Ok(Status::Complete(_)) => Head::TooLong,
        Ok(Status::Partial) => {
            if bytes.len() == MOST_BYTES {
                Head::TooLong
            } else {
                Head::More
            }
        }
        Err(Error::TooManyHeaders) => unreachable!(),
        Err(_) => Head::Bad,
    }
}

/// Returns the head at the start of `bytes`, at most 8,192, and writes the spans of its fields to
/// `headers`. It is `More` if the head is not yet whole, `Bad` if the bytes are no head, and
/// `TooLong` for a whole head of more than 32 fields or for 8,192 bytes without a whole head.
/// Memory is taken, and may run out, only for a head of more than 32 fields.
pub fn read_head(alloc: Global, bytes: &[u8], headers: &mut [HeaderSpan; MOST_FIELDS]) -> Head
    requires { length bytes.now ≤ 8192 }
    ensures { Says bytes.now headers.new result }
{
    match parse_request(bytes, headers.as_mut_slice()) {
        Ok(Status::Complete(spans)) => Head::Whole(spans),
        Ok(Status::Partial) if bytes.len() < MOST_BYTES => Head::More,
        Ok(Status::Partial) => Head::TooLong,
        Err(Error::TooManyHeaders) => with_room(alloc, bytes),
        Err(_) => Head::Bad,
    }
}

/// Returns the spans of the head at the start of `bytes`, at most 8,192, and writes those of its
/// fields to `headers`. It is `None` if the head is not yet whole, has more than 32 fields or is no
/// head. Takes no memory.
pub fn whole_head(bytes: &[u8], headers: &mut [HeaderSpan; MOST_FIELDS]) -> Option<RequestSpans>
    requires { length bytes.now ≤ 8192 }
    ensures some { IfSome result (λ spans. Says bytes.now headers.new (Head.Whole spans)) }
    ensures none { IfNone result (HasNoHead bytes.now) }
{
    match parse_request(bytes, headers.as_mut_slice()) {
        Ok(Status::Complete(spans)) => Some(spans),
        Ok(Status::Partial) => None,
        Err(_) => None,
    }
}
