//! Parses the head of an HTTP answer, with `httparse`.
ghost use Rattle.std.specs.Prelude.{◌≡◌, ◌≤◌, length};
ghost use Rattle.httparse.specs.Spans.{IsResponseOf, IsResponseWithin};
ghost use Rattle.follow_links.specs.Readings.{Says};

use crate::fields::length_in;
use http_heads::has_close;
use httparse::spans::{HeaderSpan, ResponseSpans, parse_response};
use httparse::{Error, Status};

/// More fields than a head of 8,192 bytes can hold.
pub const ROOM: usize = 2731;

/// The most bytes of a head.
pub const MOST_BYTES: usize = 8192;

/// What the head of an answer says.
#[derive(Clone, Copy, Debug)]
pub struct Shape {
    /// The byte of the answer at which the body starts.
    pub from: usize,
    /// The length of the body in bytes.
    pub body: u32,
    pub status: u16,
    /// Whether the link closes after the answer.
    pub closes: bool,
}

/// The head at the start of some bytes.
#[derive(Clone, Copy, Debug)]
pub enum Head {
    /// It is not whole yet.
    More,
    /// There is none, or it is bad.
    Bad,
    Whole(Shape),
}

/// Returns what a whole head says: where the body starts, its length, the status, and whether the
/// link closes. `Bad` for a status other than 200 and 404, or without exactly one `Content-Length`
/// of at most 65,536. `fields` and `spans` are what was parsed of the head at the start of `bytes`,
/// as ranges of `bytes`; only the first `spans.headers` of `fields` count.
fn shape_of(bytes: &[u8], fields: &[HeaderSpan], spans: &ResponseSpans) -> Head
    requires within { IsResponseWithin bytes.now fields.now spans.now }
    requires is { IsResponseOf bytes.now fields.now spans.now }
    ensures { Says bytes.now result }
{
    let fields = &fields[..spans.headers];
    if spans.code != 200 && spans.code != 404 {
        return Head::Bad;
    }
    match length_in(bytes, fields) {
        Some(body) => Head::Whole(Shape {
            from: spans.len,
            body: body as u32,
            status: spans.code,
            // One of the fields is `Connection: close` (docs/DECISIONS.md, "Following").
            closes: has_close(bytes, fields),
        }),
        None => Head::Bad,
    }
}

/// Parses the head of an HTTP answer at the start of `bytes`, at most 8,192, and returns what it
/// says if it is whole, or `More` if it is not whole yet. It is `Bad` if it breaks the form of a
/// head, has a status other than 200 and 404, or is without exactly one `Content-Length` of at most
/// 65,536. `fields` must be room for `ROOM` (2,731) fields, and is overwritten.
///
/// Source: docs/FOLLOWING.md, "How it ends".
pub fn head_of(bytes: &[u8], fields: &mut [HeaderSpan]) -> Head
    requires short { length bytes.now ≤ 8192 }
    requires room { length fields.old ≡ 2731 }
    ensures says { Says bytes.now result }
    ensures kept { length fields.new ≡ 2731 }
{
    match parse_response(bytes, fields) {
        Ok(Status::Complete(spans)) => shape_of(bytes, fields, &spans),
        Ok(Status::Partial) => Head::More,
        Err(Error::TooManyHeaders) => unreachable!(),
        Err(_) => Head::Bad,
    }
}
