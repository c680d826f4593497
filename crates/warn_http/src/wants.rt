//! What the head of a call asks for, and the rules by which it is refused.
ghost use Rattle.std.specs.Prelude.{◌≡◌, IsUtf8};
ghost use Rattle.httparse.specs.Spans.{IsRequestWithin, span_bytes};
ghost use Rattle.warn_http.specs.Wants.{sized, framed, with_method, wanted};
ghost use Rattle.warn_http.specs.Readings.{wanted_at};

use crate::fields::{Stated, closes, stated_length};
use crate::routes::{Aim, method_of};
use crate::table::Routes;
use http_heads::has_field;
use httparse::spans::{HeaderSpan, RequestSpans};
use office_types::Refusal;
use std::str;

/// What a head asks for, the bytes of its body, and whether the link closes after the call.
#[derive(Clone, Copy, Debug, PartialEq, Eq)]
pub struct Wanted {
    pub aim: Aim,
    pub body: usize,
    pub last: bool,
}

/// Returns what a call for `aim` wants, with the bytes of its body by the stated `length`, or its
/// refusal by that length. This is `NoLength` for a POST that states none, `BodyTooLong` above
/// 65,536 bytes, and `BadHead` for a wrong one; a GET that states none has no body. `last` is
/// whether the link closes after the call.
fn sized(length: Stated, aim: Aim, last: bool) -> Result<Wanted, Refusal>
    ensures { result ≡ sized length aim last }
{
    let body = match length {
        Stated::Absent => match aim {
            Aim::Post => return Err(Refusal::NoLength),
            Aim::Look(_) => 0,
        },
        Stated::Bytes(count) => count as usize,
        Stated::TooLong => return Err(Refusal::BodyTooLong),
        Stated::Wrong => return Err(Refusal::BadHead),
    };
    Ok(Wanted { aim, body, last })
}

/// Returns what a call for `aim` wants, with the bytes of its body by the stated `length`, or its
/// refusal. The refusal is `NoLength` if `encoded`, that is if the call has a field
/// `Transfer-Encoding`; else it is by the length: `NoLength`, `BodyTooLong` or `BadHead`. `last` is
/// whether the link closes after the call.
fn framed(encoded: bool, length: Stated, aim: Aim, last: bool) -> Result<Wanted, Refusal>
    ensures { result ≡ framed encoded length aim last }
{
    if encoded {
        Err(Refusal::NoLength)
    } else {
        sized(length, aim, last)
    }
}

/// Returns what a call wants, or its refusal: `NoRoute` if `aim` is `None`, `WrongMethod` if
/// `method` is not the one for `aim`, else one by the length of the body. `encoded` is whether the
/// call has a field `Transfer-Encoding`, and `length` is what it states of the body's length.
/// `last` is whether the link closes after the call.
fn with_method(
    method: &[u8],
    encoded: bool,
    length: Stated,
    aim: Option<Aim>,
    last: bool,
) -> Result<Wanted, Refusal>
    ensures { result ≡ with_method method.now encoded length aim last }
{
    let Some(aim) = aim else {
        return Err(Refusal::NoRoute);
    };
    if method == method_of(aim) {
        framed(encoded, length, aim, last)
    } else {
        Err(Refusal::WrongMethod)
    }
}

/// Returns what a whole head within the limits asks for, or its first refusal: `BadHead` for a
/// wrong `Content-Length`, then `NoRoute`, `WrongMethod`, `NoLength` and `BodyTooLong`. `front` has
/// the bytes of the head, `spans` say where its parts lie in them, and `headers` are the spans of
/// its fields.
#[tactic(auto, unfolding(crate::specs::Wants::wanted))]
pub fn want_of(
    routes: &Routes,
    front: &[u8],
    spans: &RequestSpans,
    headers: &[HeaderSpan],
) -> Result<Wanted, Refusal>
    requires within { IsRequestWithin front.now headers.now spans.now }
    requires target { IsUtf8 (span_bytes front.now spans.now.path) }
    ensures { result ≡ wanted_at front.now headers.now spans.now }
{
    let Ok(path) = str::from_utf8(spans.path.of(front)) else {
        unreachable!()
    };
    let fields = &headers[..spans.headers];
    let method = spans.method.of(front);
    let encoded = has_field(front, fields, b"transfer-encoding");
    let length = stated_length(front, fields);
    let aim = routes.aim_of(path);
    let last = closes(spans.version, front, fields);
    match length {
        Stated::Wrong => Err(Refusal::BadHead),
        _ => with_method(method, encoded, length, aim, last),
    }
}
