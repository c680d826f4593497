//! Answers as bytes.
ghost use Rattle.std.specs.Prelude.{◌≡◌, ◌++◌, IsTrue, IfOk, OnOk};
ghost use Rattle.warn_http.specs.Answers.{is_status, status_of, phrase_of, closing, status_line, type_line, length_line, answer_text};

use hazard_types::{List, Oom, Text, write_number};
use http::StatusCode;
use office_types::Refusal;
use std::alloc::Global;

/// The kind of a body: JSON (`application/json`) or plain text (`text/plain`).
#[derive(Clone, Copy, Debug, PartialEq, Eq)]
pub enum BodyKind {
    Json,
    Plain,
}

/// Whether the HTTP status is one with which the desk answers calls: 200, 500, 503, or that of a
/// refusal, which is 400, 403, 404, 405, 409, 411, 413, 422 or 431.
#[tactic(auto, unfolding(crate::specs::Answers::is_status))]
pub fn is_status(status: u16) -> bool
    ensures { result ≡ is_status status }
{
    matches!(
        status,
        200 | 400 | 403 | 404 | 405 | 409 | 411 | 413 | 422 | 431 | 500 | 503
    )
}

/// Returns the HTTP status with which a call is answered that is refused for this reason
/// (docs/HTTP.md, "Statuses").
pub fn refusal_status(refusal: &Refusal) -> u16
    ensures value { result ≡ status_of refusal.now }
    ensures known { IsTrue (is_status result) }
{
    let (_code, _name, status) = refusal.label();
    status
}

/// Returns the reason phrase of an HTTP status, as `Not Found` for 404. The status must be one with
/// which the desk answers.
#[tactic(auto, unfolding(crate::specs::Answers::is_status, crate::specs::Answers::phrase_of))]
fn phrase_of(status: u16) -> &'static str
    requires { IsTrue (is_status status) }
    ensures { result.now ≡ phrase_of status }
{
    match StatusCode::from_u16(status) {
        Ok(code) => match code.canonical_reason() {
            Some(phrase) => phrase,
            None => unreachable!(),
        },
        Err(_) => unreachable!(),
    }
}

/// Appends the status line: `HTTP/1.1`, the status, its reason phrase, as `Not Found` for 404, and
/// CR LF. The status must be one with which the desk answers.
fn set_status(alloc: Global, out: &mut Text, status: u16) -> Result<(), Oom>
    requires { IsTrue (is_status status) }
    ensures { OnOk result (out.new ≡ out.old ++ status_line status) }
{
    out.extend(b"HTTP/1.1 ")?;
    write_number(alloc, out, usize::from(status))?;
    out.push(b' ')?;
    out.extend(phrase_of(status).as_bytes())?;
    out.extend(b"\r\n")
}

/// Appends the line of the field `Content-Type` for this kind of body, with CR LF.
fn set_type(out: &mut Text, kind: BodyKind) -> Result<(), Oom>
    ensures { OnOk result (out.new ≡ out.old ++ type_line kind) }
{
    match kind {
        BodyKind::Json => out.extend(b"Content-Type: application/json\r\n"),
        BodyKind::Plain => out.extend(b"Content-Type: text/plain\r\n"),
    }
}

/// Appends the line of the field `Content-Length` with `count` bytes, and CR LF.
fn set_length(alloc: Global, out: &mut Text, count: usize) -> Result<(), Oom>
    ensures { OnOk result (out.new ≡ out.old ++ length_line count) }
{
    out.extend(b"Content-Length: ")?;
    write_number(alloc, out, count)?;
    out.extend(b"\r\n")
}

/// Appends the line `Connection: close` and CR LF if `last`, that is if this is the last answer on
/// the link.
fn push_connection_close(out: &mut Text, last: bool) -> Result<(), Oom>
    ensures { OnOk result (out.new ≡ out.old ++ closing last) }
{
    if last {
        out.extend(b"Connection: close\r\n")?;
    }
    Ok(())
}

/// Returns the bytes of an answer: its status line, its fields, an empty line and the body. It has
/// `Connection: close` if `last`, the answer after which the link closes; `status` must be one with
/// which the desk answers. Head lines end in CR LF (docs/HTTP.md, "Answers").
///
/// # Errors
///
/// Out of memory.
#[tactic(auto, unfolding(crate::specs::Answers::answer_text))]
pub fn write_answer(
    alloc: Global,
    status: u16,
    kind: BodyKind,
    body: &Text,
    last: bool,
) -> Result<Text, Oom>
    requires { IsTrue (is_status status) }
    ensures { IfOk result (λ text. text ≡ answer_text status kind body.now last) }
{
    let mut text = List::new(alloc);
    set_status(alloc, &mut text, status)?;
    set_type(&mut text, kind)?;
    set_length(alloc, &mut text, body.len())?;
    push_connection_close(&mut text, last)?;
    text.extend(b"\r\n")?;
    text.extend(body.as_slice())?;
    Ok(text)
}
