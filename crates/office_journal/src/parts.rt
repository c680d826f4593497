//! Reads the parts of an entry's body.
ghost use Rattle.std.specs.Prelude.{◌≡◌, ◌≢◌, ◌≤◌, ◌<◌, ◌+◌, Some, None, Ok, length, position, IfOk, IfSome, OnSome};
ghost use Rattle.request_json.specs.Form.{asked_of};
ghost use Rattle.request_json.specs.Formed.{HasForm};
ghost use Rattle.request_json.specs.declared.asked.Asked.{Asked as Request};
ghost use Rattle.office_journal.specs.Parts.{is_line_feed, line_of, minute_in, request_in};

use hazard_types::{Minute, Oom, Or, parse_stamp};
use request_json::{Asked, read_request};
use std::alloc::Global;

/// The length in bytes of what comes before a request: the stamp of its minute and a blank.
const FRONT: usize = 13;

/// Returns the length in bytes of the journal record of a body: one for the gate, four for the
/// length, and the body.
pub(crate) fn record_length(body: &[u8]) -> u64
    ensures { result ≡ 5 + length body.now }
{
    5 + body.len() as u64
}

/// Returns the minute of the 12-byte stamp at the start of a body. `None` if the body has less than
/// 13 bytes, or no stamp there.
pub(crate) fn minute_in(body: &[u8]) -> Option<Minute>
    ensures minute { result ≡ minute_in body.now }
    ensures long { OnSome result (13 ≤ length body.now) }
{
    if body.len() < FRONT {
        return None;
    }
    parse_stamp(&body[..FRONT - 1])
}

/// Returns the index of the first line feed, or `None` if there is none.
fn line_end(bytes: &[u8]) -> Option<usize>
    ensures place { result ≡ position is_line_feed bytes.now }
    ensures within { IfSome result (λ at. at < length bytes.now) }
{
    bytes.iter().position(|byte| *byte == b'\n')
}

/// Returns the bytes before the first line feed, or all of them.
fn line_of(bytes: &[u8]) -> &[u8]
    ensures { result.now ≡ line_of bytes.now }
{
    match line_end(bytes) {
        Some(at) => &bytes[..at],
        None => bytes,
    }
}

/// Returns the request in the body of an entry, or `None` if its text is not one. The text is what
/// comes after the first 13 bytes, which must be there, up to the first line feed.
pub(crate) fn asked_in(alloc: Global, body: &[u8]) -> Result<Option<Asked>, Oom>
    requires { 13 ≤ length body.now }
    ensures form { IfOk result (λ asked. IfSome asked HasForm) }
    ensures some { (a : Request) → result ≡ Ok (Some a) → asked_of (request_in body.now) ≡ Ok a }
    ensures none { (a : Request) → result ≡ Ok None → asked_of (request_in body.now) ≢ Ok a }
{
    match read_request(alloc, line_of(&body[FRONT..])) {
        Ok(asked) => Ok(Some(asked)),
        Err(Or::No(_)) => Ok(None),
        Err(Or::OutOfMemory) => Err(Oom),
    }
}
