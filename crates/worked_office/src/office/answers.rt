//! The replies of an office, as text.
ghost use Rattle.std.specs.Prelude.{IfOk};
ghost use Rattle.request_json.specs.Formed.{HasForm};
ghost use Rattle.office_core.specs.Prepared.{MayCommit};

use hazard_types::{List, Oom, Or, Text};
use office_core::{Office, Prepared, Ready};
use office_types::{Edition, Query, Refusal};
use request_json::{Asked, read_request, refusal_text, reply_text};
use std::alloc::Global;

/// Returns the text with an LF at its end.
fn line_of(mut text: Text) -> Result<Text, Oom> {
    text.push(b'\n')?;
    Ok(text)
}

/// Returns a refusal as a line of JSON, or errs if memory ran out.
fn refused(alloc: Global, stop: Or<Refusal>) -> Result<Text, Oom> {
    match stop {
        Or::No(refusal) => line_of(refusal_text(alloc, &refusal)?),
        Or::OutOfMemory => Err(Oom),
    }
}

/// Returns the reply that the office keeps to the last accepted request of the desk of `asked`,
/// which `asked` repeats, as a line of JSON. It is empty if no reply is kept.
fn kept_answer(alloc: Global, office: &Office, asked: &Asked) -> Result<Text, Oom> {
    match office.kept(asked.desk) {
        Some(reply) => line_of(reply_text(alloc, reply)?),
        None => Ok(List::new(alloc)),
    }
}

/// Makes an accepted request take effect in the office, and returns its reply as a line of JSON.
fn committed(alloc: Global, office: &mut Office, prepared: Prepared) -> Result<Text, Oom>
    requires { MayCommit office.old prepared }
{
    let text = line_of(reply_text(alloc, prepared.reply())?)?;
    office.commit(prepared);
    Ok(text)
}

/// Has the office judge a request, commits it if it is accepted, and returns its reply or refusal
/// as a line of JSON; a request that repeats the last accepted one of its desk gets the reply that
/// the office kept to that. `reading` is the clock's, in minutes since 2000-01-01T00:00Z UTC. Once
/// 4,294,967,295 drafts were opened it judges nothing and returns `no more drafts` on a line.
fn submit(alloc: Global, office: &mut Office, asked: &Asked, reading: i64) -> Result<Text, Oom>
    requires { HasForm asked.now }
{
    if office.opened_drafts() == u32::MAX {
        return List::from_slice(alloc, b"no more drafts\n");
    }
    let ready = match office.prepare(alloc, asked.desk, asked.seq, &asked.request, reading) {
        Ok(ready) => ready,
        Err(stop) => return refused(alloc, stop),
    };
    match ready {
        Ready::New(prepared) => committed(alloc, office, prepared),
        Ready::Again => kept_answer(alloc, office, asked),
    }
}

/// Returns the request that a line of JSON is, with its desk and number, or errs with the refusal
/// if it is no request.
fn request_in(alloc: Global, text: &str) -> Result<Asked, Or<Refusal>>
    ensures { IfOk result HasForm }
{
    read_request(alloc, text.as_bytes())
}

/// Returns the reply to a request, which is committed if it is accepted, or its refusal, as a line
/// of JSON; `no more drafts` on a line once 4,294,967,295 drafts were opened. `text` is the request
/// as JSON, and what is no request is refused. `reading` is the clock's, in minutes since
/// 2000-01-01T00:00Z UTC.
///
/// # Errors
///
/// Out of memory.
pub fn request_answer(
    alloc: Global,
    office: &mut Office,
    text: &str,
    reading: i64,
) -> Result<Text, Oom> {
    match request_in(alloc, text) {
        Ok(asked) => submit(alloc, office, &asked, reading),
        Err(stop) => refused(alloc, stop),
    }
}

/// Sets the edition in which the office writes product texts from now on, and returns an empty
/// text. From `Two` to `One` it changes nothing and returns `no way back` on a line.
///
/// # Errors
///
/// Out of memory.
pub fn turn_answer(alloc: Global, office: &mut Office, edition: Edition) -> Result<Text, Oom> {
    match (office.edition(), edition) {
        (Edition::Two, Edition::One) => List::from_slice(alloc, b"no way back\n"),
        (Edition::One, _) | (Edition::Two, Edition::Two) => {
            office.set_edition(edition);
            Ok(List::new(alloc))
        }
    }
}

/// Returns the text that a query asks for, or errs with the refusal. `reading` is the clock's, in
/// minutes since 2000-01-01T00:00Z UTC.
fn shown(alloc: Global, office: &Office, q: &Query, reading: i64) -> Result<Text, Or<Refusal>> {
    office.look(alloc, q, reading)
}

/// Returns the text that a query asks for, or the refusal as a line of JSON. `reading` is the
/// clock's, in minutes since 2000-01-01T00:00Z UTC. An LF is appended to a draft; other texts are
/// unchanged.
///
/// # Errors
///
/// Out of memory.
pub fn look_answer(alloc: Global, office: &Office, q: &Query, reading: i64) -> Result<Text, Oom> {
    let text = match shown(alloc, office, q, reading) {
        Ok(text) => text,
        Err(stop) => return refused(alloc, stop),
    };
    match q {
        Query::Draft(_id) => line_of(text),
        _ => Ok(text),
    }
}
