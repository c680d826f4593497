//! The lines of requests. Each returns a JSON text, but `words`, whose text is for people.
use crate::requests::bytes::{bytes_of, nested};
use crate::requests::replies::{draft_with, reply_named};
use hazard_types::{List, Minute, Oom, Or, Text};
use office_types::{Desk, Request};
use request_json::{
    Asked, disk_fault_text, draft_text, out_of_memory_text, read_request, read_training_issue,
    refusal_text, reply_text, request_text,
};
use std::alloc::Global;
use worked_lines::{Work, refusal_named, shown};

/// Returns the canonical JSON text of the request whose JSON the bytes are, or the JSON text of the
/// refusal if they are no request.
fn read(alloc: Global, bytes: &[u8]) -> Result<Text, Oom> {
    match read_request(alloc, bytes) {
        Ok(asked) => request_text(alloc, &asked),
        Err(Or::No(refusal)) => refusal_text(alloc, &refusal),
        Err(Or::OutOfMemory) => Err(Oom),
    }
}

/// Returns the canonical JSON text of the issue that a training line describes, as request 1 of
/// desk A, or the JSON text of the refusal if the bytes are no such line.
fn train(alloc: Global, bytes: &[u8]) -> Result<Text, Oom> {
    match read_training_issue(alloc, bytes) {
        Ok(part) => match Desk::new(b"A") {
            Some(desk) => {
                let asked = Asked {
                    desk,
                    seq: 1,
                    request: Request::Issue(part),
                };
                request_text(alloc, &asked)
            }
            None => Ok(List::new(alloc)),
        },
        Err(Or::No(refusal)) => refusal_text(alloc, &refusal),
        Err(Or::OutOfMemory) => Err(Oom),
    }
}

/// Returns the JSON text of draft 1, with the intent of the request whose JSON the bytes are, of
/// the request's desk, and with minute 9,471,810 as that of the last request on it. It is the JSON
/// text of the refusal if the bytes are no request.
fn draft(alloc: Global, bytes: &[u8]) -> Result<Text, Oom> {
    match read_request(alloc, bytes) {
        Ok(asked) => {
            let Some(touched) = Minute::new(9_471_810) else {
                return Ok(List::new(alloc));
            };
            let draft = draft_with(alloc, asked.desk, touched, asked.request)?;
            draft_text(alloc, &draft)
        }
        Err(Or::No(refusal)) => refusal_text(alloc, &refusal),
        Err(Or::OutOfMemory) => Err(Oom),
    }
}

/// Returns the JSON text of the example of the refusal with this name; empty if there is no such
/// name.
fn refused(alloc: Global, name: &str) -> Result<Text, Oom> {
    match refusal_named(alloc, name)? {
        Some(refusal) => refusal_text(alloc, &refusal),
        None => Ok(List::new(alloc)),
    }
}

/// Returns the words that people are shown for the example of the refusal with this name; empty if
/// there is no such name.
fn worded(alloc: Global, name: &str) -> Result<Text, Oom> {
    match refusal_named(alloc, name)? {
        Some(refusal) => {
            let words = format!(in alloc; "{refusal}")?;
            List::from_slice(alloc, words.as_bytes())
        }
        None => Ok(List::new(alloc)),
    }
}

/// Returns the JSON text of the example of the reply with this name; empty if there is no such
/// name.
fn replied(alloc: Global, name: &str) -> Result<Text, Oom> {
    match reply_named(alloc, name)? {
        Some(reply) => reply_text(alloc, &reply),
        None => Ok(List::new(alloc)),
    }
}

/// Returns what to print for a line, without an LF. After `read`, `training` and `draft` the line
/// has the bytes of a JSON text, with `~` and two hex digits for any byte; after `depth` how many
/// empty arrays, one in another, are read; after `refusal`, `words` and `reply` the name of an
/// example; after `fault` `disk` or `memory`. Any other line is returned unchanged.
fn answer(alloc: Global, line: &str) -> Result<Text, Oom> {
    match line.split_once(' ') {
        Some(("read", text)) => {
            let bytes = bytes_of(alloc, text)?;
            read(alloc, bytes.as_slice())
        }
        Some(("training", text)) => {
            let bytes = bytes_of(alloc, text)?;
            train(alloc, bytes.as_slice())
        }
        Some(("draft", text)) => {
            let bytes = bytes_of(alloc, text)?;
            draft(alloc, bytes.as_slice())
        }
        Some(("depth", text)) => {
            let bytes = nested(alloc, text.parse::<u8>().unwrap_or(0))?;
            read(alloc, bytes.as_slice())
        }
        Some(("refusal", name)) => refused(alloc, name),
        Some(("words", name)) => worded(alloc, name),
        Some(("reply", name)) => replied(alloc, name),
        Some(("fault", "disk")) => List::from_slice(alloc, disk_fault_text()),
        Some(("fault", "memory")) => List::from_slice(alloc, out_of_memory_text()),
        _ => List::from_slice(alloc, line.as_bytes()),
    }
}

/// The script, which keeps nothing from line to line.
#[derive(Drop)]
pub struct Script;

impl Work for Script {
    /// Returns what to print for a line, with an LF. Its first word says what the rest of it is, as
    /// `read` or `reply`; a line with no such word is returned unchanged. Bytes that are not UTF-8
    /// become U+FFFD.
    fn work(&mut self, alloc: Global, line: &str) -> Result<String, Oom> {
        let text = answer(alloc, line)?;
        let mut told = shown(alloc, text.as_slice())?;
        told.push('\n')?;
        Ok(told)
    }
}
