//! The lines of calls: `read BYTES` and `stream BYTES` read calls, `answer STATUS KIND LAST BODY`
//! writes an answer, `status NAME` gives the HTTP status of a refusal.
use crate::calls::bytes::{bytes_of, shown};
use hazard_types::{Oom, Text};
use office_types::Query;
use std::alloc::{AllocError, Global};
use warn_http::{
    BodyKind, Call, HttpRead, Routes, is_status, read_call, refusal_status, write_answer,
};
use worked_lines::{Work, refusal_named};

/// Returns in words what a call asks for, as `look product 1`; a post has the range of the bytes of
/// its body, as `post 40..60`.
fn call_text(alloc: Global, call: Call) -> Result<String, AllocError> {
    match call {
        Call::Post(span) => {
            let from = span.from;
            let to = span.to;
            format!(in alloc; "post {from}..{to}")
        }
        Call::Look(query) => match query {
            Query::Board => format!(in alloc; "look board"),
            Query::Product(number) => format!(in alloc; "look product {number}"),
            Query::After(number) => format!(in alloc; "look after {number}"),
            Query::Draft(number) => format!(in alloc; "look draft {number}"),
            Query::Preview(number) => format!(in alloc; "look preview {number}"),
        },
    }
}

/// Returns in words what was read at the start of some bytes: a call with the number of bytes that
/// it takes, and `last` if no call may follow it, or `more` if the call is not whole, `refused`
/// with the name of the refusal, or `out of memory`.
fn read_text(alloc: Global, read: &HttpRead) -> Result<String, AllocError> {
    match read {
        HttpRead::Call { call, used, last } => {
            let call = call_text(alloc, *call)?;
            if *last {
                format!(in alloc; "call {call} used {used} last")
            } else {
                format!(in alloc; "call {call} used {used}")
            }
        }
        HttpRead::More => format!(in alloc; "more"),
        HttpRead::Refused(refusal) => format!(in alloc; "refused {refusal:?}"),
        HttpRead::OutOfMemory => format!(in alloc; "out of memory"),
    }
}

/// Returns the number of bytes that a call takes if another call may follow it, or `None` if it is
/// the last one or no call was read.
fn used_unless_last(read: &HttpRead) -> Option<usize> {
    match read {
        HttpRead::Call { used, last, .. } => { if *last { None } else { Some(*used) } }
        _ => None,
    }
}

/// Returns in words, with commas between them, what is read at the start of the bytes, then after
/// the first call, and so on, up to the last call or the first that can't be read. After 10,000
/// calls it stops, with `spent`.
fn stream_text(alloc: Global, routes: &Routes, bytes: &[u8]) -> Result<String, AllocError> {
    let mut text = String::new(alloc);
    let mut left = bytes;
    for _ in 0..10_000u32 {
        let read = read_call(alloc, routes, left);
        let answer = read_text(alloc, &read)?;
        text.push_str(answer.as_str())?;
        let Some(used) = used_unless_last(&read) else {
            return Ok(text);
        };
        text.push_str(", ")?;
        left = left.get(used..).unwrap_or(b"");
    }
    text.push_str("spent")?;
    Ok(text)
}

/// Returns the bytes of the HTTP answer that the words `STATUS KIND LAST BODY` describe, or `None`
/// if STATUS is no status that the desk answers with or KIND is neither `json` nor `plain`. The
/// answer has `Connection: close` if LAST is `last`. BODY, which may be absent, has the pieces and
/// escapes of a script's bytes.
fn answer_text(alloc: Global, words: &str) -> Result<Option<Text>, Oom> {
    let Some((status, words)) = words.split_once(' ') else {
        return Ok(None);
    };
    let Some((kind, words)) = words.split_once(' ') else {
        return Ok(None);
    };
    let (last, body) = words.split_once(' ').unwrap_or((words, ""));
    let Ok(status) = status.parse::<u16>() else {
        return Ok(None);
    };
    let kind = match kind {
        "json" => BodyKind::Json,
        "plain" => BodyKind::Plain,
        _ => return Ok(None),
    };
    if !is_status(status) {
        return Ok(None);
    }
    let body = bytes_of(alloc, body)?;
    let text = write_answer(alloc, status, kind, &body, last == "last")?;
    Ok(Some(text))
}

/// The script, which keeps only the routes from line to line.
#[derive(Drop)]
pub struct Script {
    routes: Routes,
}

impl Script {
    /// Returns a script with the routes of the server.
    ///
    /// # Errors
    ///
    /// Out of memory.
    pub fn new(alloc: Global) -> Result<Self, Oom> {
        let routes = Routes::new(alloc)?;
        Ok(Script { routes })
    }
}

impl Work for Script {
    /// Returns what to print for a line `read`, `stream`, `answer` or `status`, with an LF:
    /// `unread: ` and the line if its words are wrong. Any other line is returned unchanged.
    fn work(&mut self, alloc: Global, line: &str) -> Result<String, Oom> {
        match line.split_once(' ') {
            Some(("read", text)) => {
                let bytes = bytes_of(alloc, text)?;
                let read = read_call(alloc, &self.routes, bytes.as_slice());
                let answer = read_text(alloc, &read)?;
                Ok(format!(in alloc; "{answer}\n")?)
            }
            Some(("stream", text)) => {
                let bytes = bytes_of(alloc, text)?;
                let answer = stream_text(alloc, &self.routes, bytes.as_slice())?;
                Ok(format!(in alloc; "{answer}\n")?)
            }
            Some(("answer", words)) => match answer_text(alloc, words)? {
                Some(text) => {
                    let text = shown(alloc, text.as_slice())?;
                    Ok(format!(in alloc; "{text}\n")?)
                }
                None => Ok(format!(in alloc; "unread: {line}\n")?),
            },
            Some(("status", name)) => match refusal_named(alloc, name)? {
                Some(refusal) => {
                    let status = refusal_status(&refusal);
                    Ok(format!(in alloc; "{status}\n")?)
                }
                None => Ok(format!(in alloc; "unread: {line}\n")?),
            },
            _ => Ok(format!(in alloc; "{line}\n")?),
        }
    }
}
