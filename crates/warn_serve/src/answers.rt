//! The bytes of answers to calls.
ghost use Rattle.std.specs.Prelude.{◌≡◌, IfOk, OnErr};
ghost use Rattle.warn_http.specs.Outcomes.{call_answer};
ghost use Rattle.desk_links.specs.Links.{WritesLink};
ghost use Rattle.warn_serve.specs.Answers.{MayBeLost, bytes_of, look_answer, refused_answer};
ghost use Rattle.warn_serve.specs.Answers.{submit_answer};

use crate::pieces::write_reply;
use desk_links::{Link, write_link};
use desk_traits::Failed;
use hazard_types::{Oom, Or, Text};
use office_journal::Answer;
use office_types::{Query, Refusal};
use request_json::refusal_text;
use std::alloc::Global;
use warn_http::{Outcome, disk_fault_answer, no_memory_answer, write_call_answer};

/// The bytes of an answer: allocated, or fixed, or a reply to be written in pieces; the last two
/// take no memory.
#[derive(Debug, Drop)]
pub(crate) enum AnswerBytes {
    Written(Text),
    Fixed(&'static [u8]),
    InPieces { reply: Text, last: bool },
}

impl AnswerBytes {
    /// Writes the bytes of the answer to the link. Takes no memory.
    ///
    /// # Errors
    ///
    /// `Failed` if a write failed; a prefix of the bytes may be written.
    pub(crate) fn write<L: Link>(&self, link: &mut L) -> Result<(), Failed>
        ensures { WritesLink (L.state link.old) (L.state link.new) result (bytes_of self.now) }
    {
        match self {
            AnswerBytes::Written(text) => write_link(link, text.as_slice()),
            AnswerBytes::Fixed(text) => write_link(link, text),
            AnswerBytes::InPieces { reply, last } => write_reply(link, reply, *last),
        }
    }
}

/// Returns the HTTP answer with this body to a call that came to this outcome. It has `Connection:
/// close` if `last`, that is if the link closes after it. `Err` is out of memory.
fn answer_with(
    alloc: Global,
    outcome: &Outcome,
    body: &Text,
    last: bool,
) -> Result<AnswerBytes, Oom>
    ensures { IfOk result (λ bytes. bytes_of bytes ≡ call_answer outcome.now body.now last) }
{
    let text = write_call_answer(alloc, outcome, body, last)?;
    Ok(AnswerBytes::Written(text))
}

/// Returns the answer to a refused call: the refusal as JSON, with its HTTP status, and with
/// `Connection: close` if `last`.
///
/// # Errors
///
/// Out of memory.
pub(crate) fn refused_answer(
    alloc: Global,
    refusal: Refusal,
    last: bool,
) -> Result<AnswerBytes, Oom>
    ensures { IfOk result (λ bytes. bytes_of bytes ≡ refused_answer refusal last) }
{
    let body = refusal_text(alloc, &refusal)?;
    answer_with(alloc, &Outcome::Refused(refusal), &body, last)
}

/// Returns the 200 answer whose body is this reply, with `Connection: close` if `last`. If memory
/// runs out for its bytes, it is one to be written in pieces.
fn reply_response(alloc: Global, reply: Text, last: bool) -> AnswerBytes
    ensures { bytes_of result ≡ call_answer Outcome.Replied reply last }
{
    match answer_with(alloc, &Outcome::Replied, &reply, last) {
        Ok(answer) => answer,
        Err(Oom) => AnswerBytes::InPieces { reply, last },
    }
}

/// Returns the answer to a call that posted a request, which the office answered with `answer`. It
/// has `Connection: close` if `last`.
///
/// # Errors
///
/// Out of memory, for a refused request only.
pub(crate) fn submit_answer(alloc: Global, answer: Answer, last: bool) -> Result<AnswerBytes, Oom>
    ensures bytes { IfOk result (λ bytes. bytes_of bytes ≡ submit_answer answer last) }
    ensures lost { OnErr result (MayBeLost answer) }
{
    match answer {
        Answer::Accepted(reply) => Ok(reply_response(alloc, reply.into_text(), last)),
        Answer::Repeated(reply) => Ok(reply_response(alloc, reply.into_text(), last)),
        Answer::Refused(refusal) => refused_answer(alloc, refusal, last),
        Answer::DiskFault => Ok(AnswerBytes::Fixed(disk_fault_answer(last))),
        Answer::OutOfMemory => Ok(AnswerBytes::Fixed(no_memory_answer(last))),
    }
}

/// Returns the answer to a call with a query. `shown` is the text that the query asks to see, or
/// why there is none; the answer has `Connection: close` if `last`.
///
/// # Errors
///
/// Out of memory.
pub(crate) fn look_answer(
    alloc: Global,
    query: Query,
    shown: Result<Text, Or<Refusal>>,
    last: bool,
) -> Result<AnswerBytes, Oom>
    ensures { IfOk result (λ bytes. bytes_of bytes ≡ look_answer query shown last) }
{
    match shown {
        Ok(text) => answer_with(alloc, &Outcome::Shown(query), &text, last),
        Err(Or::No(refusal)) => refused_answer(alloc, refusal, last),
        Err(Or::OutOfMemory) => Ok(AnswerBytes::Fixed(no_memory_answer(last))),
    }
}
