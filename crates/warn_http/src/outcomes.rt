//! What becomes of a call, and the bytes of its answer.
ghost use Rattle.std.specs.Prelude.{◌≡◌, IsTrue, IfOk, if◌then◌else◌};
ghost use Rattle.warn_http.specs.Answers.{is_status};
ghost use Rattle.warn_http.specs.Outcomes.{kind_of, outcome_status, outcome_kind, call_answer, disk_fault_json, no_memory_json};

use crate::answers::{BodyKind, refusal_status, write_answer};
use hazard_types::{Oom, Text};
use office_types::{Query, Refusal};
use std::alloc::Global;

/// What becomes of a call.
#[derive(Clone, Debug, Drop, PartialEq, Eq)]
pub enum Outcome {
    /// A request is accepted or repeated, and its reply is the body.
    Replied,
    /// What a query asks to see is the body.
    Shown(Query),
    /// The call or its request breaks a rule, and the refusal is the body.
    Refused(Refusal),
    /// The disk failed under a request that would have been accepted.
    DiskFault,
    /// Memory ran out, and nothing was done.
    OutOfMemory,
}

/// Returns the kind of body for a query: plain text for products, previews and the board, JSON for
/// drafts.
pub fn kind_of(query: Query) -> BodyKind
    ensures { result ≡ kind_of query }
{
    match query {
        Query::Board | Query::Product(_) | Query::After(_) | Query::Preview(_) => BodyKind::Plain,
        Query::Draft(_) => BodyKind::Json,
    }
}

impl Outcome {
    /// Returns the HTTP status of the answer: 200 for a reply and for what is shown, that of the
    /// refusal for a refused call, 500 for a disk fault and 503 for out of memory (docs/HTTP.md,
    /// "Statuses").
    #[tactic(auto, unfolding(crate::specs::Answers::is_status))]
    pub fn status(&self) -> u16
        ensures value { result ≡ outcome_status self.now }
        ensures known { IsTrue (is_status result) }
    {
        match self {
            Outcome::Replied | Outcome::Shown(_) => 200,
            Outcome::Refused(refusal) => refusal_status(refusal),
            Outcome::DiskFault => 500,
            Outcome::OutOfMemory => 503,
        }
    }

    /// Returns the kind of the answer's body: that of the query for what is shown, else JSON.
    pub fn kind(&self) -> BodyKind
        ensures { result ≡ outcome_kind self.now }
    {
        match self {
            Outcome::Shown(query) => kind_of(*query),
            Outcome::Replied | Outcome::Refused(_) | Outcome::DiskFault | Outcome::OutOfMemory =>
                BodyKind::Json,
        }
    }
}

/// Returns the bytes of the answer to a call with this outcome and body. It has `Connection: close`
/// if `last`, that is if the link closes after it.
///
/// # Errors
///
/// Out of memory.
pub fn write_call_answer(
    alloc: Global,
    outcome: &Outcome,
    body: &Text,
    last: bool,
) -> Result<Text, Oom>
    ensures { IfOk result (λ text. text ≡ call_answer outcome.now body.now last) }
{
    write_answer(alloc, outcome.status(), outcome.kind(), body, last)
}

// The fixed answers for a disk fault and for out of memory, to a link that stays open and to one
// that closes.
const DISK_FAULT: &[u8] =
    b"HTTP/1.1 500 Internal Server Error\r\nContent-Type: application/json\r\nContent-Length: 30\r\n\r\n{\"no\":\"D1\",\"rule\":\"DiskFault\"}";

const LAST_DISK_FAULT: &[u8] =
    b"HTTP/1.1 500 Internal Server Error\r\nContent-Type: application/json\r\nContent-Length: 30\r\nConnection: close\r\n\r\n{\"no\":\"D1\",\"rule\":\"DiskFault\"}";

const NO_MEMORY: &[u8] =
    b"HTTP/1.1 503 Service Unavailable\r\nContent-Type: application/json\r\nContent-Length: 32\r\n\r\n{\"no\":\"M1\",\"rule\":\"OutOfMemory\"}";

const LAST_NO_MEMORY: &[u8] =
    b"HTTP/1.1 503 Service Unavailable\r\nContent-Type: application/json\r\nContent-Length: 32\r\nConnection: close\r\n\r\n{\"no\":\"M1\",\"rule\":\"OutOfMemory\"}";

/// Returns `closing`, an answer with `Connection: close`, if `last` is true, else `staying`, the
/// same answer without it.
fn fixed(last: bool, closing: &'static [u8], staying: &'static [u8]) -> &'static [u8]
    ensures { result.now ≡ (if last then closing.now else staying.now) }
{
    if last { closing } else { staying }
}

/// Returns the bytes of the fixed answer 500 for a disk fault, with `Connection: close` if `last`.
/// Takes no memory.
pub fn disk_fault_answer(last: bool) -> &'static [u8]
    ensures { result.now ≡ call_answer Outcome.DiskFault disk_fault_json last }
{
    fixed(last, LAST_DISK_FAULT, DISK_FAULT)
}

/// Returns the bytes of the fixed answer 503 for out of memory, with `Connection: close` if `last`.
/// Takes no memory.
pub fn no_memory_answer(last: bool) -> &'static [u8]
    ensures { result.now ≡ call_answer Outcome.OutOfMemory no_memory_json last }
{
    fixed(last, LAST_NO_MEMORY, NO_MEMORY)
}
