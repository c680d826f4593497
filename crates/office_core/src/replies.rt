//! The reply to a request.
ghost use Rattle.std.specs.Prelude.{◌≡◌, ◌≤◌, ◌<◌, IfOk, find, length, option_map};
ghost use Rattle.std.specs.List.{All};
ghost use Rattle.office_types.specs.declared.request.Draft.{Draft as OpenDraft};
ghost use Rattle.office_core.specs.State.{is_draft};
ghost use Rattle.office_core.specs.Step.{intents_of, reply_of, sent_reply};

use crate::made::Made;
use crate::office::Office;
use hazard_types::Oom;
use office_types::{Draft, Reply, Request, SentReply, Word};

/// Returns the draft of `drafts` whose id is `id`, or `None` if there is none.
pub(crate) fn find_draft(drafts: &[Draft], id: u32) -> Option<&Draft>
    ensures { option_map (λ d. d.now) result ≡ find (is_draft id) drafts.now }
{
    for draft in drafts {
        if draft.id == id {
            return Some(draft);
        }
    }
    None
}

/// Returns the reply to a request that made a product: its number, its minute and the events that
/// it opened. Without a product, which does not occur, it is a reply on draft 0.
fn sent_reply(made: &Option<Made>) -> Result<Reply, Oom>
    ensures { IfOk result (λ reply. reply ≡ sent_reply made.now) }
{
    match made {
        Some(made) => Ok(Reply::Sent(SentReply {
            product: made.sent.number,
            time: made.sent.time,
            events: made.opened.clone()?,
        })),
        None => Ok(Reply::Draft(Word::Begun, 0)),
    }
}

/// Returns how many intents the draft of `drafts` whose id is `id` has, or 0 if there is no such
/// draft.
fn intents_of(drafts: &[Draft], id: u32) -> u32
    requires { All (λ (d : OpenDraft). length d.intents ≤ 64) drafts.now }
    ensures { result ≡ length (intents_of (find (is_draft id) drafts.now)) }
{
    match find_draft(drafts, id) {
        Some(draft) => draft.intents.len() as u32,
        None => 0,
    }
}

impl Office {
    /// Returns the reply to a request that breaks no rule; the office is still as before the
    /// request. To an issue, a send and a correction it gives the number, the minute and the opened
    /// events of `made`, the product; to an added intent the draft's id and the intent's place, the
    /// number of intents before it; and to any other request the draft's id and what became of it
    /// (begun, an intent dropped, taken, discarded).
    pub(crate) fn reply_of(&self, r: &Request, made: &Option<Made>) -> Result<Reply, Oom>
        requires ids { self.now.state.begun < 4294967295 }
        ensures { IfOk result (λ reply. reply ≡ reply_of self.now.state r.now made.now) }
    {
        match r {
            Request::Issue(_) | Request::Send(_) | Request::Correct(..) => sent_reply(made),
            Request::Begin(_) => Ok(Reply::Draft(Word::Begun, self.begun + 1)),
            Request::Put(id, _)
            | Request::Finish(id, _)
            | Request::Restate(id, _)
            | Request::Routine(id, _) => Ok(Reply::Placed(*id, intents_of(&self.drafts, *id))),
            Request::Drop(id, _) => Ok(Reply::Draft(Word::Dropped, *id)),
            Request::Take(id) => Ok(Reply::Draft(Word::Taken, *id)),
            Request::Discard(id) => Ok(Reply::Draft(Word::Discarded, *id)),
        }
    }
}
