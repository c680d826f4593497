//! The texts of replies.
ghost use Rattle.std.specs.Prelude.{◌≡◌, ◌++◌, IfOk, OnOk};
ghost use Rattle.office_types.specs.declared.request.Reply.TheVariants.{Draft, Placed, Sent};
ghost use Rattle.request_json.specs.Pieces.{draft_ok, place_end, events_ok, product_time};
ghost use Rattle.request_json.specs.Replies.{word_code, reply_text, disk_fault_text, out_of_memory_text};

use crate::pieces::{write_events, write_string, write_whole};
use hazard_types::{Event, Minute, Oom, Text, stamp};
use office_types::{Reply, SentReply, Word};
use std::alloc::Global;

/// The bytes that are reserved for the text of a reply. Most texts need no more.
const ROOM: usize = 96;

/// Returns the value of `ok` in the reply to a request on a draft, which is the value of `do` in
/// that request: `open`, `drop`, `take` or `discard`.
fn word_code(word: Word) -> &'static str
    ensures { result.now ≡ word_code word }
{
    match word {
        Word::Begun => "open",
        Word::Dropped => "drop",
        Word::Taken => "take",
        Word::Discarded => "discard",
    }
}

/// Appends the start of a reply's object: `{` and the members `draft` and `ok`, whose value is
/// `word`.
#[tactic(auto, unfolding(crate::specs::Pieces::draft_ok))]
fn write_draft_ok(alloc: Global, out: &mut Text, draft: u32, word: &str) -> Result<(), Oom>
    ensures { OnOk result (out.new ≡ out.old ++ draft_ok draft word.now) }
{
    out.extend(b"{\"draft\":")?;
    write_whole(out, draft)?;
    out.extend(b",\"ok\":")?;
    write_string(alloc, out, word.as_bytes())
}

/// Returns the text of a reply to `open`, `drop`, `take` or `discard`. `draft` is the number of the
/// draft.
#[tactic(auto, using(crate::proofs::PieceLemmas::draft_in_two))]
fn draft_text(alloc: Global, word: Word, draft: u32) -> Result<Text, Oom>
    ensures { IfOk result (λ text. text ≡ reply_text (Draft word draft)) }
{
    let mut text = Text::from_vec(Vec::with_capacity(alloc, ROOM)?);
    write_draft_ok(alloc, &mut text, draft, word_code(word))?;
    text.extend(b"}")?;
    Ok(text)
}

/// Appends a comma, the member `place` and the `}` that ends the object.
#[tactic(auto, unfolding(crate::specs::Pieces::place_end))]
fn write_place_end(out: &mut Text, place: u32) -> Result<(), Oom>
    ensures { OnOk result (out.new ≡ out.old ++ place_end place) }
{
    out.extend(b",\"place\":")?;
    write_whole(out, place)?;
    out.push(b'}')
}

/// Returns the text of a reply to `put`, `end`, `restate` or `routine`, in which `ok` is `put`
/// whichever it was. `draft` is the number of the draft, and `place` the index of its new intent,
/// counted from 0.
#[tactic(auto, using(crate::proofs::PieceLemmas::placed_in_two))]
fn placed_text(alloc: Global, draft: u32, place: u32) -> Result<Text, Oom>
    ensures { IfOk result (λ text. text ≡ reply_text (Placed draft place)) }
{
    let mut text = Text::from_vec(Vec::with_capacity(alloc, ROOM)?);
    write_draft_ok(alloc, &mut text, draft, "put")?;
    write_place_end(&mut text, place)?;
    Ok(text)
}

/// Appends the start of a reply's object: `{`, the member `events`, and `ok` with the value `send`.
#[tactic(auto, unfolding(crate::specs::Pieces::events_ok))]
fn write_events_ok(alloc: Global, out: &mut Text, events: &[Event]) -> Result<(), Oom>
    ensures { OnOk result (out.new ≡ out.old ++ events_ok events.now) }
{
    out.extend(b"{\"events\":")?;
    write_events(alloc, out, events)?;
    out.extend(b",\"ok\":")?;
    write_string(alloc, out, b"send")
}

/// Appends a comma, the members `product`, a number, and `time`, a stamp, and the `}` that ends the
/// object.
fn write_product_time(alloc: Global, out: &mut Text, product: u32, time: Minute) -> Result<(), Oom>
    ensures { OnOk result (out.new ≡ out.old ++ product_time product time) }
{
    out.extend(b",\"product\":")?;
    write_whole(out, product)?;
    out.extend(b",\"time\":")?;
    write_string(alloc, out, &stamp(time))?;
    out.push(b'}')?;
    Ok(())
}

/// Returns the text of a reply to `send`, `issue` or `correct`: the members `events`, `ok` with the
/// value `send`, `product` and `time`.
#[tactic(auto, using(crate::proofs::PieceLemmas::sent_in_two))]
fn sent_text(alloc: Global, sent: &SentReply) -> Result<Text, Oom>
    ensures { IfOk result (λ text. text ≡ reply_text (Sent sent.now)) }
{
    let mut text = Text::from_vec(Vec::with_capacity(alloc, ROOM)?);
    write_events_ok(alloc, &mut text, sent.events.as_slice())?;
    write_product_time(alloc, &mut text, sent.product, sent.time)?;
    Ok(text)
}

/// Returns the text of a reply to an accepted request as compact JSON, keys in byte order.
///
/// # Errors
///
/// Out of memory.
///
/// Source: docs/REQUESTS.md, "Replies".
pub fn reply_text(alloc: Global, reply: &Reply) -> Result<Text, Oom>
    ensures { IfOk result (λ text. text ≡ reply_text reply.now) }
{
    match reply {
        Reply::Draft(word, draft) => draft_text(alloc, *word, *draft),
        Reply::Placed(draft, place) => placed_text(alloc, *draft, *place),
        Reply::Sent(sent) => sent_text(alloc, sent),
    }
}

/// Returns the text of the reply to a request under which the disk failed: JSON with the code `D1`
/// and the name `DiskFault`.
///
/// Source: docs/REQUESTS.md, "The disk and the memory".
pub fn disk_fault_text() -> &'static [u8]
    ensures { result.now ≡ disk_fault_text }
{
    b"{\"no\":\"D1\",\"rule\":\"DiskFault\"}"
}

/// Returns the text of the reply to a request for which memory ran out: JSON with the code `M1` and
/// the name `OutOfMemory`.
///
/// Source: docs/REQUESTS.md, "The disk and the memory".
pub fn out_of_memory_text() -> &'static [u8]
    ensures { result.now ≡ out_of_memory_text }
{
    b"{\"no\":\"M1\",\"rule\":\"OutOfMemory\"}"
}
