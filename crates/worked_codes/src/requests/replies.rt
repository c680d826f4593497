//! Examples of replies, by name, and of drafts.
use hazard_types::{Category, Event, Hazard, List, Minute, Oom, Phen, Sig, parse_stamp};
use office_types::{Desk, Draft, Intent, Reply, Request, SentReply, Word};
use std::alloc::Global;

/// Returns the event of hazard WS.W with this event tracking number in 2018. `None` does not occur.
fn event(etn: u16) -> Option<Event> {
    let phen = Phen::new(*b"WS")?;
    let hazard = Hazard { phen, sig: Sig::W };
    Some(Event {
        hazard,
        etn,
        year: 2018,
    })
}

/// Returns the reply to a `send` of product 1, at 2018-01-03 15:30 UTC, that opens the events WS.W
/// 1 to `count` of 2018. `None` does not occur.
fn sent(alloc: Global, count: u16) -> Result<Option<Reply>, Oom> {
    let Some(time) = parse_stamp(b"180103T1530Z") else {
        return Ok(None);
    };
    let mut events = List::new(alloc);
    for etn in 0..count {
        let found = event(etn + 1);
        if let Some(event) = found {
            events.extend(&[event])?;
        }
    }
    Ok(Some(Reply::Sent(SentReply {
        product: 1,
        time,
        events,
    })))
}

/// Returns the example of a reply with this name, as `open` or `send two`, or `None` if no example
/// has this name.
///
/// # Errors
///
/// Out of memory.
pub fn reply_named(alloc: Global, name: &str) -> Result<Option<Reply>, Oom> {
    let reply = match name {
        "open" => Reply::Draft(Word::Begun, 1),
        "drop" => Reply::Draft(Word::Dropped, 2),
        "take" => Reply::Draft(Word::Taken, 4_294_967_295),
        "discard" => Reply::Draft(Word::Discarded, 0),
        "put" => Reply::Placed(1, 0),
        "send" => return sent(alloc, 1),
        "send two" => return sent(alloc, 2),
        "send none" => return sent(alloc, 0),
        _ => return Ok(None),
    };
    Ok(Some(reply))
}

/// Returns the intent that a request adds to a draft, or that an issue has for its own product, or
/// `None` for any other request.
fn intent_of(request: Request) -> Option<Intent> {
    match request {
        Request::Issue(part) => Some(Intent::Put(part)),
        Request::Put(_draft, part) => Some(Intent::Put(part)),
        Request::Finish(_draft, part) => Some(Intent::Finish(part)),
        Request::Restate(_draft, part) => Some(Intent::Restate(part)),
        Request::Routine(_draft, part) => Some(Intent::Routine(part)),
        _ => None,
    }
}

/// Returns draft 1, of category WSW, with the intent of `request` as its only one, or without
/// intents if the request has none. `owner` is the desk that owns it, and `touched` the minute of
/// the last request on it.
///
/// # Errors
///
/// Out of memory.
pub fn draft_with(
    alloc: Global,
    owner: Desk,
    touched: Minute,
    request: Request,
) -> Result<Draft, Oom> {
    let mut intents = List::new(alloc);
    if let Some(intent) = intent_of(request) {
        intents.push(intent)?;
    }
    Ok(Draft {
        id: 1,
        owner,
        category: Category::Wsw,
        touched,
        intents,
    })
}
