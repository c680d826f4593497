//! Copies of requests and of intents.
ghost use Rattle.std.specs.Prelude.{◌≡◌, IfOk};

use hazard_types::{List, Oom};
use office_types::{EventPart, Intent, PutPart, Request, RoutinePart};
use std::alloc::Global;

/// Returns a copy of an intent that opens or joins an event.
pub(crate) fn clone_put(part: &PutPart) -> Result<PutPart, Oom>
    ensures { IfOk result (λ copy. copy ≡ part.now) }
{
    Ok(part.clone()?)
}

/// Returns a copy of an intent that ends or restates an event.
pub(crate) fn clone_event(part: &EventPart) -> Result<EventPart, Oom>
    ensures { IfOk result (λ copy. copy ≡ part.now) }
{
    Ok(part.clone()?)
}

/// Returns a copy of an intent that makes a routine line.
pub(crate) fn clone_routine(part: &RoutinePart) -> Result<RoutinePart, Oom>
    ensures { IfOk result (λ copy. copy ≡ part.now) }
{
    Ok(part.clone()?)
}

/// Returns a copy of an intent.
pub(crate) fn clone_intent(intent: &Intent) -> Result<Intent, Oom>
    ensures { IfOk result (λ copy. copy ≡ intent.now) }
{
    match intent {
        Intent::Put(part) => Ok(Intent::Put(clone_put(part)?)),
        Intent::Finish(part) => Ok(Intent::Finish(clone_event(part)?)),
        Intent::Restate(part) => Ok(Intent::Restate(clone_event(part)?)),
        Intent::Routine(part) => Ok(Intent::Routine(clone_routine(part)?)),
    }
}

/// Returns a copy of the intents, in order.
pub(crate) fn copied_intents(alloc: Global, intents: &[Intent]) -> Result<List<Intent>, Oom>
    ensures { IfOk result (λ copy. copy ≡ intents.now) }
{
    let mut copy = List::new(alloc);
    for intent in intents {
        copy.push(clone_intent(intent)?)?;
    }
    Ok(copy)
}

/// Returns a copy of a request.
pub(crate) fn clone_request(r: &Request) -> Result<Request, Oom>
    ensures { IfOk result (λ copy. copy ≡ r.now) }
{
    match r {
        Request::Issue(part) => Ok(Request::Issue(clone_put(part)?)),
        Request::Begin(category) => Ok(Request::Begin(*category)),
        Request::Put(id, part) => Ok(Request::Put(*id, clone_put(part)?)),
        Request::Finish(id, part) => Ok(Request::Finish(*id, clone_event(part)?)),
        Request::Restate(id, part) => Ok(Request::Restate(*id, clone_event(part)?)),
        Request::Routine(id, part) => Ok(Request::Routine(*id, clone_routine(part)?)),
        Request::Drop(id, place) => Ok(Request::Drop(*id, *place)),
        Request::Take(id) => Ok(Request::Take(*id)),
        Request::Discard(id) => Ok(Request::Discard(*id)),
        Request::Send(id) => Ok(Request::Send(*id)),
        Request::Correct(number, given) => Ok(Request::Correct(*number, given.clone()?)),
    }
}
