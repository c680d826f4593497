//! The texts of a plan: for each event that has a line, those of the first intent on it.
ghost use Rattle.std.specs.Prelude.{◌≡◌, IfOk, OnOk};
ghost use Rattle.event_life.specs.Openings.{add_event};
ghost use Rattle.action_planner.specs.Texts.{texts_of, no_texts, texts_on, events_of, event_texts};

use crate::placed::Placed;
use hazard_types::{Event, Line, List, Oom};
use office_types::{EventTexts, Intent, Texts};
use std::alloc::Global;
use std::collections::BTreeSet;

/// Returns the texts of an intent: what, area, impacts and details.
fn texts_of(intent: &Intent) -> &Texts
    ensures { result.now ≡ texts_of intent.now }
{
    match intent {
        Intent::Put(part) => &part.texts,
        Intent::Finish(part) => &part.texts,
        Intent::Restate(part) => &part.texts,
        Intent::Routine(part) => &part.texts,
    }
}

/// Returns texts whose fields are all empty.
pub fn no_texts(alloc: Global) -> Texts
    ensures { result ≡ no_texts }
{
    Texts {
        what: List::new(alloc),
        area: List::new(alloc),
        impacts: List::new(alloc),
        details: List::new(alloc),
    }
}

/// Returns a copy of texts.
///
/// # Errors
///
/// Out of memory.
pub fn copied(texts: &Texts) -> Result<Texts, Oom>
    ensures { IfOk result (λ copy. copy ≡ texts.now) }
{
    let copy = texts.clone()?;
    Ok(copy)
}

/// Returns a copy of the texts of the first intent of `ps` that is on the event, in whatever zone,
/// or empty texts if there is no such intent.
fn texts_on(alloc: Global, ps: &[Placed], event: &Event) -> Result<Texts, Oom>
    ensures { IfOk result (λ texts. texts ≡ texts_on ps.now event.now) }
{
    for p in ps {
        if p.event == *event {
            return copied(texts_of(p.intent));
        }
    }
    Ok(no_texts(alloc))
}

/// Adds an event to a set.
#[tactic(auto, using(crate::proofs::TextLemmas::key_added))]
fn add_event(events: &mut BTreeSet<Event>, event: &Event) -> Result<(), Oom>
    ensures { OnOk result (events.new.keys ≡ add_event event.now events.old.keys) }
{
    events.insert(*event)?;
    Ok(())
}

/// Returns the events that have a line, in ascending order, each once.
///
/// # Errors
///
/// Out of memory.
pub fn events_of(alloc: Global, lines: &[Line]) -> Result<BTreeSet<Event>, Oom>
    ensures { IfOk result (λ events. events.keys ≡ events_of lines.now) }
{
    let mut events = BTreeSet::new(alloc);
    for place in (0..lines.len()).rev() {
        add_event(&mut events, &lines[place].event)?;
    }
    Ok(events)
}

/// Returns each event that has a line, in ascending order, with a copy of the texts of the first
/// intent of `ps` that is on it, or empty texts if none is.
///
/// # Errors
///
/// Out of memory.
pub fn event_texts(alloc: Global, ps: &[Placed], lines: &[Line]) -> Result<List<EventTexts>, Oom>
    ensures { IfOk result (λ texts. texts ≡ event_texts ps.now (events_of lines.now)) }
{
    let mut told = List::new(alloc);
    for event in events_of(alloc, lines)? {
        let texts = texts_on(alloc, ps, &event)?;
        told.push(EventTexts { event, texts })?;
    }
    Ok(told)
}
