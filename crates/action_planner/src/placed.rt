//! The intents of a draft at their places, each with its event.
ghost use Rattle.std.specs.Prelude.{◌≡◌, ◌<◌, ◌≤◌, count_by, length, IfOk};
ghost use Rattle.action_planner.specs.Placed.{zones_of, placed, opens_hazard, new_event, event_of_intent, is_opening, opened};

use event_numbers::Numbers;
use hazard_types::{Event, Hazard, List, Minute, Oom, Zone, year_of};
use office_types::{Intent, Target};
use std::alloc::Global;
use std::marker::Model;

/// An intent of a draft, its place (counted from 0) and its event.
#[derive(Drop)]
pub struct Placed<'a> {
    pub place: usize,
    pub event: Event,
    pub intent: &'a Intent,
}

impl<'a> Model for Placed<'a> {
    ghost use Rattle.action_planner.specs.Placed.{Placed as PlacedIntent};

    ghost Value = { PlacedIntent };

    ghost view = { λ p. record { place = p.place; event = p.event; intent = p.intent.now } };
}

/// Returns the zones of an intent, in the order in which they were written.
pub fn zones_of(intent: &Intent) -> &[Zone]
    ensures { result.now ≡ zones_of intent.now }
{
    match intent {
        Intent::Put(part) => part.zones.as_slice(),
        Intent::Finish(part) => part.zones.as_slice(),
        Intent::Restate(part) => part.zones.as_slice(),
        Intent::Routine(part) => part.zones.as_slice(),
    }
}

/// Whether the intent opens a new event of this hazard.
fn opens_hazard(hazard: &Hazard, intent: &Intent) -> bool
    ensures { result ≡ opens_hazard hazard.now intent.now }
{
    match intent {
        Intent::Put(part) => match &part.target {
            Target::Fresh(fresh) => *fresh == *hazard,
            Target::Join(_) => false,
        },
        Intent::Finish(_) | Intent::Restate(_) | Intent::Routine(_) => false,
    }
}

/// Returns the number of intents that open a new event of this hazard.
fn openings(hazard: &Hazard, intents: &[Intent]) -> usize
    ensures value { result ≡ count_by (opens_hazard hazard.now) intents.now }
    ensures few { result ≤ length intents.now }
{
    intents
        .iter()
        .filter(|intent| opens_hazard(hazard, intent))
        .count()
}

/// Returns the new event of a hazard in the year of `t`, the minute of issue. Its number is one
/// more than how many numbers of the hazard `numbers` has drawn in that year and `earlier`, the
/// draft's intents before this one, draw.
fn new_event(numbers: &Numbers, t: Minute, earlier: &[Intent], hazard: &Hazard) -> Event
    requires { length earlier.now ≤ 64 }
    ensures { result ≡ new_event numbers.now.counts t earlier.now hazard.now }
{
    let year = year_of(t);
    let next = numbers.next(*hazard, year);
    let count = openings(hazard, earlier) as u16;
    Event {
        hazard: *hazard,
        etn: next + count,
        year,
    }
}

/// Returns the event of an intent of a draft. For a put that opens one it is a new event, with the
/// next number of its hazard after those that `numbers` has drawn in its year and those that
/// `earlier`, the draft's intents before it, draw; for a routine intent it has the intent's hazard
/// and number 0; for any other it is the event that the intent names. In the first two cases its
/// year is that of `t`, the minute of issue.
fn event_of_intent(numbers: &Numbers, t: Minute, earlier: &[Intent], intent: &Intent) -> Event
    requires { length earlier.now ≤ 64 }
    ensures { result ≡ event_of_intent numbers.now.counts t earlier.now intent.now }
{
    match intent {
        Intent::Put(part) => match &part.target {
            Target::Fresh(hazard) => new_event(numbers, t, earlier, hazard),
            Target::Join(event) => *event,
        },
        Intent::Finish(part) => part.event,
        Intent::Restate(part) => part.event,
        Intent::Routine(part) => Event {
            hazard: part.hazard,
            etn: 0,
            year: year_of(t),
        },
    }
}

/// Returns the intents with their places, in the same order, each with its event. A new event is of
/// the year of `t`, the minute of issue, and its number is the next after those that `numbers` has
/// drawn of its hazard in that year and those that the intents before it draw.
///
/// # Errors
///
/// Out of memory.
///
/// Source: NWS Instruction 10-1703, P-VTEC event tracking numbers; docs/DECISIONS.md, "Plans".
pub fn place_all<'a>(
    alloc: Global,
    numbers: &Numbers,
    intents: &'a [Intent],
    t: Minute,
) -> Result<Vec<Placed<'a>>, Oom>
    requires { length intents.now ≤ 64 }
    ensures { IfOk result (λ ps. ps.items ≡ placed numbers.now.counts t intents.now) }
{
    let mut ps = Vec::new(alloc);
    for (place, intent) in intents.iter().enumerate() {
        let event = event_of_intent(numbers, t, &intents[..place], intent);
        ps.push(Placed {
            place,
            event,
            intent,
        })?;
    }
    Ok(ps)
}

/// Whether the intent opens a new event.
pub fn is_opening(intent: &Intent) -> bool
    ensures { result ≡ is_opening intent.now }
{
    match intent {
        Intent::Put(part) => match &part.target {
            Target::Fresh(_) => true,
            Target::Join(_) => false,
        },
        Intent::Finish(_) | Intent::Restate(_) | Intent::Routine(_) => false,
    }
}

/// Returns the new events that the intents open, in the order of `ps`.
///
/// # Errors
///
/// Out of memory.
pub fn opened_events(alloc: Global, ps: &[Placed]) -> Result<List<Event>, Oom>
    ensures { IfOk result (λ events. events ≡ opened ps.now) }
{
    let mut events = Vec::new(alloc);
    for p in ps {
        if is_opening(p.intent) {
            events.push(p.event)?;
        }
    }
    Ok(List::from_vec(events))
}
