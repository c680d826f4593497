//! How far the rows of each event reach in each area, if its hazard has a rank.
ghost use Rattle.std.specs.Prelude.{◌≡◌, ◌||◌, Some, is_none, filter, true, IfOk, OnOk};
ghost use Rattle.std.specs.List.{list_any};
ghost use Rattle.event_life.specs.Higher.{is_above};
ghost use Rattle.row_index.specs.Reaching.{area_of, rank_of, is_reached, lasts, is_above_any, is_area, with_spot, with_spots, AreReached, AreTold, AreaTold, Grows, IsLast, Keeps};
ghost use Rattle.row_index.specs.Runs.{rows_along};
ghost use Rattle.row_index.specs.Sharing.{row_with};

use crate::higher::{Rank, is_above, rank_of};
use crate::keys::add_key;
use crate::parts::EventKey;
use crate::seats::Spot;
use event_life::Life;
use hazard_types::{End, Event, Minute, Oom, Zone};
use std::alloc::Global;
use std::collections::BTreeSet;
use std::collections::btree_set::Range;

/// An end up to which rows of an event reach in an area. Ordered by area, then end, then event.
#[derive(Clone, Copy, PartialEq, Eq, PartialOrd, Ord)]
pub struct Reach {
    pub area: u32,
    pub end: End,
    pub spot: Spot,
}

/// How far the rows of each event reach in each area. Entries are only added, so an end may be
/// later than those of the rows that are left.
pub type Reaches = BTreeSet<Reach>;

/// Returns the area of a zone, as a number: zones have the same if they are of one state and their
/// numbers divided by 16, rounded down, are equal.
///
/// Source: docs/DECISIONS.md, "The archive's report".
fn area_of(zone: &Zone) -> u32
    ensures { result ≡ area_of zone.now }
{
    let state = zone.state();
    let letters = u32::from(state[0]) * 256 + u32::from(state[1]);
    letters * 64 + u32::from(zone.number()) / 16
}

/// Whether `last` is this area. False if it is `None`.
fn is_area(last: &Option<u32>, area: u32) -> bool
    ensures { result ≡ is_area last.now area }
{
    match last {
        Some(other) => *other == area,
        None => false,
    }
}

/// Adds to `reaches` that `event` reaches to the end of `life` in the area of `zone`, unless that
/// area is `last`, for which the same was added before. `last` becomes the area; `None` stands for
/// no area yet.
fn reach_zone(
    reaches: &mut Reaches,
    last: &mut Option<u32>,
    event: &Event,
    life: &Life,
    zone: &Zone,
) -> Result<(), Oom>
    requires { IsLast event.now life.now last.old reaches.old.keys }
    ensures last { OnOk result (IsLast event.now life.now last.new reaches.new.keys) }
    ensures grows { OnOk result (Grows reaches.old.keys reaches.new.keys) }
    ensures reached { OnOk result
        (is_reached reaches.new.keys (row_with event.now zone.now life.now) ≡ true) }
{
    let area = area_of(zone);
    if is_area(last, area) {
        return Ok(());
    }
    let end = life.period.end;
    let spot = Spot::At(EventKey { event: *event });
    add_key(reaches, Reach { area, end, spot })?;
    *last = Some(area);
    Ok(())
}

/// Whether the life is ended or the event's hazard has no rank, so that no reach is added for it.
fn is_idle(event: &Event, life: &Life) -> bool
    ensures { result ≡ (life.now.ended || is_none (rank_of event.now)) }
{
    life.ended || rank_of(&event.hazard).is_none()
}

/// Adds to `reaches` that `event` reaches to the end of `life` in the areas of the zones. Adds
/// nothing if the life is ended or the event's hazard has no rank.
///
/// # Errors
///
/// Out of memory.
pub fn reach_each(
    reaches: &mut Reaches,
    event: &Event,
    life: &Life,
    zones: &[Zone],
) -> Result<(), Oom>
    ensures grows { OnOk result (Grows reaches.old.keys reaches.new.keys) }
    ensures reached { OnOk result
        (AreReached reaches.new.keys (rows_along event.now life.now zones.now)) }
{
    if is_idle(event, life) {
        return Ok(());
    }
    let mut last = None;
    for zone in zones {
        reach_zone(reaches, &mut last, event, life, zone)?;
    }
    Ok(())
}

/// Returns the entries of an area with an end at `t` or later, or until further notice, by end,
/// then event.
fn lasting(reaches: &Reaches, area: u32, t: Minute) -> Range<'_, Reach>
    ensures { result ≡ filter (lasts area t) reaches.now.keys }
{
    let end = End::At(t);
    let spot = Spot::Front;
    let from = Reach { area, end, spot };
    let end = End::Ufn;
    let spot = Spot::Back;
    reaches.range(from..Reach { area, end, spot })
}

/// Whether `own` is a greater rank than one of `ranks` of the same family. False if `own` is
/// `None`, and a `None` among `ranks` counts for nothing.
fn is_above_one(ranks: &[Rank], own: &Rank) -> bool
    ensures { result ≡ list_any (is_above own.now) ranks.now }
{
    ranks.iter().any(|low| is_above(own, low))
}

/// Whether an event's hazard has a greater rank than one of `ranks` of the same family.
fn is_above_any(ranks: &[Rank], event: &Event) -> bool
    ensures { result ≡ is_above_any ranks.now event.now }
{
    is_above_one(ranks, &rank_of(&event.hazard))
}

/// Adds to `events` the event at the position `spot`, if there is one there and its hazard has a
/// greater rank than one of `ranks` of the same family.
fn add_event(events: &mut BTreeSet<Event>, ranks: &[Rank], spot: &Spot) -> Result<(), Oom>
    ensures { OnOk result (events.new.keys ≡ with_spot ranks.now spot.now events.old.keys) }
{
    if let Spot::At(event) = spot {
        if is_above_any(ranks, &event.event) {
            add_key(events, event.event)?;
        }
    }
    Ok(())
}

/// Adds to `events` those that have an entry in `reaches` for this area with an end at `t` or
/// later, or until further notice, and whose hazard has a greater rank than one of `ranks` of the
/// same family.
fn add_events(
    events: &mut BTreeSet<Event>,
    reaches: &Reaches,
    area: u32,
    t: Minute,
    ranks: &[Rank],
) -> Result<(), Oom>
    ensures { OnOk result (events.new.keys
        ≡ with_spots ranks.now events.old.keys (filter (lasts area t) reaches.now.keys)) }
{
    for reach in lasting(reaches, area, t) {
        add_event(events, ranks, &reach.spot)?;
    }
    Ok(())
}

/// Adds to `events` those that have an entry in `reaches` for `area` with an end at `t` or later,
/// or until further notice, and whose hazard has a greater rank than one of `ranks` of the same
/// family. Adds nothing if `area` is `last`, the area whose events were added just before; `None`
/// stands for no area yet.
fn add_other(
    events: &mut BTreeSet<Event>,
    last: &Option<u32>,
    reaches: &Reaches,
    area: u32,
    t: Minute,
    ranks: &[Rank],
) -> Result<(), Oom>
    requires { AreaTold reaches.now.keys t ranks.now events.old.keys last.now }
    ensures told { OnOk result (AreaTold reaches.now.keys t ranks.now events.new.keys (Some area)) }
    ensures keeps { OnOk result (Keeps events.old.keys events.new.keys) }
{
    if is_area(last, area) {
        return Ok(());
    }
    add_events(events, reaches, area, t, ranks)
}

/// Returns the events that have an entry in `reaches`, for the area of one of the zones, with an
/// end at `t` or later, or until further notice, and whose hazard has a greater rank than one of
/// `ranks` of the same family. The rows that such an event has now may all end earlier, since
/// entries are never removed.
///
/// # Errors
///
/// Out of memory.
pub fn events_above(
    alloc: Global,
    reaches: &Reaches,
    zones: &BTreeSet<Zone>,
    t: Minute,
    ranks: &[Rank],
) -> Result<BTreeSet<Event>, Oom>
    ensures { IfOk result
        (λ events. AreTold reaches.now.keys zones.now.keys t ranks.now events.keys) }
{
    let mut events = BTreeSet::new(alloc);
    let mut last = None;
    for zone in zones {
        let area = area_of(zone);
        add_other(&mut events, &last, reaches, area, t, ranks)?;
        last = Some(area);
    }
    Ok(events)
}
