//! The events that have an unended row, each with the greatest end of these rows.
ghost use Rattle.std.specs.Prelude.{◌≡◌, ◌≤◌, ◌<◌, ◌+◌, true, false, length, None, is_none, IfOk, IfErr, IsSome, if◌then◌else◌};
ghost use Rattle.std.specs.List.{prefix_len};
ghost use Rattle.std.specs.List.Sorted.{IsStrictlySortedBy};
ghost use Rattle.std.specs.Ordering.{is_lt};
ghost use Rattle.std.specs.Vec.{vec_len, vec_capacity};
ghost use Rattle.hazard_types.specs.Orders.{by_event};
ghost use Rattle.hazard_types.specs.Same.{same_event};
ghost use Rattle.hazard_types.specs.declared.hazard.Event.{Event as AnyEvent};
ghost use Rattle.hazard_board.specs.Periods.{by_period, latest_in};
ghost use Rattle.hazard_board.specs.Standing.{by_standing, end_in, insert_standing, without, IsPlaceOf, IsGapFor, touches, touched, are_equal_ends, moves_end, newly};

use crate::periods::{PeriodCount, latest_in};
use event_life::is_routine;
use hazard_types::{End, Event, Line};

/// An event that has an unended row.
#[derive(Clone, Copy, Debug, PartialEq, Eq)]
pub struct Standing {
    pub event: Event,
    /// The greatest end of its unended rows. Until further notice is greater than any minute.
    pub latest: End,
}

/// Returns how many of the events, which are in order by hazard, number and year, come before `e`.
fn events_before(standing: &[Standing], e: &Event) -> usize
    requires { IsStrictlySortedBy by_standing standing.now }
    ensures value { result ≡ prefix_len (λ s. is_lt (by_event s.event e.now)) standing.now }
    ensures bound { result ≤ length standing.now }
{
    standing.partition_point(
        |s: &Standing| -> bool
            ensures { result ≡ is_lt (by_event s.now.event e.entry.now) }
        { s.event.order(e).is_lt() },
    )
}

/// Returns the index of event `e` in `standing`, or as `Err` the index at which to insert it.
/// `standing` is in order by hazard, number and year.
fn place_of(standing: &[Standing], e: &Event) -> Result<usize, usize>
    requires { IsStrictlySortedBy by_standing standing.now }
    ensures found { IfOk result (IsPlaceOf e.now standing.now) }
    ensures absent { IfErr result (IsGapFor e.now standing.now) }
{
    let place = events_before(standing, e);
    if place >= standing.len() {
        return Err(place);
    }
    let found = &standing[place];
    if found.event == *e {
        Ok(place)
    } else {
        Err(place)
    }
}

/// Inserts an event with its latest end into `standing`, which is in order by hazard, number and
/// year, or replaces the entry of the event. There must be capacity for it.
fn insert_standing(standing: &mut Vec<Standing>, s: &Standing)
    requires order { IsStrictlySortedBy by_standing standing.old.items }
    requires room { end_in standing.old.items s.now.event ≡ None
        → vec_len standing.old < vec_capacity standing.old }
    ensures items { standing.new.items ≡ insert_standing s.now standing.old.items }
    ensures capacity { vec_capacity standing.old ≤ vec_capacity standing.new }
    ensures length { vec_len standing.new ≤ vec_len standing.old
        + (if is_none (end_in standing.old.items s.now.event) then 1 else 0) }
{
    match place_of(standing, &s.event) {
        Ok(place) => standing[place] = *s,
        Err(place) => match standing.insert(place, *s) {
            Ok(()) => {}
            Err(_) => unreachable!(),
        },
    }
}

/// Removes the entry of event `e` from `standing`, which is in order by hazard, number and year;
/// does nothing if there is none.
fn take_out(standing: &mut Vec<Standing>, e: &Event)
    requires order { IsStrictlySortedBy by_standing standing.old.items }
    ensures items { standing.new.items ≡ without e.now standing.old.items }
    ensures capacity { vec_capacity standing.old ≤ vec_capacity standing.new }
    ensures length { vec_len standing.new ≤ vec_len standing.old }
{
    if let Ok(place) = place_of(standing, e) {
        standing.remove(place);
    }
}

/// Sets the latest end of event `e` in `standing`, which is in order by hazard, number and year, or
/// removes its entry if `latest` is `None`. There must be capacity for a new entry.
fn set_end(standing: &mut Vec<Standing>, e: &Event, latest: &Option<End>)
    requires order { IsStrictlySortedBy by_standing standing.old.items }
    requires room { IsSome latest.now
        → end_in standing.old.items e.now ≡ None
        → vec_len standing.old < vec_capacity standing.old }
    ensures order { IsStrictlySortedBy by_standing standing.new.items }
    ensures ends { (d : AnyEvent) →
        end_in standing.new.items d
        ≡ (if same_event e.now d then latest.now else end_in standing.old.items d) }
    ensures capacity { vec_capacity standing.old ≤ vec_capacity standing.new }
    ensures length { vec_len standing.new
        ≤ vec_len standing.old + (if is_none (end_in standing.old.items e.now) then 1 else 0) }
{
    match latest {
        Some(latest) => insert_standing(
            standing,
            &Standing {
                event: *e,
                latest: *latest,
            },
        ),
        None => take_out(standing, e),
    }
}

/// Returns the latest end that `standing` has for event `e`, or `None` if it has no entry of the
/// event. `standing` is in order by hazard, number and year.
fn end_in(standing: &[Standing], e: &Event) -> Option<End>
    requires { IsStrictlySortedBy by_standing standing.now }
    ensures { result ≡ end_in standing.now e.now }
{
    let place = events_before(standing, e);
    if place >= standing.len() {
        return None;
    }
    let found = &standing[place];
    if found.event == *e {
        Some(found.latest)
    } else {
        None
    }
}

/// Whether the two ends are equal, or both are `None`.
fn are_equal_ends(first: &Option<End>, second: &Option<End>) -> bool
    ensures { result ≡ are_equal_ends first.now second.now }
{
    match first {
        Some(first) => match second {
            Some(second) => *first == *second,
            None => false,
        },
        None => match second {
            Some(_) => false,
            None => true,
        },
    }
}

/// Whether the line is of the event and is not ROU, so that it may change a row of it.
fn touches(line: &Line, e: &Event) -> bool
    ensures { result ≡ touches e.now line.now }
{
    !is_routine(&line.action) && line.event == *e
}

/// Whether the line is not ROU and the end that `standing` has for its event (`None` if it has no
/// entry) differs from `latest`. `standing` is in order by hazard, number and year.
fn moves_end(standing: &[Standing], line: &Line, latest: &Option<End>) -> bool
    requires { IsStrictlySortedBy by_standing standing.now }
    ensures { result ≡ moves_end standing.now line.now latest.now }
{
    !is_routine(&line.action) && !are_equal_ends(&end_in(standing, &line.event), latest)
}

/// Whether there are lines and the last is of the event and not ROU.
fn touches_last(lines: &[Line], e: &Event) -> bool
    ensures { result ≡ true → touched lines.now e.now ≡ true }
{
    if lines.is_empty() {
        return false;
    }
    let last = lines.len() - 1;
    let line = &lines[last];
    touches(line, e)
}

/// Whether the line is not ROU and the end that `standing` has for its event differs from the
/// event's latest end in `periods`, so that it must be set. `false` if the last of `earlier`, the
/// product's lines before this one, is of the same event and not ROU, since the end was then set
/// for that line. `standing` is in order by hazard, number and year, `periods` by event (year,
/// number, hazard), then end, a later one first.
fn is_end_to_set(
    standing: &[Standing],
    periods: &[PeriodCount],
    earlier: &[Line],
    line: &Line,
) -> bool
    requires order { IsStrictlySortedBy by_standing standing.now }
    requires periods { IsStrictlySortedBy by_period periods.now }
    ensures moves { result ≡ true
        → moves_end standing.now line.now (latest_in periods.now line.now.event) ≡ true }
    ensures stays { result ≡ false
        → touched earlier.now line.now.event ≡ false
        → moves_end standing.now line.now (latest_in periods.now line.now.event) ≡ false }
{
    if touches_last(earlier, &line.event) {
        return false;
    }
    let latest = latest_in(periods, &line.event);
    moves_end(standing, line, &latest)
}

/// Sets in `standing`, for each event that has a line other than ROU, the latest end that `periods`
/// has for it, and removes events that have none there. `standing` is in order by hazard, number
/// and year and must have capacity for the new events; `periods` is in order by event (year,
/// number, hazard), then end, a later one first.
pub fn set_latest_ends(standing: &mut Vec<Standing>, periods: &[PeriodCount], lines: &[Line])
    requires periods { IsStrictlySortedBy by_period periods.now }
    requires order { IsStrictlySortedBy by_standing standing.old.items }
    requires room { vec_len standing.old + newly standing.old.items lines.now
        ≤ vec_capacity standing.old }
    ensures order { IsStrictlySortedBy by_standing standing.new.items }
    ensures ends { (e : AnyEvent) →
        end_in standing.new.items e
        ≡ (if touched lines.now e then latest_in periods.now e else end_in standing.old.items e) }
    ensures capacity { vec_capacity standing.old ≤ vec_capacity standing.new }
    ensures length { vec_len standing.new
        ≤ vec_len standing.old + newly standing.old.items lines.now }
{
    for (place, line) in lines.iter().enumerate() {
        if is_end_to_set(standing, periods, &lines[..place], line) {
            let latest = latest_in(periods, &line.event);
            set_end(standing, &line.event, &latest);
        }
    }
}
