//! The events of a hazard that have an unended row, and which of a number is open.
ghost use Rattle.std.specs.Prelude.{◌≡◌, ◌≤◌, length};
ghost use Rattle.std.specs.List.{prefix_len};
ghost use Rattle.std.specs.List.Sorted.{IsStrictlySortedBy};
ghost use Rattle.std.specs.Ordering.{is_lt, is_le, nat_cmp};
ghost use Rattle.hazard_types.specs.Orders.{by_hazard};
ghost use Rattle.event_life.specs.Products.{later_event};
ghost use Rattle.hazard_board.specs.Standing.{by_standing, by_number, of_hazard, of_number, last_open};

use crate::standing::Standing;
use event_life::is_not_long_past;
use hazard_types::{Event, Hazard, Minute};

/// Returns how many of the events, which are in order by hazard, are of hazards before `h`.
fn hazards_before(standing: &[Standing], h: &Hazard) -> usize
    requires { IsStrictlySortedBy by_standing standing.now }
    ensures value { result ≡ prefix_len (λ s. is_lt (by_hazard s.event.hazard h.now)) standing.now }
    ensures bound { result ≤ length standing.now }
{
    standing.partition_point(
        |s: &Standing| -> bool
            ensures { result ≡ is_lt (by_hazard s.now.event.hazard h.entry.now) }
        { s.event.hazard.cmp(h).is_lt() },
    )
}

/// Returns how many of the events, which are in order by hazard, are of `h` or of hazards before
/// it.
fn hazards_through(standing: &[Standing], h: &Hazard) -> usize
    requires { IsStrictlySortedBy by_standing standing.now }
    ensures value { result ≡ prefix_len (λ s. is_le (by_hazard s.event.hazard h.now)) standing.now }
    ensures bound { result ≤ length standing.now }
{
    standing.partition_point(
        |s: &Standing| -> bool
            ensures { result ≡ is_le (by_hazard s.now.event.hazard h.entry.now) }
        { s.event.hazard.cmp(h).is_le() },
    )
}

/// Returns those of the events that are of hazard `h`, by number, then year; empty if there are
/// none. `standing` is in order by hazard, number and year.
pub fn of_hazard<'a>(standing: &'a [Standing], h: &Hazard) -> &'a [Standing]
    requires { IsStrictlySortedBy by_standing standing.now }
    ensures events { result.now ≡ of_hazard h.now standing.now }
    ensures order { IsStrictlySortedBy by_number result.now }
{
    let start = hazards_before(standing, h);
    let rest = &standing[start..];
    let count = hazards_through(rest, h);
    &rest[..count]
}

/// Returns how many of the events have a number less than `etn`. `standing` has events of one
/// hazard, in order by number, then year.
fn numbers_before(standing: &[Standing], etn: u16) -> usize
    requires { IsStrictlySortedBy by_number standing.now }
    ensures value { result ≡ prefix_len (λ s. is_lt (nat_cmp s.event.etn etn)) standing.now }
    ensures bound { result ≤ length standing.now }
{
    standing.partition_point(
        |s: &Standing| -> bool
            ensures { result ≡ is_lt (nat_cmp s.now.event.etn etn) }
        { s.event.etn.cmp(&etn).is_lt() },
    )
}

/// Returns how many of the events have the number `etn` or a lesser one. `standing` has events of
/// one hazard, in order by number, then year.
fn numbers_through(standing: &[Standing], etn: u16) -> usize
    requires { IsStrictlySortedBy by_number standing.now }
    ensures value { result ≡ prefix_len (λ s. is_le (nat_cmp s.event.etn etn)) standing.now }
    ensures bound { result ≤ length standing.now }
{
    standing.partition_point(
        |s: &Standing| -> bool
            ensures { result ≡ is_le (nat_cmp s.now.event.etn etn) }
        { s.event.etn.cmp(&etn).is_le() },
    )
}

/// Returns the events with number `etn`, by year; empty if there are none. `standing` has events of
/// one hazard, in order by number, then year.
fn of_number(standing: &[Standing], etn: u16) -> &[Standing]
    requires { IsStrictlySortedBy by_number standing.now }
    ensures { result.now ≡ of_number etn standing.now }
{
    let start = numbers_before(standing, etn);
    let rest = &standing[start..];
    let count = numbers_through(rest, etn);
    &rest[..count]
}

/// Returns the event of the later year: `best` if the years are equal, `event` if `best` is `None`.
fn later_event(best: &Option<Event>, event: &Event) -> Option<Event>
    ensures { result ≡ later_event best.now event.now }
{
    match best {
        Some(best) => {
            if best.year < event.year {
                Some(*event)
            } else {
                Some(*best)
            }
        }
        None => Some(*event),
    }
}

/// Returns the event of the greatest year among those that are open at `t` (the first listed if
/// several have this year), or `None` if none is open. An event is open if its latest end is not
/// more than half an hour before `t`.
fn last_open(standing: &[Standing], t: Minute) -> Option<Event>
    ensures { result ≡ last_open t standing.now }
{
    let mut best = None;
    for s in standing {
        if is_not_long_past(&s.latest, t) {
            best = later_event(&best, &s.event);
        }
    }
    best
}

/// Returns the event with hazard `h` and number `etn` that is open at `t` (its latest end is not
/// more than half an hour before `t`), or `None` if there is none. If there are several it is the
/// one of the greatest year. `standing` is in order by hazard, number and year.
pub fn open_event(standing: &[Standing], h: &Hazard, etn: u16, t: Minute) -> Option<Event>
    requires { IsStrictlySortedBy by_standing standing.now }
    ensures { result ≡ last_open t (of_number etn (of_hazard h.now standing.now)) }
{
    last_open(of_number(of_hazard(standing, h), etn), t)
}
