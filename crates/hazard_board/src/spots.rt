//! The event and zone of each row in order by event, so that the rows of one event are found
//! without the others.
ghost use Rattle.std.specs.Prelude.{◌≡◌, ◌≤◌, ◌<◌, length, find, OnOk, OnErr};
ghost use Rattle.std.specs.List.{prefix_len};
ghost use Rattle.std.specs.List.Sorted.{IsStrictlySortedBy};
ghost use Rattle.std.specs.Ordering.{is_lt, is_le};
ghost use Rattle.std.specs.Vec.{vec_capacity};
ghost use Rattle.hazard_types.specs.Same.{same_event};
ghost use Rattle.event_life.specs.Products.{by_key};
ghost use Rattle.event_life.specs.Seats.{IsSeat, seated};
ghost use Rattle.hazard_board.specs.Spots.{by_year, by_spot, spots_of, put_spot, add_spot_if, first_of, rows_on, AreSpots};

use crate::board_rows::BoardRows;
use crate::searches::then_by_event;
use hazard_types::{Event, Oom, Row, Zone};
use std::cmp::Ordering;

/// The event and zone of a row.
#[derive(Clone, Copy, Debug, PartialEq, Eq)]
pub struct Spot {
    pub event: Event,
    pub zone: Zone,
}

/// Returns how two events compare by year, then number, then hazard.
pub fn order_by_year(a: &Event, b: &Event) -> Ordering
    ensures { result ≡ by_year a.now b.now }
{
    then_by_event(a.year.cmp(&b.year).then(a.etn.cmp(&b.etn)), a, b)
}

/// Returns how two spots compare by event (year, number, hazard), then zone.
fn order(a: &Spot, b: &Spot) -> Ordering
    ensures { result ≡ by_spot a.now b.now }
{
    order_by_year(&a.event, &b.event).then(a.zone.cmp(&b.zone))
}

/// Returns how many of the spots (event and zone of a row) come before `spot`. `spots` is in order
/// by event (year, number, hazard), then zone.
fn spots_below(spots: &[Spot], spot: &Spot) -> usize
    requires { IsStrictlySortedBy by_spot spots.now }
    ensures value { result ≡ prefix_len (λ other. is_lt (by_spot other spot.now)) spots.now }
    ensures bound { result ≤ length spots.now }
{
    spots.partition_point(
        |other: &Spot| -> bool
            ensures { result ≡ is_lt (by_spot other.now spot.entry.now) }
        { order(other, spot).is_lt() },
    )
}

/// Returns the index of `spot` in `spots`, or as `Err` the index at which to insert it. `spots` is
/// in order by event (year, number, hazard), then zone.
fn seat_of(spots: &[Spot], spot: &Spot) -> Result<usize, usize>
    requires { IsStrictlySortedBy by_spot spots.now }
    ensures seat { IsSeat result spots.now }
    ensures seated { seated result spot.now spots.now ≡ put_spot spot.now spots.now }
{
    let place = spots_below(spots, spot);
    if place >= spots.len() {
        return Err(place);
    }
    let found = &spots[place];
    if order(found, spot).is_eq() {
        Ok(place)
    } else {
        Err(place)
    }
}

/// Inserts a spot (event and zone of a row) into `spots`, which is in order by event (year, number,
/// hazard), then zone; does nothing if it is there. Memory is taken only if the spots outgrow their
/// capacity; `Err` is out of memory.
fn put(spots: &mut Vec<Spot>, spot: &Spot) -> Result<(), Oom>
    requires { IsStrictlySortedBy by_spot spots.old.items }
    ensures ok { OnOk result (spots.new.items ≡ put_spot spot.now spots.old.items) }
    ensures capacity { vec_capacity spots.old ≤ vec_capacity spots.new }
    ensures err { OnErr result
        (vec_capacity spots.old < length (put_spot spot.now spots.old.items)) }
{
    match seat_of(spots, spot) {
        Ok(place) => spots[place] = *spot,
        Err(place) => spots.insert(place, *spot)?,
    }
    Ok(())
}

/// Inserts the event and zone of `row` into `spots`, which is in order by event (year, number,
/// hazard), then zone; does nothing if they are there or `row` is `None`. Memory is taken only if
/// the spots outgrow their capacity.
///
/// # Errors
///
/// Out of memory.
pub fn add_spot_if(spots: &mut Vec<Spot>, row: &Option<Row>) -> Result<(), Oom>
    requires { IsStrictlySortedBy by_spot spots.old.items }
    ensures ok { OnOk result (spots.new.items ≡ add_spot_if row.now spots.old.items) }
    ensures capacity { vec_capacity spots.old ≤ vec_capacity spots.new }
    ensures err { OnErr result
        (vec_capacity spots.old < length (add_spot_if row.now spots.old.items)) }
{
    match row {
        Some(row) => put(
            spots,
            &Spot {
                event: row.event,
                zone: row.zone,
            },
        ),
        None => Ok(()),
    }
}

/// Returns how many of the spots are of events that come before `e` by year, number and hazard.
/// `spots` is in order by event (year, number, hazard), then zone.
fn events_before(spots: &[Spot], e: &Event) -> usize
    requires { IsStrictlySortedBy by_spot spots.now }
    ensures value { result ≡ prefix_len (λ s. is_lt (by_year s.event e.now)) spots.now }
    ensures bound { result ≤ length spots.now }
{
    spots.partition_point(
        |s: &Spot| -> bool
            ensures { result ≡ is_lt (by_year s.now.event e.entry.now) }
        { order_by_year(&s.event, e).is_lt() },
    )
}

/// Returns how many of the spots are of `e` or of events that come before it by year, number and
/// hazard. `spots` is in order by event (year, number, hazard), then zone.
fn events_through(spots: &[Spot], e: &Event) -> usize
    requires { IsStrictlySortedBy by_spot spots.now }
    ensures value { result ≡ prefix_len (λ s. is_le (by_year s.event e.now)) spots.now }
    ensures bound { result ≤ length spots.now }
{
    spots.partition_point(
        |s: &Spot| -> bool
            ensures { result ≡ is_le (by_year s.now.event e.entry.now) }
        { order_by_year(&s.event, e).is_le() },
    )
}

/// Returns the spots (event and zone of a row) of an event, by zone; empty if there are none.
/// `spots` is in order by event (year, number, hazard), then zone.
pub fn spots_of<'a>(spots: &'a [Spot], e: &Event) -> &'a [Spot]
    requires { IsStrictlySortedBy by_spot spots.now }
    ensures { result.now ≡ spots_of e.now spots.now }
{
    let start = events_before(spots, e);
    let rest = &spots[start..];
    let count = events_through(rest, e);
    &rest[..count]
}

/// Returns the row with the event and zone of the first of the spots for which `rows` has one, or
/// `None` if it has one for none of them.
fn first_on(rows: &BoardRows, spots: &[Spot]) -> Option<Row>
    ensures { result ≡ first_of (rows_on rows.now.rows spots.now) }
{
    for spot in spots {
        let row = rows.row_at(&spot.event, &spot.zone);
        if row.is_some() {
            return row;
        }
    }
    None
}

/// Returns the first row of an event, by zone, ended or not, or `None` if there is none. `spots`
/// has the event and zone of each of `rows`, in order by event (year, number, hazard), then zone;
/// only the event's rows are read.
pub fn first_row(rows: &BoardRows, spots: &[Spot], e: &Event) -> Option<Row>
    requires order { IsStrictlySortedBy by_key rows.now.rows }
    requires spots { AreSpots rows.now.rows spots.now }
    ensures { result ≡ find (λ r. same_event r.event e.now) rows.now.rows }
{
    first_on(rows, spots_of(spots, e))
}
