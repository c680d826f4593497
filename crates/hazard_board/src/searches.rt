//! Binary searches in sorted rows.
ghost use Rattle.std.specs.Prelude.{◌≡◌, ◌≤◌, ◌<◌, length, OnOk, OnErr};
ghost use Rattle.std.specs.List.{prefix_len};
ghost use Rattle.std.specs.List.Sorted.{IsStrictlySortedBy};
ghost use Rattle.std.specs.Ordering.{is_lt, is_le, ordering_then};
ghost use Rattle.std.specs.Vec.{vec_capacity};
ghost use Rattle.hazard_types.specs.Orders.{by_event};
ghost use Rattle.hazard_types.specs.Places.{by_place};
ghost use Rattle.event_life.specs.Products.{by_key, put, row_at};
ghost use Rattle.event_life.specs.Seats.{IsSeat, seated};
ghost use Rattle.hazard_board.specs.Board.{by_row_event, slice_of, compare_row_key};

use hazard_types::{Event, Oom, Row, Zone};
use std::cmp::Ordering;

/// Returns how many of the rows, which are in order by zone, then event, are of zones before `z`.
pub fn rows_before(rows: &[Row], z: &Zone) -> usize
    requires { IsStrictlySortedBy by_key rows.now }
    ensures value { result ≡ prefix_len (λ row. is_lt (by_place row.zone z.now)) rows.now }
    ensures bound { result ≤ length rows.now }
{
    rows.partition_point(
        |row: &Row| -> bool
            ensures { result ≡ is_lt (by_place row.now.zone z.entry.now) }
        { row.zone.cmp(z).is_lt() },
    )
}

/// Returns how many of the rows, which are in order by zone, then event, are of `z` or of zones
/// before it.
pub fn rows_through(rows: &[Row], z: &Zone) -> usize
    requires { IsStrictlySortedBy by_key rows.now }
    ensures value { result ≡ prefix_len (λ row. is_le (by_place row.zone z.now)) rows.now }
    ensures bound { result ≤ length rows.now }
{
    rows.partition_point(
        |row: &Row| -> bool
            ensures { result ≡ is_le (by_place row.now.zone z.entry.now) }
        { row.zone.cmp(z).is_le() },
    )
}

/// Returns those of the rows, which are in order by zone, then event, that are of a zone.
pub fn slice_of<'a>(rows: &'a [Row], z: &Zone) -> &'a [Row]
    requires { IsStrictlySortedBy by_key rows.now }
    ensures rows { result.now ≡ slice_of z.now rows.now }
    ensures order { IsStrictlySortedBy by_row_event result.now }
{
    let start = rows_before(rows, z);
    let rest = &rows[start..];
    let count = rows_through(rest, z);
    &rest[..count]
}

/// Returns `first`, or if that is `Equal` how the two events compare by hazard, number and year.
/// They are compared only then.
pub fn then_by_event(first: Ordering, a: &Event, b: &Event) -> Ordering
    ensures { result ≡ ordering_then first (by_event a.now b.now) }
{
    match first {
        Ordering::Less => Ordering::Less,
        Ordering::Equal => a.order(b),
        Ordering::Greater => Ordering::Greater,
    }
}

/// Returns how the zone and event of a row compare with `z` and `e`: by zone, then event (hazard,
/// number, year). `Less` means that the row comes before them.
fn compare_row_key(row: &Row, e: &Event, z: &Zone) -> Ordering
    ensures { result ≡ compare_row_key e.now z.now row.now }
{
    then_by_event(row.zone.cmp(z), &row.event, e)
}

/// Returns how many of the rows, which are in order by zone, then event, come before the place of
/// event `e` in zone `z`, whether there is such a row or not.
fn keys_below(rows: &[Row], e: &Event, z: &Zone) -> usize
    requires { IsStrictlySortedBy by_key rows.now }
    ensures value { result ≡ prefix_len (λ row. is_lt (compare_row_key e.now z.now row)) rows.now }
    ensures bound { result ≤ length rows.now }
{
    rows.partition_point(
        |row: &Row| -> bool
            ensures { result ≡ is_lt (compare_row_key e.entry.now z.entry.now row.now) }
        { compare_row_key(row, e, z).is_lt() },
    )
}

/// Returns the row of an event in a zone, or `None` if there is none. The rows are in order by
/// zone, then event.
pub fn row_at(rows: &[Row], e: &Event, z: &Zone) -> Option<Row>
    requires { IsStrictlySortedBy by_key rows.now }
    ensures { result ≡ row_at rows.now e.now z.now }
{
    let place = keys_below(rows, e, z);
    if place >= rows.len() {
        return None;
    }
    let row = &rows[place];
    if compare_row_key(row, e, z).is_eq() {
        Some(*row)
    } else {
        None
    }
}

/// Returns how two rows compare by zone, then event (hazard, number, year).
fn order(a: &Row, b: &Row) -> Ordering
    ensures { result ≡ by_key a.now b.now }
{
    then_by_event(a.zone.cmp(&b.zone), &a.event, &b.event)
}

/// Returns how many of the rows, which are in order by zone, then event, come before the zone and
/// event of `row`.
fn rows_below(rows: &[Row], row: &Row) -> usize
    requires { IsStrictlySortedBy by_key rows.now }
    ensures value { result ≡ prefix_len (λ other. is_lt (by_key other row.now)) rows.now }
    ensures bound { result ≤ length rows.now }
{
    rows.partition_point(
        |other: &Row| -> bool
            ensures { result ≡ is_lt (by_key other.now row.entry.now) }
        { order(other, row).is_lt() },
    )
}

/// Returns the index of the row with the zone and event of `row`, or as `Err` the index at which to
/// insert it. `rows` are in order by zone, then event.
fn seat_of(rows: &[Row], row: &Row) -> Result<usize, usize>
    requires { IsStrictlySortedBy by_key rows.now }
    ensures seat { IsSeat result rows.now }
    ensures seated { seated result row.now rows.now ≡ put row.now rows.now }
{
    let place = rows_below(rows, row);
    if place >= rows.len() {
        return Err(place);
    }
    let found = &rows[place];
    if order(found, row).is_eq() {
        Ok(place)
    } else {
        Err(place)
    }
}

/// Inserts a row into `rows`, which are in order by zone, then event, or replaces the one with its
/// zone and event. Memory is taken only if the rows outgrow their capacity; on `Oom` nothing
/// changes.
///
/// # Errors
///
/// Out of memory.
pub fn put(rows: &mut Vec<Row>, row: &Row) -> Result<(), Oom>
    requires { IsStrictlySortedBy by_key rows.old.items }
    ensures ok { OnOk result (rows.new.items ≡ put row.now rows.old.items) }
    ensures capacity { vec_capacity rows.old ≤ vec_capacity rows.new }
    ensures err { OnErr result (vec_capacity rows.old < length (put row.now rows.old.items)) }
    ensures kept { OnErr result (rows.new.items ≡ rows.old.items) }
{
    match seat_of(rows, row) {
        Ok(place) => rows[place] = *row,
        Err(place) => rows.insert(place, *row)?,
    }
    Ok(())
}
