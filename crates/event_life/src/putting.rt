//! The rows after the lines of a product.
ghost use Rattle.std.specs.Prelude.{◌≡◌, ◌≤◌, ◌<◌, ◌&&◌, not, [], length, map, is_none, IfOk, OnOk, OnErr};
ghost use Rattle.std.specs.Vec.{vec_capacity};
ghost use Rattle.event_life.specs.Products.{by_key, put, row_of, row_after, is_routine, is_upgrade, concerns, is_second, rows_after_all_but_upgrades, rows_for_higher};
ghost use Rattle.event_life.specs.Seats.{seated, IsSeat, is_upgraded, end_if_upgraded, may_be_higher};
ghost use Rattle.event_life.specs.Shown.{shown_at};

use crate::life::{Breach, Life, breach_of_line, life_after_lawful_line};
use crate::periods::is_live;
use crate::rows::{around, life_at};
use hazard_types::{Action, Event, Line, List, Minute, Oom, Row, Zone};
use std::alloc::{AllocError, Global};
use std::cmp::Ordering;

/// Returns how row `a` compares with row `b`: by zone, then by event.
fn order(a: &Row, b: &Row) -> Ordering
    ensures { result ≡ by_key a.now b.now }
{
    a.zone.cmp(&b.zone).then(a.event.order(&b.event))
}

/// Returns `Ok` with the index of the row that has the zone and the event of `row`, or `Err` with
/// the index at which `row` would have to be inserted. `rows` must be in order by zone, then event.
fn find_row(rows: &[Row], row: &Row) -> Result<usize, usize>
    ensures seat { IsSeat result rows.now }
    ensures seated { seated result row.now rows.now ≡ put row.now rows.now }
{
    for (place, other) in rows.iter().enumerate() {
        match order(row, other) {
            Ordering::Less => return Err(place),
            Ordering::Equal => return Ok(place),
            Ordering::Greater => {}
        }
    }
    Err(rows.len())
}

/// Replaces the row that has the zone and the event of `row`, or inserts `row` if there is none.
/// `rows` must be in order by zone, then event, and stay so. If it fails, they are as before; it
/// takes memory only if they outgrow their capacity.
///
/// # Errors
///
/// Out of memory.
pub fn put(rows: &mut Vec<Row>, row: &Row) -> Result<(), Oom>
    ensures ok { OnOk result (rows.new.items ≡ put row.now rows.old.items) }
    ensures capacity { vec_capacity rows.old ≤ vec_capacity rows.new }
    ensures err { OnErr result (vec_capacity rows.old < length (put row.now rows.old.items)) }
    ensures kept { OnErr result (rows.new.items ≡ rows.old.items) }
{
    match find_row(rows, row) {
        Ok(place) => rows[place] = *row,
        Err(place) => rows.insert(place, *row)?,
    }
    Ok(())
}

/// Whether an action is ROU, whose lines touch no life.
pub fn is_routine(action: &Action) -> bool
    ensures { result ≡ is_routine action.now }
{
    matches!(action, Action::Rou)
}

/// Whether an action is UPG.
pub fn is_upgrade(action: &Action) -> bool
    ensures { result ≡ is_upgrade action.now }
{
    matches!(action, Action::Upg)
}

/// Whether a line is of this event and this zone, and its action is not ROU.
pub(crate) fn concerns(event: &Event, zone: &Zone, line: &Line) -> bool
    ensures { result ≡ concerns event.now zone.now line.now }
{
    !is_routine(&line.action) && line.event == *event && line.zone == *zone
}

/// Whether one of the earlier lines, other than ROU, has the event and zone of `line`.
pub(crate) fn is_second(earlier: &[Line], line: &Line) -> bool
    ensures { result ≡ is_second earlier.now line.now }
{
    earlier
        .iter()
        .any(|other| concerns(&line.event, &line.zone, other))
}

/// Whether a judged line leaves a row: it has no breach, and its action is not ROU. `judged` is the
/// line with its first breach, or `None` for a lawful or a ROU line.
pub fn leaves_row(judged: &(Line, Option<Breach>)) -> bool
    ensures { result ≡ (not (is_routine judged.now.0.action) && is_none judged.now.1) }
{
    let (line, breach) = judged;
    !is_routine(&line.action) && breach.is_none()
}

/// Returns the row with the line's event and zone, and the period, the H-VTEC values and the ended
/// mark of `life`.
pub fn row_of(line: &Line, life: &Life) -> Row
    ensures { result ≡ row_of line.now life.now }
{
    Row {
        event: line.event,
        zone: line.zone,
        period: life.period,
        flood: life.flood,
        ended: life.ended,
    }
}

/// Returns the row that a lawful line other than ROU leaves of its event in its zone. `rows` are
/// the rows just before the product, and `t` is its issue minute.
pub fn row_after(rows: &[Row], t: Minute, line: &Line) -> Row
    ensures { result ≡ row_after rows.now t line.now }
{
    row_of(line, &life_after_lawful_line(&life_at(rows, line), line, t))
}

/// Whether a line is lawful and neither UPG nor ROU, so that the row it leaves may be the row of a
/// higher rank that a UPG line needs. `rows` are the rows just before the product, `t` is its issue
/// minute, and `earlier` are the product's lines before this one.
pub fn may_be_higher(rows: &[Row], t: Minute, earlier: &[Line], line: &Line) -> bool
    ensures { result ≡ may_be_higher rows.now t earlier.now line.now }
{
    let breach = breach_of_line(&life_at(rows, line), line, t, around(rows, t, line, true));
    !is_routine(&line.action)
        && !is_upgrade(&line.action)
        && !is_second(earlier, line)
        && breach.is_none()
}

/// Returns the rows after the lawful lines of a product other than UPG. `rows` are the rows just
/// before the product, by zone, then event, and `t` is its issue minute.
fn rows_after_all_but_upgrades(
    alloc: Global,
    rows: &[Row],
    t: Minute,
    lines: &[Line],
) -> Result<Vec<Row>, Oom>
    ensures { IfOk result
        (λ after. after.items ≡ rows_after_all_but_upgrades rows.now t [] lines.now rows.now) }
{
    let mut after = Vec::from_slice(alloc, rows)?;
    for (place, line) in lines.iter().enumerate() {
        if may_be_higher(rows, t, &lines[..place], line) {
            put(&mut after, &row_after(rows, t, line))?;
        }
    }
    Ok(after)
}

/// Whether one of the lines is UPG, lawful or not, and has the event and zone of the row.
fn is_upgraded(lines: &[Line], row: &Row) -> bool
    ensures { result ≡ is_upgraded lines.now row.now }
{
    lines.iter().any(|line| is_upgrade(&line.action) && concerns(&row.event, &row.zone, line))
}

/// Returns the row, marked as ended if one of the lines is UPG, lawful or not, and has the event
/// and zone of the row.
fn end_if_upgraded(lines: &[Line], row: &Row) -> Row
    ensures { result ≡ end_if_upgraded lines.now row.now }
{
    Row {
        event: row.event,
        zone: row.zone,
        period: row.period,
        flood: row.flood,
        ended: is_upgraded(lines, row) || row.ended,
    }
}

/// Returns the rows in their order, each marked as ended if one of the lines is UPG, lawful or not,
/// and has the event and zone of the row.
///
/// # Errors
///
/// Out of memory.
pub fn end_upgraded(alloc: Global, lines: &[Line], rows: &[Row]) -> Result<Vec<Row>, AllocError>
    ensures { IfOk result (λ after. after.items ≡ map (end_if_upgraded lines.now) rows.now) }
{
    rows.iter()
        .map(|row| end_if_upgraded(lines, row))
        .collect(alloc)
}

/// Returns the rows in which the row of a higher rank that a UPG line needs is looked for. They are
/// the rows after the product's lawful lines other than UPG, each marked as ended if its event and
/// zone have a UPG line in `lines`, lawful or not. `rows` are the rows just before the product, in
/// order by zone, then event, and `t` is its issue minute.
///
/// Source: docs/DECISIONS.md, "Lives" (NoHigher).
#[tactic(auto, using(crate::proofs::SeatLemmas::end_upgraded_map))]
pub(crate) fn rows_for_higher(
    alloc: Global,
    rows: &[Row],
    t: Minute,
    lines: &[Line],
) -> Result<Vec<Row>, Oom>
    ensures { IfOk result (λ after. after.items ≡ rows_for_higher rows.now t lines.now) }
{
    let after = rows_after_all_but_upgrades(alloc, rows, t, lines)?;
    Ok(end_upgraded(alloc, lines, &after)?)
}

/// Returns the rows, in their order, that no line has ended and whose end is after the minute `t`
/// or until further notice.
fn live(alloc: Global, rows: &[Row], t: Minute) -> Result<Vec<Row>, AllocError>
    ensures { IfOk result (λ live. live.items ≡ shown_at t rows.now) }
{
    rows.iter()
        .filter(|row| is_live(row, t))
        .copied()
        .collect(alloc)
}

/// Returns the rows, in their order, that are shown at the minute `t`: no line has ended them, and
/// their end is after `t` or until further notice.
///
/// # Errors
///
/// Out of memory.
pub fn shown(alloc: Global, rows: &[Row], t: Minute) -> Result<List<Row>, Oom>
    ensures { IfOk result (λ shown. shown ≡ shown_at t rows.now) }
{
    Ok(List::from_vec(live(alloc, rows, t)?))
}
