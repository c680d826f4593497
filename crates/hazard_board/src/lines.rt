//! The rows that lines leave, and how they are put on a board.
ghost use Rattle.std.specs.Prelude.{◌≡◌, ◌≤◌, ◌<◌, ◌+◌, ◌++◌, length, option_map, option_to_list, IfOk, OnOk, OnErr};
ghost use Rattle.std.specs.List.Sorted.{IsStrictlySortedBy};
ghost use Rattle.std.specs.Vec.{vec_capacity};
ghost use Rattle.event_life.specs.Products.{by_key, life_of};
ghost use Rattle.event_life.specs.Lives.{opens};
ghost use Rattle.event_life.specs.Shown.{shown_at};
ghost use Rattle.hazard_board.specs.Board.{openings, slice_of};
ghost use Rattle.hazard_board.specs.NewClashes.{is_same, stays, left_if, left_by, lefts, put_lefts};
ghost use Rattle.hazard_board.specs.Periods.{AreCounted};
ghost use Rattle.hazard_board.specs.Spots.{AreSpots};
ghost use Rattle.hazard_board.specs.Taken.{wanted, row_after_on_life, row_left, add_row_if_some, rows_taken, taken_in_turn};

use crate::board_rows::BoardRows;
use crate::periods::{PeriodCount, update_counts_if_put};
use crate::searches::put;
use crate::spots::{Spot, add_spot_if};
use event_life::{Around, Life, is_routine, life_step, row_of};
use hazard_types::{Action, Line, Minute, Oom, Row, Zone};
use std::alloc::Global;

/// Returns the facts about other rows that give a line with this action no breach: its event is
/// open (`going`) and a row of a higher rank of its family overlaps its row (`higher`), but the
/// event has no rows yet (`opened` is false), and no event of an earlier year with its hazard and
/// number is open (`held` is false). `same`, whether a live row of the event has the line's period,
/// is true for EXA alone, which must have such a period.
fn wanted(action: &Action) -> Around
    ensures { result ≡ wanted action.now }
{
    Around {
        opened: false,
        going: true,
        held: false,
        same: matches!(action, Action::Exa),
        higher: true,
    }
}

/// Returns the life of a row (its period, its H-VTEC values and whether it has ended), or `None` if
/// there is no row.
fn life_of(row: &Option<Row>) -> Option<Life>
    ensures { result ≡ option_map life_of row.now }
{
    match row {
        Some(row) => Some(Life {
            period: row.period,
            flood: row.flood,
            ended: row.ended,
        }),
        None => None,
    }
}

/// Returns the row that a line leaves, or `None` if it is ROU or `life` does not allow it. `life`
/// is that of the line's event in its zone before the line (`None` if there is none), and `t` is
/// the issue minute. Other rows are taken to be such that the line is lawful.
fn row_after_on_life(life: Option<Life>, line: &Line, t: Minute) -> Option<Row>
    ensures { result ≡ row_after_on_life life t line.now }
{
    if is_routine(&line.action) {
        return None;
    }
    match life_step(life, line, t, wanted(&line.action)) {
        Ok(life) => Some(row_of(line, &life)),
        Err(_) => None,
    }
}

/// Returns the row that a line leaves for its event and zone, given `rows` before it, or `None` if
/// it is ROU or the row there does not allow it. `t` is the issue minute.
pub fn row_left(rows: &BoardRows, line: &Line, t: Minute) -> Option<Row>
    ensures { result ≡ row_left rows.now.rows t line.now }
{
    row_after_on_life(life_of(&rows.row_at(&line.event, &line.zone)), line, t)
}

/// Whether `held`, the row that was there before, is not `None` and equals `row`.
fn is_same(held: &Option<Row>, row: &Row) -> bool
    ensures { result ≡ is_same held.now row.now }
{
    match held {
        Some(held) => *held == *row,
        None => false,
    }
}

/// Whether a line changes no row: `row`, which it leaves, is `None` or equals `old`, which was
/// there before.
fn stays(old: &Option<Row>, row: &Option<Row>) -> bool
    ensures { result ≡ stays old.now row.now }
{
    match row {
        Some(row) => is_same(old, row),
        None => true,
    }
}

/// A row that a line leaves.
#[derive(Clone, Copy, Debug, PartialEq, Eq)]
pub struct Left {
    pub row: Row,
    /// Whether there was no row with its zone and event, or another one.
    pub is_new: bool,
}

/// Returns `row`, which a line leaves, marked as new unless it equals `held`, which was there
/// before; `None` if `row` is `None`.
fn left_if(held: &Option<Row>, row: Option<Row>) -> Option<Left>
    ensures { result ≡ left_if held.now row }
{
    match row {
        Some(row) => Some(Left {
            row,
            is_new: !is_same(held, &row),
        }),
        None => None,
    }
}

/// Appends `left` to `lefts`, or does nothing if it is `None`. `Err` is out of memory.
fn add_if(lefts: &mut Vec<Left>, left: &Option<Left>) -> Result<(), Oom>
    ensures { OnOk result (lefts.new.items ≡ lefts.old.items ++ option_to_list left.now) }
{
    match left {
        Some(left) => {
            lefts.extend_from_slice(&[*left])?;
            Ok(())
        }
        None => Ok(()),
    }
}

/// Appends to `lefts` the row that a line leaves when applied to `rows`, marked as new unless it
/// equals the row that was there; nothing if the line leaves none. `t` is the issue minute, and
/// `Err` is out of memory.
fn add_left(lefts: &mut Vec<Left>, rows: &BoardRows, line: &Line, t: Minute) -> Result<(), Oom>
    ensures { OnOk result (lefts.new.items ≡ lefts.old.items ++ left_by rows.now.rows t line.now) }
{
    let old = rows.row_at(&line.event, &line.zone);
    let left = left_if(&old, row_after_on_life(life_of(&old), line, t));
    add_if(lefts, &left)
}

/// Returns the rows that the lines leave, in the order of the lines, each marked as new or changed,
/// or not. Each line is applied to `rows` as they were before all lines, and ROU lines and those
/// that their row does not allow leave none; `t` is the issue minute.
///
/// # Errors
///
/// Out of memory.
pub fn lefts(alloc: Global, rows: &BoardRows, lines: &[Line], t: Minute) -> Result<Vec<Left>, Oom>
    ensures { IfOk result (λ some. some.items ≡ lefts rows.now.rows t lines.now) }
{
    let mut some = Vec::with_capacity(alloc, lines.len())?;
    for line in lines {
        add_left(&mut some, rows, line, t)?;
    }
    Ok(some)
}

/// Inserts `row` into `rows`, which are in order by zone, then event, or replaces the one with its
/// zone and event; does nothing if `row` is `None`. `Err` is out of memory, which comes only if the
/// rows outgrow their capacity.
fn add_row_if_some(rows: &mut Vec<Row>, row: &Option<Row>) -> Result<(), Oom>
    requires { IsStrictlySortedBy by_key rows.old.items }
    ensures ok { OnOk result (rows.new.items ≡ add_row_if_some row.now rows.old.items) }
    ensures order { OnOk result (IsStrictlySortedBy by_key rows.new.items) }
    ensures capacity { vec_capacity rows.old ≤ vec_capacity rows.new }
    ensures err { OnErr result (vec_capacity rows.old < length (add_row_if_some row.now rows.old.items)) }
{
    match row {
        Some(row) => put(rows, row),
        None => Ok(()),
    }
}

/// Inserts `row` on the board, or replaces the one with its zone and event; does nothing if `row`
/// is `None`. `BoardRows::reserve` must have taken memory for it.
fn set_board_row_if_some(rows: &mut BoardRows, row: &Option<Row>)
    requires { length (add_row_if_some row.now rows.old.rows) ≤ rows.old.spare + length rows.old.rows }
    ensures rows { rows.new.rows ≡ add_row_if_some row.now rows.old.rows }
    ensures spare { rows.old.spare + length rows.old.rows ≤ rows.new.spare + length rows.new.rows }
{
    match row {
        Some(row) => rows.put(row),
        None => {}
    }
}

/// Applies a line with issue minute `t` to the rows of a board, to `spots` (the event and zone of
/// each row, by event) and to `periods` (the periods of unended rows by event, each with their
/// count). A ROU line, or one that the row of its event and zone does not allow, changes nothing.
/// It takes no memory: in all three there must be room for as many entries as there are rows
/// afterwards.
fn apply_line_to_rows(
    rows: &mut BoardRows,
    spots: &mut Vec<Spot>,
    periods: &mut Vec<PeriodCount>,
    line: &Line,
    t: Minute,
)
    requires order { IsStrictlySortedBy by_key rows.old.rows }
    requires spots { AreSpots rows.old.rows spots.old.items }
    requires periods { AreCounted rows.old.rows periods.old.items }
    requires room { length (add_row_if_some (row_left rows.old.rows t line.now) rows.old.rows)
        ≤ rows.old.spare + length rows.old.rows }
    requires places { length (add_row_if_some (row_left rows.old.rows t line.now) rows.old.rows)
        ≤ vec_capacity spots.old }
    requires counts { length (add_row_if_some (row_left rows.old.rows t line.now) rows.old.rows)
        ≤ vec_capacity periods.old }
    ensures rows { rows.new.rows ≡ add_row_if_some (row_left rows.old.rows t line.now) rows.old.rows }
    ensures spots { AreSpots rows.new.rows spots.new.items }
    ensures periods { AreCounted rows.new.rows periods.new.items }
    ensures spare { rows.old.spare + length rows.old.rows ≤ rows.new.spare + length rows.new.rows }
    ensures capacity { vec_capacity spots.old ≤ vec_capacity spots.new }
    ensures counts { vec_capacity periods.old ≤ vec_capacity periods.new }
{
    let old = rows.row_at(&line.event, &line.zone);
    let row = row_after_on_life(life_of(&old), line, t);
    if stays(&old, &row) {
        return;
    }
    update_counts_if_put(periods, &old, &row);
    set_board_row_if_some(rows, &row);
    if old.is_some() {
        return;
    }
    match add_spot_if(spots, &row) {
        Ok(()) => {}
        Err(_) => unreachable!(),
    }
}

/// Applies lines one after another to the rows of a board, to `spots` (the event and zone of each
/// row, by event) and to `periods` (the periods of unended rows by event, each with their count).
/// Each line is applied to the rows that the lines before it left, at the issue minute `t`; a ROU
/// line, or one that the row of its event and zone does not allow, changes nothing. It takes no
/// memory: in all three there must be room for as many entries as there are rows afterwards.
pub fn apply_lines_to_rows(
    rows: &mut BoardRows,
    spots: &mut Vec<Spot>,
    periods: &mut Vec<PeriodCount>,
    lines: &[Line],
    t: Minute,
)
    requires order { IsStrictlySortedBy by_key rows.old.rows }
    requires spots { AreSpots rows.old.rows spots.old.items }
    requires periods { AreCounted rows.old.rows periods.old.items }
    requires room { length (taken_in_turn t rows.old.rows lines.now)
        ≤ rows.old.spare + length rows.old.rows }
    requires places { length (taken_in_turn t rows.old.rows lines.now) ≤ vec_capacity spots.old }
    requires counts { length (taken_in_turn t rows.old.rows lines.now) ≤ vec_capacity periods.old }
    ensures rows { rows.new.rows ≡ taken_in_turn t rows.old.rows lines.now }
    ensures spots { AreSpots rows.new.rows spots.new.items }
    ensures periods { AreCounted rows.new.rows periods.new.items }
    ensures spare { rows.old.spare + length rows.old.rows ≤ rows.new.spare + length rows.new.rows }
    ensures capacity { vec_capacity spots.old ≤ vec_capacity spots.new }
    ensures counts { vec_capacity periods.old ≤ vec_capacity periods.new }
{
    for line in lines {
        apply_line_to_rows(rows, spots, periods, line, t);
    }
}

/// Returns rows, by zone, then event, among which are all that are live at `t`, the issue minute,
/// once the lines are applied. Each line is applied to the row that its event and zone have in
/// `rows`, before all lines; of two lines of one event and zone the later one decides. A ROU line,
/// or one that this row does not allow, changes nothing.
///
/// # Errors
///
/// Out of memory.
pub fn rows_taken(
    alloc: Global,
    rows: &BoardRows,
    lines: &[Line],
    t: Minute,
) -> Result<Vec<Row>, Oom>
    requires { IsStrictlySortedBy by_key rows.now.rows }
    ensures live { IfOk result
        (λ after. shown_at t after.items ≡ shown_at t (rows_taken rows.now.rows t lines.now)) }
    ensures order { IfOk result (λ after. IsStrictlySortedBy by_key after.items) }
{
    let mut after = rows.shown(alloc, t)?;
    for line in lines {
        let row = row_left(rows, line, t);
        add_row_if_some(&mut after, &row)?;
    }
    Ok(after)
}

/// Returns a copy of the rows with capacity for `more` rows beyond them. `Err` is out of memory.
fn with_room(alloc: Global, rows: &[Row], more: usize) -> Result<Vec<Row>, Oom>
    ensures { IfOk result (λ copy. copy.items ≡ rows.now) }
{
    let mut copy = Vec::with_capacity(alloc, rows.len().saturating_add(more))?;
    copy.extend_from_slice(rows)?;
    Ok(copy)
}

/// Returns rows of zone `z`, by event, among which are all of the zone that are live at `t` once
/// `left` is put into `rows`. `left` has the rows that the lines of zone `z` leave, in the order of
/// the lines; each is inserted, or replaces the row of its event.
///
/// # Errors
///
/// Out of memory.
pub fn zone_rows_after_lines(
    alloc: Global,
    rows: &BoardRows,
    left: &[Left],
    t: Minute,
    z: &Zone,
) -> Result<Vec<Row>, Oom>
    requires { IsStrictlySortedBy by_key rows.now.rows }
    ensures live { IfOk result (λ after.
        shown_at t after.items ≡ shown_at t (put_lefts (slice_of z.now rows.now.rows) left.now)) }
    ensures order { IfOk result (λ after. IsStrictlySortedBy by_key after.items) }
{
    let mut after = with_room(alloc, rows.rows_in_zone_with_live(z, t), left.len())?;
    for one in left {
        put(&mut after, &one.row)?;
    }
    Ok(after)
}

/// Whether a line of the action opens a row: NEW, EXA and EXB.
fn opens(action: &Action) -> bool
    ensures { result ≡ opens action.now }
{
    matches!(action, Action::New | Action::Exa | Action::Exb)
}

/// Returns how many of the lines open a row (NEW, EXA and EXB): `Board::apply` needs memory for so
/// many rows.
///
/// Source: docs/DECISIONS.md, "Plans".
pub fn openings(lines: &[Line]) -> usize
    ensures { result ≡ openings lines.now }
{
    lines.iter().filter(|line| opens(&line.action)).count()
}
