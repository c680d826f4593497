//! Looks up rows: the event of a line, its life, and the other rows that it is judged by.
ghost use Rattle.std.specs.Prelude.{◌≡◌, ◌&&◌};
ghost use Rattle.std.specs.List.{list_any};
ghost use Rattle.hazard_types.specs.Same.{same_event};
ghost use Rattle.event_life.specs.Periods.{is_live, same_at};
ghost use Rattle.event_life.specs.Products.{row_at, has_rows, is_open, is_number_held, has_opened_period, later_event, latest_open_event, event_of, life_at, around_but_higher};
ghost use Rattle.event_life.specs.Table.{opened_period};

use crate::life::{Around, Life, begin_of};
use crate::periods::{is_live, keeps_open, same_at};
use hazard_types::{Action, Event, Hazard, Line, Minute, Period, Row, Vtec, Zone, year_of};

/// Returns the first row of an event in a zone, ended or not, or `None` if there is none.
pub fn row_at(rows: &[Row], event: &Event, zone: &Zone) -> Option<Row>
    ensures { result ≡ row_at rows.now event.now zone.now }
{
    for row in rows {
        if row.event == *event && row.zone == *zone {
            return Some(*row);
        }
    }
    None
}

/// Whether an event has rows in any zone, ended or not.
pub fn has_rows(rows: &[Row], event: &Event) -> bool
    ensures { result ≡ has_rows rows.now event.now }
{
    rows.iter().any(|row| row.event == *event)
}

/// Whether an event is open at the minute `t`: it has a row that no line has ended, and whose end
/// is at most half an hour before `t`, or not before it.
pub fn is_open(rows: &[Row], t: Minute, event: &Event) -> bool
    ensures { result ≡ is_open rows.now t event.now }
{
    rows.iter()
        .any(|row| row.event == *event && keeps_open(row, t))
}

/// Whether an event of an earlier year with the same hazard and number as `event` is open at the
/// minute `t`: it has a row that no line has ended, and whose end is at most half an hour before
/// `t`, or not before it.
pub fn is_number_held(rows: &[Row], t: Minute, event: &Event) -> bool
    ensures { result ≡ is_number_held rows.now t event.now }
{
    rows.iter().any(|row| {
        row.event.hazard == event.hazard
            && row.event.etn == event.etn
            && row.event.year < event.year
            && keeps_open(row, t)
    })
}

/// Returns the period that a NEW, EXA or EXB line opens: the begin and the end that it prints. If
/// it prints zeros for the begin, this is the issue minute `t`.
///
/// Source: docs/DECISIONS.md, "Lives" (EXA and EXB with a zero begin).
pub fn opened_period(line: &Line, t: Minute) -> Period
    ensures { result ≡ opened_period line.now t }
{
    Period {
        begin: begin_of(line, t),
        end: line.end,
    }
}

/// Whether a row of the event that is live at the minute `t` (no line has ended it, and its end is
/// after `t`) has this period. Two periods are the same at `t` if their ends are equal, and their
/// begins are equal or both not after `t`.
pub fn has_period(rows: &[Row], t: Minute, event: &Event, period: &Period) -> bool
    ensures { result ≡ list_any (λ row.
        same_event row.event event.now && is_live t row && same_at t row.period period.now)
        rows.now }
{
    rows.iter().any(|row| row.event == *event && is_live(row, t) && same_at(t, &row.period, period))
}

/// Whether a row of the line's event, in any zone, that is live at `t` has the begin and the end
/// that the line prints, with `t` for a begin of zeros. `t` is the issue minute of the product;
/// begins that are both not after `t` count as the same.
pub fn has_opened_period(rows: &[Row], t: Minute, line: &Line) -> bool
    ensures { result ≡ has_opened_period rows.now t line.now }
{
    has_period(rows, t, &line.event, &opened_period(line, t))
}

/// Returns `event` if it is of a later year than `best` or there is no `best`, else `best`. Never
/// `None`.
pub fn later_event(best: Option<Event>, event: &Event) -> Option<Event>
    ensures { result ≡ later_event best event.now }
{
    match best {
        Some(best) => {
            if best.year < event.year {
                Some(*event)
            } else {
                Some(best)
            }
        }
        None => Some(*event),
    }
}

/// Returns the event with this hazard and event tracking number that is open at the minute `t`, of
/// several the one of the latest year, or `None` if none is open. An event is open while it has a
/// row that no line has ended, and whose end is at most half an hour before `t`, or not before it.
pub fn latest_open_event(rows: &[Row], hazard: &Hazard, etn: u16, t: Minute) -> Option<Event>
    ensures { result ≡ latest_open_event rows.now hazard.now etn t }
{
    let mut best = None;
    for row in rows {
        if row.event.hazard == *hazard && row.event.etn == etn && keeps_open(row, t) {
            best = later_event(best, &row.event);
        }
    }
    best
}

/// Returns the event of a P-VTEC string, which has no year. It is the event with this hazard and
/// number that is open just before the product, of several the one of the latest year; for NEW, or
/// if none is open, it is the one of the year of the issue minute `t`. `rows` are the rows just
/// before the product.
///
/// Source: docs/PRODUCTS.md, "Which action a line gets".
pub fn event_of(rows: &[Row], t: Minute, vtec: &Vtec) -> Event
    ensures { result ≡ event_of rows.now t vtec.now }
{
    let going = match vtec.action {
        Action::New => None,
        _ => latest_open_event(rows, &vtec.hazard, vtec.etn, t),
    };
    match going {
        Some(event) => event,
        None => Event {
            hazard: vtec.hazard,
            etn: vtec.etn,
            year: year_of(t),
        },
    }
}

/// Returns the period, the H-VTEC values and the ended mark of the row of a line's event in its
/// zone, or `None` if `rows` have no such row.
pub fn life_at(rows: &[Row], line: &Line) -> Option<Life>
    ensures { result ≡ life_at rows.now line.now }
{
    match row_at(rows, &line.event, &line.zone) {
        Some(row) => Some(Life {
            period: row.period,
            flood: row.flood,
            ended: row.ended,
        }),
        None => None,
    }
}

/// Returns the facts about other rows that a line is judged by: whether its event has rows
/// (`opened`) and is open (`going`), whether an open event of an earlier year has its hazard and
/// number (`held`), and whether a live row of the event has the line's period (`same`). `rows` are
/// the rows just before the product, and `t` is its issue minute. `higher` is put in as it is
/// given: whether a UPG line has the row of a higher rank of its family that it needs, or needs
/// none. Only UPG lines are judged by it.
pub fn around(rows: &[Row], t: Minute, line: &Line, higher: bool) -> Around
    ensures { result ≡ around_but_higher rows.now t line.now higher }
{
    Around {
        opened: has_rows(rows, &line.event),
        going: is_open(rows, t, &line.event),
        held: is_number_held(rows, t, &line.event),
        same: has_opened_period(rows, t, line),
        higher,
    }
}
