//! The line, the period and the row of a put in a zone. An unended row is one that no line has
//! ended.
ghost use Rattle.std.specs.Prelude.{◌≡◌};
ghost use Rattle.action_planner.specs.Lines.{minute_of, period_of_put, period_of_put_on, printed_begin, opening_action, opening_line_by, carried_line, continuing_line, unless_ended, joined_row, line_of_put, row_after_put};

use event_life::same_at;
use hazard_board::Board;
use hazard_types::{Action, Begin, Event, Flood, Line, Minute, Period, Row, Zone};
use office_types::{PutPart, Target};

/// Returns the minute of a begin, which for `Begin::Now` is `t`, the minute of issue.
pub fn minute_of(begin: &Begin, t: Minute) -> Minute
    ensures { result ≡ minute_of begin.now t }
{
    match begin {
        Begin::Now => t,
        Begin::At(minute) => *minute,
    }
}

/// Returns the period that a put gives to a zone where its event has no row, or one that a line has
/// ended. `t` is the minute of issue.
fn period_of_put(part: &PutPart, t: Minute) -> Period
    ensures { result ≡ period_of_put part.now t }
{
    Period {
        begin: minute_of(&part.begin, t),
        end: part.end,
    }
}

/// Returns the period that a put gives to `row`, a row that no line has ended. If the row has begun
/// at `t`, the minute of issue, it keeps its begin, and else it gets that of the put.
fn period_of_put_on(part: &PutPart, t: Minute, row: &Row) -> Period
    ensures { result ≡ period_of_put_on part.now t row.now }
{
    let begin = if row.period.begin.get() <= t.get() {
        row.period.begin
    } else {
        minute_of(&part.begin, t)
    };
    Period {
        begin,
        end: part.end,
    }
}

/// Returns the begin as a line of a product that is issued at `t` has it: `None`, printed as zeros,
/// if it is not after `t`.
pub fn printed_begin(begin: Minute, t: Minute) -> Option<Minute>
    ensures { result ≡ printed_begin begin t }
{
    if begin.get() <= t.get() {
        None
    } else {
        Some(begin)
    }
}

/// Returns the action of a put in a zone where its event has no row, or one that a line has ended.
/// It is `NEW` if the put opens the event, `EXA` if a row of the event that is live at `t`, the
/// minute of issue, has the put's period, and else `EXB`.
///
/// Source: NWS Instruction 10-1703, P-VTEC action codes; docs/PRODUCTS.md, "Which action a line
/// gets".
pub fn opening_action(board: &Board, t: Minute, event: &Event, part: &PutPart) -> Action
    ensures { result ≡ opening_action board.now.rows t event.now part.now part.now.target }
{
    match &part.target {
        Target::Fresh(_) => Action::New,
        Target::Join(_) => {
            if board.same_period(*event, period_of_put(part, t), t) {
                Action::Exa
            } else {
                Action::Exb
            }
        }
    }
}

/// Returns the line with this action of a put of `event` in a zone where the event has no row, or
/// one that a line has ended. Its begin is always printed; for `Begin::Now` it is `t`, the minute
/// of issue.
fn opening_line(t: Minute, event: &Event, part: &PutPart, zone: &Zone, action: Action) -> Line
    ensures { result ≡ opening_line_by action t event.now part.now zone.now }
{
    Line {
        action,
        event: *event,
        zone: *zone,
        begin: Some(minute_of(&part.begin, t)),
        end: part.end,
        flood: part.flood,
    }
}

/// Returns the line that gives this period and these flood values to `row`, the row of `event` that
/// no line has ended: `CON` if the row has the same period, else `EXT`. Periods are the same at
/// `t`, the minute of issue, if their ends are equal and their begins are equal or both not after
/// `t`. The line's begin is `None`, printed as zeros, if that of `period` is not after `t`.
pub fn carried_line(
    t: Minute,
    event: &Event,
    period: &Period,
    flood: Option<Flood>,
    row: &Row,
) -> Line
    ensures { result ≡ carried_line t event.now period.now flood row.now }
{
    let action = if same_at(t, &row.period, period) {
        Action::Con
    } else {
        Action::Ext
    };
    Line {
        action,
        event: *event,
        zone: row.zone,
        begin: printed_begin(period.begin, t),
        end: period.end,
        flood,
    }
}

/// Returns the line of a put on `row`, the row of `event` that no line has ended: `CON` if the row
/// keeps its period, else `EXT`. A row that has begun at `t`, the minute of issue, keeps its begin,
/// and any other gets that of the put. The line's begin is `None`, printed as zeros, if it is not
/// after `t`.
fn continuing_line(t: Minute, event: &Event, part: &PutPart, row: &Row) -> Line
    ensures { result ≡ continuing_line t event.now part.now row.now }
{
    carried_line(t, event, &period_of_put_on(part, t, row), part.flood, row)
}

/// Returns the row if there is one and no line has ended it, else `None`.
pub fn unless_ended(row: Option<Row>) -> Option<Row>
    ensures { result ≡ unless_ended row }
{
    match row {
        Some(row) if !row.ended => Some(row),
        _ => None,
    }
}

/// Returns the row of the event in the zone, if the put with this target joins the event and no
/// line has ended the row. `None` if there is no such row or the put opens a new event.
fn joined_row(board: &Board, event: &Event, zone: &Zone, target: &Target) -> Option<Row>
    ensures { result ≡ joined_row board.now.rows event.now zone.now target.now }
{
    match target {
        Target::Fresh(_) => None,
        Target::Join(_) => unless_ended(board.row(*event, *zone)),
    }
}

/// Returns the line that a put of `event` has in `zone`, one of its zones, at minute of issue `t`.
/// If the put joins the event and the event has a row there that no line has ended, it is `CON` if
/// the row keeps its period, else `EXT`; otherwise its action is `opening`. `opening` must be what
/// `opening_action` returns for the put.
pub fn line_of_put(
    board: &Board,
    t: Minute,
    event: &Event,
    part: &PutPart,
    zone: &Zone,
    opening: Action,
) -> Line
    requires { opening ≡ opening_action board.now.rows t event.now part.now part.now.target }
    ensures { result ≡ line_of_put board.now.rows t event.now part.now zone.now }
{
    match joined_row(board, event, zone, &part.target) {
        None => opening_line(t, event, part, zone, opening),
        Some(row) => continuing_line(t, event, part, &row),
    }
}

/// Returns the row that the event has in a zone after a put of it at minute of issue `t`, unended
/// and with the put's period and flood values. If the put joins the event, and the event has a row
/// there on `board` that no line has ended and that has begun at `t`, the row keeps that begin.
pub fn row_after_put(board: &Board, t: Minute, event: &Event, part: &PutPart, zone: &Zone) -> Row
    ensures { result ≡ row_after_put board.now.rows t event.now part.now zone.now }
{
    let period = match joined_row(board, event, zone, &part.target) {
        None => period_of_put(part, t),
        Some(row) => period_of_put_on(part, t, &row),
    };
    Row {
        event: *event,
        zone: *zone,
        period,
        flood: part.flood,
        ended: false,
    }
}
