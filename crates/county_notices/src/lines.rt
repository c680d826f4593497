//! The lines of a command. An unended row is one that no line has ended.
ghost use Rattle.std.specs.Prelude.{◌≡◌, ◌++◌, IfOk, OnOk};
ghost use Rattle.office_types.specs.declared.request.Target.TheVariants.{Fresh, Join};
ghost use Rattle.action_planner.specs.Lines.{opening_action, opening_line_by, line_of_put, period_of_put_on};
ghost use Rattle.county_notices.specs.Lines.{new_event, open_event, event_by, put_of, entering_action, ending_action, ending_lines, lines_in, lines_in_zones, lines_of};

use action_planner::{carried_line, is_near_end, line_on, unless_ended};
use hazard_board::Board;
use hazard_types::{Action, End, Event, Line, List, Minute, Oom, Period, Row, Zone, year_of};
use notice_json::{Command, Deed};
use std::alloc::Global;

/// Returns the event that a command would open. Its number is the command's, its year that of the
/// command's minute, in UTC.
pub fn new_event(command: &Command) -> Event
    ensures { result ≡ new_event command.now }
{
    Event {
        hazard: command.watch.hazard(),
        etn: command.number,
        year: year_of(command.at),
    }
}

/// Returns the event of the command's hazard and number that is open at the command's minute, the
/// one of the greatest year if there are several, or `None` if there is none. An event is open if
/// it has a row that no line has ended and whose end is at most half an hour past.
pub fn open_event(board: &Board, command: &Command) -> Option<Event>
    ensures { result ≡ open_event board.now.rows command.now }
{
    board.going(command.watch.hazard(), command.number, command.at)
}

/// Returns the event that a command opens, or, for a command that joins or ends an event, the open
/// event of its hazard and number, or `None` if none is open. An event is open if it has a row that
/// no line has ended and whose end is at most half an hour before the command's minute.
pub fn event_by(board: &Board, command: &Command) -> Option<Event>
    ensures { result ≡ event_by board.now.rows command.now command.now.deed }
{
    match &command.deed {
        Deed::Open(_) => Some(new_event(command)),
        Deed::Join(_) | Deed::End => open_event(board, command),
    }
}

/// Returns the `NEW` line that opens `event` in `zone`, from the minute `t` of the command to
/// `end`. `board` is named only by the contract.
fn new_line(board: &Board, t: Minute, event: &Event, end: Minute, zone: &Zone) -> Line
    ensures { result
        ≡ line_of_put board.now.rows t event.now (put_of (Fresh event.now.hazard) end) zone.now }
{
    Line {
        action: Action::New,
        event: *event,
        zone: *zone,
        begin: Some(t),
        end: End::At(end),
        flood: None,
    }
}

/// Returns the action of a command's lines in zones where `event` has no row, or only a row that a
/// line has ended. It is `NEW` if the command opens the event; if it joins the event, `EXA` if a
/// live row of the event has begun by the command's minute and has the end that the command gives,
/// else `EXB`. For a command that ends the event, whose lines don't use it, it is `NEW`.
///
/// Source: NWS Instruction 10-1703, P-VTEC action codes; docs/NOTICES.md, "A line".
fn entering_action(board: &Board, command: &Command, event: &Event) -> Action
    ensures { result ≡ entering_action board.now.rows command.now.at event.now command.now.deed }
{
    match &command.deed {
        Deed::Open(_) | Deed::End => Action::New,
        Deed::Join(end) => {
            let period = Period {
                begin: command.at,
                end: End::At(*end),
            };
            if board.same_period(*event, period, command.at) {
                Action::Exa
            } else {
                Action::Exb
            }
        }
    }
}

/// Returns the line that adds `zone` to `event`, from the minute `t` of the command to `end`. The
/// zone has no row of the event that is not ended, and `action` is `EXA` or `EXB`.
fn entering_line(action: Action, t: Minute, event: &Event, end: Minute, zone: &Zone) -> Line
    ensures { result ≡ opening_line_by action t event.now (put_of (Join event.now) end) zone.now }
{
    Line {
        action,
        event: *event,
        zone: *zone,
        begin: Some(t),
        end: End::At(end),
        flood: None,
    }
}

/// Returns the period to `end` that a join at minute `t` gives `row`, which no line has ended. It
/// begins where the row begins if that is not after `t`, else at `t`. `event` is the row's event.
fn joined_period(t: Minute, end: Minute, event: &Event, row: &Row) -> Period
    ensures { result ≡ period_of_put_on (put_of (Join event.now) end) t row.now }
{
    let begin = if row.period.begin.get() <= t.get() {
        row.period.begin
    } else {
        t
    };
    Period {
        begin,
        end: End::At(end),
    }
}

/// Returns the line of a command that joins `zone` to `event` at minute `t` until `end`. If the
/// event has a row in the zone that no line has ended, it is `CON` if the period of the row stays
/// the same, else `EXT`; without such a row it has the action `entering`.
fn join_line(
    board: &Board,
    t: Minute,
    event: &Event,
    end: Minute,
    entering: Action,
    zone: &Zone,
) -> Line
    requires { entering ≡ opening_action board.now.rows t event.now
        (put_of (Join event.now) end) (Join event.now) }
    ensures { result ≡ line_of_put board.now.rows t event.now (put_of (Join event.now) end) zone.now }
{
    match unless_ended(board.row(*event, *zone)) {
        None => entering_line(entering, t, event, end, zone),
        Some(row) => carried_line(t, event, &joined_period(t, end, event, &row), None, &row),
    }
}

/// Returns the action that ends a row at minute `t`: `EXP` within half an hour of the row's end,
/// before or after, else `CAN`.
///
/// Source: NWS Instruction 10-1703, P-VTEC action codes; docs/NOTICES.md, "A line".
fn ending_action(t: Minute, row: &Row) -> Action
    ensures { result ≡ ending_action t row.now }
{
    if is_near_end(&row.period.end, t) {
        Action::Exp
    } else {
        Action::Can
    }
}

/// Appends the line that ends `row` at minute `t`, or nothing if there is no row. It is `EXP`
/// within half an hour of the end of the row, before or after, else `CAN`.
fn add_ending(lines: &mut List<Line>, t: Minute, row: &Option<Row>) -> Result<(), Oom>
    ensures { OnOk result (lines.new ≡ lines.old ++ ending_lines t row.now) }
{
    match row {
        None => Ok(()),
        Some(row) => lines.extend(&[line_on(ending_action(t, row), t, row)]),
    }
}

/// Appends the line of a command on `event` in `zone`, one of its zones, or nothing if the command
/// ends the event and the event has no row there. `entering` is the action for a zone that joins
/// the event without a row of it that is not ended.
fn add_in_zone(
    lines: &mut List<Line>,
    board: &Board,
    command: &Command,
    event: &Event,
    entering: Action,
    zone: &Zone,
) -> Result<(), Oom>
    requires { entering ≡ entering_action board.now.rows command.now.at event.now command.now.deed }
    ensures { OnOk result (lines.new ≡ lines.old
        ++ lines_in board.now.rows command.now.at event.now command.now.deed zone.now) }
{
    let t = command.at;
    match &command.deed {
        Deed::Open(end) => lines.extend(&[new_line(board, t, event, *end, zone)]),
        Deed::Join(end) => { lines.extend(&[join_line(board, t, event, *end, entering, zone)]) },
        Deed::End => add_ending(lines, t, &board.row(*event, *zone)),
    }
}

/// Returns the lines of a command on `event`, one for each of its zones, in the order in which the
/// command names them. A command that ends the event has no line in a zone without a row of it.
fn lines_in_zones(
    alloc: Global,
    board: &Board,
    command: &Command,
    event: &Event,
) -> Result<List<Line>, Oom>
    ensures { IfOk result (λ lines. lines ≡ lines_in_zones board.now.rows command.now.at event.now
        command.now.deed command.now.zones) }
{
    let entering = entering_action(board, command, event);
    let mut lines = List::new(alloc);
    for zone in command.zones.as_slice() {
        add_in_zone(&mut lines, board, command, event, entering, zone)?;
    }
    Ok(lines)
}

/// Returns the lines of a command, one for each of its zones, in the order in which the command
/// names them. There are none if it joins or ends a watch and no event of its hazard and number is
/// open; one that ends a watch has none in a zone without a row.
///
/// # Errors
///
/// Out of memory.
pub fn lines_of(alloc: Global, board: &Board, command: &Command) -> Result<List<Line>, Oom>
    ensures { IfOk result (λ lines. lines ≡ lines_of board.now.rows command.now) }
{
    match event_by(board, command) {
        Some(event) => lines_in_zones(alloc, board, command, &event),
        None => Ok(List::new(alloc)),
    }
}
