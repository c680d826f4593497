//! The rules on a command. Each function returns the refusal, or `None`. A row is live until a line
//! ends it or its end comes; it is open until a line ends it or more than half an hour has passed
//! since its end.
ghost use Rattle.std.specs.Prelude.{◌≡◌, find, option_map};
ghost use Rattle.event_life.specs.Products.{has_rows};
ghost use Rattle.hazard_board.specs.Consistent.{IsConsistent};
ghost use Rattle.action_planner.specs.Fitting.{is_valid_zone_list};
ghost use Rattle.action_planner.specs.Offences.{holds};
ghost use Rattle.county_notices.specs.Commands.{broken_with, broken_by_itself, broken_by_rows, time_out, time_back, bad_zones, is_public, not_county, has_bad_end, bad_end, held_by, number_used, number_held, none_open, no_watch, was_left, is_gone, left_in, gone_in, left_before, not_live};
ghost use Rattle.county_notices.specs.Lines.{new_event};

use crate::lines::{new_event, open_event};
use action_planner::is_valid_zone_list;
use event_life::{is_live, keeps_open};
use hazard_board::{Board, consistent_rows_stay_consistent};
use hazard_types::{Event, Kind, Minute, Zone};
use notice_json::{Command, Deed, NoticeRefusal};

/// The last minute at which the office issues notices.
const LAST_MINUTE: u32 = 52_000_000;

/// Returns `TimeOut` if the command's minute is above 52,000,000, the last one at which notices are
/// issued, or `None` otherwise.
fn time_out(command: &Command) -> Option<NoticeRefusal>
    ensures { result ≡ time_out command.now }
{
    if LAST_MINUTE < command.at.get() {
        Some(NoticeRefusal::TimeOut { minute: command.at })
    } else {
        None
    }
}

/// Returns `TimeBack` if the command's minute is before `last`, that of the last accepted command,
/// or `None` otherwise.
fn time_back(last: Minute, command: &Command) -> Option<NoticeRefusal>
    ensures { result ≡ time_back last command.now }
{
    if command.at.get() < last.get() {
        Some(NoticeRefusal::TimeBack { last })
    } else {
        None
    }
}

/// Whether there are 1 to 600 zones, all distinct.
fn may_be_named(zones: &[Zone]) -> bool
    ensures { result ≡ is_valid_zone_list zones.now }
{
    is_valid_zone_list(zones)
}

/// Returns `BadZones` if the command has no zone, more than 600, or one of them twice, or `None`
/// otherwise.
fn bad_zones(command: &Command) -> Option<NoticeRefusal>
    ensures { result ≡ bad_zones command.now }
{
    if may_be_named(command.zones.as_slice()) {
        None
    } else {
        Some(NoticeRefusal::BadZones)
    }
}

/// Returns the first zone that is a public forecast zone, not a county, or `None` if there is none.
fn first_public(zones: &[Zone]) -> Option<Zone>
    ensures { result ≡ find is_public zones.now }
{
    for zone in zones {
        if zone.kind() == Kind::Z {
            return Some(*zone);
        }
    }
    None
}

/// Returns `NotCounty` with the first zone of the command that is a public forecast zone, or `None`
/// if all are counties.
fn not_county(command: &Command) -> Option<NoticeRefusal>
    ensures { result ≡ not_county command.now }
{
    match first_public(command.zones.as_slice()) {
        Some(zone) => Some(NoticeRefusal::NotCounty { zone }),
        None => None,
    }
}

/// Whether the command opens or joins a watch with an end that is not after the command's minute.
fn has_bad_end(command: &Command) -> bool
    ensures { result ≡ has_bad_end command.now.at command.now.deed }
{
    match &command.deed {
        Deed::Open(end) | Deed::Join(end) => end.get() <= command.at.get(),
        Deed::End => false,
    }
}

/// Returns `BadEnd` if the command opens or joins a watch with an end that is not after the
/// command's minute, or `None` otherwise.
fn bad_end(command: &Command) -> Option<NoticeRefusal>
    ensures { result ≡ bad_end command.now }
{
    if has_bad_end(command) {
        Some(NoticeRefusal::BadEnd)
    } else {
        None
    }
}

/// Returns the refusal for the first rule that the command breaks without regard to the rows, of
/// TimeOut, TimeBack, BadZones, NotCounty, BadEnd, in this order, or `None` if it breaks none of
/// them. `last` is the minute of the last accepted command, 0 before the first.
#[tactic(auto, unfolding(crate::specs::Commands::broken_by_itself))]
fn broken_by_itself(last: Minute, command: &Command) -> Option<NoticeRefusal>
    ensures { result ≡ broken_by_itself last command.now }
{
    let found = time_out(command);
    if found.is_some() {
        return found;
    }
    let found = time_back(last, command);
    if found.is_some() {
        return found;
    }
    let found = bad_zones(command);
    if found.is_some() {
        return found;
    }
    let found = not_county(command);
    if found.is_some() {
        return found;
    }
    bad_end(command)
}

/// Whether the event has a row on the board, ended or not.
fn is_used(board: &Board, event: &Event) -> bool
    ensures { result ≡ has_rows board.now.rows event.now }
{
    board.has(*event)
}

/// Returns `NumberUsed` if the command opens an event that has rows already, ended or not, or
/// `None` otherwise.
fn number_used(board: &Board, command: &Command) -> Option<NoticeRefusal>
    ensures { result ≡ number_used board.now.rows command.now command.now.deed }
{
    match &command.deed {
        Deed::Open(_) => {
            let event = new_event(command);
            if is_used(board, &event) {
                Some(NoticeRefusal::NumberUsed { event })
            } else {
                None
            }
        }
        Deed::Join(_) | Deed::End => None,
    }
}

/// Returns `NumberHeld` if an event of an earlier year with the hazard and number of the event that
/// the command would open is open, or `None` otherwise. An event is open if it has a row that no
/// line has ended and whose end is at most half an hour before the command's minute.
fn holder(board: &Board, command: &Command) -> Option<NoticeRefusal>
    requires { IsConsistent board.now.rows command.now.at }
    ensures { result ≡ option_map held_by
        (find (holds command.now.at (new_event command.now)) board.now.rows) }
{
    let event = new_event(command);
    let holder = open_event(board, command)?;
    if holder.year < event.year {
        Some(NoticeRefusal::NumberHeld { event: holder })
    } else {
        None
    }
}

/// Returns `NumberHeld` if the command opens an event while an event of an earlier year with the
/// same hazard and number is open, or `None` otherwise. An event is open if it has a row that no
/// line has ended and whose end is at most half an hour before the command's minute.
fn number_held(board: &Board, command: &Command) -> Option<NoticeRefusal>
    requires { IsConsistent board.now.rows command.now.at }
    ensures { result ≡ number_held board.now.rows command.now command.now.deed }
{
    match &command.deed {
        Deed::Open(_) => holder(board, command),
        Deed::Join(_) | Deed::End => None,
    }
}

/// Returns `NoWatch` if no event of the command's hazard and number is open at the command's
/// minute, or `None` otherwise. An event is open if it has a row that no line has ended and whose
/// end is at most half an hour past.
fn none_open(board: &Board, command: &Command) -> Option<NoticeRefusal>
    ensures { result ≡ none_open board.now.rows command.now }
{
    match open_event(board, command) {
        Some(_) => None,
        None => Some(NoticeRefusal::NoWatch),
    }
}

/// Returns `NoWatch` if the command joins or ends a watch and no event of its hazard and number is
/// open, or `None` otherwise. An event is open if it has a row that no line has ended and whose end
/// is at most half an hour before the command's minute.
fn no_watch(board: &Board, command: &Command) -> Option<NoticeRefusal>
    ensures { result ≡ no_watch board.now.rows command.now command.now.deed }
{
    match &command.deed {
        Deed::Open(_) => None,
        Deed::Join(_) | Deed::End => none_open(board, command),
    }
}

/// Whether the event has a row in the zone whose end has come by minute `t` and that no line has
/// ended.
fn was_left(board: &Board, t: Minute, event: &Event, zone: &Zone) -> bool
    ensures { result ≡ was_left board.now.rows t event.now zone.now }
{
    match board.row(*event, *zone) {
        Some(row) => !row.ended && !is_live(&row, t),
        None => false,
    }
}

/// Returns the first of `zones` in which the event has a row whose end has come by minute `t` and
/// that no line has ended, or `None` if there is no such zone.
fn first_left(board: &Board, t: Minute, event: &Event, zones: &[Zone]) -> Option<Zone>
    ensures { result ≡ find (was_left board.now.rows t event.now) zones.now }
{
    for zone in zones {
        if was_left(board, t, event, zone) {
            return Some(*zone);
        }
    }
    None
}

/// Returns `LeftBefore` with the first zone of the command in which `event` has a row whose end has
/// come by the command's minute and that no line has ended, or `None` if there is no such zone.
/// `event` is the open event that the command joins; without one the result is `None`.
fn left_in(board: &Board, command: &Command, event: Option<Event>) -> Option<NoticeRefusal>
    ensures { result ≡ left_in board.now.rows command.now event }
{
    let event = event?;
    match first_left(board, command.at, &event, command.zones.as_slice()) {
        Some(zone) => Some(NoticeRefusal::LeftBefore { zone }),
        None => None,
    }
}

/// Returns `LeftBefore` if the command joins zones to an open event and one of them has a row of it
/// whose end has come by the command's minute and that no line has ended, or `None` otherwise. It
/// names the first such zone.
fn left_before(board: &Board, command: &Command) -> Option<NoticeRefusal>
    ensures { result ≡ left_before board.now.rows command.now command.now.deed }
{
    match &command.deed {
        Deed::Join(_) => left_in(board, command, open_event(board, command)),
        Deed::Open(_) | Deed::End => None,
    }
}

/// Whether the event has no row in the zone that is open at minute `t`: none, one that a line has
/// ended, or one whose end is more than half an hour past.
fn is_gone(board: &Board, t: Minute, event: &Event, zone: &Zone) -> bool
    ensures { result ≡ is_gone board.now.rows t event.now zone.now }
{
    match board.row(*event, *zone) {
        Some(row) => !keeps_open(&row, t),
        None => true,
    }
}

/// Returns the first of `zones` in which the event has no row that is open at minute `t`, or `None`
/// if there is no such zone. A row is open if no line has ended it and its end is at most half an
/// hour past.
fn first_gone(board: &Board, t: Minute, event: &Event, zones: &[Zone]) -> Option<Zone>
    ensures { result ≡ find (is_gone board.now.rows t event.now) zones.now }
{
    for zone in zones {
        if is_gone(board, t, event, zone) {
            return Some(*zone);
        }
    }
    None
}

/// Returns `NotLive` with the first zone of the command in which `event` has no open row, or `None`
/// if there is no such zone. A row is open if no line has ended it and its end is at most half an
/// hour before the command's minute. `event` is the open event that the command ends; without one
/// the result is `None`.
fn gone_in(board: &Board, command: &Command, event: Option<Event>) -> Option<NoticeRefusal>
    ensures { result ≡ gone_in board.now.rows command.now event }
{
    let event = event?;
    match first_gone(board, command.at, &event, command.zones.as_slice()) {
        Some(zone) => Some(NoticeRefusal::NotLive { zone }),
        None => None,
    }
}

/// Returns `NotLive` if the command ends an open event and one of its zones has no open row of it,
/// or `None` otherwise. It names the first such zone. A row is open if no line has ended it and its
/// end is at most half an hour before the command's minute.
fn not_live(board: &Board, command: &Command) -> Option<NoticeRefusal>
    ensures { result ≡ not_live board.now.rows command.now command.now.deed }
{
    match &command.deed {
        Deed::End => gone_in(board, command, open_event(board, command)),
        Deed::Open(_) | Deed::Join(_) => None,
    }
}

/// Returns the refusal for the first rule that the command breaks because of the rows, of
/// NumberUsed, NumberHeld, NoWatch, LeftBefore, NotLive, in this order, or `None` if it breaks none
/// of them.
#[tactic(auto, unfolding(crate::specs::Commands::broken_by_rows))]
fn broken_by_rows(board: &Board, command: &Command) -> Option<NoticeRefusal>
    requires { IsConsistent board.now.rows command.now.at }
    ensures { result ≡ broken_by_rows board.now.rows command.now }
{
    let found = number_used(board, command);
    if found.is_some() {
        return found;
    }
    let found = number_held(board, command);
    if found.is_some() {
        return found;
    }
    let found = no_watch(board, command);
    if found.is_some() {
        return found;
    }
    let found = left_before(board, command);
    if found.is_some() {
        return found;
    }
    not_live(board, command)
}

/// Returns the refusal for the first rule that the command breaks, apart from TooLong, which needs
/// the notice, or `None` if there is none. The rules come in the order TimeOut, TimeBack, BadZones,
/// NotCounty, BadEnd, NumberUsed, NumberHeld, NoWatch, LeftBefore, NotLive. `last` is the minute of
/// the last accepted command, 0 before the first.
///
/// Source: docs/NOTICES.md, "Refusals"; docs/DECISIONS.md, "County notices".
pub fn broken(board: &Board, last: Minute, command: &Command) -> Option<NoticeRefusal>
    requires { IsConsistent board.now.rows last }
    ensures { result ≡ broken_with board.now.rows last command.now }
{
    consistent_rows_stay_consistent();
    let found = broken_by_itself(last, command);
    if found.is_some() {
        return found;
    }
    broken_by_rows(board, command)
}
