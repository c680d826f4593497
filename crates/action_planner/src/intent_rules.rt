//! The rules on an intent as a whole. Each function returns the refusal, or `None`.
ghost use Rattle.std.specs.Prelude.{◌≡◌, ◌<◌, find, option_map};
ghost use Rattle.event_life.specs.Products.{is_open};
ghost use Rattle.hazard_board.specs.Consistent.{IsConsistent};
ghost use Rattle.hazard_types.specs.Hazards.{facts_of};
ghost use Rattle.action_planner.specs.Conditions.{needs_values, site_of};
ghost use Rattle.action_planner.specs.Offences.{needs_event, not_open, is_bad_period, bad_period, may_stand_open, barred_open_end, needed_flood, barred_flood, differs, other_site, moves_site, site_moved, holds, held_by, number_held, numbers_spent};

use crate::placed::{Placed, is_opening};
use crate::puts::minute_of;
use crate::zone_rules::is_join_target;
use event_life::ends_after;
use hazard_board::Board;
use hazard_types::desk_hazards::facts;
use hazard_types::{End, Event, Flood, Hazard, Minute, Row};
use office_types::{Intent, PutPart, Refusal};

/// Whether the event is open at minute `t`: it has a row on the board that no line has ended and
/// whose end is not more than half an hour before `t`.
fn is_open(board: &Board, t: Minute, event: &Event) -> bool
    requires { IsConsistent board.now.rows t }
    ensures { result ≡ is_open board.now.rows t event.now }
{
    match board.going(event.hazard, event.etn, t) {
        Some(open) => open == *event,
        None => false,
    }
}

/// Whether the intent needs its event to be open: a put that joins one, a finish or a restate.
fn needs_event(intent: &Intent) -> bool
    ensures { result ≡ needs_event intent.now }
{
    match intent {
        Intent::Put(_) => !is_opening(intent),
        Intent::Finish(_) | Intent::Restate(_) => true,
        Intent::Routine(_) => false,
    }
}

/// Whether a put begins before `t`, the minute of issue, or does not end after both its begin and
/// `t`.
fn is_bad_period(part: &PutPart, t: Minute) -> bool
    ensures { result ≡ is_bad_period part.now t }
{
    let begin = minute_of(&part.begin, t);
    begin.get() < t.get() || !(ends_after(&part.end, begin) && ends_after(&part.end, t))
}

/// Whether the hazard may be in effect until further notice. False for a hazard that the desk does
/// not issue.
fn may_stand_open(hazard: Hazard) -> bool
    ensures { result ≡ may_stand_open (facts_of hazard) }
{
    match facts(hazard) {
        Some(known) => known.ufn,
        None => false,
    }
}

/// Whether events of the hazard need flood values (H-VTEC). False for a hazard that the desk does
/// not issue.
fn needs_values(hazard: Hazard) -> bool
    ensures { result ≡ needs_values (facts_of hazard) }
{
    match facts(hazard) {
        Some(known) => known.flood,
        None => false,
    }
}

/// Returns the refusal NoEvent if the intent joins, finishes or restates an event that is not open
/// at `t`, the minute of issue; else `None`.
pub fn not_open(board: &Board, t: Minute, p: &Placed) -> Option<Refusal>
    requires { IsConsistent board.now.rows t }
    ensures { result ≡ not_open board.now.rows t p.now }
{
    if needs_event(p.intent) && !is_open(board, t, &p.event) {
        Some(Refusal::NoEvent { event: p.event })
    } else {
        None
    }
}

/// Returns the refusal BadPeriod if the intent is a put that begins before `t`, the minute of
/// issue, or does not end after both its begin and `t`; else `None`.
pub fn bad_period(t: Minute, p: &Placed) -> Option<Refusal>
    requires { p.now.place < 64 }
    ensures { result ≡ bad_period t p.now }
{
    match p.intent {
        Intent::Put(part) if is_bad_period(part, t) => Some(Refusal::BadPeriod {
            place: p.place as u32,
        }),
        _ => None,
    }
}

/// Returns the refusal NoOpenEnd if the intent is a put until further notice of a hazard that must
/// have an end, else `None`.
pub fn barred_open_end(p: &Placed) -> Option<Refusal>
    requires { p.now.place < 64 }
    ensures { result ≡ barred_open_end p.now }
{
    match p.intent {
        Intent::Put(part) if part.end == End::Ufn && !may_stand_open(p.event.hazard) => {
            Some(Refusal::NoOpenEnd {
                place: p.place as u32,
            })
        }
        _ => None,
    }
}

/// Returns the refusal FloodNeeded if the hazard needs flood values (H-VTEC) and the intent is
/// routine or a put without them, else `None`.
pub fn needed_flood(p: &Placed) -> Option<Refusal>
    requires { p.now.place < 64 }
    ensures { result ≡ needed_flood p.now }
{
    let lacking = match p.intent {
        Intent::Put(part) => part.flood.is_none(),
        Intent::Routine(_) => true,
        Intent::Finish(_) | Intent::Restate(_) => false,
    };
    if lacking && needs_values(p.event.hazard) {
        Some(Refusal::FloodNeeded {
            place: p.place as u32,
        })
    } else {
        None
    }
}

/// Returns the refusal FloodBarred if the intent is a put with flood values (H-VTEC) of a hazard
/// that takes none, else `None`.
pub fn barred_flood(p: &Placed) -> Option<Refusal>
    requires { p.now.place < 64 }
    ensures { result ≡ barred_flood p.now }
{
    match p.intent {
        Intent::Put(part) if part.flood.is_some() && !needs_values(p.event.hazard) => {
            Some(Refusal::FloodBarred {
                place: p.place as u32,
            })
        }
        _ => None,
    }
}

/// Returns the location, five characters as `ABCM2`, of flood values, or `None` if there are none.
fn site_of(flood: &Option<Flood>) -> Option<[u8; 5]>
    ensures { result ≡ site_of flood.now }
{
    match flood {
        Some(flood) => Some(flood.site),
        None => None,
    }
}

/// Whether both locations are given and they differ.
fn differs(first: &Option<[u8; 5]>, second: &Option<[u8; 5]>) -> bool
    ensures { result ≡ differs first.now second.now }
{
    match (first, second) {
        (Some(first), Some(second)) => *first != *second,
        _ => false,
    }
}

/// Whether the row and the flood values `named` both have a location and the two differ.
fn other_site(row: &Option<Row>, named: &Option<Flood>) -> bool
    ensures { result ≡ other_site row.now named.now }
{
    match row {
        Some(row) => differs(&site_of(&row.flood), &site_of(named)),
        None => false,
    }
}

/// Whether a put joins the event and its flood values name another location than those of the
/// event's first row by zone. False if one of the two names none.
fn moves_site(board: &Board, event: &Event, part: &PutPart) -> bool
    ensures { result ≡ moves_site board.now.rows event.now part.now }
{
    is_join_target(&part.target) && other_site(&board.first(*event), &part.flood)
}

/// Returns the refusal SiteMoved if the intent is a put that joins an event and its flood values
/// name another location than those of the event's first row by zone; else `None`.
pub fn site_moved(board: &Board, p: &Placed) -> Option<Refusal>
    ensures { result ≡ site_moved board.now.rows p.now }
{
    match p.intent {
        Intent::Put(part) if moves_site(board, &p.event, part) => {
            Some(Refusal::SiteMoved { event: p.event })
        }
        _ => None,
    }
}

/// Returns the refusal NumberHeld, which names the holder, if an event of an earlier year with the
/// hazard and number of `event` is open at `t`, the minute of issue; else `None`.
fn number_held_for(board: &Board, t: Minute, event: &Event) -> Option<Refusal>
    requires { IsConsistent board.now.rows t }
    ensures { result ≡ option_map held_by (find (holds t event.now) board.now.rows) }
{
    let holder = board.going(event.hazard, event.etn, t)?;
    if holder.year < event.year {
        Some(Refusal::NumberHeld { event: holder })
    } else {
        None
    }
}

/// Returns the refusal NumberHeld if the intent opens an event and an event of an earlier year with
/// the same hazard and number is open at `t`, the minute of issue; else `None`.
///
/// Source: NWS Instruction 10-1703, P-VTEC event tracking numbers; docs/DECISIONS.md, "Plans".
pub fn number_held(board: &Board, t: Minute, p: &Placed) -> Option<Refusal>
    requires { IsConsistent board.now.rows t }
    ensures { result ≡ number_held board.now.rows t p.now }
{
    if is_opening(p.intent) {
        number_held_for(board, t, &p.event)
    } else {
        None
    }
}

/// Returns the refusal NumbersSpent if the number of the event that the intent opens is above
/// 9,999, else `None`.
pub fn numbers_spent(p: &Placed) -> Option<Refusal>
    ensures { result ≡ numbers_spent p.now }
{
    if is_opening(p.intent) && p.event.etn > 9999 {
        Some(Refusal::NumbersSpent {
            hazard: p.event.hazard,
        })
    } else {
        None
    }
}
