//! The rules on an intent in each of its zones. A row is live until a line ends it or its end
//! comes; it is open until a line ends it or more than half an hour has passed since its end.
ghost use Rattle.std.specs.Prelude.{◌≡◌, ◌&&◌, not, nat_le};
ghost use Rattle.event_life.specs.Periods.{is_live};
ghost use Rattle.event_life.specs.Products.{row_at};
ghost use Rattle.action_planner.specs.Offences.{has_row_by, is_gone, is_join_target, joins, was_left, is_shared, is_moved};
ghost use Rattle.action_planner.specs.ZoneRules.{is_against, refused, zone_offence};

use crate::placed::{Placed, zones_of};
use crate::puts::minute_of;
use crate::spoken::Spoken;
use event_life::{is_live, keeps_open};
use hazard_board::Board;
use hazard_types::{Event, Minute, Zone};
use office_types::{Intent, Refusal, Target};

/// Whether the event has a row in the zone whose end is not after `t` and that no line has ended.
fn has_lapsed_row(board: &Board, t: Minute, event: &Event, zone: &Zone) -> bool
    ensures { result ≡ has_row_by (λ row. not row.ended && not (is_live t row))
        (row_at board.now.rows event.now zone.now) }
{
    match board.row(*event, *zone) {
        Some(row) => !row.ended && !is_live(&row, t),
        None => false,
    }
}

/// Whether the event has a row in the zone that is live at `t` and whose begin is not after `t`.
fn has_begun_row(board: &Board, t: Minute, event: &Event, zone: &Zone) -> bool
    ensures { result ≡ has_row_by (λ row. is_live t row && nat_le row.period.begin t)
        (row_at board.now.rows event.now zone.now) }
{
    match board.row(*event, *zone) {
        Some(row) => is_live(&row, t) && row.period.begin.get() <= t.get(),
        None => false,
    }
}

/// Whether the intent is a finish and the event has no row in the zone that keeps it open at `t`,
/// or a restate and the event has no row there that is live at `t`. A row keeps its event open if
/// no line has ended it and its end is not more than half an hour before `t`; false for puts and
/// routine intents.
fn is_gone(board: &Board, t: Minute, event: &Event, intent: &Intent, zone: &Zone) -> bool
    ensures { result ≡ is_gone board.now.rows t event.now intent.now zone.now }
{
    match intent {
        Intent::Put(_) | Intent::Routine(_) => false,
        Intent::Finish(_) => match board.row(*event, *zone) {
            Some(row) => !keeps_open(&row, t),
            None => true,
        },
        Intent::Restate(_) => match board.row(*event, *zone) {
            Some(row) => !is_live(&row, t),
            None => true,
        },
    }
}

/// Whether a put with this target joins an event that exists, rather than opening a new one.
pub fn is_join_target(target: &Target) -> bool
    ensures { result ≡ is_join_target target.now }
{
    match target {
        Target::Fresh(_) => false,
        Target::Join(_) => true,
    }
}

/// Whether the intent is a put that joins an event that exists.
fn joins(intent: &Intent) -> bool
    ensures { result ≡ joins intent.now }
{
    match intent {
        Intent::Put(part) => is_join_target(&part.target),
        Intent::Finish(_) | Intent::Restate(_) | Intent::Routine(_) => false,
    }
}

/// Whether the intent is a put that joins the event and the event has a row in the zone whose end
/// is not after `t` and that no line has ended.
fn was_left(board: &Board, t: Minute, event: &Event, intent: &Intent, zone: &Zone) -> bool
    ensures { result ≡ was_left board.now.rows t event.now intent.now zone.now }
{
    joins(intent) && has_lapsed_row(board, t, event, zone)
}

/// Whether the intent is a put that joins the event with a begin after `t`, the minute of issue,
/// and the event has a row in the zone that is live at `t` and has begun at `t` or before.
fn is_moved(board: &Board, t: Minute, event: &Event, intent: &Intent, zone: &Zone) -> bool
    ensures { result ≡ is_moved board.now.rows t event.now intent.now zone.now }
{
    match intent {
        Intent::Put(part) => match part.target {
            Target::Fresh(_) => false,
            Target::Join(_) => {
                t.get() < minute_of(&part.begin, t).get() && has_begun_row(board, t, event, zone)
            }
        },
        Intent::Finish(_) | Intent::Restate(_) | Intent::Routine(_) => false,
    }
}

/// A rule that an intent keeps in each of its zones, named as its refusal.
#[derive(Clone, Copy)]
pub enum ZoneRule {
    /// Broken by a finish in a zone without an open row, or a restate in one without a live row.
    NotLive,
    /// Broken by a joining put in a zone with a row whose end has come and that no line has ended.
    LeftBefore,
    /// Broken where another intent is on the same event in the zone.
    Twice,
    /// Broken by a joining put that begins after `t`, on a live row that has begun.
    BegunMoved,
}

/// Whether the intent `p` breaks the rule in `zone`, one of its zones, at minute of issue `t`.
/// `spoken` has all intents of the draft, which the rule Twice is about.
fn is_against(
    board: &Board,
    t: Minute,
    spoken: &Spoken,
    rule: ZoneRule,
    p: &Placed,
    zone: &Zone,
) -> bool
    ensures { result ≡ is_against board.now.rows t spoken.now rule p.now zone.now }
{
    match rule {
        ZoneRule::NotLive => is_gone(board, t, &p.event, p.intent, zone),
        ZoneRule::LeftBefore => was_left(board, t, &p.event, p.intent, zone),
        ZoneRule::Twice => spoken.is_shared(p, zone),
        ZoneRule::BegunMoved => is_moved(board, t, &p.event, p.intent, zone),
    }
}

/// Returns the refusal that is named as the rule, with this event and this zone.
fn refused(rule: ZoneRule, event: Event, zone: Zone) -> Refusal
    ensures { result ≡ refused rule event zone }
{
    match rule {
        ZoneRule::NotLive => Refusal::NotLive { event, zone },
        ZoneRule::LeftBefore => Refusal::LeftBefore { event, zone },
        ZoneRule::Twice => Refusal::Twice { event, zone },
        ZoneRule::BegunMoved => Refusal::BegunMoved { event, zone },
    }
}

/// Returns the refusal of the intent `p` under a rule for the first of its zones, as written, in
/// which it breaks the rule, or `None` if there is none. `spoken` has all intents of the draft, and
/// `t` is the minute of issue.
pub fn zone_offence(
    board: &Board,
    t: Minute,
    spoken: &Spoken,
    rule: ZoneRule,
    p: &Placed,
) -> Option<Refusal>
    ensures { result ≡ zone_offence board.now.rows t spoken.now rule p.now }
{
    let zone = zones_of(p.intent)
        .iter()
        .find(|zone| is_against(board, t, spoken, rule, p, zone))?;
    Some(refused(rule, p.event, *zone))
}
