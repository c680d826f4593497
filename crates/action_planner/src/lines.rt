//! The lines of a draft: those of each intent in each of its zones, and `CON` for the other live
//! rows of the category in these zones.
ghost use Rattle.std.specs.Prelude.{◌≡◌, ◌<◌, ◌∷◌, [], ◌++◌, true, length, map, filter, IfOk, OnOk};
ghost use Rattle.std.specs.List.Sorted.{IsStrictlySortedBy};
ghost use Rattle.hazard_types.specs.Hazards.{facts_of};
ghost use Rattle.hazard_types.specs.declared.codes.Action.TheVariants.{Con};
ghost use Rattle.event_life.specs.Products.{by_key};
ghost use Rattle.hazard_board.specs.Board.{slice_of};
ghost use Rattle.action_planner.specs.Placed.{zones_of, touches, speaks};
ghost use Rattle.action_planner.specs.Lines.{line_on, is_near_end, finishing_action, finish_lines, restate_lines, lines_in, lines_in_zones, lines_from, routine_line, follows, goes_on, is_continued, added_in, added_lines, planned_lines};
ghost use Rattle.action_planner.specs.Sending.{have_finish, is_finish, opening_of};

use crate::placed::{Placed, zones_of};
use crate::puts::{line_of_put, opening_action, printed_begin};
use crate::sending::Sending;
use crate::spoken::Spoken;
use event_life::{ends_after, is_live};
use hazard_types::desk_hazards::facts;
use hazard_types::{
    Action, Category, End, Event, Hazard, Line, List, Minute, Oom, Row, Zone, is_fl_phenomenon,
};
use office_types::Intent;
use std::alloc::Global;

/// Returns the line with this action that has the event, zone, period and flood values of a row.
/// Its begin is `None`, printed as zeros, if that of the row is not after `t`, the minute of issue.
pub fn line_on(action: Action, t: Minute, row: &Row) -> Line
    ensures { result ≡ line_on action t row.now }
{
    Line {
        action,
        event: row.event,
        zone: row.zone,
        begin: printed_begin(row.period.begin, t),
        end: row.period.end,
        flood: row.flood,
    }
}

/// Whether the end is a minute that is at most 30 minutes before or after `t`. False for an end
/// until further notice.
pub fn is_near_end(end: &End, t: Minute) -> bool
    ensures { result ≡ is_near_end end.now t }
{
    match end {
        End::At(minute) => minute.get() <= t.get() + 30 && t.get() <= minute.get() + 30,
        End::Ufn => false,
    }
}

/// Returns the action that ends a row in the draft `sending`, one of whose intents must be a
/// finish. It is `UPG` if the row's end is after the minute of issue and a live row of its zone and
/// family, of a higher rank, overlaps it after the draft; else `EXP` if the end is at most 30
/// minutes before or after the minute of issue; else `CAN`.
///
/// Source: NWS Instruction 10-1703, P-VTEC action codes; docs/PRODUCTS.md, "Which action a line
/// gets".
fn finishing_action(sending: &Sending, row: &Row) -> Action
    requires { have_finish sending.now.intents ≡ true }
    ensures { result
        ≡ finishing_action sending.now.rows sending.now.minute sending.now.intents row.now }
{
    let t = sending.minute();
    if ends_after(&row.period.end, t) && sending.is_overlaid(row) {
        Action::Upg
    } else if is_near_end(&row.period.end, t) {
        Action::Exp
    } else {
        Action::Can
    }
}

/// Appends a line to `lines`.
///
/// # Errors
///
/// Out of memory.
pub fn add_line(lines: &mut List<Line>, line: &Line) -> Result<(), Oom>
    ensures { OnOk result (lines.new ≡ lines.old ++ line.now ∷ []) }
{
    lines.extend(&[*line])
}

/// Appends the line, `UPG`, `EXP` or `CAN`, that ends `row`, the row of a finished event in a zone,
/// or nothing if `row` is `None`.
fn add_finish(lines: &mut List<Line>, sending: &Sending, row: &Option<Row>) -> Result<(), Oom>
    requires { have_finish sending.now.intents ≡ true }
    ensures { OnOk result (lines.new ≡ lines.old
        ++ finish_lines sending.now.rows sending.now.minute sending.now.intents row.now) }
{
    match row {
        None => Ok(()),
        Some(row) => {
            let action = finishing_action(sending, row);
            add_line(lines, &line_on(action, sending.minute(), row))
        }
    }
}

/// Appends the `CON` line of `row`, the row of a restated event in a zone, or nothing if `row` is
/// `None`. `t` is the minute of issue.
fn add_restate(lines: &mut List<Line>, t: Minute, row: &Option<Row>) -> Result<(), Oom>
    ensures { OnOk result (lines.new ≡ lines.old ++ restate_lines t row.now) }
{
    match row {
        None => Ok(()),
        Some(row) => add_line(lines, &line_on(Action::Con, t, row)),
    }
}

/// Returns the line of a routine intent in a zone: `ROU`, with both times as zeros and no flood
/// values.
fn routine_line(event: &Event, zone: &Zone) -> Line
    ensures { result ≡ routine_line event.now zone.now }
{
    Line {
        action: Action::Rou,
        event: *event,
        zone: *zone,
        begin: None,
        end: End::Ufn,
        flood: None,
    }
}

/// Returns the action, `NEW`, `EXA` or `EXB`, that a put has in each of its zones where its event
/// has no row, or one that a line has ended. For other intents it is `NEW`, which is not used.
fn opening_of(sending: &Sending, p: &Placed) -> Action
    ensures { result ≡ opening_of sending.now.rows sending.now.minute p.now.event p.now.intent }
{
    match p.intent {
        Intent::Put(part) => opening_action(sending.board(), sending.minute(), &p.event, part),
        Intent::Finish(_) | Intent::Restate(_) | Intent::Routine(_) => Action::New,
    }
}

/// Appends the line of an intent in `zone`, one of its zones, or nothing for a finish or a restate
/// whose event has no row there. `opening` must be the action that `opening_of` returns for the
/// intent.
fn add_lines_in(
    lines: &mut List<Line>,
    sending: &Sending,
    p: &Placed,
    zone: &Zone,
    opening: Action,
) -> Result<(), Oom>
    requires opening { opening
        ≡ opening_of sending.now.rows sending.now.minute p.now.event p.now.intent }
    requires finish { is_finish p.now.intent ≡ true → have_finish sending.now.intents ≡ true }
    ensures { OnOk result (lines.new ≡ lines.old
        ++ lines_in sending.now.rows sending.now.minute sending.now.intents p.now.event p.now.intent
        zone.now) }
{
    let board = sending.board();
    let t = sending.minute();
    match p.intent {
        Intent::Put(part) => add_line(lines, &line_of_put(board, t, &p.event, part, zone, opening)),
        Intent::Finish(_) => add_finish(lines, sending, &board.row(p.event, *zone)),
        Intent::Restate(_) => add_restate(lines, t, &board.row(p.event, *zone)),
        Intent::Routine(_) => add_line(lines, &routine_line(&p.event, zone)),
    }
}

/// Appends the lines of an intent in all its zones, in the order in which these were written.
fn add_lines_of(lines: &mut List<Line>, sending: &Sending, p: &Placed) -> Result<(), Oom>
    requires finish { is_finish p.now.intent ≡ true → have_finish sending.now.intents ≡ true }
    ensures { OnOk result (lines.new ≡ lines.old
        ++ lines_in_zones sending.now.rows sending.now.minute sending.now.intents p.now.event
        p.now.intent (zones_of p.now.intent)) }
{
    let opening = opening_of(sending, p);
    for zone in zones_of(p.intent) {
        add_lines_in(lines, sending, p, zone, opening)?;
    }
    Ok(())
}

/// Appends the lines of all intents of the draft, in the order of their places.
fn add_intent_lines(lines: &mut List<Line>, sending: &Sending) -> Result<(), Oom>
    ensures { OnOk result (lines.new ≡ lines.old
        ++ lines_from sending.now.rows sending.now.minute sending.now.intents sending.now.intents) }
{
    for p in sending.spoken().intents() {
        add_lines_of(lines, sending, p)?;
    }
    Ok(())
}

/// Whether products of the category follow up events of the hazard. False for a hazard that the
/// desk does not issue.
pub fn follows(category: Category, hazard: &Hazard) -> bool
    ensures { result ≡ follows category (facts_of hazard.now) }
{
    match facts(*hazard) {
        Some(facts) => facts.follows == category,
        None => false,
    }
}

/// Whether a live row gets a `CON` line that no intent asks for: products of the category follow up
/// its hazard, whose phenomenon is not FL, an intent has its zone, and no intent is on its event in
/// that zone.
fn goes_on(category: Category, spoken: &Spoken, row: &Row) -> bool
    ensures { result ≡ goes_on category spoken.now row.now }
{
    follows(category, &row.event.hazard)
        && !is_fl_phenomenon(&row.event.hazard)
        && spoken.touches(&row.zone)
        && !spoken.speaks(&row.event, &row.zone)
}

/// Whether a row gets a `CON` line that no intent asks for: it is live at `t`, the minute of issue,
/// products of the category follow up its hazard, whose phenomenon is not FL, an intent has its
/// zone, and no intent is on its event in that zone.
fn is_continued(category: Category, t: Minute, spoken: &Spoken, row: &Row) -> bool
    ensures { result ≡ is_continued category t spoken.now row.now }
{
    is_live(row, t) && goes_on(category, spoken, row)
}

/// Appends a `CON` line, in the order of `rows`, for each of them that goes on though no intent
/// asks for it: it is live at `t`, the minute of issue, products of the category follow up its
/// hazard, whose phenomenon is not FL, an intent has its zone, and no intent is on its event in
/// that zone.
fn add_going_on(
    lines: &mut List<Line>,
    category: Category,
    t: Minute,
    spoken: &Spoken,
    rows: &[Row],
) -> Result<(), Oom>
    ensures { OnOk result (lines.new ≡ lines.old
        ++ map (line_on Con t) (filter (is_continued category t spoken.now) rows.now)) }
{
    for row in rows {
        if is_continued(category, t, spoken, row) {
            add_line(lines, &line_on(Action::Con, t, row))?;
        }
    }
    Ok(())
}

/// Appends a `CON` line, in the order of events, for each row of `zone` that goes on though no
/// intent asks for it: it is live at the minute of issue, products of the category follow up its
/// hazard, whose phenomenon is not FL, and no intent is on its event in the zone. Appends nothing
/// if no intent has the zone.
fn add_in_zone(
    lines: &mut List<Line>,
    sending: &Sending,
    category: Category,
    zone: &Zone,
) -> Result<(), Oom>
    ensures lines { OnOk result (lines.new ≡ lines.old
        ++ map (line_on Con sending.now.minute)
        (filter (is_continued category sending.now.minute sending.now.intents)
        (slice_of zone.now sending.now.rows))) }
    ensures order { IsStrictlySortedBy by_key sending.now.rows }
{
    let t = sending.minute();
    let rows = sending.board().rows_in_zone_with_live(*zone, t);
    add_going_on(lines, category, t, sending.spoken(), rows)
}

/// Appends a `CON` line, in the order of `zones` and in a zone in that of events, for each row of
/// these zones that goes on though no intent asks for it: it is live at the minute of issue,
/// products of the category follow up its hazard, whose phenomenon is not FL, an intent has its
/// zone, and no intent is on its event in that zone.
fn add_in_zones(
    lines: &mut List<Line>,
    sending: &Sending,
    category: Category,
    zones: &[Zone],
) -> Result<(), Oom>
    ensures lines { OnOk result (lines.new ≡ lines.old
        ++ added_in category sending.now.rows sending.now.minute sending.now.intents zones.now) }
    ensures order { OnOk result
        (0 < length zones.now → IsStrictlySortedBy by_key sending.now.rows) }
{
    for zone in zones {
        add_in_zone(lines, sending, category, zone)?;
    }
    Ok(())
}

/// Appends a `CON` line, by zone and then by event, for each row of the board that goes on though
/// no intent asks for it: it is live at the minute of issue, products of the category follow up its
/// hazard, whose phenomenon is not FL, an intent has its zone, and no intent is on its event in
/// that zone.
fn add_continued(
    alloc: Global,
    lines: &mut List<Line>,
    sending: &Sending,
    category: Category,
) -> Result<(), Oom>
    ensures { OnOk result (lines.new ≡ lines.old
        ++ added_lines category sending.now.rows sending.now.minute sending.now.intents) }
{
    let zones = sending.spoken().zones(alloc)?;
    add_in_zones(lines, sending, category, zones.as_slice())
}

/// Returns the lines of a draft: those of the intents, in the order of the draft and for each in
/// the order in which its zones were written; then, by zone and then by event, a `CON` line for
/// each other live row in the draft's zones. Such a row has a hazard that products of the category
/// follow up and whose phenomenon is not FL, and no intent is on its event in its zone.
///
/// # Errors
///
/// Out of memory.
///
/// Source: docs/PRODUCTS.md, "A line that is added"; docs/DECISIONS.md, "Plans".
pub fn planned_lines(
    alloc: Global,
    sending: &Sending,
    category: Category,
) -> Result<List<Line>, Oom>
    ensures { IfOk result (λ lines.
        lines ≡ planned_lines category sending.now.rows sending.now.minute sending.now.intents) }
{
    let mut lines = List::new(alloc);
    add_intent_lines(&mut lines, sending)?;
    add_continued(alloc, &mut lines, sending, category)?;
    Ok(lines)
}
