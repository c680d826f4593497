//! A draft at its minute of issue over a board, and the search for a row of a higher rank.
ghost use Rattle.std.specs.Prelude.{◌≡◌, ◌&&◌, ◌||◌, [], true, map, IfOk, OnOk};
ghost use Rattle.std.specs.List.{list_any};
ghost use Rattle.event_life.specs.Higher.{outranks};
ghost use Rattle.action_planner.specs.Lines.{is_left, row_after_put, rows_by_intent, rows_by_puts, overlays, is_overlaid};
ghost use Rattle.action_planner.specs.Sending.{Sending as Sent, rows_in, add_row, add_rows, add_by_puts, have_finish, is_finish};

use crate::placed::Placed;
use crate::puts::row_after_put;
use crate::spoken::Spoken;
use event_life::{is_live, overlaps};
use hazard_board::Board;
use hazard_types::desk_hazards::facts;
use hazard_types::{Event, Hazard, List, Minute, Oom, Row, Zone};
use office_types::{Intent, PutPart};
use std::alloc::Global;
use std::collections::BTreeMap;
use std::marker::Model;

/// Rows by their zone.
type Zones = BTreeMap<Zone, List<Row>>;

/// A draft that is sent at a minute over a board. Its model is the rows of the board, the minute
/// and the intents.
#[derive(Drop)]
pub struct Sending<'a> {
    board: &'a Board,
    minute: Minute,
    spoken: &'a Spoken<'a>,
    // The rows that the puts leave, if one of the intents is a finish; no other intent needs them.
    put: Zones,
}

impl<'a> Model for Sending<'a> {
    ghost use Rattle.std.specs.Prelude.{◌≡◌, [], true};
    ghost use Rattle.action_planner.specs.Lines.{rows_by_puts};
    ghost use Rattle.action_planner.specs.Sending.{Sending as Sent, add_rows, have_finish};

    ghost Value = { Sent };

    ghost view = { λ s.
        record { rows = s.board.now.rows; minute = s.minute; intents = s.spoken.now } };

    ghost invariant = { λ s.
        have_finish s.spoken.now ≡ true
        → s.put.entries ≡ add_rows [] (rows_by_puts s.board.now.rows s.minute s.spoken.now) };
}

/// Whether the hazard `high` is of the same family as `low` and of a higher rank in it. False if
/// the desk does not issue one of them, or one has no family.
///
/// Source: docs/HAZARDS.md.
fn outranks(high: &Hazard, low: &Hazard) -> bool
    ensures { result ≡ outranks high.now low.now }
{
    let (Some(above), Some(below)) = (facts(*high), facts(*low)) else {
        return false;
    };
    let (Some((family, rank)), Some((other, least))) = (&above.family, &below.family) else {
        return false;
    };
    *family == *other && *least < *rank
}

/// Whether `other` is a row in the same zone as `row` that is live at `t`, has a hazard of a higher
/// rank in the same family, and has a period that overlaps that of `row`.
fn overlays(t: Minute, row: &Row, other: &Row) -> bool
    ensures { result ≡ overlays t row.now other.now }
{
    other.zone == row.zone
        && is_live(other, t)
        && outranks(&other.event.hazard, &row.event.hazard)
        && overlaps(&other.period, &row.period)
}

/// Whether one of `others` is in the same zone as `row`, live at `t`, of a higher rank in the same
/// family, and overlaps it, as `overlays` tests.
fn any_overlays(t: Minute, row: &Row, others: &[Row]) -> bool
    ensures { result ≡ list_any (overlays t row.now) others.now }
{
    others.iter().any(|other| overlays(t, row, other))
}

/// Whether a row after the draft overlays `row` at `t`, as `overlays` tests. It may be one of
/// `put`, the rows that the draft's puts leave, or one of `stand`, rows before the draft, if no put
/// and no finish is on its event in its zone.
fn is_overlaid_by(t: Minute, row: &Row, stand: &[Row], put: &[Row], spoken: &Spoken) -> bool
    ensures { result
        ≡ (list_any (λ other. overlays t row.now other && is_left spoken.now other) stand.now
        || list_any (overlays t row.now) put.now) }
{
    any_left_overlays(t, row, stand, spoken) || any_overlays(t, row, put)
}

/// Returns the rows of a zone in `zones`, empty if there are none.
fn rows_in<'a>(zones: &'a Zones, zone: &Zone) -> &'a [Row]
    ensures { result.now ≡ rows_in zones.now.entries zone.now }
{
    match zones.get(zone) {
        Some(rows) => rows.as_slice(),
        None => &[],
    }
}

/// Appends a row to those of its zone in `zones`.
fn add_row(alloc: Global, zones: &mut Zones, row: &Row) -> Result<(), Oom>
    ensures { OnOk result (zones.new.entries ≡ add_row zones.old.entries row.now) }
{
    let rows = zones.entry(row.zone)?.or_insert(List::new(alloc));
    rows.extend(&[*row])
}

/// Whether the draft has no put and no finish on the row's event in the row's zone, so that the row
/// stays as it is.
fn is_left(spoken: &Spoken, row: &Row) -> bool
    ensures { result ≡ is_left spoken.now row.now }
{
    !spoken.is_taken(&row.event, &row.zone)
}

/// Whether one of `others`, rows before the draft, overlays `row` at `t`, as `overlays` tests, and
/// is left as it is: no put and no finish of the draft is on its event in its zone.
fn any_left_overlays(t: Minute, row: &Row, others: &[Row], spoken: &Spoken) -> bool
    ensures { result
        ≡ list_any (λ other. overlays t row.now other && is_left spoken.now other) others.now }
{
    others
        .iter()
        .any(|other| overlays(t, row, other) && is_left(spoken, other))
}

/// Appends to `zones`, in the order in which the put's zones were written, the row that a put of
/// `event` leaves in each of them. `board` has the rows before it, and `t` is the minute of issue.
fn add_put(
    alloc: Global,
    zones: &mut Zones,
    board: &Board,
    t: Minute,
    event: &Event,
    part: &PutPart,
) -> Result<(), Oom>
    ensures { OnOk result (zones.new.entries ≡ add_rows zones.old.entries
        (map (row_after_put board.now.rows t event.now part.now) part.now.zones)) }
{
    for zone in part.zones.as_slice() {
        add_row(alloc, zones, &row_after_put(board, t, event, part, zone))?;
    }
    Ok(())
}

/// Appends to `zones` the rows that the intent `p` leaves, one in each of its zones for a put and
/// none for another intent. `board` has the rows before it, and `t` is the minute of issue.
fn add_rows_by(
    alloc: Global,
    zones: &mut Zones,
    board: &Board,
    t: Minute,
    p: &Placed,
) -> Result<(), Oom>
    ensures { OnOk result (zones.new.entries
        ≡ add_rows zones.old.entries (rows_by_intent board.now.rows t p.now p.now.intent)) }
{
    match p.intent {
        Intent::Put(part) => add_put(alloc, zones, board, t, &p.event, part),
        Intent::Finish(_) | Intent::Restate(_) | Intent::Routine(_) => Ok(()),
    }
}

/// Appends to `zones` the rows that the puts among the intents `ps` leave, in the order of `ps`.
/// `board` has the rows before them, and `t` is the minute of issue.
fn add_by_puts(
    alloc: Global,
    zones: &mut Zones,
    board: &Board,
    t: Minute,
    ps: &[Placed],
) -> Result<(), Oom>
    ensures { OnOk result
        (zones.new.entries ≡ add_by_puts zones.old.entries board.now.rows t ps.now) }
{
    for p in ps {
        add_rows_by(alloc, zones, board, t, p)?;
    }
    Ok(())
}

/// Returns the rows that the puts of a draft leave, by zone, and for one zone in the order of the
/// intents. `board` has the rows before the draft, and `t` is the minute of issue.
#[tactic(auto, using(crate::proofs::SendingLemmas::all_put))]
fn rows_after_puts(alloc: Global, board: &Board, t: Minute, spoken: &Spoken) -> Result<Zones, Oom>
    ensures { IfOk result
        (λ zones. zones.entries ≡ add_rows [] (rows_by_puts board.now.rows t spoken.now)) }
{
    let mut zones = BTreeMap::new(alloc);
    add_by_puts(alloc, &mut zones, board, t, spoken.intents())?;
    Ok(zones)
}

/// Whether an intent is a finish, which ends an event in zones.
fn is_finish(intent: &Intent) -> bool
    ensures { result ≡ is_finish intent.now }
{
    match intent {
        Intent::Finish(_) => true,
        Intent::Put(_) | Intent::Restate(_) | Intent::Routine(_) => false,
    }
}

/// Whether one of the intents is a finish, which ends an event in zones.
fn have_finish(ps: &[Placed]) -> bool
    ensures { result ≡ have_finish ps.now }
{
    ps.iter().any(|p| is_finish(p.intent))
}

/// Returns the rows that the puts of a draft leave, by zone, if one of its intents is a finish;
/// else an empty map. `board` has the rows before the draft, and `t` is the minute of issue.
fn rows_after_puts_for_finish(
    alloc: Global,
    board: &Board,
    t: Minute,
    spoken: &Spoken,
) -> Result<Zones, Oom>
    ensures { IfOk result (λ zones. have_finish spoken.now ≡ true
        → zones.entries ≡ add_rows [] (rows_by_puts board.now.rows t spoken.now)) }
{
    if have_finish(spoken.intents()) {
        rows_after_puts(alloc, board, t, spoken)
    } else {
        Ok(BTreeMap::new(alloc))
    }
}

impl<'a> Sending<'a> {
    /// Returns the intents `spoken` as a draft that is sent at `minute`, the minute of issue, over
    /// `board`, which has the rows before it.
    ///
    /// # Errors
    ///
    /// Out of memory.
    pub fn new(
        alloc: Global,
        board: &'a Board,
        minute: Minute,
        spoken: &'a Spoken<'a>,
    ) -> Result<Self, Oom>
        ensures { IfOk result (λ sending.
            sending ≡ record { rows = board.now.rows; minute = minute; intents = spoken.now }) }
    {
        let put = rows_after_puts_for_finish(alloc, board, minute, spoken)?;
        Ok(Sending {
            board,
            minute,
            spoken,
            put,
        })
    }

    /// Returns the board before the product.
    pub fn board(&self) -> &'a Board
        ensures { result.now.rows ≡ self.now.rows }
    {
        self.board
    }

    /// Returns the minute of issue of the product.
    pub fn minute(&self) -> Minute
        ensures { result ≡ self.now.minute }
    {
        self.minute
    }

    /// Returns the intents of the draft, with look-ups over them.
    pub fn spoken(&self) -> &'a Spoken<'a>
        ensures { result.now ≡ self.now.intents }
    {
        self.spoken
    }

    /// Whether another row of this row's zone and family, of a higher rank, is live after the draft
    /// and overlaps it. One of the draft's intents must be a finish.
    pub fn is_overlaid(&self, row: &Row) -> bool
        requires { have_finish self.now.intents ≡ true }
        ensures { result ≡ is_overlaid self.now.rows self.now.minute self.now.intents row.now }
    {
        let stand = self.board.rows_in_zone_with_live(row.zone, self.minute);
        let put = rows_in(&self.put, &row.zone);
        is_overlaid_by(self.minute, row, stand, put, self.spoken)
    }
}
