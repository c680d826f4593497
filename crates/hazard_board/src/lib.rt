//! The board of an office: the rows of all events that were opened, by zone, then event. For crates
//! that plan products, as `action_planner` does, and that apply them: begin with `Board::new`,
//! `Board::reserve` and `Board::apply`, then read with `Board::shown` and `Board::going`. A row is
//! unended while no line has ended it.
#![tactic(auto)]

ghost use Rattle.std.specs.Prelude.{◌≡◌, ◌+◌, ◌≤◌, ◌<◌, [], find, IfOk, OnOk, OnErr, IsTrue, true};
ghost use Rattle.std.specs.List.Sorted.{IsStrictlySortedBy};
ghost use Rattle.hazard_types.specs.Same.{same_event};
ghost use Rattle.event_life.specs.Products.{by_key, row_at, has_rows, latest_open_event, rows_after};
ghost use Rattle.event_life.specs.Shown.{shown_at};
ghost use Rattle.event_life.specs.Reordered.{are_lawful};
ghost use Rattle.hazard_board.specs.Board.{has_period, slice_of, live_in, by_row_event, openings};
ghost use Rattle.hazard_board.specs.Clashes.{by_clash, clashes_after, least_after};
ghost use Rattle.hazard_board.specs.Consistent.{collide, EachToLater};
ghost use Rattle.hazard_board.specs.Standing.{AreStandingOf};

mod board_rows;
mod by_zone;
mod conflicts;
mod laws;
mod lines;
mod open_events;
mod periods;
mod searches;
mod shelves;
mod spots;
mod standing;

use board_rows::BoardRows;
pub use conflicts::FoundClash;
use conflicts::{clash_anywhere, clash_in_zones};
use hazard_types::{Event, Hazard, Line, List, Minute, Oom, Period, Row, Zone};
pub use laws::{
    consistent_rows_have_one_open_event, consistent_rows_stay_consistent, lawful_lines_are_taken,
    lines_on_held_numbers_are_taken, no_event_comes_ahead_of_its_year, no_rows_are_consistent,
    products_keep_rows_consistent, read_rows_are_consistent,
};
use lines::apply_lines_to_rows;
pub use lines::openings;
use open_events::{of_hazard, open_event};
use periods::{PeriodCount, has_period};
use shelves::live;
use spots::{Spot, first_row};
pub use standing::Standing;
use standing::set_latest_ends;
use std::alloc::Global;
use std::marker::Model;

/// The rows of all events that were opened, in order by zone, then event, with one row for each
/// pair. `reserve` takes the memory that `apply` needs, so `apply` cannot fail.
#[derive(Drop)]
pub struct Board {
    rows: BoardRows,
    standing: Vec<Standing>,
    // The event and zone of each row, ended ones among them, by event.
    spots: Vec<Spot>,
    // The periods of the unended rows by event, each with the count of these rows.
    periods: Vec<PeriodCount>,
}

impl Model for Board {
    ghost use Rattle.std.specs.Prelude.{◌≡◌, ◌≤◌, ◌-◌, min};
    ghost use Rattle.std.specs.List.Sorted.{IsStrictlySortedBy};
    ghost use Rattle.std.specs.Vec.{vec_len, vec_capacity};
    ghost use Rattle.event_life.specs.Products.{by_key};
    ghost use Rattle.hazard_board.specs.Board.{Posted};
    ghost use Rattle.hazard_board.specs.Periods.{AreCounted};
    ghost use Rattle.hazard_board.specs.Spots.{AreSpots};
    ghost use Rattle.hazard_board.specs.Standing.{AreStanding};

    ghost Value = { Posted };

    ghost view = { λ b. record { rows = b.rows.rows; spare = min b.rows.spare (min (vec_capacity b.standing - vec_len b.standing) (min (vec_capacity b.spots - vec_len b.spots) (vec_capacity b.periods - vec_len b.spots))) } };

    ghost invariant = { λ b.
        IsStrictlySortedBy by_key b.rows.rows
        × AreStanding b.rows.rows b.standing.items
        × AreSpots b.rows.rows b.spots.items
        × AreCounted b.rows.rows b.periods.items
        × (vec_len b.spots ≤ vec_capacity b.periods) };
}

impl Board {
    /// Returns an empty board without capacity.
    pub fn new(alloc: Global) -> Self
        ensures { result.rows ≡ [] }
    {
        Board {
            rows: BoardRows::new(alloc),
            standing: Vec::new(alloc),
            spots: Vec::new(alloc),
            periods: Vec::new(alloc),
        }
    }

    /// Takes memory for at least `n` more rows.
    ///
    /// # Errors
    ///
    /// Out of memory; no row changes.
    pub fn reserve(&mut self, n: usize) -> Result<(), Oom>
        ensures rows { self.new.rows ≡ self.old.rows }
        ensures spare { self.old.spare ≤ self.new.spare }
        ensures ok { OnOk result (n ≤ self.new.spare) }
        ensures err { OnErr result (self.old.spare < n) }
    {
        self.rows.reserve(n)?;
        self.standing.reserve(n)?;
        self.spots.reserve(n)?;
        let fewer = self.spots.len() - self.periods.len();
        self.periods.reserve(fewer + n)?;
        Ok(())
    }

    /// Returns the row of an event in a zone, ended or not, or `None` if there is none.
    pub fn row(&self, e: Event, z: Zone) -> Option<Row>
        ensures value { result ≡ row_at self.now.rows e z }
        ensures order { IsStrictlySortedBy by_key self.now.rows }
    {
        self.rows.row_at(&e, &z)
    }

    /// Returns all rows of a zone, ended ones among them, by event.
    pub fn slice_of(&self, z: Zone) -> &[Row]
        ensures rows { result.now ≡ slice_of z self.now.rows }
        ensures order { IsStrictlySortedBy by_row_event result.now }
        ensures all_in_order { IsStrictlySortedBy by_key self.now.rows }
    {
        self.rows.slice_of(&z)
    }

    /// Returns rows of a zone, by event, among which are all that are live at `t`. A row is live at
    /// `t` if it is unended and its end is after `t`. They may be far fewer than those of
    /// `slice_of`, since most ended rows are left out.
    pub fn rows_in_zone_with_live(&self, z: Zone, t: Minute) -> &[Row]
        ensures rows { shown_at t result.now ≡ live_in z t self.now.rows }
        ensures order { IsStrictlySortedBy by_row_event result.now }
        ensures all_in_order { IsStrictlySortedBy by_key self.now.rows }
    {
        self.rows.rows_in_zone_with_live(&z, t)
    }

    /// Whether the event has a row, ended or not.
    pub fn has(&self, e: Event) -> bool
        ensures { result ≡ has_rows self.now.rows e }
    {
        first_row(&self.rows, &self.spots, &e).is_some()
    }

    /// Returns the first row of an event, by zone, ended or not, or `None` if there is none.
    pub fn first(&self, e: Event) -> Option<Row>
        ensures { result ≡ find (λ r. same_event r.event e) self.now.rows }
    {
        first_row(&self.rows, &self.spots, &e)
    }

    /// Returns the event with hazard `h` and number `etn` that is open at `t`, or `None` if there
    /// is none. If there are several it is the one of the greatest year. An event is open if it has
    /// an unended row whose end is not more than half an hour before `t`.
    pub fn going(&self, h: Hazard, etn: u16, t: Minute) -> Option<Event>
        ensures { result ≡ latest_open_event self.now.rows h etn t }
    {
        open_event(&self.standing, &h, etn, t)
    }

    /// Returns the events of a hazard that have an unended row, by number, then year, each with the
    /// latest end of these rows.
    pub fn standing(&self, h: Hazard) -> &[Standing]
        ensures { AreStandingOf h self.now.rows result.now }
    {
        of_hazard(&self.standing, &h)
    }

    /// Whether the event has a row that is live at `t` (unended, with an end after `t`) and has
    /// this period. Two begins that are both at `t` or before count as equal.
    pub fn same_period(&self, e: Event, p: Period, t: Minute) -> bool
        ensures { result ≡ has_period self.now.rows e p t }
    {
        has_period(&self.periods, t, &e, &p)
    }

    /// Returns the rows of a zone that are live at `t` (unended, with an end after `t`), by event.
    ///
    /// # Errors
    ///
    /// Out of memory.
    pub fn rows_of(&self, alloc: Global, z: Zone, t: Minute) -> Result<List<Row>, Oom>
        ensures rows { IfOk result (λ live. live ≡ live_in z t self.now.rows) }
        ensures order { IfOk result (λ live. IsStrictlySortedBy by_row_event live) }
    {
        Ok(List::from_vec(live(alloc, self.rows.rows_in_zone_with_live(&z, t), t)?))
    }

    /// Returns all rows that are live at `t` (unended, with an end after `t`), by zone, then event.
    ///
    /// # Errors
    ///
    /// Out of memory.
    pub fn shown(&self, alloc: Global, t: Minute) -> Result<List<Row>, Oom>
        ensures rows { IfOk result (λ live. live ≡ shown_at t self.now.rows) }
        ensures order { IsStrictlySortedBy by_key self.now.rows }
    {
        Ok(List::from_vec(self.rows.shown(alloc, t)?))
    }

    /// Applies the lawful lines of a product with the issue minute `t`. Memory for
    /// `openings(lines)` more rows must be reserved. A ROU line changes no row.
    pub fn apply(&mut self, lines: &List<Line>, t: Minute)
        requires lawful { IsTrue (are_lawful self.old.rows t lines.now) }
        requires spare { openings lines.now ≤ self.old.spare }
        ensures rows { self.new.rows ≡ rows_after self.old.rows t lines.now }
        ensures spare { self.old.spare ≤ self.new.spare + openings lines.now }
    {
        let lines = lines.as_slice();
        apply_lines_to_rows(&mut self.rows, &mut self.spots, &mut self.periods, lines, t);
        set_latest_ends(&mut self.standing, &self.periods, lines);
        self.rows.pass(t);
    }

    /// Returns the first clash, by zone, then by the pair of events, among the rows that are left
    /// once `lines` are applied, or `Ok(None)` if there is none. A clash is two rows of one zone
    /// that are live at `t`, the issue minute, and are of different events of one hazard family
    /// with periods that overlap. Each line is applied to the row that its event had in its zone
    /// before all lines, whatever other rows there are; one that this row does not allow changes
    /// nothing.
    ///
    /// # Errors
    ///
    /// Out of memory.
    ///
    /// Source: docs/DECISIONS.md, "Lives".
    pub fn conflict(&self, alloc: Global, lines: &List<Line>, t: Minute) -> FoundClash
        ensures value { IfOk result (λ found. found ≡ least_after self.now.rows t lines.now) }
        ensures order { IsStrictlySortedBy by_clash (clashes_after self.now.rows t lines.now) }
        ensures all_in_order { IsStrictlySortedBy by_key self.now.rows }
    {
        clash_anywhere(alloc, &self.rows, lines.as_slice(), t)
    }

    /// Returns the first clash, by zone, then by the pair of events, among the rows that are left
    /// once `lines` are applied, or `Ok(None)` if there is none. A clash is two rows of one zone
    /// that are live at `t`, the issue minute, and are of different events of one hazard family
    /// with periods that overlap. It reads the zones of `lines` only, so no two unended rows of the
    /// board that are of one zone and family may have periods that overlap before the lines.
    ///
    /// # Errors
    ///
    /// Out of memory.
    pub fn conflict_in_zones(&self, alloc: Global, lines: &List<Line>, t: Minute) -> FoundClash
        requires apart { EachToLater (λ a b. collide a b ≡ true → ⊥) self.now.rows }
        ensures value { IfOk result (λ found. found ≡ least_after self.now.rows t lines.now) }
        ensures order { IsStrictlySortedBy by_clash (clashes_after self.now.rows t lines.now) }
        ensures all_in_order { IsStrictlySortedBy by_key self.now.rows }
    {
        clash_in_zones(alloc, &self.rows, lines.as_slice(), t)
    }
}
