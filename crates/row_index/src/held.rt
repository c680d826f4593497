//! The rows of each event by zone, with counts of their periods.
ghost use Rattle.std.specs.Prelude.{◌≡◌, ◌&&◌, [], flat_map, option_map, IfOk, OnOk};
ghost use Rattle.std.specs.List.{list_any};
ghost use Rattle.std.specs.List.Sorted.{IsStrictlySortedBy};
ghost use Rattle.std.specs.Map.{values_of};
ghost use Rattle.hazard_types.specs.Orders.{by_event};
ghost use Rattle.event_life.specs.Periods.{is_live, keeps_open, same_at};
ghost use Rattle.event_life.specs.Products.{by_key, life_of, row_at, has_rows};
ghost use Rattle.event_life.specs.Shown.{shown_at};
ghost use Rattle.row_index.specs.Holding.{puts};
ghost use Rattle.row_index.specs.Listing.{lists_of, list_at};
ghost use Rattle.row_index.specs.Numbers.{events_with};
ghost use Rattle.row_index.specs.Reaching.{AreReached, Grows};
ghost use Rattle.row_index.specs.Runs.{held_put, rows_along};
ghost use Rattle.row_index.specs.Standings.{AreEventRows, IsRunPut};
ghost use Rattle.row_index.specs.Steps.{add_each};
ghost use Rattle.row_index.specs.Zoning.{AreOf};

use crate::lives::row_with;
use crate::numbers::{Events, add_new_event};
use crate::parts::EventKey;
use crate::reach::{Reaches, reach_each};
use crate::seats::{Seated, add_seated};
use crate::shared::SharedRows;
use crate::standing::{Standings, has_same_among, is_open_among, replace_counted};
use event_life::Life;
use hazard_types::{Event, List, Minute, Oom, Period, Row, Zone};
use std::alloc::Global;
use std::collections::BTreeMap;
use std::marker::Model;

/// Sets a row of `event` with `life` in each of the zones, and corrects `standing`, the counts of
/// unended rows by period. All of `rows` must be of `event`, and `standing` must have their counts.
/// On `Oom` the counts may no longer be those of the rows.
fn insert_standing(
    alloc: Global,
    rows: &mut SharedRows,
    standing: &mut Standings,
    event: &Event,
    life: &Life,
    zones: &[Zone],
) -> Result<(), Oom>
    requires own { AreOf event.now (values_of rows.old) }
    requires rows { AreEventRows rows.old standing.old.entries }
    ensures { OnOk result
        (IsRunPut event.now life.now zones.now rows.old rows.new standing.new.entries) }
{
    let befores = rows.set(alloc, event, life, zones)?;
    replace_counted(standing, &befores, zones.len(), life)
}

/// The rows of one event by zone, and how many of its unended rows have each period.
#[derive(Drop)]
pub struct EventRows {
    rows: SharedRows,
    standing: Standings,
}

impl Model for EventRows {
    ghost use Rattle.std.specs.Prelude.{List};
    ghost use Rattle.std.specs.Map.{values_of};
    ghost use Rattle.hazard_types.specs.declared.line.Row.{Row};
    ghost use Rattle.row_index.specs.Standings.{AreEventRows};

    ghost Value = { List Row };

    ghost view = { λ x. values_of x.rows };

    ghost invariant = { λ x. AreEventRows x.rows x.standing.entries };
}

impl EventRows {
    /// Returns a value without rows and without counts.
    fn new(alloc: Global) -> Self
        ensures { result ≡ [] }
    {
        EventRows {
            rows: SharedRows::new(alloc),
            standing: BTreeMap::new(alloc),
        }
    }

    /// Returns a view of the rows.
    fn found(&self) -> RowsOf<'_>
        ensures rows { result ≡ self.now }
        ensures order { IsStrictlySortedBy by_key result }
    {
        let _ = &self.rows;
        RowsOf { rows: Some(self) }
    }

    /// Returns the life of the row of an event in a zone, or `None` if there is none. `near` is a
    /// guess of the zone's index among the zones in order, and may become the index after it; a
    /// wrong guess only costs time.
    fn life_at(&self, near: &mut usize, event: &Event, zone: &Zone) -> Option<&Life>
        ensures { option_map (λ life. life.now) result
            ≡ option_map life_of (row_at self.now event.now zone.now) }
    {
        self.rows.life_at(near, event, zone)
    }

    /// Whether a row is of `event`.
    fn has_rows(&self, event: &Event) -> bool
        ensures { result ≡ has_rows self.now event.now }
    {
        self.rows.is_of(event)
    }

    /// Returns all the rows by zone.
    fn all(&self, alloc: Global) -> Result<Vec<Row>, Oom>
        ensures { IfOk result (λ rows. rows.items ≡ self.now) }
    {
        self.rows.values(alloc)
    }

    /// Returns the rows that are live at `t` by zone: unended, and with an end after `t` or until
    /// further notice.
    fn shown(&self, alloc: Global, t: Minute) -> Result<List<Row>, Oom>
        ensures { IfOk result (λ rows. rows ≡ shown_at t self.now) }
    {
        event_life::shown(alloc, &self.all(alloc)?, t)
    }

    /// Sets a row of the event with `life` in each of the zones. All rows must be of `event`. On
    /// `Oom` all rows are dropped.
    fn put(&mut self, alloc: Global, event: &Event, life: &Life, zones: &[Zone]) -> Result<(), Oom>
        requires { AreOf event.now self.old }
        ensures { OnOk result
            (self.new ≡ add_each (rows_along event.now life.now zones.now) self.old) }
    {
        match insert_standing(
            alloc,
            &mut self.rows,
            &mut self.standing,
            event,
            life,
            zones,
        ) {
            Ok(()) => Ok(()),
            Err(oom) => {
                self.rows.clear();
                self.standing.clear();
                Err(oom)
            }
        }
    }

    /// Returns the number of rows, which is a hint alone: no contract promises that it is right.
    fn count(&self) -> usize {
        self.rows.count()
    }

    /// Whether an unended row has an end that is at most half an hour before `t`, or later, or
    /// until further notice.
    fn is_open(&self, t: Minute) -> bool
        ensures open { result ≡ list_any (keeps_open t) self.now }
        ensures order { IsStrictlySortedBy by_key self.now }
    {
        is_open_among(&self.standing, t)
    }

    /// Whether a row that is live at `t` (unended, with an end after `t` or until further notice)
    /// has this period. Two begins at `t` or before count as equal.
    fn has_period(&self, t: Minute, period: &Period) -> bool
        ensures same { result
            ≡ list_any (λ r. is_live t r && same_at t r.period period.now) self.now }
        ensures order { IsStrictlySortedBy by_key self.now }
    {
        has_same_among(&self.standing, t, period)
    }
}

/// A view of the rows of one event, which may have none.
#[derive(Drop)]
pub struct RowsOf<'a> {
    rows: Option<&'a EventRows>,
}

impl<'a> Model for RowsOf<'a> {
    ghost use Rattle.std.specs.Prelude.{List, [], option_map, unwrap_or};
    ghost use Rattle.hazard_types.specs.declared.line.Row.{Row};

    ghost Value = { List Row };

    ghost view = { λ x. unwrap_or (option_map (λ rows. rows.now) x.rows) [] };
}

impl<'a> RowsOf<'a> {
    /// Returns a view without rows.
    pub fn none() -> Self
        ensures { result ≡ [] }
    {
        RowsOf { rows: None }
    }

    /// Returns the life of the row of an event in a zone, or `None` if there is none. `near` is a
    /// guess of the zone's index among the zones in order, and may become the index after it; a
    /// wrong guess only costs time.
    pub fn life_at(&self, near: &mut usize, event: &Event, zone: &Zone) -> Option<&Life>
        ensures { option_map (λ life. life.now) result
            ≡ option_map life_of (row_at self.now event.now zone.now) }
    {
        match self.rows {
            Some(rows) => rows.life_at(near, event, zone),
            None => None,
        }
    }

    /// Returns all the rows by zone.
    ///
    /// # Errors
    ///
    /// Out of memory.
    pub fn all(&self, alloc: Global) -> Result<Vec<Row>, Oom>
        ensures { IfOk result (λ rows. rows.items ≡ self.now) }
    {
        match self.rows {
            Some(rows) => rows.all(alloc),
            None => Ok(Vec::new(alloc)),
        }
    }

    /// Returns the number of rows, which is a hint alone: no contract promises that it is right.
    pub fn count(&self) -> usize {
        match self.rows {
            Some(rows) => rows.count(),
            None => 0,
        }
    }

    /// Returns the row of an event in a zone, or `None` if there is none. `near` is a guess of the
    /// zone's index among the zones in order, and may become the index after it; a wrong guess only
    /// costs time.
    pub fn row_at(&self, near: &mut usize, event: &Event, zone: &Zone) -> Option<Row>
        ensures { result ≡ row_at self.now event.now zone.now }
    {
        match self.life_at(near, event, zone) {
            Some(life) => Some(row_with(event, zone, life)),
            None => None,
        }
    }

    /// Whether a row is of `event`.
    pub fn has_rows(&self, event: &Event) -> bool
        ensures { result ≡ has_rows self.now event.now }
    {
        match self.rows {
            Some(rows) => rows.has_rows(event),
            None => false,
        }
    }
}

/// The rows of all events, by event.
pub type Held = BTreeMap<EventKey, EventRows>;

/// Returns a view of the rows of an event, ended or not, which may be none.
pub fn rows_of<'a>(held: &'a Held, event: &Event) -> RowsOf<'a>
    ensures rows { result ≡ list_at by_event held.now.entries event.now }
    ensures order { IsStrictlySortedBy by_key result }
{
    match held.get(&EventKey { event: *event }) {
        Some(rows) => rows.found(),
        None => RowsOf::none(),
    }
}

/// Whether an event is open at `t`: an unended row of it has an end that is at most half an hour
/// before `t`, or later, or until further notice.
pub fn is_open(held: &Held, t: Minute, event: &Event) -> bool
    ensures open { result ≡ list_any (keeps_open t) (list_at by_event held.now.entries event.now) }
    ensures order { IsStrictlySortedBy by_key (list_at by_event held.now.entries event.now) }
{
    match held.get(&EventKey { event: *event }) {
        Some(rows) => rows.is_open(t),
        None => false,
    }
}

/// Whether a row of an event that is live at `t` (unended, with an end after `t` or until further
/// notice) has this period. Two begins at `t` or before count as equal.
pub fn has_period(held: &Held, t: Minute, event: &Event, period: &Period) -> bool
    ensures same { result ≡ list_any (λ r. is_live t r && same_at t r.period period.now)
        (list_at by_event held.now.entries event.now) }
    ensures order { IsStrictlySortedBy by_key (list_at by_event held.now.entries event.now) }
{
    match held.get(&EventKey { event: *event }) {
        Some(rows) => rows.has_period(t, period),
        None => false,
    }
}

/// Sets a row of an event with `life` in each of the zones. Adds the event to `events` if it had no
/// rows, and, if the life is unended and the event's hazard has a rank, adds to `reaches` that the
/// event reaches to the end of the life in the areas of the zones (an area is the zones of a state
/// whose numbers have the same quotient by 16). On `Oom` the three may no longer agree.
///
/// # Errors
///
/// Out of memory.
pub fn add_held(
    alloc: Global,
    held: &mut Held,
    events: &mut Events,
    reaches: &mut Reaches,
    event: &Event,
    life: &Life,
    zones: &[Zone],
) -> Result<(), Oom>
    requires { AreOf event.now (list_at by_event held.old.entries event.now) }
    ensures held { OnOk result (held.new.entries
        ≡ held_put event.now (rows_along event.now life.now zones.now) held.old.entries) }
    ensures events { OnOk result (lists_of events.new.entries
        ≡ events_with (has_rows (list_at by_event held.old.entries event.now) event.now) event.now
        (lists_of events.old.entries)) }
    ensures reached { OnOk result
        (AreReached reaches.new.keys (rows_along event.now life.now zones.now)) }
    ensures grows { OnOk result (Grows reaches.old.keys reaches.new.keys) }
{
    let known = held
        .entry(EventKey { event: *event })?
        .or_insert(EventRows::new(alloc));
    add_new_event(alloc, events, known.has_rows(event), event)?;
    known.put(alloc, event, life, zones)?;
    reach_each(reaches, event, life, zones)
}

/// Returns the rows of all events that are live at `t` (unended, with an end after `t` or until
/// further notice), by event, then zone.
///
/// # Errors
///
/// Out of memory.
pub fn all_shown(alloc: Global, held: &Held, t: Minute) -> Result<Vec<Row>, Oom>
    ensures { IfOk result
        (λ rows. rows.items ≡ flat_map (shown_at t) (values_of held.now.entries)) }
{
    let mut all = Vec::new(alloc);
    for rows in held.values() {
        all.extend_from_slice(rows.shown(alloc, t)?.as_slice())?;
    }
    Ok(all)
}

/// Returns the rows in a map by zone, then event. Of several rows of one zone and event the first
/// is kept.
///
/// # Errors
///
/// Out of memory.
pub fn seated(alloc: Global, rows: &[Row]) -> Result<Seated, Oom>
    ensures { IfOk result (λ seated. values_of seated.entries ≡ puts rows.now []) }
{
    let mut seated = BTreeMap::new(alloc);
    let mut before = None;
    for place in (0..rows.len()).rev() {
        add_seated(&mut seated, &rows[place], &mut before)?;
    }
    Ok(seated)
}
