//! The index of rows: the event of a line, its first breach, and the live rows.
ghost use Rattle.std.specs.Prelude.{◌≡◌, ◌&&◌, not, true, false, nat_lt, [], List as Seq, Some, None, Option, if◌then◌else◌, is_none, unwrap_or, IfOk, OnOk};
ghost use Rattle.std.specs.List.{list_any};
ghost use Rattle.hazard_types.specs.Hazards.{facts_of};
ghost use Rattle.hazard_types.specs.declared.line.Line.{Line as LineValue};
ghost use Rattle.hazard_types.specs.declared.line.Row.{Row as RowValue};
ghost use Rattle.std.specs.Map.{values_of};
ghost use Rattle.event_life.specs.declared.life.Breach.TheVariants.{Twice};
ghost use Rattle.event_life.specs.Higher.{family_of};
ghost use Rattle.event_life.specs.Products.{put, row_at, row_after, is_open, latest_open_event, event_of, has_rows, is_number_held, has_opened_period, is_routine, is_upgrade, is_second, life_at, around_but_higher, has_higher, breach_in, judged, rows_after_all_but_upgrades};
ghost use Rattle.event_life.specs.Seats.{may_be_higher};
ghost use Rattle.event_life.specs.Shown.{shown_at};
ghost use Rattle.event_life.specs.Table.{breach_of_line};
ghost use Rattle.row_index.specs.Holding.{AreNear, AreRowsOf};
ghost use Rattle.row_index.specs.Gathering.{AreGathered, least_of};
ghost use Rattle.row_index.specs.Seating.{AreSeated, upgrades};
ghost use Rattle.row_index.specs.Steps.{AreHigher, AreOver, IsAsked, IsChanged, around_new, around_joining, asked_around, latest_open, event_going};
ghost use Rattle.row_index.specs.Verdicts.{counts, AreFirst};

use crate::held::{Held, RowsOf, all_shown, has_period, is_open, rows_of, seated};
use crate::higher::{Changed, any_upgrades, is_overlapped, upgraded_by};
use crate::live::{Zones, add_rows, lesser, needed, upgraded_ranks, upgraded_zones};
use crate::look::{asks_alike, life_of, nothing_around, opens};
use crate::numbers::{Events, Number, events_at, number_of};
use crate::reach::{Reaches, events_above};
use crate::seats::{Seated, add_seated_if, all_rows};
use crate::spoken::SeenKeys;
use event_life::{
    Around, Breach, Life, is_routine, is_upgrade, later_event, leaves_row, life_step, opened_period,
};
use hazard_types::{Action, Event, Line, List, Minute, Oom, Row, Vtec, Zone};
use std::alloc::Global;
use std::collections::{BTreeMap, BTreeSet};
use std::marker::Model;

/// The rows of one office and class, in order by zone, then event, with one row for each pair. They
/// are kept by event, with the events of each hazard and number, and the ends up to which the rows
/// of an event reach.
#[derive(Drop)]
pub struct RowIndex {
    pub(crate) held: Held,
    pub(crate) events: Events,
    pub(crate) reach: Reaches,
}

impl Model for RowIndex {
    ghost use Rattle.std.specs.Prelude.{List};
    ghost use Rattle.hazard_types.specs.declared.line.Row.{Row};
    ghost use Rattle.row_index.specs.Holding.{told};
    ghost use Rattle.row_index.specs.Listing.{lists_of};
    ghost use Rattle.row_index.specs.Indexing.{IsIndex};

    ghost Value = { List Row };

    ghost view = { λ x. told x.held.entries };

    ghost invariant = { λ x. IsIndex x.held.entries (lists_of x.events.entries) x.reach.keys };
}

impl RowIndex {
    /// Returns an index without rows.
    pub fn new(alloc: Global) -> Self
        ensures { result ≡ [] }
    {
        RowIndex {
            held: BTreeMap::new(alloc),
            events: BTreeMap::new(alloc),
            reach: BTreeSet::new(alloc),
        }
    }

    /// Returns the rows of an event, ended or not; a view without rows if it has none.
    pub(crate) fn rows_of(&self, event: &Event) -> RowsOf<'_>
        ensures { AreRowsOf self.now event.now result }
    {
        rows_of(&self.held, event)
    }

    /// Returns the rows of `event`. `near` is the event of the look-up before this one, or `None`
    /// if there was none, and `rows` are the rows of that event, which are returned again if it is
    /// the same.
    pub(crate) fn rows_near<'a>(
        &'a self,
        near: &Option<Event>,
        rows: RowsOf<'a>,
        event: &Event,
    ) -> RowsOf<'a>
        requires { AreNear self.now near.now rows }
        ensures { AreRowsOf self.now event.now result }
    {
        match near {
            Some(before) => {
                if *before == *event {
                    rows
                } else {
                    self.rows_of(event)
                }
            }
            None => self.rows_of(event),
        }
    }

    /// Returns the row of a line's event in its zone, or `None` if there is none. `rows` are the
    /// event's. `near` is a guess of the row's index among them, which the call may change; a wrong
    /// guess only costs time.
    fn own_row(&self, rows: &RowsOf<'_>, near: &mut usize, line: &Line) -> Option<Row>
        requires { AreRowsOf self.now line.now.event rows.now }
        ensures { result ≡ row_at self.now line.now.event line.now.zone }
    {
        rows.row_at(near, &line.event, &line.zone)
    }

    /// Returns the row of an event in a zone, or `None` if there is none.
    fn row_at(&self, event: &Event, zone: &Zone) -> Option<Row>
        ensures { result ≡ row_at self.now event.now zone.now }
    {
        let mut near = 0;
        self.rows_of(event).row_at(&mut near, event, zone)
    }

    /// Whether a line's event has rows, ended or not. `rows` are the rows of that event.
    fn has_rows(&self, rows: &RowsOf<'_>, line: &Line) -> bool
        requires { AreRowsOf self.now line.now.event rows.now }
        ensures { result ≡ has_rows self.now line.now.event }
    {
        rows.has_rows(&line.event)
    }

    /// Whether the event is open at `t`: it has an unended row whose end is at most half an hour
    /// before `t`, or later, or until further notice.
    fn is_open(&self, t: Minute, event: &Event) -> bool
        ensures { result ≡ is_open self.now t event.now }
    {
        is_open(&self.held, t, event)
    }

    /// Whether one of `events` is of an earlier year than `event` and open at `t`: it has an
    /// unended row whose end is at most half an hour before `t`, or later, or until further notice.
    fn any_held(&self, t: Minute, events: &[Event], event: &Event) -> bool
        ensures { result
            ≡ list_any (λ d. nat_lt d.year event.now.year && is_open self.now t d) events.now }
    {
        for other in events {
            if other.year < event.year && self.is_open(t, other) {
                return true;
            }
        }
        false
    }

    /// Whether an event with the hazard and number of `event`, but of an earlier year, is open at
    /// `t`: it has an unended row whose end is at most half an hour before `t`, or later, or until
    /// further notice.
    fn is_number_held(&self, t: Minute, event: &Event) -> bool
        ensures { result ≡ is_number_held self.now t event.now }
    {
        self.any_held(t, events_at(&self.events, &number_of(event)), event)
    }

    /// Whether a row of the line's event that is live at `t`, the product's issue minute, has the
    /// period that the line (NEW, EXA or EXB) would open. A row is live if it is unended and its
    /// end is after `t` or until further notice. Two begins at `t` or before count as equal.
    fn has_opened_period(&self, t: Minute, line: &Line) -> bool
        ensures { result ≡ has_opened_period self.now t line.now }
    {
        has_period(&self.held, t, &line.event, &opened_period(line, t))
    }

    /// Returns the event of the greatest year among those of `events` that are open at `t`, or
    /// `None` if none is. An event is open if it has an unended row whose end is at most half an
    /// hour before `t`, or later, or until further notice.
    fn latest_open(&self, t: Minute, events: &[Event]) -> Option<Event>
        ensures { result ≡ latest_open self.now t events.now }
    {
        let mut best = None;
        for event in events {
            if self.is_open(t, event) {
                best = later_event(best, event);
            }
        }
        best
    }

    /// Returns the event of the greatest year among those with this hazard and number that are open
    /// at `t`, or `None` if none is. An event is open if it has an unended row whose end is at most
    /// half an hour before `t`, or later, or until further notice.
    fn latest_open_event(&self, t: Minute, number: &Number) -> Option<Event>
        ensures { result ≡ latest_open_event self.now number.now.hazard number.now.etn t }
    {
        self.latest_open(t, events_at(&self.events, number))
    }

    /// Returns the event of the greatest year among those with the hazard and number of a P-VTEC
    /// line that are open at `t`. `None` for a NEW line, or if none is open. An event is open if it
    /// has an unended row whose end is at most half an hour before `t`, or later, or until further
    /// notice.
    fn event_going(&self, t: Minute, vtec: &Vtec) -> Option<Event>
        ensures { result ≡ event_going self.now t vtec.now }
    {
        let number = Number {
            hazard: vtec.hazard,
            etn: vtec.etn,
        };
        match vtec.action {
            Action::New => None,
            _ => self.latest_open_event(t, &number),
        }
    }

    /// Returns the event of a P-VTEC line, whose text has no year. For NEW it is of the year of
    /// `t`, the product's issue minute; otherwise it is the event with the line's hazard and number
    /// that is open at `t`, of the greatest year if there are several, or one of the year of `t` if
    /// none is open. `self` has the rows just before the product, and an event is open if it has an
    /// unended row whose end is at most half an hour before `t`, or later, or until further notice.
    pub fn event_of(&self, t: Minute, vtec: &Vtec) -> Event
        ensures { result ≡ event_of self.now t vtec.now }
    {
        match self.event_going(t, vtec) {
            Some(event) => event,
            None => event_life::event_of(&[], t, vtec),
        }
    }

    /// Returns the facts about other rows that a NEW line is judged by: `opened` is whether its
    /// event has rows, and `held` whether it has none and an event of its hazard and number, but of
    /// an earlier year, is open at `t`, the issue minute. `going` and `same` are false. `rows` are
    /// the event's, and `higher` goes into the result as it is.
    fn around_new(&self, rows: &RowsOf<'_>, t: Minute, line: &Line, higher: bool) -> Around
        requires { AreRowsOf self.now line.now.event rows.now }
        ensures { result ≡ around_new self.now t line.now higher }
    {
        let opened = self.has_rows(rows, line);
        let held = !opened && self.is_number_held(t, &line.event);
        Around {
            opened,
            going: false,
            held,
            same: false,
            higher,
        }
    }

    /// Returns the facts about other rows that an EXA or EXB line is judged by: `going` is whether
    /// its event is open at `t`, the issue minute, and `same` whether it is and one of its rows
    /// that are live at `t` has the period that the line would open. `opened` and `held` are false.
    /// `higher` goes into the result as it is.
    fn around_joining(&self, t: Minute, line: &Line, higher: bool) -> Around
        ensures { result ≡ around_joining self.now t line.now higher }
    {
        let going = self.is_open(t, &line.event);
        let same = going && self.has_opened_period(t, line);
        Around {
            opened: false,
            going,
            held: false,
            same,
            higher,
        }
    }

    /// Returns the facts about other rows that a line of a product issued at `t` is judged by:
    /// `opened` and `held` for NEW, `going` and `same` for EXA and EXB, and none for any other
    /// action. Facts that the action does not need are false. `rows` are the event's, and `higher`
    /// goes into the result as it is.
    pub(crate) fn around(&self, rows: &RowsOf<'_>, t: Minute, line: &Line, higher: bool) -> Around
        requires { AreRowsOf self.now line.now.event rows.now }
        ensures { result ≡ asked_around line.now.action self.now t line.now higher }
    {
        match line.action {
            Action::New => self.around_new(rows, t, line, higher),
            Action::Exa | Action::Exb => self.around_joining(t, line, higher),
            _ => nothing_around(higher),
        }
    }

    /// Returns the facts about other rows that a line of a product issued at `t` is judged by, as
    /// far as its action needs them, with `higher` true. `asked` is the line before it with its
    /// facts, or `None` if there is none; these facts are returned again if both lines have the
    /// same action and event and would open the same period. `rows` are those of the line's event.
    fn around_near(
        &self,
        asked: &Option<(Line, Around)>,
        rows: &RowsOf<'_>,
        t: Minute,
        line: &Line,
    ) -> Around
        requires asked { IsAsked self.now t asked.now }
        requires rows { AreRowsOf self.now line.now.event rows.now }
        ensures { result ≡ asked_around line.now.action self.now t line.now true }
    {
        if !opens(&line.action) {
            return nothing_around(true);
        }
        match asked {
            Some(before) => {
                if asks_alike(t, &before.0, line) {
                    before.1
                } else {
                    self.around(rows, t, line, true)
                }
            }
            None => self.around(rows, t, line, true),
        }
    }

    /// Returns the first breach of a line that is not ROU, in a product issued at `t`, by the life
    /// of its event in its zone and `around`, the facts about other rows; `None` if it is lawful.
    /// `rows` are the event's. `near` is a guess of the row's index among them, which the call may
    /// change; a wrong guess only costs time.
    fn step_breach(
        &self,
        rows: &RowsOf<'_>,
        near: &mut usize,
        t: Minute,
        line: &Line,
        around: Around,
    ) -> Option<Breach>
        requires touches { is_routine line.now.action ≡ false }
        requires rows { AreRowsOf self.now line.now.event rows.now }
        requires around { around ≡ asked_around line.now.action self.now t line.now around.higher }
        ensures { result ≡ breach_of_line (life_at self.now line.now) line.now t
            (around_but_higher self.now t line.now around.higher) }
    {
        let life = life_of(rows.life_at(near, &line.event, &line.zone));
        match life_step(life, line, t, around) {
            Ok(_life) => None,
            Err(breach) => Some(breach),
        }
    }

    /// Returns the first breach of a line of a product issued at `t`, or `None` if it is lawful or
    /// ROU. `second` is whether an earlier line of the product other than ROU has its event and
    /// zone, which is the breach `Twice`, and `around` has the facts about other rows. `rows` are
    /// those of its event, and `near` is a guess of the row's index among them, which the call may
    /// change; a wrong guess only costs time.
    fn first_breach(
        &self,
        rows: &RowsOf<'_>,
        near: &mut usize,
        t: Minute,
        line: &Line,
        second: bool,
        around: Around,
    ) -> Option<Breach>
        requires rows { AreRowsOf self.now line.now.event rows.now }
        requires around { around ≡ asked_around line.now.action self.now t line.now around.higher }
        ensures { result ≡ (if is_routine line.now.action then None
            else (if second then Some Twice
            else breach_of_line (life_at self.now line.now) line.now t
            (around_but_higher self.now t line.now around.higher))) }
    {
        if is_routine(&line.action) {
            return None;
        }
        if second {
            return Some(Breach::Twice);
        }
        self.step_breach(rows, near, t, line, around)
    }

    /// Returns the row that a lawful line of a product issued at `t` leaves. `rows` are its event's
    /// rows before the product. `near` is a guess of the row's index among them, which the call may
    /// change; a wrong guess only costs time.
    fn row_after(&self, rows: &RowsOf<'_>, near: &mut usize, t: Minute, line: &Line) -> Row
        requires { AreRowsOf self.now line.now.event rows.now }
        ensures { result ≡ row_after self.now t line.now }
    {
        if opens(&line.action) {
            return event_life::row_after(&[], t, line);
        }
        match self.own_row(rows, near, line) {
            Some(own) => event_life::row_after(&[own], t, line),
            None => event_life::row_after(&[], t, line),
        }
    }

    /// Whether a line of a product issued at `t`, taken as the first of its event and zone, is
    /// lawful and neither ROU nor UPG, so that the row it leaves may be the higher row of a UPG
    /// line. `rows` are its event's. `near` is a guess of the row's index among them, which the
    /// call may change; a wrong guess only costs time.
    fn may_be_higher(&self, rows: &RowsOf<'_>, near: &mut usize, t: Minute, line: &Line) -> bool
        requires { AreRowsOf self.now line.now.event rows.now }
        ensures { result ≡ (not (is_routine line.now.action)
            && not (is_upgrade line.now.action)
            && is_none (breach_of_line (life_at self.now line.now) line.now t
            (around_but_higher self.now t line.now true))) }
    {
        if is_routine(&line.action) {
            return false;
        }
        if is_upgrade(&line.action) {
            return false;
        }
        let around = self.around(rows, t, line, true);
        self.step_breach(rows, near, t, line, around).is_none()
    }

    /// Returns the rows that the lawful lines of a product leave, other than UPG and ROU lines, by
    /// zone, then event. A line with the zone and event of an earlier line other than ROU is not
    /// lawful. `t` is the product's issue minute.
    fn counted(&self, alloc: Global, t: Minute, lines: &[Line]) -> Result<Seated, Oom>
        ensures rows { IfOk result
            (λ counted. values_of counted.entries ≡ rows_after_all_but_upgrades self.now t [] lines.now []) }
        ensures seated { IfOk result (λ counted. AreSeated counted.entries) }
    {
        let mut counted = BTreeMap::new(alloc);
        let mut spoken = SeenKeys::new(alloc);
        let mut near = 0;
        for line in lines {
            let second = spoken.mark_seen(!is_routine(&line.action), line)?;
            let rows = self.rows_of(&line.event);
            let lawful = self.may_be_higher(&rows, &mut near, t, line);
            add_seated_if(
                &mut counted,
                is_counted(second, lawful),
                &self.row_after(&rows, &mut near, t, line),
            )?;
        }
        Ok(counted)
    }

    /// Adds to `counted` the row that a line of a product issued at `t` leaves, if the line, taken
    /// as the first of its event and zone, is lawful and neither ROU nor UPG. `rows` are its
    /// event's. `near` is a guess of the row's index among them, which the call may change; a wrong
    /// guess only costs time.
    fn count_first(
        &self,
        counted: &mut Seated,
        rows: &RowsOf<'_>,
        near: &mut usize,
        t: Minute,
        line: &Line,
    ) -> Result<(), Oom>
        requires rows { AreRowsOf self.now line.now.event rows.now }
        requires seated { AreSeated counted.old.entries }
        ensures rows { OnOk result (values_of counted.new.entries
            ≡ (if counts self.now t false line.now
            then put (row_after self.now t line.now) (values_of counted.old.entries)
            else values_of counted.old.entries)) }
        ensures seated { OnOk result (AreSeated counted.new.entries) }
    {
        if !self.may_be_higher(rows, near, t, line) {
            return Ok(());
        }
        let row = self.row_after(rows, near, t, line);
        add_seated_if(counted, true, &row)
    }

    /// Returns the rows that the lawful lines of a product leave, other than UPG and ROU lines, by
    /// zone, then event. No line may have the zone and event of an earlier one that is not ROU. `t`
    /// is the product's issue minute.
    pub(crate) fn counted_first(
        &self,
        alloc: Global,
        t: Minute,
        lines: &[Line],
    ) -> Result<Seated, Oom>
        requires first { AreFirst [] lines.now }
        ensures rows { IfOk result
            (λ counted. values_of counted.entries ≡ rows_after_all_but_upgrades self.now t [] lines.now []) }
        ensures seated { IfOk result (λ counted. AreSeated counted.entries) }
    {
        let mut counted = BTreeMap::new(alloc);
        let mut place = 0;
        let mut near = None;
        let mut rows = RowsOf::none();
        for line in lines {
            if !is_upgrade(&line.action) {
                rows = self.rows_near(&near, rows, &line.event);
                near = Some(line.event);
                self.count_first(&mut counted, &rows, &mut place, t, line)?;
            }
        }
        Ok(counted)
    }

    /// Returns the rows of `events` in `zones` that are live at `t` (unended, with an end after `t`
    /// or until further notice), by zone, then event.
    fn live_rows(
        &self,
        alloc: Global,
        t: Minute,
        zones: &Zones,
        events: &BTreeSet<Event>,
    ) -> Result<Seated, Oom>
        ensures rows { IfOk result (λ higher.
            AreGathered self.now t zones.now.keys events.now.keys (values_of higher.entries)) }
        ensures seated { IfOk result (λ higher. AreSeated higher.entries) }
    {
        let mut higher = BTreeMap::new(alloc);
        for event in events {
            let rows = self.rows_of(event);
            add_rows(alloc, &mut higher, &rows, zones, t, event)?;
        }
        Ok(higher)
    }

    /// Returns the least minute among these: for each UPG line whose event has a row in the line's
    /// zone, the later of `t` and the begin of this row. `None` if there is no such line. Every row
    /// that is live at `t` and overlaps one of these rows ends after the result.
    fn least_needed(&self, t: Minute, lines: &[Line]) -> Option<Minute>
        ensures { result ≡ least_of self.now t None lines.now }
    {
        let mut least = None;
        let mut near = None;
        let mut rows = RowsOf::none();
        let mut place = 0;
        for line in lines {
            rows = self.rows_near(&near, rows, &line.event);
            near = Some(line.event);
            let own = self.own_row(&rows, &mut place, line);
            least = lesser(&least, &needed(t, line, &own));
        }
        least
    }

    /// Returns the least minute among these: for each UPG line whose event has a row in the line's
    /// zone, the later of `t` and the begin of this row. It is `t` if there is no such line. Every
    /// row that is live at `t` and overlaps one of these rows ends after the result.
    fn needed_from(&self, t: Minute, lines: &[Line]) -> Minute
        ensures { result ≡ unwrap_or (least_of self.now t None lines.now) t }
    {
        match self.least_needed(t, lines) {
            Some(least) => least,
            None => t,
        }
    }

    /// Returns rows in the zones of the UPG lines among `lines`, by zone, then event, of events
    /// whose hazard ranks above that of one of these lines in the same family. All of these that
    /// are live at `t`, the issue minute, and overlap the row of a UPG line in the same zone are
    /// there; others may be too.
    fn higher(&self, alloc: Global, t: Minute, lines: &[Line]) -> Result<Seated, Oom>
        ensures rows { IfOk result
            (λ higher. AreOver self.now t lines.now (values_of higher.entries)) }
        ensures seated { IfOk result (λ higher. AreSeated higher.entries) }
    {
        let from = self.needed_from(t, lines);
        let zones = upgraded_zones(alloc, lines)?;
        let ranks = upgraded_ranks(alloc, lines)?;
        let events = events_above(alloc, &self.reach, &zones, from, &ranks)?;
        self.live_rows(alloc, from, &zones, &events)
    }

    /// Returns what a product issued at `t` changes for the search for higher rows: `counted`,
    /// which must be the rows that its lawful lines other than UPG and ROU leave, the keys (zone
    /// and event) of its UPG lines, and the rows before it that may be higher than those of its UPG
    /// lines.
    pub(crate) fn change_with(
        &self,
        alloc: Global,
        t: Minute,
        lines: &[Line],
        counted: Seated,
    ) -> Result<Changed, Oom>
        requires rows { values_of counted.entries
            ≡ rows_after_all_but_upgrades self.now t [] lines.now [] }
        requires seated { AreSeated counted.entries }
        ensures changed { IfOk result
            (λ c. IsChanged self.now t lines.now (values_of c.counted.entries) c.upgraded.keys) }
        ensures over { IfOk result
            (λ c. AreOver self.now t lines.now (values_of c.higher.entries)) }
        ensures counted { IfOk result (λ c. AreSeated c.counted.entries) }
        ensures higher { IfOk result (λ c. AreSeated c.higher.entries) }
    {
        let upgraded = upgraded_by(alloc, lines)?;
        let higher = self.higher(alloc, t, lines)?;
        Ok(Changed {
            counted,
            upgraded,
            higher,
        })
    }

    /// Returns what a product issued at `t` changes for the search for higher rows: the rows that
    /// its lawful lines other than UPG and ROU leave, the keys (zone and event) of its UPG lines,
    /// and the rows before it that may be higher than those of its UPG lines. All three are empty
    /// if it has no UPG line, since none is looked for then.
    pub(crate) fn change_of(&self, alloc: Global, t: Minute, lines: &[Line]) -> Result<Changed, Oom>
        ensures changed { list_any upgrades lines.now ≡ true
            → IfOk result
            (λ c. IsChanged self.now t lines.now (values_of c.counted.entries) c.upgraded.keys) }
        ensures over { list_any upgrades lines.now ≡ true
            → IfOk result (λ c. AreOver self.now t lines.now (values_of c.higher.entries)) }
        ensures counted { IfOk result (λ c. AreSeated c.counted.entries) }
        ensures higher { IfOk result (λ c. AreSeated c.higher.entries) }
    {
        if !any_upgrades(lines) {
            return Ok(Changed {
                counted: BTreeMap::new(alloc),
                upgraded: BTreeSet::new(alloc),
                higher: BTreeMap::new(alloc),
            });
        }
        let counted = self.counted(alloc, t, lines)?;
        self.change_with(alloc, t, lines, counted)
    }

    /// Whether a UPG line has a higher row: one in its zone that after the product is live at `t`,
    /// the issue minute, has a higher rank of the hazard's family, and overlaps `own`, the row of
    /// the line's event in its zone before the product. True if the line's hazard has no rank;
    /// otherwise false if `own` is `None`. `changed` is what the product changes for the search, as
    /// `change_of` returns it.
    fn has_higher(&self, changed: &Changed, t: Minute, line: &Line, own: &Option<Row>) -> bool
        requires counted { AreSeated changed.now.counted.entries }
        requires higher { AreSeated changed.now.higher.entries }
        requires own { own.now ≡ row_at self.now line.now.event line.now.zone }
        ensures { (lines : Seq LineValue) →
            IsChanged self.now t lines
            (values_of changed.now.counted.entries) changed.now.upgraded.keys
            → ((row : RowValue) → own.now ≡ Some row
            → AreHigher self.now t row (family_of (facts_of line.now.event.hazard))
            (values_of changed.now.higher.entries))
            → result ≡ has_higher self.now t lines line.now }
    {
        let _ = &self.reach;
        match own {
            Some(own) => is_overlapped(changed, t, own),
            None => event_life::has_higher(&[], t, &[], line),
        }
    }

    /// Returns the first breach of a line of a product issued at `t`, or `None` if it is lawful or
    /// ROU. `second` is whether an earlier line other than ROU has its event and zone; `changed`,
    /// what the product changes for the search for higher rows, is read for a UPG line alone, and
    /// `around`, the facts about other rows, for any other line. `rows` are those of its event, and
    /// `near` is a guess of the row's index among them, which the call may change; a wrong guess
    /// only costs time.
    pub(crate) fn breach_in(
        &self,
        t: Minute,
        changed: &Changed,
        rows: &RowsOf<'_>,
        near: &mut usize,
        line: &Line,
        second: bool,
        around: Around,
    ) -> Option<Breach>
        requires counted { AreSeated changed.now.counted.entries }
        requires higher { AreSeated changed.now.higher.entries }
        requires rows { AreRowsOf self.now line.now.event rows.now }
        requires around { around ≡ asked_around line.now.action self.now t line.now true }
        ensures { (lines earlier : Seq LineValue) →
            (is_upgrade line.now.action ≡ true
            → IsChanged self.now t lines
            (values_of changed.now.counted.entries) changed.now.upgraded.keys)
            → (is_upgrade line.now.action ≡ true
            → (row : RowValue) → row_at self.now line.now.event line.now.zone ≡ Some row
            → AreHigher self.now t row (family_of (facts_of line.now.event.hazard))
            (values_of changed.now.higher.entries))
            → second ≡ is_second earlier line.now
            → result ≡ breach_in self.now t lines earlier line.now }
    {
        if !is_upgrade(&line.action) {
            return self.first_breach(rows, near, t, line, second, around);
        }
        let higher = self.has_higher(changed, t, line, &self.own_row(rows, near, line));
        self.first_breach(rows, near, t, line, second, nothing_around(higher))
    }

    /// Returns the lines of a product in order, each with its first breach, or `None` if it is
    /// lawful or routine (ROU). The order of `lines` is that of the text: a line other than ROU
    /// with the event and zone of an earlier one other than ROU is in breach. `self` has the rows
    /// just before the product, and `t` is the product's issue minute.
    ///
    /// # Errors
    ///
    /// Out of memory.
    ///
    /// Source: docs/ARCHIVE.md, "The lines".
    pub fn judge(
        &self,
        alloc: Global,
        t: Minute,
        lines: &[Line],
    ) -> Result<List<(Line, Option<Breach>)>, Oom>
        ensures { IfOk result (λ found. found ≡ judged self.now t lines.now) }
    {
        let changed = self.change_of(alloc, t, lines)?;
        let mut spoken = SeenKeys::new(alloc);
        let mut found = Vec::with_capacity(alloc, lines.len())?;
        let mut near = None;
        let mut rows = RowsOf::none();
        let mut asked = None;
        let mut place = 0;
        for line in lines {
            rows = self.rows_near(&near, rows, &line.event);
            near = Some(line.event);
            let around = self.around_near(&asked, &rows, t, line);
            asked = Some((*line, around));
            let second = spoken.mark_seen(!is_routine(&line.action), line)?;
            let breach = self.breach_in(t, &changed, &rows, &mut place, line, second, around);
            found.push((*line, breach))?;
        }
        Ok(List::from_vec(found))
    }

    /// Returns the rows that are live at `t`, by zone, then event: unended, and with an end after
    /// `t` or until further notice.
    ///
    /// # Errors
    ///
    /// Out of memory.
    pub fn shown(&self, alloc: Global, t: Minute) -> Result<List<Row>, Oom>
        ensures { IfOk result (λ shown. shown ≡ shown_at t self.now) }
    {
        let rows = all_shown(alloc, &self.held, t)?;
        let rows = all_rows(alloc, &seated(alloc, &rows)?)?;
        Ok(List::from_vec(rows))
    }
}

/// Whether a line leaves a row that counts: it is lawful and not `second`, which is whether an
/// earlier line of the product other than ROU has its event and zone.
fn is_counted(second: bool, lawful: bool) -> bool
    ensures { result ≡ (not second && lawful) }
{
    !second && lawful
}
