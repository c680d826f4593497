//! The minutes in effect that each row still has, and the sums by zone, by hazard and of all rows.
//! Minutes are counted from 2000-01-01T00:00Z.
ghost use Rattle.std.specs.Prelude.{◌≡◌, ◌-◌, ◌∷◌, [], fold, map, OnOk};
ghost use Rattle.std.specs.BTreeMap.{insert_entry};
ghost use Rattle.event_life.specs.Lives.{opens, ends};
ghost use Rattle.hazard_types.specs.Orders.{by_hazard};
ghost use Rattle.hazard_types.specs.Places.{by_place};
ghost use Rattle.row_index.specs.Verdicts.{expand, expand_run, AreApart, HaveOwnEvents};
ghost use Rattle.stats_report.specs.Along.{lawful_in, line_by_line};
ghost use Rattle.stats_report.specs.Minutes.{cut_at};
ghost use Rattle.stats_report.specs.Spells.{begin_printed, spell_left, left_of, spell_after, gain_of, gained};
ghost use Rattle.stats_report.specs.Spells.{no_sums, sums_at, change_of, gain_over, turn_of};
ghost use Rattle.stats_report.specs.Spells.{turned_in, kept_of, turn_at, with_turn};
ghost use Rattle.stats_report.specs.Summed.{TakesLawful, TakesLines};

use crate::sums::{Gain, Sums, gained, no_sums};
use hazard_types::{Action, End, Event, Hazard, Line, Minute, Oom, Zone};
use row_index::{EventKey, Run, Verdict};
use std::alloc::Global;
use std::collections::BTreeMap;
use zone_map::ZoneMap;

/// The minutes in which a row is in effect: from `start` on, and before `stop`.
#[derive(Clone, Copy)]
pub struct Spell {
    pub start: u32,
    pub stop: u32,
}

/// A product's place in time: the minute before which minutes are counted, the first minute that
/// the product governs (the greatest issue minute so far), and its own issue minute.
#[derive(Clone, Copy)]
pub struct Moment {
    pub stamp: Minute,
    pub from: u32,
    pub issue: Minute,
}

/// What a lawful line changes in each of its zones: from the minute `from` on its row has the
/// minutes of `spell`. `gain` is what it adds to the sums if there was no row before.
#[derive(Clone, Copy)]
pub struct Change {
    pub from: u32,
    pub spell: Spell,
    pub gain: Gain,
}

/// The spell of each row, by event and zone.
pub type Spells = BTreeMap<EventKey, ZoneMap<Spell>>;

/// The sums of one hazard and of all rows.
#[derive(Clone, Copy)]
pub struct Totals {
    pub own: Sums,
    pub all: Sums,
}

/// The spell of each row, and the sums by zone, by hazard and of all rows.
#[derive(Drop)]
pub struct Standing {
    pub spells: Spells,
    pub zones: ZoneMap<Sums>,
    pub hazards: BTreeMap<Hazard, Sums>,
    pub all: Sums,
}

/// Returns the minute at which the count of a row's minutes stops: `stamp`, or `end` if that is
/// earlier.
fn cut_at(stamp: Minute, end: &End) -> u32
    ensures { result ≡ cut_at stamp end.now }
{
    match end {
        End::At(minute) => stamp.get().min(minute.get()),
        End::Ufn => stamp.get(),
    }
}

/// Returns the begin that a line prints, or for zeros `t`, the issue minute.
fn begin_printed(line: &Line, t: Minute) -> u32
    ensures { result ≡ begin_printed line.now t }
{
    match line.begin {
        Some(minute) => minute.get(),
        None => t.get(),
    }
}

/// Whether the action ends the row of its event in its zone: CAN, EXP and UPG.
fn ends(action: &Action) -> bool
    ensures { result ≡ ends action.now }
{
    matches!(action, Action::Can | Action::Exp | Action::Upg)
}

/// Whether the action opens an event in its zone: NEW, EXA and EXB.
fn opens(action: &Action) -> bool
    ensures { result ≡ opens action.now }
{
    matches!(action, Action::New | Action::Exa | Action::Exb)
}

/// Returns the minutes before `moment.stamp` in which the row that a lawful line leaves is in
/// effect: from the line's begin, or the issue minute if that is zeros, up to its end. They are
/// none if the line ends the row.
///
/// Source: docs/STATISTICS.md, "What is counted".
fn spell_after(moment: &Moment, line: &Line) -> Spell
    ensures { result ≡ spell_after moment.now line.now }
{
    if ends(&line.action) {
        return Spell { start: 0, stop: 0 };
    }
    Spell {
        start: begin_printed(line, moment.issue),
        stop: cut_at(moment.stamp, &line.end),
    }
}

/// Returns how many minutes of a spell are at or after the minute `from`.
fn spell_left(from: u32, spell: &Spell) -> u128
    ensures { result ≡ spell_left from spell.now }
{
    u128::from(spell.stop.saturating_sub(from.max(spell.start)))
}

/// Returns how many minutes of a spell are at or after the minute `from`; 0 if there is no spell.
fn left_of(from: u32, spell: &Option<Spell>) -> u128
    ensures { result ≡ left_of from spell.now }
{
    match spell {
        Some(spell) => spell_left(from, spell),
        None => 0,
    }
}

/// Returns the lead time of a line that opens an event: the minutes from the issue minute of its
/// product to its begin, or 0 if it begins before.
fn lead_of(moment: &Moment, line: &Line) -> u128
    ensures { result ≡ begin_printed line.now moment.now.issue - moment.now.issue }
{
    let begin = begin_printed(line, moment.issue);
    u128::from(begin.saturating_sub(moment.issue.get()))
}

/// Returns what a lawful line adds to the sums in one zone: an opening and its lead time if it
/// opens an event, the minutes that its row has from `moment.from` on, and as `gone` those that the
/// row had from there on before the line. `before` is the row's spell before the line, or `None` if
/// there was no row.
fn gain_of(moment: &Moment, line: &Line, before: &Option<Spell>) -> Gain
    ensures { result ≡ gain_of moment.now line.now before.now }
{
    let opened = opens(&line.action);
    Gain {
        openings: if opened { 1 } else { 0 },
        lead: if opened { lead_of(moment, line) } else { 0 },
        minutes: spell_left(moment.from, &spell_after(moment, line)),
        gone: left_of(moment.from, before),
    }
}

/// Returns what a lawful line other than ROU changes in each of its zones: the spell that its row
/// gets, the minute from which this counts, and what it adds to the sums if there was no row
/// before.
fn change_of(moment: &Moment, line: &Line) -> Change
    ensures { result ≡ change_of moment.now line.now }
{
    Change {
        from: moment.from,
        spell: spell_after(moment, line),
        gain: gain_of(moment, line, &None),
    }
}

/// Returns what a change adds to the sums in one zone: its openings, lead time and minutes, and as
/// `gone` the minutes that the row had before from `change.from` on. `before` is the row's spell
/// before the change, or `None` if there was no row.
fn gain_over(change: &Change, before: &Option<Spell>) -> Gain
    ensures { result ≡ gain_over change.now before.now }
{
    Gain {
        openings: change.gain.openings,
        lead: change.gain.lead,
        minutes: change.gain.minutes,
        gone: left_of(change.from, before),
    }
}

/// Returns the sums of a zone, or sums of zero if it has none. `near` is a guess of the zone's
/// index in the order of zones, on which the result does not depend; it may become the index of the
/// next zone.
pub fn zone_sums(zones: &ZoneMap<Sums>, near: &mut usize, zone: &Zone) -> Sums
    ensures { result ≡ sums_at by_place zones.now zone.now }
{
    match zones.get(near, zone) {
        Some(sums) => sums,
        None => no_sums(),
    }
}

/// Returns the sums of a hazard, or sums of zero if it has none.
pub fn hazard_sums(hazards: &BTreeMap<Hazard, Sums>, hazard: &Hazard) -> Sums
    ensures { result ≡ sums_at by_hazard hazards.now.entries hazard.now }
{
    match hazards.get(hazard) {
        Some(sums) => *sums,
        None => no_sums(),
    }
}

/// Adds the gain to the sums of a zone, which are zero before if `zones` has none. `near` is a
/// guess of the zone's index in the order of zones, on which the result does not depend; it may
/// become the index of the next zone.
fn change_zone(
    zones: &mut ZoneMap<Sums>,
    near: &mut usize,
    zone: &Zone,
    gain: &Gain,
) -> Result<(), Oom>
    ensures { OnOk result (zones.new ≡ insert_entry by_place zones.old zone.now
        (gained (sums_at by_place zones.old zone.now) gain.now)) }
{
    let sums = gained(&zone_sums(zones, near, zone), gain)?;
    let mut before = None;
    zones.set(*zone, sums, &mut before)
}

/// Adds the gain, less its minutes `gone`, to the sums of one hazard, `totals.own`, and to those of
/// all rows, `totals.all`.
fn change_totals(totals: &mut Totals, gain: &Gain) -> Result<(), Oom>
    ensures own { OnOk result (totals.new.own ≡ gained totals.old.own gain.now) }
    ensures all { OnOk result (totals.new.all ≡ gained totals.old.all gain.now) }
{
    totals.own = gained(&totals.own, gain)?;
    totals.all = gained(&totals.all, gain)?;
    Ok(())
}

/// Sets the spell of an event's row in a zone to that of `change`, and adds its gain, less the
/// minutes that the row had before, to the sums of the zone in `zones` and to `totals`. `spells`
/// has the spells of the event by zone. `near` is a guess of the zone's index in `zones`, on which
/// the result does not depend; it may become the index of the next zone.
fn change_row(
    spells: &mut ZoneMap<Spell>,
    zones: &mut ZoneMap<Sums>,
    near: &mut usize,
    change: &Change,
    zone: &Zone,
    totals: &mut Totals,
) -> Result<(), Oom>
    ensures { OnOk result (turn_of spells.new zones.new totals.new
        ≡ turned_in change.now (turn_of spells.old zones.old totals.old) zone.now) }
{
    let mut before = None;
    spells.set(*zone, change.spell, &mut before)?;
    let gain = gain_over(change, &before);
    change_zone(zones, near, zone, &gain)?;
    change_totals(totals, &gain)
}

/// Sets the spell of an event's row in each of the zones `places` to that of `change`, and adds the
/// gain in each to the sums of the zone in `zones` and to `totals`. `spells` has the spells of the
/// event by zone.
fn change_rows(
    spells: &mut ZoneMap<Spell>,
    zones: &mut ZoneMap<Sums>,
    change: &Change,
    places: &[Zone],
    totals: &mut Totals,
) -> Result<(), Oom>
    ensures { OnOk result (turn_of spells.new zones.new totals.new
        ≡ fold (turned_in change.now) (turn_of spells.old zones.old totals.old) places.now) }
{
    let mut near = 0;
    for zone in places {
        change_row(spells, zones, &mut near, change, zone, totals)?;
    }
    Ok(())
}

impl Standing {
    /// Returns a standing without rows, in which all sums are zero.
    pub fn new(alloc: Global) -> Self
        ensures spells { result.spells.entries ≡ [] }
        ensures zones { result.zones ≡ [] }
        ensures hazards { result.hazards.entries ≡ [] }
        ensures all { result.all ≡ no_sums }
    {
        Standing {
            spells: BTreeMap::new(alloc),
            zones: ZoneMap::new(alloc),
            hazards: BTreeMap::new(alloc),
            all: no_sums(),
        }
    }

    /// Sets the spell of the event's row in each of the zones `places` to that of `change`, and
    /// adds the gain in each to the sums of the zone, of the event's hazard and of all rows.
    fn change_event(
        &mut self,
        alloc: Global,
        change: &Change,
        event: &Event,
        places: &[Zone],
    ) -> Result<(), Oom>
        ensures { OnOk result (kept_of self.new ≡ with_turn (kept_of self.old) event.now
            (fold (turned_in change.now) (turn_at (kept_of self.old) event.now) places.now)) }
    {
        let hazard = event.hazard;
        let mut totals = Totals {
            own: hazard_sums(&self.hazards, &hazard),
            all: self.all,
        };
        let spells = self
            .spells
            .entry(EventKey { event: *event })?
            .or_insert(ZoneMap::new(alloc));
        change_rows(spells, &mut self.zones, change, places, &mut totals)?;
        self.hazards.insert(hazard, totals.own)?;
        self.all = totals.all;
        Ok(())
    }

    /// Sets the spells of the rows of a judged line in the zones `places`, and adds what they gain
    /// to the sums, if the line is lawful and not ROU; else it changes nothing. `moment` is the
    /// place in time of the line's product.
    fn change_verdict(
        &mut self,
        alloc: Global,
        moment: &Moment,
        verdict: &Verdict,
        places: &[Zone],
    ) -> Result<(), Oom>
        ensures { OnOk result (TakesLawful moment.now
            (line_by_line (lawful_in (verdict.now ∷ [])) places.now)
            (kept_of self.old) (kept_of self.new)) }
    {
        if !verdict.leaves_row() {
            return Ok(());
        }
        if places.is_empty() {
            return Ok(());
        }
        let change = change_of(moment, &verdict.line);
        self.change_event(alloc, &change, &verdict.line.event, places)
    }

    /// Sets the spells of the rows of those of the judged lines that are lawful and not ROU, each
    /// in all of the zones `places`, and adds what they gain to the sums. `moment` is the place in
    /// time of the lines' product.
    fn change_verdicts(
        &mut self,
        alloc: Global,
        moment: &Moment,
        verdicts: &[Verdict],
        places: &[Zone],
    ) -> Result<(), Oom>
        ensures { OnOk result (TakesLawful moment.now
            (line_by_line (lawful_in verdicts.now) places.now)
            (kept_of self.old) (kept_of self.new)) }
    {
        for verdict in verdicts {
            self.change_verdict(alloc, moment, verdict, places)?;
        }
        Ok(())
    }

    /// Applies the lawful lines of a run, which is a group of zones that have the same judged
    /// lines, to the spells and the sums. The lines must be of different events, and `moment` is
    /// the place in time of their product.
    fn change_run(&mut self, alloc: Global, moment: &Moment, run: &Run) -> Result<(), Oom>
        requires { HaveOwnEvents (map (λ v. v.line) run.now.verdicts) }
        ensures { OnOk result
            (TakesLines moment.now (expand_run run.now) (kept_of self.old) (kept_of self.new)) }
    {
        let verdicts = run.verdicts.as_slice();
        self.change_verdicts(alloc, moment, verdicts, run.zones.as_slice())
    }

    /// Applies the lawful lines of a product to the spells and the sums. `moment` is the product's
    /// place in time, and `runs` has its judged lines, each with its zones. The lines of one run
    /// must be of different events.
    ///
    /// # Errors
    ///
    /// Out of memory. Some of the lines may then have been applied.
    pub fn change_all(&mut self, alloc: Global, moment: &Moment, runs: &[Run]) -> Result<(), Oom>
        requires { AreApart runs.now }
        ensures { OnOk result
            (TakesLines moment.now (expand runs.now) (kept_of self.old) (kept_of self.new)) }
    {
        for run in runs {
            self.change_run(alloc, moment, run)?;
        }
        Ok(())
    }
}
