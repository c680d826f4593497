//! The lives of events in their zones, by event, then zone.
ghost use Rattle.std.specs.Prelude.{◌≡◌, ◌++◌, map, IfOk, OnOk};
ghost use Rattle.std.specs.BTreeMap.{insert_entry};
ghost use Rattle.std.specs.List.{flat_map};
ghost use Rattle.std.specs.List.Sorted.{IsStrictlySortedBy};
ghost use Rattle.hazard_types.specs.Orders.{by_event};
ghost use Rattle.product_decoder.specs.Lives.{living_in, by_life};
ghost use Rattle.product_decoder.specs.Steps.{with_lines, with_product, steps_of_all, tracks_told};
ghost use Rattle.product_decoder.specs.Takings.{track_in, rows_taken};
ghost use Rattle.product_decoder.specs.ZoneSteps.{AreAscending, zones_at, with_zones, with_verdict, flat};
ghost use Rattle.row_index.specs.Verdicts.{expand_run, HaveOwnEvents};

use crate::taken::Taken;
use crate::types::Track;
use crate::zone_steps::ZoneSteps;
use hazard_types::{Event, Line, List, Minute, Oom, Zone};
use row_index::{EventKey, Run, Verdict};
use std::alloc::Global;
use std::collections::BTreeMap;
use std::marker::Model;

/// The steps of each event, by event.
type Steps = BTreeMap<EventKey, ZoneSteps>;

/// Adds the step of a line, its action and the issue minute of its product, in each of `zones` to
/// the steps of its event. `Err` is out of memory.
fn add_line(
    alloc: Global,
    steps: &mut Steps,
    issue: &Minute,
    line: &Line,
    zones: &[Zone],
) -> Result<(), Oom>
    ensures { OnOk result (steps.new.entries
        ≡ insert_entry by_event steps.old.entries line.now.event
        (with_zones (line.now.action, issue.now)
        (zones_at steps.old.entries line.now.event) zones.now)) }
{
    let event = line.event;
    let known = steps
        .entry(EventKey { event })?
        .or_insert(ZoneSteps::new(alloc));
    known.add(alloc, issue, &line.action, zones)
}

/// Adds the step of a judged line, its action and the issue minute of its product, in each of
/// `zones` to the steps of its event; does nothing if the line is in breach or routine. `Err` is
/// out of memory.
fn add_verdict(
    alloc: Global,
    steps: &mut Steps,
    issue: &Minute,
    verdict: &Verdict,
    zones: &[Zone],
) -> Result<(), Oom>
    requires ascending { AreAscending steps.old.entries }
    ensures put { OnOk result (flat steps.new.entries
        ≡ with_verdict issue.now zones.now (flat steps.old.entries) verdict.now) }
    ensures ascending { OnOk result (AreAscending steps.new.entries) }
{
    if !verdict.leaves_row() {
        return Ok(());
    }
    add_line(alloc, steps, issue, &verdict.line, zones)
}

/// Adds to `steps` the steps of those lines of a run that are lawful and not routine, in each zone
/// of the run. `issue` is the issue minute of the product; the lines of the run must be of
/// different events. `Err` is out of memory.
fn add_run(alloc: Global, steps: &mut Steps, issue: &Minute, run: &Run) -> Result<(), Oom>
    requires apart { HaveOwnEvents (map (λ v. v.line) run.now.verdicts) }
    requires ascending { AreAscending steps.old.entries }
    ensures put { OnOk result (flat steps.new.entries
        ≡ with_lines issue.now (flat steps.old.entries) (expand_run run.now)) }
    ensures ascending { OnOk result (AreAscending steps.new.entries) }
{
    let zones = run.zones.as_slice();
    for verdict in run.verdicts.as_slice() {
        add_verdict(alloc, steps, issue, verdict, zones)?;
    }
    Ok(())
}

/// Adds to `steps` the steps of those lines of a product that are lawful and not routine, after the
/// steps of earlier products. `Err` is out of memory.
fn add_product(alloc: Global, steps: &mut Steps, product: &Taken) -> Result<(), Oom>
    requires ascending { AreAscending steps.old.entries }
    ensures put { OnOk result
        (flat steps.new.entries ≡ with_product (flat steps.old.entries) product.now) }
    ensures ascending { OnOk result (AreAscending steps.new.entries) }
{
    let issue = product.issue();
    for run in product.runs() {
        add_run(alloc, steps, &issue, run)?;
    }
    Ok(())
}

/// Returns the steps of each event in each of its zones: the action and issue minute of each line
/// that is lawful and not routine, in the order of the products.
fn steps_of_all(alloc: Global, taken: &[Taken]) -> Result<Steps, Oom>
    ensures { IfOk result (λ steps. flat steps.entries ≡ steps_of_all taken.now) }
{
    let mut steps = BTreeMap::new(alloc);
    for product in taken {
        add_product(alloc, &mut steps, product)?;
    }
    Ok(steps)
}

/// The lives of one event, by zone.
#[derive(Drop)]
pub struct EventLives {
    event: Event,
    zones: ZoneSteps,
}

impl Model for EventLives {
    ghost use Rattle.std.specs.Prelude.{List as Seq};
    ghost use Rattle.product_decoder.specs.declared.types.Track.{Track as Life};
    ghost use Rattle.product_decoder.specs.Steps.{tracks_told};
    ghost use Rattle.product_decoder.specs.ZoneSteps.{under};

    ghost Value = { Seq Life };

    ghost view = { λ x. tracks_told (under x.event x.zones) };
}

impl EventLives {
    /// Appends the lives of the event to `tracks`, one for each of its zones, by zone. `Err` is out
    /// of memory.
    fn add_tracks(&self, alloc: Global, tracks: &mut List<Track>) -> Result<(), Oom>
        ensures { OnOk result (tracks.new ≡ tracks.old ++ self.now) }
    {
        self.zones.add_tracks(alloc, &self.event, tracks)
    }

    /// Returns the lives of the event, one for each of its zones, by zone: the action and issue
    /// minute of each lawful line other than ROU there, in the order of the products.
    ///
    /// # Errors
    ///
    /// Out of memory.
    pub fn tracks(&self, alloc: Global) -> Result<List<Track>, Oom>
        ensures { IfOk result (λ tracks. tracks ≡ self.now) }
    {
        let mut tracks = List::new(alloc);
        self.add_tracks(alloc, &mut tracks)?;
        Ok(tracks)
    }
}

/// Returns the lives of each event in `steps`, in the order of the events.
fn lives_of(alloc: Global, steps: Steps) -> Result<List<EventLives>, Oom>
    ensures { IfOk result (λ events. flat_map (λ e. e) events ≡ tracks_told (flat steps.entries)) }
{
    let mut events = List::new(alloc);
    for (key, zones) in steps {
        let event = key.event;
        events.push(EventLives { event, zones })?;
    }
    Ok(events)
}

/// Returns the lives of each event that the products left rows of, in the order of the events;
/// within an event they are by zone. A life has the action and issue minute of each lawful line
/// other than ROU of the event in the zone, in the order of the products.
///
/// # Errors
///
/// Out of memory.
pub fn events_in(alloc: Global, taken: &[Taken]) -> Result<List<EventLives>, Oom>
    ensures value { IfOk result (λ events.
        flat_map (λ e. e) events ≡ map (track_in taken.now) (living_in (rows_taken taken.now))) }
    ensures sorted { IfOk result (λ events. IsStrictlySortedBy by_life (flat_map (λ e. e) events)) }
{
    let steps = steps_of_all(alloc, taken)?;
    lives_of(alloc, steps)
}

/// Returns the lives of the events in one list, event after event in their order, and within an
/// event by zone.
fn tracks_of(alloc: Global, events: &[EventLives]) -> Result<List<Track>, Oom>
    ensures { IfOk result (λ tracks. tracks ≡ flat_map (λ e. e) events.now) }
{
    let mut tracks = List::new(alloc);
    for event in events {
        event.add_tracks(alloc, &mut tracks)?;
    }
    Ok(tracks)
}

/// Returns the life of each row that the products left, by event, then zone: the action and issue
/// minute of each lawful line other than ROU of the event in the zone, in the order of the
/// products.
///
/// # Errors
///
/// Out of memory.
pub fn tracks_in(alloc: Global, taken: &[Taken]) -> Result<List<Track>, Oom>
    ensures value { IfOk result
        (λ tracks. tracks ≡ map (track_in taken.now) (living_in (rows_taken taken.now))) }
    ensures sorted { IfOk result (λ tracks. IsStrictlySortedBy by_life tracks) }
{
    let events = events_in(alloc, taken)?;
    tracks_of(alloc, events.as_slice())
}
