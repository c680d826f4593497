//! The steps of one event in each of its zones. Zones with the same history share its steps.
ghost use Rattle.std.specs.Prelude.{◌≡◌, ◌<◌, ◌++◌, [], suc, Some, length, reverse, IfOk, OnOk};
ghost use Rattle.product_decoder.specs.Chains.{below, height, told, chains_of, same_place, is_last, IsPlaced};
ghost use Rattle.product_decoder.specs.Steps.{tracks_told};
ghost use Rattle.product_decoder.specs.ZoneSteps.{zones_told, AreWithin, with_zone, with_zones, under};

use crate::types::Track;
use hazard_types::{Action, Event, List, Minute, Oom, Zone};
use std::alloc::Global;
use std::marker::Model;
use std::mem;
use zone_map::ZoneMap;

/// What a line did in a zone, and the index of the step before it, which is below its own.
#[derive(Clone, Copy)]
pub struct SharedStep {
    pub action: Action,
    pub issue: Minute,
    pub before: Option<u32>,
}

impl SharedStep {
    /// Returns the index of the step before this one, or `None` if there is none. `place` is the
    /// index of this step; an index that is not below it counts as none.
    fn before(&self, place: u32) -> Option<u32>
        ensures { result ≡ below place self.now.before }
    {
        match self.before {
            Some(before) => { if before < place { Some(before) } else { None } }
            None => None,
        }
    }
}

/// Whether the two indices are equal, or both are `None`.
fn same_place(a: Option<u32>, b: Option<u32>) -> bool
    ensures { result ≡ same_place a b }
{
    match (a, b) {
        (Some(a), Some(b)) => a == b,
        (None, None) => true,
        _ => false,
    }
}

/// Whether `shared` has at index `last` a step with this action and issue minute and with the step
/// at index `before` (`None` if there is none) before it. `false` if it has no step at `last`.
fn is_last(
    shared: &[SharedStep],
    last: u32,
    action: &Action,
    issue: &Minute,
    before: Option<u32>,
) -> bool
    ensures { result ≡ is_last shared.now last (action.now, issue.now) before }
{
    match shared.get(last as usize) {
        Some(step) => {
            step.action == *action && step.issue == *issue && same_place(step.before(last), before)
        }
        None => false,
    }
}

/// Returns the index in `shared` of a step with this action and issue minute, which comes after the
/// step at index `before`, or is a first one if that is `None`. It is the index of the last step if
/// that is the same, else of a new one that is appended. `Err` is out of memory, or that there is
/// no index of 32 bits left.
fn place_of(
    shared: &mut Vec<SharedStep>,
    action: &Action,
    issue: &Minute,
    before: Option<u32>,
) -> Result<u32, Oom>
    ensures { IfOk result
        (IsPlaced shared.old.items shared.new.items before (action.now, issue.now)) }
{
    let Ok(place) = u32::try_from(shared.len()) else {
        return Err(Oom);
    };
    if place > 0 && is_last(shared, place - 1, action, issue, before) {
        return Ok(place - 1);
    }
    shared.push(SharedStep {
        action: *action,
        issue: *issue,
        before,
    })?;
    Ok(place)
}

/// The index of the last step in each zone.
type Lasts = ZoneMap<u32>;

/// Adds the step of a line, its action and issue minute, in `zone`, after the zone's last step in
/// `lasts`. `near` is a guess of the index of the zone in `lasts`, and becomes the index after it
/// if it is found; a wrong guess only costs time. `Err` is out of memory.
fn add_step(
    shared: &mut Vec<SharedStep>,
    lasts: &mut Lasts,
    near: &mut usize,
    issue: &Minute,
    action: &Action,
    zone: &Zone,
) -> Result<(), Oom>
    requires within { AreWithin (length shared.old.items) lasts.old }
    ensures put { OnOk result (zones_told shared.new.items lasts.new
        ≡ with_zone (zones_told shared.old.items lasts.old) zone.now (action.now, issue.now)) }
    ensures within { OnOk result (AreWithin (length shared.new.items) lasts.new) }
{
    let before = lasts.get(near, zone);
    let place = place_of(shared, action, issue, before)?;
    let mut known = None;
    lasts.set(*zone, place, &mut known)
}

/// Adds the step of a line, its action and issue minute, in each of the zones, after the zone's
/// last step in `lasts`. `Err` is out of memory; some zones may have the step by then.
fn add_steps(
    shared: &mut Vec<SharedStep>,
    lasts: &mut Lasts,
    issue: &Minute,
    action: &Action,
    zones: &[Zone],
) -> Result<(), Oom>
    requires within { AreWithin (length shared.old.items) lasts.old }
    ensures put { OnOk result (zones_told shared.new.items lasts.new
        ≡ with_zones (action.now, issue.now) (zones_told shared.old.items lasts.old) zones.now) }
    ensures within { OnOk result (AreWithin (length shared.new.items) lasts.new) }
{
    let mut near = 0;
    for zone in zones {
        add_step(shared, lasts, &mut near, issue, action, zone)?;
    }
    Ok(())
}

/// Appends the step at index `place` of `shared` to `steps`, and returns the index of the step
/// before it, or `None` if it is a first one. If there is no step at `place`, it appends nothing
/// and returns `None`; `Err` is out of memory.
fn append_step(
    shared: &[SharedStep],
    place: u32,
    steps: &mut Vec<(Action, Minute)>,
) -> Result<Option<u32>, Oom>
    ensures told { IfOk result (λ before.
        told (chains_of shared.now) before ++ reverse steps.new.items
        ≡ told (chains_of shared.now) (Some place) ++ reverse steps.old.items) }
    ensures lower { IfOk result (λ before. height before < suc place) }
{
    match shared.get(place as usize) {
        Some(step) => {
            steps.push((step.action, step.issue))?;
            Ok(step.before(place))
        }
        None => Ok(None),
    }
}

/// Returns the steps of a zone from the first to the last, each its action and issue minute. `last`
/// is the index of the last one in `shared`.
fn steps_to(alloc: Global, shared: &[SharedStep], last: u32) -> Result<Vec<(Action, Minute)>, Oom>
    ensures { IfOk result (λ steps. steps.items ≡ told (chains_of shared.now) (Some last)) }
{
    let mut steps = Vec::new(alloc);
    let mut at = Some(last);
    while let Some(place) = at {
        at = append_step(shared, place, &mut steps)?;
    }
    steps.reverse();
    Ok(steps)
}

/// Appends to `tracks` the life of an event in each of its zones, in the order of `lasts`, which
/// has each zone with the index of its last step in `shared`. `Err` is out of memory.
fn add_tracks_in_zones(
    alloc: Global,
    shared: &[SharedStep],
    event: &Event,
    lasts: &[(Zone, u32)],
    tracks: &mut List<Track>,
) -> Result<(), Oom>
    ensures { OnOk result (tracks.new
        ≡ tracks.old ++ tracks_told (under event.now (zones_told shared.now lasts.now))) }
{
    for (zone, last) in lasts {
        let steps = steps_to(alloc, shared, *last)?;
        tracks.push(Track {
            event: *event,
            zone: *zone,
            steps: List::from_vec(steps),
        })?;
    }
    Ok(())
}

/// The steps of one event in each of its zones.
#[derive(Drop)]
pub struct ZoneSteps {
    shared: Vec<SharedStep>,
    lasts: Lasts,
}

impl Model for ZoneSteps {
    ghost use Rattle.std.specs.Prelude.{length};
    ghost use Rattle.product_decoder.specs.ZoneSteps.{Zones, zones_told, AreWithin};

    ghost Value = { Zones };

    ghost view = { λ x. zones_told x.shared.items x.lasts };

    ghost invariant = { λ x. AreWithin (length x.shared.items) x.lasts };
}

impl ZoneSteps {
    /// Returns the steps of an event that has none in any zone, without capacity.
    pub fn new(alloc: Global) -> Self
        ensures { result ≡ [] }
    {
        ZoneSteps {
            shared: Vec::new(alloc),
            lasts: ZoneMap::new(alloc),
        }
    }

    /// Adds the step of a line of the event, its action and issue minute, in each of the zones,
    /// after the zone's steps so far. On `Oom` all steps of the event are lost.
    ///
    /// # Errors
    ///
    /// Out of memory.
    pub fn add(
        &mut self,
        alloc: Global,
        issue: &Minute,
        action: &Action,
        zones: &[Zone],
    ) -> Result<(), Oom>
        ensures { OnOk result (self.new ≡ with_zones (action.now, issue.now) self.old zones.now) }
    {
        let ZoneSteps {
            mut shared,
            mut lasts,
        } = mem::replace(self, ZoneSteps::new(alloc));
        add_steps(&mut shared, &mut lasts, issue, action, zones)?;
        *self = ZoneSteps { shared, lasts };
        Ok(())
    }

    /// Appends to `tracks` the life of the event in each of its zones, by zone. `event` is the
    /// event whose steps these are.
    ///
    /// # Errors
    ///
    /// Out of memory.
    pub fn add_tracks(
        &self,
        alloc: Global,
        event: &Event,
        tracks: &mut List<Track>,
    ) -> Result<(), Oom>
        ensures { OnOk result (tracks.new ≡ tracks.old ++ tracks_told (under event.now self.now)) }
    {
        let lasts = self.lasts.list(alloc)?;
        add_tracks_in_zones(alloc, &self.shared, event, lasts.as_slice(), tracks)
    }
}
