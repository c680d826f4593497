//! Look-ups over the intents of a draft, built once: which of them are on an event in a zone, and
//! which zones they have.
ghost use Rattle.std.specs.Prelude.{◌≡◌, ◌&&◌, ◌==◌, not, ℕ, [], is_some, IfOk, OnOk};
ghost use Rattle.std.specs.List.{list_any};
ghost use Rattle.std.specs.List.Sorted.{IsStrictlySortedBy};
ghost use Rattle.hazard_types.specs.Places.{Place, by_place};
ghost use Rattle.hazard_types.specs.Same.{same_zone};
ghost use Rattle.action_planner.specs.Lines.{puts_or_finishes};
ghost use Rattle.action_planner.specs.Offences.{is_shared};
ghost use Rattle.action_planner.specs.Placed.{zones_of, touches, speaks};
ghost use Rattle.action_planner.specs.Spoken.{with_intent, add_spot, add_spots, spots_from, add_zones, zones_from, is_taken, has_other};

use crate::placed::{Placed, zones_of};
use hazard_types::{Event, List, Oom, Zone};
use office_types::Intent;
use std::alloc::Global;
use std::collections::{BTreeMap, BTreeSet};
use std::marker::Model;

/// An event in a zone.
#[derive(Clone, Copy, PartialEq, Eq, PartialOrd, Ord)]
pub struct Spot {
    pub event: Event,
    pub zone: Zone,
}

/// The intents that are on one event in one zone.
#[derive(Clone, Copy)]
pub struct IntentsOn {
    /// The place of the first of them, counted from 0.
    pub first: usize,
    /// Whether one of them is at another place.
    pub others: bool,
    /// Whether one of them is a put or a finish.
    pub taken: bool,
}

/// The intents of a draft with look-ups over them. Its model is the list of the intents.
#[derive(Drop)]
pub struct Spoken<'a> {
    ps: &'a [Placed<'a>],
    spots: BTreeMap<Spot, IntentsOn>,
    zones: BTreeSet<Zone>,
}

impl<'a> Model for Spoken<'a> {
    ghost use Rattle.std.specs.Prelude.{List};
    ghost use Rattle.action_planner.specs.Placed.{Placed as PlacedIntent};
    ghost use Rattle.action_planner.specs.Spoken.{IsIndex};

    ghost Value = { List PlacedIntent };

    ghost view = { λ s. s.ps.now };

    ghost invariant = { λ s. IsIndex s.ps.now s.spots.entries s.zones.keys };
}

/// Whether an intent puts or ends an event, so that it may open, change or end a row.
fn puts_or_finishes(intent: &Intent) -> bool
    ensures { result ≡ puts_or_finishes intent.now }
{
    match intent {
        Intent::Put(_) | Intent::Finish(_) => true,
        Intent::Restate(_) | Intent::Routine(_) => false,
    }
}

/// Returns the summary of the intents on one event in one zone once `p` is among them: the place of
/// the first, whether one is at another place, and whether one is a put or a finish. `held` is the
/// summary before, or `None` if there were no such intents.
fn with_intent(held: Option<IntentsOn>, p: &Placed) -> IntentsOn
    ensures { result ≡ with_intent held p.now }
{
    let taken = puts_or_finishes(p.intent);
    match held {
        None => IntentsOn {
            first: p.place,
            others: false,
            taken,
        },
        Some(held) => IntentsOn {
            first: held.first,
            others: held.others || held.first != p.place,
            taken: held.taken || taken,
        },
    }
}

/// Whether one of the intents in `held` is at another place of the draft than `place`; false for
/// `None`.
fn has_other(held: Option<IntentsOn>, place: usize) -> bool
    ensures { result ≡ has_other place held }
{
    match held {
        Some(held) => held.first != place || held.others,
        None => false,
    }
}

/// Adds the intent `p` to the summary that `spots` has of the intents on its event in `zone`, one
/// of its zones. If `spots` has none there, it gets one of `p` alone.
fn add_spot(spots: &mut BTreeMap<Spot, IntentsOn>, p: &Placed, zone: &Zone) -> Result<(), Oom>
    ensures { OnOk result (spots.new.entries ≡ add_spot spots.old.entries p.now zone.now) }
{
    let spot = Spot {
        event: p.event,
        zone: *zone,
    };
    let intents_on = with_intent(spots.get(&spot).copied(), p);
    spots.insert(spot, intents_on)?;
    Ok(())
}

/// Adds the intent `p`, in each of its zones, to the summary that `spots` has of the intents on its
/// event there. Where `spots` has none, it gets one of `p` alone.
fn add_spots(spots: &mut BTreeMap<Spot, IntentsOn>, p: &Placed) -> Result<(), Oom>
    ensures { OnOk result
        (spots.new.entries ≡ add_spots spots.old.entries p.now (zones_of p.now.intent)) }
{
    for zone in zones_of(p.intent) {
        add_spot(spots, p, zone)?;
    }
    Ok(())
}

/// Returns for each event and zone that an intent of `ps` is on, in ascending order, the summary of
/// these intents: the place of the first, whether one is at another place, and whether one is a put
/// or a finish.
fn spots_of(alloc: Global, ps: &[Placed]) -> Result<BTreeMap<Spot, IntentsOn>, Oom>
    ensures { IfOk result (λ spots. spots.entries ≡ spots_from [] ps.now) }
{
    let mut spots = BTreeMap::new(alloc);
    for p in ps {
        add_spots(&mut spots, p)?;
    }
    Ok(spots)
}

/// Adds zones to the set `held`.
fn add_zones(held: &mut BTreeSet<Zone>, zones: &[Zone]) -> Result<(), Oom>
    ensures { OnOk result (held.new.keys ≡ add_zones held.old.keys zones.now) }
{
    for zone in zones {
        held.insert(*zone)?;
    }
    Ok(())
}

/// Returns the set of the zones that the intents `ps` have.
fn zones_touched(alloc: Global, ps: &[Placed]) -> Result<BTreeSet<Zone>, Oom>
    ensures { IfOk result (λ zones. zones.keys ≡ zones_from [] ps.now) }
{
    let mut zones = BTreeSet::new(alloc);
    for p in ps {
        add_zones(&mut zones, zones_of(p.intent))?;
    }
    Ok(zones)
}

/// Returns the zones of a set as a list in ascending order.
fn listed(alloc: Global, zones: &BTreeSet<Zone>) -> Result<List<Zone>, Oom>
    ensures zones { IfOk result (λ list. list ≡ zones.now.keys) }
    ensures order { IfOk result (λ list. IsStrictlySortedBy by_place list) }
{
    let mut list = List::new(alloc);
    for zone in zones {
        list.push(*zone)?;
    }
    Ok(list)
}

impl<'a> Spoken<'a> {
    /// Returns the intents `ps` of a draft with look-ups over them by event and zone.
    ///
    /// # Errors
    ///
    /// Out of memory.
    pub fn new(alloc: Global, ps: &'a [Placed<'a>]) -> Result<Self, Oom>
        ensures { IfOk result (λ spoken. spoken ≡ ps.now) }
    {
        let spots = spots_of(alloc, ps)?;
        let zones = zones_touched(alloc, ps)?;
        Ok(Spoken { ps, spots, zones })
    }

    /// Returns the intents of the draft, in the order of their places.
    pub fn intents(&self) -> &'a [Placed<'a>]
        ensures { result.now ≡ self.now }
    {
        self.ps
    }

    /// Returns the summary of the intents that are on the event in the zone (the place of the
    /// first, whether one is at another place, and whether one is a put or a finish), or `None` if
    /// there is no such intent.
    fn intents_on(&self, event: &Event, zone: &Zone) -> Option<IntentsOn>
        ensures spoken { is_some result ≡ list_any (speaks event.now zone.now) self.now }
        ensures taken { is_taken result
            ≡ list_any (λ p. puts_or_finishes p.intent && speaks event.now zone.now p) self.now }
        ensures others { (n : ℕ) →
            has_other n result
            ≡ list_any (λ p. not (p.place == n) && speaks event.now zone.now p) self.now }
    {
        let spot = Spot {
            event: *event,
            zone: *zone,
        };
        self.spots.get(&spot).copied()
    }

    /// Whether an intent of the draft is on the event in the zone, that is, has this event and this
    /// zone.
    pub fn speaks(&self, event: &Event, zone: &Zone) -> bool
        ensures { result ≡ list_any (speaks event.now zone.now) self.now }
    {
        self.intents_on(event, zone).is_some()
    }

    /// Whether an intent of the draft that is a put or a finish is on the event in the zone, that
    /// is, has this event and this zone.
    pub fn is_taken(&self, event: &Event, zone: &Zone) -> bool
        ensures { result
            ≡ list_any (λ p. puts_or_finishes p.intent && speaks event.now zone.now p) self.now }
    {
        match self.intents_on(event, zone) {
            Some(intents_on) => intents_on.taken,
            None => false,
        }
    }

    /// Whether an intent at another place of the draft than `p` is on the event of `p` in the zone.
    pub fn is_shared(&self, p: &Placed, zone: &Zone) -> bool
        ensures { result ≡ is_shared self.now p.now zone.now }
    {
        has_other(self.intents_on(&p.event, zone), p.place)
    }

    /// Whether one of the intents has the zone.
    pub fn touches(&self, zone: &Zone) -> bool
        ensures { result ≡ list_any (touches zone.now) self.now }
    {
        self.zones.contains(zone)
    }

    /// Returns the zones of the intents, in ascending order, each once.
    ///
    /// # Errors
    ///
    /// Out of memory.
    pub fn zones(&self, alloc: Global) -> Result<List<Zone>, Oom>
        ensures touched { IfOk result (λ zones. (z : Place) →
            list_any (λ (y : Place). same_zone y z) zones ≡ list_any (touches z) self.now) }
        ensures order { IfOk result (λ zones. IsStrictlySortedBy by_place zones) }
    {
        listed(alloc, &self.zones)
    }
}
