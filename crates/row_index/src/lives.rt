//! The lives of one event by zone; zones share equal lives.
ghost use Rattle.std.specs.Prelude.{◌≡◌, ◌<◌, ◌+◌, Bool, [], length, is_some, option_map, slice_get, IfOk, OnOk};
ghost use Rattle.std.specs.BTreeMap.{insert_entry, is_at};
ghost use Rattle.std.specs.List.Sorted.{IsStrictlySortedBy};
ghost use Rattle.std.specs.Map.{keys_of, lookup, values_of};
ghost use Rattle.hazard_types.specs.Places.{by_place};
ghost use Rattle.event_life.specs.Products.{life_of};
ghost use Rattle.event_life.specs.declared.life.Life.{Life as LifeValue};
ghost use Rattle.row_index.specs.Sharing.{is_life, life_at, lives_of, lives_put, lives_told, row_with, rows_with, same_place, AreShared, IsPlaced, IsThere};
ghost use Rattle.row_index.specs.Tallies.{one_of, owed, times, IsTallied};

use crate::standing::Before;
use event_life::Life;
use hazard_types::{Event, List, Oom, Row, Zone};
use std::alloc::Global;
use std::marker::Model;
use zone_map::ZoneMap;

/// The indices of lives, by zone.
type Seats = ZoneMap<u32>;

/// How many more lives than twice the zones there may be before unreferenced ones are dropped.
const SPARE: usize = 16;

/// Returns the row of an event in a zone with this life.
pub fn row_with(event: &Event, zone: &Zone, life: &Life) -> Row
    ensures { result ≡ row_with event.now zone.now life.now }
{
    Row {
        event: *event,
        zone: *zone,
        period: life.period,
        flood: life.flood,
        ended: life.ended,
    }
}

/// Returns the life of a row.
pub fn life_of(row: &Row) -> Life
    ensures { result ≡ life_of row.now }
{
    Life {
        period: row.period,
        flood: row.flood,
        ended: row.ended,
    }
}

/// Whether there is a life at index `place` and it is equal to `life`.
fn is_life(lives: &[Life], place: u32, life: &Life) -> bool
    ensures { result ≡ is_life (slice_get lives.now place) life.now }
{
    match lives.get(place as usize) {
        Some(found) => *found == *life,
        None => false,
    }
}

/// Returns the life at index `place`, which must be in the list, or `None` if `place` is `None`.
fn life_there(lives: &[Life], place: &Option<u32>) -> Option<Life>
    requires { IsThere lives.now place.now }
    ensures { result ≡ option_map (life_at lives.now) place.now }
{
    match place {
        Some(place) => Some(lives[*place as usize]),
        None => None,
    }
}

/// Returns the rows of an event in the zones of `seats`, in order. Each has the life in `lives` at
/// the index that stands beside its zone, which must be in the list.
fn rows_at(
    alloc: Global,
    event: &Event,
    lives: &[Life],
    seats: &[(Zone, u32)],
) -> Result<Vec<Row>, Oom>
    requires { AreShared lives.now seats.now }
    ensures { IfOk result
        (λ rows. rows.items ≡ values_of (rows_with event.now (lives_told lives.now seats.now))) }
{
    let mut rows = Vec::with_capacity(alloc, seats.len())?;
    for seat in seats {
        rows.push(row_with(event, &seat.0, &lives[seat.1 as usize]))?;
    }
    Ok(rows)
}

/// Returns the index of a life in `lives`: `near` if the life there is equal, else that of a new
/// last entry, which is appended. `Oom` also if the index would not fit in a `u32`.
fn place_with(lives: &mut Vec<Life>, near: u32, life: &Life) -> Result<u32, Oom>
    ensures { IfOk result (λ place. IsPlaced lives.old.items lives.new.items place life.now) }
{
    if is_life(lives, near, life) {
        return Ok(near);
    }
    let Ok(place) = u32::try_from(lives.len()) else {
        return Err(Oom);
    };
    lives.push(*life)?;
    Ok(place)
}

/// Returns the index of a life in `lives`: `near` if the life there is equal, else the index that
/// `zone` has in `seats` if the life there is equal, else that of a new last entry, which is
/// appended. `Oom` also if the index would not fit in a `u32`.
fn place_for(
    lives: &mut Vec<Life>,
    seats: &Seats,
    near: u32,
    zone: &Zone,
    life: &Life,
) -> Result<u32, Oom>
    ensures { IfOk result (λ place. IsPlaced lives.old.items lives.new.items place life.now) }
{
    if is_life(lives, near, life) {
        return Ok(near);
    }
    let mut seat = 0;
    match seats.get(&mut seat, zone) {
        Some(own) => place_with(lives, own, life),
        None => place_with(lives, near, life),
    }
}

/// Appends an entry to `befores`: that `zones` zones had the life of `lives` at index `place`, or
/// no life if `place` is `None`. Appends nothing if `zones` is 0.
fn add_before(
    befores: &mut Vec<Before>,
    lives: &[Life],
    place: &Option<u32>,
    zones: usize,
) -> Result<(), Oom>
    requires { IsThere lives.now place.now }
    ensures { OnOk result ((p : LifeValue → Bool) →
        owed p befores.new.items ≡ owed p befores.old.items
        + times zones (one_of p (option_map (life_at lives.now) place.now))) }
{
    if zones == 0 {
        return Ok(());
    }
    let life = life_there(lives, place);
    befores.push(Before { life, zones })?;
    Ok(())
}

/// Whether the two indices are equal, or both are `None`.
fn same_place(a: &Option<u32>, b: &Option<u32>) -> bool
    ensures { result ≡ same_place a.now b.now }
{
    match (a, b) {
        (Some(a), Some(b)) => *a == *b,
        (None, None) => true,
        _ => false,
    }
}

/// Counts one more zone, which had the life of `lives` at index `place`, or no life if `place` is
/// `None`. The `count` zones before it had the life at index `last`; if `place` differs, they are
/// appended to `befores`, `last` becomes `place` and `count` 1. `Oom` also if `count` overflows.
fn count_zone(
    befores: &mut Vec<Before>,
    lives: &[Life],
    last: &mut Option<u32>,
    count: &mut usize,
    place: &Option<u32>,
) -> Result<(), Oom>
    requires last { IsThere lives.now last.old }
    requires place { IsThere lives.now place.now }
    ensures last { OnOk result (IsThere lives.now last.new) }
    ensures counted { OnOk result ((p : LifeValue → Bool) →
        owed p befores.new.items
        + times count.new (one_of p (option_map (life_at lives.now) last.new))
        ≡ owed p befores.old.items
        + times count.old (one_of p (option_map (life_at lives.now) last.old))
        + one_of p (option_map (life_at lives.now) place.now)) }
{
    if same_place(last, place) {
        let Some(more) = count.checked_add(1) else {
            return Err(Oom);
        };
        *count = more;
        return Ok(());
    }
    add_before(befores, lives, last, *count)?;
    *last = *place;
    *count = 1;
    Ok(())
}

/// Sets the life of `lives` at index `place`, which must be in the list, for each of the zones in
/// `seats`. Returns the lives that they had, `None` for none, each with the count of successive
/// zones that had it.
fn seat_each(
    alloc: Global,
    lives: &[Life],
    seats: &mut Seats,
    place: u32,
    zones: &[Zone],
) -> Result<Vec<Before>, Oom>
    requires shared { AreShared lives.now seats.old }
    requires place { place < length lives.now }
    ensures set { OnOk result (lives_told lives.now seats.new
        ≡ lives_put (life_at lives.now place) zones.now (lives_told lives.now seats.old)) }
    ensures shared { OnOk result (AreShared lives.now seats.new) }
    ensures before { IfOk result (λ befores. (p : LifeValue → Bool) →
        IsTallied p (values_of (lives_told lives.now seats.old))
        (values_of (lives_told lives.now seats.new)) befores.items (length zones.now)
        (life_at lives.now place)) }
{
    let mut befores = Vec::new(alloc);
    let mut last = None;
    let mut count = 0;
    let mut before = None;
    for zone in zones {
        seats.set(*zone, place, &mut before)?;
        count_zone(&mut befores, lives, &mut last, &mut count, &before)?;
    }
    add_before(&mut befores, lives, &last, count)?;
    Ok(befores)
}

/// Sets a life for each of the zones, and returns the lives that they had, `None` for none, each
/// with the count of successive zones that had it. `near` is a guess of the life's index in
/// `lives`, and becomes its index if there is a zone.
fn add_lives(
    alloc: Global,
    lives: &mut Vec<Life>,
    seats: &mut Seats,
    near: &mut u32,
    life: &Life,
    zones: &[Zone],
) -> Result<Vec<Before>, Oom>
    requires { AreShared lives.old.items seats.old }
    ensures set { OnOk result (lives_told lives.new.items seats.new
        ≡ lives_put life.now zones.now (lives_told lives.old.items seats.old)) }
    ensures shared { OnOk result (AreShared lives.new.items seats.new) }
    ensures before { IfOk result (λ befores. (p : LifeValue → Bool) →
        IsTallied p (values_of (lives_told lives.old.items seats.old))
        (values_of (lives_told lives.new.items seats.new)) befores.items (length zones.now)
        life.now) }
{
    let Some(first) = zones.first() else {
        return Ok(Vec::new(alloc));
    };
    let place = place_for(lives, seats, *near, first, life)?;
    *near = place;
    seat_each(alloc, lives, seats, place, zones)
}

/// Sets the life of a row for the row's zone, and returns the life's index in `lives`. `near` is a
/// guess of that index.
fn add_life(lives: &mut Vec<Life>, seats: &mut Seats, near: u32, row: &Row) -> Result<u32, Oom>
    requires { AreShared lives.old.items seats.old }
    ensures set { OnOk result (lives_told lives.new.items seats.new ≡ insert_entry by_place
        (lives_told lives.old.items seats.old) row.now.zone (life_of row.now)) }
    ensures shared { OnOk result (AreShared lives.new.items seats.new) }
{
    let place = place_for(lives, seats, near, &row.zone, &life_of(row))?;
    let mut before = None;
    seats.set(row.zone, place, &mut before)?;
    Ok(place)
}

/// Returns how many of the zones that `befores` counts had no life.
fn new_zones(befores: &[Before]) -> usize {
    let mut count: usize = 0;
    for before in befores {
        if before.life.is_none() {
            count = count.saturating_add(before.zones);
        }
    }
    count
}

/// Lives by zone. Zones share equal lives, though a life may be in the list more than once.
#[derive(Drop)]
pub struct LifeMap {
    lives: Vec<Life>,
    seats: Seats,
    /// The index of the life that was set last.
    near: u32,
    /// The number of zones, as a hint that no invariant promises.
    zones: usize,
}

impl Model for LifeMap {
    ghost use Rattle.std.specs.Prelude.{List as Seq};
    ghost use Rattle.hazard_types.specs.Places.{Place};
    ghost use Rattle.event_life.specs.declared.life.Life.{Life};
    ghost use Rattle.event_life.specs.Products.{life_of};
    ghost use Rattle.event_life.specs.declared.life.Life.{Life as LifeValue};
    ghost use Rattle.row_index.specs.Sharing.{lives_told, AreShared};

    ghost Value = { Seq (Place × Life) };

    ghost view = { λ m. lives_told m.lives.items m.seats };

    ghost invariant = { λ m. AreShared m.lives.items m.seats };
}

impl LifeMap {
    /// Returns a map without zones.
    pub fn new(alloc: Global) -> Self
        ensures { result ≡ [] }
    {
        LifeMap {
            lives: Vec::new(alloc),
            seats: ZoneMap::new(alloc),
            near: 0,
            zones: 0,
        }
    }

    /// Returns the life of a zone, or `None` if there is none. `near` is a guess of the zone's
    /// index among the zones in order, and may become the index after it; a wrong guess only costs
    /// time.
    pub fn get(&self, near: &mut usize, zone: &Zone) -> Option<&Life>
        ensures { option_map (λ life. life.now) result
            ≡ lookup (is_at (by_place zone.now)) self.now }
    {
        match self.seats.get(near, zone) {
            Some(place) => Some(&self.lives[place as usize]),
            None => None,
        }
    }

    /// Whether there is a zone with a life in the map.
    pub fn has_any_zone(&self) -> bool
        ensures { result ≡ is_some (slice_get self.now 0) }
    {
        self.seats.first().is_some()
    }

    /// Returns the number of zones, which is a hint alone: no contract promises that it is right.
    pub fn count(&self) -> usize {
        self.zones
    }

    /// Returns rows of `event` with the lives and zones of this map, by zone.
    ///
    /// # Errors
    ///
    /// Out of memory.
    pub fn rows(&self, alloc: Global, event: &Event) -> Result<Vec<Row>, Oom>
        ensures rows { IfOk result (λ rows. rows.items ≡ values_of (rows_with event.now self.now)) }
        ensures order { IsStrictlySortedBy by_place (keys_of self.now) }
    {
        rows_at(
            alloc,
            event,
            &self.lives,
            self.seats.list(alloc)?.as_slice(),
        )
    }

    /// Drops all zones and lives.
    pub fn clear(&mut self)
        ensures { self.new ≡ [] }
    {
        self.lives.clear();
        self.seats.clear();
        self.zones = 0;
    }

    /// Sets a life for each of the zones, and returns the lives that they had, `None` for none,
    /// each with the count of successive zones that had it. On `Oom` the map is empty.
    ///
    /// # Errors
    ///
    /// Out of memory.
    pub fn add_each(
        &mut self,
        alloc: Global,
        life: &Life,
        zones: &[Zone],
    ) -> Result<Vec<Before>, Oom>
        ensures set { OnOk result (self.new ≡ lives_put life.now zones.now self.old) }
        ensures before { IfOk result (λ befores. (p : LifeValue → Bool) →
            IsTallied p (values_of self.old) (values_of self.new) befores.items
            (length zones.now) life.now) }
    {
        match add_lives(
            alloc,
            &mut self.lives,
            &mut self.seats,
            &mut self.near,
            life,
            zones,
        ) {
            Ok(befores) => {
                self.zones = self.zones.saturating_add(new_zones(&befores));
                Ok(befores)
            }
            Err(oom) => {
                self.seats.clear();
                self.zones = 0;
                Err(oom)
            }
        }
    }

    /// Sets the life of a row for the row's zone. On `Oom` the map is empty.
    fn put(&mut self, row: &Row) -> Result<(), Oom>
        ensures { OnOk result
            (self.new ≡ insert_entry by_place self.old row.now.zone (life_of row.now)) }
    {
        match add_life(&mut self.lives, &mut self.seats, self.near, row) {
            Ok(place) => {
                self.near = place;
                self.zones = self.zones.saturating_add(1);
                Ok(())
            }
            Err(oom) => {
                self.seats.clear();
                self.zones = 0;
                Err(oom)
            }
        }
    }

    /// Sets the lives of rows for their zones, in a map without zones. The zones must ascend. On
    /// `Oom` the map is empty.
    fn add_all(&mut self, rows: &[Row]) -> Result<(), Oom>
        requires none { self.old ≡ [] }
        requires order { IsStrictlySortedBy by_place (keys_of (lives_of rows.now)) }
        ensures { OnOk result (self.new ≡ lives_of rows.now) }
    {
        for row in rows {
            self.put(row)?;
        }
        Ok(())
    }

    /// Returns a map with the same lives by zone, but without the lives in the list that no zone
    /// has. `event` may be any; it does not change the result.
    fn compacted(&self, alloc: Global, event: &Event) -> Result<LifeMap, Oom>
        ensures { IfOk result (λ map. map ≡ self.now) }
    {
        let rows = self.rows(alloc, event)?;
        let mut compacted = LifeMap::new(alloc);
        compacted.add_all(&rows)?;
        Ok(compacted)
    }

    /// Whether the list of lives is longer than twice the number of zones by more than 16 entries.
    /// The number of zones is a hint, so no contract promises that the answer is right.
    fn is_loose(&self) -> bool {
        self.lives.len() > self.zones.saturating_mul(2).saturating_add(SPARE)
    }

    /// Removes the lives that no zone has, if the list of lives is longer than twice the number of
    /// zones by more than 16 entries. The life of each zone stays as it is. `event` may be any; it
    /// does not change the result.
    ///
    /// # Errors
    ///
    /// Out of memory.
    pub fn compact(&mut self, alloc: Global, event: &Event) -> Result<(), Oom>
        ensures { self.new ≡ self.old }
    {
        if self.is_loose() {
            *self = self.compacted(alloc, event)?;
        }
        Ok(())
    }
}
