//! A map from zones to values.
ghost use Rattle.std.specs.Prelude.{◌≡◌, [], None, option_map, slice_get, IfOk, OnOk};
ghost use Rattle.std.specs.BTreeMap.{insert_entry, is_at};
ghost use Rattle.std.specs.List.Sorted.{IsStrictlySortedBy};
ghost use Rattle.std.specs.Map.{keys_of, lookup};
ghost use Rattle.hazard_types.specs.Places.{by_place};
ghost use Rattle.zone_map.specs.Kept.{kept_in, AreKept};

use crate::code::ZoneCode;
use crate::rising::{has_room, seat_of, set_at, value_near};
use hazard_types::{List, Oom, Zone};
use std::alloc::Global;
use std::collections::BTreeMap;
use std::marker::Model;

/// A map from zones to values, in the order of zones. The entries are in a sorted list while few of
/// them come after each new one. From the first new one that comes before more than 64 others they
/// are in a tree, and so after `clear`.
#[derive(Drop)]
pub struct ZoneMap<V> {
    rising: Option<Vec<(ZoneCode, V)>>,
    /// The index after the entry that was set last.
    near: usize,
    others: BTreeMap<ZoneCode, V>,
}

impl<V> Model for ZoneMap<V> {
    ghost use Rattle.std.specs.Prelude.{List as Seq};
    ghost use Rattle.hazard_types.specs.Places.{Place};
    ghost use Rattle.zone_map.specs.Kept.{kept_in, AreKept};

    ghost Value = { Seq (Place × V) };

    ghost view = { λ m. kept_in m.rising m.others.entries };

    ghost invariant = { λ m. AreKept m.rising m.others.entries };
}

/// Sets the value of a zone in the tree `others`. `before` becomes the value that the zone had, or
/// `None` if it had none.
fn set_among<V: Copy>(
    others: &mut BTreeMap<ZoneCode, V>,
    zone: ZoneCode,
    value: V,
    before: &mut Option<V>,
) -> Result<(), Oom>
    ensures set { OnOk result
        (others.new.entries ≡ insert_entry by_place others.old.entries zone value) }
    ensures before { OnOk result (before.new ≡ lookup (is_at (by_place zone)) others.old.entries) }
    ensures sorted { IsStrictlySortedBy by_place (keys_of others.new.entries) }
{
    *before = others.insert(zone, value)?;
    Ok(())
}

/// Adds the entries of `list`, which must be in the order of zones, to the tree `others`, which
/// must be empty. If memory runs out, some may be added.
fn insert_all<V: Copy>(
    others: &mut BTreeMap<ZoneCode, V>,
    list: &[(ZoneCode, V)],
) -> Result<(), Oom>
    requires sorted { IsStrictlySortedBy by_place (keys_of list.now) }
    requires empty { others.old.entries ≡ [] }
    ensures all { OnOk result (others.new.entries ≡ list.now) }
    ensures sorted { IsStrictlySortedBy by_place (keys_of others.new.entries) }
{
    for entry in list {
        others.insert(entry.0, entry.1)?;
    }
    let _ = others.len();
    Ok(())
}

/// Moves the entries of the list `rising`, if it is not `None`, into the tree `others`, which is
/// empty then; `rising` is `None` afterwards. If memory runs out, entries may be lost.
fn move_to_tree<V: Copy>(
    rising: &mut Option<Vec<(ZoneCode, V)>>,
    others: &mut BTreeMap<ZoneCode, V>,
) -> Result<(), Oom>
    requires { AreKept rising.old others.old.entries }
    ensures none { rising.new ≡ None }
    ensures all { OnOk result (others.new.entries ≡ kept_in rising.old others.old.entries) }
    ensures sorted { IsStrictlySortedBy by_place (keys_of others.new.entries) }
{
    match rising.take() {
        Some(list) => insert_all(others, &list),
        None => Ok(()),
    }
}

/// Returns the entries of the list, in its order, each with its zone in place of the code.
fn entries_in<V: Copy>(alloc: Global, list: &[(ZoneCode, V)]) -> Result<List<(Zone, V)>, Oom>
    ensures { IfOk result (λ entries. entries ≡ list.now) }
{
    let mut entries = Vec::with_capacity(alloc, list.len())?;
    for entry in list {
        entries.push((entry.0.zone(), entry.1))?;
    }
    Ok(List::from_vec(entries))
}

/// Returns the entries of the tree, in the order of zones, each with its zone in place of the code.
fn listed<V: Copy>(alloc: Global, others: &BTreeMap<ZoneCode, V>) -> Result<List<(Zone, V)>, Oom>
    ensures { IfOk result (λ list. list ≡ others.now.entries) }
{
    let mut list = Vec::with_capacity(alloc, others.len())?;
    for (zone, value) in others {
        list.push((zone.zone(), *value))?;
    }
    Ok(List::from_vec(list))
}

/// Returns the value of the first zone of the tree, or `None` if the tree is empty.
fn first_among<V: Copy>(others: &BTreeMap<ZoneCode, V>) -> Option<V>
    ensures { result ≡ option_map (λ e. e.1) (slice_get others.now.entries 0) }
{
    match others.first_key_value() {
        Some((_zone, value)) => Some(*value),
        None => None,
    }
}

impl<V: Copy> ZoneMap<V> {
    /// Returns an empty map, without capacity.
    pub fn new(alloc: Global) -> Self
        ensures { result ≡ [] }
    {
        ZoneMap {
            rising: Some(Vec::new(alloc)),
            near: 0,
            others: BTreeMap::new(alloc),
        }
    }

    /// Returns the value at a zone, or `None` if it has none. `near` is a guess of the zone's index
    /// in the order of zones, on which the result does not depend; if the zone is found in the
    /// sorted list, it becomes the next index. So it is right if zones are asked for in order.
    pub fn get(&self, near: &mut usize, zone: &Zone) -> Option<V>
        ensures value { result ≡ lookup (is_at (by_place zone.now)) self.now }
        ensures order { IsStrictlySortedBy by_place (keys_of self.now) }
    {
        let code = ZoneCode::new(zone);
        match &self.rising {
            Some(list) => value_near(list, near, &code),
            None => self.others.get(&code).copied(),
        }
    }

    /// Sets the value at a zone. `before` becomes the value that the zone had, or `None` if it had
    /// none. On an error, values of other zones may be lost.
    ///
    /// # Errors
    ///
    /// Out of memory.
    pub fn set(&mut self, zone: Zone, value: V, before: &mut Option<V>) -> Result<(), Oom>
        ensures set { OnOk result (self.new ≡ insert_entry by_place self.old zone value) }
        ensures before { OnOk result (before.new ≡ lookup (is_at (by_place zone)) self.old) }
    {
        let code = ZoneCode::new(&zone);
        if let Some(list) = &mut self.rising {
            let seat = seat_of(list, self.near, &code);
            if has_room(list, seat, &code) {
                self.near = seat.saturating_add(1);
                return set_at(list, seat, &code, value, before);
            }
        }
        move_to_tree(&mut self.rising, &mut self.others)?;
        set_among(&mut self.others, code, value, before)
    }

    /// Returns the value at the first zone, or `None` if the map is empty.
    pub fn first(&self) -> Option<V>
        ensures { result ≡ option_map (λ e. e.1) (slice_get self.now 0) }
    {
        match &self.rising {
            Some(list) => list.first().map(|entry| entry.1),
            None => first_among(&self.others),
        }
    }

    /// Returns the zones in order, each with its value.
    ///
    /// # Errors
    ///
    /// Out of memory.
    pub fn list(&self, alloc: Global) -> Result<List<(Zone, V)>, Oom>
        ensures value { IfOk result (λ list. list ≡ self.now) }
        ensures order { IsStrictlySortedBy by_place (keys_of self.now) }
    {
        match &self.rising {
            Some(list) => entries_in(alloc, list),
            None => listed(alloc, &self.others),
        }
    }

    /// Removes all entries. From then on entries are in a tree.
    pub fn clear(&mut self)
        ensures { self.new ≡ [] }
    {
        self.rising = None;
        self.others.clear();
    }
}
