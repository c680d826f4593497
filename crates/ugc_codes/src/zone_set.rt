//! Collects zones, each once.
ghost use Rattle.std.specs.Prelude.{◌≡◌, ◌+◌, ◌-◌, ◌≤◌, [], true, None, IfOk, OnOk};
ghost use Rattle.std.specs.List.Sorted.{IsStrictlySortedBy};
ghost use Rattle.hazard_types.specs.Places.{by_place};
ghost use Rattle.ugc_codes.specs.Grammar.{add_run};
ghost use Rattle.ugc_codes.specs.Rising.{comes_after_all, kept_in, IsKept};

use hazard_types::{List, Oom, Zone};
use std::alloc::Global;
use std::collections::BTreeSet;
use std::marker::Model;

/// A set of zones. They are in a list while each zone that is added comes after all before it; from
/// the first that does not they are in a tree.
#[derive(Drop)]
pub struct ZoneSet {
    rising: Option<List<Zone>>,
    mixed: BTreeSet<Zone>,
}

impl Model for ZoneSet {
    ghost use Rattle.std.specs.Prelude.{List as Seq};
    ghost use Rattle.hazard_types.specs.Places.{Place};
    ghost use Rattle.ugc_codes.specs.Rising.{kept_in, IsKept};

    ghost Value = { Seq Place };

    ghost view = { λ z. kept_in z.rising z.mixed.keys };

    ghost invariant = { λ z. IsKept z.rising z.mixed.keys };
}

/// Whether a zone comes after the last of `zones` in order by state, kind and number; true if there
/// are none. `zones` must be in that order.
fn comes_after_all(zones: &[Zone], zone: &Zone) -> bool
    ensures { result ≡ comes_after_all zones.now zone.now }
{
    match zones.last() {
        Some(last) => last.cmp(zone).is_lt(),
        None => true,
    }
}

/// Appends the zones with the state and kind of `first` from its number to `last`; none if `last`
/// is less. The list must be in order by state, kind and number, and `first` come after all zones
/// in it.
fn push_run(rising: &mut List<Zone>, first: Zone, last: u16) -> Result<(), Oom>
    requires range { last ≤ 999 }
    requires sorted { IsStrictlySortedBy by_place rising.old }
    requires behind { comes_after_all rising.old first ≡ true }
    ensures run { OnOk result (rising.new ≡ add_run rising.old first (last + 1 - first.number)) }
    ensures sorted { IsStrictlySortedBy by_place rising.new }
{
    for number in first.number()..last + 1 {
        rising.push(first.with_number(number))?;
    }
    Ok(())
}

/// Inserts the zones with the state and kind of `first` from its number to `last`; none if `last`
/// is less.
fn insert_run(mixed: &mut BTreeSet<Zone>, first: Zone, last: u16) -> Result<(), Oom>
    requires { last ≤ 999 }
    ensures { OnOk result
        (mixed.new.keys ≡ add_run mixed.old.keys first (last + 1 - first.number)) }
{
    for number in first.number()..last + 1 {
        mixed.insert(first.with_number(number))?;
    }
    Ok(())
}

/// Inserts `zones` into the set `mixed`, which must be empty. `zones` must be in order by state,
/// kind and number, each once.
fn insert_all(mixed: &mut BTreeSet<Zone>, zones: &[Zone]) -> Result<(), Oom>
    requires sorted { IsStrictlySortedBy by_place zones.now }
    requires empty { mixed.old.keys ≡ [] }
    ensures { OnOk result (mixed.new.keys ≡ zones.now) }
{
    for zone in zones {
        mixed.insert(*zone)?;
    }
    Ok(())
}

/// Moves the zones of the list `rising` into the tree `mixed`, which is empty until then, so that
/// zones may be added in any order. Afterwards `rising` is `None`; if it was so before, nothing is
/// done.
fn move_into_tree(rising: &mut Option<List<Zone>>, mixed: &mut BTreeSet<Zone>) -> Result<(), Oom>
    requires { IsKept rising.old mixed.old.keys }
    ensures none { rising.new ≡ None }
    ensures all { OnOk result (mixed.new.keys ≡ kept_in rising.old mixed.old.keys) }
{
    match rising.take() {
        Some(zones) => insert_all(mixed, zones.as_slice()),
        None => Ok(()),
    }
}

/// Returns the zones of a tree in order by state, kind and number, each once.
fn list_of(alloc: Global, mixed: BTreeSet<Zone>) -> Result<List<Zone>, Oom>
    ensures value { IfOk result (λ list. list ≡ mixed.keys) }
    ensures sorted { IfOk result (λ list. IsStrictlySortedBy by_place list) }
{
    let mut list = List::new(alloc);
    for zone in mixed {
        list.push(zone)?;
    }
    Ok(list)
}

impl ZoneSet {
    /// Returns an empty set.
    pub fn new(alloc: Global) -> Self
        ensures { result ≡ [] }
    {
        ZoneSet {
            rising: Some(List::new(alloc)),
            mixed: BTreeSet::new(alloc),
        }
    }

    /// Adds the zones with the state and kind of `first` from its number to `last`, which is at
    /// most 999; none if `last` is less than the number. Zones that the set has already stay in it
    /// once. When it fails, some zones may be missing, also of those that were added before.
    ///
    /// # Errors
    ///
    /// Out of memory.
    pub fn add_run(&mut self, first: Zone, last: u16) -> Result<(), Oom>
        requires { last ≤ 999 }
        ensures { OnOk result (self.new ≡ add_run self.old first (last + 1 - first.number)) }
    {
        if let Some(rising) = &mut self.rising {
            if comes_after_all(rising.as_slice(), &first) {
                return push_run(rising, first, last);
            }
        }
        move_into_tree(&mut self.rising, &mut self.mixed)?;
        insert_run(&mut self.mixed, first, last)
    }

    /// Returns the zones in order by state, kind and number, each once.
    ///
    /// # Errors
    ///
    /// Out of memory.
    pub fn into_list(self, alloc: Global) -> Result<List<Zone>, Oom>
        ensures value { IfOk result (λ list. list ≡ self) }
        ensures sorted { IfOk result (λ list. IsStrictlySortedBy by_place list) }
    {
        let ZoneSet { rising, mixed } = self;
        match rising {
            Some(list) => Ok(list),
            None => list_of(alloc, mixed),
        }
    }
}
