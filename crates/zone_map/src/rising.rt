//! Looks up and sets values in a list of entries, which is sorted by zone.
ghost use Rattle.std.specs.Prelude.{◌≡◌, ◌≤◌, true, length, None, MatchOption, OnOk};
ghost use Rattle.std.specs.BTreeMap.{insert_entry, is_at};
ghost use Rattle.std.specs.List.Sorted.{IsStrictlySortedBy};
ghost use Rattle.std.specs.Map.{keys_of, lookup};
ghost use Rattle.hazard_types.specs.Places.{by_place};
ghost use Rattle.zone_map.specs.Rising.{comes_after_all, is_seat, is_entry_at};

use crate::code::ZoneCode;
use hazard_types::Oom;

/// How many entries are moved at most for a new one that comes before them.
const FEW: usize = 64;

/// Whether `list` has an entry at index `place` and it is that of the zone.
fn is_entry_at<V: Copy>(list: &[(ZoneCode, V)], place: usize, zone: &ZoneCode) -> bool
    ensures { result ≡ is_entry_at list.now place zone.now }
{
    match list.get(place) {
        Some(entry) => zone.cmp(&entry.0).is_eq(),
        None => false,
    }
}

/// Returns the index of a zone's entry in `list`, which must be in the order of zones, or `None` if
/// it has none. `near` is a guess of the index, which is tried first.
fn find_index<V: Copy>(list: &[(ZoneCode, V)], near: usize, zone: &ZoneCode) -> Option<usize>
    requires { IsStrictlySortedBy by_place (keys_of list.now) }
    ensures { MatchOption result (lookup (is_at (by_place zone.now)) list.now ≡ None)
        (λ place. is_entry_at list.now place zone.now ≡ true) }
{
    if is_entry_at(list, near, zone) {
        return Some(near);
    }
    match list.binary_search_by_key(zone, |entry| entry.0) {
        Ok(place) => Some(place),
        Err(_) => None,
    }
}

/// Returns the value of a zone in `list`, which must be in the order of zones, or `None` if it has
/// none. `near` is a guess of the index of its entry, which is tried first, and becomes the index
/// after the entry if there is one.
pub fn value_near<V: Copy>(list: &[(ZoneCode, V)], near: &mut usize, zone: &ZoneCode) -> Option<V>
    requires { IsStrictlySortedBy by_place (keys_of list.now) }
    ensures { result ≡ lookup (is_at (by_place zone.now)) list.now }
{
    match find_index(list, *near, zone) {
        Some(place) => {
            *near = place.saturating_add(1);
            Some(list[place].1)
        }
        None => None,
    }
}

/// Whether a zone comes after the zone of the last entry of `list`, which is in the order of zones,
/// or `list` is empty.
fn comes_after_all<V: Copy>(list: &[(ZoneCode, V)], zone: &ZoneCode) -> bool
    ensures { result ≡ comes_after_all list.now zone.now }
{
    match list.last() {
        Some(last) => last.0.cmp(zone).is_lt(),
        None => true,
    }
}

/// Returns the index of a zone's entry in `list`, which must be in the order of zones, or the index
/// at which the entry belongs if the zone has none. `near` is a guess of the index, which is tried
/// first.
pub fn seat_of<V: Copy>(list: &[(ZoneCode, V)], near: usize, zone: &ZoneCode) -> usize
    requires { IsStrictlySortedBy by_place (keys_of list.now) }
    ensures seat { is_seat list.now result zone.now ≡ true }
    ensures within { result ≤ length list.now }
{
    if is_entry_at(list, near, zone) {
        return near;
    }
    if comes_after_all(list, zone) {
        return list.len();
    }
    match list.binary_search_by_key(zone, |entry| entry.0) {
        Ok(place) => place,
        Err(place) => place,
    }
}

/// Whether the zone's entry in `list` is at index `seat`, or at most 64 entries are at `seat` or
/// after it, which would move if it were inserted there. `seat` must be the length of `list` or
/// less.
pub fn has_room<V: Copy>(list: &[(ZoneCode, V)], seat: usize, zone: &ZoneCode) -> bool
    requires { seat ≤ length list.now }
{
    list.len() - seat <= FEW || is_entry_at(list, seat, zone)
}

/// Sets the value of a zone in `list`, which must be in the order of zones. `seat` must be the
/// index of the zone's entry, or that at which the entry belongs and is inserted if there is none.
/// `before` becomes the value that the zone had, or `None` if it had none.
///
/// # Errors
///
/// Out of memory; the list is as before.
pub fn set_at<V: Copy>(
    list: &mut Vec<(ZoneCode, V)>,
    seat: usize,
    zone: &ZoneCode,
    value: V,
    before: &mut Option<V>,
) -> Result<(), Oom>
    requires sorted { IsStrictlySortedBy by_place (keys_of list.old.items) }
    requires seat { is_seat list.old.items seat zone.now ≡ true }
    requires within { seat ≤ length list.old.items }
    ensures set { OnOk result
        (list.new.items ≡ insert_entry by_place list.old.items zone.now value) }
    ensures before { OnOk result (before.new ≡ lookup (is_at (by_place zone.now)) list.old.items) }
    ensures sorted { IsStrictlySortedBy by_place (keys_of list.new.items) }
{
    if is_entry_at(list, seat, zone) {
        *before = Some(list[seat].1);
        list[seat] = (*zone, value);
        return Ok(());
    }
    *before = None;
    list.insert(seat, (*zone, value))?;
    Ok(())
}
