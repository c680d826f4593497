//! Rows in a map by zone, then event.
ghost use Rattle.std.specs.Prelude.{◌≡◌, filter, if◌then◌else◌, IfOk, OnOk};
ghost use Rattle.std.specs.BTreeMap.{insert_entry, is_at};
ghost use Rattle.std.specs.Map.{lookup, values_of};
ghost use Rattle.event_life.specs.Products.{put, row_at};
ghost use Rattle.row_index.specs.Numbers.{is_in_zone};
ghost use Rattle.row_index.specs.Seating.{AreSeated, seat_at, has_seat, seats_with};

use crate::keys::add_key;
use crate::parts::EventKey;
use hazard_types::{Event, Line, Oom, Row, Zone};
use std::alloc::{AllocError, Global};
use std::collections::btree_map::Range;
use std::collections::{BTreeMap, BTreeSet};

/// A position in a zone: before all events, at an event, or after all.
#[derive(Clone, Copy, PartialEq, Eq, PartialOrd, Ord)]
pub enum Spot {
    Front,
    At(EventKey),
    Back,
}

/// The key of a row: its zone, then its position there.
#[derive(Clone, Copy, PartialEq, Eq, PartialOrd, Ord)]
pub struct Seat {
    pub zone: Zone,
    pub spot: Spot,
}

/// Rows by zone, then event.
pub type Seated = BTreeMap<Seat, Row>;

/// The zones and events of lines.
pub type Seats = BTreeSet<Seat>;

/// Returns the key of the row of an event in a zone.
fn seat_at(event: &Event, zone: &Zone) -> Seat
    ensures { result ≡ seat_at event.now zone.now }
{
    Seat {
        zone: *zone,
        spot: Spot::At(EventKey { event: *event }),
    }
}

/// Whether the key of an event in a zone is in the set.
pub fn has_seat(seats: &Seats, event: &Event, zone: &Zone) -> bool
    ensures { result ≡ has_seat seats.now.keys (seat_at event.now zone.now) }
{
    seats.contains(&seat_at(event, zone))
}

/// Adds the key (zone and event) of a line if `counts` is true.
///
/// # Errors
///
/// Out of memory.
pub fn add_seat(seats: &mut Seats, counts: bool, line: &Line) -> Result<(), Oom>
    ensures { OnOk result (seats.new.keys ≡ seats_with counts line.now seats.old.keys) }
{
    if counts {
        let spot = Spot::At(EventKey { event: line.event });
        let seat = Seat {
            zone: line.zone,
            spot,
        };
        add_key(seats, seat)?;
    }
    Ok(())
}

/// Returns the row of an event in a zone, or `None` if there is none.
pub fn row_in(seated: &Seated, event: &Event, zone: &Zone) -> Option<Row>
    requires { AreSeated seated.now.entries }
    ensures { result ≡ row_at (values_of seated.now.entries) event.now zone.now }
{
    match seated.get(&seat_at(event, zone)) {
        Some(row) => Some(*row),
        None => None,
    }
}

/// Sets the value at a key. `before` becomes the value that was there, or `None` if there was none.
///
/// # Errors
///
/// Out of memory.
pub fn set<K: Ord + Drop, V: Copy>(
    map: &mut BTreeMap<K, V>,
    key: K,
    value: &V,
    before: &mut Option<V>,
) -> Result<(), Oom>
    ensures set { OnOk result (map.new.entries ≡ insert_entry K.cmp map.old.entries key value.now) }
    ensures before { OnOk result (before.new ≡ lookup (is_at (K.cmp key)) map.old.entries) }
{
    *before = map.insert(key, *value)?;
    Ok(())
}

/// Adds a row to the map, in place of the one with its zone and event if there is one. `before`
/// becomes that one, or `None`.
///
/// # Errors
///
/// Out of memory.
pub fn add_seated(seated: &mut Seated, row: &Row, before: &mut Option<Row>) -> Result<(), Oom>
    requires { AreSeated seated.old.entries }
    ensures before { OnOk result
        (before.new ≡ row_at (values_of seated.old.entries) row.now.event row.now.zone) }
    ensures rows { OnOk result
        (values_of seated.new.entries ≡ put row.now (values_of seated.old.entries)) }
    ensures seated { OnOk result (AreSeated seated.new.entries) }
{
    let spot = Spot::At(EventKey { event: row.event });
    let seat = Seat {
        zone: row.zone,
        spot,
    };
    set(seated, seat, row, before)
}

/// Adds a row to the map if `counts` is true, in place of the one with its zone and event if there
/// is one.
///
/// # Errors
///
/// Out of memory.
pub fn add_seated_if(seated: &mut Seated, counts: bool, row: &Row) -> Result<(), Oom>
    requires { AreSeated seated.old.entries }
    ensures rows { OnOk result (values_of seated.new.entries ≡ (if counts
        then put row.now (values_of seated.old.entries)
        else values_of seated.old.entries)) }
    ensures seated { OnOk result (AreSeated seated.new.entries) }
{
    if counts {
        let mut before = None;
        add_seated(seated, row, &mut before)?;
    }
    Ok(())
}

/// Returns the rows of a zone with their keys, by event.
pub fn seated_in<'a>(seated: &'a Seated, zone: &Zone) -> Range<'a, Seat, Row>
    requires { AreSeated seated.now.entries }
    ensures { values_of result ≡ filter (is_in_zone zone.now) (values_of seated.now.entries) }
{
    let front = Seat {
        zone: *zone,
        spot: Spot::Front,
    };
    let back = Seat {
        zone: *zone,
        spot: Spot::Back,
    };
    seated.range(front..back)
}

/// Returns all rows, by zone, then event.
///
/// # Errors
///
/// Out of memory.
pub fn all_rows(alloc: Global, seated: &Seated) -> Result<Vec<Row>, AllocError>
    ensures { IfOk result (λ rows. rows.items ≡ values_of seated.now.entries) }
{
    seated.values().copied().collect(alloc)
}
