//! The settings of an office, and look-ups in them.
ghost use Rattle.std.specs.Prelude.{◌≡◌, option_map, slice_index_or, [], None, Contains, MatchOption, IsTrue, ◌↔◌};
ghost use Rattle.std.specs.List.{list_any};
ghost use Rattle.std.specs.List.Sorted.{IsStrictlySortedBy};
ghost use Rattle.std.specs.Map.{keys_of};
ghost use Rattle.std.specs.Str.{bytes_eq};
ghost use Rattle.hazard_types.specs.Places.{by_place};

use hazard_types::{Category, List, LocalZone, Text, Zone};
use office_types::Desk;

/// The settings of an office.
///
/// Source: docs/SETTINGS.md, "Settings".
#[derive(Debug, Drop)]
pub struct Settings {
    /// The office's code: four characters of A-Z and 0-9, as `KLWX`.
    pub office: [u8; 4],
    /// The last characters of product identifiers: three of A-Z and 0-9, as `LWX`.
    pub site: [u8; 3],
    /// The line below a product's name.
    pub office_line: Text,
    /// The zone of local times.
    pub zone: LocalZone,
    /// The names of the desks, in the order of the document, each once.
    pub desks: List<Desk>,
    /// The start of a heading line for each category, in the order of `Category`, as `WWUS41`.
    pub headings: [[u8; 6]; 8],
    /// The zones of the office, in order, each with its name.
    pub zones: List<(Zone, Text)>,
    /// Whether zones that `zones` does not have are accepted too; only in training.
    pub any_zone: bool,
}

/// Whether `desk` is one of `desks`.
pub fn is_among(desk: &Desk, desks: &[Desk]) -> bool
    ensures { result ≡ list_any (bytes_eq desk.now) desks.now }
{
    desks.iter().any(|other| desk.bytes() == other.bytes())
}

impl Settings {
    ghost use Rattle.desk_settings.specs.Looking.{name_for_zone, category_place};

    /// Whether the office has the desk.
    pub fn has_desk(&self, desk: &Desk) -> bool
        ensures value { result ≡ list_any (bytes_eq desk.now) self.now.desks }
        ensures stands { IsTrue result ↔ Contains self.now.desks desk.now }
    {
        is_among(desk, self.desks.as_slice())
    }

    /// Returns the start of the heading line of a category, as `WWUS41`.
    pub fn heading_for(&self, category: Category) -> [u8; 6]
        ensures { result ≡ slice_index_or self.now.headings (category_place category) [] }
    {
        let place = match category {
            Category::Wsw => 0,
            Category::Npw => 1,
            Category::Rfw => 2,
            Category::Cfw => 3,
            Category::Mww => 4,
            Category::Ffa => 5,
            Category::Flw => 6,
            Category::Fls => 7,
        };
        self.headings[place]
    }

    /// Returns the name that `zones` has for a zone, or `None` if `zones` does not have the zone.
    /// `zones` must be in ascending order with each zone once, as in accepted settings and those of
    /// training.
    pub fn zone_name(&self, zone: &Zone) -> Option<&Text>
        requires { IsStrictlySortedBy by_place (keys_of self.now.zones) }
        ensures value { option_map (λ name. name.now) result ≡ name_for_zone self.now.zones zone.now }
        ensures stands { MatchOption result (¬ Contains (keys_of self.now.zones) zone.now)
            (λ name. Contains self.now.zones (zone.now, name.now)) }
    {
        match self
            .zones
            .as_slice()
            .binary_search_by_key(zone, |entry| entry.0)
        {
            Ok(place) => Some(&self.zones.as_slice()[place].1),
            Err(_) => None,
        }
    }
}
