//! Lines by zone.
ghost use Rattle.std.specs.Prelude.{◌≡◌, [], ◌∷◌, IfOk, OnOk};
ghost use Rattle.hazard_board.specs.ByZone.{lines_at, add_to_zones};

use hazard_types::{Line, List, Oom, Zone};
use std::alloc::Global;
use std::collections::BTreeMap;

/// The lines of each zone, in their order.
pub type LinesByZone = BTreeMap<Zone, List<Line>>;

/// Appends a line in `zones` to the lines of its zone, after those that are there. `Err` is out of
/// memory.
fn add_to_zone(alloc: Global, zones: &mut LinesByZone, line: &Line) -> Result<(), Oom>
    ensures { OnOk result (zones.new.entries ≡ add_to_zones zones.old.entries (line.now ∷ [])) }
{
    let lines = zones.entry(line.zone)?.or_insert(List::new(alloc));
    lines.extend(&[*line])
}

/// Returns a map from each zone that the lines have to the lines of that zone, in the order of
/// `lines`.
///
/// # Errors
///
/// Out of memory.
pub fn lines_by_zone(alloc: Global, lines: &[Line]) -> Result<LinesByZone, Oom>
    ensures { IfOk result (λ zones. zones.entries ≡ add_to_zones [] lines.now) }
{
    let mut zones = BTreeMap::new(alloc);
    for line in lines {
        add_to_zone(alloc, &mut zones, line)?;
    }
    Ok(zones)
}

/// Returns the lines that the map has for a zone, in the order in which they were added; empty if
/// there are none.
pub fn lines_in<'a>(zones: &'a LinesByZone, zone: &Zone) -> &'a [Line]
    ensures { result.now ≡ lines_at zones.now.entries zone.now }
{
    match zones.get(zone) {
        Some(lines) => lines.as_slice(),
        None => &[],
    }
}
