//! The settings of a drill.
ghost use Rattle.std.specs.Prelude.{◌≡◌, IfOk, map};
ghost use Rattle.desk_settings.specs.AreSettings.{HasForms, training_headings};
ghost use Rattle.desk_drill.specs.Office.{drill_desks, drill_settings, drill_zones, plain};

use crate::requests::{desk_at, zones_from};
use desk_settings::Settings;
use hazard_types::{List, LocalZone, Oom, Text, Zone};
use office_types::Desk;
use std::alloc::Global;

/// The number of zones.
const ZONES: u32 = 2000;

/// Returns the heading of each of the eight categories: `XXXX00`, that of training, for all.
#[tactic(auto, unfolding(desk_settings::specs::AreSettings::training_headings))]
fn headings() -> [[u8; 6]; 8]
    ensures { result ≡ training_headings }
{
    [*b"XXXX00"; 8]
}

/// Returns the four desks of the drill, `D1` to `D4`.
fn desks(alloc: Global) -> Result<List<Desk>, Oom>
    ensures { IfOk result (λ desks. desks ≡ drill_desks) }
{
    List::from_slice(alloc, &[desk_at(0), desk_at(1), desk_at(2), desk_at(3)])
}

/// Returns each of the zones, in order, with the name `Plain`.
fn named(alloc: Global, zones: &[Zone]) -> Result<List<(Zone, Text)>, Oom>
    ensures { IfOk result (λ named. named ≡ map plain zones.now) }
{
    let mut named = List::new(alloc);
    for zone in zones {
        let name = Text::from_slice(alloc, b"Plain")?;
        named.push((*zone, name))?;
    }
    Ok(named)
}

/// Returns the settings of a drill: office `KDRL`, site `DRL`, the desks `D1` to `D4`, 2,000 zones
/// with the name `Plain`, times in UTC, and the headings of training.
#[tactic(auto, unfolding(crate::specs::Office::drill_zones))]
fn made(alloc: Global) -> Result<Settings, Oom>
    ensures { IfOk result (λ s. s ≡ drill_settings) }
{
    let desks = desks(alloc)?;
    let zones = zones_from(alloc, 0, ZONES)?;
    Ok(Settings {
        office: *b"KDRL",
        site: *b"DRL",
        office_line: Text::from_slice(alloc, b"Training office")?,
        zone: LocalZone::Utc,
        desks,
        headings: headings(),
        zones: named(alloc, zones.as_slice())?,
        any_zone: false,
    })
}

/// Returns the settings of a drill (docs/DECISIONS.md, "The drill"): office `KDRL`, site `DRL`, the
/// desks `D1` to `D4`, 2,000 zones with the name `Plain`, times in UTC, and the headings of
/// training.
///
/// # Errors
///
/// Out of memory.
pub fn drill_settings(alloc: Global) -> Result<Settings, Oom>
    ensures value { IfOk result (λ s. s ≡ drill_settings) }
    ensures forms { IfOk result HasForms }
{
    made(alloc)
}
