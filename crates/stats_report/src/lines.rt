//! The lines of the statistics. Each function adds one or more to a text. When memory runs out, a
//! prefix may have been added.
ghost use Rattle.std.specs.Prelude.{◌≡◌, ◌++◌, ℕ, List as Seq, flat_map, IfOk, OnOk};
ghost use Rattle.std.specs.Map.{keys_of};
ghost use Rattle.event_life.specs.Products.{Product};
ghost use Rattle.stats_report.specs.Report.{named, total_text, faults_text, stats_text};
ghost use Rattle.stats_report.specs.Spells.{kept_of};
ghost use Rattle.stats_report.specs.Told.{hazard_told, zone_told};
ghost use Rattle.stats_report.specs.Tallies.{IsKept};

use crate::events::{Events, events_by_hazard, events_of};
use crate::standing::{Standing, hazard_sums, zone_sums};
use crate::sums::Sums;
use crate::tally::Tally;
use hazard_types::{Hazard, List, Oom, Text, Zone, hazard_text, zone_text};
use std::alloc::Global;

/// Appends `word`, which ends with a blank, and after it the number `n` in decimal.
fn write_named(alloc: Global, out: &mut Text, word: &[u8], n: u128) -> Result<(), Oom>
    ensures { OnOk result (out.new ≡ out.old ++ named word.now n) }
{
    out.extend(word)?;
    let digits = format!(in alloc; "{n}")?;
    out.extend(digits.as_bytes())
}

/// Appends the line `hazard H events N openings O lead L minutes M` of a hazard. N is the number of
/// its events, O that of its openings, L the sum of their lead times and M that of the times in
/// effect, both in minutes.
fn write_hazard(
    alloc: Global,
    out: &mut Text,
    events: &Events,
    standing: &Standing,
    hazard: &Hazard,
) -> Result<(), Oom>
    ensures { OnOk result (out.new ≡ out.old
        ++ hazard_told events.now.entries (kept_of standing.now) hazard.now) }
{
    let sums = hazard_sums(&standing.hazards, hazard);
    out.extend(b"hazard ")?;
    out.extend(&hazard_text(hazard))?;
    write_named(alloc, out, b" events ", events_of(events, hazard))?;
    write_named(alloc, out, b" openings ", sums.openings)?;
    write_named(alloc, out, b" lead ", sums.lead)?;
    write_named(alloc, out, b" minutes ", sums.minutes)?;
    out.push(b'\n')
}

/// Appends the line `zone Z openings O minutes M` of a zone, with the number of openings and the
/// minutes in effect. `near` is a guess of the zone's index in the order of zones, on which the
/// line does not depend; it may become the index of the next zone.
fn write_zone(
    alloc: Global,
    out: &mut Text,
    standing: &Standing,
    near: &mut usize,
    zone: &Zone,
) -> Result<(), Oom>
    ensures { OnOk result (out.new ≡ out.old ++ zone_told (kept_of standing.now) zone.now) }
{
    let sums = zone_sums(&standing.zones, near, zone);
    out.extend(b"zone ")?;
    out.extend(&zone_text(zone))?;
    write_named(alloc, out, b" openings ", sums.openings)?;
    write_named(alloc, out, b" minutes ", sums.minutes)?;
    out.push(b'\n')
}

/// Appends the line of each hazard that has rows, in the order of hazards. `events` has the counts
/// of events, and `standing` the sums.
fn write_hazards(
    alloc: Global,
    out: &mut Text,
    events: &Events,
    standing: &Standing,
) -> Result<(), Oom>
    ensures { OnOk result (out.new ≡ out.old
        ++ flat_map (hazard_told events.now.entries (kept_of standing.now))
        (keys_of standing.now.hazards.entries)) }
{
    for hazard in standing.hazards.keys() {
        write_hazard(alloc, out, events, standing, hazard)?;
    }
    Ok(())
}

/// Appends the line of each of these zones, in the order of `zones`, with the sums that `standing`
/// has for it. It is fastest for zones in ascending order.
fn write_zones(
    alloc: Global,
    out: &mut Text,
    standing: &Standing,
    zones: &[(Zone, Sums)],
) -> Result<(), Oom>
    ensures { OnOk result (out.new ≡ out.old
        ++ flat_map (zone_told (kept_of standing.now)) (keys_of zones.now)) }
{
    let mut near = 0;
    for entry in zones {
        write_zone(alloc, out, standing, &mut near, &entry.0)?;
    }
    Ok(())
}

/// Appends the line `total openings O minutes M`, with the number of openings and the minutes in
/// effect of all rows.
fn write_total(alloc: Global, out: &mut Text, openings: u128, minutes: u128) -> Result<(), Oom>
    ensures { OnOk result (out.new ≡ out.old ++ total_text openings minutes) }
{
    write_named(alloc, out, b"total openings ", openings)?;
    write_named(alloc, out, b" minutes ", minutes)?;
    out.push(b'\n')
}

/// Appends the line `faults F`, with the number of products that have a fault.
fn write_faults(alloc: Global, out: &mut Text, faults: usize) -> Result<(), Oom>
    ensures { OnOk result (out.new ≡ out.old ++ faults_text faults) }
{
    write_named(alloc, out, b"faults ", faults as u128)?;
    out.push(b'\n')
}

/// Appends the lines `total openings O minutes M` and `faults F`, with the number of openings, the
/// minutes in effect and the number of products that have a fault.
fn write_end(
    alloc: Global,
    out: &mut Text,
    openings: u128,
    minutes: u128,
    faults: usize,
) -> Result<(), Oom>
    ensures { OnOk result
        (out.new ≡ out.old ++ (total_text openings minutes ++ faults_text faults)) }
{
    write_total(alloc, out, openings, minutes)?;
    write_faults(alloc, out, faults)
}

/// Returns the text of the statistics: the lines of the hazards and then of the zones that have
/// rows, the totals and the faults. Each line ends with LF.
///
/// # Errors
///
/// Out of memory.
///
/// Source: docs/STATISTICS.md, "The lines".
pub fn text_of(alloc: Global, tally: &Tally) -> Result<Text, Oom>
    ensures { (stamp : ℕ) (products : Seq Product) → IsKept stamp products tally.now → IfOk result
        (λ text. text ≡ stats_text stamp products tally.now.faults) }
{
    let standing = &tally.standing;
    let all = standing.all;
    let events = events_by_hazard(alloc, &standing.spells)?;
    let zones = standing.zones.list(alloc)?;
    let mut out = List::new(alloc);
    write_hazards(alloc, &mut out, &events, standing)?;
    write_zones(alloc, &mut out, standing, zones.as_slice())?;
    write_end(alloc, &mut out, all.openings, all.minutes, tally.faults)?;
    Ok(out)
}
