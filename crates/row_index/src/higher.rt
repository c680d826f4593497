//! What a product changes where the higher row of a UPG line is looked for.
ghost use Rattle.std.specs.Prelude.{◌≡◌, IfOk, filter};
ghost use Rattle.std.specs.List.{list_any};
ghost use Rattle.std.specs.Map.{values_of};
ghost use Rattle.event_life.specs.Higher.{family_of, is_above};
ghost use Rattle.hazard_types.specs.Hazards.{facts_of};
ghost use Rattle.row_index.specs.Numbers.{is_in_zone};
ghost use Rattle.row_index.specs.Seating.{AreSeated, key_of_line, upgrades};
ghost use Rattle.row_index.specs.Steps.{rises_over, stays_over, still_over, is_untouched, is_overlapped};
ghost use Rattle.row_index.specs.Telling.{Tells};

use crate::seats::{Seated, Seats, add_seat, has_seat, row_in, seated_in};
use event_life::{is_live, is_upgrade, overlaps};
use hazard_types::desk_hazards::facts;
use hazard_types::{Event, Family, Hazard, Line, Minute, Oom, Row, Zone};
use std::alloc::Global;
use std::collections::BTreeSet;

/// A hazard's family and its rank there, or `None` if it has no family.
pub type Rank = Option<(Family, u8)>;

/// What a product changes for the search for higher rows.
#[derive(Drop)]
pub struct Changed {
    /// The rows that its lawful lines other than UPG leave.
    pub counted: Seated,
    /// The zones and events of its UPG lines.
    pub upgraded: Seats,
    /// The live rows before it, in the zones of its UPG lines, of events that rank above theirs.
    pub higher: Seated,
}

/// Whether one of the lines is UPG.
pub fn any_upgrades(lines: &[Line]) -> bool
    ensures { result ≡ list_any upgrades lines.now }
{
    lines.iter().any(|line| is_upgrade(&line.action))
}

/// Returns the keys (zone and event) of the UPG lines among `lines`.
///
/// # Errors
///
/// Out of memory.
pub fn upgraded_by(alloc: Global, lines: &[Line]) -> Result<Seats, Oom>
    ensures { IfOk result (λ seats. Tells upgrades key_of_line seats.keys lines.now) }
{
    let mut seats = BTreeSet::new(alloc);
    for line in lines {
        add_seat(&mut seats, is_upgrade(&line.action), line)?;
    }
    Ok(seats)
}

/// Returns a hazard's family and its rank there, or `None` if it has no family or the desk does not
/// issue it.
///
/// Source: docs/HAZARDS.md.
pub fn rank_of(hazard: &Hazard) -> Rank
    ensures { result ≡ family_of (facts_of hazard.now) }
{
    match facts(*hazard) {
        Some(facts) => facts.family,
        None => None,
    }
}

/// Whether `high` is a greater rank than `low`, of the same family. False if one of them is `None`.
pub fn is_above(high: &Rank, low: &Rank) -> bool
    ensures { result ≡ is_above high.now low.now }
{
    let (Some((family, rank)), Some((other, under))) = (high, low) else {
        return false;
    };
    *family == *other && *under < *rank
}

/// Whether `row` is live at `t` (unended, with an end after `t` or until further notice), its
/// hazard has a greater rank than `low` in the same family, and its period overlaps that of `own`:
/// each begins before the other ends. False if `low` is `None`. The zones of the two rows are not
/// compared.
pub fn rises_over(t: Minute, low: &Rank, own: &Row, row: &Row) -> bool
    ensures { result ≡ rises_over t low.now own.now row.now }
{
    is_live(row, t)
        && overlaps(&row.period, &own.period)
        && is_above(&rank_of(&row.event.hazard), low)
}

/// Whether `row` is live at `t` (unended, with an end after `t` or until further notice), its
/// hazard has a greater rank than `low` in the same family, its period overlaps that of `own`, and
/// its key (zone and event) is not in `upgraded`, the keys of the UPG lines. False if `low` is
/// `None`. The zones of the two rows are not compared.
fn stays_over(upgraded: &Seats, t: Minute, low: &Rank, own: &Row, row: &Row) -> bool
    ensures { result ≡ stays_over t low.now upgraded.now.keys own.now row.now }
{
    rises_over(t, low, own, row) && !has_seat(upgraded, &row.event, &row.zone)
}

/// Whether, among the rows in the zone of `own` that lines of the product leave, one is live at `t`
/// (unended, with an end after `t` or until further notice), has a hazard of a greater rank than
/// `low` in the same family, overlaps `own`, and is of an event that no UPG line has in that zone.
/// False if `low` is `None`. `changed` has the rows that the product leaves and the keys of its UPG
/// lines.
pub fn any_counted_over(changed: &Changed, t: Minute, low: &Rank, own: &Row) -> bool
    requires { AreSeated changed.now.counted.entries }
    ensures { result ≡ list_any (stays_over t low.now changed.now.upgraded.keys own.now)
        (filter (is_in_zone own.now.zone) (values_of changed.now.counted.entries)) }
{
    for (_, row) in seated_in(&changed.counted, &own.zone) {
        if stays_over(&changed.upgraded, t, low, own, row) {
            return true;
        }
    }
    false
}

/// Whether the product changes nothing of an event in a zone: none of its UPG lines has both, and
/// no other lawful line of it leaves a row of the event there. `changed` is what the product
/// changes.
pub fn is_untouched(changed: &Changed, zone: &Zone, event: &Event) -> bool
    requires { AreSeated changed.now.counted.entries }
    ensures { result ≡ is_untouched (values_of changed.now.counted.entries) changed.now.upgraded.keys
        zone.now event.now }
{
    !has_seat(&changed.upgraded, event, zone) && row_in(&changed.counted, event, zone).is_none()
}

/// Whether `row`, one from before the product, is live at `t` (unended, with an end after `t` or
/// until further notice), has a hazard of a greater rank than `low` in the same family, and
/// overlaps `own`, and the product, as `changed` tells, changes nothing of its event in the zone of
/// `own`. False if `low` is `None`.
fn is_still_over(changed: &Changed, t: Minute, low: &Rank, own: &Row, row: &Row) -> bool
    requires { AreSeated changed.now.counted.entries }
    ensures { result ≡ still_over t low.now
        (values_of changed.now.counted.entries) changed.now.upgraded.keys own.now row.now }
{
    rises_over(t, low, own, row) && is_untouched(changed, &own.zone, &row.event)
}

/// Whether, among the rows from before the product in the zone of `own`, one is live at `t`
/// (unended, with an end after `t` or until further notice), has a hazard of a greater rank than
/// `low` in the same family, overlaps `own`, and is of an event of which the product changes
/// nothing in that zone. False if `low` is `None`. `changed` has those rows and what the product
/// changes.
fn any_still_over(changed: &Changed, t: Minute, low: &Rank, own: &Row) -> bool
    requires counted { AreSeated changed.now.counted.entries }
    requires higher { AreSeated changed.now.higher.entries }
    ensures { result ≡ list_any
        (still_over t low.now (values_of changed.now.counted.entries) changed.now.upgraded.keys
        own.now)
        (filter (is_in_zone own.now.zone) (values_of changed.now.higher.entries)) }
{
    for (_, row) in seated_in(&changed.higher, &own.zone) {
        if is_still_over(changed, t, low, own, row) {
            return true;
        }
    }
    false
}

/// Whether after the product, which changes `changed`, a row in the zone of `own` is live at `t`
/// (unended, with an end after `t` or until further notice), has a hazard of a greater rank than
/// that of `own` in the same family, and overlaps `own`. True also if the hazard of `own` has no
/// rank. `own` is the row of a UPG line before the product.
///
/// Source: docs/DECISIONS.md, "Lives".
pub fn is_overlapped(changed: &Changed, t: Minute, own: &Row) -> bool
    requires counted { AreSeated changed.now.counted.entries }
    requires higher { AreSeated changed.now.higher.entries }
    ensures { result ≡ is_overlapped (values_of changed.now.higher.entries) t
        (values_of changed.now.counted.entries) changed.now.upgraded.keys
        (family_of (facts_of own.now.event.hazard)) own.now }
{
    let low = rank_of(&own.event.hazard);
    low.is_none()
        || any_counted_over(changed, t, &low, own)
        || any_still_over(changed, t, &low, own)
}
