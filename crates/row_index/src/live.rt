//! The live rows that may overlap those of a product's UPG lines.
ghost use Rattle.std.specs.Prelude.{◌≡◌, option_map, None, if◌then◌else◌, IfOk, OnOk};
ghost use Rattle.std.specs.List.{list_any};
ghost use Rattle.std.specs.Map.{values_of};
ghost use Rattle.event_life.specs.Products.{row_at};
ghost use Rattle.row_index.specs.Gathering.{has_zone, lesser, or_later, rank_of_line, same_rank, with_rank, with_row, zone_said, IsLive};
ghost use Rattle.row_index.specs.Seating.{AreSeated, upgrades};
ghost use Rattle.row_index.specs.Telling.{Tells};

use crate::held::RowsOf;
use crate::higher::{Rank, rank_of};
use crate::keys::add_counted;
use crate::seats::{Seated, add_seated_if};
use event_life::{is_live, is_upgrade};
use hazard_types::{Event, Line, Minute, Oom, Row, Zone};
use std::alloc::Global;
use std::collections::BTreeSet;

/// The zones of UPG lines.
pub type Zones = BTreeSet<Zone>;

/// Returns the zones of the UPG lines among `lines`.
///
/// # Errors
///
/// Out of memory.
pub fn upgraded_zones(alloc: Global, lines: &[Line]) -> Result<Zones, Oom>
    ensures { IfOk result (λ zones. Tells upgrades zone_said zones.keys lines.now) }
{
    let mut zones = BTreeSet::new(alloc);
    for line in lines {
        add_counted(&mut zones, is_upgrade(&line.action), line.zone)?;
    }
    Ok(zones)
}

/// Whether two ranks are equal, or both are `None`.
fn same_rank(a: &Rank, b: &Rank) -> bool
    ensures { result ≡ same_rank a.now b.now }
{
    match (a, b) {
        (Some((family, rank)), Some((other, number))) => *family == *other && *rank == *number,
        (None, None) => true,
        _ => false,
    }
}

/// Whether `rank` is in the list.
fn has_rank(ranks: &[Rank], rank: &Rank) -> bool
    ensures { result ≡ list_any (λ r. same_rank r rank.now) ranks.now }
{
    ranks.iter().any(|other| same_rank(other, rank))
}

/// Adds a rank to the list if `counts` is true and it is not in the list.
fn add_rank(ranks: &mut Vec<Rank>, counts: bool, rank: Rank) -> Result<(), Oom>
    ensures { OnOk result
        (ranks.new.items ≡ (if counts then with_rank rank ranks.old.items else ranks.old.items)) }
{
    if counts {
        if !has_rank(ranks, &rank) {
            ranks.push(rank)?;
        }
    }
    Ok(())
}

/// Returns the ranks of the hazards of the UPG lines among `lines`, each once; `None` is among them
/// if a hazard has no rank.
///
/// # Errors
///
/// Out of memory.
pub fn upgraded_ranks(alloc: Global, lines: &[Line]) -> Result<Vec<Rank>, Oom>
    ensures { IfOk result (λ ranks. Tells upgrades rank_of_line ranks.items lines.now) }
{
    let mut ranks = Vec::new(alloc);
    for line in lines {
        add_rank(
            &mut ranks,
            is_upgrade(&line.action),
            rank_of(&line.event.hazard),
        )?;
    }
    Ok(ranks)
}

/// Adds the row to `higher`, in place of the one with its zone and event, if it is not `None` and
/// is live at `t`: unended, with an end after `t` or until further notice.
fn add_row(higher: &mut Seated, t: Minute, row: &Option<Row>) -> Result<(), Oom>
    requires { AreSeated higher.old.entries }
    ensures rows { OnOk result
        (values_of higher.new.entries ≡ with_row t row.now (values_of higher.old.entries)) }
    ensures seated { OnOk result (AreSeated higher.new.entries) }
{
    match row {
        Some(row) => add_seated_if(higher, is_live(row, t), row),
        None => Ok(()),
    }
}

/// Returns the row of an event in a zone, or `None` if the zone is not one of `zones` or there is
/// no row. `rows` are the event's. `near` is a guess of the row's index among them, which the call
/// may change; a wrong guess only costs time.
fn row_among(
    rows: &RowsOf<'_>,
    near: &mut usize,
    zones: &Zones,
    event: &Event,
    zone: &Zone,
) -> Option<Row>
    ensures { result
        ≡ (if has_zone zones.now.keys zone.now then row_at rows.now event.now zone.now else None) }
{
    if !zones.contains(zone) {
        return None;
    }
    rows.row_at(near, event, zone)
}

/// Adds to `higher` the rows of an event that are in one of `zones` and live at `t` (unended, with
/// an end after `t` or until further notice), by a walk over `all`. `all` and `rows` are both the
/// event's rows.
fn add_among(
    higher: &mut Seated,
    all: &[Row],
    rows: &RowsOf<'_>,
    zones: &Zones,
    t: Minute,
    event: &Event,
) -> Result<(), Oom>
    requires seated { AreSeated higher.old.entries }
    requires all { all.now ≡ rows.now }
    ensures rows { OnOk result (IsLive t event.now (has_zone zones.now.keys) rows.now
        (values_of higher.old.entries) (values_of higher.new.entries)) }
    ensures seated { OnOk result (AreSeated higher.new.entries) }
{
    let mut near = 0;
    for own in all {
        let row = row_among(rows, &mut near, zones, event, &own.zone);
        add_row(higher, t, &row)?;
    }
    Ok(())
}

/// Adds to `higher` the rows of an event that are in one of `zones` and live at `t` (unended, with
/// an end after `t` or until further notice), by a walk over its rows or over the zones, whichever
/// seem fewer. `rows` are the event's.
///
/// # Errors
///
/// Out of memory.
pub fn add_rows(
    alloc: Global,
    higher: &mut Seated,
    rows: &RowsOf<'_>,
    zones: &Zones,
    t: Minute,
    event: &Event,
) -> Result<(), Oom>
    requires { AreSeated higher.old.entries }
    ensures rows { OnOk result (IsLive t event.now (has_zone zones.now.keys) rows.now
        (values_of higher.old.entries) (values_of higher.new.entries)) }
    ensures seated { OnOk result (AreSeated higher.new.entries) }
{
    if zones.len() > rows.count() {
        let all = rows.all(alloc)?;
        return add_among(higher, &all, rows, zones, t, event);
    }
    let mut near = 0;
    for zone in zones {
        let row = rows.row_at(&mut near, event, zone);
        add_row(higher, t, &row)?;
    }
    Ok(())
}

/// Returns the later of the two minutes.
fn or_later(t: Minute, begin: Minute) -> Minute
    ensures { result ≡ or_later t begin }
{
    if t.get() <= begin.get() { begin } else { t }
}

/// Returns the later of `t` and the begin of `own`, the row of a UPG line: a row must end after
/// this minute to be live at `t` and overlap `own`. `None` if the line is not UPG or `own` is
/// `None`.
pub fn needed(t: Minute, line: &Line, own: &Option<Row>) -> Option<Minute>
    ensures { result ≡ (if upgrades line.now
        then option_map (λ r. or_later t r.period.begin) own.now
        else None) }
{
    if !is_upgrade(&line.action) {
        return None;
    }
    match own {
        Some(own) => Some(or_later(t, own.period.begin)),
        None => None,
    }
}

/// Returns the earlier of the two minutes, or the only one if the other is `None`, or `None` if
/// both are.
pub fn lesser(found: &Option<Minute>, other: &Option<Minute>) -> Option<Minute>
    ensures { result ≡ lesser found.now other.now }
{
    match (found, other) {
        (Some(a), Some(b)) => {
            if a.get() <= b.get() {
                Some(*a)
            } else {
                Some(*b)
            }
        }
        (Some(a), None) => Some(*a),
        (None, Some(b)) => Some(*b),
        (None, None) => None,
    }
}
