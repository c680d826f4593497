//! Clashes: live rows of one zone and family whose periods overlap.
ghost use Rattle.std.specs.Prelude.{◌≡◌, ◌∷◌, find, filter, option_map, true, IfOk, IfSome};
ghost use Rattle.std.specs.List.{list_any, list_all};
ghost use Rattle.std.specs.List.Sorted.{IsStrictlySortedBy};
ghost use Rattle.hazard_types.specs.Same.{same_zone};
ghost use Rattle.hazard_types.specs.declared.line.Line.{Line as AnyLine};
ghost use Rattle.event_life.specs.Products.{by_key};
ghost use Rattle.event_life.specs.Higher.{are_kin, may_yield};
ghost use Rattle.hazard_board.specs.Board.{slice_of};
ghost use Rattle.hazard_board.specs.ByZone.{lines_of};
ghost use Rattle.hazard_board.specs.Clashes.{clash, clash_of, first_clash, earlier_clash, may_clash};
ghost use Rattle.hazard_board.specs.Consistent.{collide, EachToLater};
ghost use Rattle.hazard_board.specs.NewClashes.{clash_either, clashes_among, is_new_clash};
ghost use Rattle.hazard_board.specs.Taken.{rows_taken};

use crate::board_rows::BoardRows;
use crate::by_zone::{lines_by_zone, lines_in};
use crate::lines::{Left, lefts, rows_taken, zone_rows_after_lines};
use event_life::{is_live, overlaps};
use hazard_types::desk_hazards::facts;
use hazard_types::{Clash, Hazard, Line, Minute, Oom, Row, Zone};
use std::alloc::{AllocError, Global};
use std::collections::BTreeSet;

/// A clash, or `None` if there is none; `Oom` if memory ran out on the way.
pub type FoundClash = Result<Option<Clash>, Oom>;

/// Whether the table of the desk's hazards gives both hazards the same family. `false` if either is
/// not in the table or has no family.
///
/// Source: docs/HAZARDS.md.
fn are_kin(g: &Hazard, h: &Hazard) -> bool
    ensures { result ≡ are_kin g.now h.now }
{
    let (Some(first), Some(second)) = (facts(*g), facts(*h)) else {
        return false;
    };
    let (Some((family, _)), Some((other, _))) = (&first.family, &second.family) else {
        return false;
    };
    *family == *other
}

/// Whether the desk issues the hazard, and it has a family.
fn has_family(h: &Hazard) -> bool
    ensures { result ≡ may_yield h.now }
{
    match facts(*h) {
        Some(known) => known.family.is_some(),
        None => false,
    }
}

/// Whether the row is live at `t` (unended, with an end after `t`) and its hazard has a family.
/// Rows for which this is false clash with none.
fn may_clash(t: Minute, row: &Row) -> bool
    ensures { result ≡ may_clash t row.now }
{
    is_live(row, t) && has_family(&row.event.hazard)
}

/// Whether both rows are of one zone and live at `t` (unended, with an end after `t`), and are of
/// two different events of one hazard family with periods that overlap.
fn clash(t: Minute, a: &Row, b: &Row) -> bool
    ensures { result ≡ clash t a.now b.now }
{
    a.zone == b.zone
        && is_live(a, t)
        && is_live(b, t)
        && overlaps(&a.period, &b.period)
        && a.event != b.event
        && are_kin(&a.event.hazard, &b.event.hazard)
}

/// Returns the clash of `first` with the first of `others` that it clashes with at `t`, or `None`
/// if it clashes with none. `others` are rows that come after `first`, in order by zone, then
/// event; only those of its zone are read.
fn clash_with(first: &Row, others: &[Row], t: Minute) -> Option<Clash>
    requires { IsStrictlySortedBy by_key (first.now ∷ others.now) }
    ensures { result ≡ option_map (clash_of first.now) (find (clash t first.now) others.now) }
{
    if !is_live(first, t) {
        return None;
    }
    for second in others {
        if second.zone != first.zone {
            return None;
        }
        if clash(t, first, second) {
            return Some(Clash {
                zone: first.zone,
                first: first.event,
                second: second.event,
            });
        }
    }
    None
}

/// Returns the clash of the first row that clashes at `t` with a row after it, paired with the
/// first such row after it, or `None` if no two rows clash. The rows are in order by zone, then
/// event. Two rows clash at `t` if they are of one zone, live at `t` (unended, with an end after
/// `t`), and of different events of one hazard family with periods that overlap.
fn first_clash(rows: &[Row], t: Minute) -> Option<Clash>
    requires { IsStrictlySortedBy by_key rows.now }
    ensures { result ≡ first_clash t rows.now }
{
    for (place, first) in rows.iter().enumerate() {
        let found = clash_with(first, &rows[place + 1..], t);
        if found.is_some() {
            return found;
        }
    }
    None
}

/// Returns those of the rows that are live at `t` (unended, with an end after `t`) and whose
/// hazards have a family, in their order. `Err` is out of memory.
fn those_that_may_clash(alloc: Global, rows: &[Row], t: Minute) -> Result<Vec<Row>, AllocError>
    ensures { IfOk result (λ some. some.items ≡ filter (may_clash t) rows.now) }
{
    rows.iter()
        .filter(|row| may_clash(t, row))
        .copied()
        .collect(alloc)
}

/// Whether the two rows clash at `t`: they are of one zone, live at `t` (unended, with an end after
/// `t`), and of different events of one hazard family with periods that overlap. The order of the
/// two does not matter.
fn clash_either(t: Minute, a: &Row, b: &Row) -> bool
    ensures { result ≡ clash_either t a.now b.now }
{
    clash(t, a, b) || clash(t, b, a)
}

/// Whether the row clashes at `t` with one of the rows `some`; `false` if there are none. Two rows
/// clash at `t` if they are of one zone, live at `t` (unended, with an end after `t`), and of
/// different events of one hazard family with periods that overlap.
fn clashes_among(t: Minute, some: &[Row], row: &Row) -> bool
    ensures { result ≡ clashes_among t some.now row.now }
{
    some.iter().any(|other| clash_either(t, row, other))
}

/// Whether `left`, the row that a line leaves, is marked as new or changed, and clashes at `t` with
/// one of the rows `some`. Two rows clash at `t` if they are of one zone, live at `t` (unended,
/// with an end after `t`), and of different events of one hazard family with periods that overlap.
fn is_new_clash(t: Minute, some: &[Row], left: &Left) -> bool
    ensures { result ≡ is_new_clash t some.now left.now }
{
    left.is_new && clashes_among(t, some, &left.row)
}

/// Whether one of `lefts`, the rows that lines leave, is marked as new or changed, and clashes at
/// `t` with one of the rows `some`. Two rows clash at `t` if they are of one zone, live at `t`
/// (unended, with an end after `t`), and of different events of one hazard family with periods that
/// overlap.
fn has_new_clash(t: Minute, some: &[Row], lefts: &[Left]) -> bool
    ensures { result ≡ list_any (is_new_clash t some.now) lefts.now }
{
    lefts.iter().any(|left| is_new_clash(t, some, left))
}

/// Returns the clash whose zone comes first, or `best` if both are in one zone. If one of the two
/// is `None`, it returns the other; if both are, `None`.
fn earlier_clash(best: Option<Clash>, found: Option<Clash>) -> Option<Clash>
    ensures { result ≡ earlier_clash best found }
{
    match best {
        None => found,
        Some(best) => match found {
            None => Some(best),
            Some(found) => {
                if found.zone.cmp(&best.zone).is_lt() {
                    Some(found)
                } else {
                    Some(best)
                }
            }
        },
    }
}

/// Returns the first clash, by the pair of events, among the rows that zone `z` has once `lines`
/// are applied to `rows`, or `Ok(None)` if there is none. `own` are those of `lines` that are of
/// zone `z`, in their order, and `t` is the issue minute. In `rows` no two unended rows of one zone
/// and family may have periods that overlap, so pairs are compared only if a new or changed row
/// clashes.
///
/// Source: docs/DECISIONS.md, "Plans".
fn clash_in(
    alloc: Global,
    rows: &BoardRows,
    lines: &[Line],
    own: &[Line],
    t: Minute,
    z: &Zone,
) -> FoundClash
    requires order { IsStrictlySortedBy by_key rows.now.rows }
    requires apart { EachToLater (λ a b. collide a b ≡ true → ⊥) rows.now.rows }
    requires own { own.now ≡ lines_of z.now lines.now }
    ensures { IfOk result
        (λ found. found ≡ first_clash t (slice_of z.now (rows_taken rows.now.rows t lines.now))) }
{
    let left = lefts(alloc, rows, own, t)?;
    let after = zone_rows_after_lines(alloc, rows, &left, t, z)?;
    if !has_new_clash(t, &after, &left) {
        return Ok(None);
    }
    let some = those_that_may_clash(alloc, &after, t)?;
    Ok(first_clash(&some, t))
}

/// Whether the line is of the zone.
fn is_of_zone(line: &Line, zone: &Zone) -> bool
    ensures { result ≡ same_zone line.now.zone zone.now }
{
    line.zone == *zone
}

/// Whether all lines are of the zone; `true` if there are no lines.
fn are_of_zone(lines: &[Line], zone: &Zone) -> bool
    ensures { result ≡ list_all (λ (line : AnyLine). same_zone line.zone zone.now) lines.now }
{
    lines.iter().all(|line| is_of_zone(line, zone))
}

/// Returns the zone of the lines, or `None` if there are no lines or they are of several zones.
fn only_zone(lines: &[Line]) -> Option<Zone>
    ensures { IfSome result
        (λ z. list_all (λ (line : AnyLine). same_zone line.zone z) lines.now ≡ true) }
{
    match lines {
        [] => None,
        [first, ..] => {
            let zone = first.zone;
            if are_of_zone(lines, &zone) {
                Some(zone)
            } else {
                None
            }
        }
    }
}

/// Returns the first clash, by zone, then by the pair of events, among the rows that are left once
/// `lines` are applied to `rows`, or `Ok(None)` if there is none. It reads the zones of `lines`
/// only, so in `rows` no two unended rows of one zone and family may have periods that overlap. `t`
/// is the issue minute, at which both rows of a clash are live.
///
/// # Errors
///
/// Out of memory.
pub fn clash_in_zones(alloc: Global, rows: &BoardRows, lines: &[Line], t: Minute) -> FoundClash
    requires order { IsStrictlySortedBy by_key rows.now.rows }
    requires apart { EachToLater (λ a b. collide a b ≡ true → ⊥) rows.now.rows }
    ensures { IfOk result (λ found. found ≡ first_clash t (rows_taken rows.now.rows t lines.now)) }
{
    let only = only_zone(lines);
    if let Some(zone) = &only {
        return clash_in(alloc, rows, lines, lines, t, zone);
    }
    let zones = lines_by_zone(alloc, lines)?;
    let mut seen = BTreeSet::new(alloc);
    let mut best = None;
    for line in lines {
        if seen.insert(line.zone)? {
            let own = lines_in(&zones, &line.zone);
            let found = clash_in(alloc, rows, lines, own, t, &line.zone)?;
            best = earlier_clash(best, found);
        }
    }
    Ok(best)
}

/// Returns the first clash, by zone, then by the pair of events, among the rows of all zones that
/// are left once `lines` are applied to `rows`, or `Ok(None)` if there is none. Each line is
/// applied to the row that its event had in its zone before all lines; a ROU line, or one that this
/// row does not allow, changes nothing. A clash is two rows of one zone that are live at `t`, the
/// issue minute, and are of different events of one hazard family with periods that overlap.
///
/// # Errors
///
/// Out of memory.
pub fn clash_anywhere(alloc: Global, rows: &BoardRows, lines: &[Line], t: Minute) -> FoundClash
    requires { IsStrictlySortedBy by_key rows.now.rows }
    ensures { IfOk result (λ found. found ≡ first_clash t (rows_taken rows.now.rows t lines.now)) }
{
    let after = rows_taken(alloc, rows, lines, t)?;
    Ok(first_clash(&after, t))
}
