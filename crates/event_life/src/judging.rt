//! Judges the lines of a product, each by the rows just before it.
ghost use Rattle.std.specs.Prelude.{◌≡◌, ◌||◌, not, Some, None, if◌then◌else◌, IfOk};
ghost use Rattle.event_life.specs.declared.life.Breach.TheVariants.{Twice};
ghost use Rattle.event_life.specs.Higher.{may_yield, outranks};
ghost use Rattle.event_life.specs.Products.{end_of, line_of, is_routine, is_second, is_overlapped, life_at, row_at, around_but_higher, judged};
ghost use Rattle.event_life.specs.Table.{breach_of_line};

use crate::life::{Breach, breach_of_line};
use crate::periods::{is_live, overlaps};
use crate::putting::{is_routine, is_second, rows_for_higher};
use crate::rows::{around, event_of, life_at, row_at};
use hazard_types::desk_hazards::facts;
use hazard_types::{End, Flood, Hazard, Line, List, Minute, Oom, Row, Vtec, Zone};
use std::alloc::Global;

/// Returns the end that a P-VTEC string prints. Zeros, which are `None`, mean until further notice.
fn end_of(end: &Option<Minute>) -> End
    ensures { result ≡ end_of end.now }
{
    match end {
        Some(minute) => End::At(*minute),
        None => End::Ufn,
    }
}

/// Returns what a product says of an event in one zone: the values of one P-VTEC string, with the
/// H-VTEC values `flood`. `rows` are the rows just before the product, and `t` is its issue minute.
/// The year of the event, which the text lacks, is that of the open event with its hazard and
/// number, the latest one of several; for NEW, or if none is open, it is the year of `t`.
pub fn line_of(rows: &[Row], t: Minute, zone: &Zone, vtec: &Vtec, flood: &Option<Flood>) -> Line
    ensures { result
        ≡ line_of rows.now t (record { zone = zone.now; vtec = vtec.now; flood = flood.now }) }
{
    Line {
        action: vtec.action,
        event: event_of(rows, t, vtec),
        zone: *zone,
        begin: vtec.begin,
        end: end_of(&vtec.end),
        flood: *flood,
    }
}

/// Whether the desk issues the hazard and the hazard has a family. A UPG line of such a hazard is
/// lawful only if a live row of a higher rank of the family overlaps it.
fn may_yield(hazard: &Hazard) -> bool
    ensures { result ≡ may_yield hazard.now }
{
    match facts(*hazard) {
        Some(facts) => facts.family.is_some(),
        None => false,
    }
}

/// Whether the desk issues both hazards, they are of one family, and `high` has the higher rank in
/// it.
///
/// Source: docs/HAZARDS.md, "The hazards of the desk" (family, rank).
fn outranks(high: &Hazard, low: &Hazard) -> bool
    ensures { result ≡ outranks high.now low.now }
{
    let (Some(first), Some(second)) = (facts(*high), facts(*low)) else {
        return false;
    };
    let (Some((family, rank)), Some((other, under))) = (&first.family, &second.family) else {
        return false;
    };
    *family == *other && *under < *rank
}

/// Whether a row of `rows` in the zone of `own` is live at minute `t`, is of the same family with a
/// higher rank, and overlaps `own`. A row is live if no line has ended it and its end is after `t`;
/// two rows overlap if each begins before the other ends.
fn is_overlapped(rows: &[Row], t: Minute, own: &Row) -> bool
    ensures { result ≡ is_overlapped rows.now t (Some own.now) }
{
    rows.iter().any(|row| {
        row.zone == own.zone
            && is_live(row, t)
            && outranks(&row.event.hazard, &own.event.hazard)
            && overlaps(&row.period, &own.period)
    })
}

/// Whether a UPG line has the row of a higher rank of the family that it needs, or needs none
/// because the desk does not issue its hazard or this hazard has no family. Such a row is one of
/// `after`, the rows after the product with those of UPG lines ended; it is in the same zone, live
/// at the issue minute `t`, and overlaps the row of the line. The row of the line is looked up in
/// `rows`, those just before the product; if one is needed and it is not there, the answer is
/// false.
pub fn has_higher(rows: &[Row], t: Minute, after: &[Row], line: &Line) -> bool
    ensures { result ≡ (not (may_yield line.now.event.hazard)
        || is_overlapped after.now t (row_at rows.now line.now.event line.now.zone)) }
{
    if !may_yield(&line.event.hazard) {
        return true;
    }
    match row_at(rows, &line.event, &line.zone) {
        Some(own) => is_overlapped(after, t, &own),
        None => false,
    }
}

/// Returns the first rule that a line of a product breaks, or `None` for a lawful or a ROU line.
/// `rows` are the rows just before the product, `t` is its issue minute, and `earlier` are the
/// product's lines before this one; the breach is `Twice` if one of them, other than ROU, has the
/// same event and zone. `higher` is whether a UPG line has the row of a higher rank that it needs,
/// or needs none.
pub fn breach_in(
    rows: &[Row],
    t: Minute,
    earlier: &[Line],
    line: &Line,
    higher: bool,
) -> Option<Breach>
    ensures { result ≡ (if is_routine line.now.action then None
        else (if is_second earlier.now line.now then Some Twice
        else breach_of_line (life_at rows.now line.now) line.now t
        (around_but_higher rows.now t line.now higher))) }
{
    if is_routine(&line.action) {
        None
    } else if is_second(earlier, line) {
        Some(Breach::Twice)
    } else {
        breach_of_line(&life_at(rows, line), line, t, around(rows, t, line, higher))
    }
}

/// Returns the lines of a product in their order, each with the first rule that it breaks, or
/// `None` for a lawful or a ROU line. `rows` are the rows just before the product, in order by
/// zone, then event, and `t` is its issue minute.
///
/// # Errors
///
/// Out of memory.
///
/// Source: NWS Instruction 10-1703, P-VTEC action codes; docs/DECISIONS.md, "Lives".
#[tactic(auto, unfolding(crate::specs::Products::breach_in))]
pub fn judge(
    alloc: Global,
    rows: &[Row],
    t: Minute,
    lines: &[Line],
) -> Result<List<(Line, Option<Breach>)>, Oom>
    ensures { IfOk result (λ found. found ≡ judged rows.now t lines.now) }
{
    let after = rows_for_higher(alloc, rows, t, lines)?;
    let mut found = Vec::with_capacity(alloc, lines.len())?;
    for (place, line) in lines.iter().enumerate() {
        let higher = has_higher(rows, t, &after, line);
        let breach = breach_in(rows, t, &lines[..place], line, higher);
        found.push((*line, breach))?;
    }
    Ok(List::from_vec(found))
}
