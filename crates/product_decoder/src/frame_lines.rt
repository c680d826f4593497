//! The lines of an office and class that the frame of a product has. The event of each P-VTEC line
//! is looked up once for all zones of its segment.
ghost use Rattle.std.specs.Prelude.{◌≡◌, ◌++◌, map, IfOk, OnOk};
ghost use Rattle.event_life.specs.Lives.{judged_product};
ghost use Rattle.event_life.specs.Products.{lines_of};
ghost use Rattle.product_decoder.specs.Decoded.{decoded_of};
ghost use Rattle.product_decoder.specs.FrameLines.{event_pair, event_pairs, line_in, lines_in as lines_along, lines_in_segments};
ghost use Rattle.product_decoder.specs.ReaderModel.{said_by, product_of};
ghost use Rattle.product_decoder.specs.Takings.{IsKnown};
ghost use Rattle.row_index.specs.Verdicts.{lines_in, expand, AreApart, AreFound};

use crate::taken::{Known, end_of, event_of, is_vtec_by};
use hazard_types::{Class, Event, Flood, Line, List, Minute, Oom, Vtec, Zone};
use product_frame::{Frame, FrameSegment, Pair};
use row_index::{Part, RowIndex, Run};
use std::alloc::Global;

/// A P-VTEC line with the values of the H-VTEC line after it, and its event.
#[derive(Clone, Copy)]
pub struct EventPair {
    pub event: Event,
    pub vtec: Vtec,
    pub flood: Option<Flood>,
}

/// Returns the P-VTEC line and the H-VTEC values of `pair` with the event that the line names,
/// given `rows`, those just before the product, and its issue minute `t`. `known` is an earlier
/// P-VTEC line of the product with its event, or `None`; it only saves a look-up.
fn event_pair(rows: &RowIndex, t: Minute, known: &Option<Known>, pair: &Pair) -> EventPair
    requires { IsKnown rows.now t known.now }
    ensures { result ≡ event_pair rows.now t pair.now }
{
    EventPair {
        event: event_of(rows, t, known, &pair.vtec),
        vtec: pair.vtec,
        flood: pair.flood,
    }
}

/// Returns those of the pairs whose P-VTEC line is of the office and class, in their order, each
/// with its event. `rows` are the rows just before the product, and `t` is its issue minute.
fn event_pairs(
    alloc: Global,
    office: &[u8; 4],
    class: &Class,
    rows: &RowIndex,
    t: Minute,
    pairs: &[Pair],
) -> Result<List<EventPair>, Oom>
    ensures { IfOk result (λ said. said ≡ event_pairs office.now class.now rows.now t pairs.now) }
{
    let mut said = List::new(alloc);
    let mut known = None;
    for pair in pairs {
        if is_vtec_by(office, class, &pair.vtec) {
            let found = event_pair(rows, t, &known, pair);
            let event = found.event;
            let vtec = pair.vtec;
            said.extend(&[found])?;
            known = Some(Known { vtec, event });
        }
    }
    Ok(said)
}

/// Returns the line that a pair says of one zone. An end of zeros becomes until further notice.
fn line_in(zone: &Zone, said: &EventPair) -> Line
    ensures { result ≡ line_in zone.now said.now }
{
    Line {
        action: said.vtec.action,
        event: said.event,
        zone: *zone,
        begin: said.vtec.begin,
        end: end_of(&said.vtec.end),
        flood: said.flood,
    }
}

/// Returns the line that each pair says of one zone, in the order of the pairs.
fn lines_at(alloc: Global, zone: &Zone, said: &[EventPair]) -> Result<List<Line>, Oom>
    ensures { IfOk result (λ lines. lines ≡ map (line_in zone.now) said.now) }
{
    let mut lines = Vec::with_capacity(alloc, said.len())?;
    for pair in said {
        lines.extend_from_slice(&[line_in(zone, pair)])?;
    }
    Ok(List::from_vec(lines))
}

/// Appends to `parts` a part with `zones` and the lines that the pairs `said` say of the first of
/// them; does nothing if there are no zones. `Err` is out of memory.
fn add_part<'a>(
    alloc: Global,
    parts: &mut Vec<Part<'a>>,
    zones: &'a [Zone],
    said: &[EventPair],
) -> Result<(), Oom>
    ensures { OnOk result
        (lines_in parts.new.items ≡ lines_in parts.old.items ++ lines_along zones.now said.now) }
{
    match zones.first() {
        Some(first) => {
            let lines = lines_at(alloc, first, said)?;
            parts.push(Part { zones, lines })?;
            Ok(())
        }
        None => Ok(()),
    }
}

/// Returns the lines of an office and class as parts, one for each segment that has zones, in the
/// order of the segments: its zones, and its lines for the first of them. `rows` are the rows just
/// before the product, and `t` is its issue minute.
fn parts_of<'a>(
    alloc: Global,
    office: &[u8; 4],
    class: &Class,
    rows: &RowIndex,
    t: Minute,
    segments: &'a [FrameSegment],
) -> Result<List<Part<'a>>, Oom>
    ensures { IfOk result
        (λ parts. lines_in parts ≡ lines_in_segments office.now class.now rows.now t segments.now) }
{
    let mut parts = Vec::with_capacity(alloc, segments.len())?;
    for segment in segments {
        let pairs = segment.pairs.as_slice();
        let said = event_pairs(alloc, office, class, rows, t, pairs)?;
        add_part(alloc, &mut parts, segment.zones.as_slice(), said.as_slice())?;
    }
    Ok(List::from_vec(parts))
}

/// Returns the lines of an office and class that a product's frame has, as parts, one for each
/// segment that has zones: its zones, and its lines for the first of them. `rows` are the rows just
/// before the product.
#[tactic(auto, using(crate::proofs::FrameLemmas::frame_told))]
fn parts_by_frame<'a>(
    alloc: Global,
    office: &[u8; 4],
    class: &Class,
    rows: &RowIndex,
    frame: &'a Frame,
) -> Result<List<Part<'a>>, Oom>
    ensures { IfOk result (λ parts. lines_in parts ≡ lines_of rows.now frame.now.issue
        (said_by office.now class.now (decoded_of frame.now).pairs)) }
{
    parts_of(
        alloc,
        office,
        class,
        rows,
        frame.issue,
        frame.segments.as_slice(),
    )
}

/// Returns the lines of an office and class that a product's frame has, judged by `rows`, those
/// just before the product. They come as runs in the order of the text. A run has zones in which
/// the same lines found the same lives and have the same breaches; no two lines of a run have the
/// same event.
///
/// # Errors
///
/// Out of memory.
pub fn judged_by_frame(
    alloc: Global,
    office: &[u8; 4],
    class: &Class,
    rows: &RowIndex,
    frame: &Frame,
) -> Result<List<Run>, Oom>
    ensures told { IfOk result (λ runs. expand runs
        ≡ judged_product rows.now (product_of office.now class.now (decoded_of frame.now))) }
    ensures found { IfOk result (λ runs. AreFound rows.now runs) }
    ensures apart { IfOk result (λ runs. AreApart runs) }
{
    let parts = parts_by_frame(alloc, office, class, rows, frame)?;
    rows.judge_parts(alloc, frame.issue, parts.as_slice())
}
