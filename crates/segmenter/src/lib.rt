//! The segments of a product: the zones that share their lines, and when each segment expires. A
//! group is a zone with its lines of one FL event, or with all its other lines. Groups with equal
//! lists of lines make one segment.
//!
//! For crates that write products. One begins with `segments` and `expiry`.
#![tactic(auto)]

ghost use Rattle.std.specs.Prelude.{IfOk};
ghost use Rattle.segmenter.specs.Segments.{AreSegments};

mod expiries;
mod groups;
mod laws;
mod one_group;
mod zones;

pub use expiries::expiry;
use groups::groups_of;
use hazard_types::{Line, List, Oom, Segment};
pub use laws::{
    expiry_is_later, lines_are_in_order, segments_are_determined, segments_say_each_line_once,
    segments_say_the_lines,
};
use one_group::{are_of_one_group, segments_of_one};
use std::alloc::Global;
use zones::{classes_of, heads_of, segments_of};

/// Returns the segments of a product's lines, by first zone, then by the event of the first line.
/// The zones of a segment are in order, each once; its lines are by action (UPG, CAN, EXP, NEW,
/// EXB, EXA, EXT, CON, COR, ROU), then by event, ties as in `lines`. For n lines, of which at most
/// k are of one group, it makes O(n log n) comparisons, and moves at most k lines for each that it
/// places.
///
/// # Errors
///
/// Out of memory.
///
/// Source: NWS Instruction 10-1701, segmented products; docs/PRODUCTS.md, "Segments";
/// docs/DECISIONS.md, "Segments".
pub fn segments(alloc: Global, lines: &List<Line>) -> Result<List<Segment>, Oom>
    ensures { IfOk result (λ segments. AreSegments lines.now segments) }
{
    let lines = lines.as_slice();
    if are_of_one_group(lines) {
        return segments_of_one(alloc, lines);
    }
    let groups = groups_of(alloc, lines)?;
    let heads = heads_of(alloc, groups)?;
    let classes = classes_of(alloc, &heads)?;
    segments_of(alloc, &classes)
}
