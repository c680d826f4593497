//! Reads one product.
ghost use Rattle.std.specs.Prelude.{◌≡◌, ◌++◌, map, Ok, Err, IfOk, OnOk};
ghost use Rattle.hazard_types.specs.Given.{Gives};
ghost use Rattle.product_frame.specs.Frame.{FrameOf};
ghost use Rattle.product_frame.specs.Faults.{FrameFaultOf};
ghost use Rattle.product_frame.specs.ZoneLinesOf.{lines_of_zone, lines_of_zones, lines_of_segments};
ghost use Rattle.product_frame.specs.declared.frame.Frame.{Frame as FrameValue};
ghost use Rattle.product_frame.specs.declared.frame.FrameFault.{FrameFault as FaultValue};
ghost use Rattle.product_decoder.specs.Decoded.{pair_of, decoded_of, IsDecoded, decode};

use crate::types::{Decoded, ZonePair};
use hazard_types::{List, Oom, Or, Zone};
use product_frame::{FrameFault, FrameSegment, Pair, read_frame};
use std::alloc::Global;

/// Appends to `out` what each of the pairs (a P-VTEC line with its H-VTEC values) says of the zone,
/// in the order of the pairs. `Err` is out of memory.
fn add_zone(out: &mut List<ZonePair>, zone: &Zone, pairs: &[Pair]) -> Result<(), Oom>
    ensures { OnOk result (out.new ≡ out.old ++ map pair_of (lines_of_zone zone.now pairs.now)) }
{
    for pair in pairs {
        out.push(ZonePair {
            zone: *zone,
            vtec: pair.vtec,
            flood: pair.flood,
        })?;
    }
    Ok(())
}

/// Appends to `out` what each of the pairs (a P-VTEC line with its H-VTEC values) says of each
/// zone: for the first zone all pairs in their order, then for the next. `Err` is out of memory.
fn add_zones(out: &mut List<ZonePair>, zones: &[Zone], pairs: &[Pair]) -> Result<(), Oom>
    ensures { OnOk result (out.new ≡ out.old ++ map pair_of (lines_of_zones zones.now pairs.now)) }
{
    for zone in zones {
        add_zone(out, zone, pairs)?;
    }
    Ok(())
}

/// Returns what the P-VTEC lines of segments say of the zones: by segment, then zone, then line,
/// each in the order of the text.
fn pairs_of(alloc: Global, segments: &List<FrameSegment>) -> Result<List<ZonePair>, Oom>
    ensures { IfOk result (λ pairs. pairs ≡ map pair_of (lines_of_segments segments.now)) }
{
    let mut out = List::new(alloc);
    for segment in segments.as_slice() {
        add_zones(&mut out, segment.zones.as_slice(), segment.pairs.as_slice())?;
    }
    Ok(out)
}

/// Returns what the first product of a text says: its identifier, its issue minute, and each P-VTEC
/// line in each zone of its segment. What comes before its heading line is skipped.
///
/// # Errors
///
/// The first fault of its frame, with its line, where the heading line is line 1; or out of memory.
#[tactic(auto, unfolding(product_frame::specs::ZoneLinesOf::zone_lines_of))]
pub fn decode(alloc: Global, bytes: &[u8]) -> Result<Decoded, Or<FrameFault>>
    // What is read is what the frame of the text says.
    ensures found { IfOk result (IsDecoded bytes.now) }
    // If the text has a frame, it is read, unless memory runs out.
    ensures only { (f : FrameValue) → FrameOf bytes.now f → Gives result (Ok (decoded_of f)) }
    // What is refused has this fault first, and each first fault is reported, unless memory runs
    // out.
    ensures fault { (x : FaultValue) → result ≡ Err (Or.No x) → FrameFaultOf bytes.now x }
    ensures fault_only { (x : FaultValue) → FrameFaultOf bytes.now x → Gives result (Err x) }

    // The same as one function of the bytes.
    ensures exact { Gives result (decode bytes.now) }
{
    let frame = read_frame(alloc, bytes)?;
    let pairs = pairs_of(alloc, &frame.segments)?;
    Ok(Decoded {
        identifier: frame.identifier,
        issue: frame.issue,
        pairs,
    })
}
