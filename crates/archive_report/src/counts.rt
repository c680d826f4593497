//! How many lines of an office and class a product has, each counted once for each zone of its
//! segment.
ghost use Rattle.std.specs.Prelude.{◌≡◌, ◌+◌, ◌*◌, length, filter, IfOk};
ghost use Rattle.product_decoder.specs.Decoded.{decoded_of};
ghost use Rattle.product_decoder.specs.FrameLines.{is_pair_by};
ghost use Rattle.product_decoder.specs.ReaderModel.{said_by};
ghost use Rattle.archive_report.specs.Readings.{count_in};

use crate::words::Asked;
use hazard_types::Oom;
use product_decoder::is_vtec_by;
use product_frame::{Frame, FrameSegment, Pair};

/// Returns how many of the pairs, each a P-VTEC line with the H-VTEC line that may follow it, are
/// of the office and class of `asked`.
fn count_by(asked: &Asked, pairs: &[Pair]) -> usize
    ensures { result ≡ length (filter (is_pair_by asked.now.office asked.now.class) pairs.now) }
{
    let mut count = 0;
    for pair in pairs {
        if is_vtec_by(&asked.office, &asked.class, &pair.vtec) {
            count += 1;
        }
    }
    count
}

/// Returns `count + zones * pairs`, or `Oom` if it overflows.
fn count_with(count: usize, zones: usize, pairs: usize) -> Result<usize, Oom>
    ensures { IfOk result (λ n. n ≡ count + zones * pairs) }
{
    let Some(more) = zones.checked_mul(pairs) else {
        return Err(Oom);
    };
    match count.checked_add(more) {
        Some(count) => Ok(count),
        None => Err(Oom),
    }
}

/// Returns how many P-VTEC lines of the office and class of `asked` the segments have, each counted
/// once for each zone of its segment, or `Oom` if the count overflows.
fn count_in(asked: &Asked, segments: &[FrameSegment]) -> Result<usize, Oom>
    ensures { IfOk result (λ count. count ≡ count_in asked.now segments.now) }
{
    let mut count = 0;
    for segment in segments {
        let pairs = count_by(asked, segment.pairs.as_slice());
        count = count_with(count, segment.zones.len(), pairs)?;
    }
    Ok(count)
}

/// Returns how many P-VTEC lines of the office and class of `asked` a frame has, each counted once
/// for each zone of its segment.
///
/// # Errors
///
/// `Oom` if the count overflows, which no text that fits in memory causes.
///
/// Source: docs/DECISIONS.md, "The archive's report".
pub fn count_by_frame(asked: &Asked, frame: &Frame) -> Result<usize, Oom>
    ensures { IfOk result (λ count. count
        ≡ length (said_by asked.now.office asked.now.class (decoded_of frame.now).pairs)) }
{
    count_in(asked, frame.segments.as_slice())
}
