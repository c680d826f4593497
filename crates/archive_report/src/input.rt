//! Reads an input piece by piece.
ghost use Rattle.std.specs.Prelude.{◌≤◌};
ghost use Rattle.byte_streams.specs.Flows.{streams};
ghost use Rattle.program_ends.specs.Steps.{IsCauseOf};
ghost use Rattle.program_ends.specs.Lines.{most_bytes};
ghost use Rattle.archive_report.specs.Pieces.{IsTally, IsFresh, WritesTo, ReadsAll};

use crate::products::write_products;
use crate::tally::Tally;
use crate::words::Asked;
use byte_streams::{Sink, Source};
use product_decoder::Feed;
use program_ends::{Pieces, Stop};
use std::alloc::Global;

/// Reads `input`, of at most `limit` bytes, to its end, adds each of its products to `tally` and
/// writes the product's line to `output`. The lines of the products that a read finishes are
/// written before the next read. `tally` must be a new one for the office and class of `asked`.
///
/// # Errors
///
/// `Stop::Read` or `Stop::Write` if a read or a write failed, `Stop::TooLong` if the input has more
/// than `limit` bytes (one byte more than the limit is then read), and `Stop::OutOfMemory`.
pub fn write_input_report<S: Source, K: Sink>(
    alloc: Global,
    asked: &Asked,
    limit: usize,
    tally: &mut Tally,
    input: &mut S,
    output: &mut K,
) -> Result<(), Stop>
    requires limit { limit ≤ most_bytes }
    requires tally { IsTally asked.now tally.old }
    requires fresh { IsFresh tally.old }
    ensures run { WritesTo asked.now limit
        (streams (S.inflow input.old) (K.outflow output.old))
        (streams (S.inflow input.new) (K.outflow output.new))
        (ReadsAll asked.now tally.new) result }
    ensures read { IsCauseOf Stop.Read
        (S.inflow input.old).faults (S.inflow input.new).faults result }
    ensures write { IsCauseOf Stop.Write
        (K.outflow output.old).faults (K.outflow output.new).faults result }
{
    let mut feed = Feed::new(alloc);
    let mut pieces = Pieces::up_to(limit);
    let mut buffer = [0u8; 65_536];
    while let Some(count) = pieces.next(input, &mut buffer)? {
        feed.push(alloc, &buffer[..count])?;
        write_products(alloc, asked, &mut feed, tally, output)?;
    }
    feed.end();
    write_products(alloc, asked, &mut feed, tally, output)
}
