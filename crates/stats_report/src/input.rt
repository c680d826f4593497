//! Reads an input piece by piece and counts its products.
ghost use Rattle.std.specs.Prelude.{◌≡◌, ◌≤◌, ◌<◌, ◌+◌, true, false, length, Ok, OnOk};
ghost use Rattle.product_decoder.specs.Feeding.{GivesNone};
ghost use Rattle.program_ends.specs.Lines.{most_bytes};
ghost use Rattle.program_ends.specs.Steps.{IsCauseOf};
ghost use Rattle.stats_report.specs.Readings.{IsFresh, TakesNext, TakesEach, ReadsTo};

use crate::tally::Tally;
use archive_report::{Asked, read_product};
use byte_streams::Source;
use hazard_types::Oom;
use product_decoder::Feed;
use program_ends::{Pieces, Stop};
use std::alloc::Global;

/// Takes the next finished product out of the feed and adds it to the tally, and returns whether
/// there was one. A product is finished once the heading line of the next one is whole, or the end
/// of the feed is marked. `asked` has the office and class whose lines count, and the minute before
/// which minutes are counted.
fn take_next(alloc: Global, asked: &Asked, feed: &mut Feed, tally: &mut Tally) -> Result<bool, Oom>
    requires { tally.old.count < 2000000000 }
    ensures ended { feed.new.ended ≡ feed.old.ended }
    ensures some { result ≡ Ok true → TakesNext asked.now feed.old feed.new tally.old tally.new }
    ensures none { result ≡ Ok false → GivesNone feed.old feed.new × (tally.new ≡ tally.old) }
{
    match feed.take(alloc)? {
        Some(text) => {
            let reading = read_product(alloc, text.as_slice())?;
            tally.take(alloc, asked, &reading)?;
            Ok(true)
        }
        None => Ok(false),
    }
}

/// Takes each finished product out of the feed, in the order of the input, and adds it to the
/// tally. A product is finished once the heading line of the next one is whole, or the end of the
/// feed is marked. `asked` has the office and class whose lines count, and the minute before which
/// minutes are counted.
fn take_each(alloc: Global, asked: &Asked, feed: &mut Feed, tally: &mut Tally) -> Result<(), Oom>
    requires { tally.old.count + length feed.old.rest < 2000000000 }
    ensures { OnOk result (TakesEach asked.now feed.old feed.new tally.old tally.new) }
{
    let mut more = true;
    while more {
        more = take_next(alloc, asked, feed, tally)?;
    }
    Ok(())
}

/// Reads an input of at most `limit` bytes to its end, and adds its products to the tally, which
/// must have none before. `asked` has the office and class whose lines count, and the minute before
/// which minutes are counted.
///
/// # Errors
///
/// `Stop::Read` if a read failed, `Stop::TooLong` if the input has more than `limit` bytes (one
/// byte more than the limit is then read), and `Stop::OutOfMemory`.
pub fn count_input<S: Source>(
    alloc: Global,
    asked: &Asked,
    limit: usize,
    tally: &mut Tally,
    input: &mut S,
) -> Result<(), Stop>
    requires limit { limit ≤ most_bytes }
    requires fresh { IsFresh asked.now tally.old }
    ensures run { ReadsTo asked.now limit (S.inflow input.old).left (S.inflow input.new).left
        tally.new result }
    ensures read { IsCauseOf Stop.Read
        (S.inflow input.old).faults (S.inflow input.new).faults result }
{
    let mut feed = Feed::new(alloc);
    let mut pieces = Pieces::up_to(limit);
    let mut buffer = [0u8; 65_536];
    while let Some(count) = pieces.next(input, &mut buffer)? {
        feed.push(alloc, &buffer[..count])?;
        take_each(alloc, asked, &mut feed, tally)?;
    }
    feed.end();
    take_each(alloc, asked, &mut feed, tally)?;
    Ok(())
}
