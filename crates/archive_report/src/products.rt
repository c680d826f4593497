//! Reads the products of an input one by one and writes a line for each.
ghost use Rattle.std.specs.Prelude.{◌≡◌, ◌<◌, ◌+◌, true, false, length, Ok, IfOk, OnOk, IfErr};
ghost use Rattle.product_decoder.specs.Decoded.{decode};
ghost use Rattle.product_decoder.specs.Feeding.{GivesNone};
ghost use Rattle.program_ends.specs.Steps.{IsCauseOf};
ghost use Rattle.archive_report.specs.Pieces.{IsTally, WritesNext, WritesEach, WritesPiece, HaltsPiece};
ghost use Rattle.archive_report.specs.Readings.{said_of};

use crate::lines::write_product;
use crate::tally::{Reading, Tally};
use crate::words::Asked;
use byte_streams::{Sink, write_whole};
use desk_traits::Failed;
use hazard_types::{List, Oom, Or, Text};
use product_decoder::Feed;
use product_frame::read_frame;
use program_ends::Stop;
use std::alloc::Global;

/// Returns what is read of `bytes`, the text of one product from its heading line on: in the outer
/// `Ok`, either `Ok` with the product's frame, or `Err` with its first fault.
///
/// # Errors
///
/// Out of memory.
pub fn read_product(alloc: Global, bytes: &[u8]) -> Result<Reading, Oom>
    ensures { IfOk result (λ reading. said_of reading ≡ decode bytes.now) }
{
    match read_frame(alloc, bytes) {
        Ok(frame) => Ok(Ok(frame)),
        Err(Or::No(fault)) => Ok(Err(fault)),
        Err(Or::OutOfMemory) => Err(Oom),
    }
}

/// Takes the next finished product out of `feed`, adds it to `tally` and appends its line to `out`.
/// Returns `false` if the feed has none, and `tally` and `out` are then as before. A product is
/// finished once the heading line of the next one is whole, or the end of the feed is marked.
fn write_next(
    alloc: Global,
    asked: &Asked,
    feed: &mut Feed,
    tally: &mut Tally,
    out: &mut Text,
) -> Result<bool, Oom>
    requires tally { IsTally asked.now tally.old }
    requires few { tally.old.count < 2000000000 }
    ensures ended { feed.new.ended ≡ feed.old.ended }
    ensures some { result ≡ Ok true
        → WritesNext asked.now feed.old feed.new tally.old tally.new out.old out.new }
    ensures none { result ≡ Ok false
        → GivesNone feed.old feed.new × (tally.new ≡ tally.old) × (out.new ≡ out.old) }
{
    match feed.take(alloc)? {
        Some(text) => {
            let reading = read_product(alloc, text.as_slice())?;
            write_product(alloc, out, asked, tally.count + 1, &reading)?;
            tally.take(alloc, asked, &reading)?;
            Ok(true)
        }
        None => Ok(false),
    }
}

/// Takes each finished product out of `feed`, in the order of the input, adds it to `tally` and
/// appends its line to `out`. A product is finished once the heading line of the next one is whole,
/// or the end of the feed is marked.
fn write_each(
    alloc: Global,
    asked: &Asked,
    feed: &mut Feed,
    tally: &mut Tally,
    out: &mut Text,
) -> Result<(), Oom>
    requires tally { IsTally asked.now tally.old }
    requires few { tally.old.count + length feed.old.rest < 2000000000 }
    ensures { OnOk result
        (WritesEach asked.now feed.old feed.new tally.old tally.new out.old out.new) }
{
    let mut more = true;
    while more {
        more = write_next(alloc, asked, feed, tally, out)?;
    }
    Ok(())
}

/// Takes each finished product out of `feed`, in the order of the input, adds it to `tally`, and
/// then writes the lines of them all to `output`. A product is finished once the heading line of
/// the next one is whole, or the end of the feed is marked.
///
/// # Errors
///
/// `Stop::Write` if the write failed; a prefix of the lines was then written. `Stop::OutOfMemory`
/// if memory ran out; nothing was then written.
pub fn write_products<K: Sink>(
    alloc: Global,
    asked: &Asked,
    feed: &mut Feed,
    tally: &mut Tally,
    output: &mut K,
) -> Result<(), Stop>
    requires tally { IsTally asked.now tally.old }
    requires few { tally.old.count + length feed.old.rest < 2000000000 }
    ensures told { OnOk result (WritesPiece asked.now feed.old feed.new tally.old tally.new
        (K.outflow output.old) (K.outflow output.new)) }
    ensures halted { IfErr result (HaltsPiece asked.now feed.old tally.old
        (K.outflow output.old) (K.outflow output.new)) }
    ensures cause { IsCauseOf Stop.Write
        (K.outflow output.old).faults (K.outflow output.new).faults result }
{
    let mut lines = List::new(alloc);
    write_each(alloc, asked, feed, tally, &mut lines)?;
    match write_whole(output, lines.as_slice()) {
        Ok(()) => Ok(()),
        Err(Failed) => Err(Stop::Write),
    }
}
