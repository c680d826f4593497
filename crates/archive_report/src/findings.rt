//! The part of a report after the lines of the products.
ghost use Rattle.std.specs.Prelude.{◌≡◌, ◌≤◌, ◌++◌, ◌+◌, length, flat_map, IfOk, OnOk, IfErr};
ghost use Rattle.std.specs.List.{All};
ghost use Rattle.event_life.specs.Products.{rows_of};
ghost use Rattle.event_life.specs.Shown.{shown_at};
ghost use Rattle.byte_streams.specs.Flows.{Adds};
ghost use Rattle.product_decoder.specs.ReaderModel.{lives_of, found_of};
ghost use Rattle.program_ends.specs.Steps.{IsCauseOf};
ghost use Rattle.archive_report.specs.Pieces.{Halts, Pages, count_listed, end_text, rest_text};
ghost use Rattle.archive_report.specs.Readings.{IsNumbered};
ghost use Rattle.archive_report.specs.Report.{life_line, lives_text, breach_line, findings_text, shown_text, last_line};

use crate::entries::write_entries;
use crate::lines::{write_breach, write_breach_count, write_shown_line};
use crate::lives::LastLife;
use crate::page::{flush, flush_if_full};
use crate::tally::Tally;
use crate::words::Asked;
use byte_streams::Sink;
use hazard_types::{List, Text};
use product_decoder::{EventLives, Found, GapFound, Reader, Track};
use program_ends::Stop;
use std::alloc::Global;

/// Appends the line of a life to `out`, then writes `out` to `output` and empties it if it has
/// 65,536 bytes or more. `last` keeps the texts of the life's event and steps for the next line,
/// which often has the same. If it fails, a prefix of `out` with the line was written.
fn write_life<K: Sink>(
    alloc: Global,
    out: &mut Text,
    output: &mut K,
    last: &mut LastLife,
    life: &Track,
) -> Result<(), Stop>
    ensures told { OnOk result (Pages (K.outflow output.old) (K.outflow output.new)
        out.old out.new (life_line life.now)) }
    ensures halted { IfErr result (Halts (K.outflow output.old) (K.outflow output.new)
        (out.old ++ life_line life.now)) }
    ensures cause { IsCauseOf Stop.Write
        (K.outflow output.old).faults (K.outflow output.new).faults result }
{
    last.put(alloc, out, life)?;
    flush_if_full(alloc, out, output)
}

/// Appends the `life` lines of an event to `out`, one for each of its zones, by zone. Each time
/// `out` then has 65,536 bytes or more it is written to `output` and emptied. If it fails, a prefix
/// of `out` with the lines was written.
fn write_event<K: Sink>(
    alloc: Global,
    out: &mut Text,
    output: &mut K,
    event: &EventLives,
) -> Result<(), Stop>
    ensures told { OnOk result (Pages (K.outflow output.old) (K.outflow output.new)
        out.old out.new (lives_text event.now)) }
    ensures halted { IfErr result (Halts (K.outflow output.old) (K.outflow output.new)
        (out.old ++ lives_text event.now)) }
    ensures cause { IsCauseOf Stop.Write
        (K.outflow output.old).faults (K.outflow output.new).faults result }
{
    let lives = event.tracks(alloc)?;
    let mut last = LastLife::none(alloc);
    for life in lives.as_slice() {
        write_life(alloc, out, output, &mut last, life)?;
    }
    Ok(())
}

/// Appends the `life` lines of the events to `out`, event after event in the order of `events`, and
/// within an event by zone. Each time `out` then has 65,536 bytes or more it is written to `output`
/// and emptied. If it fails, a prefix of `out` with the lines was written.
fn write_events<K: Sink>(
    alloc: Global,
    out: &mut Text,
    output: &mut K,
    events: &[EventLives],
) -> Result<(), Stop>
    ensures told { OnOk result (Pages (K.outflow output.old) (K.outflow output.new)
        out.old out.new (flat_map lives_text events.now)) }
    ensures halted { IfErr result (Halts (K.outflow output.old) (K.outflow output.new)
        (out.old ++ flat_map lives_text events.now)) }
    ensures cause { IsCauseOf Stop.Write
        (K.outflow output.old).faults (K.outflow output.new).faults result }
{
    for event in events {
        write_event(alloc, out, output, event)?;
    }
    Ok(())
}

/// Appends the `life` lines of all events of the reader to `out`, by event, then zone. Each time
/// `out` then has 65,536 bytes or more it is written to `output` and emptied. If it fails, a prefix
/// of `out` with the lines was written.
fn write_lives<K: Sink>(
    alloc: Global,
    out: &mut Text,
    output: &mut K,
    reader: &Reader,
) -> Result<(), Stop>
    ensures told { OnOk result (Pages (K.outflow output.old) (K.outflow output.new)
        out.old out.new (flat_map life_line (lives_of reader.now.products))) }
    ensures halted { IfErr result (Halts (K.outflow output.old) (K.outflow output.new)
        (out.old ++ flat_map life_line (lives_of reader.now.products))) }
    ensures cause { IsCauseOf Stop.Write
        (K.outflow output.old).faults (K.outflow output.new).faults result }
{
    let events = reader.lives_by_event(alloc)?;
    write_events(alloc, out, output, events.as_slice())
}

/// Appends a `breach` line for each of `breaches`, in their order, to `out`, and writes `out` to
/// `output` and empties it each time it has 65,536 bytes or more. `numbers` has, for each product
/// without a fault in the order of the input, its number among all products of the input, counted
/// from 1. If it fails, a prefix of `out` with the lines was written.
fn write_breaches<K: Sink>(
    alloc: Global,
    out: &mut Text,
    output: &mut K,
    numbers: &[usize],
    breaches: &[Found],
) -> Result<(), Stop>
    requires { All (IsNumbered (length numbers.now)) breaches.now }
    ensures told { OnOk result (Pages (K.outflow output.old) (K.outflow output.new)
        out.old out.new (flat_map (breach_line numbers.now) breaches.now)) }
    ensures halted { IfErr result (Halts (K.outflow output.old) (K.outflow output.new)
        (out.old ++ flat_map (breach_line numbers.now) breaches.now)) }
    ensures cause { IsCauseOf Stop.Write
        (K.outflow output.old).faults (K.outflow output.new).faults result }
{
    for found in breaches {
        write_breach(alloc, out, numbers, found)?;
        flush_if_full(alloc, out, output)?;
    }
    Ok(())
}

/// Returns the sum of `faults`, which is how many products have a fault, and the numbers of
/// breaches and of gaps.
fn total(faults: usize, breaches: &[Found], gaps: &[GapFound]) -> usize
    requires { faults ≤ 2000000000 }
    ensures { result ≡ faults + length breaches.now + length gaps.now }
{
    faults + breaches.len() + gaps.len()
}

/// Appends the `life`, `breach` and `gap` lines of the tally, in this order, to `out`, and returns
/// how many faults, breaches and gaps the tally has in all. Each time `out` then has 65,536 bytes
/// or more it is written to `output` and emptied; what is left at the end stays in `out`. If it
/// fails, a prefix of `out` with the lines was written.
fn write_findings<K: Sink>(
    alloc: Global,
    out: &mut Text,
    output: &mut K,
    tally: &Tally,
) -> Result<usize, Stop>
    requires numbered { All (IsNumbered (length tally.now.numbers))
        (found_of tally.now.reader.products) }
    requires few { tally.now.faults ≤ 2000000000 }
    ensures told { OnOk result (Pages (K.outflow output.old) (K.outflow output.new)
        out.old out.new (findings_text tally.now.numbers tally.now.reader.products)) }
    ensures count { IfOk result (λ n. n ≡ count_listed tally.now) }
    ensures halted { IfErr result (Halts (K.outflow output.old) (K.outflow output.new)
        (out.old ++ findings_text tally.now.numbers tally.now.reader.products)) }
    ensures cause { IsCauseOf Stop.Write
        (K.outflow output.old).faults (K.outflow output.new).faults result }
{
    write_lives(alloc, out, output, &tally.reader)?;
    let breaches = tally.reader.breaches(alloc)?;
    let gaps = tally.reader.gaps(alloc)?;
    write_breaches(
        alloc,
        out,
        output,
        tally.numbers.as_slice(),
        breaches.as_slice(),
    )?;
    write_entries(alloc, out, output, gaps.as_slice())?;
    Ok(total(tally.faults, breaches.as_slice(), gaps.as_slice()))
}

/// Appends the line `shown STAMP n` for the minute of `asked` to `out`, and after it the lines of
/// the n rows of the reader that are live at that minute, by zone, then event. Each time `out` has
/// 65,536 bytes or more after the line of a row, it is written to `output` and emptied. If it
/// fails, a prefix of `out` with the lines was written.
fn write_shown<K: Sink>(
    alloc: Global,
    out: &mut Text,
    output: &mut K,
    asked: &Asked,
    reader: &Reader,
) -> Result<(), Stop>
    ensures told { OnOk result (Pages (K.outflow output.old) (K.outflow output.new)
        out.old out.new (shown_text asked.now.minute
        (shown_at asked.now.minute (rows_of reader.now.products)))) }
    ensures halted { IfErr result (Halts (K.outflow output.old) (K.outflow output.new)
        (out.old ++ shown_text asked.now.minute
        (shown_at asked.now.minute (rows_of reader.now.products)))) }
    ensures cause { IsCauseOf Stop.Write
        (K.outflow output.old).faults (K.outflow output.new).faults result }
{
    let rows = reader.shown(alloc, asked.minute)?;
    write_shown_line(alloc, out, asked.minute, rows.len())?;
    write_entries(alloc, out, output, rows.as_slice())
}

/// Appends the last line, `breaches n`, to `out`, and writes all of `out` to `output`. n is
/// `listed`, how many faults, breaches and gaps the report lists in all. If it fails, a prefix of
/// `out` with the line was written.
fn write_last<K: Sink>(
    alloc: Global,
    out: &mut Text,
    output: &mut K,
    listed: usize,
) -> Result<(), Stop>
    ensures told { OnOk result (Adds (K.outflow output.old).taken (K.outflow output.new).taken
        (out.old ++ last_line listed)) }
    ensures halted { IfErr result (Halts (K.outflow output.old) (K.outflow output.new)
        (out.old ++ last_line listed)) }
    ensures cause { IsCauseOf Stop.Write
        (K.outflow output.old).faults (K.outflow output.new).faults result }
{
    write_breach_count(alloc, out, listed)?;
    flush(alloc, out, output)
}

/// Appends the line `shown STAMP n` for the minute of `asked`, the lines of the n rows that are
/// live at that minute, and the last line to `out`, and writes all of it to `output`. `listed` is
/// how many faults, breaches and gaps `tally` has in all. If it fails, a prefix of `out` with the
/// lines was written.
fn write_end<K: Sink>(
    alloc: Global,
    out: &mut Text,
    output: &mut K,
    asked: &Asked,
    tally: &Tally,
    listed: usize,
) -> Result<(), Stop>
    requires { listed ≡ count_listed tally.now }
    ensures told { OnOk result (Adds (K.outflow output.old).taken (K.outflow output.new).taken
        (out.old ++ end_text asked.now tally.now)) }
    ensures halted { IfErr result (Halts (K.outflow output.old) (K.outflow output.new)
        (out.old ++ end_text asked.now tally.now)) }
    ensures cause { IsCauseOf Stop.Write
        (K.outflow output.old).faults (K.outflow output.new).faults result }
{
    write_shown(alloc, out, output, asked, &tally.reader)?;
    write_last(alloc, out, output, listed)
}

/// Writes the part of the report that follows the `product` lines: lives, breaches, gaps, the rows
/// that are live at the minute of `asked`, and the last line. Returns how many faults, breaches and
/// gaps the whole report lists. `tally` has what was found in all products of the input.
///
/// # Errors
///
/// `Stop::Write` if a write failed, and `Stop::OutOfMemory`. A prefix of this part was then
/// written.
///
/// Source: docs/ARCHIVE.md, "The lines".
pub fn write_rest<K: Sink>(
    alloc: Global,
    asked: &Asked,
    tally: &Tally,
    output: &mut K,
) -> Result<usize, Stop>
    requires numbered { All (IsNumbered (length tally.now.numbers))
        (found_of tally.now.reader.products) }
    requires few { tally.now.faults ≤ 2000000000 }
    ensures told { OnOk result (Adds (K.outflow output.old).taken (K.outflow output.new).taken
        (rest_text asked.now tally.now)) }
    ensures count { IfOk result (λ n. n ≡ count_listed tally.now) }
    ensures halted { IfErr result (Halts (K.outflow output.old) (K.outflow output.new)
        (rest_text asked.now tally.now)) }
    ensures cause { IsCauseOf Stop.Write
        (K.outflow output.old).faults (K.outflow output.new).faults result }
{
    let mut out = List::new(alloc);
    let listed = write_findings(alloc, &mut out, output, tally)?;
    write_end(alloc, &mut out, output, asked, tally, listed)?;
    Ok(listed)
}
