//! The lines of a report. Each function adds one to a text.
ghost use Rattle.std.specs.Prelude.{◌≡◌, ◌++◌, length, OnOk};
ghost use Rattle.archive_report.specs.Report.{title, counted_text, faulty_line, product_line, breach_line, spaced, gap_line, shown_front, last_line};
ghost use Rattle.archive_report.specs.Readings.{said_of, IsNumbered};

use crate::counts::count_by_frame;
use crate::tally::Reading;
use crate::texts::{breach_name, write_frame_fault, write_stamp, write_where};
use crate::words::Asked;
use hazard_types::{Minute, Oom, Text, hazard_text, push_four_digits_or_more, write_number};
use product_decoder::{Found, GapFound};
use product_frame::FrameFault;
use std::alloc::Global;

/// Appends `product K` and a blank, the start of a product's line. K is `number`, the product's
/// number among all products of the input, counted from 1.
fn write_title(alloc: Global, out: &mut Text, number: usize) -> Result<(), Oom>
    ensures { OnOk result (out.new ≡ out.old ++ title number) }
{
    out.extend(b"product ")?;
    write_number(alloc, out, number)?;
    out.push(b' ')
}

/// Appends the stamp of a minute in UTC, a blank, a count in decimal and LF, as `180103T1530Z 12`
/// and LF.
fn write_counted(alloc: Global, out: &mut Text, minute: Minute, count: usize) -> Result<(), Oom>
    ensures { OnOk result (out.new ≡ out.old ++ counted_text minute count) }
{
    write_stamp(out, minute)?;
    out.push(b' ')?;
    write_number(alloc, out, count)?;
    out.push(b'\n')
}

/// Appends the line `product K fault NAME`, which ends with LF, for a product whose frame has a
/// fault. K is `number`, the product's number among all products of the input, counted from 1. NAME
/// is the name of the fault, followed by a blank and the number of its line if the fault has one.
fn write_faulty(alloc: Global, out: &mut Text, number: usize, fault: FrameFault) -> Result<(), Oom>
    ensures { OnOk result (out.new ≡ out.old ++ faulty_line number fault) }
{
    write_title(alloc, out, number)?;
    out.extend(b"fault ")?;
    write_frame_fault(alloc, out, fault)?;
    out.push(b'\n')
}

/// Appends the line of product `number`, counted from 1 among all products of the input: `product K
/// IDENTIFIER STAMP n`, or with a fault `product K fault NAME`. STAMP is the issue minute in UTC,
/// and n is how many P-VTEC lines of the office and class of `asked` the product has, each counted
/// once for each zone of its segment. The line ends with LF.
///
/// # Errors
///
/// Out of memory.
///
/// Source: docs/ARCHIVE.md, "The lines".
pub fn write_product(
    alloc: Global,
    out: &mut Text,
    asked: &Asked,
    number: usize,
    reading: &Reading,
) -> Result<(), Oom>
    ensures { OnOk result (out.new
        ≡ out.old ++ product_line asked.now number (said_of reading.now)) }
{
    match reading {
        Ok(frame) => {
            let count = count_by_frame(asked, frame)?;
            write_title(alloc, out, number)?;
            out.extend(frame.identifier.as_slice())?;
            out.push(b' ')?;
            write_counted(alloc, out, frame.issue, count)
        },
        Err(fault) => write_faulty(alloc, out, number, *fault),
    }
}

/// Appends the line `breach K EVENT ZONE NAME`, as `breach 2 WS.W.0001.2018 MDZ003 NotLive`, which
/// ends with LF. K is `numbers[found.product - 1]`, which must be there: `numbers` has, for each
/// product without a fault in the order of the input, its number among all products of the input,
/// counted from 1.
///
/// # Errors
///
/// Out of memory.
pub fn write_breach(
    alloc: Global,
    out: &mut Text,
    numbers: &[usize],
    found: &Found,
) -> Result<(), Oom>
    requires { IsNumbered (length numbers.now) found.now }
    ensures { OnOk result (out.new ≡ out.old ++ breach_line numbers.now found.now) }
{
    out.extend(b"breach ")?;
    write_number(alloc, out, numbers[found.product as usize - 1])?;
    out.push(b' ')?;
    write_where(alloc, out, &found.event, &found.zone)?;
    out.push(b' ')?;
    out.extend(breach_name(found.breach))?;
    out.push(b'\n')
}

/// Appends a blank and `n` in decimal, with zeros before it up to four digits, or with five digits
/// if it is 10,000 or more.
fn write_spaced(alloc: Global, out: &mut Text, n: u16) -> Result<(), Oom>
    ensures { OnOk result (out.new ≡ out.old ++ spaced n) }
{
    out.push(b' ')?;
    push_four_digits_or_more(alloc, out, n)
}

/// Adds the line `gap HAZARD YEAR WANTED FOUND`, as `gap WS.W 2018 0001 0007`, for an event that
/// was opened with the event number FOUND where WANTED was the next one of its hazard and year.
/// YEAR and both numbers have at least four digits.
///
/// # Errors
///
/// Out of memory.
pub fn write_gap(alloc: Global, out: &mut Text, gap: &GapFound) -> Result<(), Oom>
    ensures { OnOk result (out.new ≡ out.old ++ gap_line gap.now) }
{
    out.extend(b"gap ")?;
    out.extend(&hazard_text(&gap.hazard))?;
    write_spaced(alloc, out, gap.year)?;
    write_spaced(alloc, out, gap.wanted)?;
    write_spaced(alloc, out, gap.found)?;
    out.push(b'\n')
}

/// Appends the line `shown STAMP n`, which ends with LF. STAMP is `minute` in UTC, and n is
/// `count`, the number of rows that are live at that minute. The lines of these rows are to follow
/// it; they are not added here.
///
/// # Errors
///
/// Out of memory.
pub fn write_shown_line(
    alloc: Global,
    out: &mut Text,
    minute: Minute,
    count: usize,
) -> Result<(), Oom>
    ensures { OnOk result (out.new ≡ out.old ++ shown_front minute count) }
{
    out.extend(b"shown ")?;
    write_counted(alloc, out, minute, count)
}

/// Appends the last line of a report, `breaches n`, which ends with LF. n is `listed`, how many
/// faults, breaches and gaps the report lists in all.
///
/// # Errors
///
/// Out of memory.
pub fn write_breach_count(alloc: Global, out: &mut Text, listed: usize) -> Result<(), Oom>
    ensures { OnOk result (out.new ≡ out.old ++ last_line listed) }
{
    out.extend(b"breaches ")?;
    write_number(alloc, out, listed)?;
    out.push(b'\n')
}
