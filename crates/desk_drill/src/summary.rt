//! The summary of a drill.
ghost use Rattle.std.specs.Prelude.{◌≡◌, ◌++◌, IfOk, OnOk};
ghost use Rattle.desk_drill.specs.Keeping.{IsKept, drilled_of};
ghost use Rattle.desk_drill.specs.Tellings.{count_line, event_lines, request_lines, summary};

use crate::desk::DrillDesk;
use hazard_types::{List, Oom, Text, write_number};
use std::alloc::Global;

/// Appends a line of the summary: a name, a blank, `n` in decimal digits, and LF.
fn write_count(alloc: Global, out: &mut Text, name: &[u8], n: usize) -> Result<(), Oom>
    ensures { OnOk result (out.new ≡ out.old ++ count_line name.now n) }
{
    out.extend(name)?;
    out.push(b' ')?;
    write_number(alloc, out, n)?;
    out.push(b'\n')
}

/// Appends the first three lines of the summary, `accepted`, `refused` and `products`: a name, a
/// blank, how many there were of these, and LF.
fn write_requests(alloc: Global, out: &mut Text, desk: &DrillDesk) -> Result<(), Oom>
    ensures { OnOk result (out.new ≡ out.old ++ request_lines (drilled_of desk.now)) }
{
    write_count(alloc, out, b"accepted", desk.accepted as usize)?;
    write_count(alloc, out, b"refused", desk.refused as usize)?;
    write_count(alloc, out, b"products", desk.office.products() as usize)
}

/// Appends the last three lines of the summary: `events` with the number of events opened, `shown`
/// with that of rows live at the minute of the last entry, and `breaches` with that of the faults
/// that a reader finds in the texts. Each is a name, a blank, a number and LF.
fn write_events(alloc: Global, out: &mut Text, desk: &DrillDesk) -> Result<(), Oom>
    requires { IsKept desk.now }
    ensures { OnOk result (out.new ≡ out.old ++ event_lines (drilled_of desk.now)) }
{
    let shown = desk.shown(alloc)?;
    let breaches = desk.breaches(alloc)?;
    write_count(alloc, out, b"events", desk.opened.len())?;
    write_count(alloc, out, b"shown", shown)?;
    write_count(alloc, out, b"breaches", breaches)
}

/// Returns the six lines of the summary, each a name, a blank, a number and LF: the requests
/// `accepted` and `refused`, the `products`, the `events` opened, the rows `shown` live at the
/// minute of the last entry, and the `breaches`, faults that a reader finds in the texts.
///
/// # Errors
///
/// Out of memory.
#[tactic(auto, unfolding(crate::specs::Tellings::summary))]
pub fn summary(alloc: Global, desk: &DrillDesk) -> Result<Text, Oom>
    requires { IsKept desk.now }
    ensures { IfOk result (λ text. text ≡ summary (drilled_of desk.now)) }
{
    let mut text = List::new(alloc);
    write_requests(alloc, &mut text, desk)?;
    write_events(alloc, &mut text, desk)?;
    Ok(text)
}
