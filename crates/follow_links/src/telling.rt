//! What a run writes.
ghost use Rattle.std.specs.Prelude.{◌≡◌, ◌≢◌, ◌++◌, ◌⊎◌, ℕ, List as Seq, None, Some, IfOk, OnOk};
ghost use Rattle.program_ends.specs.Ends.{HasWritten};
ghost use Rattle.event_life.specs.Products.{rows_of};
ghost use Rattle.event_life.specs.Shown.{shown_at};
ghost use Rattle.follow_core.specs.Hearing.{place_of};
ghost use Rattle.follow_links.specs.Telling.{IsToldAs, bad_line, report, place_line, shown_front};

use crate::asks::with_number;
use board_text::write_board;
use byte_streams::{Sink, write_whole};
use follow_core::Follower;
use hazard_types::{Minute, Oom, Text, stamp, write_number};
use program_ends::{End, end_run};
use std::alloc::Global;

/// Writes a text, and returns `None`, or `WriteFault` if a write failed, and then a prefix of the
/// text was written.
fn write_text<K: Sink>(output: &mut K, text: &[u8]) -> Option<End>
    ensures written { (written : Seq ℕ)
        × HasWritten text.now written (K.outflow output.old) (K.outflow output.new) result }
    ensures ends { (result ≡ None) ⊎ (result ≡ Some End.WriteFault) }
{
    match write_whole(output, text) {
        Ok(()) => None,
        Err(_) => Some(End::WriteFault),
    }
}

/// Writes the text that a run ends with, and returns the exit status: `status`, which must not be
/// 8, or 8 if a write failed.
pub fn write_run_text<K: Sink>(output: &mut K, text: &[u8], status: u8) -> u8
    requires { status ≢ 8 }
    ensures { IsToldAs text.now status (K.outflow output.old) (K.outflow output.new) result }
{
    let end = write_text(output, text);
    let ended = end_run(output, end);
    if ended == 0 { status } else { ended }
}

/// Returns the line `fault BadAnswer PLACE`, with LF, for a bad answer to the question for the
/// product after the first `place` products.
///
/// # Errors
///
/// Out of memory.
pub fn bad_line(alloc: Global, place: u32) -> Result<Text, Oom>
    ensures { IfOk result (λ text. text ≡ bad_line place) }
{
    with_number(alloc, b"fault BadAnswer ", place, b"\n")
}

/// Appends the line `place PLACE`, with LF, to `out`; PLACE is the number of products that the
/// follower has taken.
fn write_place(alloc: Global, out: &mut Text, place: u32) -> Result<(), Oom>
    ensures { OnOk result (out.new ≡ out.old ++ place_line place) }
{
    out.extend(b"place ")?;
    write_number(alloc, out, place as usize)?;
    out.push(b'\n')
}

/// Appends the line `shown STAMP COUNT`, with LF, to `out`; STAMP is of `minute`, and COUNT is the
/// number of rows that are live then.
fn write_shown(alloc: Global, out: &mut Text, minute: Minute, count: usize) -> Result<(), Oom>
    ensures { OnOk result (out.new ≡ out.old ++ shown_front minute count) }
{
    out.extend(b"shown ")?;
    out.extend(&stamp(minute))?;
    out.push(b' ')?;
    write_number(alloc, out, count)?;
    out.push(b'\n')
}

/// Returns the lines `place PLACE` and `shown STAMP COUNT`, then the lines of the rows that the
/// follower's products leave live at `minute`, by zone and then by event, and then `last` as it is.
/// PLACE is the number of products that were taken, and COUNT that of the rows.
///
/// # Errors
///
/// Out of memory.
pub fn report(alloc: Global, follower: &Follower, minute: Minute, last: &[u8]) -> Result<Text, Oom>
    ensures { IfOk result (λ text. text ≡ report (place_of follower.now) minute
        (shown_at minute (rows_of follower.now.products)) ++ last.now) }
{
    let rows = follower.shown(alloc, minute)?;
    let mut text = Text::new(alloc);
    write_place(alloc, &mut text, follower.place())?;
    write_shown(alloc, &mut text, minute, rows.len())?;
    write_board(alloc, &mut text, rows.as_slice())?;
    text.extend(last)?;
    Ok(text)
}
