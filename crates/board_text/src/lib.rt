//! The lines of a board: zone, event, period and H-VTEC values of each row that is shown.
//!
//! For crates that show a board. One begins with `write_board`, or with `write_row` for one row.
#![tactic(auto)]

ghost use Rattle.std.specs.Prelude.{◌≡◌, ◌≤◌, ◌++◌, IfOk, OnOk, OnErr, None};
ghost use Rattle.board_text.specs.Rows.{period_text, flood_part, row_line, board_text, HasFirstRows};

use hazard_types::{
    Flood, Oom, Period, Row, Text, end_text, event_text, stamp, write_event_text, zone_text,
};
use hvtec_string::hvtec_columns;
use std::alloc::Global;

/// The capacity with which `row_text` starts a line, in bytes.
const LINE: usize = 64;

/// Appends a period, begin and end in UTC, as `180103T1530Z-180104T0000Z`. An end until further
/// notice is written as zeros, `000000T0000Z`.
fn write_period(out: &mut Text, period: &Period) -> Result<(), Oom>
    ensures { OnOk result (out.new ≡ out.old ++ period_text period.now) }
{
    out.extend(&stamp(period.begin))?;
    out.push(b'-')?;
    out.extend(&end_text(&period.end))
}

/// Appends a blank and the H-VTEC string of `flood`, or nothing if it is `None`.
fn write_flood(out: &mut Text, flood: &Option<Flood>) -> Result<(), Oom>
    ensures { OnOk result (out.new ≡ out.old ++ flood_part flood.now) }
{
    match flood {
        Some(flood) => {
            out.push(b' ')?;
            out.extend(&hvtec_columns(flood))
        }
        None => Ok(()),
    }
}

/// Returns the line of a row, which ends with LF: zone, event and period, as `MDZ003 WS.W.0001.2018
/// 180103T1530Z-180104T0000Z`, with a blank and the H-VTEC string after them if the row has H-VTEC
/// values. An end until further notice is written as zeros.
fn row_text(alloc: Global, row: &Row) -> Result<Text, Oom>
    ensures { IfOk result (λ text. text ≡ row_line row.now) }
{
    let mut text = Text::from_vec(Vec::with_capacity(alloc, LINE)?);
    text.extend(&zone_text(&row.zone))?;
    text.push(b' ')?;
    write_event_text(alloc, &mut text, &row.event)?;
    text.push(b' ')?;
    write_period(&mut text, &row.period)?;
    write_flood(&mut text, &row.flood)?;
    text.push(b'\n')?;
    Ok(text)
}

/// Returns the 48 bytes, LF included, of the line of a row: zone, event and period, as `MDZ003
/// WS.W.0001.2018 180103T1530Z-180104T0000Z`. The row must have no H-VTEC values, and its event's
/// number and year must be at most 9,999.
#[tactic(auto, using(hazard_types::proofs::NamesBack::wide_four))]
fn row_columns(row: &Row) -> [u8; 48]
    requires number { row.now.event.etn ≤ 9999 }
    requires year { row.now.event.year ≤ 9999 }
    requires flood { row.now.flood ≡ None }
    ensures { result ≡ row_line row.now }
{
    let mut line = *b"ssK### pp.s.####.yyyy yymmddThhmmZ-yymmddThhmmZ\n";
    line[35..47].copy_from_slice(&end_text(&row.period.end));
    line[22..34].copy_from_slice(&stamp(row.period.begin));
    line[7..21].copy_from_slice(&event_text(&row.event));
    line[0..6].copy_from_slice(&zone_text(&row.zone));
    line
}

/// Appends the line of a row, which ends with LF: zone, event and period in UTC, as `MDZ003
/// WS.W.0001.2018 180103T1530Z-180104T0000Z`, with a blank and the H-VTEC string after them if the
/// row has H-VTEC values. An end until further notice is written as zeros. When it fails, `out` is
/// as before.
///
/// # Errors
///
/// Out of memory.
///
/// Source: docs/CLIENTS.md, "A line of the board".
pub fn write_row(alloc: Global, out: &mut Text, row: &Row) -> Result<(), Oom>
    ensures ok { OnOk result (out.new ≡ out.old ++ row_line row.now) }
    ensures err { OnErr result (out.new ≡ out.old) }
{
    if row.flood.is_none() && row.event.etn <= 9999 && row.event.year <= 9999 {
        return out.extend(&row_columns(row));
    }
    let line = row_text(alloc, row)?;
    out.extend(line.as_slice())
}

/// Appends a line for each of the rows, in their order, with zone, event, period and H-VTEC values.
/// When it fails, `out` has, after what it had, the lines of the first rows, each whole, or none.
///
/// # Errors
///
/// Out of memory.
pub fn write_board(alloc: Global, out: &mut Text, rows: &[Row]) -> Result<(), Oom>
    ensures ok { OnOk result (out.new ≡ out.old ++ board_text rows.now) }
    ensures err { OnErr result (HasFirstRows out.old out.new rows.now) }
{
    for row in rows {
        write_row(alloc, out, row)?;
    }
    Ok(())
}
