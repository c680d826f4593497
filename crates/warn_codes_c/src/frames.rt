//! Reads frames of products.
ghost use Rattle.std.specs.Prelude.{◌≡◌, ◌++◌, map, flat_map, Ok, Err, IfOk, OnOk};
ghost use Rattle.product_frame.specs.Frames.{read_first_frame};
ghost use Rattle.product_frame.specs.Frame.{FrameOf};
ghost use Rattle.product_frame.specs.Faults.{FrameFaultOf};
ghost use Rattle.product_frame.specs.declared.frame.Frame.{Frame as FrameValue};
ghost use Rattle.product_frame.specs.declared.frame.FrameFault.{FrameFault as FaultValue};
ghost use Rattle.warn_codes_c.specs.Handing.{placed};
ghost use Rattle.warn_codes_c.specs.Frames.{padded_to_six, bbb_of, flood_fields_or_zeros, line_fields, segment_fields, zones_in, lines_in, frame_fault_status, fault_fields, frame_fields, rows_of, fit, ReadsFrame, IsToldFrame};

use crate::fields::{FloodFields, VtecFields, ZoneFields, flood_fields, vtec_fields};
use crate::handing::place;
use crate::status::{NO_MEMORY, OK, TOO_SMALL};
use crate::ugc::add_zones;
use hazard_types::{Flood, List, Oom, Or};
use product_frame::{Frame, FrameFault, FrameSegment, Pair, read_frame};
use std::alloc::Global;

/// What a product says before its segments, and how many segments, zones and P-VTEC lines it has in
/// all; or where its first fault is, and all other fields are then 0.
///
/// Source: NWS Instruction 10-1701, segmented products.
#[repr(C)]
#[derive(Clone, Copy)]
pub struct FrameFields {
    pub segments: usize,
    pub zones: usize,
    pub lines: usize,
    /// The 1-based line of the fault, counted from the heading line; 0 without a fault, or if it is
    /// of no line.
    pub fault_line: usize,
    /// Minutes since 2000-01-01T00:00Z UTC.
    pub issue: u32,
    /// The TTAAii of the heading.
    pub heading: [u8; 6],
    /// Filled up with zeros; zeros alone if it has more than six characters.
    pub identifier: [u8; 6],
    /// The CCCC of the heading.
    pub office: [u8; 4],
    /// The BBB of the heading; zeros if there is none.
    pub bbb: [u8; 3],
    /// The day of the month in the heading, with hour and minute in UTC.
    pub day: u8,
    pub hour: u8,
    pub minute: u8,
}

/// How many zones and P-VTEC lines a segment has, and when it expires.
#[repr(C)]
#[derive(Clone, Copy)]
pub struct SegmentFields {
    pub zones: usize,
    pub lines: usize,
    /// The day of the month on which it expires, with hour and minute in UTC.
    pub day: u8,
    pub hour: u8,
    pub minute: u8,
}

/// A P-VTEC line, with the values of the H-VTEC line after it.
#[repr(C)]
#[derive(Clone, Copy)]
pub struct LineFields {
    pub vtec: VtecFields,
    pub flood: FloodFields,
    /// 1 if there is an H-VTEC line; otherwise `flood` is zeros.
    pub has_flood: u8,
}

/// The rows of a frame: its segments, and their zones and lines, one segment after another.
#[derive(Drop)]
struct FrameRows {
    segments: List<SegmentFields>,
    zones: List<ZoneFields>,
    lines: List<LineFields>,
}

/// Returns the bytes, filled up with zeros to six, or six zeros if there are more than six bytes.
fn padded_to_six(text: &[u8]) -> [u8; 6]
    ensures { result ≡ padded_to_six text.now }
{
    let mut six = [0; 6];
    if text.len() <= 6 {
        six[..text.len()].copy_from_slice(text);
    }
    six
}

/// Returns the three letters of a heading's BBB group, or three zeros if it has none.
fn bbb_of(bbb: &Option<[u8; 3]>) -> [u8; 3]
    ensures { result ≡ bbb_of bbb.now }
{
    match bbb {
        Some(letters) => *letters,
        None => [0; 3],
    }
}

/// Returns H-VTEC values in the fixed layout for C; for `None` all fields are zero.
pub fn flood_fields_or_zeros(flood: &Option<Flood>) -> FloodFields
    ensures { result ≡ flood_fields_or_zeros flood.now }
{
    match flood {
        Some(flood) => flood_fields(flood),
        None => FloodFields {
            begin: 0,
            crest: 0,
            end: 0,
            location: [0; 5],
            severity: 0,
            cause: [0; 2],
            record_status: [0; 2],
        },
    }
}

/// Returns a P-VTEC line, with the H-VTEC line after it if there is one, in the fixed layout for C.
fn line_fields(pair: &Pair) -> LineFields
    ensures { result ≡ line_fields pair.now }
{
    LineFields {
        vtec: vtec_fields(&pair.vtec),
        flood: flood_fields_or_zeros(&pair.flood),
        has_flood: u8::from(pair.flood.is_some()),
    }
}

/// Returns a segment's fields for C: how many zones and P-VTEC lines it has, and its expiry.
fn segment_fields(segment: &FrameSegment) -> SegmentFields
    ensures { result ≡ segment_fields segment.now }
{
    SegmentFields {
        zones: segment.zones.len(),
        lines: segment.pairs.len(),
        day: segment.expiry.day,
        hour: segment.expiry.hour,
        minute: segment.expiry.minute,
    }
}

/// Appends the P-VTEC lines of a segment to `rows`, each with its H-VTEC line, in order.
fn add_lines(rows: &mut List<LineFields>, pairs: &[Pair]) -> Result<(), Oom>
    ensures { OnOk result (rows.new ≡ rows.old ++ map line_fields pairs.now) }
{
    for pair in pairs {
        rows.push(line_fields(pair))?;
    }
    Ok(())
}

/// Appends the fields of each segment to `rows`, in order.
fn add_segments(rows: &mut List<SegmentFields>, segments: &[FrameSegment]) -> Result<(), Oom>
    ensures { OnOk result (rows.new ≡ rows.old ++ map segment_fields segments.now) }
{
    for segment in segments {
        rows.push(segment_fields(segment))?;
    }
    Ok(())
}

/// Appends the zones of all segments to `rows`, one segment after another.
fn add_all_zones(rows: &mut List<ZoneFields>, segments: &[FrameSegment]) -> Result<(), Oom>
    ensures { OnOk result (rows.new ≡ rows.old ++ flat_map zones_in segments.now) }
{
    for segment in segments {
        add_zones(rows, segment.zones.as_slice())?;
    }
    Ok(())
}

/// Appends the P-VTEC lines of all segments to `rows`, one segment after another.
fn add_all_lines(rows: &mut List<LineFields>, segments: &[FrameSegment]) -> Result<(), Oom>
    ensures { OnOk result (rows.new ≡ rows.old ++ flat_map lines_in segments.now) }
{
    for segment in segments {
        add_lines(rows, segment.pairs.as_slice())?;
    }
    Ok(())
}

/// Returns the segments of a frame, and the zones and P-VTEC lines of all of them, in the fixed
/// layout for C.
fn rows_of(alloc: Global, frame: &Frame) -> Result<FrameRows, Oom>
    ensures { IfOk result (λ rows. rows ≡ rows_of frame.now) }
{
    let mut segments = List::new(alloc);
    add_segments(&mut segments, frame.segments.as_slice())?;
    let mut zones = List::new(alloc);
    add_all_zones(&mut zones, frame.segments.as_slice())?;
    let mut lines = List::new(alloc);
    add_all_lines(&mut lines, frame.segments.as_slice())?;
    Ok(FrameRows {
        segments,
        zones,
        lines,
    })
}

/// Returns the fields of a frame for C; its counts of segments, zones and P-VTEC lines are those of
/// `rows`.
fn frame_fields(frame: &Frame, rows: &FrameRows) -> FrameFields
    ensures { result ≡ frame_fields frame.now rows.now }
{
    let heading = frame.heading.ttaaii;
    let office = frame.heading.office;
    FrameFields {
        segments: rows.segments.len(),
        zones: rows.zones.len(),
        lines: rows.lines.len(),
        fault_line: 0,
        issue: frame.issue.get(),
        heading,
        identifier: padded_to_six(frame.identifier.as_slice()),
        office,
        bbb: bbb_of(&frame.heading.bbb),
        day: frame.heading.day.day,
        hour: frame.heading.day.hour,
        minute: frame.heading.day.minute,
    }
}

/// Returns the status of a frame's fault, 20 for `NoHeading` to 26 for `BadVtec` in the order of
/// `FrameFault`, and the 1-based line of the fault, counted from the heading line, or 0 if it is of
/// no line.
pub fn frame_fault_status(fault: FrameFault) -> (u32, usize)
    ensures { result ≡ frame_fault_status fault }
{
    match fault {
        FrameFault::NoHeading => (20, 0),
        FrameFault::NoIdentifier => (21, 0),
        FrameFault::NoIssueTime => (22, 0),
        FrameFault::IssueDisagrees => (23, 0),
        FrameFault::NoSegmentEnd { line } => (24, line),
        FrameFault::BadUgc { line } => (25, line),
        FrameFault::BadVtec { line } => (26, line),
    }
}

/// Returns the fields of a frame whose first fault is on the 1-based line `fault_line`, or of no
/// line if that is 0; all other fields are zero.
fn fault_fields(fault_line: usize) -> FrameFields
    ensures { result ≡ fault_fields fault_line }
{
    FrameFields {
        segments: 0,
        zones: 0,
        lines: 0,
        fault_line,
        issue: 0,
        heading: [0; 6],
        identifier: [0; 6],
        office: [0; 4],
        bbb: [0; 3],
        day: 0,
        hour: 0,
        minute: 0,
    }
}

/// Writes the segments, zones and lines of `rows` to the start of their buffers if each buffer has
/// room for all of its own, and returns whether they have. If not, no buffer is changed.
fn hand_out_rows(
    rows: &FrameRows,
    segments: &mut [SegmentFields],
    zones: &mut [ZoneFields],
    lines: &mut [LineFields],
) -> bool
    ensures fit { result ≡ fit rows.now segments.old zones.old lines.old }
    ensures segments { segments.new ≡ placed result rows.now.segments segments.old }
    ensures zones { zones.new ≡ placed result rows.now.zones zones.old }
    ensures lines { lines.new ≡ placed result rows.now.lines lines.old }
{
    let fit = rows.segments.len() <= segments.len()
        && rows.zones.len() <= zones.len()
        && rows.lines.len() <= lines.len();
    if fit {
        place(rows.segments.as_slice(), segments);
        place(rows.zones.as_slice(), zones);
        place(rows.lines.as_slice(), lines);
    }
    fit
}

/// Writes the result of reading a frame to the caller's buffers, and returns the status: `OK`,
/// `TOO_SMALL`, `NO_MEMORY`, or 20 to 26 for the fault. The fields, or the line of the fault, go to
/// `out`, and the segments, zones and lines to the three buffers. For `TOO_SMALL`, if one of the
/// three has no room for its rows, none of the three is written, and for `NO_MEMORY` nothing is.
fn fill_frame(
    alloc: Global,
    answer: Result<Frame, Or<FrameFault>>,
    segments: &mut [SegmentFields],
    zones: &mut [ZoneFields],
    lines: &mut [LineFields],
    out: &mut FrameFields,
) -> u32
    ensures { IsToldFrame answer result segments.old segments.new zones.old zones.new lines.old
        lines.new out.old out.new }
{
    let frame = match answer {
        Ok(frame) => frame,
        Err(Or::No(fault)) => {
            let (status, line) = frame_fault_status(fault);
            *out = fault_fields(line);
            return status;
        }
        Err(Or::OutOfMemory) => return NO_MEMORY,
    };
    let Ok(rows) = rows_of(alloc, &frame) else {
        return NO_MEMORY;
    };
    *out = frame_fields(&frame, &rows);
    if hand_out_rows(&rows, segments, zones, lines) {
        OK
    } else {
        TOO_SMALL
    }
}

/// Reads the frame of the first product of a text, and writes its fields to `out` and its segments,
/// zones and lines, one segment after another, to the buffers. Returns `OK`; `TOO_SMALL` if a
/// buffer has no room for all of its rows, with their counts in `out`; 20 to 26 for the first
/// fault, in the order of `FrameFault`, with its line in `out`; or `NO_MEMORY`, and then nothing is
/// written.
///
/// Source: NWS Instruction 10-1701, segmented products.
#[unsafe(no_mangle)]
pub extern "C" fn warn_codes_c_read_frame(
    alloc: Global,
    text: &[u8],
    segments: &mut [SegmentFields],
    zones: &mut [ZoneFields],
    lines: &mut [LineFields],
    out: &mut FrameFields,
) -> u32
    // If the text has a frame it is read, and the first fault of one that has none is reported,
    // unless memory runs out.
    ensures only { (f : FrameValue) →
        FrameOf text.now f →
        ReadsFrame (Ok f) result segments.old segments.new zones.old zones.new lines.old lines.new
        out.old out.new }
    ensures fault_only { (x : FaultValue) →
        FrameFaultOf text.now x →
        ReadsFrame (Err x) result segments.old segments.new zones.old zones.new lines.old lines.new
        out.old out.new }
    // The same as one function of the bytes.
    ensures exact { ReadsFrame (read_first_frame text.now) result segments.old segments.new zones.old
        zones.new lines.old lines.new out.old out.new }
{
    let answer = read_frame(alloc, text);
    fill_frame(alloc, answer, segments, zones, lines, out)
}
