//! The lines of codes: the readers, by name, and what is printed of their values.
use crate::codes::clocks::{day_answer, line_answer, read_answer, short_answer};
use crate::codes::values::{push_flood, push_flood_text, push_vtec, push_vtec_text};
use hazard_types::{List, Oom, Or, Text, zone_text};
use hvtec_string::read_hvtec;
use product_frame::{Frame, FrameFault, FrameSegment, Pair, read_frame, split_products};
use std::alloc::{AllocError, Global};
use ugc_codes::{UgcFault, read_ugc, write_ugc};
use vtec_string::read_vtec;
use worked_lines::{Work, text_of};

/// Returns a line with the values of a P-VTEC string and one with the string written from them, or
/// the line `no P-VTEC text` if `text` is not one.
fn vtec_answer(alloc: Global, text: &str) -> Result<String, AllocError> {
    let mut out = String::new(alloc);
    match read_vtec(text.as_bytes()) {
        Some(v) => {
            push_vtec(&mut out, &v)?;
            push_vtec_text(&mut out, &v)?;
        }
        None => out.push_str("no P-VTEC text\n")?,
    }
    Ok(out)
}

/// Returns a line with the values of an H-VTEC string and one with the string written from them, or
/// the line `no H-VTEC text` if `text` is not one.
fn hvtec_answer(alloc: Global, text: &str) -> Result<String, AllocError> {
    let mut out = String::new(alloc);
    match read_hvtec(text.as_bytes()) {
        Some(h) => {
            push_flood(&mut out, &h)?;
            push_flood_text(&mut out, &h)?;
        }
        None => out.push_str("no H-VTEC text\n")?,
    }
    Ok(out)
}

/// Returns the bytes of a text in which a backslash before `n` or `r` writes LF or CR, and before
/// any other byte that byte. A backslash that ends the text writes nothing.
///
/// # Errors
///
/// Out of memory.
pub fn bytes_of(alloc: Global, text: &str) -> Result<Text, Oom> {
    let mut out = List::new(alloc);
    let mut marked = false;
    for byte in text.as_bytes() {
        let byte = *byte;
        if marked {
            out.push(match byte {
                b'n' => b'\n',
                b'r' => b'\r',
                other => other,
            })?;
            marked = false;
        } else if byte == b'\\' {
            marked = true;
        } else {
            out.push(byte)?;
        }
    }
    Ok(out)
}

/// Returns a line with the number of bytes of the UGC string that `text` starts with and its zones,
/// and then the string as it is written from the zones and the expiry. If `text` starts with none,
/// it is one line with the first fault and the index of its byte, or `CutShort`, which has no byte.
/// In `text` a backslash before `n` or `r` writes LF or CR, and before any other byte that byte.
fn ugc_answer(alloc: Global, text: &str) -> Result<String, Oom> {
    let bytes = bytes_of(alloc, text)?;
    let mut out = String::new(alloc);
    match read_ugc(alloc, bytes.as_slice()) {
        Ok(read) => {
            let used = read.used;
            write!(&mut out, "used {used}")?;
            for zone in read.zones.as_slice() {
                let zone = zone_text(zone);
                let zone = text_of(&zone);
                write!(&mut out, " {zone}")?;
            }
            let again = write_ugc(alloc, &read.zones, read.expiry)?;
            let again = text_of(again.as_slice());
            writeln!(&mut out, "\n{again}")?;
        }
        Err(Or::No(UgcFault::NotACode { at })) => writeln!(&mut out, "NotACode {at}")?,
        Err(Or::No(UgcFault::BadRange { at })) => writeln!(&mut out, "BadRange {at}")?,
        Err(Or::No(UgcFault::CutShort)) => out.push_str("CutShort\n")?,
        Err(Or::OutOfMemory) => return Err(Oom),
    }
    Ok(out)
}

/// Appends a line with the P-VTEC string of a pair, and one with its H-VTEC string, if it has one.
fn push_pair(out: &mut String, pair: &Pair) -> Result<(), AllocError> {
    push_vtec_text(out, &pair.vtec)?;
    match &pair.flood {
        Some(flood) => push_flood_text(out, flood),
        None => Ok(()),
    }
}

/// Appends a line with a segment's expiry (day, hour, minute) and zones, and then its pairs.
fn push_segment(out: &mut String, segment: &FrameSegment) -> Result<(), AllocError> {
    let day = segment.expiry.day;
    let hour = segment.expiry.hour;
    let minute = segment.expiry.minute;
    write!(out, "segment {day} {hour} {minute}")?;
    for zone in segment.zones.as_slice() {
        let zone = zone_text(zone);
        let zone = text_of(&zone);
        write!(out, " {zone}")?;
    }
    out.push('\n')?;
    for pair in segment.pairs.as_slice() {
        push_pair(out, pair)?;
    }
    Ok(())
}

/// Appends a line with a frame's heading, product identifier and issue time (minutes since
/// 2000-01-01 00:00 UTC), and then its segments.
fn push_frame(out: &mut String, frame: &Frame) -> Result<(), AllocError> {
    let ttaaii = text_of(&frame.heading.ttaaii);
    let office = text_of(&frame.heading.office);
    let day = frame.heading.day.day;
    let hour = frame.heading.day.hour;
    let minute = frame.heading.day.minute;
    let letters = frame.heading.bbb.unwrap_or(*b" - ");
    let letters = text_of(&letters).trim();
    let identifier = text_of(frame.identifier.as_slice());
    let issue = frame.issue.get();
    writeln!(
        out,
        "frame {ttaaii} {office} {day} {hour} {minute} {letters} {identifier} {issue}"
    )?;
    for segment in frame.segments.as_slice() {
        push_segment(out, segment)?;
    }
    Ok(())
}

/// Appends a line `fault` with the name of a frame's fault, and the number of the text's line where
/// it is, if the fault has one.
fn push_fault(out: &mut String, fault: FrameFault) -> Result<(), AllocError> {
    match fault {
        FrameFault::NoHeading => out.push_str("fault NoHeading\n"),
        FrameFault::NoIdentifier => out.push_str("fault NoIdentifier\n"),
        FrameFault::NoIssueTime => out.push_str("fault NoIssueTime\n"),
        FrameFault::IssueDisagrees => out.push_str("fault IssueDisagrees\n"),
        FrameFault::NoSegmentEnd { line } => writeln!(out, "fault NoSegmentEnd {line}"),
        FrameFault::BadUgc { line } => writeln!(out, "fault BadUgc {line}"),
        FrameFault::BadVtec { line } => writeln!(out, "fault BadVtec {line}"),
    }
}

/// Returns the values of the frame of a product's text (heading, identifier, issue time, segments)
/// in lines, or a line with its first fault. In `text` a backslash before `n` or `r` writes LF or
/// CR, and before any other byte that byte.
fn frame_answer(alloc: Global, text: &str) -> Result<String, Oom> {
    let bytes = bytes_of(alloc, text)?;
    let mut out = String::new(alloc);
    match read_frame(alloc, bytes.as_slice()) {
        Ok(frame) => push_frame(&mut out, &frame)?,
        Err(Or::No(fault)) => push_fault(&mut out, fault)?,
        Err(Or::OutOfMemory) => return Err(Oom),
    }
    Ok(out)
}

/// Returns a line `products` with the range of the bytes of each product in a text, as `0-120`, the
/// end excluded. In `text` a backslash before `n` or `r` writes LF or CR, and before any other byte
/// that byte.
fn split_answer(alloc: Global, text: &str) -> Result<String, Oom> {
    let bytes = bytes_of(alloc, text)?;
    let spans = split_products(alloc, bytes.as_slice())?;
    let mut out = String::from_str(alloc, "products")?;
    for span in spans.as_slice() {
        let from = span.from;
        let to = span.to;
        write!(out, " {from}-{to}")?;
    }
    out.push('\n')?;
    Ok(out)
}

/// The script of codes, which keeps nothing from line to line.
#[derive(Drop)]
pub struct Codes;

impl Work for Codes {
    /// Returns what the reader that the first word names, as `vtec`, reads in the rest of the line,
    /// or `no reader` if there is no such reader.
    fn work(&mut self, alloc: Global, line: &str) -> Result<String, Oom> {
        let (reader, text) = line.split_once(' ').unwrap_or((line, ""));
        match reader {
            "vtec" => Ok(vtec_answer(alloc, text)?),
            "hvtec" => Ok(hvtec_answer(alloc, text)?),
            "ugc" => ugc_answer(alloc, text),
            "line" => line_answer(alloc, text),
            "short" => short_answer(alloc, text),
            "read" => Ok(read_answer(alloc, text)?),
            "day" => Ok(day_answer(alloc, text)?),
            "frame" => frame_answer(alloc, text),
            "split" => split_answer(alloc, text),
            _ => Ok(String::from_str(alloc, "no reader\n")?),
        }
    }
}
