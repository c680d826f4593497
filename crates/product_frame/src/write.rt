//! Writes the texts of frames.
ghost use Rattle.std.specs.Prelude.{◌≡◌, ◌<◌, ◌++◌, length, IsTrue, IfOk, OnOk};
ghost use Rattle.std.specs.List.{All};
ghost use Rattle.hazard_types.specs.Digits.{is_day_stamp};
ghost use Rattle.vtec_string.specs.Columns.{vtec_text};
ghost use Rattle.product_frame.specs.Layout.{ended, letters_text, heading_text, flood_text, pairs_text, names_text, body_text, segment_text, segments_text, block_text, layout_of};
ghost use Rattle.product_frame.specs.Frame.{FrameOf};
ghost use Rattle.product_frame.specs.Splitting.{IsOneProduct};
ghost use Rattle.product_frame.specs.LineRules.{HasLocation, IsPairWritten, IsSegmentWritten, HasFloodColumns, HasColumns, ReadsBack, IsWritable};

use crate::frame::{Frame, FrameSegment, Heading, Pair};
use hazard_types::{Flood, List, Oom, Text, day_text};
use hvtec_string::hvtec_text;
use std::alloc::Global;
use ugc_codes::write_ugc;
use vtec_string::vtec_text;

/// The lines between identifier and segments, without line ends.
///
/// Source: NWS Instruction 10-1701, Mass News Disseminator header.
#[derive(Clone, Debug, Drop, PartialEq, Eq)]
pub struct Block {
    /// The product's name, as `URGENT - WINTER WEATHER MESSAGE`.
    pub name: Text,
    /// The office, as `National Weather Service Baltimore MD/Washington DC`.
    pub office_line: Text,
    /// The local line of the issue minute.
    pub local: Text,
}

/// What a segment has after its VTEC lines, but for the local line.
#[derive(Clone, Debug, Drop, PartialEq, Eq)]
pub struct Body {
    /// The names of its zones: lines with LF between them and none at the end. Empty for no names.
    pub names: Text,
    /// The text after the local line and an empty line; each of its lines ends with LF.
    pub text: Text,
}

/// Appends a line and its LF.
fn write_line(out: &mut Text, line: &[u8]) -> Result<(), Oom>
    ensures { OnOk result (out.new ≡ out.old ++ ended line.now) }
{
    out.extend(line)?;
    out.push(b'\n')
}

/// Appends a blank and the three letters of the `BBB` of a heading, as ` CCA`, or nothing for
/// `None`.
fn write_letters(out: &mut Text, letters: &Option<[u8; 3]>) -> Result<(), Oom>
    ensures { OnOk result (out.new ≡ out.old ++ letters_text letters.now) }
{
    match letters {
        Some(letters) => out.extend(&[b' ', letters[0], letters[1], letters[2]]),
        None => Ok(()),
    }
}

/// Returns the heading line with the values `h`, as `WWUS41 KLWX 031530 CCA`, without a line end.
/// The day stamp in `h` must be in range.
fn heading_of(alloc: Global, h: &Heading) -> Result<Text, Oom>
    requires { IsTrue (is_day_stamp h.now.day) }
    ensures { IfOk result (λ text. text ≡ heading_text h.now) }
{
    let mut text = List::from_slice(alloc, &h.ttaaii)?;
    text.push(b' ')?;
    text.extend(&h.office)?;
    text.push(b' ')?;
    text.extend(&day_text(h.day))?;
    write_letters(&mut text, &h.bbb)?;
    Ok(text)
}

/// Appends the H-VTEC line with these values and its LF, or nothing for `None`. The site in the
/// values must be the code of a location.
fn write_flood(out: &mut Text, flood: &Option<Flood>) -> Result<(), Oom>
    requires { HasLocation flood.now }
    ensures value { OnOk result (out.new ≡ out.old ++ flood_text flood.now) }
    ensures columns { OnOk result (HasFloodColumns flood.now) }
{
    match flood {
        Some(flood) => write_line(out, &hvtec_text(flood)),
        None => Ok(()),
    }
}

/// Appends the P-VTEC line of a pair, and its H-VTEC line after it, if it has one.
fn write_pair(out: &mut Text, pair: &Pair) -> Result<(), Oom>
    requires { IsPairWritten pair.now }
    ensures value { OnOk result
        (out.new ≡ out.old ++ (ended (vtec_text pair.now.vtec) ++ flood_text pair.now.flood)) }
    ensures columns { OnOk result (HasColumns pair.now) }
{
    write_line(out, &vtec_text(&pair.vtec))?;
    write_flood(out, &pair.flood)
}

/// Appends the VTEC lines of a segment, in order: each P-VTEC line, and its H-VTEC line after it,
/// if it has one.
fn write_pairs(out: &mut Text, pairs: &List<Pair>) -> Result<(), Oom>
    requires { All IsPairWritten pairs.now }
    ensures value { OnOk result (out.new ≡ out.old ++ pairs_text pairs.now) }
    ensures columns { OnOk result (All HasColumns pairs.now) }
{
    for pair in pairs.as_slice() {
        write_pair(out, pair)?;
    }
    Ok(())
}

/// Appends the names of the zones and an LF, or nothing if `names` is empty.
fn write_names(out: &mut Text, names: &[u8]) -> Result<(), Oom>
    ensures { OnOk result (out.new ≡ out.old ++ names_text names.now) }
{
    if names.is_empty() {
        return Ok(());
    }
    write_line(out, names)
}

/// Appends what a segment has after its VTEC lines: the names of its zones, the line `local`, an
/// empty line and the text of `body`. `local` is the local date and time line of the product.
fn write_body(out: &mut Text, local: &[u8], body: &Body) -> Result<(), Oom>
    ensures { OnOk result (out.new ≡ out.old ++ body_text local.now body.now) }
{
    write_names(out, body.names.as_slice())?;
    write_line(out, local)?;
    write_line(out, b"")?;
    out.extend(body.text.as_slice())
}

/// Appends a segment on lines: its UGC text, its VTEC lines, its body and `$$`. `local` is the
/// local date and time line of the product, which stands in the body.
fn write_segment(
    alloc: Global,
    out: &mut Text,
    local: &[u8],
    segment: &FrameSegment,
    body: &Body,
) -> Result<(), Oom>
    requires { IsSegmentWritten segment.now }
    ensures value { OnOk result (out.new ≡ out.old ++ segment_text local.now segment.now body.now) }
    ensures back { OnOk result (ReadsBack segment.now) }
{
    let ugc = write_ugc(alloc, &segment.zones, segment.expiry)?;
    write_line(out, ugc.as_slice())?;
    write_pairs(out, &segment.pairs)?;
    write_body(out, local, body)?;
    write_line(out, b"$$")
}

/// Appends the segments, in order, each with the body of the same index, and an empty line after
/// each. `local` is the local date and time line of the product; there must be as many bodies as
/// segments.
fn write_segments(
    alloc: Global,
    out: &mut Text,
    local: &[u8],
    segments: &List<FrameSegment>,
    bodies: &List<Body>,
) -> Result<(), Oom>
    requires forms { All IsSegmentWritten segments.now }
    requires as_many { length bodies.now ≡ length segments.now }
    ensures value { OnOk result
        (out.new ≡ out.old ++ segments_text local.now segments.now bodies.now) }
    ensures back { OnOk result (All ReadsBack segments.now) }
{
    let bodies = bodies.as_slice();
    for (i, segment) in segments.as_slice().iter().enumerate() {
        write_segment(alloc, out, local, segment, &bodies[i])?;
        write_line(out, b"")?;
    }
    Ok(())
}

/// Appends the block under the heading: the name of the product, the line of the office and the
/// local line, between empty lines.
fn write_block(out: &mut Text, block: &Block) -> Result<(), Oom>
    ensures { OnOk result (out.new ≡ out.old ++ block_text block.now) }
{
    write_line(out, b"")?;
    write_line(out, block.name.as_slice())?;
    write_line(out, block.office_line.as_slice())?;
    write_line(out, block.local.as_slice())?;
    write_line(out, b"")
}

/// Returns the text of a product: the heading, the identifier, `block`, and each segment with the
/// body of the same index, `$$` and an empty line; each line ends with LF. There must be one body
/// for each segment, and `f`, `block` and `bodies` must keep the line rules of `frame_text`
/// (docs/DECISIONS.md). The text is one product, and reading it gives the frame `f`.
///
/// # Errors
///
/// Out of memory.
///
/// Source: NWS Instruction 10-1701, segmented products; docs/DECISIONS.md, "Reading of texts" (line
/// rules of `frame_text`).
pub fn frame_text(alloc: Global, f: &Frame, block: &Block, bodies: &List<Body>) -> Result<Text, Oom>
    requires { IsWritable f.now block.now bodies.now }
    // The text is laid out from the frame, the block and the bodies.
    ensures layout { IfOk result (λ text. text ≡ layout_of f.now block.now bodies.now) }
    // The frame of the text is `f`.
    ensures frame { IfOk result (λ text. FrameOf text f.now) }
    // Its one heading line is its first line, and each line has its LF.
    ensures one { IfOk result IsOneProduct }
{
    let heading = heading_of(alloc, &f.heading)?;
    let mut text = List::new(alloc);
    write_line(&mut text, heading.as_slice())?;
    write_line(&mut text, f.identifier.as_slice())?;
    write_block(&mut text, block)?;
    write_segments(
        alloc,
        &mut text,
        block.local.as_slice(),
        &f.segments,
        bodies,
    )?;
    Ok(text)
}
