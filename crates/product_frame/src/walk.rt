//! Reads the segments from the lines after the identifier.
ghost use Rattle.std.specs.Prelude.{◌≡◌, ◌≤◌, ◌<◌, ◌^◌, ◌+◌, length, [], drop, IfOk};
ghost use Rattle.std.specs.List.{All};
ghost use Rattle.hazard_types.specs.Given.{Gives};
ghost use Rattle.std.specs.Prelude.{List as Seq, Ok};
ghost use Rattle.product_frame.specs.declared.frame.FrameSegment.{FrameSegment as FrameSegmentValue};
ghost use Rattle.product_frame.specs.Grammar.{AreSegments};
ghost use Rattle.product_frame.specs.Parts.{begins, begins_by, has_slash, is_end};
ghost use Rattle.product_frame.specs.Text.{line_of};
ghost use Rattle.ugc_codes.specs.Reading.{ugc_of};
ghost use Rattle.product_frame.specs.Events.{parse_pair};
ghost use Rattle.product_frame.specs.Frames.{or_fault};
ghost use Rattle.product_frame.specs.declared.frame.FrameFault.TheVariants.{BadVtec};
ghost use Rattle.product_frame.specs.Walking.{IsBadUgc, ahead, next_at, with_pair, open_by, take_line_outside, take_line_at_rest, take_line_at_pairs, step, ended, segments_of, Moves};

use crate::frame::{FrameFault, FrameSegment, Pair};
use crate::text::{line_end_count, line_of};
use hazard_types::{DayStamp, Flood, List, Or, Zone};
use hvtec_string::read_hvtec;
use std::alloc::Global;
use std::mem;
use ugc_codes::{UgcFault, read_ugc};
use vtec_string::read_vtec;

/// Where the next line is: outside of segments, among the VTEC lines of a segment, or after these.
#[derive(Clone, Copy, Debug)]
pub enum Stage {
    Outside,
    Pairs,
    Rest,
}

/// The segments so far, and the values of the one that is not yet complete.
#[derive(Debug, Drop)]
pub struct Walk {
    pub segments: List<FrameSegment>,
    pub zones: List<Zone>,
    pub expiry: DayStamp,
    pub pairs: List<Pair>,
    /// The number of the line on which the segment's UGC starts; the heading is line 1.
    pub first: usize,
    /// How many of the next lines were read already: later lines of the UGC, or an H-VTEC line.
    pub left: usize,
    pub stage: Stage,
}

/// Returns the values of `line`, a P-VTEC line, with those of `next`, the line after it, if that is
/// an H-VTEC line. `None` if `line` is not a P-VTEC line.
#[tactic(auto, unfolding(crate::specs::Events::parse_pair))]
fn parse_pair(line: &[u8], next: &[u8]) -> Option<Pair>
    ensures { result ≡ parse_pair line.now next.now }
{
    let vtec = read_vtec(line)?;
    let flood = read_hvtec(next);
    Some(Pair { vtec, flood })
}

/// Returns the values of `line`, a P-VTEC line, with those of `next`, the line after it, if that is
/// an H-VTEC line. Errs with `BadVtec` if `line` is not a P-VTEC line; `number` is the number of
/// the line, where the heading is line 1.
fn pair_or_fault(line: &[u8], next: &[u8], number: usize) -> Result<Pair, Or<FrameFault>>
    ensures { Gives result (or_fault (parse_pair line.now next.now) (BadVtec number) (λ p. Ok p)) }
{
    match parse_pair(line, next) {
        Some(pair) => Ok(pair),
        None => Err(Or::No(FrameFault::BadVtec { line: number })),
    }
}

/// Whether a line starts as a segment does: with the code of a zone or county, as `MDZ003`, and a
/// hyphen or `>`.
fn begins(line: &[u8]) -> bool
    ensures { result ≡ begins line.now }
{
    line.len() >= 7
        && line[0].is_ascii_uppercase()
        && line[1].is_ascii_uppercase()
        && (line[2] == b'C' || line[2] == b'Z')
        && line[3].is_ascii_digit()
        && line[4].is_ascii_digit()
        && line[5].is_ascii_digit()
        && (line[6] == b'-' || line[6] == b'>')
}

/// Whether a line starts with `/`, as VTEC lines do.
fn has_slash(line: &[u8]) -> bool
    ensures { result ≡ has_slash line.now }
{
    line.len() >= 1 && line[0] == b'/'
}

/// Whether a line is `$$`, which ends a segment.
fn is_end(line: &[u8]) -> bool
    ensures { result ≡ is_end line.now }
{
    line.len() == 2 && line[0] == b'$' && line[1] == b'$'
}

/// Whether the first line of `rest` starts as a segment does: with the code of a zone or county, as
/// `MDZ003`, and a hyphen or `>`.
#[tactic(auto, using(crate::proofs::LineFronts::no_begin))]
fn line_starts_segment(rest: &[u8]) -> bool
    ensures { result ≡ begins (line_of rest.now) }
{
    if !begins(rest) {
        return false;
    }
    begins(line_of(rest))
}

/// Whether the first line of `rest` starts with a slash.
#[tactic(auto, using(crate::proofs::LineFronts::same_slash))]
fn line_has_slash(rest: &[u8]) -> bool
    ensures { result ≡ has_slash (line_of rest.now) }
{
    has_slash(rest)
}

/// Whether a text starts with this byte.
fn begins_by(byte: u8, rest: &[u8]) -> bool
    ensures { result ≡ begins_by byte rest.now }
{
    match rest {
        [first, ..] => *first == byte,
        [] => false,
    }
}

/// Whether the first line of `rest` is `$$`.
#[tactic(auto, using(crate::proofs::LineFronts::no_end))]
fn line_is_end(rest: &[u8]) -> bool
    ensures { result ≡ is_end (line_of rest.now) }
{
    if !begins_by(b'$', rest) {
        return false;
    }
    is_end(line_of(rest))
}

/// Returns the fault of a frame for a fault in reading a UGC text: `BadUgc` with `line`, the number
/// of the line on which the UGC text starts, or `OutOfMemory` if memory ran out.
fn bad_ugc(fault: Or<UgcFault>, line: usize) -> Or<FrameFault>
    ensures { IsBadUgc fault line result }
{
    match fault {
        Or::No(_) => Or::No(FrameFault::BadUgc { line }),
        Or::OutOfMemory => Or::OutOfMemory,
    }
}

/// Begins in `walk` a new segment with the UGC text that `rest` starts with, and sets the later
/// lines of that text to be skipped. `number` is the number of its first line. Errs with `BadUgc`
/// if there is no UGC text, or if more than blanks follows it on its last line.
fn open_segment(
    alloc: Global,
    walk: &mut Walk,
    number: usize,
    rest: &[u8],
) -> Result<(), Or<FrameFault>>
    ensures { Moves result walk.new (open_by walk.old number rest.now (ugc_of rest.now)) }
{
    let read = match read_ugc(alloc, rest) {
        Ok(read) => read,
        Err(fault) => return Err(bad_ugc(fault, number)),
    };
    let behind = line_of(&rest[read.used..]);
    if !behind.is_empty() {
        return Err(Or::No(FrameFault::BadUgc { line: number }));
    }
    walk.left = line_end_count(&rest[..read.used]);
    walk.zones = read.zones;
    walk.expiry = read.expiry;
    walk.pairs = List::new(alloc);
    walk.first = number;
    walk.stage = Stage::Pairs;
    Ok(())
}

/// Begins in `walk` a new segment if the first line of `rest`, which is outside of segments, starts
/// with the code of a zone or county; otherwise `walk` stays as it is. `number` is the number of
/// the line. Errs with `BadUgc` if such a line does not start a UGC text, or if more than blanks
/// follows the text on its last line.
#[tactic(auto, unfolding(crate::specs::Walking::take_line_outside))]
fn take_line_outside(
    alloc: Global,
    walk: &mut Walk,
    number: usize,
    rest: &[u8],
) -> Result<(), Or<FrameFault>>
    ensures { Moves result walk.new (take_line_outside walk.old number rest.now) }
{
    if !line_starts_segment(rest) {
        return Ok(());
    }
    open_segment(alloc, walk, number, rest)
}

/// Ends the segment of `walk` and appends it to `walk.segments` if the first line of `rest`, a line
/// after its UGC, is `$$`; any other line is skipped, and the stage becomes `Rest`. Errs only if
/// memory runs out.
fn take_line_at_rest(alloc: Global, walk: &mut Walk, rest: &[u8]) -> Result<(), Or<FrameFault>>
    ensures { Moves result walk.new (take_line_at_rest walk.old (line_of rest.now)) }
{
    if !line_is_end(rest) {
        walk.stage = Stage::Rest;
        return Ok(());
    }
    let zones = mem::replace(&mut walk.zones, List::new(alloc));
    let pairs = mem::replace(&mut walk.pairs, List::new(alloc));
    walk.segments.push(FrameSegment {
        zones,
        expiry: walk.expiry,
        pairs,
    })?;
    walk.stage = Stage::Outside;
    Ok(())
}

/// Returns the line at the first of `starts`, without its LF and the CRs and blanks before that;
/// empty if `starts` is empty. `starts` are indices of bytes at which lines start.
fn next_at<'a>(bytes: &'a [u8], starts: &[usize]) -> &'a [u8]
    requires { All (λ start. start ≤ length bytes.now) starts.now }
    ensures { result.now ≡ next_at bytes.now starts.now }
{
    match starts {
        [start, ..] => line_of(&bytes[*start..]),
        [] => &[],
    }
}

/// Returns how many lines after a P-VTEC line were read with it: 1 if it has H-VTEC values, which
/// are on the next line, else 0.
fn ahead(flood: &Option<Flood>) -> usize
    ensures { result ≡ ahead flood.now }
{
    match flood {
        Some(_flood) => 1,
        None => 0,
    }
}

/// Appends the values of a P-VTEC line, and of its H-VTEC line if it has one, to the segment of
/// `walk`. The next line is then skipped if it is that H-VTEC line.
fn add_pair(walk: &mut Walk, pair: &Pair) -> Result<(), Or<FrameFault>>
    ensures { Moves result walk.new (Ok (with_pair walk.old pair.now)) }
{
    walk.pairs.extend(&[*pair])?;
    walk.left = ahead(&pair.flood);
    Ok(())
}

/// Appends the values of the first line of `rest` to the segment of `walk` if it starts with a
/// slash; `$$` ends the segment, and any other line ends its VTEC lines. `number` is the number of
/// the line and `next` the line after it. Errs with `BadVtec` if a line with a slash is not a
/// P-VTEC line.
fn take_line_at_pairs(
    alloc: Global,
    walk: &mut Walk,
    number: usize,
    rest: &[u8],
    next: &[u8],
) -> Result<(), Or<FrameFault>>
    ensures { Moves result walk.new (take_line_at_pairs walk.old number (line_of rest.now) next.now) }
{
    if !line_has_slash(rest) {
        return take_line_at_rest(alloc, walk, rest);
    }
    match pair_or_fault(line_of(rest), next, number) {
        Ok(pair) => add_pair(walk, &pair),
        Err(fault) => Err(fault),
    }
}

/// Reads into `walk` the line that starts at byte `start`, or skips it if it was read with a line
/// before. Outside of segments a line may begin one; in a segment `$$` ends it, and a line that
/// starts with `/` is read as a P-VTEC line unless another line came since the UGC; errs with
/// `BadUgc` or `BadVtec`. `number` is the number of the line, where the heading is line 1, and
/// `later` are the indices of the bytes at which the lines after it start, in order.
#[tactic(auto, unfolding(crate::specs::Walking::step))]
fn step(
    alloc: Global,
    walk: &mut Walk,
    number: usize,
    bytes: &[u8],
    start: usize,
    later: &[usize],
) -> Result<(), Or<FrameFault>>
    requires start { start ≤ length bytes.now }
    requires within { All (λ start. start ≤ length bytes.now) later.now }
    ensures { Moves result walk.new
        (step walk.old number (drop start bytes.now) (next_at bytes.now later.now)) }
{
    if walk.left > 0 {
        walk.left -= 1;
        return Ok(());
    }
    let rest = &bytes[start..];
    match walk.stage {
        Stage::Outside => take_line_outside(alloc, walk, number, rest),
        Stage::Pairs => take_line_at_pairs(alloc, walk, number, rest, next_at(bytes, later)),
        Stage::Rest => take_line_at_rest(alloc, walk, rest),
    }
}

/// Returns the complete segments of `walk` once all lines were read. Errs with `NoSegmentEnd` and
/// the line on which the UGC of the last segment starts if that segment has no `$$`.
fn segments_at_end(walk: Walk) -> Result<List<FrameSegment>, Or<FrameFault>>
    ensures { Gives result (ended walk walk.stage) }
{
    match walk.stage {
        Stage::Outside => Ok(walk.segments),
        Stage::Pairs => Err(Or::No(FrameFault::NoSegmentEnd { line: walk.first })),
        Stage::Rest => Err(Or::No(FrameFault::NoSegmentEnd { line: walk.first })),
    }
}

/// Returns the segments of the lines that start at the bytes `starts`, which are in order. `number`
/// is the number of the first of them; the heading is line 1. Errs with the first of `BadUgc`,
/// `BadVtec` and `NoSegmentEnd` in the order of the lines.
fn walk_over(
    alloc: Global,
    bytes: &[u8],
    number: usize,
    starts: &[usize],
) -> Result<List<FrameSegment>, Or<FrameFault>>
    requires within { All (λ start. start ≤ length bytes.now) starts.now }
    requires numbers { number + length starts.now < 2 ^ 64 }
    ensures { Gives result (segments_of bytes.now number starts.now) }
{
    let mut walk = Walk {
        segments: List::new(alloc),
        zones: List::new(alloc),
        expiry: DayStamp {
            day: 1,
            hour: 0,
            minute: 0,
        },
        pairs: List::new(alloc),
        first: 0,
        left: 0,
        stage: Stage::Outside,
    };
    for (i, start) in starts.iter().enumerate() {
        step(
            alloc,
            &mut walk,
            number + i,
            bytes,
            *start,
            &starts[i + 1..],
        )?;
    }
    segments_at_end(walk)
}

/// Returns the segments of the lines that start at the bytes `starts`, which are in order. `number`
/// is the number of the first of these lines; the heading is line 1.
///
/// # Errors
///
/// The first of `BadUgc`, `BadVtec` and `NoSegmentEnd` in the order of the lines; or out of memory.
pub fn walk_lines(
    alloc: Global,
    bytes: &[u8],
    number: usize,
    starts: &[usize],
) -> Result<List<FrameSegment>, Or<FrameFault>>
    requires within { All (λ start. start ≤ length bytes.now) starts.now }
    requires numbers { number + length starts.now < 2 ^ 64 }
    // The segments that are returned are in the grammar.
    ensures found { IfOk result (λ segments. AreSegments bytes.now starts.now segments) }
    // Segments in the grammar are returned, unless memory runs out.
    ensures only { (segments : Seq FrameSegmentValue) →
        AreSegments bytes.now starts.now segments → Gives result (Ok segments) }
    // The same as one function of the bytes.
    ensures exact { Gives result (segments_of bytes.now number starts.now) }
{
    walk_over(alloc, bytes, number, starts)
}
