//! Reads frames.
ghost use Rattle.std.specs.Prelude.{◌≡◌, ◌⊎◌, ℕ, List as Seq, ◌≤◌, ◌<◌, ◌^◌, ◌+◌, length, [], IfOk, IfSome, OnOk, is_some, take};
ghost use Rattle.std.specs.List.{All};
ghost use Rattle.hazard_types.specs.Given.{Gives};
ghost use Rattle.product_frame.specs.Text.{starts, starts_from, line_of};
ghost use Rattle.product_frame.specs.Parts.{is_front, may_be_heading, is_bbb, heading_by, heading_of, is_identifier, begins_by_digit, parse_local_line};
ghost use Rattle.product_frame.specs.Nearness.{is_near};
ghost use Rattle.std.specs.Prelude.{Ok};
ghost use Rattle.product_frame.specs.Frame.{FrameOf};
ghost use Rattle.product_frame.specs.declared.frame.Frame.{Frame as FrameValue};
ghost use Rattle.product_frame.specs.declared.frame.FrameFault.{FrameFault as FaultValue};
ghost use Rattle.product_frame.specs.Faults.{FrameFaultOf};
ghost use Rattle.product_frame.specs.Frames.{line_at, first_heading, first_nonempty_index, find_issue_minute, product_in, frame_after_identifier, frame_in, frame_from, read_first_frame};

use crate::frame::{Frame, FrameFault, Heading};
use crate::text::{line_of, next_start};
use crate::walk::walk_lines;
use desk_clock::{has_near_day_stamp, read_local_line};
use hazard_types::{
    DayStamp, List, Minute, Oom, Or, Text, are_name_bytes, is_blank, is_name_byte, parse_day_stamp,
};
use std::alloc::Global;

/// Whether the first twelve bytes of `line` are of the form with which a heading line starts, as
/// `WWUS41 KLWX` and a blank: four capital letters, two digits, a blank, four characters of A-Z and
/// 0-9, and a blank. A blank is a space or a tab; `line` must have at least twelve bytes.
fn is_front(line: &[u8]) -> bool
    requires { 12 ≤ length line.now }
    ensures { result ≡ is_front line.now }
{
    line[0].is_ascii_uppercase()
        && line[1].is_ascii_uppercase()
        && line[2].is_ascii_uppercase()
        && line[3].is_ascii_uppercase()
        && line[4].is_ascii_digit()
        && line[5].is_ascii_digit()
        && is_blank(line[6])
        && is_name_byte(line[7])
        && is_name_byte(line[8])
        && is_name_byte(line[9])
        && is_name_byte(line[10])
        && is_blank(line[11])
}

/// Whether the three bytes of `line` from index `i` on are capital letters, as in the `BBB` of a
/// heading line.
fn is_bbb(line: &[u8], i: usize) -> bool
    requires { i + 3 ≤ length line.now }
    ensures { result ≡ is_bbb line.now i }
{
    line[i].is_ascii_uppercase()
        && line[i + 1].is_ascii_uppercase()
        && line[i + 2].is_ascii_uppercase()
}

/// Returns the values of a heading line from its first 18 bytes, as `WWUS41 KLWX 031530`, with
/// `bbb` as its `BBB`. `None` if the first twelve bytes do not have the form `TTAAii CCCC` and a
/// blank, or the other six are no day of the month, hour and minute. `line` must have at least 18
/// bytes.
#[tactic(auto, unfolding(crate::specs::Parts::heading_by))]
fn heading_by(line: &[u8], bbb: Option<[u8; 3]>) -> Option<Heading>
    requires { 18 ≤ length line.now }
    ensures { result ≡ heading_by line.now bbb }
{
    if !is_front(line) {
        return None;
    }
    let day = parse_day_stamp(&line[12..18])?;
    let ttaaii = [line[0], line[1], line[2], line[3], line[4], line[5]];
    let office = [line[7], line[8], line[9], line[10]];
    Some(Heading {
        ttaaii,
        office,
        day,
        bbb,
    })
}

/// Returns the values of a heading line `TTAAii CCCC DDHHMM`, as `WWUS41 KLWX 031530`, or of one
/// with a blank and three capital letters after that, as `WWUS41 KLWX 031530 CCA`. `None` if `line`
/// has neither form, if the day, the hour or the minute is out of range, or if a line end or blanks
/// are at its end.
#[tactic(auto, unfolding(crate::specs::Parts::heading_of))]
pub fn heading_of(line: &[u8]) -> Option<Heading>
    ensures { result ≡ heading_of line.now }
{
    if line.len() == 18 {
        return heading_by(line, None);
    }
    if line.len() == 22 && is_blank(line[18]) && is_bbb(line, 19) {
        return heading_by(line, Some([line[19], line[20], line[21]]));
    }
    None
}

/// Whether the bytes start with twelve bytes of the form with which a heading line starts, as
/// `WWUS41 KLWX` and a blank: four capital letters, two digits, a blank, four characters of A-Z and
/// 0-9, and a blank. `false` if there are fewer than twelve.
fn may_be_heading(rest: &[u8]) -> bool
    ensures { result ≡ may_be_heading rest.now }
{
    rest.len() >= 12 && is_front(rest)
}

/// Whether the first line of `bytes` is a heading line, as `WWUS41 KLWX 031530`.
#[tactic(auto, using(crate::proofs::LineFronts::no_heading))]
pub fn is_heading(bytes: &[u8]) -> bool
    ensures { result ≡ is_some (heading_of (line_of bytes.now)) }
{
    if !may_be_heading(bytes) {
        return false;
    }
    heading_of(line_of(bytes)).is_some()
}

/// Whether a line is an AWIPS identifier, as `WSWLWX`: three capital letters and one to three
/// characters of A-Z and 0-9.
fn is_identifier(line: &[u8]) -> bool
    ensures { result ≡ is_identifier line.now }
{
    line.len() >= 4 && line.len() <= 6 && is_bbb(line, 0) && are_name_bytes(&line[3..])
}

/// Returns the minute of a local date and time line, as `1030 AM EST Wed Jan 3 2018`, or `None` if
/// `line` is not one.
#[tactic(auto, unfolding(crate::specs::Parts::parse_local_line))]
fn parse_local_line(line: &[u8]) -> Option<Minute>
    ensures { result ≡ parse_local_line line.now }
{
    match read_local_line(line) {
        Ok(minute) => Some(minute),
        Err(_) => None,
    }
}

/// Whether a text starts with a digit.
fn begins_by_digit(rest: &[u8]) -> bool
    ensures { result ≡ begins_by_digit rest.now }
{
    match rest {
        [first, ..] => first.is_ascii_digit(),
        [] => false,
    }
}

/// Returns the minute of the local date and time line, as `1030 AM EST Wed Jan 3 2018`, that `rest`
/// starts with, or `None` if its first line is not one.
#[tactic(auto, using(crate::proofs::LineFronts::no_local))]
fn issue_at(rest: &[u8]) -> Option<Minute>
    ensures { result ≡ parse_local_line (line_of rest.now) }
{
    if !begins_by_digit(rest) {
        return None;
    }
    parse_local_line(line_of(rest))
}

/// Whether `day`, a day of the month, hour and minute in UTC, is that of a minute at most 720
/// minutes before or after `issue`.
fn is_near(issue: Minute, day: DayStamp) -> bool
    ensures { result ≡ is_near issue day }
{
    has_near_day_stamp(issue, day)
}

/// Whether the line that starts at byte `at` is a heading line.
fn is_heading_at(bytes: &[u8], at: usize) -> bool
    requires { at ≤ length bytes.now }
    ensures { result ≡ is_some (heading_of (line_at bytes.now at)) }
{
    is_heading(&bytes[at..])
}

/// Returns the index of the byte at which the first heading line after the first line of `bytes`
/// starts, or `None` if there is none.
fn later_heading(bytes: &[u8]) -> Option<usize>
    ensures value { result ≡ first_heading bytes.now (starts_from 0 bytes.now) }
    ensures within { IfSome result (λ at. at ≤ length bytes.now) }
{
    let mut at = 0;
    while let Some(next) = next_start(bytes, at) {
        if is_heading_at(bytes, next) {
            return Some(next);
        }
        at = next;
    }
    None
}

/// Returns the index of the byte at which the first heading line starts, or `None` if there is
/// none.
fn first_heading(bytes: &[u8]) -> Option<usize>
    ensures value { result ≡ first_heading bytes.now (starts bytes.now) }
    ensures within { IfSome result (λ at. at ≤ length bytes.now) }
{
    if is_heading(bytes) {
        return Some(0);
    }
    later_heading(bytes)
}

/// Returns the index in `places` of the first line, in their order, that is not empty, or `None` if
/// there is none. `places` are the indices of the bytes at which lines start.
fn first_nonempty_index(bytes: &[u8], places: &[usize]) -> Option<usize>
    requires { All (λ start. start ≤ length bytes.now) places.now }
    ensures value { result ≡ first_nonempty_index bytes.now 0 places.now }
    ensures within { IfSome result (λ k. k < length places.now) }
{
    for (k, start) in places.iter().enumerate() {
        if !line_of(&bytes[*start..]).is_empty() {
            return Some(k);
        }
    }
    None
}

/// Returns the minute of the first local date and time line, as `1030 AM EST Wed Jan 3 2018`, or
/// `None` if there is none. `places` are the indices of the bytes at which the lines start, and are
/// looked at in their order.
fn find_issue_minute(bytes: &[u8], places: &[usize]) -> Option<Minute>
    requires { All (λ start. start ≤ length bytes.now) places.now }
    ensures value { result ≡ find_issue_minute bytes.now places.now }
{
    for start in places {
        let issue = issue_at(&bytes[*start..]);
        if issue.is_some() {
            return issue;
        }
    }
    None
}

/// Appends to `places` the index of the byte at which each line after the heading starts, and
/// returns the length in bytes of the product that `rest` starts with. The product ends before the
/// next heading line, whose start is listed too, or with `rest`; `places` is empty before.
fn list_lines(places: &mut Vec<usize>, rest: &[u8]) -> Result<usize, Oom>
    requires { places.old.items ≡ [] }
    ensures listed { OnOk result (places.new.items ≡ starts_from 0 (product_in rest.now)) }
    ensures product { IfOk result (λ end. take end rest.now ≡ product_in rest.now) }
    ensures within { IfOk result (λ end. end ≤ length rest.now) }
{
    let mut at = 0;
    while let Some(next) = next_start(rest, at) {
        places.push(next)?;
        if is_heading_at(rest, next) {
            return Ok(next);
        }
        at = next;
    }
    Ok(rest.len())
}

/// Returns the frame of a product whose heading and identifier were read, from the lines after the
/// identifier's. `places` are the indices of the bytes at which the lines after the heading start,
/// in order, and `places[k]` is that of the identifier. Errs with `NoIssueTime`, `IssueDisagrees`
/// or the first fault of the segments.
#[tactic(auto, unfolding(crate::specs::Frames::frame_after_identifier))]
fn frame_after_identifier(
    alloc: Global,
    product: &[u8],
    heading: Heading,
    identifier: Text,
    places: &[usize],
    k: usize,
) -> Result<Frame, Or<FrameFault>>
    requires within { All (λ start. start ≤ length product.now) places.now }
    requires index { k < length places.now }
    requires places { places.now ≡ starts_from 0 product.now }
    requires few { length places.now < 2 ^ 60 }
    ensures { Gives result (frame_after_identifier product.now heading identifier k) }
{
    let later = &places[k + 1..];
    let Some(issue) = find_issue_minute(product, later) else {
        return Err(Or::No(FrameFault::NoIssueTime));
    };
    if !is_near(issue, heading.day) {
        return Err(Or::No(FrameFault::IssueDisagrees));
    }
    let segments = walk_lines(alloc, product, k + 3, later)?;
    Ok(Frame {
        heading,
        identifier,
        issue,
        segments,
    })
}

/// Returns the frame of one product. Its first line is the heading, whose values are `heading`, and
/// `places` are the indices of the bytes at which its later lines start, in order. Errs with
/// `NoIdentifier`, `NoIssueTime`, `IssueDisagrees` or the first fault of the segments.
#[tactic(auto, unfolding(crate::specs::Frames::frame_in), using(crate::proofs::Listed::starts_within))]
fn frame_in(
    alloc: Global,
    product: &[u8],
    heading: Heading,
    places: &[usize],
) -> Result<Frame, Or<FrameFault>>
    requires { places.now ≡ starts_from 0 product.now }
    ensures { Gives result (frame_in product.now heading) }
{
    let Some(k) = first_nonempty_index(product, places) else {
        return Err(Or::No(FrameFault::NoIdentifier));
    };
    let line = line_of(&product[places[k]..]);
    if !is_identifier(line) {
        return Err(Or::No(FrameFault::NoIdentifier));
    }
    let identifier = List::from_slice(alloc, line)?;
    frame_after_identifier(alloc, product, heading, identifier, places, k)
}

/// Returns the frame of the product that `rest` starts with; errs with its first fault, which is
/// `NoHeading` if the first line is no heading. `places` is a buffer for where lines start, whose
/// content is overwritten.
#[tactic(auto, unfolding(crate::specs::Frames::frame_from))]
fn frame_from(alloc: Global, rest: &[u8], places: &mut Vec<usize>) -> Result<Frame, Or<FrameFault>>
    ensures { Gives result (frame_from rest.now) }
{
    let Some(heading) = heading_of(line_of(rest)) else {
        return Err(Or::No(FrameFault::NoHeading));
    };
    places.clear();
    let end = list_lines(places, rest)?;
    frame_in(alloc, &rest[..end], heading, places)
}

/// Returns the frame of the first product of `bytes`; errs with its first fault, which is
/// `NoHeading` if no line is a heading. `places` is a buffer for where lines start, whose content
/// is overwritten.
fn read_first_frame(
    alloc: Global,
    bytes: &[u8],
    places: &mut Vec<usize>,
) -> Result<Frame, Or<FrameFault>>
    ensures { Gives result (read_first_frame bytes.now) }
{
    let Some(at) = first_heading(bytes) else {
        return Err(Or::No(FrameFault::NoHeading));
    };
    frame_from(alloc, &bytes[at..], places)
}

/// Parses the frame of the first product of a text. Bytes before its heading line are skipped, and
/// it ends before the next heading line. `places` is a buffer for where lines start, which the
/// caller may use again; its content is overwritten.
///
/// # Errors
///
/// The first fault, with its line, which counts from the heading as line 1; or out of memory.
pub fn read_frame_with(
    alloc: Global,
    bytes: &[u8],
    places: &mut Vec<usize>,
) -> Result<Frame, Or<FrameFault>>
    // What is read is the frame of the text.
    ensures found { IfOk result (FrameOf bytes.now) }
    // If the text has a frame it is read, unless memory runs out.
    ensures only { (f : FrameValue) → FrameOf bytes.now f → Gives result (Ok f) }
    // A fault that is returned is the first of the text, and the first fault is returned, unless
    // memory runs out.
    ensures fault { (x : FaultValue) → result ≡ Err (Or.No x) → FrameFaultOf bytes.now x }
    ensures fault_only { (x : FaultValue) → FrameFaultOf bytes.now x → Gives result (Err x) }

    // The same as one function of the bytes.
    ensures exact { Gives result (read_first_frame bytes.now) }
{
    read_first_frame(alloc, bytes, places)
}

/// Parses the frame of the first product of a text. Bytes before its heading line are skipped, and
/// it ends before the next heading line.
///
/// # Errors
///
/// The first fault, with its line, which counts from the heading as line 1; or out of memory.
///
/// Source: NWS Instruction 10-1701, segmented products; docs/DECISIONS.md, "Reading of texts"
/// (frames).
pub fn read_frame(alloc: Global, bytes: &[u8]) -> Result<Frame, Or<FrameFault>>
    // What is read is the frame of the text.
    ensures found { IfOk result (FrameOf bytes.now) }
    // If the text has a frame it is read, unless memory runs out.
    ensures only { (f : FrameValue) → FrameOf bytes.now f → Gives result (Ok f) }
    // A fault that is returned is the first of the text, and the first fault is returned, unless
    // memory runs out.
    ensures fault { (x : FaultValue) → result ≡ Err (Or.No x) → FrameFaultOf bytes.now x }
    ensures fault_only { (x : FaultValue) → FrameFaultOf bytes.now x → Gives result (Err x) }

    // The same as one function of the bytes.
    ensures exact { Gives result (read_first_frame bytes.now) }
{
    let mut places = Vec::new(alloc);
    read_frame_with(alloc, bytes, &mut places)
}

/// Law: each text has exactly one of two, a frame or a first fault, and no text has two frames or
/// two first faults.
pub fn frame_or_fault()
    ensures either { (bytes : Seq ℕ) →
        ((f : FrameValue) × FrameOf bytes f) ⊎ ((x : FaultValue) × FrameFaultOf bytes x) }
    ensures not_both { (bytes : Seq ℕ) (f : FrameValue) (x : FaultValue) →
        FrameOf bytes f → FrameFaultOf bytes x → ⊥ }
    ensures one_frame { (bytes : Seq ℕ) (f g : FrameValue) →
        FrameOf bytes f → FrameOf bytes g → f ≡ g }
    ensures one_fault { (bytes : Seq ℕ) (x y : FaultValue) →
        FrameFaultOf bytes x → FrameFaultOf bytes y → x ≡ y }
{}
