//! The frame of a plan: the values that a reader finds in its text.
ghost use Rattle.std.specs.Prelude.{◌≡◌, ◌≤◌, map, IfOk};
ghost use Rattle.event_life.specs.Printed.{printed_end};
ghost use Rattle.product_template.specs.Text.{three_letters, heading_of, identifier_of, pair_of, segment_of, frame_of, block_of};

use crate::names::title_of;
use desk_clock::{day_stamp, local_line};
use desk_settings::Settings;
use hazard_types::{Class, End, List, Minute, Oom, SegLine, Segment, Text, Vtec};
use office_types::Plan;
use product_frame::{Block, Frame, FrameSegment, Heading, Pair};
use segmenter::expiry;
use std::alloc::Global;

/// Returns the BBB group of a correction, `CC` and `letter`, as `CCA`, or `None` if there is no
/// letter, since the product is no correction.
fn three_letters(letter: &Option<u8>) -> Option<[u8; 3]>
    ensures { result ≡ three_letters letter.now }
{
    match letter {
        Some(letter) => Some([b'C', b'C', *letter]),
        None => None,
    }
}

/// Returns the heading of a plan's product that is issued at minute `t`: the code for its category
/// and the office of the settings, the day stamp of `t`, and the BBB group of a correction.
fn heading_of(settings: &Settings, plan: &Plan, t: Minute) -> Heading
    ensures { result ≡ heading_of settings.now plan.now t }
{
    Heading {
        ttaaii: settings.heading_for(plan.category),
        office: settings.office,
        day: day_stamp(t),
        bbb: three_letters(&plan.bbb),
    }
}

/// Returns the product identifier, as `WSWLWX`: the three letters of the plan's category and the
/// site of the settings, without a line end.
fn identifier_of(alloc: Global, settings: &Settings, plan: &Plan) -> Result<Text, Oom>
    ensures { IfOk result (λ text. text ≡ identifier_of settings.now plan.now) }
{
    let mut text = Text::from_slice(alloc, &plan.category.code())?;
    text.extend(&settings.site)?;
    Ok(text)
}

/// Returns the end that a P-VTEC line prints, or `None`, which is printed as zeros, for until
/// further notice.
fn printed_end(end: &End) -> Option<Minute>
    ensures { result ≡ printed_end end.now }
{
    match end {
        End::At(end) => Some(*end),
        End::Ufn => None,
    }
}

/// Returns the values of the P-VTEC line of a line of a segment, and of its H-VTEC line if it has
/// flood values. `class` is the P-VTEC product class, and `office` the four characters of the
/// issuing office, as `KLWX`.
fn pair_of(class: Class, office: [u8; 4], line: &SegLine) -> Pair
    ensures { result ≡ pair_of class office line.now }
{
    let vtec = Vtec {
        class,
        action: line.action,
        office,
        hazard: line.event.hazard,
        etn: line.event.etn,
        begin: line.begin,
        end: printed_end(&line.end),
    };
    Pair {
        vtec,
        flood: line.flood,
    }
}

/// Returns for each line of a segment, in order, the values of its P-VTEC line and of its H-VTEC
/// line, if it has one. `class` is the P-VTEC product class, and `office` the four characters of
/// the issuing office, as `KLWX`.
fn pairs_of(
    alloc: Global,
    class: Class,
    office: [u8; 4],
    lines: &[SegLine],
) -> Result<List<Pair>, Oom>
    ensures { IfOk result (λ pairs. pairs ≡ map (pair_of class office) lines.now) }
{
    let mut pairs = List::new(alloc);
    for line in lines {
        pairs.extend(&[pair_of(class, office, line)])?;
    }
    Ok(pairs)
}

/// Returns the frame of a segment of a product issued at minute `t`: its zones, its expiry and the
/// values of its VTEC lines. `class` is the P-VTEC product class, and `office` the four characters
/// of the issuing office, as `KLWX`. `t` must be at most 52,000,000.
fn segment_of(
    alloc: Global,
    class: Class,
    office: [u8; 4],
    t: Minute,
    segment: &Segment,
) -> Result<FrameSegment, Oom>
    requires { t ≤ 52000000 }
    ensures { IfOk result (λ s. s ≡ segment_of class office t segment.now) }
{
    let zones = segment.zones.clone()?;
    let expiry = day_stamp(expiry(segment.lines.as_slice(), t));
    let pairs = pairs_of(alloc, class, office, segment.lines.as_slice())?;
    Ok(FrameSegment {
        zones,
        expiry,
        pairs,
    })
}

/// Returns for each segment of a product issued at minute `t`, in order, its frame: zones, expiry
/// and the values of its VTEC lines. `class` is the P-VTEC product class, and `office` the four
/// characters of the issuing office, as `KLWX`. `t` must be at most 52,000,000.
fn segments_of(
    alloc: Global,
    class: Class,
    office: [u8; 4],
    t: Minute,
    segments: &[Segment],
) -> Result<List<FrameSegment>, Oom>
    requires { t ≤ 52000000 }
    ensures { IfOk result (λ list. list ≡ map (segment_of class office t) segments.now) }
{
    let mut list = List::new(alloc);
    for segment in segments {
        list.push(segment_of(alloc, class, office, t, segment)?)?;
    }
    Ok(list)
}

/// Returns the frame of a plan's product issued at minute `t`: heading, identifier, issue minute,
/// and the zones, expiry and VTEC values of each segment. `class` is the P-VTEC product class of
/// all lines. `t` must be at most 52,000,000.
///
/// # Errors
///
/// Out of memory.
///
/// Source: NWS Instruction 10-1701, segmented products: heading and identifier.
pub fn frame_of(
    alloc: Global,
    settings: &Settings,
    class: Class,
    plan: &Plan,
    t: Minute,
) -> Result<Frame, Oom>
    requires { t ≤ 52000000 }
    ensures { IfOk result (λ frame. frame ≡ frame_of settings.now class plan.now t) }
{
    let identifier = identifier_of(alloc, settings, plan)?;
    let segments = segments_of(alloc, class, settings.office, t, plan.segments.as_slice())?;
    Ok(Frame {
        heading: heading_of(settings, plan, t),
        identifier,
        issue: t,
        segments,
    })
}

/// Returns the lines between the identifier and the first segment of a product: the product's name,
/// the office line of the settings, and the local date and time line of `t`, the issue minute.
///
/// # Errors
///
/// Out of memory.
pub fn block_of(alloc: Global, settings: &Settings, plan: &Plan, t: Minute) -> Result<Block, Oom>
    ensures { IfOk result (λ block. block ≡ block_of settings.now plan.now t) }
{
    let name = title_of(alloc, plan.category, &plan.bbb)?;
    let office_line = settings.office_line.clone()?;
    let local = local_line(alloc, settings.zone, t)?;
    Ok(Block {
        name,
        office_line,
        local,
    })
}
