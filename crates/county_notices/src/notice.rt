//! The text of a notice.
ghost use Rattle.std.specs.Prelude.{◌≡◌, ◌≤◌, map, IfOk, IsTrue};
ghost use Rattle.std.specs.List.{All};
ghost use Rattle.hazard_types.specs.Characters.{is_office};
ghost use Rattle.event_life.specs.Printed.{printed_end};
ghost use Rattle.product_frame.specs.Frame.{FrameOf};
ghost use Rattle.product_frame.specs.Splitting.{IsOneProduct};
ghost use Rattle.county_notices.specs.Notices.{watch_name, heading_of, identifier_of, pair_of, segment_of, frame_of, block_of, body_of, text_of, IsPlainLine, IsPlainSegment, IsNotice};

use crate::issuer::Issuer;
use desk_clock::{day_stamp, local_line};
use hazard_types::{Class, End, Line, List, Minute, Oom, SegLine, Segment, Text, Vtec};
use notice_json::Watch;
use product_frame::{Block, Body, Frame, FrameSegment, Heading, Pair, frame_text};
use segmenter::{expiry, segments};
use std::alloc::Global;

/// Returns the name of a watch as notices print it, as `Tornado Watch`.
fn watch_name(watch: Watch) -> &'static [u8]
    ensures { result.now ≡ watch_name watch }
{
    match watch {
        Watch::Tornado => b"Tornado Watch".as_slice(),
        Watch::Thunderstorm => b"Severe Thunderstorm Watch".as_slice(),
    }
}

/// Returns the WMO heading of a notice that is issued at `t`: `WWUS61`, the office, and the day of
/// the month, hour and minute of `t` in UTC.
fn heading_of(issuer: &Issuer, t: Minute) -> Heading
    ensures { result ≡ heading_of issuer.now t }
{
    Heading {
        ttaaii: *b"WWUS61",
        office: issuer.office,
        day: day_stamp(t),
        bbb: None,
    }
}

/// Returns the AWIPS identifier of a notice: `WCN` and the office's last three characters.
fn identifier_of(alloc: Global, issuer: &Issuer) -> Result<Text, Oom>
    ensures { IfOk result (λ text. text ≡ identifier_of issuer.now) }
{
    let mut text = Text::from_slice(alloc, b"WCN")?;
    text.extend(&issuer.office[1..])?;
    Ok(text)
}

/// Returns the end that a P-VTEC line prints, or `None` for until further notice, which is printed
/// as zeros.
fn printed_end(end: &End) -> Option<Minute>
    ensures { result ≡ printed_end end.now }
{
    match end {
        End::At(end) => Some(*end),
        End::Ufn => None,
    }
}

/// Returns the values of the P-VTEC string of a line, with class O and `office`, and the values of
/// its H-VTEC string, if the line has flood values.
fn pair_of(office: [u8; 4], line: &SegLine) -> Pair
    ensures { result ≡ pair_of office line.now }
{
    let vtec = Vtec {
        class: Class::O,
        action: line.action,
        office,
        hazard: line.event.hazard,
        etn: line.event.etn,
        begin: line.begin,
        end: printed_end(&line.end),
    };
    Pair {
        vtec,
        flood: line.flood,
    }
}

/// Returns the values of the P-VTEC and H-VTEC strings of each of the lines, in order. `office` is
/// the one that issues them.
fn pairs_of(alloc: Global, office: [u8; 4], lines: &[SegLine]) -> Result<List<Pair>, Oom>
    ensures { IfOk result (λ pairs. pairs ≡ map (pair_of office) lines.now) }
{
    let mut pairs = List::new(alloc);
    for line in lines {
        pairs.extend(&[pair_of(office, line)])?;
    }
    Ok(pairs)
}

/// Returns what a notice of `office` that is issued at `t` prints for a segment: its zones, the
/// day, hour and minute (UTC) of its expiry, and the values of its P-VTEC and H-VTEC strings, in
/// order.
fn segment_of(
    alloc: Global,
    office: [u8; 4],
    t: Minute,
    segment: &Segment,
) -> Result<FrameSegment, Oom>
    requires { t ≤ 52000000 }
    ensures { IfOk result (λ s. s ≡ segment_of office t segment.now) }
{
    let zones = segment.zones.clone()?;
    let expiry = day_stamp(expiry(segment.lines.as_slice(), t));
    let pairs = pairs_of(alloc, office, segment.lines.as_slice())?;
    Ok(FrameSegment {
        zones,
        expiry,
        pairs,
    })
}

/// Returns what a notice of `office` that is issued at `t` prints for each segment, in order: the
/// zones, the expiry, and the values of the P-VTEC and H-VTEC strings.
fn segments_of(
    alloc: Global,
    office: [u8; 4],
    t: Minute,
    segments: &[Segment],
) -> Result<List<FrameSegment>, Oom>
    requires { t ≤ 52000000 }
    ensures { IfOk result (λ list. list ≡ map (segment_of office t) segments.now) }
{
    let mut list = List::new(alloc);
    for segment in segments {
        list.push(segment_of(alloc, office, t, segment)?)?;
    }
    Ok(list)
}

/// Returns the values that a reader finds in the text of the notice of these segments that is
/// issued at minute `t`: its heading, its AWIPS identifier, `t`, and the zones, expiry and VTEC
/// values of each segment, in order.
fn frame_of(
    alloc: Global,
    issuer: &Issuer,
    t: Minute,
    segments: &List<Segment>,
) -> Result<Frame, Oom>
    requires { t ≤ 52000000 }
    ensures { IfOk result (λ frame. frame ≡ frame_of issuer.now t segments.now) }
{
    let identifier = identifier_of(alloc, issuer)?;
    let segments = segments_of(alloc, issuer.office, t, segments.as_slice())?;
    Ok(Frame {
        heading: heading_of(issuer, t),
        identifier,
        issue: t,
        segments,
    })
}

/// Returns the lines between the identifier and the first segment of a notice that is issued at
/// `t`: `WATCH COUNTY NOTIFICATION`, `National Weather Service`, and the local time of `t` in the
/// zone of the issuer.
fn block_of(alloc: Global, issuer: &Issuer, t: Minute) -> Result<Block, Oom>
    ensures { IfOk result (λ block. block ≡ block_of issuer.now t) }
{
    let name = Text::from_slice(alloc, b"WATCH COUNTY NOTIFICATION")?;
    let office_line = Text::from_slice(alloc, b"National Weather Service")?;
    let local = local_line(alloc, issuer.zone, t)?;
    Ok(Block {
        name,
        office_line,
        local,
    })
}

/// Returns what the notice of a watch prints in a segment after its VTEC strings, but for the local
/// line and the empty line after that: no names of zones above the local line, and below it the
/// name of the watch, as `Tornado Watch`, and an empty line. It is the same for each segment;
/// `segment` is not read.
fn body_of(alloc: Global, watch: Watch, segment: &Segment) -> Result<Body, Oom>
    ensures { IfOk result (λ body. body ≡ body_of watch segment.now) }
{
    let mut text = Text::from_slice(alloc, watch_name(watch))?;
    text.extend(b"\n\n")?;
    Ok(Body {
        names: List::new(alloc),
        text,
    })
}

/// Returns, for each segment in order, what the notice of a watch prints below its VTEC strings, as
/// `body_of` has it: no names of zones, and the name of the watch with an empty line after it.
fn bodies_of(alloc: Global, watch: Watch, segments: &[Segment]) -> Result<List<Body>, Oom>
    ensures { IfOk result (λ bodies. bodies ≡ map (body_of watch) segments.now) }
{
    let mut bodies = List::new(alloc);
    for segment in segments {
        bodies.push(body_of(alloc, watch, segment)?)?;
    }
    Ok(bodies)
}

/// Returns the text of the notice of `issuer` with these segments, in order, issued at minute `t`:
/// lines that each end with LF. Each segment names the watch, as `Tornado Watch`.
#[tactic(auto, unfolding(crate::specs::Notices::text_of))]
fn segments_text(
    alloc: Global,
    issuer: &Issuer,
    t: Minute,
    watch: Watch,
    segments: &List<Segment>,
) -> Result<Text, Oom>
    requires minute { t ≤ 52000000 }
    requires office { IsTrue (is_office issuer.now.office) }
    requires segments { All IsPlainSegment segments.now }
    ensures value { IfOk result (λ text. text ≡ text_of issuer.now t watch segments.now) }
    ensures frame { IfOk result (λ text. FrameOf text (frame_of issuer.now t segments.now)) }
    ensures one { IfOk result IsOneProduct }
{
    let frame = frame_of(alloc, issuer, t, segments)?;
    let block = block_of(alloc, issuer, t)?;
    let bodies = bodies_of(alloc, watch, segments.as_slice())?;
    frame_text(alloc, &frame, &block, &bodies)
}

/// Returns the text of the notice of `watch` with these lines, issued at minute `t`, at most
/// 52,000,000: lines that each end with LF, however many bytes in all. Zones with the same lines
/// share a segment, which names the watch, as `Tornado Watch`. Each of `lines` must have an event
/// number of at most 9,999 and no flood values.
///
/// # Errors
///
/// Out of memory.
///
/// Source: NWS Instruction 10-1701, segmented products; docs/NOTICES.md, "A notice".
pub fn notice_text(
    alloc: Global,
    issuer: &Issuer,
    t: Minute,
    watch: Watch,
    lines: &List<Line>,
) -> Result<Text, Oom>
    requires minute { t ≤ 52000000 }
    requires office { IsTrue (is_office issuer.now.office) }
    requires lines { All IsPlainLine lines.now }
    ensures { IfOk result (λ text. IsNotice issuer.now t watch lines.now text) }
{
    let segments = segments(alloc, lines)?;
    segments_text(alloc, issuer, t, watch, &segments)
}
