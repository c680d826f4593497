//! What is printed of plans, refusals, rows and events.
ghost use Rattle.std.specs.Prelude.{◌≤◌, IsTrue};
ghost use Rattle.std.specs.List.{AllByRecursion};
ghost use Rattle.hazard_types.specs.Digits.{is_day_stamp};
ghost use Rattle.hazard_types.specs.declared.line.SegLine.{SegLine as SaidLine};
ghost use Rattle.worked_rows.specs.Written.{CanBeWritten};

use hazard_board::Standing;
use hazard_types::{
    Clash, Class, DayStamp, End, Event, Hazard, Minute, Oom, Row, SegLine, Segment, Vtec, Zone,
    civil_of, end_text, hazard_text, stamp, zone_text,
};
use office_types::{Plan, Refusal};
use segmenter::expiry;
use std::alloc::{AllocError, Global};
use ugc_codes::write_ugc;
use vtec_string::vtec_text;
use worked_lines::text_of;

/// The office of the days.
const OFFICE: [u8; 4] = *b"KLWX";

/// Returns the day of the month, hour and minute, in UTC, of a minute.
#[tactic(auto, using(crate::proofs::Expiries::is_day))]
fn expiry_stamp(minute: Minute) -> DayStamp
    ensures { IsTrue (is_day_stamp result) }
{
    let civil = civil_of(minute);
    DayStamp {
        day: civil.day,
        hour: civil.hour,
        minute: civil.minute,
    }
}

/// Appends the P-VTEC string of a line, of class O and office KLWX, and LF. If the line has flood
/// values, `site` and the code of their location follow on a line.
fn push_line(out: &mut String, line: &SegLine) -> Result<(), AllocError>
    requires { line.now.event.etn ≤ 9999 }
{
    let end = match line.end {
        End::At(end) => Some(end),
        End::Ufn => None,
    };
    let text = vtec_text(&Vtec {
        class: Class::O,
        action: line.action,
        office: OFFICE,
        hazard: line.event.hazard,
        etn: line.event.etn,
        begin: line.begin,
        end,
    });
    out.push_str(text_of(&text))?;
    out.push('\n')?;
    if let Some(flood) = &line.flood {
        let site = text_of(&flood.site);
        writeln!(out, "site {site}")?;
    }
    Ok(())
}

/// Appends for each line its P-VTEC string on a line, and a line `site CODE` if it has flood
/// values, in the order of `lines`.
fn push_lines(out: &mut String, lines: &[SegLine]) -> Result<(), AllocError>
    requires { AllByRecursion (λ (line : SaidLine). line.event.etn ≤ 9999) lines.now }
{
    for line in lines {
        push_line(out, line)?;
    }
    Ok(())
}

/// Appends the lines of a segment: its UGC string, its P-VTEC strings, with a line `site CODE`
/// after each that has flood values, and `$$`. `t` is the minute of the product, from which the
/// expiry in the UGC string is found.
fn push_segment(alloc: Global, out: &mut String, t: Minute, segment: &Segment) -> Result<(), Oom>
    requires written { CanBeWritten segment.now }
    requires soon { t ≤ 52000000 }
{
    let expiry = expiry(segment.lines.as_slice(), t);
    let ugc = write_ugc(alloc, &segment.zones, expiry_stamp(expiry))?;
    out.push_str(text_of(ugc.as_slice()))?;
    out.push('\n')?;
    push_lines(out, segment.lines.as_slice())?;
    out.push_str("$$\n")?;
    Ok(())
}

/// Appends the lines of each segment, in order, as `push_segment` writes them: UGC string, P-VTEC
/// strings and `$$`. `t` is the minute of the product.
fn push_segments(
    alloc: Global,
    out: &mut String,
    t: Minute,
    segments: &[Segment],
) -> Result<(), Oom>
    requires written { AllByRecursion CanBeWritten segments.now }
    requires soon { t ≤ 52000000 }
{
    for segment in segments {
        push_segment(alloc, out, t, segment)?;
    }
    Ok(())
}

/// Returns the codes of the product of a plan, on lines: `CC` and the letter if it is a correction,
/// and for each segment its UGC string, its P-VTEC strings and `$$`. A line `site CODE` follows a
/// P-VTEC string with flood values. `t` is the minute of the product.
///
/// # Errors
///
/// Out of memory.
pub fn plan_text(alloc: Global, t: Minute, plan: &Plan) -> Result<String, Oom>
    requires written { AllByRecursion CanBeWritten plan.now.segments }
    requires soon { t ≤ 52000000 }
{
    let mut out = String::new(alloc);
    if let Some(letter) = plan.bbb {
        let letter = char::from(letter);
        writeln!(out, "CC{letter}")?;
    }
    push_segments(alloc, &mut out, t, plan.segments.as_slice())?;
    Ok(out)
}

/// Returns an event, as `WS.W.0001.2018`.
fn event_text(alloc: Global, event: &Event) -> Result<String, AllocError> {
    let hazard = hazard_text(&event.hazard);
    let hazard = text_of(&hazard);
    let etn = event.etn;
    let year = event.year;
    format!(in alloc; "{hazard}.{etn:04}.{year}")
}

/// Returns a line `opened EVENT` for each event that a plan opens, and then a line `texts EVENT
/// "WHAT"` for each event for which the plan has texts. WHAT is the text `what` of the event.
///
/// # Errors
///
/// Out of memory.
pub fn told_text(alloc: Global, plan: &Plan) -> Result<String, AllocError> {
    let mut out = String::new(alloc);
    for event in plan.opened.as_slice() {
        let event = event_text(alloc, event)?;
        writeln!(out, "opened {event}")?;
    }
    for told in plan.texts.as_slice() {
        let event = event_text(alloc, &told.event)?;
        let what = text_of(told.texts.what.as_slice());
        writeln!(out, "texts {event} \"{what}\"")?;
    }
    Ok(out)
}

/// Returns a refusal without values as a line of JSON: `number`, as `L1`, is its code and `rule`
/// its name.
fn bare(alloc: Global, number: &str, rule: &str) -> Result<String, AllocError> {
    format!(in alloc; "{{\"no\":\"{number}\",\"rule\":\"{rule}\"}}\n")
}

/// Returns a refusal with an event and a zone as a line of JSON: `number`, as `L3`, is its code and
/// `rule` its name.
fn in_zone(
    alloc: Global,
    number: &str,
    rule: &str,
    event: &Event,
    zone: &Zone,
) -> Result<String, AllocError> {
    let event = event_text(alloc, event)?;
    let zone = zone_text(zone);
    let zone = text_of(&zone);
    format!(in alloc;
        "{{\"event\":\"{event}\",\"no\":\"{number}\",\"rule\":\"{rule}\",\"zone\":\"{zone}\"}}\n"
    )
}

/// Returns a refusal with an event as a line of JSON: `number`, as `L2`, is its code and `rule` its
/// name.
fn of_event(alloc: Global, number: &str, rule: &str, event: &Event) -> Result<String, AllocError> {
    let event = event_text(alloc, event)?;
    format!(in alloc; "{{\"event\":\"{event}\",\"no\":\"{number}\",\"rule\":\"{rule}\"}}\n")
}

/// Returns a refusal with the place of an intent as a line of JSON: `number`, as `L6`, is its code
/// and `rule` its name. `place` is the index of the intent in its draft, from 0.
fn at_place(alloc: Global, number: &str, rule: &str, place: u32) -> Result<String, AllocError> {
    format!(in alloc; "{{\"no\":\"{number}\",\"place\":{place},\"rule\":\"{rule}\"}}\n")
}

/// Returns the refusal L12, `Conflict`, of two events that conflict in a zone as a line of JSON.
fn conflict(
    alloc: Global,
    zone: &Zone,
    first: &Event,
    second: &Event,
) -> Result<String, AllocError> {
    let zone = zone_text(zone);
    let zone = text_of(&zone);
    let first = event_text(alloc, first)?;
    let second = event_text(alloc, second)?;
    format!(in alloc;
        "{{\"first\":\"{first}\",\"no\":\"L12\",\"rule\":\"Conflict\",\"second\":\"{second}\",\"zone\":\"{zone}\"}}\n"
    )
}

/// Returns the refusal L14, `NumbersSpent`, of a hazard that has no event tracking number left as a
/// line of JSON.
fn spent(alloc: Global, hazard: &Hazard) -> Result<String, AllocError> {
    let hazard = hazard_text(hazard);
    let hazard = text_of(&hazard);
    format!(in alloc; "{{\"hazard\":\"{hazard}\",\"no\":\"L14\",\"rule\":\"NumbersSpent\"}}\n")
}

/// Returns a refusal of a draft or a correction as a line of JSON with its code, `L1` to `L18`, its
/// name and its values. Any other refusal, which no plan has, becomes a line with its debug form.
///
/// # Errors
///
/// Out of memory.
pub fn refusal_text(alloc: Global, refusal: &Refusal) -> Result<String, AllocError> {
    match refusal {
        Refusal::EmptyDraft => bare(alloc, "L1", "EmptyDraft"),
        Refusal::NoEvent { event } => of_event(alloc, "L2", "NoEvent", event),
        Refusal::NotLive { event, zone } => in_zone(alloc, "L3", "NotLive", event, zone),
        Refusal::LeftBefore { event, zone } => in_zone(alloc, "L4", "LeftBefore", event, zone),
        Refusal::Twice { event, zone } => in_zone(alloc, "L5", "Twice", event, zone),
        Refusal::BadPeriod { place } => at_place(alloc, "L6", "BadPeriod", *place),
        Refusal::BegunMoved { event, zone } => in_zone(alloc, "L7", "BegunMoved", event, zone),
        Refusal::NoOpenEnd { place } => at_place(alloc, "L8", "NoOpenEnd", *place),
        Refusal::FloodNeeded { place } => at_place(alloc, "L9", "FloodNeeded", *place),
        Refusal::FloodBarred { place } => at_place(alloc, "L10", "FloodBarred", *place),
        Refusal::SiteMoved { event } => of_event(alloc, "L11", "SiteMoved", event),
        Refusal::Conflict {
            zone,
            first,
            second,
        } => conflict(alloc, zone, first, second),
        Refusal::NumberHeld { event } => of_event(alloc, "L13", "NumberHeld", event),
        Refusal::NumbersSpent { hazard } => spent(alloc, hazard),
        Refusal::NotLast { last } => {
            format!(in alloc; "{{\"last\":{last},\"no\":\"L15\",\"rule\":\"NotLast\"}}\n")
        }
        Refusal::NothingToCorrect => bare(alloc, "L16", "NothingToCorrect"),
        Refusal::LettersSpent => bare(alloc, "L17", "LettersSpent"),
        Refusal::TooManyLines { lines } => {
            format!(in alloc; "{{\"lines\":{lines},\"no\":\"L18\",\"rule\":\"TooManyLines\"}}\n")
        }
        other => format!(in alloc; "{other:?}\n"),
    }
}

/// Appends the line of a row, `ZONE EVENT BEGIN-END`, where BEGIN and END are stamps such as
/// `180103T1530Z`; END is `000000T0000Z` for until further notice.
fn push_row(alloc: Global, out: &mut String, row: &Row) -> Result<(), AllocError> {
    let zone = zone_text(&row.zone);
    let zone = text_of(&zone);
    let event = event_text(alloc, &row.event)?;
    let begin = stamp(row.period.begin);
    let begin = text_of(&begin);
    let end = end_text(&row.period.end);
    let end = text_of(&end);
    writeln!(out, "{zone} {event} {begin}-{end}")
}

/// Returns a line `ZONE EVENT BEGIN-END` for each row, in the order of `rows`.
///
/// # Errors
///
/// Out of memory.
pub fn board_text(alloc: Global, rows: &[Row]) -> Result<String, AllocError> {
    let mut out = String::new(alloc);
    for row in rows {
        push_row(alloc, &mut out, row)?;
    }
    Ok(out)
}

/// Returns the refusal `Conflict` for a clash, two events that conflict in a zone, as a line of
/// JSON. It is the line `no clash` if `found` is `None`.
///
/// # Errors
///
/// Out of memory.
pub fn clash_text(alloc: Global, found: &Option<Clash>) -> Result<String, AllocError> {
    match found {
        Some(clash) => conflict(alloc, &clash.zone, &clash.first, &clash.second),
        None => String::from_str(alloc, "no clash\n"),
    }
}

/// Appends the line `EVENT END` of an event that has an unended row; END is the latest end of its
/// unended rows.
fn push_standing(alloc: Global, out: &mut String, standing: &Standing) -> Result<(), AllocError> {
    let event = event_text(alloc, &standing.event)?;
    let end = end_text(&standing.latest);
    let end = text_of(&end);
    writeln!(out, "{event} {end}")
}

/// Returns a line `EVENT END` for each event that has an unended row, in the order of `standing`.
/// END is the latest end of the event's unended rows.
///
/// # Errors
///
/// Out of memory.
pub fn standing_text(alloc: Global, standing: &[Standing]) -> Result<String, AllocError> {
    let mut out = String::new(alloc);
    for event in standing {
        push_standing(alloc, &mut out, event)?;
    }
    Ok(out)
}
