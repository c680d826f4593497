//! Rows of what is found in the products of a stream.
ghost use Rattle.std.specs.Prelude.{◌≡◌, ◌-◌, ◌++◌, map, flat_map, OnOk};
ghost use Rattle.warn_codes_c.specs.Rows.{event_fields, blank_row, step_row, steps_in, breach_code, number_at, breach_row, gap_row, end_number, live_row};

use crate::fields::{FloodFields, ZoneFields, zone_fields};
use crate::frames::flood_fields_or_zeros;
use event_life::Breach;
use hazard_types::{Action, End, Event, List, Minute, Oom, Row};
use product_decoder::{Found, GapFound, Track};

/// An event.
#[repr(C)]
#[derive(Clone, Copy)]
pub struct EventFields {
    pub number: u16,
    /// The year in which it was opened.
    pub year: u16,
    pub phenomenon: [u8; 2],
    pub significance: u8,
}

/// A row of an answer; a field that its kind does not use is 0. A lawful line (1) has event, zone,
/// action and issue minute; a line in breach (2) has event, zone, product and rule; a gap (3) has
/// the event with the number that it has, and the number wanted; a live row (4) has event, zone,
/// period and H-VTEC values. Times are in minutes since 2000-01-01T00:00Z UTC.
#[repr(C)]
#[derive(Clone, Copy)]
pub struct RowFields {
    /// The 1-based number of the line's product among all, those with a fault among them.
    pub product: u32,
    /// The issue minute of the line's product.
    pub issue: u32,
    pub begin: u32,
    /// 4,294,967,295 if it is until further notice.
    pub end: u32,
    pub flood: FloodFields,
    pub event: EventFields,
    pub zone: ZoneFields,
    pub wanted: u16,
    pub action: [u8; 3],
    /// The rule that the line breaks, 1 to 13, in the order of `Breach`.
    pub breach: u8,
    /// 1 if `flood` has values.
    pub has_flood: u8,
    /// The number of the question that the row answers, 1 to 4.
    pub kind: u8,
}

/// Returns an event in the fixed layout for C.
fn event_fields(event: &Event) -> EventFields
    ensures { result ≡ event_fields event.now }
{
    EventFields {
        number: event.etn,
        year: event.year,
        phenomenon: event.hazard.phen.letters(),
        significance: event.hazard.sig.letter(),
    }
}

/// Returns a row whose fields are all zero.
fn blank_row() -> RowFields
    ensures { result ≡ blank_row }
{
    RowFields {
        product: 0,
        issue: 0,
        begin: 0,
        end: 0,
        flood: flood_fields_or_zeros(&None),
        event: EventFields {
            number: 0,
            year: 0,
            phenomenon: [0; 2],
            significance: 0,
        },
        zone: ZoneFields {
            number: 0,
            state: [0; 2],
            kind: 0,
        },
        wanted: 0,
        action: [0; 3],
        breach: 0,
        has_flood: 0,
        kind: 0,
    }
}

/// Returns the row (kind 1) of a lawful line on the event and zone of `life`. `step` is the line's
/// action and the issue minute of its product.
fn step_row(life: &Track, step: &(Action, Minute)) -> RowFields
    ensures { result ≡ step_row life.now step.now }
{
    let mut row = blank_row();
    row.kind = 1;
    row.event = event_fields(&life.event);
    row.zone = zone_fields(&life.zone);
    row.action = step.0.code();
    row.issue = step.1.get();
    row
}

/// Appends a row for each lawful line on one event in one zone, in the order of the products.
fn add_steps(rows: &mut List<RowFields>, life: &Track) -> Result<(), Oom>
    ensures { OnOk result (rows.new ≡ rows.old ++ steps_in life.now) }
{
    for step in life.steps.as_slice() {
        rows.push(step_row(life, step))?;
    }
    Ok(())
}

/// Appends a row for each lawful line of each life, one life after another. A life is an event in a
/// zone.
///
/// # Errors
///
/// Out of memory.
pub fn add_lives(rows: &mut List<RowFields>, lives: &[Track]) -> Result<(), Oom>
    ensures { OnOk result (rows.new ≡ rows.old ++ flat_map steps_in lives.now) }
{
    for life in lives {
        add_steps(rows, life)?;
    }
    Ok(())
}

/// Returns the number of the rule that a line breaks: 1 for `Reopened` to 13 for `Twice`, in the
/// order in which `Breach` has them.
fn breach_code(breach: Breach) -> u8
    ensures { result ≡ breach_code breach }
{
    match breach {
        Breach::Reopened => 1,
        Breach::NotOpening => 2,
        Breach::NumberHeld => 3,
        Breach::ZeroBegin => 4,
        Breach::TooEarly => 5,
        Breach::NoLength => 6,
        Breach::PeriodMoved => 7,
        Breach::PeriodSame => 8,
        Breach::NotLive => 9,
        Breach::BegunMoved => 10,
        Breach::TooLate => 11,
        Breach::NoHigher => 12,
        Breach::Twice => 13,
    }
}

/// Returns a product's 1-based number among all products of the stream, or 0 if `product` is above
/// the count of products without a fault. `product` is its 1-based number among those without a
/// fault, and `numbers` has for each of these, in the order of the stream, the number among all.
fn number_at(numbers: &[u32], product: u32) -> u32
    ensures { result ≡ number_at numbers.now product }
{
    let at = product.saturating_sub(1) as usize;
    if at < numbers.len() { numbers[at] } else { 0 }
}

/// Returns the row (kind 2) of a line that breaks a rule. `numbers` has for each product without a
/// fault, in the order of the stream, its 1-based number among all products.
fn breach_row(numbers: &[u32], found: &Found) -> RowFields
    ensures { result ≡ breach_row numbers.now found.now }
{
    let mut row = blank_row();
    row.kind = 2;
    row.event = event_fields(&found.event);
    row.zone = zone_fields(&found.zone);
    row.product = number_at(numbers, found.product);
    row.breach = breach_code(found.breach);
    row
}

/// Appends a row (kind 2) for each of `breaches`, the lines that break a rule, in their order.
/// `numbers` has for each product without a fault, in the order of the stream, its 1-based number
/// among all products.
///
/// # Errors
///
/// Out of memory.
pub fn add_breaches(
    rows: &mut List<RowFields>,
    numbers: &[u32],
    breaches: &[Found],
) -> Result<(), Oom>
    ensures { OnOk result (rows.new ≡ rows.old ++ map (breach_row numbers.now) breaches.now) }
{
    for found in breaches {
        rows.push(breach_row(numbers, found))?;
    }
    Ok(())
}

/// Returns the row (kind 3) of a gap in the event tracking numbers: of an event that was opened
/// with another number than the next one of its hazard and year. It has the event's number and the
/// number wanted.
fn gap_row(gap: &GapFound) -> RowFields
    ensures { result ≡ gap_row gap.now }
{
    let mut row = blank_row();
    row.kind = 3;
    row.event = EventFields {
        number: gap.found,
        year: gap.year,
        phenomenon: gap.hazard.phen.letters(),
        significance: gap.hazard.sig.letter(),
    };
    row.wanted = gap.wanted;
    row
}

/// Appends a row (kind 3) for each of `gaps`, the gaps in the event tracking numbers, in their
/// order.
///
/// # Errors
///
/// Out of memory.
pub fn add_gaps(rows: &mut List<RowFields>, gaps: &[GapFound]) -> Result<(), Oom>
    ensures { OnOk result (rows.new ≡ rows.old ++ map gap_row gaps.now) }
{
    for gap in gaps {
        rows.push(gap_row(gap))?;
    }
    Ok(())
}

/// Returns an end in minutes since 2000-01-01 00:00 UTC, or 4,294,967,295 for until further notice.
fn end_number(end: &End) -> u32
    ensures { result ≡ end_number end.now }
{
    match end {
        End::At(minute) => minute.get(),
        End::Ufn => u32::MAX,
    }
}

/// Returns the row (kind 4) of an event that is live in a zone, with the period and the H-VTEC
/// values of `shown`, its row on the board.
fn live_row(shown: &Row) -> RowFields
    ensures { result ≡ live_row shown.now }
{
    let mut row = blank_row();
    row.kind = 4;
    row.event = event_fields(&shown.event);
    row.zone = zone_fields(&shown.zone);
    row.begin = shown.period.begin.get();
    row.end = end_number(&shown.period.end);
    row.flood = flood_fields_or_zeros(&shown.flood);
    row.has_flood = u8::from(shown.flood.is_some());
    row
}

/// Appends a row (kind 4) for each of `shown`, the rows that are live at a minute, in their order.
///
/// # Errors
///
/// Out of memory.
pub fn add_live_rows(rows: &mut List<RowFields>, shown: &[Row]) -> Result<(), Oom>
    ensures { OnOk result (rows.new ≡ rows.old ++ map live_row shown.now) }
{
    for row in shown {
        rows.push(live_row(row))?;
    }
    Ok(())
}
