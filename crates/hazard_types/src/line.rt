//! The values of P-VTEC and H-VTEC strings, and the lines, segments and rows of events in zones.
use crate::codes::{Action, Cause, Class, Severity, Status};
use crate::hazard::{Event, Hazard};
use crate::list::List;
use crate::minute::Minute;
use crate::period::{End, Period};
use crate::zone::Zone;

/// The values of an H-VTEC string. A time of `None` is zeros in the text.
///
/// Source: NWS Instruction 10-1703, H-VTEC.
#[derive(Clone, Copy, Debug, PartialEq, Eq, Hash)]
pub struct Flood {
    /// The location: five characters of A-Z and 0-9.
    pub site: [u8; 5],
    /// The severity.
    pub severity: Severity,
    /// The immediate cause.
    pub cause: Cause,
    /// The begin of the flood.
    pub begin: Option<Minute>,
    /// The crest of the flood.
    pub crest: Option<Minute>,
    /// The end of the flood.
    pub end: Option<Minute>,
    /// The record status.
    pub status: Status,
}

/// The values of a P-VTEC string.
///
/// Source: NWS Instruction 10-1703, P-VTEC.
#[derive(Clone, Copy, Debug, PartialEq, Eq)]
pub struct Vtec {
    /// The product class.
    pub class: Class,
    /// The action.
    pub action: Action,
    /// The office: four characters of A-Z and 0-9.
    pub office: [u8; 4],
    /// The phenomenon and the significance.
    pub hazard: Hazard,
    /// The event tracking number, 0 to 9,999 in a string.
    pub etn: u16,
    /// The begin, or `None` if it has passed.
    pub begin: Option<Minute>,
    /// The end, or `None` if it is until further notice.
    pub end: Option<Minute>,
}

/// What a product says of an event in a zone.
#[derive(Clone, Copy, Debug, PartialEq, Eq)]
pub struct Line {
    /// The action.
    pub action: Action,
    /// The event.
    pub event: Event,
    /// The zone.
    pub zone: Zone,
    /// The begin, or `None` if zeros are printed for it.
    pub begin: Option<Minute>,
    /// The end.
    pub end: End,
    /// The values of its H-VTEC string, if it has one.
    pub flood: Option<Flood>,
}

/// A line of a segment, without its zone: it is said of each zone of the segment.
#[derive(Clone, Copy, Debug, PartialEq, Eq, Hash)]
pub struct SegLine {
    /// The action.
    pub action: Action,
    /// The event.
    pub event: Event,
    /// The begin, or `None` if zeros are printed for it.
    pub begin: Option<Minute>,
    /// The end.
    pub end: End,
    /// The values of its H-VTEC string, if it has one.
    pub flood: Option<Flood>,
}

/// A segment of a product: zones that share a list of lines.
///
/// Source: NWS Instruction 10-1701, segmented products.
#[derive(Clone, Debug, Drop, PartialEq, Eq)]
pub struct Segment {
    /// The zones.
    pub zones: List<Zone>,
    /// The lines.
    pub lines: List<SegLine>,
}

/// An event in a zone, after the lines so far.
#[derive(Clone, Copy, Debug, PartialEq, Eq)]
pub struct Row {
    /// The event.
    pub event: Event,
    /// The zone.
    pub zone: Zone,
    /// When the event is in effect in the zone.
    pub period: Period,
    /// Its H-VTEC values, if it has some.
    pub flood: Option<Flood>,
    /// Whether a line has ended it.
    pub ended: bool,
}

/// Two events of one family whose periods overlap in a zone.
#[derive(Clone, Copy, Debug, PartialEq, Eq)]
pub struct Clash {
    /// The zone.
    pub zone: Zone,
    /// One event.
    pub first: Event,
    /// The other event.
    pub second: Event,
}

/// A range of bytes.
#[derive(Clone, Copy, Debug, PartialEq, Eq)]
pub struct Span {
    /// The index of the first byte.
    pub from: usize,
    /// The index after the last byte.
    pub to: usize,
}
