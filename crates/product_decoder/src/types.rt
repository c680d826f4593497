//! What a product says, and what is found over a list of products.
use event_life::Breach;
use hazard_types::{Action, Event, Flood, Hazard, List, Minute, Period, Text, Vtec, Zone};

/// What a product says.
#[derive(Clone, Debug, Drop, PartialEq, Eq)]
pub struct Decoded {
    /// As the text has it, for example `WSWLWX`.
    pub identifier: Text,
    pub issue: Minute,
    /// Its lines, by segment, then zone, then P-VTEC line.
    pub pairs: List<ZonePair>,
}

/// What a product says of one zone: a P-VTEC line of its segment.
#[derive(Clone, Copy, Debug, PartialEq, Eq)]
pub struct ZonePair {
    pub zone: Zone,
    pub vtec: Vtec,
    /// The values of the H-VTEC line after it, if there is one.
    pub flood: Option<Flood>,
}

/// The life of an event in a zone.
#[derive(Clone, Debug, Drop, PartialEq, Eq)]
pub struct Track {
    pub event: Event,
    pub zone: Zone,
    /// The action and issue minute of each lawful line, in the order of the products.
    pub steps: List<(Action, Minute)>,
}

/// A line in breach.
#[derive(Clone, Copy, Debug, PartialEq, Eq)]
pub struct Found {
    /// The 1-based number of its product among those that were taken.
    pub product: u32,
    pub event: Event,
    pub zone: Zone,
    pub breach: Breach,
}

/// An event that was opened with another number than the next one of its hazard and year.
#[derive(Clone, Copy, Debug, PartialEq, Eq)]
pub struct GapFound {
    pub hazard: Hazard,
    pub year: u16,
    /// The next number, or 65,535 if it is greater.
    pub wanted: u16,
    pub found: u16,
}

/// What a lawful NEW, EXA or EXB line opened: an event in a zone.
#[derive(Clone, Copy, Debug, PartialEq, Eq)]
pub struct Opening {
    pub event: Event,
    pub zone: Zone,
    /// It begins at the issue minute if the line has a begin of zeros.
    pub period: Period,
    /// The issue minute of its product.
    pub issue: Minute,
}
