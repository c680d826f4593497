//! The reasons for which a request is refused.
ghost use Rattle.std.specs.Prelude.{◌≡◌};
ghost use Rattle.office_types.specs.Refusals.{label};

use crate::desk::Desk;
use hazard_types::{Event, Hazard, Minute, Text, Zone};

/// Why a request is refused, with the values that the reply names. `place` is the place of an
/// intent in its draft, counted from 0.
///
/// Source: docs/REQUESTS.md, "Refusals".
#[derive(Clone, Debug, Drop, PartialEq, Eq)]
pub enum Refusal {
    // Of a call over HTTP.
    /// The head of the call is not one of HTTP/1.0 or 1.1, or its Content-Length is not one number.
    BadHead,
    /// The head of the call has more than 8,192 bytes or 32 fields.
    HeadTooLong,
    /// There is no such path.
    NoRoute,
    /// The path has another method.
    WrongMethod,
    /// The head of the call has no Content-Length, or a Transfer-Encoding.
    NoLength,
    /// The body of the call would have more than 65,536 bytes.
    BodyTooLong,

    // Of the text of a request.
    /// The line has more than 65,536 bytes.
    LineTooLong,
    /// The line is not JSON.
    NotJson,
    /// A field is missing or wrong. `field` is its name, `?` for an unknown key, `.` for a value
    /// that is not an object.
    WrongShape {
        field: Text,
    },

    // Of the desk, its numbers and the clock.
    /// The office has no such desk.
    UnknownDesk,
    /// The number is `last`, that of the desk's last request, and the request is another.
    Reused {
        last: u32,
    },
    /// The number is below `last`, that of the desk's last request.
    Stale {
        last: u32,
    },
    /// The number is more than one above `last`, that of the desk's last request.
    Gap {
        last: u32,
    },
    /// The clock's reading is out of range. `minute` is the reading, in minutes since 2000-01-01
    /// 00:00 UTC.
    ClockOut {
        minute: i64,
    },

    // Of drafts and the parts of a request.
    /// No draft has this number.
    NoDraft,
    /// Another desk, `owner`, owns the draft.
    NotOwner {
        owner: Desk,
    },
    /// The draft of another desk cannot be taken before `free_at`.
    StillActive {
        free_at: Minute,
    },
    /// There are 64 drafts.
    DraftsFull,
    /// The draft has 64 intents.
    IntentsFull,
    /// The draft has no intent at this place.
    NoIntent {
        place: u32,
    },
    /// The office has no such zone.
    UnknownZone {
        zone: Zone,
    },
    /// The desk issues no such hazard.
    UnknownHazard,
    /// The hazard is not for zones of this kind.
    WrongZoneKind {
        zone: Zone,
    },
    /// The hazard is not of the draft's category.
    WrongCategory,
    /// A text has a byte that is not printable, or `$$` or `&&`. `field` is its name, and `at` the
    /// index of the byte.
    BadText {
        field: Text,
        at: usize,
    },
    /// The text `field` has more than 4,096 bytes.
    TextTooLong {
        field: Text,
    },
    /// There is no zone, a zone occurs twice, or there are more than 600.
    BadZoneList,
    /// No product has this number.
    NoProduct,

    // Of what a product says, and of the journal.
    /// The draft has no intent.
    EmptyDraft,
    /// The event is not open, or the product to be corrected has no line of it.
    NoEvent {
        event: Event,
    },
    /// The event is not live in the zone. One that is to be ended may be half an hour past its end.
    NotLive {
        event: Event,
        zone: Zone,
    },
    /// The end of the event in the zone has come, and no line has ended it there.
    LeftBefore {
        event: Event,
        zone: Zone,
    },
    /// Two intents are on the event in the zone. Routine intents of a hazard are on one event.
    Twice {
        event: Event,
        zone: Zone,
    },
    /// The intent's begin has passed, or its end is not after both its begin and the current
    /// minute.
    BadPeriod {
        place: u32,
    },
    /// The event has begun in the zone, and would begin later.
    BegunMoved {
        event: Event,
        zone: Zone,
    },
    /// The intent is until further notice, and its hazard must have an end.
    NoOpenEnd {
        place: u32,
    },
    /// The intent has no H-VTEC values, and its hazard needs them.
    FloodNeeded {
        place: u32,
    },
    /// The intent has H-VTEC values, and its hazard has none.
    FloodBarred {
        place: u32,
    },
    /// The event has another location than the intent.
    SiteMoved {
        event: Event,
    },
    /// Two events of one family would overlap in the zone.
    Conflict {
        zone: Zone,
        first: Event,
        second: Event,
    },
    /// The number that would be opened is that of `event`, an open one of an earlier year.
    NumberHeld {
        event: Event,
    },
    /// The hazard has had 9,999 events this year.
    NumbersSpent {
        hazard: Hazard,
    },
    /// The product is not `last`, the last one of its category.
    NotLast {
        last: u32,
    },
    /// Nothing in the product's lines is live.
    NothingToCorrect,
    /// The product has had 24 corrections.
    LettersSpent,
    /// The product would have more than 2,000 lines; `lines` is how many.
    TooManyLines {
        lines: usize,
    },
    /// The product would have more than 65,536 bytes; `bytes` is how many.
    TooLong {
        bytes: usize,
    },
    /// The journal has 8,192 products.
    ProductsFull,
    /// The journal would have more than 268,435,456 bytes.
    JournalFull,
}

impl Refusal {
    /// Returns the refusal's code, its name, and the HTTP status of a call that is refused for it,
    /// such as `("E7", "UnknownZone", 422)`.
    ///
    /// Source: docs/REQUESTS.md, "Refusals"; docs/DECISIONS.md, "Forms".
    #[tactic(auto, unfolding(crate::specs::Refusals::label))]
    pub fn label(&self) -> (&'static str, &'static str, u16)
        ensures { (result.0.now, result.1.now, result.2) ≡ label self.now }
    {
        match self {
            Refusal::BadHead => ("F1", "BadHead", 400),
            Refusal::HeadTooLong => ("F2", "HeadTooLong", 431),
            Refusal::NoRoute => ("F3", "NoRoute", 404),
            Refusal::WrongMethod => ("F4", "WrongMethod", 405),
            Refusal::NoLength => ("F5", "NoLength", 411),
            Refusal::BodyTooLong => ("F6", "BodyTooLong", 413),
            Refusal::LineTooLong => ("J3", "LineTooLong", 413),
            Refusal::NotJson => ("J1", "NotJson", 400),
            Refusal::WrongShape { .. } => ("J2", "WrongShape", 422),
            Refusal::UnknownDesk => ("K1", "UnknownDesk", 403),
            Refusal::Reused { .. } => ("K2", "Reused", 409),
            Refusal::Stale { .. } => ("K3", "Stale", 409),
            Refusal::Gap { .. } => ("K4", "Gap", 409),
            Refusal::ClockOut { .. } => ("C1", "ClockOut", 422),
            Refusal::NoDraft => ("E1", "NoDraft", 404),
            Refusal::NotOwner { .. } => ("E2", "NotOwner", 409),
            Refusal::StillActive { .. } => ("E3", "StillActive", 409),
            Refusal::DraftsFull => ("E4", "DraftsFull", 409),
            Refusal::IntentsFull => ("E5", "IntentsFull", 409),
            Refusal::NoIntent { .. } => ("E6", "NoIntent", 422),
            Refusal::UnknownZone { .. } => ("E7", "UnknownZone", 422),
            Refusal::UnknownHazard => ("E8", "UnknownHazard", 422),
            Refusal::WrongZoneKind { .. } => ("E9", "WrongZoneKind", 422),
            Refusal::WrongCategory => ("E10", "WrongCategory", 422),
            Refusal::BadText { .. } => ("E11", "BadText", 422),
            Refusal::TextTooLong { .. } => ("E12", "TextTooLong", 422),
            Refusal::BadZoneList => ("E13", "BadZoneList", 422),
            Refusal::NoProduct => ("E14", "NoProduct", 404),
            Refusal::EmptyDraft => ("L1", "EmptyDraft", 422),
            Refusal::NoEvent { .. } => ("L2", "NoEvent", 409),
            Refusal::NotLive { .. } => ("L3", "NotLive", 409),
            Refusal::LeftBefore { .. } => ("L4", "LeftBefore", 409),
            Refusal::Twice { .. } => ("L5", "Twice", 422),
            Refusal::BadPeriod { .. } => ("L6", "BadPeriod", 422),
            Refusal::BegunMoved { .. } => ("L7", "BegunMoved", 409),
            Refusal::NoOpenEnd { .. } => ("L8", "NoOpenEnd", 422),
            Refusal::FloodNeeded { .. } => ("L9", "FloodNeeded", 422),
            Refusal::FloodBarred { .. } => ("L10", "FloodBarred", 422),
            Refusal::SiteMoved { .. } => ("L11", "SiteMoved", 409),
            Refusal::Conflict { .. } => ("L12", "Conflict", 409),
            Refusal::NumberHeld { .. } => ("L13", "NumberHeld", 409),
            Refusal::NumbersSpent { .. } => ("L14", "NumbersSpent", 409),
            Refusal::NotLast { .. } => ("L15", "NotLast", 409),
            Refusal::NothingToCorrect => ("L16", "NothingToCorrect", 409),
            Refusal::LettersSpent => ("L17", "LettersSpent", 409),
            Refusal::TooManyLines { .. } => ("L18", "TooManyLines", 422),
            Refusal::TooLong { .. } => ("L19", "TooLong", 422),
            Refusal::ProductsFull => ("L20", "ProductsFull", 409),
            Refusal::JournalFull => ("L21", "JournalFull", 409),
        }
    }
}
