//! The reasons for which a line is refused.
use hazard_types::{Event, Minute, Text, Zone};

/// Why a line is refused. The length is tested first, then the other reasons in this order; the
/// last is found once the notice is written.
///
/// Source: docs/NOTICES.md, "Refusals".
#[derive(Clone, Debug, Drop, PartialEq, Eq)]
pub enum NoticeRefusal {
    /// The line has more than 65,536 bytes.
    LineTooLong,
    /// The line is not JSON.
    NotJson,
    /// A field is missing or wrong. `field` is its name, `?` for an unknown key, `.` for a value
    /// that is not an object.
    WrongShape { field: Text },
    /// The minute is above 52,000,000, in November 2098.
    TimeOut { minute: Minute },
    /// The minute is before `last`, that of the last accepted line.
    TimeBack { last: Minute },
    /// There is no zone, a zone occurs twice, or there are more than 600.
    BadZones,
    /// The zone, the first such one as written, is not a county.
    NotCounty { zone: Zone },
    /// The end is not after the line's minute.
    BadEnd,
    /// The event that is to be opened was opened before.
    NumberUsed { event: Event },
    /// The number that is to be opened is that of `event`, an open one of an earlier year.
    NumberHeld { event: Event },
    /// No watch with this hazard and number is open.
    NoWatch,
    /// In this zone, the first such one as written, the end of the watch to be joined has come and
    /// no line has ended it.
    LeftBefore { zone: Zone },
    /// In this zone, the first such one as written, the watch cannot be ended: it has no row, was
    /// ended, or its end is more than half an hour past.
    NotLive { zone: Zone },
    /// The notice would have more than 65,536 bytes; `bytes` is how many.
    TooLong { bytes: usize },
}
