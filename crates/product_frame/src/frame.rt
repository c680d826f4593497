//! The frame of a product, and its parts.
use hazard_types::{DayStamp, Flood, List, Minute, Text, Vtec, Zone};
use thiserror::Error;

/// The values of a heading line, `TTAAii CCCC DDHHMM` with an optional `BBB`.
///
/// Source: NWS Instruction 10-1701, WMO heading.
#[derive(Clone, Copy, Debug, PartialEq, Eq)]
pub struct Heading {
    /// Four capital letters and two digits, as `WWUS41`.
    pub ttaaii: [u8; 6],
    /// Four characters of A-Z and 0-9, as `KLWX`.
    pub office: [u8; 4],
    /// The day of the month, hour and minute, in UTC.
    pub day: DayStamp,
    /// Three capital letters, if the line has them, as `CCA`.
    pub bbb: Option<[u8; 3]>,
}

/// The values of a P-VTEC line, and of the H-VTEC line after it, if there is one.
#[derive(Clone, Copy, Debug, PartialEq, Eq)]
pub struct Pair {
    pub vtec: Vtec,
    pub flood: Option<Flood>,
}

/// A segment of a product.
///
/// Source: NWS Instruction 10-1701, segmented products.
#[derive(Clone, Debug, Drop, PartialEq, Eq)]
pub struct FrameSegment {
    /// The zones of its UGC, in order, each once.
    pub zones: List<Zone>,
    /// The expiry of its UGC: day of the month, hour and minute, in UTC.
    pub expiry: DayStamp,
    /// Its P-VTEC lines, each with its H-VTEC line, in the order of the text.
    pub pairs: List<Pair>,
}

/// The frame of a product: all that a reader takes from its text.
#[derive(Clone, Debug, Drop, PartialEq, Eq)]
pub struct Frame {
    /// The values of its first line.
    pub heading: Heading,
    /// The AWIPS identifier, as `WSWLWX`: three capital letters and one to three characters of A-Z
    /// and 0-9.
    pub identifier: Text,
    /// The minute of the first local line after the identifier.
    pub issue: Minute,
    /// The segments, in the order of the text; there may be none.
    pub segments: List<FrameSegment>,
}

/// Why a text has no frame: the first fault. `NoHeading`, `NoIdentifier`, `NoIssueTime` and
/// `IssueDisagrees` are judged first, in this order; of the others the first in the order of the
/// lines is named. Lines count from the heading, which is line 1.
///
/// Source: docs/LIBRARY.md, "The text of a product".
#[derive(Clone, Copy, Debug, PartialEq, Eq, Error)]
pub enum FrameFault {
    /// No line is a heading.
    #[error("no line is a heading, such as WWUS41 KLWX 031530")]
    NoHeading,
    /// The first line after the heading that is not empty is no identifier, or there is no such
    /// line.
    #[error("the line after the heading is no identifier, such as WSWLWX")]
    NoIdentifier,
    /// No line after the identifier is a local line.
    #[error("no line is the time of issue, such as 1030 AM EST Wed Jan 3 2018")]
    NoIssueTime,
    /// The heading's day stamp is not within twelve hours of the issue minute.
    #[error("the heading's time is not within twelve hours of the time of issue")]
    IssueDisagrees,
    /// The product ends within the segment whose UGC starts on this line.
    #[error("line {line}: the segment that begins here has no end")]
    NoSegmentEnd { line: usize },
    /// The bytes from this line on do not start with a UGC text, or more than blanks follows it on
    /// its last line.
    #[error("line {line}: no zone codes (UGC), or text behind them")]
    BadUgc { line: usize },
    /// This line starts with `/` where VTEC lines are, and is neither a P-VTEC line nor the one
    /// H-VTEC line after a P-VTEC line.
    #[error("line {line}: neither a P-VTEC text nor the one H-VTEC text behind it")]
    BadVtec { line: usize },
}
