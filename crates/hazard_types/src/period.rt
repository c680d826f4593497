//! The begin, the end and the period of an event.
use crate::minute::Minute;

/// The begin of an event in a request.
#[derive(Clone, Copy, Debug, PartialEq, Eq)]
pub enum Begin {
    /// The minute at which the product is sent.
    Now,
    /// This minute.
    At(Minute),
}

/// The end of an event. Each minute comes before until further notice.
#[derive(Clone, Copy, Debug, PartialEq, Eq, PartialOrd, Ord, Hash)]
pub enum End {
    /// This minute.
    At(Minute),
    /// Until further notice.
    Ufn,
}

/// The time from a begin to an end.
#[derive(Clone, Copy, Debug, PartialEq, Eq)]
pub struct Period {
    /// The first minute.
    pub begin: Minute,
    /// The end.
    pub end: End,
}
