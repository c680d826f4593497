//! Texts of values and errors, for people.
use crate::calendar::stamp;
use crate::hazard::{Event, Hazard};
use crate::list::Oom;
use crate::minute::Minute;
use crate::names::{hazard_text, zone_text};
use crate::or::Or;
use crate::zone::Zone;
use std::error::Error;
use std::{fmt, str};

/// Returns the bytes as text, or `?` if they are not UTF-8.
pub fn text_of(bytes: &[u8]) -> &str {
    str::from_utf8(bytes).unwrap_or("?")
}

/// Writes the zone as `MDZ003`.
impl fmt::Display for Zone {
    fn fmt<W: fmt::Write>(&self, f: &mut fmt::Formatter<W>) -> fmt::Result {
        f.pad(text_of(&zone_text(self)))
    }
}

/// Writes the hazard as `WS.W`.
impl fmt::Display for Hazard {
    fn fmt<W: fmt::Write>(&self, f: &mut fmt::Formatter<W>) -> fmt::Result {
        f.pad(text_of(&hazard_text(self)))
    }
}

/// Writes the event as `WS.W.0001.2018`.
impl fmt::Display for Event {
    fn fmt<W: fmt::Write>(&self, f: &mut fmt::Formatter<W>) -> fmt::Result {
        let hazard = &self.hazard;
        let number = self.etn;
        let year = self.year;
        write!(f, "{hazard}.{number:04}.{year:04}")
    }
}

/// Writes the minute as its stamp, `180103T1530Z`.
impl fmt::Display for Minute {
    fn fmt<W: fmt::Write>(&self, f: &mut fmt::Formatter<W>) -> fmt::Result {
        f.pad(text_of(&stamp(*self)))
    }
}

impl fmt::Display for Oom {
    fn fmt<W: fmt::Write>(&self, f: &mut fmt::Formatter<W>) -> fmt::Result {
        f.write_str("out of memory")
    }
}

impl Error for Oom {}

/// Writes the text of the refusal, or that of `Oom`.
impl<E: fmt::Display> fmt::Display for Or<E> {
    fn fmt<W: fmt::Write>(&self, f: &mut fmt::Formatter<W>) -> fmt::Result {
        match self {
            Or::No(refusal) => write!(f, "{refusal}"),
            Or::OutOfMemory => write!(f, "{Oom}"),
        }
    }
}

impl<E: Error> Error for Or<E> {}
