//! The steps of a script of an office, one a line.
use hazard_types::parse_stamp;
use office_types::{Edition, Query};

/// A step of the script.
#[derive(Clone, Copy)]
pub enum Step<'a> {
    /// Prints the line.
    Remark,
    /// Appends a line to the settings.
    Setting(&'a str),
    /// Opens an office in this edition.
    Open(Edition),
    /// Sets the edition of later texts.
    Turn(Edition),
    /// Sets the reading of the clock, in minutes since 2000-01-01 00:00 UTC.
    At(i64),
    /// Prints what a query asks for.
    Look(Query),
    /// Issues this many times.
    Fill(u32),
    /// Sends the line as a request.
    Request,
}

/// Returns the edition named `One` or `Two`, or `None` for another word.
fn edition_of(word: &str) -> Option<Edition> {
    match word {
        "One" => Some(Edition::One),
        "Two" => Some(Edition::Two),
        _ => None,
    }
}

/// Returns the reading of the clock, in minutes since 2000-01-01T00:00Z UTC, that a stamp such as
/// `180103T1530Z` or a decimal number of minutes gives, or `None` if the word is neither.
fn reading_of(word: &str) -> Option<i64> {
    match parse_stamp(word.as_bytes()) {
        Some(minute) => Some(i64::from(minute.get())),
        None => word.parse::<i64>().ok(),
    }
}

/// Returns the number that a decimal word is, or `None` if the word is no number below 2^32.
fn number_of(word: &str) -> Option<u32> {
    word.parse::<u32>().ok()
}

/// Returns the query that a word, `product`, `after`, `draft` or `preview`, names, with the number
/// `rest`. `None` for another word, or if `rest` is no number below 2^32.
fn query_of(word: &str, rest: &str) -> Option<Query> {
    let number = number_of(rest)?;
    match word {
        "product" => Some(Query::Product(number)),
        "after" => Some(Query::After(number)),
        "draft" => Some(Query::Draft(number)),
        "preview" => Some(Query::Preview(number)),
        _ => None,
    }
}

/// Returns the step of a line `board`, `> SETTING`, `open EDITION`, `edition EDITION`, `at
/// READING`, `fill NUMBER`, or `product`, `after`, `draft` or `preview` with a NUMBER. EDITION is
/// `One` or `Two`, READING a stamp as `180103T1530Z` or a decimal number of minutes since
/// 2000-01-01T00:00Z UTC, and NUMBER a decimal number below 2^32. `None` if the line has no such
/// form; it is a request then.
fn worded_step(line: &str) -> Option<Step<'_>> {
    if line == "board" {
        return Some(Step::Look(Query::Board));
    }
    let (word, rest) = line.split_once(' ')?;
    let step = match word {
        ">" => Step::Setting(rest),
        "open" => Step::Open(edition_of(rest)?),
        "edition" => Step::Turn(edition_of(rest)?),
        "at" => Step::At(reading_of(rest)?),
        "fill" => Step::Fill(number_of(rest)?),
        _ => Step::Look(query_of(word, rest)?),
    };
    Some(step)
}

/// Returns the step of a line. An empty line and one that begins with `#` are remarks, and one that
/// has the form of no other step is a request.
pub fn step_of(line: &str) -> Step<'_> {
    if line.is_empty() || line.starts_with('#') {
        return Step::Remark;
    }
    worded_step(line).unwrap_or(Step::Request)
}
