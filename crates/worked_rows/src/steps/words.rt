//! The steps of a script of lives, and their words.
use hazard_types::{
    Cause, End, Flood, Line, Minute, Period, Row, Severity, Status, Zone, actions, find,
    parse_event, parse_stamp, parse_time, parse_zone,
};
use std::str::SplitWhitespace;

/// The error of a line that is no step.
#[derive(Clone, Copy, Debug, PartialEq, Eq)]
pub struct Unread;

/// A step of the script.
#[derive(Clone, Copy, Debug)]
pub enum Step {
    /// Removes all rows.
    Clear,
    /// Sets the minute of the products.
    At(Minute),
    /// Puts a row.
    Stand(Row),
    /// Prints what a line would leave.
    Judge(Line),
    /// Prints what a line leaves, and puts the row of its life, if the line is lawful.
    Take(Line),
}

/// Returns the value in `found`, or errs with `Unread` if it is `None`.
fn known<T>(found: Option<T>) -> Result<T, Unread> {
    found.ok_or(Unread)
}

/// Returns the next of the words, or errs with `Unread` if there is none left.
fn next_word<'a>(words: &mut SplitWhitespace<'a>) -> Result<&'a str, Unread> {
    known(words.next())
}

/// Returns the flood values of severity 1 (minor), cause ER and status NO at a location, without
/// times, or `None` if its code has not five bytes.
fn flood_at(location: &str) -> Option<Flood> {
    let [a, b, c, d, e] = location.as_bytes() else {
        return None;
    };
    Some(Flood {
        site: [*a, *b, *c, *d, *e],
        severity: Severity::One,
        cause: Cause::new(*b"ER")?,
        begin: None,
        crest: None,
        end: None,
        status: Status::No,
    })
}

/// Returns the flood values at the location whose code is the word, or `Ok(None)` if there is no
/// word. Errs with `Unread` if the word has not five bytes.
fn flood_of(word: Option<&str>) -> Result<Option<Flood>, Unread> {
    match word {
        None => Ok(None),
        Some(word) => Ok(Some(known(flood_at(word))?)),
    }
}

/// Returns the minute of a stamp such as `180103T1530Z` (UTC), or `Ok(None)` for the zeros
/// `000000T0000Z`. Errs with `Unread` if the word is neither.
fn time_of(word: &str) -> Result<Option<Minute>, Unread> {
    known(parse_time(word.as_bytes()))
}

/// Returns the end that a word gives, a stamp such as `180103T1530Z`, or the zeros `000000T0000Z`
/// for until further notice. Errs with `Unread` if the word is neither.
fn end_of(word: &str) -> Result<End, Unread> {
    match time_of(word)? {
        Some(minute) => Ok(End::At(minute)),
        None => Ok(End::Ufn),
    }
}

/// Returns the minute of a stamp such as `180103T1530Z` (UTC), or errs with `Unread` if the word is
/// no stamp.
fn minute_of(word: &str) -> Result<Minute, Unread> {
    known(parse_stamp(word.as_bytes()))
}

/// Returns the zone that a word such as `MDZ003` is, or errs with `Unread` if the word has another
/// form.
fn zone_of(word: &str) -> Result<Zone, Unread> {
    known(parse_zone(word.as_bytes()))
}

/// Returns the row of the next words `ZONE EVENT BEGIN END`, then the location of its flood values,
/// if any; `ended` says whether a line has ended it. END is zeros for until further notice. Errs
/// with `Unread` if a word is missing or cannot be read.
fn row_of(words: &mut SplitWhitespace<'_>, ended: bool) -> Result<Row, Unread> {
    let zone = zone_of(next_word(words)?)?;
    let event = known(parse_event(next_word(words)?.as_bytes()))?;
    let begin = minute_of(next_word(words)?)?;
    let end = end_of(next_word(words)?)?;
    let flood = flood_of(words.next())?;
    Ok(Row {
        event,
        zone,
        period: Period { begin, end },
        flood,
        ended,
    })
}

/// Returns the line of the next words `ACTION ZONE EVENT BEGIN END`, then the location of its flood
/// values, if any. A begin that has passed and an end until further notice are zeros, as in a
/// P-VTEC string. Errs with `Unread` if a word is missing or cannot be read.
fn line_of(words: &mut SplitWhitespace<'_>) -> Result<Line, Unread> {
    let action = known(find(&actions(), next_word(words)?.as_bytes()))?;
    let zone = zone_of(next_word(words)?)?;
    let event = known(parse_event(next_word(words)?.as_bytes()))?;
    let begin = time_of(next_word(words)?)?;
    let end = end_of(next_word(words)?)?;
    let flood = flood_of(words.next())?;
    Ok(Line {
        action,
        event,
        zone,
        begin,
        end,
        flood,
    })
}

/// Returns the step that the next of the words names (`clear`, `at`, `row`, `ended`, `judge` or
/// `step`), with the words after it that the step has. Errs with `Unread` if the word is none of
/// these names, or a word of the step is missing or cannot be read. Words behind those of the step
/// are left.
fn read_step(words: &mut SplitWhitespace<'_>) -> Result<Step, Unread> {
    match next_word(words)? {
        "clear" => Ok(Step::Clear),
        "at" => Ok(Step::At(minute_of(next_word(words)?)?)),
        "row" => Ok(Step::Stand(row_of(words, false)?)),
        "ended" => Ok(Step::Stand(row_of(words, true)?)),
        "judge" => Ok(Step::Judge(line_of(words)?)),
        "step" => Ok(Step::Take(line_of(words)?)),
        _ => Err(Unread),
    }
}

/// Returns the step that a line is: its name (`clear`, `at`, `row`, `ended`, `judge` or `step`) and
/// then its words, as `at 180103T1530Z`. White space is between them.
///
/// # Errors
///
/// The line is no step, or has more words than its step.
pub fn step_of(line: &str) -> Result<Step, Unread> {
    let mut words = line.split_whitespace();
    let step = read_step(&mut words)?;
    if words.next().is_some() {
        return Err(Unread);
    }
    Ok(step)
}
