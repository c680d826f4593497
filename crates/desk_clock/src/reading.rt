//! Reads local lines.
ghost use Rattle.std.specs.Prelude.{◌≡◌, ◌≤◌, ◌<◌, ◌↔◌, ℕ, IfSome, IfOk};
ghost use Rattle.hazard_types.specs.declared.codes.LocalZone.{LocalZone as Zone};
ghost use Rattle.desk_clock.specs.LocalText.{local_line_of};
ghost use Rattle.std.specs.List.{list_all};
ghost use Rattle.std.specs.Char.{is_ascii_alphabetic};
ghost use Rattle.desk_clock.specs.LocalWords.{digit, parse_number, parse_half_day, parse_time_of_day, parse_year, parse_date, parse_words, are_letters};
ghost use Rattle.desk_clock.specs.LocalForm.{written_in, minute_of, read_of, ReadsAs, LacksAbbreviation};

use crate::abbreviations::Abbreviation;
use crate::local_times::{LocalTime, has_date, minute_shown};
use crate::names::{is_weekday, month_index, parse_abbreviation, same_letters};
use crate::words::{after_aside, after_word, first_word};
use hazard_types::Minute;
use thiserror::Error;

/// Why a line is not the local line of a minute.
#[derive(Clone, Copy, Debug, PartialEq, Eq, Error)]
pub enum LocalFault {
    /// The form of the line, its date, or the range of minutes is wrong.
    #[error("the line is no local time, such as 1030 AM EST Wed Jan 3 2018")]
    NoLocalTime,
    /// Only the abbreviation is wrong: it has letters alone, and the desk does not know it.
    #[error("the abbreviation of the time zone is unknown")]
    UnknownAbbreviation,
}

/// The values of a local line. `abbreviation` is `None` if the desk does not know its letters.
#[derive(Clone, Copy, Debug, PartialEq, Eq)]
pub struct Written {
    pub abbreviation: Option<Abbreviation>,
    pub time: LocalTime,
}

/// Returns the value of an ASCII decimal digit, 0 to 9, or `None` if the character is none.
fn digit(c: u8) -> Option<u8>
    ensures { result ≡ digit c }
{
    if c.is_ascii_digit() {
        Some(c - b'0')
    } else {
        None
    }
}

/// Returns the number that a word of one or two decimal digits writes, or `None` for any other
/// word.
#[tactic(auto, unfolding(crate::specs::LocalWords::parse_number))]
fn parse_number(word: &[u8]) -> Option<u8>
    ensures { result ≡ parse_number word.now }
{
    match word {
        [ones] => digit(*ones),
        [tens, ones] => Some(10 * digit(*tens)? + digit(*ones)?),
        _ => None,
    }
}

/// Returns the hour at which a half of the day begins: 0 for `AM`, 12 for `PM`, in any letter case.
/// `None` for any other word.
#[tactic(auto, unfolding(crate::specs::LocalWords::parse_half_day))]
fn parse_half_day(word: &[u8]) -> Option<u8>
    ensures value { result ≡ parse_half_day word.now }
    ensures range { IfSome result (λ h. h ≤ 12) }
{
    if same_letters(word, b"AM") {
        Some(0)
    } else if same_letters(word, b"PM") {
        Some(12)
    } else {
        None
    }
}

/// Returns the hour (0 to 23) and the minute that `clock`, as `1030` or `930`, and `half`, `AM` or
/// `PM`, write. `None` if a word has another form, the written hour is not 1 to 12, or the minute
/// is above 59.
#[tactic(auto, unfolding(crate::specs::LocalWords::parse_time_of_day))]
fn parse_time_of_day(clock: &[u8], half: &[u8]) -> Option<(u8, u8)>
    ensures { result ≡ parse_time_of_day clock.now half.now }
{
    let at = clock.len().saturating_sub(2);
    let hour = parse_number(&clock[..at])?;
    let minute = parse_number(&clock[at..])?;
    let half = parse_half_day(half)?;
    if 1 <= hour && hour <= 12 && minute < 60 {
        Some((hour % 12 + half, minute))
    } else {
        None
    }
}

/// Returns the number that a word of exactly four decimal digits writes, or `None` for any other
/// word.
#[tactic(auto, unfolding(crate::specs::LocalWords::parse_year))]
fn parse_year(word: &[u8]) -> Option<u16>
    ensures { result ≡ parse_year word.now }
{
    if word.len() != 4 {
        return None;
    }
    let century = parse_number(&word[..2])?;
    let year = parse_number(&word[2..])?;
    Some(100 * u16::from(century) + u16::from(year))
}

/// Returns the values of a local line, given the letters of its abbreviation, the words of its
/// date, and `time`, its hour (0 to 23) and minute. `None` if the month is no name as `Jan`, the
/// day is not one or two digits, or the year is not four. Whether the date exists is not tested,
/// and letters that are no known abbreviation give `None` as `abbreviation`.
#[tactic(auto, unfolding(crate::specs::LocalWords::parse_date))]
fn parse_date(
    letters: &[u8],
    month: &[u8],
    day: &[u8],
    year: &[u8],
    time: (u8, u8),
) -> Option<Written>
    ensures { result ≡ parse_date letters.now month.now day.now year.now time }
{
    let place = month_index(month)?;
    let day = parse_number(day)?;
    let year = parse_year(year)?;
    Some(Written {
        abbreviation: parse_abbreviation(letters),
        time: LocalTime {
            year,
            month: place as u8 + 1,
            day,
            hour: time.0,
            minute: time.1,
        },
    })
}

/// Returns the values of a local line by its seven words: hour and minute as `1030`, `AM` or `PM`,
/// the letters of the abbreviation, weekday, month, day and year. `None` if a word has a wrong
/// form. Letters that are no known abbreviation are accepted, as is a date that does not exist.
#[tactic(auto, unfolding(crate::specs::LocalWords::parse_words))]
fn parse_words(
    clock: &[u8],
    half: &[u8],
    letters: &[u8],
    weekday: &[u8],
    month: &[u8],
    day: &[u8],
    year: &[u8],
) -> Option<Written>
    ensures { result
        ≡ parse_words clock.now half.now letters.now weekday.now month.now day.now year.now }
{
    if are_letters(letters) && is_weekday(weekday) {
        let time = parse_time_of_day(clock, half)?;
        parse_date(letters, month, day, year, time)
    } else {
        None
    }
}

/// Whether a word is not empty and has ASCII letters only.
fn are_letters(word: &[u8]) -> bool
    ensures { result ≡ are_letters word.now }
{
    !word.is_empty() && all_letters(word)
}

/// Whether each byte of a word is an ASCII letter; true for an empty word.
fn all_letters(word: &[u8]) -> bool
    ensures { result ≡ list_all is_ascii_alphabetic word.now }
{
    word.iter().all(|c| c.is_ascii_alphabetic())
}

/// Returns the values of the local line `b`, or `None` if one of its seven words is missing or has
/// a wrong form. A part between slashes before the weekday is skipped.
#[tactic(auto, unfolding(crate::specs::LocalForm::written_in))]
fn written_in(b: &[u8]) -> Option<Written>
    ensures { result ≡ written_in b.now }
{
    let half = after_word(b);
    let letters = after_word(half);
    let weekday = after_aside(after_word(letters));
    let month = after_word(weekday);
    let day = after_word(month);
    parse_words(
        first_word(b),
        first_word(half),
        first_word(letters),
        first_word(weekday),
        first_word(month),
        first_word(day),
        after_word(day),
    )
}

/// Returns the minute, in UTC, at which a clock of the abbreviation of `w` shows the date and time
/// of `w`, the values of a local line. Errs with `UnknownAbbreviation` if only the abbreviation is
/// unknown, and with `NoLocalTime` if the date does not exist or the minute is not in the years
/// 2000 to 2099.
#[tactic(auto, unfolding(crate::specs::LocalForm::minute_of))]
fn minute_of(w: Written) -> Result<Minute, LocalFault>
    ensures { result ≡ minute_of w }
{
    match w.abbreviation {
        Some(a) => minute_shown(a, w.time).ok_or(LocalFault::NoLocalTime),
        None if has_date(w.time) => Err(LocalFault::UnknownAbbreviation),
        None => Err(LocalFault::NoLocalTime),
    }
}

/// Returns the minute, in UTC, that the local line `b` shows, as `1030 AM EST Wed Jan 3 2018`. Errs
/// with `UnknownAbbreviation` if only the abbreviation is wrong, and with `NoLocalTime` if the form
/// is wrong, the date does not exist, or the minute is not in the years 2000 to 2099.
#[tactic(auto, unfolding(crate::specs::LocalForm::read_of))]
fn reading_of(b: &[u8]) -> Result<Minute, LocalFault>
    ensures { result ≡ read_of b.now }
{
    match written_in(b) {
        Some(w) => minute_of(w),
        None => Err(LocalFault::NoLocalTime),
    }
}

/// Parses a local line, as `1030 AM EST Wed Jan 3 2018`, and returns its minute. Letter case is
/// ignored, words are separated by one or more blanks, and the weekday need not be that of the
/// date. One part between slashes may come before the weekday; blanks at either end are refused.
///
/// # Errors
///
/// - `UnknownAbbreviation` if only the abbreviation is wrong.
/// - `NoLocalTime` if the form is wrong, the date does not exist, or the minute is not in the years
///   2000 to 2099 of UTC.
///
/// Source: NWS Instruction 10-1701, Mass News Disseminator header: date and time line;
/// docs/DECISIONS.md, "Reading of texts" (local lines).
pub fn read_local_line(b: &[u8]) -> Result<Minute, LocalFault>
    ensures value { result ≡ read_of b.now }
    ensures found { IfOk result (ReadsAs b.now) }
    ensures only { (m : ℕ) → ReadsAs b.now m → result ≡ Ok m }
    ensures unknown { (result ≡ Err LocalFault.UnknownAbbreviation) ↔ LacksAbbreviation b.now }
{
    reading_of(b)
}

/// The line that `local_line` writes for a minute in any zone is read by `read_local_line` as that
/// same minute.
pub fn lines_read_back()
    ensures { (z : Zone) (m : ℕ) → m < 52596000 → read_of (local_line_of z m) ≡ Ok m }
{}
