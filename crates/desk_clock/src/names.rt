//! The names of months, weekdays and abbreviations.
ghost use Rattle.std.specs.Prelude.{◌≡◌, ◌≤◌, ◌<◌, [], length, slice_index_or, IfSome};
ghost use Rattle.std.specs.Option.{is_some};
ghost use Rattle.jiff_core.specs.Weekday.{monday_zero};
ghost use Rattle.desk_clock.specs.Names.{month_names, weekday_names, abbreviations, month_name, weekday_name, same_letters, find_name, parse_abbreviation};

use crate::abbreviations::Abbreviation;
use jiff_core::civil::Weekday;

/// Returns the abbreviations of the months, from January, as local lines write them.
#[tactic(auto, unfolding(crate::specs::Names::month_names))]
fn month_names() -> [[u8; 3]; 12]
    ensures { result ≡ month_names }
{
    [
        *b"Jan", *b"Feb", *b"Mar", *b"Apr", *b"May", *b"Jun", *b"Jul", *b"Aug", *b"Sep", *b"Oct",
        *b"Nov", *b"Dec",
    ]
}

/// Returns the abbreviations of the weekdays, from Monday, as local lines write them.
#[tactic(auto, unfolding(crate::specs::Names::weekday_names))]
fn weekday_names() -> [[u8; 3]; 7]
    ensures { result ≡ weekday_names }
{
    [
        *b"Mon", *b"Tue", *b"Wed", *b"Thu", *b"Fri", *b"Sat", *b"Sun",
    ]
}

/// Returns all abbreviations that a local line may have.
#[tactic(auto, unfolding(crate::specs::Names::abbreviations))]
fn abbreviations() -> [Abbreviation; 14]
    ensures { result ≡ abbreviations }
{
    [
        Abbreviation::Ast,
        Abbreviation::Est,
        Abbreviation::Edt,
        Abbreviation::Cst,
        Abbreviation::Cdt,
        Abbreviation::Mst,
        Abbreviation::Mdt,
        Abbreviation::Pst,
        Abbreviation::Pdt,
        Abbreviation::Akst,
        Abbreviation::Akdt,
        Abbreviation::Hst,
        Abbreviation::Utc,
        Abbreviation::Gmt,
    ]
}

/// Returns the name of a month, which counts from 1, as `Jan`.
#[tactic(auto, using(crate::proofs::Tables::twelve_names))]
pub fn month_name(month: u8) -> [u8; 3]
    requires low { 1 ≤ month }
    requires high { month ≤ 12 }
    ensures { result ≡ month_name month }
{
    let names = month_names();
    names[month as usize - 1]
}

/// Returns the name of a weekday, as `Mon`.
#[tactic(auto, using(crate::proofs::Tables::seven_names))]
pub fn weekday_name(weekday: Weekday) -> [u8; 3]
    ensures { result ≡ slice_index_or weekday_names (monday_zero weekday) [] }
{
    let names = weekday_names();
    names[weekday.index() as usize]
}

/// Whether two words are equal but for letter case (ASCII).
pub fn same_letters(word: &[u8], name: &[u8]) -> bool
    ensures { result ≡ same_letters word.now name.now }
{
    word.eq_ignore_ascii_case(name)
}

/// Returns the index in `names` of the first name equal to `word` but for letter case, or `None` if
/// there is none.
fn find_name(names: &[[u8; 3]], word: &[u8]) -> Option<usize>
    ensures value { result ≡ find_name names.now word.now }
    ensures range { IfSome result (λ i. i < length names.now) }
{
    names.iter().position(|name| same_letters(word, name))
}

/// Returns the index of the month that a word names, 0 for `Jan`, whatever its letter case, or
/// `None` if there is none.
#[tactic(auto, using(crate::proofs::Tables::twelve_names))]
pub fn month_index(word: &[u8]) -> Option<usize>
    ensures value { result ≡ find_name month_names word.now }
    ensures range { IfSome result (λ i. i < 12) }
{
    find_name(&month_names(), word)
}

/// Whether a word names a weekday, as `Mon`, whatever its letter case.
pub fn is_weekday(word: &[u8]) -> bool
    ensures { result ≡ is_some (find_name weekday_names word.now) }
{
    find_name(&weekday_names(), word).is_some()
}

/// Returns the abbreviation with these letters, whatever their case, or `None` if there is none.
pub fn parse_abbreviation(word: &[u8]) -> Option<Abbreviation>
    ensures { result ≡ parse_abbreviation word.now }
{
    abbreviations()
        .iter()
        .copied()
        .find(|a| same_letters(word, a.letters()))
}
