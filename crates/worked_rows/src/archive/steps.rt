//! The steps of a script of archives, one a line.
use worked_lines::{Setting, setting_of};

/// A step of the script.
#[derive(Clone, Copy, Debug)]
pub enum Step<'a> {
    /// Appends a line to the archive, with CR, CR and LF.
    Line(&'a str),
    /// Appends the lines between bars.
    Lines(&'a str),
    /// Appends bytes, without a line end.
    Unended(&'a str),
    /// Appends a line for each number from 1 to this one, with its four digits in place of `####`.
    Numbered(u16, &'a str),
    /// Empties the archive.
    NoText,
    /// Appends the archive to itself.
    Again,
    /// Sets what holds for the next run.
    Set(Setting),
    /// Prints the report for these words.
    Report(&'a str),
    /// Prints the size and the digest of the report for these words.
    Short(&'a str),
    /// Prints what a reader has found for these words, in pieces of this size.
    Reader(usize, &'a str),
    /// Prints the statistics for these words.
    Stats(&'a str),
    /// Prints the tally of the reports of each beginning of the archive for these words.
    Cuts(&'a str),
}

/// Returns the step of a line `line`, `no text`, `again`, `report` or `stats`, or `None` for any
/// other line.
fn bare_step(line: &str) -> Option<Step<'_>> {
    match line {
        "line" => Some(Step::Line("")),
        "no text" => Some(Step::NoText),
        "again" => Some(Step::Again),
        "report" => Some(Step::Report("")),
        "stats" => Some(Step::Stats("")),
        _ => None,
    }
}

/// Returns the step that sets the number `rest` for the next run, as what `word` names: the most
/// bytes of a read (`piece`) or of the input (`limit`), or the number of one more read or write
/// that fails (`read`, `write`). It is `None` for another word, or if `rest` is no decimal number
/// below 2^32.
fn setting_step<'a>(word: &str, rest: &str) -> Option<Step<'a>> {
    let number = rest.parse::<u32>().ok()?;
    let setting = setting_of(word, number)?;
    Some(Step::Set(setting))
}

/// Returns the `numbered` step of `rest`, which is `NUMBER LINE`, or `None` if it has another form.
/// NUMBER is a decimal number below 65,536, the last of the numbers that are put into LINE.
fn numbered_lines(rest: &str) -> Option<Step<'_>> {
    let (most, line) = rest.split_once(' ')?;
    let most = most.parse::<u16>().ok()?;
    Some(Step::Numbered(most, line))
}

/// Returns the `reader` step of `rest`, which is `SIZE WORDS`, or `None` if it has another form.
/// SIZE is a decimal number below 2^32, the size of the pieces in bytes.
fn reader_step(rest: &str) -> Option<Step<'_>> {
    let (size, words) = rest.split_once(' ')?;
    let size = size.parse::<u32>().ok()?;
    Some(Step::Reader(size as usize, words))
}

/// Returns the step of a line that is a name, a blank and an argument, as `lines TEXT|TEXT`. The
/// names are `line`, `lines`, `unended`, `numbered`, `report`, `short`, `reader`, `stats`, `cuts`,
/// and `piece`, `limit`, `read` and `write`, which set a number for the next run. It is `None` if
/// the line has no blank, the name is none of these, or the argument has the wrong form.
fn worded_step(line: &str) -> Option<Step<'_>> {
    let (word, rest) = line.split_once(' ')?;
    match word {
        "line" => Some(Step::Line(rest)),
        "lines" => Some(Step::Lines(rest)),
        "unended" => Some(Step::Unended(rest)),
        "numbered" => numbered_lines(rest),
        "report" => Some(Step::Report(rest)),
        "short" => Some(Step::Short(rest)),
        "reader" => reader_step(rest),
        "stats" => Some(Step::Stats(rest)),
        "cuts" => Some(Step::Cuts(rest)),
        _ => setting_step(word, rest),
    }
}

/// Returns the step that a line is: `no text` or `again`; `line`, `report` or `stats`, alone or
/// with a blank and an argument; or `lines`, `unended`, `numbered`, `short`, `reader`, `cuts`,
/// `piece`, `limit`, `read` or `write` with a blank and an argument. `None` if the line is none of
/// these or its argument has the wrong form.
pub fn step_of(line: &str) -> Option<Step<'_>> {
    match bare_step(line) {
        Some(step) => Some(step),
        None => worded_step(line),
    }
}
