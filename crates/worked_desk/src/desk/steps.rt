//! The steps of a script of an office, one a line.
use hazard_types::{Minute, parse_stamp};
use worked_lines::is_remark;

/// The end of a line of the input.
#[derive(Clone, Copy, Debug)]
pub enum Ending {
    /// LF.
    Feed,
    /// CR and LF.
    ReturnAndFeed,
    /// No byte.
    Nothing,
}

/// What a sweep runs at each call of a disk.
#[derive(Clone, Copy, Debug)]
pub enum Tried {
    /// The input.
    Input,
    /// An upgrade.
    Upgrade,
    /// The input, each line of it twice.
    Twice,
}

/// What is cut at each byte.
#[derive(Clone, Copy, Debug)]
pub enum Cutting {
    /// The file, whose texts are then exported.
    File,
    /// The settings, from which a journal is then made.
    Settings,
}

/// A step of the script.
#[derive(Clone, Copy, Debug)]
pub enum Step<'a> {
    /// Nothing is done or printed.
    Remark,
    /// Appends a line to the settings.
    Setting(&'a str),
    /// Empties the settings.
    NoSettings,
    /// Sets the bytes of the file.
    File(&'a str),
    /// Makes the file the journal of an office of edition One with this entry.
    Older(&'a str),
    /// Appends a line to the input.
    Ask(&'a str, Ending),
    /// Appends a line of this many letters to the input.
    Long(u64),
    /// Appends a comment of this many bytes to the settings.
    Comment(u64),
    /// Sets the readings of the clock, as words.
    At(&'a str),
    /// Appends a record with this body to the file.
    Add(&'a str),
    /// Sets the byte of the file that is this many bytes from its end.
    Back(u64, u8),
    /// Sets the write of the next run's output that fails.
    Unwritten(u64),
    /// Sets the call of the next run's disk that fails.
    Failing(u64),
    /// Sets the last call of the next run's disk that may succeed.
    Stop(u64),
    /// Sets what a crash leaves of the next run's writes.
    Pick(u64),
    /// Runs the command of these words.
    Run(&'a str),
    /// Runs the command that writes the board at a minute.
    Board(Minute),
    /// Runs a sweep over the first calls of a disk, this many.
    Sweep(Tried, u8),
    /// Runs over each beginning of what is cut.
    Cuts(Cutting),
    /// Prints the last record of the file.
    Record,
    /// The line is no step.
    Unread,
}

/// Returns the number that a decimal word is, or `None` if the word is no number below 2^64.
fn number_of(word: &str) -> Option<u64> {
    word.parse::<u64>().ok()
}

/// Returns the number of calls of a sweep, at most 255, or `None` if the word is no such number.
fn calls_of(word: &str) -> Option<u8> {
    word.parse::<u8>().ok()
}

/// Returns the reading of the clock, in minutes since 2000-01-01 00:00 UTC, that a word gives: a
/// stamp, or a number of minutes, which may be negative. `None` if the word is neither.
pub fn reading_of(word: &str) -> Option<i64> {
    match parse_stamp(word.as_bytes()) {
        Some(minute) => Some(i64::from(minute.get())),
        None => word.parse::<i64>().ok(),
    }
}

/// Returns the step of a whole line without an argument: `no settings` empties the settings, `file`
/// the file, `ask` appends an empty line to the input, `record` prints the last record of the file,
/// `cuts` and `cuts settings` run over each beginning of the file or the settings, and `init`,
/// `script`, `export`, `upgrade` or `board` runs that command. It is `None` for another line.
fn bare_step(word: &str) -> Option<Step<'_>> {
    let step = match word {
        "no settings" => Step::NoSettings,
        "file" => Step::File(""),
        "ask" => Step::Ask("", Ending::Feed),
        "record" => Step::Record,
        "cuts" => Step::Cuts(Cutting::File),
        "cuts settings" => Step::Cuts(Cutting::Settings),
        "init" | "script" | "export" | "upgrade" | "board" => Step::Run(word),
        _ => return None,
    };
    Some(step)
}

/// Returns the step that writes the board at the minute of a stamp such as `180103T1530Z`, or
/// `None` if the word is no stamp.
fn board_step(stamp: &str) -> Option<Step<'_>> {
    let minute = parse_stamp(stamp.as_bytes())?;
    Some(Step::Board(minute))
}

/// Returns the step of `rest`, which is `CALLS` for a sweep of the input, `twice CALLS` for one
/// with each line twice, or `upgrade CALLS` for one of an upgrade. CALLS is the number of calls, at
/// most 255. It is `None` if `rest` has another form.
fn sweep_step(rest: &str) -> Option<Step<'_>> {
    match rest.split_once(' ') {
        Some(("upgrade", calls)) => Some(Step::Sweep(Tried::Upgrade, calls_of(calls)?)),
        Some(("twice", calls)) => Some(Step::Sweep(Tried::Twice, calls_of(calls)?)),
        Some(_) => None,
        None => Some(Step::Sweep(Tried::Input, calls_of(rest)?)),
    }
}

/// Returns the step of `rest`, which is `PLACE BYTE`, or `None` if it has another form. The step
/// sets the byte PLACE of the file, counted from its end from 1, to BYTE, a number up to 255.
fn back_step(rest: &str) -> Option<Step<'_>> {
    let (place, byte) = rest.split_once(' ')?;
    Some(Step::Back(number_of(place)?, byte.parse::<u8>().ok()?))
}

/// Returns the step that `word` names with the number `rest`: a line of so many letters (`long`), a
/// comment of so many bytes (`comment`), the write of the output (`unwritten`) or the call of the
/// disk (`failing`) that fails, the last call that may succeed (`stop`), or what a crash leaves
/// (`pick`). It is `None` for another word, or if `rest` is no decimal number below 2^64.
fn numbered_step<'a>(word: &str, rest: &'a str) -> Option<Step<'a>> {
    let number = number_of(rest)?;
    match word {
        "long" => Some(Step::Long(number)),
        "comment" => Some(Step::Comment(number)),
        "unwritten" => Some(Step::Unwritten(number)),
        "failing" => Some(Step::Failing(number)),
        "stop" => Some(Step::Stop(number)),
        "pick" => Some(Step::Pick(number)),
        _ => None,
    }
}

/// Returns the step of a line with a first word and, after a blank, an argument: `settings`,
/// `file`, `older`, `add`, `back`, `ask`, `return`, `unended`, `at`, `board`, `sweep`, or one of
/// `long`, `comment`, `unwritten`, `failing`, `stop` and `pick`, which take a number. It is `None`
/// if the line has no blank, the word is another, or the argument has the wrong form.
fn worded_step(line: &str) -> Option<Step<'_>> {
    let (word, rest) = line.split_once(' ')?;
    match word {
        "settings" => Some(Step::Setting(rest)),
        "file" => Some(Step::File(rest)),
        "older" => Some(Step::Older(rest)),
        "add" => Some(Step::Add(rest)),
        "back" => back_step(rest),
        "ask" => Some(Step::Ask(rest, Ending::Feed)),
        "return" => Some(Step::Ask(rest, Ending::ReturnAndFeed)),
        "unended" => Some(Step::Ask(rest, Ending::Nothing)),
        "at" => Some(Step::At(rest)),
        "board" => board_step(rest),
        "sweep" => sweep_step(rest),
        _ => numbered_step(word, rest),
    }
}

/// Returns the step that a line is, or `Unread` if it is no step. An empty line and one that begins
/// with `#` are remarks.
pub fn step_of(line: &str) -> Step<'_> {
    if is_remark(line) {
        return Step::Remark;
    }
    if let Some(step) = bare_step(line) {
        return step;
    }
    match worded_step(line) {
        Some(step) => step,
        None => Step::Unread,
    }
}
