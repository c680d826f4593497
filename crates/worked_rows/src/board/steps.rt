//! The steps of a script of days, one a line.
use crate::board::words::{
    Unread, action_of, begin_of, category_of, end_of, event_of, hazard_of, minute_of, number_of,
    site_of, target_of, zone_of, zones_of,
};
use action_planner::no_texts;
use hazard_types::{
    Category, Cause, Flood, Hazard, Line, List, Minute, Or, Severity, Status, Zone,
};
use office_types::{EventPart, EventTexts, Intent, PutPart, RoutinePart, Texts};
use std::alloc::Global;
use std::str::SplitWhitespace;

/// A step of the script.
#[derive(Debug, Drop)]
pub enum Step {
    /// Begins a day: no row, no event tracking number and no product.
    Day,
    /// Begins a draft, to be sent at a minute.
    At(Minute, Category),
    /// Adds an intent to the draft.
    Add(Intent),
    /// Sends the draft, which changes the rows and the event tracking numbers. There is then no
    /// draft.
    Send,
    /// Prints the codes of the product that the draft would be.
    Preview,
    /// Prints the events that the draft would open, and the texts of each event with a line.
    Plan,
    /// Corrects a product by its number, at a minute, with texts.
    Correct(Minute, u16, List<EventTexts>),
    /// Prints the rows that are live at a minute.
    Board(Minute),
    /// Prints the rows of a zone that are live at a minute.
    Zone(Zone, Minute),
    /// Prints the least clash of the rows after lines at a minute.
    Clash(List<Line>, Minute),
    /// Prints the events of a hazard that have an unended row.
    Standing(Hazard),
    /// Opens this many events of a hazard, at most 64 a draft and a draft an hour from a minute on,
    /// each event for one minute.
    Fill(Hazard, u16, Minute),
}

/// Returns the flood values of severity 0, cause ER and status OO at a location with this code,
/// without times. It is never `None`, since `ER` is a cause.
fn flood_at(site: [u8; 5]) -> Option<Flood> {
    Some(Flood {
        site,
        severity: Severity::Zero,
        cause: Cause::new(*b"ER")?,
        begin: None,
        crest: None,
        end: None,
        status: Status::Oo,
    })
}

/// Returns the value in `found`, or errs with `Unread` if it is `None`.
fn known<T>(found: Option<T>) -> Result<T, Or<Unread>> {
    found.ok_or(Or::No(Unread))
}

/// Returns the next of the words, or errs with `Unread` if there is none left.
fn next_word<'a>(words: &mut SplitWhitespace<'a>) -> Result<&'a str, Or<Unread>> {
    known(words.next())
}

/// Returns texts in which `what` is `word` and the others are empty.
fn texts_of(alloc: Global, word: &str) -> Result<Texts, Or<Unread>> {
    let what = List::from_slice(alloc, word.as_bytes())?;
    Ok(Texts {
        what,
        area: List::new(alloc),
        impacts: List::new(alloc),
        details: List::new(alloc),
    })
}

/// Returns the texts of a word `what=TEXT`, in which only `what` is not empty, or four empty texts
/// for `None`. Errs with `Unread` for another word.
fn said_of(alloc: Global, word: Option<&str>) -> Result<Texts, Or<Unread>> {
    let Some(word) = word else {
        return Ok(no_texts(alloc));
    };
    match word.split_once('=') {
        Some(("what", text)) => texts_of(alloc, text),
        _ => Err(Or::No(Unread)),
    }
}

/// Returns the flood values of a word `flood` (at location `00000`) or `flood=SITE`, where SITE is
/// five characters, or `None` for another word.
fn flood_of(word: &str) -> Option<Flood> {
    match word.split_once('=') {
        None if word == "flood" => flood_at(*b"00000"),
        Some(("flood", site)) => flood_at(site_of(site)?),
        _ => None,
    }
}

/// Returns the put of the next words `HAZARD-OR-EVENT ZONES BEGIN END`, then `flood` or
/// `flood=SITE` for flood values, if any, then `what=TEXT` for a text, if any. Errs with `Unread`
/// if a word is missing or cannot be read.
fn put_of(alloc: Global, words: &mut SplitWhitespace<'_>) -> Result<Intent, Or<Unread>> {
    let mut put = PutPart {
        target: known(target_of(next_word(words)?))?,
        zones: zones_of(alloc, next_word(words)?)?,
        begin: known(begin_of(next_word(words)?))?,
        end: known(end_of(next_word(words)?))?,
        flood: None,
        texts: no_texts(alloc),
    };
    let word = words.next();
    put.flood = word.and_then(flood_of);
    let said = if put.flood.is_some() {
        words.next()
    } else {
        word
    };
    put.texts = said_of(alloc, said)?;
    Ok(Intent::Put(put))
}

/// Returns the event, the zones and the texts of the next words `EVENT ZONES`, then `what=TEXT` for
/// a text, if any. Errs with `Unread` if a word is missing or cannot be read.
fn part_of(alloc: Global, words: &mut SplitWhitespace<'_>) -> Result<EventPart, Or<Unread>> {
    let event = known(event_of(next_word(words)?))?;
    let zones = zones_of(alloc, next_word(words)?)?;
    let texts = said_of(alloc, words.next())?;
    Ok(EventPart {
        event,
        zones,
        texts,
    })
}

/// Returns the hazard, the zones and the texts of the next words `HAZARD ZONES`, then `what=TEXT`
/// for a text, if any. Errs with `Unread` if a word is missing or cannot be read.
fn routine_of(alloc: Global, words: &mut SplitWhitespace<'_>) -> Result<RoutinePart, Or<Unread>> {
    let hazard = known(hazard_of(next_word(words)?))?;
    let zones = zones_of(alloc, next_word(words)?)?;
    let texts = said_of(alloc, words.next())?;
    Ok(RoutinePart {
        hazard,
        zones,
        texts,
    })
}

/// Returns the step of the next words `STAMP CATEGORY`, which begins a draft to be sent at the
/// minute of STAMP. Errs with `Unread` if a word is missing or cannot be read.
fn at_of(words: &mut SplitWhitespace<'_>) -> Result<Step, Or<Unread>> {
    let minute = known(minute_of(next_word(words)?))?;
    let category = known(category_of(next_word(words)?))?;
    Ok(Step::At(minute, category))
}

/// Returns the event and the texts of a word `EVENT=TEXT`, with TEXT as `what` and the other texts
/// empty. Errs with `Unread` if the word has another form.
fn told_of(alloc: Global, word: &str) -> Result<EventTexts, Or<Unread>> {
    let (event, text) = known(word.split_once('='))?;
    let event = known(event_of(event))?;
    let texts = texts_of(alloc, text)?;
    Ok(EventTexts { event, texts })
}

/// Returns the step of the words `STAMP NUMBER`, then `EVENT=TEXT` for each event with a text,
/// which corrects product NUMBER at the minute of STAMP. Errs with `Unread` if a word is missing or
/// cannot be read.
fn correct_of(alloc: Global, words: &mut SplitWhitespace<'_>) -> Result<Step, Or<Unread>> {
    let minute = known(minute_of(next_word(words)?))?;
    let number = known(number_of(next_word(words)?))?;
    let mut texts = List::new(alloc);
    for word in words {
        texts.push(told_of(alloc, word)?)?;
    }
    Ok(Step::Correct(minute, number, texts))
}

/// Returns the step of the next words `HAZARD COUNT STAMP`, which opens COUNT events of HAZARD from
/// the minute of STAMP on. Errs with `Unread` if a word is missing or cannot be read.
fn fill_of(words: &mut SplitWhitespace<'_>) -> Result<Step, Or<Unread>> {
    let hazard = known(hazard_of(next_word(words)?))?;
    let count = known(number_of(next_word(words)?))?;
    let minute = known(minute_of(next_word(words)?))?;
    Ok(Step::Fill(hazard, count, minute))
}

/// Returns the step of the next words `ZONE STAMP`, which prints the rows of ZONE that are live at
/// the minute of STAMP. Errs with `Unread` if a word is missing or cannot be read.
fn zone_step(words: &mut SplitWhitespace<'_>) -> Result<Step, Or<Unread>> {
    let zone = known(zone_of(next_word(words)?))?;
    let minute = known(minute_of(next_word(words)?))?;
    Ok(Step::Zone(zone, minute))
}

/// Returns the step of the next words `STAMP ACTION EVENT ZONES BEGIN END`, which prints the least
/// clash after a line in each of the zones at the minute of STAMP. Errs with `Unread` if a word is
/// missing or cannot be read.
fn clash_of(alloc: Global, words: &mut SplitWhitespace<'_>) -> Result<Step, Or<Unread>> {
    let minute = known(minute_of(next_word(words)?))?;
    let action = known(action_of(next_word(words)?))?;
    let event = known(event_of(next_word(words)?))?;
    let zones = zones_of(alloc, next_word(words)?)?;
    let begin = Some(known(minute_of(next_word(words)?))?);
    let end = known(end_of(next_word(words)?))?;
    let mut lines = List::new(alloc);
    for zone in zones.as_slice() {
        lines.push(Line {
            action,
            event,
            zone: *zone,
            begin,
            end,
            flood: None,
        })?;
    }
    Ok(Step::Clash(lines, minute))
}

/// Returns the step that the next of the words names (`day`, `at`, `put`, `end`, `restate`,
/// `routine`, `send`, `preview`, `plan`, `correct`, `board`, `zone`, `clash`, `standing` or
/// `fill`), with the words after it that the step has. Errs with `Unread` if the word is none of
/// these names, or a word of the step is missing or cannot be read. Words behind those of the step
/// are left, but for `correct`, which takes all.
fn read_step(alloc: Global, words: &mut SplitWhitespace<'_>) -> Result<Step, Or<Unread>> {
    match next_word(words)? {
        "day" => Ok(Step::Day),
        "at" => at_of(words),
        "put" => Ok(Step::Add(put_of(alloc, words)?)),
        "end" => Ok(Step::Add(Intent::Finish(part_of(alloc, words)?))),
        "restate" => Ok(Step::Add(Intent::Restate(part_of(alloc, words)?))),
        "routine" => Ok(Step::Add(Intent::Routine(routine_of(alloc, words)?))),
        "send" => Ok(Step::Send),
        "preview" => Ok(Step::Preview),
        "plan" => Ok(Step::Plan),
        "correct" => correct_of(alloc, words),
        "board" => Ok(Step::Board(known(minute_of(next_word(words)?))?)),
        "zone" => zone_step(words),
        "clash" => clash_of(alloc, words),
        "standing" => Ok(Step::Standing(known(hazard_of(next_word(words)?))?)),
        "fill" => fill_of(words),
        _ => Err(Or::No(Unread)),
    }
}

/// Returns the step that a line is: its name (`day`, `at`, `put`, `end`, `restate`, `routine`,
/// `send`, `preview`, `plan`, `correct`, `board`, `zone`, `clash`, `standing` or `fill`) and then
/// its words, as `zone MDZ003 180103T1530Z`. White space is between them.
///
/// # Errors
///
/// - `No` if the line is no step, or has more words than its step.
/// - `OutOfMemory`.
pub fn step_of(alloc: Global, line: &str) -> Result<Step, Or<Unread>> {
    let mut words = line.split_whitespace();
    let step = read_step(alloc, &mut words)?;
    if words.next().is_some() {
        return Err(Or::No(Unread));
    }
    Ok(step)
}
