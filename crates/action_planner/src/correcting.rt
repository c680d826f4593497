//! The correction of a product that was sent.
ghost use Rattle.std.specs.Prelude.{◌≡◌, ◌≤◌, Some, None, Err, IfOk, OnOk, MatchOption, IsTrue};
ghost use Rattle.std.specs.Option.{option_or};
ghost use Rattle.hazard_types.specs.declared.or.Or.TheVariants.{No};
ghost use Rattle.office_types.specs.declared.refusal.Refusal.{Refusal as Refused};
ghost use Rattle.event_life.specs.Reordered.{are_lawful};
ghost use Rattle.hazard_board.specs.Consistent.{IsConsistent};
ghost use Rattle.action_planner.specs.Corrections.{correcting, with_some, corrected_lines, given_for, texts_or, corrected_texts, has_line, first_without_line, not_last, nothing_left, letters_spent, broken_on, broken_correction, IsCorrectionOf, IsCorrection, CanCorrect};
ghost use Rattle.action_planner.specs.Texts.{events_of};

use crate::lines::{add_line, line_on};
use crate::rules::{conflict, too_many};
use crate::texts::{copied, events_of, no_texts};
use event_life::is_live;
use hazard_board::Board;
use hazard_types::{Action, Event, Line, List, Minute, Oom, Or, Row};
use office_types::{EventTexts, Plan, Refusal, Sent, Texts};
use segmenter::segments;
use std::alloc::Global;

/// Returns the `COR` line of a row, or `None` if there is no row or it is not live at `t`, the
/// minute of issue of the correction.
fn correcting(t: Minute, row: &Option<Row>) -> Option<Line>
    ensures { result ≡ correcting t row.now }
{
    match row {
        Some(row) if is_live(row, t) => Some(line_on(Action::Cor, t, row)),
        _ => None,
    }
}

/// Appends the line to `lines`, or nothing if it is `None`.
fn add_some(lines: &mut List<Line>, line: &Option<Line>) -> Result<(), Oom>
    ensures { OnOk result (lines.new ≡ with_some lines.old line.now) }
{
    match line {
        Some(line) => add_line(lines, line),
        None => Ok(()),
    }
}

/// Returns the `COR` lines of a correction that is sent at minute `t`: one for each of `lines`,
/// those of the corrected product, whose event has a row in the line's zone that is live at `t`.
/// They are in the order of `lines`.
fn corrected_lines(
    alloc: Global,
    board: &Board,
    t: Minute,
    lines: &[Line],
) -> Result<List<Line>, Oom>
    ensures { IfOk result (λ corrected. corrected ≡ corrected_lines board.now.rows t lines.now) }
{
    let mut corrected = List::new(alloc);
    for line in lines {
        let row = board.row(line.event, line.zone);
        add_some(&mut corrected, &correcting(t, &row))?;
    }
    Ok(corrected)
}

/// Returns the texts that `texts` has for an event, the first ones if it has several, or `None` if
/// it has none.
fn given_for<'a>(texts: &'a [EventTexts], event: &Event) -> Option<&'a Texts>
    ensures { MatchOption result (given_for texts.now event.now ≡ None)
        (λ found. given_for texts.now event.now ≡ Some found.now) }
{
    for told in texts {
        if told.event == *event {
            return Some(&told.texts);
        }
    }
    None
}

/// Returns a copy of the texts that an event has in a correction. They are those in `given`, which
/// come with the correction, else those in `before`, which are of the corrected product, else empty
/// ones.
fn texts_for(
    alloc: Global,
    given: &[EventTexts],
    before: &[EventTexts],
    event: &Event,
) -> Result<Texts, Oom>
    ensures { IfOk result (λ texts. texts
        ≡ texts_or (option_or (given_for given.now event.now) (given_for before.now event.now))) }
{
    if let Some(texts) = given_for(given, event) {
        return copied(texts);
    }
    match given_for(before, event) {
        Some(texts) => copied(texts),
        None => Ok(no_texts(alloc)),
    }
}

/// Returns each event that has a line, in ascending order, with the texts that it has in a
/// correction. They are those in `given`, which come with the correction, else those in `before`,
/// which are of the corrected product, else empty ones.
fn corrected_texts(
    alloc: Global,
    given: &[EventTexts],
    before: &[EventTexts],
    lines: &[Line],
) -> Result<List<EventTexts>, Oom>
    ensures { IfOk result
        (λ texts. texts ≡ corrected_texts given.now before.now (events_of lines.now)) }
{
    let mut told = List::new(alloc);
    for event in events_of(alloc, lines)? {
        let texts = texts_for(alloc, given, before, &event)?;
        told.push(EventTexts { event, texts })?;
    }
    Ok(told)
}

/// Whether one of the lines is of the event.
fn has_line(lines: &[Line], event: &Event) -> bool
    ensures { result ≡ has_line lines.now event.now }
{
    lines.iter().any(|line| line.event == *event)
}

/// Returns the refusal NoEvent for the first of `texts` whose event has no line in `lines`, the
/// lines of the product to be corrected, or `None` if each event has one.
fn first_without_line(lines: &[Line], texts: &[EventTexts]) -> Option<Refusal>
    ensures { result ≡ first_without_line lines.now texts.now }
{
    for told in texts {
        if !has_line(lines, &told.event) {
            return Some(Refusal::NoEvent { event: told.event });
        }
    }
    None
}

/// Returns the refusal NotLast if `number`, of the product to be corrected, is not `last`, the
/// number of the last product of the same category; else `None`.
fn not_last(number: u32, last: u32) -> Option<Refusal>
    ensures { result ≡ not_last number last }
{
    if number == last {
        None
    } else {
        Some(Refusal::NotLast { last })
    }
}

/// Returns the refusal NothingToCorrect if `lines`, those of the correction, are empty, else
/// `None`.
fn nothing_left(lines: &[Line]) -> Option<Refusal>
    ensures { result ≡ nothing_left lines.now }
{
    match lines {
        [] => Some(Refusal::NothingToCorrect),
        [..] => None,
    }
}

/// Returns the refusal LettersSpent if `letters`, the number of corrections that the original has,
/// is 24 (A to X) or more; else `None`.
fn letters_spent(letters: u8) -> Option<Refusal>
    ensures { result ≡ letters_spent letters }
{
    if letters >= 24 {
        Some(Refusal::LettersSpent)
    } else {
        None
    }
}

/// Returns the refusal under the first broken rule of a correction with these lines at minute `t`,
/// or `None` if all are kept: Conflict, NotLast, NothingToCorrect, LettersSpent, TooManyLines.
/// `number` is that of the product to be corrected, `last` that of the last product of its
/// category, and `letters` the number of corrections that the original has.
#[tactic(auto, unfolding(crate::specs::Corrections::broken_on))]
fn broken_on(
    alloc: Global,
    board: &Board,
    t: Minute,
    number: u32,
    last: u32,
    letters: u8,
    lines: &List<Line>,
) -> Result<Option<Refusal>, Oom>
    requires consistent { IsConsistent board.now.rows t }
    ensures { IfOk result
        (λ found. found ≡ broken_on board.now.rows t number last letters lines.now) }
{
    let overlap = conflict(alloc, board, t, lines)?;
    if overlap.is_some() {
        return Ok(overlap);
    }
    let other = not_last(number, last);
    if other.is_some() {
        return Ok(other);
    }
    let nothing = nothing_left(lines.as_slice());
    if nothing.is_some() {
        return Ok(nothing);
    }
    let spent = letters_spent(letters);
    if spent.is_some() {
        return Ok(spent);
    }
    Ok(too_many(lines.len()))
}

/// Returns the plan of the correction of `sent` with these lines, which opens no event. `texts` are
/// those that come with the correction, and replace those of `sent`. `letters`, at most 24, is the
/// number of corrections that the original has, and gives the plan's BBB letter: A for 0.
fn correction_of(
    alloc: Global,
    sent: &Sent,
    letters: u8,
    texts: &[EventTexts],
    lines: List<Line>,
) -> Result<Plan, Oom>
    requires { letters ≤ 24 }
    ensures { IfOk result (λ plan. IsCorrectionOf sent.now letters texts.now lines plan) }
{
    let segments = segments(alloc, &lines)?;
    let texts = corrected_texts(alloc, texts, sent.texts.as_slice(), lines.as_slice())?;
    Ok(Plan {
        category: sent.category,
        bbb: Some(b'A' + letters),
        lines,
        segments,
        opened: List::new(alloc),
        texts,
    })
}

/// Returns the plan of a correction of `sent` at minute `t`, at most 52,000,000: `COR` for each of
/// its lines whose row is live at `t`, and no line for the others. `texts` come with the correction
/// and replace those that `sent` has for the same events. `last` is the number of the last product
/// of the category, and `letters`, at most 24, how many corrections the original has.
///
/// # Errors
///
/// `Or::No` with the first rule that the correction breaks, and otherwise out of memory.
///
/// Source: NWS Instruction 10-1703, P-VTEC action codes; docs/DECISIONS.md, "Plans".
pub fn plan_correction(
    alloc: Global,
    board: &Board,
    sent: &Sent,
    last: u32,
    letters: u8,
    texts: &List<EventTexts>,
    t: Minute,
) -> Result<Plan, Or<Refusal>>
    requires { CanCorrect board.now.rows sent.now letters t }
    ensures plan { IfOk result
        (λ plan. IsCorrection board.now.rows t sent.now letters texts.now plan) }
    ensures lawful { IfOk result (λ plan. IsTrue (are_lawful board.now.rows t plan.lines)) }
    ensures kept { OnOk result
        (broken_correction board.now.rows t sent.now last letters texts.now ≡ None) }
    ensures refused { (r : Refused) →
        result ≡ Err (No r) →
        broken_correction board.now.rows t sent.now last letters texts.now ≡ Some r }
{
    if let Some(refusal) = first_without_line(sent.lines.as_slice(), texts.as_slice()) {
        return Err(Or::No(refusal));
    }
    let lines = corrected_lines(alloc, board, t, sent.lines.as_slice())?;
    if let Some(refusal) = broken_on(alloc, board, t, sent.number, last, letters, &lines)? {
        return Err(Or::No(refusal));
    }
    Ok(correction_of(alloc, sent, letters, texts.as_slice(), lines)?)
}
