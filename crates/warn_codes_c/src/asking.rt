//! Questions about the products of a stream.
ghost use Rattle.std.specs.Prelude.{◌≡◌, ◌++◌, IfOk, OnOk, Some};
ghost use Rattle.warn_codes_c.specs.Asking.{question_of, rows_for, life_rows, breach_rows, gap_rows, shown_rows, all_rows, answer, Answers};

use crate::archive::Archive;
use crate::handing::hand_out;
use crate::rows::{RowFields, add_breaches, add_gaps, add_live_rows, add_lives};
use crate::status::{BAD_ARGUMENT, NO_MEMORY, OK, TOO_SMALL};
use hazard_types::{Class, List, Minute, Oom, is_office};
use std::alloc::Global;

/// A question about the lines of an office and class.
#[repr(C)]
#[derive(Clone, Copy)]
pub struct AskedFields {
    /// 1 is the lives of events, 2 the lines in breach, 3 the gaps in their numbers, 4 the rows
    /// that are live at `minute`, 5 all of these one after another.
    pub question: u32,
    /// Minutes since 2000-01-01T00:00Z UTC; it counts for the questions 4 and 5 alone.
    pub minute: u32,
    pub office: [u8; 4],
    /// The letter O, T, E or X.
    pub class: u8,
}

#[derive(Clone, Copy)]
pub enum Question {
    Lives,
    Breaches,
    Gaps,
    Shown(Minute),
    All(Minute),
}

/// Returns the question with this number, 1 to 5 as in `AskedFields`, or `None` if there is none.
/// `minute` counts for 4 and 5 alone, which are `None` if it is 52,596,000 or more.
pub fn question_of(number: u32, minute: u32) -> Option<Question>
    ensures { result ≡ question_of number minute }
{
    match number {
        1 => Some(Question::Lives),
        2 => Some(Question::Breaches),
        3 => Some(Question::Gaps),
        4 => match Minute::new(minute) {
            Some(minute) => Some(Question::Shown(minute)),
            None => None,
        },
        5 => match Minute::new(minute) {
            Some(minute) => Some(Question::All(minute)),
            None => None,
        },
        _ => None,
    }
}

/// Appends a row for each lawful line of an archive's products, by event, then zone, then in the
/// order of the products.
fn add_lives_of(alloc: Global, rows: &mut List<RowFields>, archive: &Archive) -> Result<(), Oom>
    ensures { OnOk result (rows.new ≡ rows.old ++ life_rows archive.now.reader.products) }
{
    let lives = archive.reader.lives(alloc)?;
    add_lives(rows, lives.as_slice())
}

/// Appends a row for each line of an archive's products that breaks a rule of the lives of events,
/// product by product.
fn add_breaches_of(alloc: Global, rows: &mut List<RowFields>, archive: &Archive) -> Result<(), Oom>
    ensures { OnOk result
        (rows.new ≡ rows.old ++ breach_rows archive.now.numbers archive.now.reader.products) }
{
    let breaches = archive.reader.breaches(alloc)?;
    add_breaches(rows, archive.numbers.as_slice(), breaches.as_slice())
}

/// Appends a row for each gap in the event tracking numbers of an archive's products: for each
/// event that was opened with another number than the next one of its hazard and year.
fn add_gaps_of(alloc: Global, rows: &mut List<RowFields>, archive: &Archive) -> Result<(), Oom>
    ensures { OnOk result (rows.new ≡ rows.old ++ gap_rows archive.now.reader.products) }
{
    let gaps = archive.reader.gaps(alloc)?;
    add_gaps(rows, gaps.as_slice())
}

/// Appends a row for each event and zone that an archive's products leave live at a minute, by
/// zone, then event.
fn add_rows_live_at(
    alloc: Global,
    rows: &mut List<RowFields>,
    archive: &Archive,
    minute: &Minute,
) -> Result<(), Oom>
    ensures { OnOk result
        (rows.new ≡ rows.old ++ shown_rows minute.now archive.now.reader.products) }
{
    let shown = archive.reader.shown(alloc, *minute)?;
    add_live_rows(rows, shown.as_slice())
}

/// Appends the rows that answer all four questions about an archive's products, one after another:
/// its lawful lines, its lines in breach, the gaps in its event tracking numbers, and the rows that
/// are live at `minute`.
fn add_all(
    alloc: Global,
    rows: &mut List<RowFields>,
    archive: &Archive,
    minute: &Minute,
) -> Result<(), Oom>
    ensures { OnOk result (rows.new
        ≡ rows.old ++ all_rows minute.now archive.now.numbers archive.now.reader.products) }
{
    add_lives_of(alloc, rows, archive)?;
    add_breaches_of(alloc, rows, archive)?;
    add_gaps_of(alloc, rows, archive)?;
    add_rows_live_at(alloc, rows, archive, minute)
}

/// Appends the rows that answer a question about an archive's products: its lawful lines, its lines
/// in breach, the gaps in its event tracking numbers, the rows live at the question's minute, or
/// all of these one after another.
fn add_rows(
    alloc: Global,
    rows: &mut List<RowFields>,
    archive: &Archive,
    question: &Question,
) -> Result<(), Oom>
    ensures { OnOk result (rows.new
        ≡ rows.old ++ rows_for question.now archive.now.numbers archive.now.reader.products) }
{
    match question {
        Question::Lives => add_lives_of(alloc, rows, archive),
        Question::Breaches => add_breaches_of(alloc, rows, archive),
        Question::Gaps => add_gaps_of(alloc, rows, archive),
        Question::Shown(minute) => add_rows_live_at(alloc, rows, archive, minute),
        Question::All(minute) => add_all(alloc, rows, archive, minute),
    }
}

/// Returns the rows that answer a question about an archive's products: its lawful lines, its lines
/// in breach, the gaps in its event tracking numbers, the rows that are live at the question's
/// minute, or all of these one after another.
///
/// # Errors
///
/// Out of memory.
pub fn rows_for(
    alloc: Global,
    archive: &Archive,
    question: &Question,
) -> Result<List<RowFields>, Oom>
    ensures { IfOk result
        (λ rows. rows ≡ rows_for question.now archive.now.numbers archive.now.reader.products) }
{
    let mut rows = List::new(alloc);
    add_rows(alloc, &mut rows, archive, question)?;
    Ok(rows)
}

/// Writes the count of the rows to `needed`, and the rows to `out` if it has room for all of them.
/// Returns `OK`, or `TOO_SMALL` if it has not, and then `out` is as before.
pub fn fill_rows(rows: &[RowFields], out: &mut [RowFields], needed: &mut usize) -> u32
    ensures { Answers (Some rows.now) result out.old out.new needed.old needed.new }
{
    *needed = rows.len();
    if hand_out(rows, out) { OK } else { TOO_SMALL }
}

/// Reads the products of a whole stream, and writes the rows that answer a question to `rows`, and
/// their count to `needed`. Returns `OK`, or `TOO_SMALL` if `rows` has no room for all, and then
/// only `needed` is written. Nothing is written if it returns `NO_MEMORY`, or `BAD_ARGUMENT`, which
/// is for an office that is not four characters of A-Z and 0-9, a class that is not O, T, E or X, a
/// question that is not 1 to 5, and for the questions 4 and 5 a minute of 52,596,000 or more.
#[unsafe(no_mangle)]
pub extern "C" fn warn_codes_c_ask(
    alloc: Global,
    stream: &[u8],
    asked: &AskedFields,
    rows: &mut [RowFields],
    needed: &mut usize,
) -> u32
    ensures exact { Answers (answer asked.now stream.now) result rows.old rows.new needed.old
        needed.new }
{
    let Some(class) = Class::from_code(&[asked.class]) else {
        return BAD_ARGUMENT;
    };
    let office = asked.office;
    if !is_office(&office) {
        return BAD_ARGUMENT;
    }
    let Some(question) = question_of(asked.question, asked.minute) else {
        return BAD_ARGUMENT;
    };
    let Ok(archive) = Archive::of(alloc, office, class, stream) else {
        return NO_MEMORY;
    };
    let Ok(found) = rows_for(alloc, &archive, &question) else {
        return NO_MEMORY;
    };
    fill_rows(found.as_slice(), rows, needed)
}
