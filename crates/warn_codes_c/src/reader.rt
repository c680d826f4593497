//! Readers that stay open between calls.
ghost use Rattle.std.specs.Prelude.{◌≡◌, Option, Some, None, IfSome, MatchOption, IsSomeAnd, [], ◌∷◌, false};
ghost use Rattle.hazard_types.specs.Codes.{value_for_code};
ghost use Rattle.hazard_types.specs.Tables.{class_rows};
ghost use Rattle.warn_codes_c.specs.Archive.{Pushed, Finished};
ghost use Rattle.warn_codes_c.specs.Asking.{office_at, question_of, Answers};
ghost use Rattle.warn_codes_c.specs.OpenReaders.{taken_in, Opens, GoesOn, told_by, IsFresh};

use crate::archive::Archive;
use crate::asking::{fill_rows, question_of, rows_for};
use crate::handle::{Handle, ReaderFields};
use crate::loose::Loose;
use crate::rows::RowFields;
use crate::status::{BAD_ARGUMENT, NO_MEMORY, OK};
use hazard_types::{Class, is_office};
use std::alloc::Global;
use std::mem::replace;

/// Returns the fields of a closed reader, which owns nothing.
fn closed(alloc: Global) -> ReaderFields
    ensures { taken_in result ≡ None }
{
    ReaderFields {
        handle: Handle::closed(alloc),
        is_open: 0,
    }
}

/// Returns the fields of an open reader that owns this archive, whose stream must not have been
/// ended.
fn opened(archive: Box<Archive, Global>) -> ReaderFields
    requires { archive.value.feed.ended ≡ false }
    ensures { taken_in result ≡ Some archive.value }
{
    ReaderFields {
        handle: Handle::of(Loose::of(archive)),
        is_open: 1,
    }
}

/// Returns the archive of an open reader, or `None` if the reader is closed. The reader is closed
/// afterwards.
#[tactic(auto, using(crate::proofs::OpenLemmas::is_some, crate::proofs::OpenLemmas::is_going_on))]
fn take_archive_out(alloc: Global, reader: &mut ReaderFields) -> Option<Box<Archive, Global>>
    ensures value { MatchOption result (taken_in reader.old ≡ None)
        (λ b. taken_in reader.old ≡ Some b.value) }
    ensures going { IfSome result (λ b. b.value.feed.ended ≡ false) }
    ensures closed { taken_in reader.new ≡ None }
{
    let ReaderFields { handle, is_open } = replace(reader, closed(alloc));
    if is_open != 1 {
        return None;
    }
    Some(handle.into_loose().into_box())
}

/// Returns an open reader of an office and class that has taken nothing, or `None` if memory runs
/// out.
fn opened_for(alloc: Global, office: [u8; 4], class: Class) -> Option<ReaderFields>
    ensures { IfSome result (λ r. IsSomeAnd (taken_in r) (IsFresh office class)) }
{
    let archive = Archive::new(alloc, office, class);
    match Box::new(alloc, archive) {
        Ok(archive) => Some(opened(archive)),
        Err(_) => None,
    }
}

/// Opens a closed reader of the products of an office, of which it follows the lines of a class
/// (the letter O, T, E or X). Returns `OK`, `NO_MEMORY`, or `BAD_ARGUMENT` if the reader is open,
/// the class is none of these letters, or the office is not four characters of A-Z and 0-9. If it
/// does not return `OK`, the reader is as before.
#[unsafe(no_mangle)]
pub extern "C" fn warn_codes_c_open(
    alloc: Global,
    reader: &mut ReaderFields,
    office: &[u8; 4],
    class: u8,
) -> u32
    ensures { Opens (taken_in reader.old) (value_for_code class_rows (class ∷ []))
        (office_at office.now) result (taken_in reader.new) }
{
    if reader.is_open == 1 {
        return BAD_ARGUMENT;
    }
    let Some(class) = Class::from_code(&[class]) else {
        return BAD_ARGUMENT;
    };
    if !is_office(office) {
        return BAD_ARGUMENT;
    }
    match opened_for(alloc, *office, class) {
        Some(opened) => {
            *reader = opened;
            OK
        }
        None => NO_MEMORY,
    }
}

/// Takes a piece of a stream of products, which may end anywhere. Returns `OK`; `BAD_ARGUMENT` if
/// the reader is closed; or `NO_MEMORY`, and then the reader is closed.
///
/// Source: docs/DECISIONS.md, "The library for C".
#[unsafe(no_mangle)]
pub extern "C" fn warn_codes_c_take(alloc: Global, reader: &mut ReaderFields, piece: &[u8]) -> u32
    ensures { GoesOn (λ a b. Pushed a piece.now b) (taken_in reader.old) result
        (taken_in reader.new) }
{
    let Some(mut archive) = take_archive_out(alloc, reader) else {
        return BAD_ARGUMENT;
    };
    if archive.push(alloc, piece).is_err() {
        return NO_MEMORY;
    }
    *reader = opened(archive);
    OK
}

/// Ends the stream and with it its last product; the next piece starts another stream. Returns
/// `OK`; `BAD_ARGUMENT` if the reader is closed; or `NO_MEMORY`, and then the reader is closed.
#[unsafe(no_mangle)]
pub extern "C" fn warn_codes_c_end(alloc: Global, reader: &mut ReaderFields) -> u32
    ensures { GoesOn Finished (taken_in reader.old) result (taken_in reader.new) }
{
    let Some(mut archive) = take_archive_out(alloc, reader) else {
        return BAD_ARGUMENT;
    };
    if archive.finish(alloc).is_err() {
        return NO_MEMORY;
    }
    *reader = opened(archive);
    OK
}

/// Writes the rows that answer a question about the products that have ended to `rows`, and their
/// count to `needed`; `question` and `minute` are those of `AskedFields`. Returns `OK`; `TOO_SMALL`
/// if `rows` has no room for all, and then only `needed` is written; or `BAD_ARGUMENT` (a closed
/// reader, no such question or minute) or `NO_MEMORY`, and then nothing is written. The reader is
/// as before.
#[unsafe(no_mangle)]
pub extern "C" fn warn_codes_c_tell(
    alloc: Global,
    reader: &mut ReaderFields,
    question: u32,
    minute: u32,
    rows: &mut [RowFields],
    needed: &mut usize,
) -> u32
    ensures told { Answers (told_by (taken_in reader.old) (question_of question minute)) result
        rows.old rows.new needed.old needed.new }
    ensures kept { taken_in reader.new ≡ taken_in reader.old }
{
    let Some(question) = question_of(question, minute) else {
        return BAD_ARGUMENT;
    };
    let Some(archive) = take_archive_out(alloc, reader) else {
        return BAD_ARGUMENT;
    };
    let found = rows_for(alloc, &archive, &question);
    *reader = opened(archive);
    match found {
        Ok(found) => fill_rows(found.as_slice(), rows, needed),
        Err(_) => NO_MEMORY,
    }
}

/// Closes a reader and frees what it has taken. Returns `OK`, for a closed reader too.
#[unsafe(no_mangle)]
pub extern "C" fn warn_codes_c_close(alloc: Global, reader: &mut ReaderFields) -> u32
    ensures status { result ≡ 0 }
    ensures closed { taken_in reader.new ≡ None }
{
    drop(take_archive_out(alloc, reader));
    OK
}
