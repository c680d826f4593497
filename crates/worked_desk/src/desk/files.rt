//! Journals as bytes: the making of one of an older office, changes of one, and its last record. A
//! record is the byte `G`, the length of its body as four bytes, most significant first, and the
//! body.
use hazard_types::{List, Oom, Text};
use std::alloc::Global;

/// The first byte of a record.
const GATE: u8 = b'G';

/// The last byte of a journal.
const CLOSE: u8 = b'.';

/// The number of bytes before the body of a record.
const HEAD: usize = 5;

/// Appends a record with this body: `G`, the length of the body as four bytes, and the body.
fn add_record(journal: &mut Text, body: &[u8]) -> Result<(), Oom> {
    let length = u32::try_from(body.len()).unwrap_or(u32::MAX);
    journal.push(GATE)?;
    journal.extend(&length.to_be_bytes())?;
    journal.extend(body)
}

/// Returns the journal of an office of edition One: a record with `settings` as its body, one with
/// `entry` as its body, and `.`.
///
/// # Errors
///
/// Out of memory.
pub fn older_journal(alloc: Global, settings: &[u8], entry: &[u8]) -> Result<Text, Oom> {
    let mut journal = List::new(alloc);
    add_record(&mut journal, settings)?;
    add_record(&mut journal, entry)?;
    journal.push(CLOSE)?;
    Ok(journal)
}

/// Returns a copy of a journal with one more record, whose body is `body`, after its others.
///
/// # Errors
///
/// Out of memory.
pub fn with_record(alloc: Global, journal: &[u8], body: &[u8]) -> Result<Text, Oom> {
    let records = records_of(journal);
    let mut longer = List::from_slice(alloc, records)?;
    add_record(&mut longer, body)?;
    longer.push(CLOSE)?;
    Ok(longer)
}

/// Returns the records of a journal, without its last byte `.`; empty for an empty file.
pub fn records_of(journal: &[u8]) -> &[u8] {
    match journal.split_last() {
        Some((_close, records)) => records,
        None => journal,
    }
}

/// Returns a file with its byte number `back` from the end, counted from 1, set to `byte`. If there
/// is no such byte the file is as before.
///
/// # Errors
///
/// Out of memory.
pub fn with_byte(alloc: Global, file: &[u8], back: u64, byte: u8) -> Result<Text, Oom> {
    let length = file.len() as u64;
    let mut changed = List::new(alloc);
    let mut rest = length;
    for old in file {
        let new = if rest == back { byte } else { *old };
        changed.push(new)?;
        rest = rest.saturating_sub(1);
    }
    Ok(changed)
}

/// Returns the length of the body that the record at the start of the bytes states, or `None` if
/// they do not start with `G` and four bytes.
fn body_length(bytes: &[u8]) -> Option<u32> {
    if *bytes.first()? != GATE {
        return None;
    }
    let first = *bytes.get(1)?;
    let second = *bytes.get(2)?;
    let third = *bytes.get(3)?;
    let fourth = *bytes.get(4)?;
    Some(u32::from_be_bytes([first, second, third, fourth]))
}

/// Returns the bytes after the record with which the bytes start, or `None` if they do not start
/// with a whole record.
fn behind_record(bytes: &[u8]) -> Option<&[u8]> {
    let length = usize::try_from(body_length(bytes)?).ok()?;
    bytes.get(HEAD.checked_add(length)?..)
}

/// Returns the bytes of a journal from the start of its last record on, whole or not. All bytes are
/// returned if no record comes after another.
fn last_record(journal: &[u8]) -> &[u8] {
    let mut bytes = journal;
    for _turn in 0..journal.len() {
        match behind_record(bytes) {
            Some(rest) if rest.first() == Some(&GATE) => bytes = rest,
            _ => return bytes,
        }
    }
    bytes
}

/// Returns the line `G LENGTH REST` for the last record of a journal, whole or not: the length that
/// it states for its body, as eight hex digits, and all bytes of the journal after that length as
/// text, with replacement characters for those that are not UTF-8. It is the line `no record` if
/// the journal has no record, or if it ends within the five bytes before the last record's body.
///
/// # Errors
///
/// Out of memory.
pub fn record_text(alloc: Global, journal: &[u8]) -> Result<String, Oom> {
    let record = last_record(journal);
    let (Some(length), Some(rest)) = (body_length(record), record.get(HEAD..)) else {
        return Ok(String::from_str(alloc, "no record\n")?);
    };
    let rest = String::from_utf8_lossy(alloc, rest)?;
    let rest = rest.as_str();
    Ok(format!(in alloc; "G {length:08x} {rest}\n")?)
}
