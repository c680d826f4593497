//! Rows of journals.
use crate::outside::disks::{add_file, disk_of, disk_with, left_by};
use crate::outside::told::Told;
use crate::outside::words::{add, bytes_of, unread};
use desk_traits::{Disk, MemDisk};
use hazard_types::Oom;
use journal_core::{AdoptFault, AppendFault, CreateFault, Journal, Packet};
use std::alloc::Global;

/// Returns the body of a journal record that a word gives, or `None` if the word does not give
/// bytes or has more than 65,536 of them.
fn packet_of(alloc: Global, word: &str) -> Result<Option<Packet>, Oom> {
    match bytes_of(alloc, word)? {
        Some(bytes) if bytes.len() <= 65_536 => Ok(Some(Packet::new(alloc, bytes.as_slice())?)),
        _ => Ok(None),
    }
}

/// Appends a record with the body `body` to a journal, and returns `ok`, `full` if the journal has
/// no room for it, or `failed` if the disk fails.
fn added<D: Disk>(journal: &mut Journal<D>, body: &Packet) -> &'static str {
    match journal.append(body) {
        Ok(()) => "ok",
        Err(AppendFault::Full) => "full",
        Err(AppendFault::DiskFault) => "failed",
    }
}

/// Returns how many record bodies the journal on a disk has, or errs with why the disk has no
/// journal that can be read.
fn adopted<D: Disk + Drop>(alloc: Global, disk: D) -> Result<usize, AdoptFault> {
    match Journal::adopt(alloc, disk) {
        Ok((_journal, bodies)) => Ok(bodies.len()),
        Err((_disk, fault)) => Err(fault),
    }
}

/// Returns a new journal on a disk whose first record has this body, or errs with the disk and why
/// none was made.
fn created<D: Disk>(disk: D, body: &Packet) -> Result<Journal<D>, (D, CreateFault)> {
    Journal::create(disk, body)
}

/// Returns the disk that the journal is written on.
fn disk_under<D: Disk>(journal: Journal<D>) -> D {
    journal.into_disk()
}

/// Returns how many record bodies the bytes `file` have as a journal, or the fault for which they
/// are no journal. The outer `Err` is that memory ran out.
fn bodies_in(alloc: Global, file: &[u8]) -> Result<Result<usize, AdoptFault>, Oom> {
    let disk = disk_with(alloc, file)?;
    Ok(adopted(alloc, disk))
}

/// Appends how many record bodies a journal file has, or why the file is no journal: `damaged at`
/// the index of a byte, `disk fault`, or `fresh` for a file in which no journal was made.
fn add_opened(alloc: Global, file: &[u8], answer: &mut String) -> Result<(), Oom> {
    match bodies_in(alloc, file)? {
        Ok(count) => answer.push_str(format!(in alloc; "{count}")?.as_str())?,
        Err(AdoptFault::Damaged { at }) => {
            answer.push_str(format!(in alloc; "damaged at {at}")?.as_str())?
        }
        Err(AdoptFault::Fresh) => answer.push_str("fresh")?,
        Err(AdoptFault::DiskFault) => answer.push_str("disk fault")?,
        Err(AdoptFault::OutOfMemory) => return Err(Oom),
    }
    Ok(())
}

/// Appends a record to a journal for each word, which gives its body, and returns the disk of the
/// journal. For each word it adds to `answer` `ok`, `full` if the journal has no room, `failed` if
/// the disk fails, or `unread` if the word gives no body.
fn appended(
    alloc: Global,
    mut journal: Journal<MemDisk>,
    words: &str,
    answer: &mut String,
) -> Result<MemDisk, Oom> {
    for word in words.split_whitespace() {
        match packet_of(alloc, word)? {
            Some(body) => add(answer, added(&mut journal, &body))?,
            None => add(answer, "unread")?,
        }
    }
    Ok(disk_under(journal))
}

/// Creates a journal on a disk with `body` in its first record, appends a record for each of the
/// words, which give bodies, and returns the disk. It adds to `answer` `made` and for each word
/// `ok`, `full` if the journal has no room, `failed` if the disk fails, or `unread` if the word
/// gives no body. If no journal was made it appends no record and adds only `not fresh`, or `not
/// made` if the disk failed.
fn journal_over(
    alloc: Global,
    disk: MemDisk,
    body: &Packet,
    words: &str,
    answer: &mut String,
) -> Result<MemDisk, Oom> {
    let (disk, fault) = match created(disk, body) {
        Ok(journal) => {
            add(answer, "made")?;
            return appended(alloc, journal, words, answer);
        }
        Err(refused) => refused,
    };
    match fault {
        CreateFault::NotFresh => add(answer, "not fresh")?,
        CreateFault::DiskFault => add(answer, "not made")?,
    }
    Ok(disk)
}

/// Returns what is printed for a journal on the disk that `told` gives: whether it was made with
/// the first word as its first body, what appending each other word returned, the file, and how
/// many bodies a crash leaves. It is `unread` if the first word gives no body.
///
/// # Errors
///
/// Out of memory.
pub fn journal_row(alloc: Global, told: &Told, words: &str) -> Result<String, Oom> {
    let mut answer = String::new(alloc);
    let words = words.trim();
    let (first, rest) = words.split_once(' ').unwrap_or((words, ""));
    let Some(settings) = packet_of(alloc, first)? else {
        return unread(alloc);
    };
    let disk = journal_over(alloc, disk_of(alloc, told)?, &settings, rest, &mut answer)?;
    add_file(&mut answer, &disk)?;
    answer.push_str("; left ")?;
    let left = left_by(disk)?;
    add_opened(alloc, left.as_slice(), &mut answer)?;
    Ok(answer)
}

/// Returns how many record bodies the bytes of `told` have as a journal file, or why they are no
/// journal: `damaged at` the index of a byte, `disk fault`, or `fresh` for a file in which no
/// journal was made.
///
/// # Errors
///
/// Out of memory.
pub fn opened_row(alloc: Global, told: &Told) -> Result<String, Oom> {
    let mut answer = String::new(alloc);
    add_opened(alloc, told.bytes.as_slice(), &mut answer)?;
    Ok(answer)
}

/// Returns a file in the form of a journal with one record, whose body is `count` bytes `x`. It is
/// no journal if a body may not have so many bytes.
fn long_file(alloc: Global, count: u32) -> Result<Vec<u8>, Oom> {
    let mut file = Vec::new(alloc);
    file.push(b'G')?;
    file.extend_from_slice(&count.to_be_bytes())?;
    file.resize(count as usize + 5, b'x')?;
    file.push(b'.')?;
    Ok(file)
}

/// Returns how many record bodies a file in the form of a journal with one body of `told.pick`
/// bytes has, or why it is no journal. It is empty if `told.pick` is 2^32 or more.
///
/// # Errors
///
/// Out of memory.
pub fn long_row(alloc: Global, told: &Told) -> Result<String, Oom> {
    let mut answer = String::new(alloc);
    let Ok(count) = u32::try_from(told.pick) else {
        return Ok(answer);
    };
    let file = long_file(alloc, count)?;
    add_opened(alloc, &file, &mut answer)?;
    Ok(answer)
}
