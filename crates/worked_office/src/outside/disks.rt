//! Rows of disks.
ghost use Rattle.std.specs.Prelude.{◌+◌};
ghost use Rattle.desk_traits.specs.File.{IsWithin};

use crate::outside::told::Told;
use crate::outside::words::{add, add_bytes, add_part, bytes_of};
use desk_traits::{Disk, DiskCall, Failed, MemDisk, SureDisk, write_synced};
use hazard_types::{List, Oom, Text};
use std::alloc::Global;

/// A call of a disk.
#[derive(Drop)]
enum Call {
    Len,
    Read { at: u64, count: u16 },
    Write { at: u64, bytes: Text },
    /// A write and a sync.
    Put { at: u64, bytes: Text },
    Sync,
}

/// Returns the call of a word `len`, `sync`, `read:AT:COUNT`, `write:AT:BYTES` or `put:AT:BYTES`,
/// or `None` for another word. AT is the index of a byte of the file, from 0 and below 2^32, and
/// COUNT a number of bytes below 65,536. In BYTES `\` and two hex digits are one byte, and `_`
/// alone is no byte.
fn call_of(alloc: Global, word: &str) -> Result<Option<Call>, Oom> {
    match word {
        "len" => return Ok(Some(Call::Len)),
        "sync" => return Ok(Some(Call::Sync)),
        _ => {}
    }
    let Some((name, rest)) = word.split_once(':') else {
        return Ok(None);
    };
    let Some((at, what)) = rest.split_once(':') else {
        return Ok(None);
    };
    let Ok(at) = at.parse::<u32>() else {
        return Ok(None);
    };
    let at = u64::from(at);
    if name == "read" {
        return Ok(
            what.parse::<u16>()
                .ok()
                .map(|count| Call::Read { at, count }),
        );
    }
    let Some(bytes) = bytes_of(alloc, what)? else {
        return Ok(None);
    };
    match name {
        "write" => Ok(Some(Call::Write { at, bytes })),
        "put" => Ok(Some(Call::Put { at, bytes })),
        _ => Ok(None),
    }
}

/// Appends `ok` if the call of a disk succeeded, or `failed`.
fn add_done(answer: &mut String, done: Result<(), Failed>) -> Result<(), Oom> {
    match done {
        Ok(()) => add(answer, "ok"),
        Err(_) => add(answer, "failed"),
    }
}

/// Asks a disk for the length of its file, and appends it in decimal, or `failed`.
fn tell_len<D: Disk>(alloc: Global, disk: &mut D, answer: &mut String) -> Result<(), Oom> {
    match disk.len() {
        Ok(len) => add(answer, format!(in alloc; "{len}")?.as_str()),
        Err(_) => add(answer, "failed"),
    }
}

/// Syncs a disk, and appends `ok` or `failed`.
fn tell_sync<D: Disk>(disk: &mut D, answer: &mut String) -> Result<(), Oom> {
    add_done(answer, disk.sync())
}

/// Reads `count` bytes at byte `at` of the file, counted from 0, and appends `read` and the bytes
/// as a word, or `failed`. The bytes lie within the file.
fn tell_read<D: Disk>(
    alloc: Global,
    disk: &mut D,
    at: u64,
    count: u16,
    answer: &mut String,
) -> Result<(), Oom>
    requires { IsWithin (at + count) (D.seen disk.old) }
{
    let mut buffer = vec![in alloc; b'-'; count as usize]?;
    match disk.read_at(at, &mut buffer) {
        Ok(()) => {
            add(answer, "read ")?;
            add_bytes(answer, &buffer)
        }
        Err(_) => add(answer, "failed"),
    }
}

/// Writes bytes at byte `at` of the file, counted from 0 and at most its length, and appends `ok`
/// or `failed`.
fn tell_write<D: Disk>(disk: &mut D, at: u64, bytes: &Text, answer: &mut String) -> Result<(), Oom>
    requires { IsWithin at (D.seen disk.old) }
{
    add_done(answer, disk.write_at(at, bytes.as_slice()))
}

/// Writes bytes at byte `at` of the file, counted from 0 and at most its length, and syncs, and
/// appends `ok` or `failed`.
fn tell_put<D: Disk>(disk: &mut D, at: u64, bytes: &Text, answer: &mut String) -> Result<(), Oom>
    requires { IsWithin at (D.seen disk.old) }
{
    add_done(answer, write_synced(disk, at, bytes.as_slice()))
}

/// Makes a call of a disk in memory, and appends to `answer` what it returned: a length, `read` and
/// the bytes, `ok`, or `failed`. A read beyond the end of the file, or a write that starts beyond
/// it, is not made, and `outside` is appended.
fn make(alloc: Global, disk: &mut MemDisk, call: &Call, answer: &mut String) -> Result<(), Oom> {
    let len = disk.file().len() as u64;
    match call {
        Call::Len => tell_len(alloc, disk, answer),
        Call::Sync => tell_sync(disk, answer),
        Call::Read { at, count } => {
            if len < u64::from(*count) || len - u64::from(*count) < *at {
                return add(answer, "outside");
            }
            tell_read(alloc, disk, *at, *count, answer)
        }
        Call::Write { at, bytes } => {
            if len < *at {
                return add(answer, "outside");
            }
            tell_write(disk, *at, bytes, answer)
        }
        Call::Put { at, bytes } => {
            if len < *at {
                return add(answer, "outside");
            }
            tell_put(disk, *at, bytes, answer)
        }
    }
}

/// Makes a call of a disk that never fails, and appends to `answer` what it returned: a length,
/// `read` and the bytes, or `ok`.
fn make_sure(
    alloc: Global,
    disk: &mut SureDisk,
    call: &Call,
    answer: &mut String,
) -> Result<(), Oom> {
    match call {
        Call::Len => tell_len(alloc, disk, answer),
        Call::Sync => tell_sync(disk, answer),
        Call::Read { at, count } => tell_read(alloc, disk, *at, *count, answer),
        Call::Write { at, bytes } => tell_write(disk, *at, bytes, answer),
        Call::Put { at, bytes } => tell_put(disk, *at, bytes, answer),
    }
}

/// Returns the letter of a call that a disk in memory has recorded: `L` for a length, `R` for a
/// read, `W` for a write, `S` for a sync. It is a small letter if the call failed.
fn noted(call: &DiskCall) -> &'static str {
    match call {
        DiskCall::Looked => "L",
        DiskCall::Read { .. } => "R",
        DiskCall::Wrote { .. } => "W",
        DiskCall::Synced => "S",
        DiskCall::LookFailed => "l",
        DiskCall::ReadFailed { .. } => "r",
        DiskCall::WriteFailed { .. } => "w",
        DiskCall::SyncFailed => "s",
    }
}

/// Returns a disk in memory with the bytes of `told` as its file. `told` also gives the calls that
/// fail, the last call that may succeed, and what a crash leaves of the writes.
///
/// # Errors
///
/// Out of memory.
pub fn disk_of(alloc: Global, told: &Told) -> Result<MemDisk, Oom> {
    let bytes = told.bytes.as_slice();
    MemDisk::new(alloc, bytes, &told.failing, told.stop, told.pick)
}

/// Returns a disk in memory with this file, of which no call fails.
///
/// # Errors
///
/// Out of memory.
pub fn disk_with(alloc: Global, file: &[u8]) -> Result<MemDisk, Oom> {
    let none = List::new(alloc);
    MemDisk::new(alloc, file, &none, None, 0)
}

/// Returns the file that a crash now leaves of a disk in memory.
///
/// # Errors
///
/// Out of memory.
pub fn left_by(disk: MemDisk) -> Result<Text, Oom> {
    disk.crashed()
}

/// Appends `; calls ` and the letters of the calls that a disk in memory has recorded, in order.
fn add_noted(answer: &mut String, disk: &MemDisk) -> Result<(), Oom> {
    answer.push_str("; calls ")?;
    for call in disk.calls() {
        answer.push_str(noted(call))?;
    }
    Ok(())
}

/// Appends `; file ` and the bytes of the file of a disk in memory.
///
/// # Errors
///
/// Out of memory.
pub fn add_file(answer: &mut String, disk: &MemDisk) -> Result<(), Oom> {
    add_part(answer, "file", disk.file().as_slice())
}

/// Returns what each call of a disk in memory returned, or `unread` for a word that is no call,
/// then the letters of the recorded calls, the file, and the file that a crash leaves. `told` gives
/// the file and the faults. `calls` are words `len`, `sync`, `read:AT:COUNT`, `write:AT:BYTES` and
/// `put:AT:BYTES` (a write and a sync), where AT is the index of a byte, from 0.
///
/// # Errors
///
/// Out of memory.
pub fn disk_row(alloc: Global, told: &Told, calls: &str) -> Result<String, Oom> {
    let mut answer = String::new(alloc);
    let mut disk = disk_of(alloc, told)?;
    for word in calls.split_whitespace() {
        match call_of(alloc, word)? {
            Some(call) => make(alloc, &mut disk, &call, &mut answer)?,
            None => add(&mut answer, "unread")?,
        }
    }
    add_noted(&mut answer, &disk)?;
    add_file(&mut answer, &disk)?;
    let left = left_by(disk)?;
    add_part(&mut answer, "left", left.as_slice())?;
    Ok(answer)
}

/// Returns what each call of a disk that never fails returned, or `unread` for a word that is no
/// call. The disk has an empty file at first and room for `told.piece` bytes. `calls` are words
/// `len`, `sync`, `read:AT:COUNT`, `write:AT:BYTES` and `put:AT:BYTES` (a write and a sync), where
/// AT is the index of a byte, from 0.
///
/// # Errors
///
/// Out of memory.
pub fn sure_disk_row(alloc: Global, told: &Told, calls: &str) -> Result<String, Oom> {
    let mut answer = String::new(alloc);
    let mut disk = SureDisk::new(alloc, told.piece)?;
    for word in calls.split_whitespace() {
        match call_of(alloc, word)? {
            Some(call) => make_sure(alloc, &mut disk, &call, &mut answer)?,
            None => add(&mut answer, "unread")?,
        }
    }
    Ok(answer)
}
