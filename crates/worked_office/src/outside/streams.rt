//! Rows of sources, sinks and clocks.
ghost use Rattle.std.specs.Prelude.{◌<◌, length};

use crate::outside::told::Told;
use crate::outside::words::{add, add_bytes, add_part, bytes_of, unread};
use byte_streams::{MemSink, MemSource, Sink, Source, SureSink, SureSource, write_whole};
use desk_traits::{Clock, SetClock};
use hazard_types::{List, Oom};
use std::alloc::Global;

/// Reads once from a source and appends the number of bytes and the bytes, or `failed`. `room` is
/// the size of the buffer, a decimal word; `unread` is appended if it is no number below 65,536.
///
/// # Errors
///
/// Out of memory.
pub fn read_once<S: Source>(
    alloc: Global,
    source: &mut S,
    room: &str,
    answer: &mut String,
) -> Result<(), Oom> {
    let Ok(room) = room.parse::<u16>() else {
        return add(answer, "unread");
    };
    let mut buffer = vec![in alloc; 0; room as usize]?;
    match source.read(&mut buffer) {
        Ok(count) => {
            add(answer, format!(in alloc; "{count} ")?.as_str())?;
            add_bytes(answer, &buffer[..count])
        }
        Err(_) => add(answer, "failed"),
    }
}

/// Writes the bytes that a word gives to a sink, and appends `ok` or `failed`. It appends `unread`
/// if the word does not give bytes.
///
/// # Errors
///
/// Out of memory.
pub fn write_word<K: Sink>(
    alloc: Global,
    sink: &mut K,
    word: &str,
    answer: &mut String,
) -> Result<(), Oom> {
    let Some(bytes) = bytes_of(alloc, word)? else {
        return add(answer, "unread");
    };
    match write_whole(sink, bytes.as_slice()) {
        Ok(()) => add(answer, "ok"),
        Err(_) => add(answer, "failed"),
    }
}

/// Returns what is printed for reads of a source, one for each word of `calls`, which is the size
/// of its buffer in bytes: the number of bytes and the bytes, `failed`, or `unread` if the word is
/// no number below 65,536.
fn read_all<S: Source>(alloc: Global, mut source: S, calls: &str) -> Result<String, Oom>
where
    S: Drop,
{
    let mut answer = String::new(alloc);
    for room in calls.split_whitespace() {
        read_once(alloc, &mut source, room, &mut answer)?;
    }
    Ok(answer)
}

/// Returns what is printed for reads of a source in memory, for each the number of bytes and the
/// bytes, `failed`, or `unread` if the word is no number below 65,536. `told` gives the bytes of
/// the source, the most bytes that a read returns and the reads that fail. Each word of `calls` is
/// a read, and gives the size of its buffer in bytes.
///
/// # Errors
///
/// Out of memory.
pub fn source_row(alloc: Global, told: &Told, calls: &str) -> Result<String, Oom> {
    let bytes = told.bytes.as_slice();
    let source = MemSource::new(alloc, bytes, told.piece, &told.failing)?;
    read_all(alloc, source, calls)
}

/// Returns what is printed for reads of a source of the bytes of `told` that never fails. Each word
/// of `calls` is a read, and gives the size of its buffer in bytes.
///
/// # Errors
///
/// Out of memory.
pub fn sure_source_row(alloc: Global, told: &Told, calls: &str) -> Result<String, Oom> {
    let source = SureSource::new(alloc, told.bytes.as_slice())?;
    read_all(alloc, source, calls)
}

/// Returns what is printed for writes to a sink, one for each word of `calls`, which gives the
/// bytes to write: `ok`, `failed`, or `unread` if the word gives no bytes.
fn write_words<K: Sink>(alloc: Global, sink: &mut K, calls: &str) -> Result<String, Oom> {
    let mut answer = String::new(alloc);
    for word in calls.split_whitespace() {
        write_word(alloc, sink, word, &mut answer)?;
    }
    Ok(answer)
}

/// Returns a sink in memory whose calls with the numbers `told.failing` fail.
fn sink_of(alloc: Global, told: &Told) -> Result<MemSink, Oom> {
    MemSink::new(alloc, &told.failing)
}

/// Returns what each write to a sink in memory returned, and the bytes that the sink took. Each
/// word of `calls` is a write, and gives its bytes; `told` gives the numbers of the calls that
/// fail.
///
/// # Errors
///
/// Out of memory.
pub fn sink_row(alloc: Global, told: &Told, calls: &str) -> Result<String, Oom> {
    let mut sink = sink_of(alloc, told)?;
    let mut answer = write_words(alloc, &mut sink, calls)?;
    add_part(&mut answer, "taken", sink.taken().as_slice())?;
    Ok(answer)
}

/// Returns what is printed for writes to a sink that never fails, one for each word of `calls`,
/// which gives its bytes.
///
/// # Errors
///
/// Out of memory.
pub fn sure_sink_row(alloc: Global, calls: &str) -> Result<String, Oom> {
    write_words(alloc, &mut SureSink, calls)
}

/// Returns the readings that decimal words with commas between them give, in minutes since
/// 2000-01-01T00:00Z UTC. A word that is no number is left out.
fn readings_of(alloc: Global, words: &str) -> Result<List<i64>, Oom> {
    let mut readings = List::new(alloc);
    for word in words.split(',') {
        if let Ok(reading) = word.parse::<i64>() {
            readings.push(reading)?;
        }
    }
    Ok(readings)
}

/// Returns the reading, in decimal, of a call `tick` or `minute` of a clock, or `unread` for
/// another word.
fn clock_call<C: Clock>(alloc: Global, clock: &mut C, call: &str) -> Result<String, Oom> {
    let reading = match call {
        "tick" => clock.tick(),
        "minute" => clock.minute(),
        _ => return unread(alloc),
    };
    Ok(format!(in alloc; "{reading}")?)
}

/// Returns what is printed for the calls of a clock, the words `tick` and `minute`: the reading of
/// each in decimal, in minutes since 2000-01-01T00:00Z UTC, or `unread` for another word, with a
/// comma and a blank between them.
fn clock_calls<C: Clock>(alloc: Global, clock: &mut C, calls: &str) -> Result<String, Oom> {
    let mut answer = String::new(alloc);
    for call in calls.split_whitespace() {
        let reading = clock_call(alloc, clock, call)?;
        add(&mut answer, reading.as_str())?;
    }
    Ok(answer)
}

/// Returns a clock with these readings, in minutes since 2000-01-01T00:00Z UTC.
fn clock_of(readings: &List<i64>) -> Result<SetClock, Oom>
    requires { 0 < length readings.now }
{
    SetClock::new(readings)
}

/// Returns the readings, in decimal, of the calls of a clock, the words `tick` and `minute`, with
/// `unread` for another word. `words` are the readings that the clock gives, in minutes since
/// 2000-01-01T00:00Z UTC, with commas between them; a word that is no number is left out, and
/// without any number the result is empty.
///
/// # Errors
///
/// Out of memory.
pub fn clock_row(alloc: Global, words: &str, calls: &str) -> Result<String, Oom> {
    let readings = readings_of(alloc, words)?;
    if readings.is_empty() {
        return Ok(String::new(alloc));
    }
    let mut clock = clock_of(&readings)?;
    clock_calls(alloc, &mut clock, calls)
}
