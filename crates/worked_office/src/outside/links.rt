//! Rows of links and peers.
use crate::outside::streams::{read_once, write_word};
use crate::outside::told::Told;
use crate::outside::words::{add, add_bytes, add_part};
use desk_links::{Link, MemLink, MemPeer, Peer};
use hazard_types::Oom;
use std::alloc::Global;

/// Makes the calls of a link, the words `read:ROOM` and `write:BYTES`, and appends to `answer` what
/// each returned, or `unread` for another word. ROOM is the size in bytes of the buffer of a read.
fn talk<L: Link>(alloc: Global, link: &mut L, calls: &str, answer: &mut String) -> Result<(), Oom> {
    for call in calls.split_whitespace() {
        match call.split_once(':') {
            Some(("read", room)) => read_once(alloc, link, room, answer)?,
            Some(("write", word)) => write_word(alloc, link, word, answer)?,
            _ => add(answer, "unread")?,
        }
    }
    Ok(())
}

/// Returns a link in memory whose other side sends the bytes of `told`. `told` also gives the most
/// bytes that a read returns and the numbers of the calls that fail.
///
/// # Errors
///
/// Out of memory.
pub fn link_of(alloc: Global, told: &Told) -> Result<MemLink, Oom> {
    MemLink::new(alloc, told.bytes.as_slice(), told.piece, &told.failing)
}

/// Returns what each call of a link in memory returned, and the bytes written on the link. `told`
/// gives the bytes that the other side sends and the faults, and `calls` are words `read:ROOM` and
/// `write:BYTES`, where ROOM is the size of a buffer in bytes.
///
/// # Errors
///
/// Out of memory.
pub fn link_row(alloc: Global, told: &Told, calls: &str) -> Result<String, Oom> {
    let mut answer = String::new(alloc);
    let mut link = link_of(alloc, told)?;
    talk(alloc, &mut link, calls, &mut answer)?;
    add_part(&mut answer, "written", link.written().as_slice())?;
    Ok(answer)
}

/// Reads once from a peer, the client's side of a link, with a buffer of `room` bytes, and appends
/// the number of bytes and the bytes, or `failed`. With no room it does nothing.
fn read_peer_once<P: Peer>(
    alloc: Global,
    peer: &mut P,
    room: u16,
    answer: &mut String,
) -> Result<(), Oom> {
    let mut buffer = vec![in alloc; 0; room as usize]?;
    if buffer.is_empty() {
        return Ok(());
    }
    match peer.read_some(&mut buffer) {
        Ok(count) => {
            add(answer, format!(in alloc; "{count} ")?.as_str())?;
            add_bytes(answer, &buffer[..count])
        }
        Err(_) => add(answer, "failed"),
    }
}

/// Returns what each call of a peer, the client's side of a link, and one more read of two bytes by
/// `read_some` returned, and the bytes written. `told` gives the bytes that the other side sends
/// and the faults, and `calls` are words `read:ROOM` and `write:BYTES`.
///
/// # Errors
///
/// Out of memory.
pub fn peer_row(alloc: Global, told: &Told, calls: &str) -> Result<String, Oom> {
    let mut answer = String::new(alloc);
    let mut peer = MemPeer::new(link_of(alloc, told)?);
    talk(alloc, &mut peer, calls, &mut answer)?;
    read_peer_once(alloc, &mut peer, 2, &mut answer)?;
    add_part(&mut answer, "written", peer.written().as_slice())?;
    Ok(answer)
}
