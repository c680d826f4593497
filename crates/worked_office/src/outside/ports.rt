//! Rows of ports with their doors, and of dialers.
ghost use Rattle.std.specs.Prelude.{◌≡◌, ◌≤◌, [], All, length, IfOk, IfSome, OnOk};
ghost use Rattle.desk_links.specs.LinkMemory.{IsUntouched, IsIdle};

use crate::outside::words::{add, add_bytes, bytes_of, numbers_of, unread};
use byte_streams::write_whole;
use desk_links::{Dialer, Door, Link, MemDialer, MemDoor, MemLink, MemPort, Port};
use hazard_types::{List, Oom};
use std::alloc::Global;

/// Returns a link in memory for each word between commas, with the word's bytes, or an empty list
/// for `-`. A word that does not give bytes is left out.
fn links_of(alloc: Global, words: &str) -> Result<List<MemLink>, Oom>
    ensures { IfOk result (All IsUntouched) }
{
    let mut links = List::new(alloc);
    let none = List::new(alloc);
    if words == "-" {
        return Ok(links);
    }
    for word in words.split(',') {
        if let Some(bytes) = bytes_of(alloc, word)? {
            links.push(MemLink::new(alloc, bytes.as_slice(), 4096, &none)?)?;
        }
    }
    Ok(links)
}

/// Returns a list of links in memory for each part between `/`: one link for each word between
/// commas, or none for `-`. A link gives the bytes of its word.
fn lists_of(alloc: Global, words: &str) -> Result<List<List<MemLink>>, Oom>
    ensures { IfOk result (All (λ list. All IsUntouched list)) }
{
    let mut lists = List::new(alloc);
    for list in words.split('/') {
        lists.push(links_of(alloc, list)?)?;
    }
    Ok(lists)
}

/// Returns for each part between `/` the list of its numbers, which are between commas, or an empty
/// list for `-`. They are the numbers of the accepts that fail; a part that has neither form is
/// left out.
fn failing_of(alloc: Global, words: &str) -> Result<List<List<u64>>, Oom> {
    let mut lists = List::new(alloc);
    for list in words.split('/') {
        if let Some(numbers) = numbers_of(alloc, list)? {
            lists.push(numbers)?;
        }
    }
    Ok(lists)
}

/// Reads at most eight bytes from a link, writes them on it, and returns the link. It appends the
/// bytes that were read, or `silent` if the read failed.
fn echoed<L: Link + Drop>(mut link: L, answer: &mut String) -> Result<L, Oom> {
    let mut buffer = [0; 8];
    match link.read(&mut buffer) {
        Ok(count) => {
            add(answer, "")?;
            add_bytes(answer, &buffer[..count])?;
            let _ = write_whole(&mut link, &buffer[..count]);
        }
        Err(_) => add(answer, "silent")?,
    }
    Ok(link)
}

/// Accepts a link at a door `visits` times, reads and writes back at most eight bytes on each, and
/// returns it to the door. For each it appends the bytes, `silent` if the read failed, or `failed`
/// if the accept did.
fn visit_all(door: &mut MemDoor, visits: u8, answer: &mut String) -> Result<(), Oom>
    requires { IsIdle door.old }
    ensures none_out { OnOk result (door.new.given ≡ length door.new.back) }
    ensures few { OnOk result (length door.new.back ≤ 255) }
{
    for _ in 0..visits {
        match door.accept() {
            Ok(link) => door.return_link(echoed(link, answer)?),
            Err(_) => add(answer, "failed")?,
        }
    }
    Ok(())
}

/// Accepts a link `visits` times at each door, reads and writes back at most eight bytes on each,
/// and returns the door to the port. For each visit it appends the bytes, `silent` if the read
/// failed, or `failed` if the accept did.
fn visit_doors(
    port: &mut MemPort,
    doors: List<MemDoor>,
    visits: u8,
    answer: &mut String,
) -> Result<(), Oom>
    requires idle { All IsIdle doors }
    requires few { length doors ≤ 255 }
    requires new { port.old.back ≡ [] }
{
    for mut door in doors.into_vec() {
        visit_all(&mut door, visits, answer)?;
        port.return_door(door);
    }
    Ok(())
}

/// Appends `; back` and the bytes written on each link that was returned, with a `/` before those
/// of each door.
fn add_back(answer: &mut String, port: &MemPort) -> Result<(), Oom> {
    answer.push_str("; back")?;
    for links in port.links() {
        answer.push_str(" /")?;
        for link in links {
            answer.push(' ')?;
            add_bytes(answer, link.written().as_slice())?;
        }
    }
    Ok(())
}

/// Returns a port in memory with a door for each part of `lists` between `/`, which gives a link
/// for each word between commas. `failing` gives for each door, between `/` too, the numbers, from
/// 1, of the accepts that fail.
fn port_of(alloc: Global, lists: &str, failing: &str) -> Result<MemPort, Oom>
    ensures { IfOk result (λ port. port.back ≡ []) }
{
    let failing = failing_of(alloc, failing)?;
    MemPort::new(alloc, lists_of(alloc, lists)?, &failing)
}

/// Returns `count` doors of a port that listens at TCP port number 8080, or `None` if the listening
/// fails.
fn doors_of(port: &mut MemPort, count: u8) -> Option<List<MemDoor>>
    ensures idle { IfSome result (All IsIdle) }
    ensures few { IfSome result (λ doors. length doors ≤ 255) }
    ensures back { port.new.back ≡ port.old.back }
{
    port.listen(8080, count as usize).ok()
}

/// Listens for `doors` doors of a port, accepts a link `visits` times at each, and appends what
/// each visit read, `silent` or `failed`. It does nothing if the listening fails.
fn visit_port(port: &mut MemPort, doors: u8, visits: u8, answer: &mut String) -> Result<(), Oom>
    requires new { port.old.back ≡ [] }
{
    match doors_of(port, doors) {
        Some(doors) => visit_doors(port, doors, visits, answer),
        None => Ok(()),
    }
}

/// Returns what is printed for a port: what each visit of a door read, and the bytes written on the
/// returned links. `words` are `LINKS FAILING DOORS`: the links of each door, the numbers of its
/// failing accepts, and the number of doors. It is `unread` if DOORS or `visits`, the accepts at
/// each door, is no number below 256.
///
/// # Errors
///
/// Out of memory.
pub fn port_row(alloc: Global, words: &str, visits: &str) -> Result<String, Oom> {
    let mut answer = String::new(alloc);
    let (lists, rest) = words.split_once(' ').unwrap_or((words, ""));
    let (failing, doors) = rest.split_once(' ').unwrap_or((rest, ""));
    let Ok(doors) = doors.parse::<u8>() else {
        return unread(alloc);
    };
    let Ok(visits) = visits.trim().parse::<u8>() else {
        return unread(alloc);
    };
    let mut port = port_of(alloc, lists, failing)?;
    visit_port(&mut port, doors, visits, &mut answer)?;
    add_back(&mut answer, &port)?;
    Ok(answer)
}

/// Dials a link `dials` times, reads and writes back at most eight bytes on each, and returns it to
/// the dialer. For each it appends the bytes, `silent` if the read failed, or `failed` if the dial
/// did.
fn dial_all(dialer: &mut MemDialer, dials: u8, answer: &mut String) -> Result<(), Oom>
    requires { IsIdle dialer.old }
{
    for _ in 0..dials {
        match dialer.dial() {
            Ok(link) => dialer.return_link(echoed(link, answer)?),
            Err(_) => add(answer, "failed")?,
        }
    }
    Ok(())
}

/// Returns a dialer in memory that lends these links, one a word between commas. `failing` are the
/// numbers, from 1, of the dials that fail.
fn dialer_of(alloc: Global, links: &str, failing: &List<u64>) -> Result<MemDialer, Oom>
    ensures { IfOk result IsIdle }
{
    MemDialer::new(alloc, links_of(alloc, links)?, failing)
}

/// Appends `; back` and the bytes written on each link that was returned to a dialer.
fn add_dialed(answer: &mut String, dialer: &MemDialer) -> Result<(), Oom> {
    answer.push_str("; back")?;
    for link in dialer.links() {
        answer.push(' ')?;
        add_bytes(answer, link.written().as_slice())?;
    }
    Ok(())
}

/// Returns what is printed for a dialer: what each dialed link read, and the bytes written on the
/// returned links. `words` are `LINKS FAILING`, the words of the links and the numbers of the dials
/// that fail. It is `unread` if FAILING gives no numbers or `dials`, the number of dials, is no
/// number below 256.
///
/// # Errors
///
/// Out of memory.
pub fn dialer_row(alloc: Global, words: &str, dials: &str) -> Result<String, Oom> {
    let mut answer = String::new(alloc);
    let (links, failing) = words.split_once(' ').unwrap_or((words, "-"));
    let Some(failing) = numbers_of(alloc, failing)? else {
        return unread(alloc);
    };
    let Ok(dials) = dials.trim().parse::<u8>() else {
        return unread(alloc);
    };
    let mut dialer = dialer_of(alloc, links, &failing)?;
    dial_all(&mut dialer, dials, &mut answer)?;
    add_dialed(&mut answer, &dialer)?;
    Ok(answer)
}
