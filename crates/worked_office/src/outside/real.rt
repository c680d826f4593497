//! Rows of what is not in memory: streams of the standard library, a file, the system's clock, and
//! the network of this machine.
ghost use Rattle.std.specs.Prelude.{◌≡◌};

use crate::outside::streams::{read_once, write_word};
use crate::outside::told::Told;
use crate::outside::words::{add, add_bytes};
use byte_streams::{Source, StdSink, StdSource, write_whole};
use desk_links::{Dialer, Door, Peer, Port, TcpDialer, TcpDoor, TcpPeer, TcpPort};
use desk_traits::{Clock, Disk, FileDisk, SystemClock, write_synced};
use hazard_types::{List, Oom};
use std::alloc::Global;
use std::fs::{self, File};
use std::io::{self, ErrorKind, Read, Write};

/// A stream whose reads fail and whose writes write no byte.
#[derive(Drop)]
struct Broken {}

impl Read for Broken {
    fn read(&mut self, _into: &mut [u8]) -> io::Result<usize> {
        Err(io::Error::from(ErrorKind::Other))
    }
}

impl Write for Broken {
    fn write(&mut self, _bytes: &[u8]) -> io::Result<usize> {
        Ok(0)
    }

    fn flush(&mut self) -> io::Result<()> {
        Ok(())
    }
}

/// Returns what is printed for reads of a source over a reader of the standard library that gives
/// the bytes of `told`, for each the number of bytes and the bytes, and for one write to a sink
/// that keeps nothing, `ok` or `failed`. Each word of `calls` is a read, and gives the size of its
/// buffer in bytes; for one that is no number below 65,536 `unread` is printed.
///
/// # Errors
///
/// Out of memory.
pub fn std_row(alloc: Global, told: &Told, calls: &str) -> Result<String, Oom> {
    let mut answer = String::new(alloc);
    let mut source = StdSource::new(told.bytes.as_slice());
    for room in calls.split_whitespace() {
        read_once(alloc, &mut source, room, &mut answer)?;
    }
    let mut sink = StdSink::new(io::sink());
    write_word(alloc, &mut sink, "abc", &mut answer)?;
    Ok(answer)
}

/// Returns what is printed for a read, a write of `abc` and a write of no byte on standard streams
/// whose reads fail and whose writes take no byte: `ok` or `failed` for each.
///
/// # Errors
///
/// Out of memory.
pub fn broken_row(alloc: Global) -> Result<String, Oom> {
    let mut answer = String::new(alloc);
    let mut source = StdSource::new(Broken {});
    read_once(alloc, &mut source, "2", &mut answer)?;
    let mut sink = StdSink::new(Broken {});
    write_word(alloc, &mut sink, "abc", &mut answer)?;
    write_word(alloc, &mut sink, "_", &mut answer)?;
    Ok(answer)
}

/// The name of the file, which is removed when its row ends.
const NAME: &str = "real.disk";

/// Returns `ok` for `true`, or `failed`.
fn said(is_ok: bool) -> &'static str {
    if is_ok { "ok" } else { "failed" }
}

/// Appends what the calls of a disk over a file returned: a write with a sync, the length, a read
/// within the file, and one beyond its end.
fn try_disk(alloc: Global, disk: &mut FileDisk, answer: &mut String) -> Result<(), Oom> {
    let mut bytes = [0; 2];
    add(answer, said(write_synced(disk, 0, b"abcd").is_ok()))?;
    if let Ok(len) = disk.len() {
        add(answer, format!(in alloc; "{len}")?.as_str())?;
    }
    add(answer, said(disk.read_at(1, &mut bytes).is_ok()))?;
    add(answer, "")?;
    add_bytes(answer, &bytes)?;
    add(answer, said(disk.read_at(3, &mut bytes).is_ok()))
}

/// Returns what is printed for calls of a disk over the file `real.disk`, which is removed after
/// them, and for a look at the length and a sync of a disk without a file: for each call `ok` or
/// `failed`, but for the file also its length in decimal and the bytes that were read.
///
/// # Errors
///
/// Out of memory.
pub fn file_row(rt: &HostRuntime) -> Result<String, Oom> {
    let alloc = rt.alloc();
    let mut answer = String::new(alloc);
    let file = File::options()
        .read(true)
        .write(true)
        .create(true)
        .open(rt, NAME);
    try_disk(alloc, &mut FileDisk::new(file.ok()), &mut answer)?;
    let _ = fs::remove_file(rt, NAME);
    add(&mut answer, said(FileDisk::new(None).len().is_ok()))?;
    add(&mut answer, said(FileDisk::new(None).sync().is_ok()))?;
    Ok(answer)
}

/// The minutes from 2000-01-01 to 2020-01-01, both at 00:00 UTC.
const TO_2020: i64 = 10_519_200;

/// Returns two words with a comma between them: whether the system's clock is after 2020-01-01, and
/// whether it does not go back, each `ok` or `failed`.
///
/// # Errors
///
/// Out of memory.
pub fn system_clock_row(rt: &HostRuntime) -> Result<String, Oom> {
    let mut answer = String::new(rt.alloc());
    let mut clock = SystemClock::new(rt);
    let first = clock.tick();
    let second = clock.minute();
    add(&mut answer, said(TO_2020 < first))?;
    add(&mut answer, said(first <= second))?;
    Ok(answer)
}

/// The first port number that is tried.
const FIRST: u16 = 48_600;

/// Returns the bytes that at most `count` reads of a peer, the client's side of a link, give. It
/// stops once there are `count` or more, or a read fails.
fn read_peer_bytes(
    alloc: Global,
    peer: &mut TcpPeer<&HostRuntime>,
    count: usize,
) -> Result<List<u8>, Oom> {
    let mut heard = List::new(alloc);
    let mut buffer = [0; 16];
    for _ in 0..count {
        if heard.len() < count {
            match peer.read_some(&mut buffer) {
                Ok(more) => heard.extend(&buffer[..more])?,
                Err(_) => return Ok(heard),
            }
        }
    }
    Ok(heard)
}

/// Accepts a link at a door, reads at most three bytes, writes `answer` on it and returns it to the
/// door; appends the bytes and `ok` or `failed`. Returns whether a link came.
fn try_door(door: &mut TcpDoor<&HostRuntime>, answer: &mut String) -> Result<bool, Oom>
    requires door { door.old.given ≡ door.old.returned }
    requires first { door.old.returned ≡ 0 }
{
    let Ok(mut link) = door.accept() else {
        return Ok(false);
    };
    let mut buffer = [0; 3];
    if let Ok(count) = link.read(&mut buffer) {
        add(answer, "")?;
        add_bytes(answer, &buffer[..count])?;
    }
    add(answer, said(write_whole(&mut link, b"answer").is_ok()))?;
    door.return_link(link);
    Ok(true)
}

/// Reads from a peer, the client's side of a link, until it has six bytes or a read fails, and
/// appends the bytes. Then it reads once more and appends whether that succeeds, `ok` or `failed`.
fn try_hearing(
    alloc: Global,
    peer: &mut TcpPeer<&HostRuntime>,
    answer: &mut String,
) -> Result<(), Oom> {
    let mut buffer = [0; 3];
    add(answer, "")?;
    add_bytes(answer, read_peer_bytes(alloc, peer, 6)?.as_slice())?;
    add(answer, said(peer.read_some(&mut buffer).is_ok()))
}

/// Writes `ask` on a peer, the client's side of a link, has the door answer it, and appends what
/// each side read. It appends `not accepted` if no link came to the door.
fn try_peer(
    alloc: Global,
    door: &mut TcpDoor<&HostRuntime>,
    peer: &mut TcpPeer<&HostRuntime>,
    answer: &mut String,
) -> Result<(), Oom>
    requires door { door.old.given ≡ door.old.returned }
    requires first { door.old.returned ≡ 0 }
{
    add(answer, said(write_whole(peer, b"ask").is_ok()))?;
    if !try_door(door, answer)? {
        return add(answer, "not accepted");
    }
    try_hearing(alloc, peer, answer)
}

/// Dials a link to the door at TCP port `number` of this machine, and appends what each side read,
/// or `not dialled`.
fn try_link(
    rt: &HostRuntime,
    number: u16,
    door: &mut TcpDoor<&HostRuntime>,
    answer: &mut String,
) -> Result<(), Oom>
    requires door { door.old.given ≡ door.old.returned }
    requires first { door.old.returned ≡ 0 }
{
    let mut dialer = TcpDialer::new(rt, number);
    let Ok(mut peer) = dialer.dial() else {
        return add(answer, "not dialled");
    };
    try_peer(rt.alloc(), door, &mut peer, answer)?;
    dialer.return_link(peer);
    Ok(())
}

/// Listens at TCP port `number` with one door, dials a link to it, and appends what each side read.
/// It returns `false`, and appends nothing, if it cannot listen there.
fn try_number(
    rt: &HostRuntime,
    port: &mut TcpPort<&HostRuntime>,
    number: u16,
    answer: &mut String,
) -> Result<bool, Oom> {
    let Ok(doors) = port.listen(number, 1) else {
        return Ok(false);
    };
    for mut door in doors.into_vec() {
        try_link(rt, number, &mut door, answer)?;
    }
    Ok(true)
}

/// Returns what each side of a link between a dialer and a door of this machine read, at the first
/// of the TCP ports 48600 to 48699 that is free, or `no port` if none is.
///
/// # Errors
///
/// Out of memory.
pub fn network_row(rt: &HostRuntime) -> Result<String, Oom> {
    let alloc = rt.alloc();
    let mut answer = String::new(alloc);
    let mut port = TcpPort::new(alloc, rt);
    for place in 0..100 {
        if try_number(rt, &mut port, FIRST + place, &mut answer)? {
            return Ok(answer);
        }
    }
    add(&mut answer, "no port")?;
    Ok(answer)
}
