//! The serving of a port of this machine over the office of a journal.
ghost use Rattle.std.specs.Prelude.{IfOk, IfSome};
ghost use Rattle.std.specs.Thread.{IsSync};
ghost use Rattle.serve_command.specs.Words.{IsServing};

use crate::serve::answers::add_bytes;
use crate::serve::gate::HoldingGate;
use crate::serve::given::Given;
use crate::serve::ports::{add_output, serve_given};
use crate::serve::words::serving_in;
use byte_streams::write_whole;
use desk_links::{Dialer, Peer, Port, TcpDialer, TcpDoor, TcpPeer, TcpPort};
use hazard_types::{List, Oom, Text};
use serve_command::{Means, Serving};
use std::alloc::Global;
use std::net::{Net, TcpListener, TcpStream};
use std::sync::Wait;
use std::thread::{self, Threads, join};
use std::time::{Clock, SystemTime};

/// The first of the port numbers that may be tried. The system gives none of them to a dialer.
const FIRST: u16 = 21_000;

/// How many numbers the search may begin with.
const NUMBERS: u64 = 10_000;

/// The largest number of ports that are tried.
const MOST_PORTS: u16 = 100;

/// The largest number of dials that are tried, and of reads.
const MOST_TRIES: u32 = 200_000;

/// Returns the port number to begin with, 21,000 to 30,999. It is chosen by the clock's
/// nanoseconds, so that two programs rarely meet, and is 21,000 if the clock cannot be read.
fn first_number<R: Clock>(rt: &R) -> u16 {
    let Ok(now) = SystemTime::now(rt) else {
        return FIRST;
    };
    match now.duration_since(SystemTime::UNIX_EPOCH) {
        Ok(since) => FIRST.saturating_add((u64::from(since.subsec_nanos()) % NUMBERS) as u16),
        Err(_) => FIRST,
    }
}

/// Returns a free port number of this machine and the list of the one door that listens at it,
/// which occupies it until dropped. `None` if the 100 numbers that are tried, one after another,
/// are all in use.
fn free_port<R: Clock + Sync + Net<Listener = TcpListener, Stream = TcpStream>>(
    rt: &R,
    alloc: Global,
) -> Option<(u16, List<TcpDoor<&R>>)> {
    let first = first_number(rt);
    for place in 0..MOST_PORTS {
        let number = first.saturating_add(place);
        let mut port = TcpPort::new(alloc, rt);
        if let Ok(doors) = port.listen(number, 1) {
            return Some((number, doors));
        }
    }
    None
}

/// Serves a port of this machine over the disk and the clock that `given` sets. Returns what the
/// program wrote, and a line with its exit status.
fn serve_host<R: Clock + Threads + Wait + Sync + Net<Listener = TcpListener, Stream = TcpStream>>(
    rt: &R,
    alloc: Global,
    given: &Given,
    serving: &Serving,
) -> Result<String, Oom>
    requires { IsServing serving.now }
{
    let clock = given.clock(alloc)?;
    let gate = HoldingGate::new(false);
    let mut port = TcpPort::new(alloc, rt);
    let means = Means {
        rt,
        alloc,
        clock: &clock,
        gate: &gate,
    };
    let ran = serve_given(&means, given, serving, &mut port)?;
    let mut answer = String::new(alloc);
    add_output(alloc, &mut answer, &ran)?;
    Ok(answer)
}

/// Returns a link to the port `number` of this machine, or `None` if the one dial fails.
fn dial_once<R: Clock + Sync + Net<Listener = TcpListener, Stream = TcpStream>>(
    rt: &R,
    number: u16,
) -> Option<TcpPeer<&R>> {
    let mut dialer = TcpDialer::new(rt, number);
    dialer.dial().ok()
}

/// Returns a link to the port `number` of this machine, which is dialed again until a dial
/// succeeds. `None` after 200,000 dials that failed.
fn dial<R: Clock + Sync + Net<Listener = TcpListener, Stream = TcpStream>>(
    rt: &R,
    number: u16,
) -> Option<TcpPeer<&R>> {
    for _ in 0..MOST_TRIES {
        let dialled = dial_once(rt, number);
        if dialled.is_some() {
            return dialled;
        }
        thread::yield_now();
    }
    None
}

/// Writes the bytes on a link, and returns all that is then read until a read fails or the link
/// ends, in at most 200,000 reads. Returns no bytes if the write fails. Errs only if memory runs
/// out.
fn ask<C: Clock>(alloc: Global, peer: &mut TcpPeer<C>, bytes: &[u8]) -> Result<Text, Oom> {
    let mut heard = List::new(alloc);
    if write_whole(peer, bytes).is_err() {
        return Ok(heard);
    }
    let mut buffer = [0; 1024];
    for _ in 0..MOST_TRIES {
        match peer.read_some(&mut buffer) {
            Ok(count) => heard.extend(&buffer[..count])?,
            Err(_) => return Ok(heard),
        }
    }
    Ok(heard)
}

/// Connects two clients at once to the port `number` of this machine, has both write the same
/// bytes, and returns what the second client reads and then what the first reads. The second one
/// writes and reads before the first. Returns an empty text if a client could not connect.
fn ask_both<R: Clock + Sync + Net<Listener = TcpListener, Stream = TcpStream>>(
    rt: &R,
    alloc: Global,
    number: u16,
    bytes: &[u8],
) -> Result<String, Oom> {
    let mut answer = String::new(alloc);
    let Some(mut first) = dial(rt, number) else {
        return Ok(answer);
    };
    let Some(mut last) = dial(rt, number) else {
        return Ok(answer);
    };
    add_bytes(&mut answer, ask(alloc, &mut last, bytes)?.as_slice())?;
    add_bytes(&mut answer, ask(alloc, &mut first, bytes)?.as_slice())?;
    Ok(answer)
}

/// Serves two clients that are connected at once and write the same bytes, over two threads: one
/// serves, and one has the clients. Returns what the second and then the first client read, what
/// the program wrote, and a line with its exit status.
fn serve_clients<
    R: Clock + Threads + Wait + Sync + Net<Listener = TcpListener, Stream = TcpStream>,
>(rt: &R, alloc: Global, given: &Given, serving: &Serving, bytes: &[u8]) -> Result<String, Oom>
    requires { IsServing serving.now }
{
    let number = serving.port;
    let (served, heard) = join(
        rt,
        || -> Result<String, Oom>
            requires { IsSync R.row × IsServing serving.now }
        { serve_host(rt, alloc, given, serving) },
        || -> Result<String, Oom> { ask_both(rt, alloc, number, bytes) },
    );
    let mut answer = heard?;
    answer.push_str(served?.as_str())?;
    Ok(answer)
}

/// Returns the arguments of the command `serve` with the port `number`, two workers and two
/// connections, or `None` for port 0.
fn serving_at(alloc: Global, number: u16) -> Result<Option<Serving>, Oom>
    ensures { IfOk result (λ serving. IfSome serving IsServing) }
{
    let words = format!(in alloc; "serve --port {number} --workers 2 --connections 2")?;
    serving_in(alloc, words.as_str())
}

/// Serves a port number of this machine that another door occupies, and returns what the program
/// wrote and a line with its exit status. Returns the line `no port` if no free number was found to
/// occupy.
///
/// # Errors
///
/// Out of memory.
pub fn port_in_use_answer<
    R: Clock + Threads + Wait + Sync + Net<Listener = TcpListener, Stream = TcpStream>,
>(rt: &R, alloc: Global, given: &Given) -> Result<String, Oom> {
    let Some((number, doors)) = free_port(rt, alloc) else {
        return Ok(String::from_str(alloc, "no port\n")?);
    };
    let Some(serving) = serving_at(alloc, number)? else {
        return Ok(String::from_str(alloc, "no words\n")?);
    };
    let answer = serve_host(rt, alloc, given, &serving)?;
    drop(doors);
    Ok(answer)
}

/// Serves two clients on a free port of this machine that are connected at once and write `bytes`
/// each. Returns what the clients read, what the program wrote, and a line with its exit status.
/// Returns the line `no port` if no free number was found.
///
/// # Errors
///
/// Out of memory.
pub fn clients_answer<
    R: Clock + Threads + Wait + Sync + Net<Listener = TcpListener, Stream = TcpStream>,
>(rt: &R, alloc: Global, given: &Given, bytes: &[u8]) -> Result<String, Oom> {
    let Some((number, doors)) = free_port(rt, alloc) else {
        return Ok(String::from_str(alloc, "no port\n")?);
    };
    drop(doors);
    match serving_at(alloc, number)? {
        Some(serving) => serve_clients(rt, alloc, given, &serving, bytes),
        None => Ok(String::from_str(alloc, "no words\n")?),
    }
}
