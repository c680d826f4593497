//! The port and the doors of the system, over TCP on 127.0.0.1. They expose nothing of the links,
//! and are trusted.
ghost use Rattle.std.specs.Prelude.{◌≡◌, All, length, IfOk};

use crate::port::{Door, Port};
use crate::tcp_link::{Side, TcpLink};
use desk_traits::Failed;
use hazard_types::{List, Oom, Or};
use std::alloc::Global;
use std::io::{Error, ErrorKind};
use std::net::{Ipv4Addr, Net, SocketAddr, SocketAddrV4, TcpListener, TcpStream};
use std::sync::Arc;
use std::time::{Clock, Duration};

// The number of tries of one accept, where a connection broke off before it was taken or the system
// is short of descriptors or memory (docs/DECISIONS.md, "Links and doors").
const TRIES: usize = 100;

// The pause in milliseconds before the next try where the system is short of them.
const PAUSE: u64 = 100;

// The system's error numbers for out of memory, for no descriptors in the system and in the
// program, and for no room for sockets.
const LACKS: [i32; 4] = [12, 23, 24, 105];

/// Whether `error`, with which an accept failed, says that the system is short of memory, file
/// descriptors or room for sockets, which may pass soon.
fn is_shortage(error: &Error) -> bool {
    match error.raw_os_error() {
        Some(code) => LACKS.contains(&code),
        None => false,
    }
}

/// Returns the next connection of `listener`, for which it waits. After a connection that broke off
/// or an interrupt it tries again at once, and where the system is short of memory, descriptors or
/// room for sockets after a pause of 100 ms, for which `clock` sleeps. `None` if an accept fails
/// with any other error, or if 100 accepts have failed.
fn next_stream<C: Clock>(clock: &C, listener: &TcpListener) -> Option<TcpStream> {
    for _ in 0..TRIES {
        match listener.accept() {
            Ok((stream, _address)) => return Some(stream),
            Err(error) => match error.kind() {
                ErrorKind::ConnectionAborted | ErrorKind::Interrupted => {}
                _ if is_shortage(&error) => clock.sleep(Duration::from_millis(PAUSE)),
                _ => return None,
            },
        }
    }
    None
}

/// A door of a port of the system. It closes the links that it takes back.
#[derive(Drop)]
pub struct TcpDoor<C> {
    clock: C,
    listener: Arc<TcpListener, Global>,
    faults: u64,
    given: u64,
    returned: u64,
}

impl<C: Clock + Copy + Send + Drop> Door for TcpDoor<C> {
    ghost use Rattle.desk_links.specs.LinkLaws.{untold_door};

    type Link = TcpLink<C>;

    ghost state = { λ d. untold_door d.given d.returned d.faults };

    /// Waits for the next connection and returns it as a link with the time limits of one that
    /// serves calls. Fails, which is counted, if 100 accepts of the system fail, or one fails for
    /// another reason than a connection that broke off, an interrupt, or a lack of memory,
    /// descriptors or room for sockets.
    fn accept(&mut self) -> Result<TcpLink<C>, Failed> {
        match next_stream(&self.clock, &self.listener) {
            Some(stream) => {
                self.given += 1;
                Ok(TcpLink::over(self.clock, stream, Side::Serves))
            }
            None => {
                self.faults = self.faults.saturating_add(1);
                Err(Failed)
            }
        }
    }

    /// Closes `link` and counts it as returned. If the last thing done on it was to write the end
    /// of an answer, it first waits, up to 2 s, for the other side to take that.
    fn return_link(&mut self, link: TcpLink<C>) {
        link.close();
        self.returned += 1;
    }
}

/// A port of the system, on 127.0.0.1.
#[derive(Drop)]
pub struct TcpPort<R> {
    net: R,
    alloc: Global,
    faults: u64,
    returned: u64,
}

impl<R: Net<Listener = TcpListener, Stream = TcpStream>> TcpPort<R> {
    /// Returns a port over the runtime's network `net`, which has listened at no port number.
    pub fn new(alloc: Global, net: R) -> Self
        ensures faults { result.faults ≡ 0 }
        ensures returned { result.returned ≡ 0 }
    {
        TcpPort {
            net,
            alloc,
            faults: 0,
            returned: 0,
        }
    }
}

/// Returns a list of as many unused doors as `doors` says, all of which accept from `listener` and
/// pause by `clock`. Errs if memory runs out.
fn doors_over<C: Clock + Copy>(
    alloc: Global,
    clock: C,
    listener: TcpListener,
    doors: usize,
) -> Result<Vec<TcpDoor<C>>, Oom>
    ensures count { IfOk result (λ list. length list.items ≡ doors) }
    ensures unused { IfOk result (λ list. All
        (λ door. (door.given ≡ 0) × (door.returned ≡ 0) × (door.faults ≡ 0)) list.items) }
{
    let shared = Arc::new(alloc, listener)?;
    let mut list = Vec::with_capacity(alloc, doors)?;
    for _ in 0..doors {
        list.push_reserved(TcpDoor {
            clock,
            listener: Arc::try_clone(&shared)?,
            faults: 0,
            given: 0,
            returned: 0,
        });
    }
    Ok(list)
}

impl<R: Net<Listener = TcpListener, Stream = TcpStream> + Clock + Copy + Send + Drop> Port
    for TcpPort<R> {
    ghost use Rattle.desk_links.specs.LinkLaws.{untold_port};

    type Door = TcpDoor<R>;

    ghost state = { λ p. untold_port p.returned p.faults };

    /// Binds port number `port` of 127.0.0.1 and returns as many unused doors as `doors` says,
    /// which share its listener. `No(Failed)`, which is counted, means that the port number can't
    /// be bound, and `OutOfMemory` that memory ran out.
    fn listen(&mut self, port: u16, doors: usize) -> Result<List<TcpDoor<R>>, Or<Failed>> {
        let address = SocketAddr::V4(SocketAddrV4::new(Ipv4Addr::LOCALHOST, port));
        match self.net.bind(address) {
            Ok(listener) => Ok(List::from_vec(doors_over(self.alloc, self.net, listener, doors)?)),
            Err(_) => {
                self.faults = self.faults.saturating_add(1);
                Err(Or::No(Failed))
            }
        }
    }

    /// Adds the door's counts of faults and of returned links to those of the port, and drops the
    /// door.
    fn return_door(&mut self, door: TcpDoor<R>) {
        self.faults = self.faults.saturating_add(door.faults);
        self.returned += door.returned;
    }
}
