//! The network of a program as traits, over TCP and in memory: links (connections), doors
//! (listeners that accept one link at a time), ports that lend doors, and dialers for the other
//! side. For servers and clients, and for their tests. A server begins with `TcpPort::new`,
//! `Port::listen` and `Door::accept`, a client with `TcpDialer::new` and `Dialer::dial`; both then
//! use `read_link` and `write_link`.
#![tactic(auto)]

mod ahead;
mod dialer;
mod dialer_memory;
mod gate;
mod lent;
mod link;
mod link_memory;
mod port;
mod port_memory;
mod tcp;
mod tcp_dialer;
mod tcp_link;

pub use dialer::{Dialer, Peer};
pub use dialer_memory::{MemDialer, MemPeer};
pub use gate::{Gate, OpenGate};
pub use link::{Link, read_link, write_link};
pub use link_memory::MemLink;
pub use port::{Door, Port};
pub use port_memory::{MemDoor, MemPort};
pub use tcp::{TcpDoor, TcpPort};
pub use tcp_dialer::{TcpDialer, TcpPeer};
pub use tcp_link::TcpLink;
