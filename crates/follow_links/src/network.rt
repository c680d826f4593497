//! The network in which a follower dials.
ghost use Rattle.std.specs.Prelude.{◌≡◌, ℕ};

use desk_links::{Dialer, TcpDialer};
use std::net::{Net, TcpListener, TcpStream};
use std::time::Clock;

/// Makes dialers of the ports of this machine.
pub trait Network {
    type Dialer: Dialer + Drop;

    /// `dials network port dialer network'`: the call `dialer` for the port returned this dialer,
    /// and left the network as the last.
    ghost dials: { Self → ℕ → Self.Dialer → Self → Type 0 };

    /// Returns a dialer of the port of this machine, which has given no link yet.
    fn dialer(&mut self, port: u16) -> Self::Dialer
        ensures dials { dials self.old port result self.new }
        ensures none_given { (Self.Dialer.state result).given ≡ 0 }
        ensures none_returned { (Self.Dialer.state result).returned ≡ 0 };
}

/// The network of the system, over TCP. It is trusted, not proved.
#[derive(Drop)]
pub struct HostNetwork<R> {
    net: R,
}

impl<R> HostNetwork<R> {
    /// Returns the network of the system, whose dialers use the system calls of `net`.
    pub fn new(net: R) -> Self {
        HostNetwork { net }
    }
}

impl<R: Net<Listener = TcpListener, Stream = TcpStream> + Clock + Copy + Send + Drop> Network
    for HostNetwork<R> {
    type Dialer = TcpDialer<R>;

    ghost dials = { λ _ _ _ _. Unit {0} };

    fn dialer(&mut self, port: u16) -> TcpDialer<R> {
        TcpDialer::new(self.net, port)
    }
}
