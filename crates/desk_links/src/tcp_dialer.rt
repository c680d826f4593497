//! The dialer of the system, over TCP on 127.0.0.1. It is trusted.
ghost use Rattle.std.specs.Prelude.{◌≡◌, ◌≢◌, ◌<◌, ◌++◌, [], take, length, IfOk};
ghost use Rattle.byte_streams.specs.Flows.{Reads};
ghost use Rattle.desk_links.specs.Links.{HandsOut};
ghost use Rattle.desk_links.specs.LinkLaws.{untold_input, untold_output};

use crate::ahead::Ahead;
use crate::dialer::{Dialer, Peer};
use crate::link::Link;
use crate::tcp_link::{Side, TcpLink};
use byte_streams::{Sink, Source};
use desk_traits::Failed;
use std::net::{Ipv4Addr, Net, SocketAddr, SocketAddrV4, TcpListener, TcpStream};
use std::time::Clock;

/// A connection whose reads fail where the other side's bytes end. It takes up to 4,096 bytes at
/// once from the system; those that were not asked for wait for the next read.
#[derive(Drop)]
pub struct TcpPeer<C> {
    link: TcpLink<C>,
    ahead: Ahead,
}

impl<C: Clock> Source for TcpPeer<C> {
    ghost inflow = { λ p. untold_input p.link.read_faults };

    ghost reads = { λ old new. new.link.write_faults ≡ old.link.write_faults };

    /// Copies bytes received earlier to the start of `into`, or if there are none receives up to
    /// 4,096 bytes and copies the first of them, and returns how many were copied. Fails, which is
    /// counted, if receiving fails or goes past its time limit, or if the other side's bytes have
    /// ended and `into` is not empty.
    fn read(&mut self, into: &mut [u8]) -> Result<usize, Failed>
        ensures read { Reads (untold_input self.old.link.read_faults)
            (untold_input self.new.link.read_faults) result into.new }
        ensures beside { self.new.link.write_faults ≡ self.old.link.write_faults }
        ensures some { IfOk result (λ n. 0 < length into.old → 0 < n) }

        // The bytes of an earlier read are handed out first and in order, and none is lost.
        ensures waiting { self.old.ahead ≢ []
            → IfOk result (λ n. self.old.ahead ≡ take n into.new ++ self.new.ahead) }
        ensures waited { HandsOut self.old.ahead result into.new }
    {
        if self.ahead.is_empty() && !into.is_empty() {
            self.ahead.fill(&mut self.link)?;
            if self.ahead.is_empty() {
                self.link.read_faults = self.link.read_faults.saturating_add(1);
                return Err(Failed);
            }
        }
        Ok(self.ahead.hand_out(into))
    }
}

impl<C: Clock> Sink for TcpPeer<C> {
    ghost use Rattle.desk_links.specs.LinkLaws.{count_same, count_kept};

    ghost outflow = { λ p. untold_output p.link.write_faults };

    ghost writes = { λ old new. new.link.read_faults ≡ old.link.read_faults };

    ghost no_writes = { λ p. count_same p.link.read_faults };

    ghost more_writes = { λ old mid new first second. count_kept
        old.link.read_faults mid.link.read_faults new.link.read_faults first second };

    /// Writes a prefix of `bytes` to the connection and returns its length, at least 1 unless
    /// `bytes` is empty. Fails, which is counted, if the write fails or goes past its time limit.
    fn write(&mut self, bytes: &[u8]) -> Result<usize, Failed> {
        self.link.write(bytes)
    }
}

impl<C: Clock> Link for TcpPeer<C> {
    ghost use Rattle.std.specs.Prelude.{refl};
    ghost use Rattle.desk_links.specs.LinkLaws.{keeps_input, keeps_output, untold};

    ghost state = { λ p. untold p.link.read_faults p.link.write_faults };

    ghost shows_input = { λ _. refl };

    ghost shows_output = { λ _. refl };

    ghost reads_alone = { λ old new kept.
        keeps_output old.link.read_faults new.link.read_faults
        old.link.write_faults new.link.write_faults kept };

    ghost writes_alone = { λ old new kept.
        keeps_input old.link.read_faults new.link.read_faults
        old.link.write_faults new.link.write_faults kept };

    ghost told_whole = { λ _. tt };
}

impl<C: Clock> Peer for TcpPeer<C> {
    ghost held = { λ p. p.ahead };

    ghost held_first = { λ _. tt };

    /// Returns the bytes that were received from the system and not yet handed out, at most 4,096.
    fn waiting(&self) -> &[u8] {
        self.ahead.as_slice()
    }

    /// Copies bytes received earlier to the start of `into`, which must not be empty, or if there
    /// are none receives up to 4,096 bytes and copies the first of them, and returns how many were
    /// copied. Fails, which is counted, if receiving fails or goes past its time limit, or if the
    /// other side's bytes have ended.
    fn read_some(&mut self, into: &mut [u8]) -> Result<usize, Failed> {
        self.read(into)
    }
}

/// A dialer of one port of 127.0.0.1. It closes the links that it takes back.
#[derive(Drop)]
pub struct TcpDialer<R> {
    net: R,
    port: u16,
    faults: u64,
    given: u64,
    returned: u64,
}

impl<R: Net<Listener = TcpListener, Stream = TcpStream>> TcpDialer<R> {
    /// Returns a dialer of port number `port` of 127.0.0.1, over the runtime's network, that has
    /// lent no link.
    pub fn new(net: R, port: u16) -> Self
        ensures faults { result.faults ≡ 0 }
        ensures given { result.given ≡ 0 }
        ensures returned { result.returned ≡ 0 }
    {
        TcpDialer {
            net,
            port,
            faults: 0,
            given: 0,
            returned: 0,
        }
    }
}

impl<R: Net<Listener = TcpListener, Stream = TcpStream> + Clock + Copy + Send + Drop> Dialer
    for TcpDialer<R> {
    ghost use Rattle.desk_links.specs.LinkLaws.{untold_door};

    type Link = TcpPeer<R>;

    ghost state = { λ d. untold_door d.given d.returned d.faults };

    /// Connects to the dialer's port number of 127.0.0.1 and returns the connection as a link, each
    /// read of which may wait up to 30 s, as may the writes of one call together. Fails, which is
    /// counted, if no connection comes about.
    fn dial(&mut self) -> Result<TcpPeer<R>, Failed> {
        let address = SocketAddr::V4(SocketAddrV4::new(Ipv4Addr::LOCALHOST, self.port));
        match self.net.connect(address) {
            Ok(stream) => {
                self.given += 1;
                Ok(TcpPeer {
                    link: TcpLink::over(self.net, stream, Side::Asks),
                    ahead: Ahead::none(),
                })
            }
            Err(_) => {
                self.faults = self.faults.saturating_add(1);
                Err(Failed)
            }
        }
    }

    /// Adds the numbers of failed reads and failed writes of `link` to the dialer's count of
    /// faults, counts the link as returned, and drops it, which closes it.
    fn return_link(&mut self, link: TcpPeer<R>) {
        let count = link.link.read_faults.saturating_add(link.link.write_faults);
        self.faults = self.faults.saturating_add(count);
        self.returned += 1;
    }
}
