// The link as a relay: each packet goes as a UDP datagram from the relay port of the daemon on 127.0.0.1 to those of its
// peers. A datagram is the sender's address (4 bytes), its port (2), the destination's address (4, 0 for all), its port
// (2, 0 for all), and the message.
ghost use Rattle.std.specs.Prelude.{◌≡◌, ◌<◌, ◌≤◌, [], None, IfSome, OnOk, OnErr, length};
ghost use Rattle.mdns_outside.specs.Parts.{FitsBuffer};
ghost use Rattle.mdns_real.specs.Datagrams.{datagram_of, is_for};

use crate::failure::pass_over;
use arrayvec::{ArrayVec, CapacityError};
use mdns_base::{Dest, Failed, Host, MDNS_PORT};
use mdns_outside::{Air, Arrival, Ear};
use std::net::{Ipv4Addr, SocketAddr, SocketAddrV4, UdpSocket};
use std::sync::Arc;
use std::{io, time};

// How many bytes of a datagram stand before its message.
const HEAD: usize = 12;

// The longest message. (RFC 6762 17)
const LONGEST_MESSAGE: usize = 8972;

// The longest datagram.
const LONGEST: usize = HEAD + LONGEST_MESSAGE;

// A datagram that is sent.
type Datagram = ArrayVec<u8, LONGEST>;

/// The address of a port of this machine.
pub(crate) fn loopback(port: u16) -> SocketAddr {
    SocketAddr::V4(SocketAddrV4::new(Ipv4Addr::new(127, 0, 0, 1), port))
}

/// Hears what the peers send. It tells nothing of what comes. While the machine has no memory for the next packet, it waits.
#[derive(Drop)]
pub struct RelayEar<R: time::Clock + Drop> {
    rt: R,
    socket: Arc<UdpSocket>,
    address: u32,
    faults: u64,
    // Why it failed last.
    why: Option<io::Error>,
}

impl<R: time::Clock + Drop> Ear for RelayEar<R> {
    ghost use Rattle.mdns_real.specs.Faults.{ear_faults};

    ghost arrivals = { λ s. None };

    ghost faults = { λ s. ear_faults s };

    fn receive(&mut self, into: &mut [u8]) -> Result<Option<Arrival>, Failed> {
        match self.next(into) {
            Ok(arrival) => Ok(arrival),
            Err(error) => {
                self.faults = self.faults.saturating_add(1);
                self.why = Some(error);
                Err(Failed)
            }
        }
    }
}

impl<R: time::Clock + Drop> RelayEar<R> {
    ghost use Rattle.mdns_real.specs.Faults.{ear_faults};

    /// The ear of a daemon with this address at the relay's socket, without a fault.
    pub fn new(rt: R, socket: Arc<UdpSocket>, address: u32) -> Self
        ensures faults { ear_faults result ≡ 0 }
        ensures address { result.address ≡ address }
    {
        RelayEar {
            rt,
            socket,
            address,
            faults: 0,
            why: None,
        }
    }

    /// How often it failed. The count stays at 2^64 - 1 once there.
    pub fn faults(&self) -> u64
        ensures { result ≡ ear_faults self.now }
    {
        self.faults
    }

    /// Why it failed last; `None` where it didn't.
    pub(crate) fn into_why(self) -> Option<io::Error> {
        self.why
    }

    // The next packet for this daemon; others are passed over. There is room for one byte more than a datagram has, so that one that
    // is too long is seen.
    fn next(&self, into: &mut [u8]) -> io::Result<Option<Arrival>>
        ensures { FitsBuffer result into.new }
    {
        let mut datagram = [0u8; LONGEST + 1];
        for _ in 0..u64::MAX {
            match self.socket.recv_from(&mut datagram) {
                Ok((len, _)) => {
                    if let Some(arrival) = arrival(&datagram[..len], self.address, into) {
                        return Ok(Some(arrival));
                    }
                }
                Err(error) => pass_over(&self.rt, error)?,
            }
        }
        Ok(None)
    }
}

// What a datagram brings to the daemon of an address: it is passed over where it is shorter than its head, and where it
// goes to another place.
fn arrival(datagram: &[u8], address: u32, into: &mut [u8]) -> Option<Arrival>
    ensures { IfSome result (λ a. a.len ≤ length into.new) }
{
    let (ip, rest) = datagram.split_first_chunk::<4>()?;
    let (port, rest) = rest.split_first_chunk::<2>()?;
    let (to, rest) = rest.split_first_chunk::<4>()?;
    let (to_port, message) = rest.split_first_chunk::<2>()?;
    if !is_for(
        address,
        u32::from_be_bytes(*to),
        u16::from_be_bytes(*to_port),
    ) {
        return None;
    }
    let len = message.len().min(into.len());
    into[..len].copy_from_slice(&message[..len]);
    let from = Host {
        ip: u32::from_be_bytes(*ip),
        port: u16::from_be_bytes(*port),
    };
    Some(Arrival { from, len })
}

// Whether what goes to an address, 0 for all, and a port is for the daemon of an address: a reply to another port of its host is for
// who asked there. (RFC 6762 6.7)
fn is_for(address: u32, to: u32, port: u16) -> bool
    ensures { result ≡ is_for address to port }
{
    to == 0 || (to == address && port == MDNS_PORT)
}

/// Sends packets to the peers. It tells nothing of what was sent.
#[derive(Drop)]
pub struct RelayAir {
    socket: Arc<UdpSocket>,
    address: u32,
    peers: Arc<Vec<u16>>,
    faults: u64,
}

impl Air for RelayAir {
    ghost handed = { λ s. None };

    ghost faults = { λ s. s.faults };

    fn send(&mut self, bytes: &[u8], to: Dest) -> Result<(), Failed> {
        let mut datagram = Datagram::new();
        let fits = fill(&mut datagram, self.address, to, bytes).is_ok();
        if fits && self.to_all(&datagram) {
            return Ok(());
        }
        self.faults = self.faults.saturating_add(1);
        Err(Failed)
    }
}

impl RelayAir {
    /// The air of a daemon with this address at the relay's socket, to these ports of peers.
    pub fn new(socket: Arc<UdpSocket>, address: u32, peers: Arc<Vec<u16>>) -> RelayAir
        ensures faults { result.faults ≡ 0 }
        ensures address { result.address ≡ address }
        ensures peers { result.peers ≡ peers }
    {
        RelayAir {
            socket,
            address,
            peers,
            faults: 0,
        }
    }

    // Sends a datagram to each peer, and says whether none of it failed.
    fn to_all(&self, datagram: &[u8]) -> bool {
        let mut sent = true;
        for peer in self.peers.iter() {
            if self.socket.send_to(datagram, loopback(*peer)).is_err() {
                sent = false;
            }
        }
        sent
    }
}

// Puts a packet to a place into a datagram, which is empty. The error is that the packet is too long.
fn fill(datagram: &mut Datagram, address: u32, to: Dest, bytes: &[u8]) -> Result<(), CapacityError>
    requires { datagram.old.items ≡ [] }
    ensures text { OnOk result (datagram.new.items ≡ datagram_of address to bytes.now) }
    ensures long { OnErr result (8972 < length bytes.now) }
{
    let (ip, port) = match to {
        Dest::All => (0, 0),
        Dest::One(host) => (host.ip, host.port),
    };
    datagram.try_extend_from_slice(&address.to_be_bytes())?;
    datagram.try_extend_from_slice(&MDNS_PORT.to_be_bytes())?;
    datagram.try_extend_from_slice(&ip.to_be_bytes())?;
    datagram.try_extend_from_slice(&port.to_be_bytes())?;
    datagram.try_extend_from_slice(bytes)
}
