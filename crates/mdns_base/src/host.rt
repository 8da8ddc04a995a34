// Hosts, and where packets go.

/// The port of Multicast DNS. (RFC 6762 2)
pub const MDNS_PORT: u16 = 5353;

/// An address and a port of IPv4, as the sender of a packet has them.
#[derive(Clone, Copy, Debug, PartialEq, Eq)]
pub struct Host {
    /// The address, its first number in the highest byte.
    pub ip: u32,
    /// The UDP port.
    pub port: u16,
}

/// Where a packet goes.
#[derive(Clone, Copy, Debug, PartialEq, Eq)]
pub enum Dest {
    /// The multicast group: all that listen on the link.
    All,
    /// One host.
    One(Host),
}
