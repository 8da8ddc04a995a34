// Packets under way, and daemons that are parted.
use bytes::Bytes;
use mdns_base::Host;

/// A packet on its way to one daemon: when it is heard, and what that daemon hears.
#[derive(Drop)]
pub(crate) struct Delivery {
    pub moment: u64,
    pub daemon: u32,
    pub from: Host,
    pub bytes: Bytes,
}

/// Two daemons that are parted.
#[derive(Clone, Copy)]
pub(crate) struct Parted {
    pub left: u32,
    pub right: u32,
}
