// The link between daemons.
ghost use Rattle.std.specs.Prelude.{ℕ, ◌≡◌, ◌<◌, ◌≤◌, ◌+◌, ◌^◌, ◌++◌, [], ◌∷◌, ◌==◌, nat_lt, true, false, not, filter, position, length, Some, None, OnOk, OnErr, IfSome};
ghost use Rattle.std.specs.List.{prefix_len};
ghost use Rattle.mdns_hub.specs.Plays.{comes_by};
ghost use Rattle.mdns_hub.specs.Slots.{address_at, is_kept};
ghost use Rattle.mdns_hub.specs.Order.{AreFit, first_moment, early_count};
ghost use Rattle.mdns_hub.specs.Links.{quiet_link, is_pair, are_parted, is_for, hears_from, host_of, delivery_to, put_delivery, put_where, spread_to, with_packet, with_packets};

use crate::daemons::Daemons;
use crate::delivery::{Delivery, Parted};
use bytes::Bytes;
use dns_message::{LONGEST_MESSAGE, WriteError, write};
use mdns_base::{Dest, Host, MDNS_PORT, Moment};
use mdns_history::Sent;
use std::alloc::{AllocError, Global};

/// The link between daemons: how long packets are under way, in milliseconds, how many of the next are lost, which daemons are
/// parted, and the packets under way, in the order in which they are heard.
#[derive(Drop)]
pub(crate) struct Link {
    alloc: Global,
    delay: u64,
    losses: u64,
    parted: Vec<Parted>,
    under_way: Vec<Delivery>,
    ghost delayed: { 1 ≤ delay },
    ghost short: { delay ≤ 10000 },
}

impl Link {
    ghost use Rattle.mdns_hub.specs.Kept.{link_of};

    /// A link on which packets are under way for a millisecond, none is lost, and none is under way.
    pub fn new(alloc: Global) -> Self
        ensures { link_of result ≡ quiet_link }
    {
        Link {
            alloc,
            delay: 1,
            losses: 0,
            parted: Vec::new(alloc),
            under_way: Vec::new(alloc),
        }
    }

    /// Lets packets that are sent from now on be under way for so many milliseconds.
    pub fn set_delay(&mut self, ms: u64)
        requires least { 1 ≤ ms }
        requires most { ms ≤ 10000 }
        ensures { link_of self.new ≡ record (link_of self.old) { delay = ms } }
    {
        self.delay = ms;
    }

    /// Lets so many of the next packets be lost.
    pub fn set_losses(&mut self, count: u64)
        ensures { link_of self.new ≡ record (link_of self.old) { losses = count } }
    {
        self.losses = count;
    }

    /// Parts two daemons. Refused only for want of memory; then nothing changes.
    pub fn part(&mut self, left: u32, right: u32) -> Result<(), AllocError>
        ensures done { OnOk result (link_of self.new ≡ record (link_of self.old) { parted = self.old.parted.items ++ record { left = left; right = right } ∷ [] }) }
        ensures err { OnErr result (link_of self.new ≡ link_of self.old) }
    {
        self.parted.push(Parted { left, right })?;
        Ok(())
    }

    /// Lets two daemons hear each other again.
    pub fn meet(&mut self, left: u32, right: u32)
        ensures { link_of self.new ≡ record (link_of self.old) { parted = filter (λ pair. not (is_pair left right pair)) self.old.parted.items } }
    {
        self.parted.retain(|pair| !is_pair(left, right, *pair));
    }

    /// When the first packet that is under way is heard, in milliseconds.
    pub fn first_moment(&self) -> Option<u64>
        ensures { result ≡ first_moment self.now.under_way.items }
    {
        match self.under_way.as_slice() {
            [first, ..] => Some(first.moment),
            [] => None,
        }
    }

    // Whether a packet is heard by a moment.
    fn comes_by(&self, moment: Moment) -> bool
        ensures { result ≡ comes_by moment self.now.under_way.items }
    {
        match self.under_way.as_slice() {
            [first, ..] => first.moment <= moment.ms(),
            [] => false,
        }
    }

    /// Takes the first packet that is under way, where it is heard by a moment.
    pub fn take_by(&mut self, moment: Moment) -> Option<Delivery>
        ensures taken { IfSome result (λ delivery. (self.old.under_way.items ≡ delivery ∷ self.new.under_way.items) × (delivery.moment ≤ moment)) }
        ensures none { result ≡ None → (self.new ≡ self.old) × (comes_by moment self.old.under_way.items ≡ false) }
        ensures others { link_of self.new ≡ record (link_of self.old) { under_way = self.new.under_way.items } }
    {
        if self.comes_by(moment) {
            Some(self.under_way.remove(0))
        } else {
            None
        }
    }

    // Puts a packet behind those that aren't later. Refused only for want of memory; then nothing changes.
    fn put(&mut self, delivery: Delivery) -> Result<(), AllocError>
        ensures done { OnOk result (link_of self.new ≡ record (link_of self.old) { under_way = put_delivery delivery self.old.under_way.items }) }
        ensures err { OnErr result (link_of self.new ≡ link_of self.old) }
    {
        let place = place_behind(self.under_way.as_slice(), delivery.moment);
        self.under_way.insert(place, delivery)?;
        Ok(())
    }

    // Whether two daemons are parted.
    fn are_parted(&self, a: u32, b: u32) -> bool
        ensures { result ≡ are_parted self.now.parted.items a b }
    {
        self.parted.iter().any(|pair| is_pair(a, b, *pair))
    }

    // Whether a daemon hears a packet.
    fn hears(&self, daemons: &Daemons, packet: &Packet, daemon: u32) -> bool
        ensures { result ≡ hears_from (address_at daemons.now.slots.items) self.now.parted.items packet.now.sender packet.now.to daemon }
    {
        match daemons.address(daemon) {
            Some(address) => {
                is_for(packet.to, address)
                    && daemon != packet.sender
                    && !self.are_parted(packet.sender, daemon)
            }
            None => false,
        }
    }

    // Lets a packet be under way to a daemon, where that hears it. Refused only for want of memory.
    fn reach(&mut self, daemons: &Daemons, packet: &Packet, daemon: u32) -> Result<(), AllocError>
        ensures done { OnOk result (link_of self.new ≡ record (link_of self.old) {
          under_way = put_where (hears_from (address_at daemons.now.slots.items) self.old.parted.items packet.now.sender packet.now.to daemon)
              (delivery_to packet.now.moment packet.now.from packet.now.bytes daemon) self.old.under_way.items;
        }) }
        ensures err { OnErr result (link_of self.new ≡ link_of self.old) }
    {
        if self.hears(daemons, packet, daemon) {
            let bytes = packet.bytes.clone()?;
            self.put(Delivery {
                moment: packet.moment,
                daemon,
                from: packet.from,
                bytes,
            })?;
        }
        Ok(())
    }

    // Lets a packet be under way to each daemon that hears it. Refused only for want of memory; then it is to some.
    fn spread(&mut self, daemons: &Daemons, packet: &Packet) -> Result<(), AllocError>
        ensures done { OnOk result (link_of self.new ≡ record (link_of self.old)
            { under_way = spread_to (address_at daemons.now.slots.items) packet.now.moment packet.now.from packet.now.sender packet.now.to packet.now.bytes (link_of self.old) }) }
        ensures fit { (from : ℕ) → from ≤ packet.now.moment → AreFit from (is_kept daemons.now.slots.items) self.old.under_way.items
            → AreFit from (is_kept daemons.now.slots.items) self.new.under_way.items }
        ensures early { (now : ℕ) → now < packet.now.moment → early_count now self.new.under_way.items ≡ early_count now self.old.under_way.items }
    {
        for daemon in 1..17u32 {
            self.reach(daemons, packet, daemon)?;
        }
        Ok(())
    }

    // Lets a packet that a daemon sends at `now` be lost, or be under way. Refused only for want of memory.
    fn send(
        &mut self,
        daemons: &Daemons,
        now: Moment,
        sender: u32,
        sent: &Sent,
    ) -> Result<(), AllocError>
        ensures done { OnOk result (link_of self.new ≡ with_packet (address_at daemons.now.slots.items) now sender sent.now (link_of self.old)) }
        ensures fit { (from : ℕ) → from ≤ now + 1 → AreFit from (is_kept daemons.now.slots.items) self.old.under_way.items
            → AreFit from (is_kept daemons.now.slots.items) self.new.under_way.items }
        ensures early { early_count now self.new.under_way.items ≡ early_count now self.old.under_way.items }
    {
        if self.losses > 0 {
            self.losses -= 1;
            return Ok(());
        }
        match write(self.alloc, &sent.message, LONGEST_MESSAGE) {
            Ok(bytes) => {
                let packet = Packet {
                    sender,
                    from: host_of(daemons, sender),
                    to: sent.to,
                    moment: now.ms() + self.delay,
                    bytes,
                };
                self.spread(daemons, &packet)
            }
            Err(WriteError::TooLong) => Ok(()),
            Err(WriteError::NoMemory) => Err(AllocError),
        }
    }

    /// Lets the packets that a daemon sends at `now`, in milliseconds, be lost or be under way, in their order. Refused only for want of
    /// memory; then some are.
    pub fn send_all(
        &mut self,
        daemons: &Daemons,
        now: Moment,
        sender: u32,
        sent: &[Sent],
    ) -> Result<(), AllocError>
        ensures done { OnOk result (link_of self.new ≡ with_packets (address_at daemons.now.slots.items) now sender sent.now (link_of self.old)) }
        ensures fit { (from : ℕ) → from ≤ now + 1 → AreFit from (is_kept daemons.now.slots.items) self.old.under_way.items
            → AreFit from (is_kept daemons.now.slots.items) self.new.under_way.items }
        ensures early { early_count now self.new.under_way.items ≡ early_count now self.old.under_way.items }
    {
        for one in sent {
            self.send(daemons, now, sender, one)?;
        }
        Ok(())
    }
}

// A packet that a daemon sends: from where and to where, and when it is heard, in milliseconds.
#[derive(Drop)]
struct Packet {
    sender: u32,
    from: Host,
    to: Dest,
    moment: u64,
    bytes: Bytes,
}

// The host that a daemon's packets come from.
fn host_of(daemons: &Daemons, daemon: u32) -> Host
    ensures { result ≡ host_of (address_at daemons.now.slots.items) daemon }
{
    Host {
        ip: daemons.address(daemon).unwrap_or(0),
        port: MDNS_PORT,
    }
}

// Whether a packet goes to a daemon at an address.
fn is_for(to: Dest, address: u32) -> bool
    ensures { result ≡ is_for to address }
{
    match to {
        Dest::All => true,
        Dest::One(host) => address == host.ip && host.port == MDNS_PORT,
    }
}

// How many packets, from the first on, aren't later than a moment.
#[tactic(auto, using(crate::proofs::Placing::place_found, crate::proofs::Placing::place_end, crate::proofs::Placing::prefix_within))]
fn place_behind(under_way: &[Delivery], moment: u64) -> usize
    ensures place { result ≡ prefix_len (λ next. not (nat_lt moment next.moment)) under_way.now }
    ensures within { result ≤ length under_way.now }
{
    match first_later(under_way, moment) {
        Some(place) => place,
        None => under_way.len(),
    }
}

// The place of the first packet that is later than a moment.
fn first_later(under_way: &[Delivery], moment: u64) -> Option<usize>
    ensures { result ≡ position (λ next. nat_lt moment next.moment) under_way.now }
{
    under_way.iter().position(|next| moment < next.moment)
}

// Whether two numbers are those of a pair, either way round.
fn is_pair(a: u32, b: u32, pair: Parted) -> bool
    ensures { result ≡ is_pair a b pair }
{
    (a == pair.left && b == pair.right) || (a == pair.right && b == pair.left)
}
