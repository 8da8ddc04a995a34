// The data of records, at offsets of a message. (RFC 1035 3.3, RFC 2782, RFC 3596 2.2, RFC 4034 4.1)
ghost use Rattle.std.specs.Prelude.{◌≡◌, ◌+◌, ◌-◌, ◌<◌, ◌≤◌, ◌++◌, List, [], ◌∷◌, Ok, Err, length, slice_range, IfOk};
ghost use Rattle.dns_name.specs.Names.{wire_of};
ghost use Rattle.dns_message.specs.Reading.{name_within, name_up_to, rdata_at, srv_at, ns_at, nsec_at, mx_at, soa_at, number_data, fixed_within, IsReadAs};

use crate::MessageError;
use bytes::Bytes;
use dns_name::Name;
use dns_pointers::Packet;
use dns_record::Rdata;
use std::alloc::{AllocError, Global};

/// The data of a type that stand from an offset up to another.
#[tactic(auto, unfolding(crate::specs::Reading::rdata_at))]
pub(crate) fn read_rdata(
    alloc: Global,
    packet: &Packet<'_>,
    kind: u16,
    at: usize,
    stop: usize,
) -> Result<Rdata, MessageError>
    requires order { at ≤ stop }
    requires within { stop ≤ length packet.now }
    ensures { IsReadAs result (rdata_at packet.now kind at stop) }
{
    match kind {
        1 if stop - at == 4 => Ok(Rdata::A(packet.u32_at(at))),
        28 if stop - at == 16 => Ok(Rdata::Aaaa(packet.u128_at(at))),
        1 | 28 => Err(MessageError::BadRdata),
        12 => Ok(Rdata::Ptr(read_last_name(packet, at, stop)?)),
        5 => Ok(Rdata::Cname(read_last_name(packet, at, stop)?)),
        33 => read_srv(packet, at, stop),
        47 => read_nsec(alloc, packet, at, stop),
        2 => read_ns(alloc, packet, at, stop),
        15 => read_mx(alloc, packet, at, stop),
        6 => read_soa(alloc, packet, at, stop),
        16 => Ok(Rdata::Txt(Bytes::copy_from_slice(alloc, &packet.bytes()[at..stop])?)),
        kind => Ok(Rdata::Raw {
            kind,
            bytes: Bytes::copy_from_slice(alloc, &packet.bytes()[at..stop])?,
        }),
    }
}

// A name in data: it ends within them.
#[tactic(auto, unfolding(crate::specs::Reading::name_within))]
fn read_inner_name(
    packet: &Packet<'_>,
    at: usize,
    stop: usize,
) -> Result<(Name, usize), MessageError>
    ensures name { result ≡ name_within packet.now at stop }
    ensures within { IfOk result (λ found. found.1 ≤ stop) }
{
    let (name, end) = packet.name_at(at)?;
    if end > stop {
        return Err(MessageError::BadRdata);
    }
    Ok((name, end))
}

// A name with which data end.
#[tactic(auto, unfolding(crate::specs::Reading::name_up_to))]
fn read_last_name(packet: &Packet<'_>, at: usize, stop: usize) -> Result<Name, MessageError>
    ensures { result ≡ name_up_to packet.now at stop }
{
    let (name, end) = packet.name_at(at)?;
    if end != stop {
        return Err(MessageError::BadRdata);
    }
    Ok(name)
}

#[tactic(auto, unfolding(crate::specs::Reading::srv_at))]
fn read_srv(packet: &Packet<'_>, at: usize, stop: usize) -> Result<Rdata, MessageError>
    requires order { at ≤ stop }
    requires within { stop ≤ length packet.now }
    ensures { result ≡ srv_at packet.now at stop }
{
    if stop - at < 6 {
        return Err(MessageError::BadRdata);
    }
    let target = read_last_name(packet, at + 6, stop)?;
    Ok(Rdata::Srv {
        priority: packet.u16_at(at),
        weight: packet.u16_at(at + 2),
        port: packet.u16_at(at + 4),
        target,
    })
}

#[tactic(auto, unfolding(crate::specs::Reading::nsec_at))]
fn read_nsec(
    alloc: Global,
    packet: &Packet<'_>,
    at: usize,
    stop: usize,
) -> Result<Rdata, MessageError>
    requires within { stop ≤ length packet.now }
    ensures { IsReadAs result (nsec_at packet.now at stop) }
{
    let (next, end) = read_inner_name(packet, at, stop)?;
    Ok(Rdata::Nsec {
        next,
        bitmap: Bytes::copy_from_slice(alloc, &packet.bytes()[end..stop])?,
    })
}

#[tactic(auto, unfolding(crate::specs::Reading::ns_at))]
fn read_ns(
    alloc: Global,
    packet: &Packet<'_>,
    at: usize,
    stop: usize,
) -> Result<Rdata, MessageError>
    ensures { IsReadAs result (ns_at packet.now at stop) }
{
    let name = read_last_name(packet, at, stop)?;
    Ok(Rdata::Raw {
        kind: 2,
        bytes: Bytes::copy_from_slice(alloc, name.as_wire())?,
    })
}

#[tactic(auto, unfolding(crate::specs::Reading::mx_at))]
fn read_mx(
    alloc: Global,
    packet: &Packet<'_>,
    at: usize,
    stop: usize,
) -> Result<Rdata, MessageError>
    requires order { at ≤ stop }
    requires within { stop ≤ length packet.now }
    ensures { IsReadAs result (mx_at packet.now at stop) }
{
    if stop - at < 2 {
        return Err(MessageError::BadRdata);
    }
    let name = read_last_name(packet, at + 2, stop)?;
    Ok(Rdata::Raw {
        kind: 15,
        bytes: joined(alloc, &packet.bytes()[at..at + 2], name.as_wire(), &[])?,
    })
}

#[tactic(auto, unfolding(crate::specs::Reading::soa_at))]
fn read_soa(
    alloc: Global,
    packet: &Packet<'_>,
    at: usize,
    stop: usize,
) -> Result<Rdata, MessageError>
    requires within { stop ≤ length packet.now }
    ensures { IsReadAs result (soa_at packet.now at stop) }
{
    let (server, end) = read_inner_name(packet, at, stop)?;
    let (mailbox, end) = read_inner_name(packet, end, stop)?;
    if stop - end != 20 {
        return Err(MessageError::BadRdata);
    }
    Ok(Rdata::Raw {
        kind: 6,
        bytes: joined(
            alloc,
            server.as_wire(),
            mailbox.as_wire(),
            &packet.bytes()[end..stop],
        )?,
    })
}

// A list of the bytes of three parts, one behind the other.
fn joined(alloc: Global, first: &[u8], second: &[u8], third: &[u8]) -> Result<Bytes, AllocError>
    ensures { IfOk result (λ whole. whole ≡ first.now ++ second.now ++ third.now) }
{
    let mut whole = Vec::from_slice(alloc, first)?;
    whole.extend_from_slice(second)?;
    whole.extend_from_slice(third)?;
    Ok(Bytes::from_vec(whole)?)
}
