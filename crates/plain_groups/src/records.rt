// The records of groups. (RFC 6762 2, RFC 6763 4 to 7 and 9)
ghost use Rattle.std.specs.Prelude.{◌≡◌, ◌++◌, ◌∷◌, [], map, IfOk, OnOk};
ghost use Rattle.std.specs.List.{flat_map};
ghost use Rattle.std.specs.Option.{option_to_list, option_copied, option_and_then};
ghost use Rattle.sd_name.specs.ServiceTypes.{subtype_name};
ghost use Rattle.mdns_history.specs.History.{config_of};
ghost use Rattle.dns_record.specs.declared.record.Rdata.TheVariants.{Ptr};
ghost use Rattle.mdns_history.specs.Groups.{address_records, group_records, host_ttl, other_ttl, published_txt, service_shared, service_unique, shared_record, shared_records, unique_record, unique_records};

use crate::group::{GroupType, LiveGroup};
use crate::live::host_name;
use crate::names::group_name;
use bytes::Bytes;
use dns_name::{Label, Name};
use dns_record::{Rdata, Rr};
use mdns_history::Config;
use plain_history::{HistoryEntry, config_of, ordered_records, present_txt};
use sd_name::types_name;
use std::alloc::{AllocError, Global};

/// The TTL of records that name a host, in seconds.
const HOST_TTL: u32 = 120;

/// The TTL of records that name no host, in seconds.
const OTHER_TTL: u32 = 4500;

/// A unique record, with the flush bit.
pub fn unique_record(owner: Name, ttl: u32, rdata: Rdata) -> Rr
    ensures { result ≡ unique_record owner ttl rdata }
{
    Rr {
        owner,
        flush: true,
        ttl,
        rdata,
    }
}

// A shared record, without the flush bit.
fn shared_record(owner: Name, ttl: u32, rdata: Rdata) -> Rr
    ensures { result ≡ shared_record owner ttl rdata }
{
    Rr {
        owner,
        flush: false,
        ttl,
        rdata,
    }
}

/// The unique records of a group, as its registration stands. Refused only for want of memory.
#[tactic(auto, unfolding(mdns_history::specs::Groups::unique_records))]
pub fn unique_records(
    alloc: Global,
    group: &LiveGroup,
    history: &[HistoryEntry],
) -> Result<Vec<Rr>, AllocError>
    ensures { IfOk result (λ records. records.items ≡ unique_records group.now history.now) }
{
    let name = group_name(group, history);
    if group.id == 0 {
        return host_records(alloc, &name, config_of(history));
    }
    let txt = present_txt(alloc, group.session, group.op, history)?;
    service_unique(alloc, &name, group.port, txt, host_name(alloc, history))
}

// The addresses of a host, none where nothing was booted.
fn host_records(alloc: Global, name: &Name, config: Option<&Config>) -> Result<Vec<Rr>, AllocError>
    ensures { IfOk result (λ records. records.items ≡ flat_map (address_records name.now) (option_to_list (option_copied config.entry))) }
{
    match config {
        Some(config) => address_records(alloc, name, config),
        None => Ok(Vec::new(alloc)),
    }
}

// The addresses of a host.
fn address_records(alloc: Global, name: &Name, config: &Config) -> Result<Vec<Rr>, AllocError>
    ensures { IfOk result (λ records. records.items ≡ address_records name.now config.now) }
{
    let mut records = Vec::new(alloc);
    let v4 = Rdata::A(config.address);
    records.push(unique_record(name.copy(), HOST_TTL, v4))?;
    if let Some(v6) = v6_of(config) {
        let v6 = Rdata::Aaaa(v6);
        records.push(unique_record(name.copy(), HOST_TTL, v6))?;
    }
    Ok(records)
}

// The address of IPv6 of a host.
fn v6_of(config: &Config) -> Option<u128>
    ensures { result ≡ option_and_then (λ host. host.v6) config.now.host }
{
    match &config.host {
        Some(host) => host.v6,
        None => None,
    }
}

// TXT and SRV of a service.
fn service_unique(
    alloc: Global,
    name: &Name,
    port: u16,
    txt: Bytes,
    target: Name,
) -> Result<Vec<Rr>, AllocError>
    ensures { IfOk result (λ records. records.items ≡ service_unique name.now port txt target) }
{
    let mut records = Vec::new(alloc);
    let txt = Rdata::Txt(published_txt(txt));
    records.push(unique_record(name.copy(), OTHER_TTL, txt))?;
    let srv = Rdata::Srv {
        priority: 0,
        weight: 0,
        port,
        target,
    };
    records.push(unique_record(name.copy(), HOST_TTL, srv))?;
    Ok(records)
}

// An empty TXT is one zero byte.
fn published_txt(txt: Bytes) -> Bytes
    ensures { result ≡ published_txt txt }
{
    if txt.is_empty() {
        Bytes::from_static(&[0])
    } else {
        txt
    }
}

/// The shared records of a group. Refused only for want of memory.
#[tactic(auto, unfolding(mdns_history::specs::Groups::shared_records))]
pub fn shared_records(
    alloc: Global,
    group: &LiveGroup,
    history: &[HistoryEntry],
) -> Result<Vec<Rr>, AllocError>
    ensures { IfOk result (λ records. records.items ≡ shared_records group.now history.now) }
{
    if group.id == 0 {
        return Ok(Vec::new(alloc));
    }
    service_shared(alloc, &group_name(group, history), &group.regtype)
}

// PTR from the type to the service, from each subtype to it, and from the list of types to the type.
fn service_shared(alloc: Global, name: &Name, regtype: &GroupType) -> Result<Vec<Rr>, AllocError>
    ensures { IfOk result (λ records. records.items ≡ service_shared name.now regtype.now) }
{
    let mut records = Vec::new(alloc);
    let service = Rdata::Ptr(name.copy());
    records.push(shared_record(regtype.name.copy(), OTHER_TTL, service))?;
    let listed = Rdata::Ptr(regtype.name.copy());
    records.push(shared_record(types_name(), OTHER_TTL, listed))?;
    put_subtypes(&mut records, name, regtype)?;
    ordered_records(records)
}

// Puts PTR from each subtype to the service.
fn put_subtypes(records: &mut Vec<Rr>, name: &Name, regtype: &GroupType) -> Result<(), AllocError>
    ensures { OnOk result (records.new.items ≡ records.old.items ++ map (λ subtype. shared_record (subtype_name subtype regtype.now) other_ttl (Ptr name.now)) regtype.now.subtypes) }
{
    for subtype in regtype.subtypes.as_slice() {
        let owner = subtype_name(subtype, regtype);
        let service = Rdata::Ptr(name.copy());
        records.push(shared_record(owner, OTHER_TTL, service))?;
    }
    Ok(())
}

// The name at which a subtype is browsed.
fn subtype_name(subtype: &Label, regtype: &GroupType) -> Name
    ensures { result ≡ subtype_name subtype.now regtype.now }
{
    let _ = subtype.as_slice();
    let sub = Label::new(b"_sub").unwrap();
    regtype.name.child(&sub).unwrap().child(subtype).unwrap()
}

/// The unique and the shared records of a group. Refused only for want of memory.
#[tactic(auto, unfolding(mdns_history::specs::Groups::group_records))]
pub fn group_records(
    alloc: Global,
    group: &LiveGroup,
    history: &[HistoryEntry],
) -> Result<Vec<Rr>, AllocError>
    ensures { IfOk result (λ records. records.items ≡ group_records group.now history.now) }
{
    let mut records = unique_records(alloc, group, history)?;
    let mut shared = shared_records(alloc, group, history)?;
    records.append(&mut shared)?;
    Ok(records)
}
