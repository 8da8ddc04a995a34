// The records of a service.
ghost use Rattle.std.specs.Prelude.{◌≡◌, ◌≤◌, ◌∷◌, ◌++◌, [], List, length, map, take, true, false, OnOk, IfOk};
ghost use Rattle.lists.specs.Lists.{ordered};
ghost use Rattle.dns_record.specs.declared.record.Rr.{Rr};
ghost use Rattle.dns_record.specs.declared.record.Rdata.TheVariants as rdata;
ghost use Rattle.dns_record.specs.Records.{record_cmp};
ghost use Rattle.sd_name.specs.Renaming.{renamed};
ghost use Rattle.sd_name.specs.ServiceTypes.{instance_name, subtype_name, types_name};
ghost use Rattle.mdns_history.specs.Groups.{unique_record, shared_record, published_txt, service_unique, service_shared};
ghost use Rattle.sd_service.specs.Shared.{shared_of};

use crate::order::put_new;
use bytes::Bytes;
use dns_message::Rrs;
use dns_name::{Label, Name};
use dns_record::{Rdata, Rr};
use sd_name::{RegType, full_name, renamed, types_name};
use std::alloc::{AllocError, Global};

/// The TTL of records that name a host, in seconds. (RFC 6762 10)
pub(crate) const HOST_TTL: u32 = 120;

/// The TTL of all other records, in seconds. (RFC 6762 10)
const OTHER_TTL: u32 = 4500;

/// The full name of a service under a number. (RFC 6763 D)
pub fn service_name(label: &Label, regtype: &RegType, number: u32) -> Name
    ensures { result ≡ instance_name (renamed label.now number) regtype.now }
{
    full_name(&renamed(label, number), regtype)
}

/// What the records of a service tell: its full name, its type, its port, and its TXT data as they were registered.
#[derive(Drop)]
pub struct Service<'a> {
    pub name: &'a Name,
    pub regtype: &'a RegType,
    pub port: u16,
    pub txt: &'a Bytes,
}

/// The unique and the shared records of a service on the host of a name, each in record order. Refused only for want of
/// memory. (RFC 6763 4 to 7 and 9)
pub fn service_records(
    alloc: Global,
    service: &Service,
    target: &Name,
) -> Result<(Rrs, Rrs), AllocError>
    ensures unique { IfOk result (λ both. both.0 ≡ service_unique service.now.name.now service.now.port service.now.txt.now target.now) }
    ensures shared { IfOk result (λ both. both.1 ≡ service_shared service.now.name.now service.now.regtype.now) }
{
    let unique = service.unique_records(alloc, target)?;
    let shared = service.shared_records(alloc)?;
    Ok((unique, shared))
}

impl Service<'_> {
    /// TXT and SRV, where the service is on the host of this name. Refused only for want of memory. (RFC 6763 4 and 6)
    pub fn unique_records(&self, alloc: Global, target: &Name) -> Result<Rrs, AllocError>
        ensures { IfOk result (λ unique. unique ≡ service_unique self.now.name.now self.now.port self.now.txt.now target.now) }
    {
        let mut unique = Rrs::new(alloc);
        let txt = Rdata::Txt(published(alloc, self.txt)?);
        unique.push(unique_record(self.name, OTHER_TTL, txt))?;
        let srv = Rdata::Srv {
            priority: 0,
            weight: 0,
            port: self.port,
            target: target.copy(),
        };
        unique.push(unique_record(self.name, HOST_TTL, srv))?;
        Ok(unique)
    }

    /// PTR from the type to the service, from the list of types to the type, and from each subtype to the service; each once, in
    /// record order. Refused only for want of memory. (RFC 6763 4.1, 7.1 and 9)
    pub fn shared_records(&self, alloc: Global) -> Result<Rrs, AllocError>
        ensures { IfOk result (λ shared. shared ≡ service_shared self.now.name.now self.now.regtype.now) }
    {
        shared_records(alloc, self.name, self.regtype)
    }
}

// TXT data as they are published: no strings are one zero byte.
fn published(alloc: Global, txt: &Bytes) -> Result<Bytes, AllocError>
    ensures { IfOk result (λ bytes. bytes ≡ published_txt txt.now) }
{
    if txt.is_empty() {
        Bytes::copy_from_slice(alloc, &[0])
    } else {
        txt.clone()
    }
}

/// A unique record of a name, with the flush bit; the TTL is in seconds. (RFC 6762 10.2)
pub(crate) fn unique_record(name: &Name, ttl: u32, rdata: Rdata) -> Rr
    ensures { result ≡ unique_record name.now ttl rdata }
{
    Rr {
        owner: name.copy(),
        flush: true,
        ttl,
        rdata,
    }
}

/// PTR from the type to a service of a name, from the list of types to the type, and from each subtype to the service; each once,
/// in record order. Refused only for want of memory. (RFC 6763 4.1, 7.1 and 9)
pub fn shared_records(alloc: Global, name: &Name, regtype: &RegType) -> Result<Rrs, AllocError>
    ensures { IfOk result (λ shared. shared ≡ service_shared name.now regtype.now) }
{
    let mut shared = Vec::new(alloc);
    put_new(&mut shared, pointer(&regtype.type_name(), name))?;
    put_new(&mut shared, pointer(&types_name(), &regtype.type_name()))?;
    for place in 0..regtype.subtype_count() {
        if let Some(subtype) = regtype.subtype_name(place) {
            put_new(&mut shared, pointer(&subtype, name))?;
        }
    }
    Ok(Rrs::from_vec(shared))
}

fn pointer(owner: &Name, target: &Name) -> Rr
    ensures { result ≡ shared_record owner.now 4500 (rdata.Ptr target.now) }
{
    Rr {
        owner: owner.copy(),
        flush: false,
        ttl: OTHER_TTL,
        rdata: Rdata::Ptr(target.copy()),
    }
}
