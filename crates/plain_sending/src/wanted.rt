// The records that answers want beside them. (RFC 6763 12)
ghost use Rattle.std.specs.Prelude.{◌≡◌, ◌==◌, ◌&&◌, [], ◌∷◌, ◌++◌, IfOk, OnOk};
ghost use Rattle.std.specs.List.{flat_map};
ghost use Rattle.dns_name.specs.Names.{folded_eq};
ghost use Rattle.dns_record.specs.Records.{kind_of};
ghost use Rattle.dns_record.specs.declared.record.Rdata.TheVariants.{Ptr};
ghost use Rattle.mdns_history.specs.Sending.{addresses_of, own_of, srv_addresses, wanted_by};

use dns_name::Name;
use dns_record::{Rdata, Rr, kinds};
use std::alloc::{AllocError, Global};

// Whether a record has a name and a type.
fn is_of(rr: &Rr, kind: u16, name: &Name) -> bool
    ensures { result ≡ (folded_eq rr.now.owner name.now && (kind_of rr.now.rdata == kind)) }
{
    rr.owner.folded_eq(name) && rr.rdata.kind() == kind
}

// Puts a record behind others, where it has a name and a type.
fn put_if_of(found: &mut Vec<Rr>, rr: &Rr, kind: u16, name: &Name) -> Result<(), AllocError>
    ensures { OnOk result (found.new.items ≡ found.old.items ++ own_of (rr.now ∷ []) kind name.now) }
{
    if is_of(rr, kind, name) {
        let copy = rr.copy()?;
        found.push(copy)?;
    }
    Ok(())
}

// The own records of a name and of a type.
fn own_of(alloc: Global, own: &[Rr], kind: u16, name: &Name) -> Result<Vec<Rr>, AllocError>
    ensures { IfOk result (λ found. found.items ≡ own_of own.now kind name.now) }
{
    let mut found = Vec::new(alloc);
    for rr in own {
        put_if_of(&mut found, rr, kind, name)?;
    }
    Ok(found)
}

// The own addresses of a name.
fn addresses_of(alloc: Global, own: &[Rr], name: &Name) -> Result<Vec<Rr>, AllocError>
    ensures { IfOk result (λ found. found.items ≡ addresses_of own.now name.now) }
{
    let mut addresses = own_of(alloc, own, kinds::A, name)?;
    let mut more = own_of(alloc, own, kinds::AAAA, name)?;
    addresses.append(&mut more)?;
    Ok(addresses)
}

// The addresses of an SRV record's target.
fn srv_addresses(alloc: Global, own: &[Rr], rdata: &Rdata) -> Result<Vec<Rr>, AllocError>
    ensures { IfOk result (λ found. found.items ≡ srv_addresses own.now rdata.now) }
{
    match rdata {
        Rdata::Srv { target, .. } => addresses_of(alloc, own, target),
        _ => Ok(Vec::new(alloc)),
    }
}

// The addresses of the targets of records.
fn addresses_of_all(alloc: Global, own: &[Rr], srvs: &[Rr]) -> Result<Vec<Rr>, AllocError>
    ensures { IfOk result (λ found. found.items ≡ flat_map (λ rr. srv_addresses own.now rr.rdata) srvs.now) }
{
    let mut all = Vec::new(alloc);
    for rr in srvs {
        let mut addresses = srv_addresses(alloc, own, &rr.rdata)?;
        all.append(&mut addresses)?;
    }
    Ok(all)
}

// What an answer wants that points to a name: SRV and TXT of the name, and the addresses of the SRV records' targets.
fn wanted_by_pointer(alloc: Global, own: &[Rr], target: &Name) -> Result<Vec<Rr>, AllocError>
    ensures { IfOk result (λ wanted. wanted.items ≡ wanted_by own.now (Ptr target.now)) }
{
    let mut srvs = own_of(alloc, own, kinds::SRV, target)?;
    let mut addresses = addresses_of_all(alloc, own, &srvs)?;
    let mut txts = own_of(alloc, own, kinds::TXT, target)?;
    txts.append(&mut addresses)?;
    srvs.append(&mut txts)?;
    Ok(srvs)
}

/// What an answer wants beside it: for PTR the SRV, TXT and addresses of its target, for SRV the addresses of its target. Refused
/// only for want of memory.
pub fn wanted_by(alloc: Global, own: &[Rr], rdata: &Rdata) -> Result<Vec<Rr>, AllocError>
    ensures { IfOk result (λ wanted. wanted.items ≡ wanted_by own.now rdata.now) }
{
    match rdata {
        Rdata::Ptr(target) => wanted_by_pointer(alloc, own, target),
        Rdata::Srv { target, .. } => addresses_of(alloc, own, target),
        _ => Ok(Vec::new(alloc)),
    }
}
