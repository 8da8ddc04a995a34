// The data of records, written as they stand in a message in which no name is compressed.
ghost use Rattle.std.specs.Prelude.{IfOk};
ghost use Rattle.sd_ipc.specs.Again.{IsData};

use crate::fields::{put_name, put_u16};
use bytes::Bytes;
use dns_name::Name;
use dns_record::Rdata;
use std::alloc::{AllocError, Global};

/// The bytes of data.
pub(crate) fn data_bytes(alloc: Global, rdata: &Rdata) -> Result<Vec<u8>, AllocError>
    ensures { IfOk result (λ written. IsData rdata.now written.items) }
{
    match rdata {
        Rdata::A(address) => a_bytes(alloc, *address),
        Rdata::Aaaa(address) => aaaa_bytes(alloc, *address),
        Rdata::Ptr(name) => ptr_bytes(alloc, name),
        Rdata::Cname(name) => cname_bytes(alloc, name),
        Rdata::Srv {
            priority,
            weight,
            port,
            target,
        } => srv_bytes(alloc, *priority, *weight, *port, target),
        Rdata::Txt(bytes) => txt_bytes(alloc, bytes),
        Rdata::Nsec { next, bitmap } => nsec_bytes(alloc, next, bitmap),
        Rdata::Raw { kind, bytes } => raw_bytes(alloc, *kind, bytes),
    }
}

#[tactic(auto, using(crate::proofs::DataAgain::a_data))]
fn a_bytes(alloc: Global, address: u32) -> Result<Vec<u8>, AllocError>
    ensures { IfOk result (λ written. IsData (Rdata.A address) written.items) }
{
    Vec::from_slice(alloc, &address.to_be_bytes())
}

#[tactic(auto, using(crate::proofs::DataAgain::aaaa_data))]
fn aaaa_bytes(alloc: Global, address: u128) -> Result<Vec<u8>, AllocError>
    ensures { IfOk result (λ written. IsData (Rdata.Aaaa address) written.items) }
{
    Vec::from_slice(alloc, &address.to_be_bytes())
}

fn ptr_bytes(alloc: Global, name: &Name) -> Result<Vec<u8>, AllocError>
    ensures { IfOk result (λ written. IsData (Rdata.Ptr name.now) written.items) }
{
    let mut out = Vec::new(alloc);
    put_name(&mut out, name)?;
    Ok(out)
}

fn cname_bytes(alloc: Global, name: &Name) -> Result<Vec<u8>, AllocError>
    ensures { IfOk result (λ written. IsData (Rdata.Cname name.now) written.items) }
{
    let mut out = Vec::new(alloc);
    put_name(&mut out, name)?;
    Ok(out)
}

fn srv_bytes(
    alloc: Global,
    priority: u16,
    weight: u16,
    port: u16,
    target: &Name,
) -> Result<Vec<u8>, AllocError>
    ensures { IfOk result (λ written. IsData (Rdata.Srv priority weight port target.now) written.items) }
{
    let mut out = Vec::new(alloc);
    put_u16(&mut out, priority)?;
    put_u16(&mut out, weight)?;
    put_u16(&mut out, port)?;
    put_name(&mut out, target)?;
    Ok(out)
}

#[tactic(auto, using(crate::proofs::DataAgain::txt_data))]
fn txt_bytes(alloc: Global, bytes: &Bytes) -> Result<Vec<u8>, AllocError>
    ensures { IfOk result (λ written. IsData (Rdata.Txt bytes.now) written.items) }
{
    Vec::from_slice(alloc, bytes.as_slice())
}

fn nsec_bytes(alloc: Global, next: &Name, bitmap: &Bytes) -> Result<Vec<u8>, AllocError>
    ensures { IfOk result (λ written. IsData (Rdata.Nsec next.now bitmap.now) written.items) }
{
    let mut out = Vec::new(alloc);
    put_name(&mut out, next)?;
    out.extend_from_slice(bitmap.as_slice())?;
    Ok(out)
}

#[tactic(auto, using(crate::proofs::DataAgain::raw_data))]
fn raw_bytes(alloc: Global, kind: u16, bytes: &Bytes) -> Result<Vec<u8>, AllocError>
    ensures { IfOk result (λ written. IsData (Rdata.Raw kind bytes.now) written.items) }
{
    Vec::from_slice(alloc, bytes.as_slice())
}
