// The data of records in frames, in which names are written whole. (RFC 1035 3.3, RFC 2782, RFC 3596 2.2, RFC 4034 4.1)
ghost use Rattle.std.specs.Prelude.{◌≡◌};
ghost use Rattle.sd_ipc.specs.Parts.{IsReadAs};
ghost use Rattle.sd_ipc.specs.Reading.{a_of, aaaa_of, last_name_of, srv_of, nsec_of, raw_of, rdata_of};

use crate::FrameError;
use crate::parts::{ended, name_part, u16_part};
use bytes::Bytes;
use dns_name::Name;
use dns_record::Rdata;
use std::alloc::Global;

/// The data of a type.
#[tactic(auto, unfolding(crate::specs::Reading::rdata_of))]
pub(crate) fn rdata_of(alloc: Global, kind: u16, bytes: &[u8]) -> Result<Rdata, FrameError>
    ensures { IsReadAs result (rdata_of kind bytes.now) }
{
    match kind {
        1 => a_of(bytes),
        28 => aaaa_of(bytes),
        12 => Ok(Rdata::Ptr(last_name_of(bytes)?)),
        5 => Ok(Rdata::Cname(last_name_of(bytes)?)),
        33 => srv_of(bytes),
        16 => Ok(Rdata::Txt(Bytes::copy_from_slice(alloc, bytes)?)),
        47 => nsec_of(alloc, bytes),
        _ => raw_of(alloc, kind, bytes),
    }
}

#[tactic(auto, unfolding(crate::specs::Reading::a_of))]
fn a_of(bytes: &[u8]) -> Result<Rdata, FrameError>
    ensures { result ≡ a_of bytes.now }
{
    match bytes.first_chunk::<4>() {
        Some(address) if bytes.len() == 4 => Ok(Rdata::A(u32::from_be_bytes(*address))),
        _ => Err(FrameError::BadBody),
    }
}

#[tactic(auto, unfolding(crate::specs::Reading::aaaa_of))]
fn aaaa_of(bytes: &[u8]) -> Result<Rdata, FrameError>
    ensures { result ≡ aaaa_of bytes.now }
{
    match bytes.first_chunk::<16>() {
        Some(address) if bytes.len() == 16 => Ok(Rdata::Aaaa(u128::from_be_bytes(*address))),
        _ => Err(FrameError::BadBody),
    }
}

/// A name with which the bytes end.
#[tactic(auto, unfolding(crate::specs::Reading::last_name_of))]
pub(crate) fn last_name_of(bytes: &[u8]) -> Result<Name, FrameError>
    ensures { result ≡ last_name_of bytes.now }
{
    let (name, rest) = name_part(bytes)?;
    ended(rest)?;
    Ok(name)
}

#[tactic(auto, unfolding(crate::specs::Reading::srv_of))]
fn srv_of(bytes: &[u8]) -> Result<Rdata, FrameError>
    ensures { result ≡ srv_of bytes.now }
{
    let (priority, rest) = u16_part(bytes)?;
    let (weight, rest) = u16_part(rest)?;
    let (port, rest) = u16_part(rest)?;
    let target = last_name_of(rest)?;
    Ok(Rdata::Srv {
        priority,
        weight,
        port,
        target,
    })
}

#[tactic(auto, unfolding(crate::specs::Reading::nsec_of))]
fn nsec_of(alloc: Global, bytes: &[u8]) -> Result<Rdata, FrameError>
    ensures { IsReadAs result (nsec_of bytes.now) }
{
    let (next, rest) = name_part(bytes)?;
    Ok(Rdata::Nsec {
        next,
        bitmap: Bytes::copy_from_slice(alloc, rest)?,
    })
}

// Data of any other type: those of OPT are no record's, and NS, MX and SOA have a form.
#[tactic(auto, unfolding(crate::specs::Reading::raw_of))]
fn raw_of(alloc: Global, kind: u16, bytes: &[u8]) -> Result<Rdata, FrameError>
    ensures { IsReadAs result (raw_of kind bytes.now) }
{
    let rdata = Rdata::Raw {
        kind,
        bytes: Bytes::copy_from_slice(alloc, bytes)?,
    };
    if !rdata.is_valid() {
        return Err(FrameError::BadBody);
    }
    Ok(rdata)
}
