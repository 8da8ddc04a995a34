// Types, data and records as text.
ghost use Rattle.std.specs.Prelude.{◌≡◌, ◌++◌, Some, IsTrue, IfOk, OnOk};
ghost use Rattle.std.specs.Option.{option_map};
ghost use Rattle.dns_name.specs.NameText.{name_text};
ghost use Rattle.dns_record.specs.RecordText.{kind_name, kind_text, srv_text, data_text, flush_text, record_text};
ghost use Rattle.dns_record.specs.Records.{kind_of, is_rdata};
ghost use Rattle.dns_record.specs.ReadRecord.{name_read, kind_read, srv_read, rdata_read, record_read};

use crate::{Rdata, Rr};
use bytes::Bytes;
use dns_name::Name;
use number_text::{put_decimal, put_hex, put_ipv4, put_ipv6};
use std::alloc::{AllocError, Global};

impl Rr {
    /// The text of the record: owner, TTL, `flush` or `-`, type and data, parted by spaces. What is written of a valid
    /// record is read as that record. Refused only for want of memory.
    pub fn write_text(&self, alloc: Global) -> Result<Bytes, AllocError>
        ensures text { IfOk result (λ text. text ≡ record_text self.now) }
        ensures read { IfOk result (λ text. IsTrue (is_rdata self.now.rdata) → record_read text ≡ Some self.now) }
    {
        let mut out = Vec::new(alloc);
        put_record(&mut out, self)?;
        Ok(Bytes::from_vec(out)?)
    }
}

/// Appends the text of a record. What is written of a valid record is read as that record. Refused only for want of
/// memory.
#[tactic(auto, unfolding(crate::specs::RecordText::record_text))]
pub fn put_record(out: &mut Vec<u8>, rr: &Rr) -> Result<(), AllocError>
    ensures text { OnOk result (out.new.items ≡ out.old.items ++ record_text rr.now) }
    ensures read { OnOk result (IsTrue (is_rdata rr.now.rdata) → record_read (record_text rr.now) ≡ Some rr.now) }
{
    put_name(out, &rr.owner)?;
    out.push(b' ')?;
    put_decimal(out, u64::from(rr.ttl))?;
    out.push(b' ')?;
    put_flush(out, rr.flush)?;
    out.push(b' ')?;
    put_kind(out, rr.rdata.kind())?;
    out.push(b' ')?;
    put_rdata(out, &rr.rdata)?;
    Ok(())
}

/// Appends the text of a name, which is read as that name. Refused only for want of memory.
#[tactic(auto, using(crate::proofs::WrittenRecords::name_back))]
pub fn put_name(out: &mut Vec<u8>, name: &Name) -> Result<(), AllocError>
    ensures text { OnOk result (out.new.items ≡ out.old.items ++ name_text name.now) }
    ensures read { name_read (name_text name.now) ≡ Some name.now }
{
    name.put_text(out)?;
    Ok(())
}

fn put_flush(out: &mut Vec<u8>, flush: bool) -> Result<(), AllocError>
    ensures { OnOk result (out.new.items ≡ out.old.items ++ flush_text flush) }
{
    if flush {
        out.extend_from_slice(b"flush")?;
    } else {
        out.push(b'-')?;
    }
    Ok(())
}

/// Appends the name of a type, or `TYPE` and its number, which is read as that type. Refused only for want of memory.
/// (RFC 3597 5)
#[tactic(auto, using(crate::proofs::KindTexts::kind_written))]
pub fn put_kind(out: &mut Vec<u8>, kind: u16) -> Result<(), AllocError>
    ensures text { OnOk result (out.new.items ≡ out.old.items ++ kind_text kind) }
    ensures read { kind_read (kind_text kind) ≡ Some kind }
{
    put_kind_name(out, kind)?;
    Ok(())
}

#[tactic(auto, unfolding(crate::specs::RecordText::kind_text))]
fn put_kind_name(out: &mut Vec<u8>, kind: u16) -> Result<(), AllocError>
    ensures { OnOk result (out.new.items ≡ out.old.items ++ kind_text kind) }
{
    match kind_name(kind) {
        Some(name) => {
            out.extend_from_slice(name)?;
            Ok(())
        }
        None => {
            out.extend_from_slice(b"TYPE")?;
            put_decimal(out, u64::from(kind))?;
            Ok(())
        }
    }
}

/// The name of a type, if it has one.
#[tactic(auto, unfolding(crate::specs::RecordText::kind_name))]
pub(crate) fn kind_name(kind: u16) -> Option<&'static [u8]>
    ensures { option_map (λ name. name.now) result ≡ kind_name kind }
{
    match kind {
        1 => Some(b"A"),
        2 => Some(b"NS"),
        5 => Some(b"CNAME"),
        6 => Some(b"SOA"),
        12 => Some(b"PTR"),
        13 => Some(b"HINFO"),
        15 => Some(b"MX"),
        16 => Some(b"TXT"),
        28 => Some(b"AAAA"),
        33 => Some(b"SRV"),
        41 => Some(b"OPT"),
        47 => Some(b"NSEC"),
        255 => Some(b"ANY"),
        _ => None,
    }
}

/// Appends the data of a record without their type: addresses and names as such, the numbers of SRV before its target,
/// and all other bytes in hexadecimal. What is written of valid data is read as these data. Refused only for want of
/// memory.
#[tactic(auto, unfolding(crate::specs::RecordText::data_text))]
pub fn put_rdata(out: &mut Vec<u8>, rdata: &Rdata) -> Result<(), AllocError>
    ensures text { OnOk result (out.new.items ≡ out.old.items ++ data_text rdata.now) }
    ensures read { OnOk result (IsTrue (is_rdata rdata.now) → rdata_read (kind_of rdata.now) (data_text rdata.now) ≡ Some rdata.now) }
{
    match rdata {
        Rdata::A(address) => put_ipv4(out, *address)?,
        Rdata::Aaaa(address) => put_ipv6(out, *address)?,
        Rdata::Ptr(name) => put_name(out, name)?,
        Rdata::Cname(name) => put_name(out, name)?,
        Rdata::Srv {
            priority,
            weight,
            port,
            target,
        } => put_srv(out, *priority, *weight, *port, target)?,
        Rdata::Nsec { next, bitmap } => {
            put_name(out, next)?;
            out.push(b' ')?;
            put_hex(out, bitmap.as_slice())?;
        }
        Rdata::Txt(bytes) => put_hex(out, bytes.as_slice())?,
        Rdata::Raw { bytes, .. } => put_hex(out, bytes.as_slice())?,
    }
    Ok(())
}

/// Appends priority, weight, port and target, parted by spaces, which are read as these data of SRV. Refused only for want
/// of memory.
#[tactic(auto, using(crate::proofs::WrittenRecords::srv_written))]
pub fn put_srv(
    out: &mut Vec<u8>,
    priority: u16,
    weight: u16,
    port: u16,
    target: &Name,
) -> Result<(), AllocError>
    ensures text { OnOk result (out.new.items ≡ out.old.items ++ srv_text priority weight port target.now) }
    ensures read { OnOk result (srv_read (srv_text priority weight port target.now) ≡ Some (Rdata.Srv priority weight port target.now)) }
{
    put_decimal(out, u64::from(priority))?;
    out.push(b' ')?;
    put_decimal(out, u64::from(weight))?;
    out.push(b' ')?;
    put_decimal(out, u64::from(port))?;
    out.push(b' ')?;
    put_name(out, target)?;
    Ok(())
}
