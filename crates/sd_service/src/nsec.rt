// The record that says which types a name has.
ghost use Rattle.std.specs.Prelude.{◌≡◌, ◌↔◌, ◌+◌, ◌/◌, ◌<◌, ◌∷◌, ◌++◌, [], map, max, fold, sum_by, slice_index, IsTrue, IfOk};
ghost use Rattle.dns_name.specs.Names.{wire_of};
ghost use Rattle.dns_record.specs.Records.{kind_of, data_eq, same};
ghost use Rattle.mdns_history.specs.Debts.{bit_of_type, bitmap_byte, bitmap_of, nsec_record};
ghost use Rattle.sd_service.specs.Bitmaps.{kinds_of, bitmap_size, have_bitmap, UniqueHaveBitmap};

use crate::service::{HOST_TTL, unique_record};
use bytes::Bytes;
use dns_name::Name;
use dns_record::{Rdata, Rr, kinds};
use std::alloc::{AllocError, Global};

/// The NSEC record that says which types a sure name has, by its unique records. Refused only for want of memory. (RFC 6762 6.1)
#[tactic(auto, unfolding(mdns_history::specs::Debts::nsec_record))]
pub fn nsec_of(alloc: Global, name: &Name, unique: &[Rr]) -> Result<Rr, AllocError>
    requires types { IsTrue (have_bitmap unique.now) }
    ensures { IfOk result (λ rr. rr ≡ nsec_record name.now unique.now) }
{
    let bitmap = bitmap_of(alloc, unique)?;
    let next = name.copy();
    Ok(unique_record(name, HOST_TTL, Rdata::Nsec { next, bitmap }))
}

/// Whether a record is the NSEC record of a name that has these unique records: the owner, case aside, the type and the data
/// agree; the flush bit and the TTL don't count. It takes no memory. (RFC 6762 6.1)
#[tactic(auto, unfolding(mdns_history::specs::Debts::nsec_record, dns_record::specs::Records::same))]
pub fn is_nsec_of(rr: &Rr, name: &Name, unique: &[Rr]) -> bool
    requires types { IsTrue (have_bitmap unique.now) }
    ensures { result ≡ same rr.now (nsec_record name.now unique.now) }
{
    rr.owner.folded_eq(name) && is_data_of(&rr.rdata, name, unique)
}

/// The unique records of a host and of a service have types that stand in a bitmap.
#[tactic(auto, using(crate::proofs::Bitmaps::unique_have_bitmap))]
pub fn unique_records_have_a_bitmap()
    ensures { UniqueHaveBitmap }
{}

// Whether data are those of the NSEC record of a name that has these unique records, by type and bytes.
fn is_data_of(rdata: &Rdata, name: &Name, unique: &[Rr]) -> bool
    requires types { IsTrue (have_bitmap unique.now) }
    ensures { result ≡ data_eq rdata.now (Rdata.Nsec name.now (bitmap_of (kinds_of unique.now))) }
{
    match rdata {
        Rdata::Nsec { next, bitmap } => {
            next.as_wire() == name.as_wire() && is_bitmap(bitmap.as_slice(), unique)
        }
        Rdata::Raw { kind, bytes } => *kind == kinds::NSEC
            && is_in_bytes(bytes.as_slice(), name, unique),
        _ => false,
    }
}

// Whether bytes are a name in wire form and the bitmap behind it.
fn is_in_bytes(bytes: &[u8], name: &Name, unique: &[Rr]) -> bool
    requires types { IsTrue (have_bitmap unique.now) }
    ensures { IsTrue result ↔ (bytes.now ≡ wire_of name.now ++ bitmap_of (kinds_of unique.now)) }
{
    match bytes.strip_prefix(name.as_wire()) {
        Some(bitmap) => is_bitmap(bitmap, unique),
        None => false,
    }
}

// Whether bytes are block 0 of the bitmap of the types of records.
fn is_bitmap(bytes: &[u8], unique: &[Rr]) -> bool
    requires types { IsTrue (have_bitmap unique.now) }
    ensures { IsTrue result ↔ (bytes.now ≡ bitmap_of (kinds_of unique.now)) }
{
    let size = greatest(unique) / 8 + 1;
    if bytes.len() != usize::from(size) + 2 {
        return false;
    }
    for (place, byte) in bytes.iter().enumerate() {
        if *byte != bitmap_at(unique, size, place) {
            return false;
        }
    }
    true
}

// The byte of the bitmap at a place: the number of the block, its length, and then the types. It has so many bytes of types.
fn bitmap_at(unique: &[Rr], size: u16, place: usize) -> u8
    requires types { IsTrue (have_bitmap unique.now) }
    requires size { size ≡ bitmap_size (kinds_of unique.now) }
    requires within { place < size + 2 }
    ensures { result ≡ slice_index (bitmap_of (kinds_of unique.now)) place }
{
    match place {
        0 => 0,
        1 => size as u8,
        _ => byte_at(unique, (place - 2) as u16) as u8,
    }
}

// Block 0 of the bitmap of the types of records: its length, and a byte for each eight types up to the greatest. (RFC 4034 4.1.2)
fn bitmap_of(alloc: Global, unique: &[Rr]) -> Result<Bytes, AllocError>
    requires types { IsTrue (have_bitmap unique.now) }
    ensures { IfOk result (λ bytes. bytes ≡ bitmap_of (kinds_of unique.now)) }
{
    let size = greatest(unique) / 8 + 1;
    let mut bytes = Vec::new(alloc);
    bytes.push(0)?;
    bytes.push(size as u8)?;
    for place in 0..size {
        bytes.push(byte_at(unique, place) as u8)?;
    }
    Ok(Bytes::from_vec(bytes)?)
}

// The greatest type of records.
fn greatest(unique: &[Rr]) -> u16
    ensures { result ≡ fold max 0 (kinds_of unique.now) }
{
    let mut most = 0;
    for rr in unique {
        most = most.max(rr.rdata.kind());
    }
    most
}

// A byte of the bitmap of the types of records.
fn byte_at(unique: &[Rr], place: u16) -> u16
    requires { bitmap_byte (kinds_of unique.now) place < 256 }
    ensures { result ≡ bitmap_byte (kinds_of unique.now) place }
{
    let mut byte = 0;
    for rr in unique {
        byte += bit_of(rr.rdata.kind(), place);
    }
    byte
}

// The worth of a type in a byte: the first type of a byte has its highest bit.
fn bit_of(kind: u16, place: u16) -> u16
    ensures { result ≡ bit_of_type place kind }
{
    if kind / 8 == place {
        1 << (7 - kind % 8)
    } else {
        0
    }
}
