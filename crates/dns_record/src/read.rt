// Types, data and records read from text.
ghost use Rattle.std.specs.Prelude.{◌≡◌, ◌^◌, ◌==◌, Some, None, decimal, IfOk, IfSome, IsTrue, MatchResult};
ghost use Rattle.std.specs.List.{find, list_any};
ghost use Rattle.std.specs.Option.{option_map};
ghost use Rattle.number_text.specs.Cut.{cut_of};
ghost use Rattle.number_text.specs.Digits.{IsReadFrom, hex_of};
ghost use Rattle.dns_record.specs.RecordText.{kind_text};
ghost use Rattle.dns_record.specs.ReadRecord.{named_kinds, is_name_of, numbered_kind, kind_read, name_read, srv_read, nsec_read, raw_read, rdata_read, flush_read, head_read, record_read};
ghost use Rattle.dns_record.specs.Records.{is_rdata};

use crate::write::kind_name;
use crate::{Rdata, RecordError, Rr};
use bytes::Bytes;
use dns_name::Name;
use number_text::{is_same, read_decimal_u16, read_decimal_u32, read_hex, read_ipv4, read_ipv6};
use std::alloc::{AllocError, Global};

/// The type that the text names: by its name, or by `TYPE` and its number where it has none. `None` exactly where it is
/// the written form of no type. (RFC 3597 5)
#[tactic(auto, using(crate::proofs::KindTexts::kind_exact))]
pub fn read_kind(text: &[u8]) -> Option<u16>
    ensures value { result ≡ kind_read text.now }
    ensures exact { IsReadFrom kind_text (2 ^ 16) text.now result }
{
    kind_of_text(text)
}

#[tactic(auto, unfolding(crate::specs::ReadRecord::kind_read))]
fn kind_of_text(text: &[u8]) -> Option<u16>
    ensures { result ≡ kind_read text.now }
{
    match named_kind(text) {
        Some(kind) => Some(kind),
        None => numbered_kind(text),
    }
}

const NAMED: [u16; 13] = [1, 2, 5, 6, 12, 13, 15, 16, 28, 33, 41, 47, 255];

// The type that has this name.
fn named_kind(text: &[u8]) -> Option<u16>
    ensures { result ≡ find (is_name_of text.now) named_kinds }
{
    NAMED.iter().copied().find(|kind| is_name_of(text, *kind))
}

fn is_name_of(text: &[u8], kind: u16) -> bool
    ensures { result ≡ is_name_of text.now kind }
{
    match kind_name(kind) {
        Some(name) => is_same(name, text),
        None => false,
    }
}

// The type without a name whose number follows `TYPE`.
#[tactic(auto, unfolding(crate::specs::ReadRecord::numbered_kind))]
fn numbered_kind(text: &[u8]) -> Option<u16>
    ensures { result ≡ numbered_kind text.now }
{
    let number = read_decimal_u16(text.strip_prefix(b"TYPE")?)?;
    if kind_name(number).is_some() {
        None
    } else {
        Some(number)
    }
}

// The name that a token spells: a token has no space.
fn read_name(text: &str) -> Option<Name>
    ensures { result ≡ name_read text.now }
{
    if has_space(text.as_bytes()) {
        return None;
    }
    Name::parse_text(text).ok()
}

fn has_space(text: &[u8]) -> bool
    ensures { result ≡ list_any (λ b. b == 32) text.now }
{
    text.iter().any(|b| *b == b' ')
}

// The word before the first space, and what follows the space.
fn cut_word(text: &str) -> Option<(&str, &str)>
    ensures { option_map (λ parts. (parts.0.now, parts.1.now)) result ≡ cut_of 32 text.now }
{
    text.split_once(' ')
}

// Priority, weight, port and target.
#[tactic(auto, unfolding(crate::specs::ReadRecord::srv_read))]
fn read_srv(text: &str) -> Option<Rdata>
    ensures { result ≡ srv_read text.now }
{
    let (priority, rest) = cut_word(text)?;
    let (weight, rest) = cut_word(rest)?;
    let (port, target) = cut_word(rest)?;
    let priority = read_decimal_u16(priority.as_bytes())?;
    let weight = read_decimal_u16(weight.as_bytes())?;
    let port = read_decimal_u16(port.as_bytes())?;
    let target = read_name(target)?;
    Some(Rdata::Srv {
        priority,
        weight,
        port,
        target,
    })
}

fn read_bytes(alloc: Global, text: &str) -> Result<Option<Bytes>, AllocError>
    ensures { IfOk result (λ found. found ≡ hex_of text.now) }
{
    match read_hex(alloc, text.as_bytes())? {
        Some(bytes) => Ok(Some(Bytes::from_vec(bytes)?)),
        None => Ok(None),
    }
}

// The next name and the bitmap.
#[tactic(auto, unfolding(crate::specs::ReadRecord::nsec_read, crate::specs::Records::is_rdata))]
fn read_nsec(alloc: Global, text: &str) -> Result<Option<Rdata>, AllocError>
    ensures value { IfOk result (λ found. found ≡ nsec_read text.now) }
    ensures valid { IfOk result (λ found. IfSome found (λ rdata. IsTrue (is_rdata rdata))) }
{
    let Some((next, bitmap)) = cut_word(text) else {
        return Ok(None);
    };
    let Some(next) = read_name(next) else {
        return Ok(None);
    };
    match read_bytes(alloc, bitmap)? {
        Some(bitmap) => Ok(Some(Rdata::Nsec { next, bitmap })),
        None => Ok(None),
    }
}

// Bytes of a type without a variant of its own.
#[tactic(auto, unfolding(crate::specs::ReadRecord::raw_read))]
fn read_raw(alloc: Global, kind: u16, text: &str) -> Result<Option<Rdata>, AllocError>
    ensures value { IfOk result (λ found. found ≡ raw_read kind text.now) }
    ensures valid { IfOk result (λ found. IfSome found (λ rdata. IsTrue (is_rdata rdata))) }
{
    let Some(bytes) = read_bytes(alloc, text)? else {
        return Ok(None);
    };
    let rdata = Rdata::Raw { kind, bytes };
    if rdata.is_valid() {
        Ok(Some(rdata))
    } else {
        Ok(None)
    }
}

#[tactic(auto, unfolding(crate::specs::ReadRecord::rdata_read, crate::specs::ReadRecord::srv_read, crate::specs::Records::is_rdata))]
fn read_rdata(alloc: Global, kind: u16, text: &str) -> Result<Option<Rdata>, AllocError>
    ensures value { IfOk result (λ found. found ≡ rdata_read kind text.now) }
    ensures valid { IfOk result (λ found. IfSome found (λ rdata. IsTrue (is_rdata rdata))) }
{
    match kind {
        1 => Ok(read_ipv4(text.as_bytes()).map(Rdata::A)),
        28 => Ok(read_ipv6(text.as_bytes()).map(Rdata::Aaaa)),
        12 => Ok(read_name(text).map(Rdata::Ptr)),
        5 => Ok(read_name(text).map(Rdata::Cname)),
        33 => Ok(read_srv(text)),
        16 => Ok(read_bytes(alloc, text)?.map(Rdata::Txt)),
        47 => Ok(read_nsec(alloc, text)?),
        _ => Ok(read_raw(alloc, kind, text)?),
    }
}

fn read_flush(text: &str) -> Option<bool>
    ensures { result ≡ flush_read text.now }
{
    match text {
        "flush" => Some(true),
        "-" => Some(false),
        _ => None,
    }
}

// What stands before the data of a record, and the text of the data.
#[derive(Drop)]
struct Head<'a> {
    owner: Name,
    ttl: u32,
    flush: bool,
    kind: u16,
    data_text: &'a str,
}

#[tactic(auto, unfolding(crate::specs::ReadRecord::head_read))]
fn read_head(text: &str) -> Option<Head<'_>>
    ensures { option_map (λ head. (head.owner, head.ttl, head.flush, head.kind, head.data_text.now)) result ≡ head_read text.now }
{
    let (owner, rest) = cut_word(text)?;
    let (ttl, rest) = cut_word(rest)?;
    let (flush, rest) = cut_word(rest)?;
    let (kind, data_text) = cut_word(rest)?;
    let owner = read_name(owner)?;
    let ttl = read_decimal_u32(ttl.as_bytes())?;
    let flush = read_flush(flush)?;
    let kind = read_kind(kind.as_bytes())?;
    Some(Head {
        owner,
        ttl,
        flush,
        kind,
        data_text,
    })
}

#[tactic(auto, unfolding(crate::specs::ReadRecord::record_read))]
fn read_record(alloc: Global, text: &str) -> Result<Option<Rr>, AllocError>
    ensures value { IfOk result (λ found. found ≡ record_read text.now) }
    ensures valid { IfOk result (λ found. IfSome found (λ rr. IsTrue (is_rdata rr.rdata))) }
{
    let Some(head) = read_head(text) else {
        return Ok(None);
    };
    let Some(rdata) = read_rdata(alloc, head.kind, head.data_text)? else {
        return Ok(None);
    };
    Ok(Some(Rr {
        owner: head.owner,
        flush: head.flush,
        ttl: head.ttl,
        rdata,
    }))
}

impl Rr {
    /// The record whose text this is: owner, TTL, `flush` or `-`, type and data, parted by one space each. Hexadecimal
    /// digits and IPv6 are read in either case, and a name's final dot may be missing; all else is as it is written.
    /// `BadText` exactly where the text is no record's, `NoMemory` only for want of memory.
    pub fn parse_text(alloc: Global, text: &str) -> Result<Rr, RecordError>
        ensures value { MatchResult result (λ rr. record_read text.now ≡ Some rr) (λ e. e ≡ RecordError.BadText → record_read text.now ≡ None) }
        ensures valid { IfOk result (λ rr. IsTrue (is_rdata rr.rdata)) }
    {
        read_record(alloc, text)?.ok_or(RecordError::BadText)
    }
}
