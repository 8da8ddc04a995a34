// Records, their data, and questions.
ghost use Rattle.std.specs.Prelude.{◌*◌, ◌<◌, ◌^◌, ◌≡◌, IfOk};
ghost use Rattle.dns_record.specs.Records.{kind_of};

use crate::kinds;
use bytes::Bytes;
use dns_name::Name;
use std::alloc::{AllocError, Global};

/// The data of a record, by its type.
///
/// A `Raw` in which the type has a variant of its own, is OPT, or has another form than `bytes` (NS, MX and SOA have
/// one) is the data of no record: `is_rdata` of the specifications tells. Whoever reads data owes this.
#[derive(Drop)]
pub enum Rdata {
    /// A host's address of IPv4, its first byte the highest. (RFC 1035 3.4.1)
    A(u32),
    /// A host's address of IPv6, its first byte the highest. (RFC 3596 2.2)
    Aaaa(u128),
    /// The name that another name points to. (RFC 1035 3.3.12)
    Ptr(Name),
    /// The name of which another is an alias. (RFC 1035 3.3.1)
    Cname(Name),
    /// Where a service is reached. (RFC 2782)
    Srv {
        priority: u16,
        weight: u16,
        port: u16,
        target: Name,
    },
    /// Text strings, each behind its length; the bytes may be any. (RFC 1035 3.3.14)
    Txt(Bytes),
    /// The types that a name has, as a bitmap. (RFC 6762 6.1, RFC 4034 4.1)
    Nsec {
        next: Name,
        bitmap: Bytes,
    },
    /// Data of any other type as they stand in a message in which no name is compressed.
    Raw {
        kind: u16,
        bytes: Bytes,
    },
}

impl Rdata {
    /// The number of the type. (RFC 1035 3.2.2)
    pub fn kind(&self) -> u16
        ensures { result ≡ kind_of self.now }
    {
        match self {
            Rdata::A(_) => kinds::A,
            Rdata::Aaaa(_) => kinds::AAAA,
            Rdata::Ptr(_) => kinds::PTR,
            Rdata::Cname(_) => kinds::CNAME,
            Rdata::Srv { .. } => kinds::SRV,
            Rdata::Txt(_) => kinds::TXT,
            Rdata::Nsec { .. } => kinds::NSEC,
            Rdata::Raw { kind, .. } => *kind,
        }
    }

    /// Equal data. Refused only for want of memory.
    pub fn copy(&self) -> Result<Rdata, AllocError>
        ensures { IfOk result (λ copy. copy ≡ self.now) }
    {
        Ok(match self {
            Rdata::A(address) => Rdata::A(*address),
            Rdata::Aaaa(address) => Rdata::Aaaa(*address),
            Rdata::Ptr(name) => Rdata::Ptr(name.copy()),
            Rdata::Cname(name) => Rdata::Cname(name.copy()),
            Rdata::Srv {
                priority,
                weight,
                port,
                target,
            } => Rdata::Srv {
                priority: *priority,
                weight: *weight,
                port: *port,
                target: target.copy(),
            },
            Rdata::Txt(bytes) => Rdata::Txt(bytes.clone()?),
            Rdata::Nsec { next, bitmap } => Rdata::Nsec {
                next: next.copy(),
                bitmap: bitmap.clone()?,
            },
            Rdata::Raw { kind, bytes } => Rdata::Raw {
                kind: *kind,
                bytes: bytes.clone()?,
            },
        })
    }
}

/// A resource record of class IN. (RFC 1035 3.2.1)
#[derive(Drop)]
pub struct Rr {
    /// The name that has the record.
    pub owner: Name,
    /// The cache-flush bit: the record's set is complete. (RFC 6762 10.2)
    pub flush: bool,
    /// How many seconds the record may be kept; 0 takes it back. (RFC 6762 10.1)
    pub ttl: u32,
    /// Type and data.
    pub rdata: Rdata,
}

impl Rr {
    /// An equal record. Refused only for want of memory.
    pub fn copy(&self) -> Result<Rr, AllocError>
        ensures { IfOk result (λ copy. copy ≡ self.now) }
    {
        Ok(Rr {
            owner: self.owner.copy(),
            flush: self.flush,
            ttl: self.ttl,
            rdata: self.rdata.copy()?,
        })
    }

    /// The TTL in milliseconds: how long the record lives from when it is heard. (RFC 6762 10)
    pub fn ttl_ms(&self) -> u64
        ensures value { result ≡ 1000 * self.now.ttl }
        ensures bound { result < 2 ^ 42 }
    {
        1000 * u64::from(self.ttl)
    }
}

/// A question as it stands in a message. (RFC 1035 4.1.2)
#[derive(Drop)]
pub struct Question {
    pub name: Name,
    /// The number of the type that is asked for; 255 asks for any.
    pub kind: u16,
    /// Whether a unicast answer is asked for. (RFC 6762 5.4)
    pub unicast: bool,
}

/// What a question asks for: a name and a type.
#[derive(Drop)]
pub struct Key {
    pub name: Name,
    /// The number of the type that is asked for; 255 asks for any.
    pub kind: u16,
}

// The question for any records of the root. It stands in the places of a list that are not in use.
impl Default for Key {
    fn default() -> Key {
        Key {
            name: Name::root(),
            kind: kinds::ANY,
        }
    }
}

impl Key {
    /// An equal key.
    pub fn copy(&self) -> Key
        ensures { result ≡ self.now }
    {
        Key {
            name: self.name.copy(),
            kind: self.kind,
        }
    }
}
