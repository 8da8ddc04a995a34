// Names, data and records.
ghost use Rattle.std.specs.Prelude.{◌≡◌, ◌↔◌, IsTrue};

use crate::Same;
use bytes::Bytes;
use dns_name::Name;
use dns_record::{Key, Question, Rdata, Rr};

impl Same for Name {
    fn same_as(&self, other: &Name) -> bool {
        self.exact_eq(other)
    }
}

impl Same for Rdata {
    fn same_as(&self, other: &Rdata) -> bool {
        match (self, other) {
            (Rdata::A(ours), Rdata::A(theirs)) => ours == theirs,
            (Rdata::Aaaa(ours), Rdata::Aaaa(theirs)) => ours == theirs,
            (Rdata::Ptr(ours), Rdata::Ptr(theirs)) => ours.same_as(theirs),
            (Rdata::Cname(ours), Rdata::Cname(theirs)) => ours.same_as(theirs),
            (Rdata::Txt(ours), Rdata::Txt(theirs)) => ours.as_slice() == theirs.as_slice(),
            (
                Rdata::Srv {
                    priority,
                    weight,
                    port,
                    target,
                },
                _,
            ) => is_srv(other, *priority, *weight, *port, target),
            (Rdata::Nsec { next, bitmap }, _) => is_nsec(other, next, bitmap),
            (Rdata::Raw { kind, bytes }, _) => is_raw(other, *kind, bytes),
            _ => false,
        }
    }
}

// Whether these are the data of a service that is reached so.
fn is_srv(data: &Rdata, priority: u16, weight: u16, port: u16, target: &Name) -> bool
    ensures { IsTrue result ↔ (Rdata.Srv priority weight port target.now ≡ data.now) }
{
    match data {
        Rdata::Srv {
            priority: its_priority,
            weight: its_weight,
            port: its_port,
            target: its_target,
        } => {
            priority == *its_priority
                && weight == *its_weight
                && port == *its_port
                && target.same_as(its_target)
        }
        _ => false,
    }
}

// Whether these are the data of a name that has these types.
fn is_nsec(data: &Rdata, next: &Name, bitmap: &Bytes) -> bool
    ensures { IsTrue result ↔ (Rdata.Nsec next.now bitmap.now ≡ data.now) }
{
    match data {
        Rdata::Nsec {
            next: its_next,
            bitmap: its_bitmap,
        } => next.same_as(its_next) && bitmap.as_slice() == its_bitmap.as_slice(),
        _ => false,
    }
}

// Whether these are these bytes of another type.
fn is_raw(data: &Rdata, kind: u16, bytes: &Bytes) -> bool
    ensures { IsTrue result ↔ (Rdata.Raw kind bytes.now ≡ data.now) }
{
    match data {
        Rdata::Raw {
            kind: its_kind,
            bytes: its_bytes,
        } => kind == *its_kind && bytes.as_slice() == its_bytes.as_slice(),
        _ => false,
    }
}

impl Same for Rr {
    fn same_as(&self, other: &Rr) -> bool {
        self.owner.same_as(&other.owner)
            && self.flush == other.flush
            && self.ttl == other.ttl
            && self.rdata.same_as(&other.rdata)
    }
}

impl Same for Question {
    fn same_as(&self, other: &Question) -> bool {
        self.name.same_as(&other.name) && self.kind == other.kind && self.unicast == other.unicast
    }
}

impl Same for Key {
    fn same_as(&self, other: &Key) -> bool {
        self.name.same_as(&other.name) && self.kind == other.kind
    }
}
