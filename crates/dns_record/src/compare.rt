// When two records are the same, their order, and which records a question asks for.
ghost use Rattle.std.specs.Prelude.{◌≡◌, ◌↔◌, [], ◌++◌, ◌≤◌, length, IsTrue};
ghost use Rattle.std.specs.Int.{to_be_bytes, w32};
ghost use Rattle.std.specs.List.{list_any};
ghost use Rattle.std.specs.Ordering.{nat_cmp};
ghost use Rattle.std.specs.Str.{bytes_eq};
ghost use Rattle.std.specs.Cmp.Lexicographic.{slice_cmp};
ghost use Rattle.dns_name.specs.Names.{wire_of};
ghost use Rattle.dns_record.specs.Records.{data_of, data_eq, identity_of, same, record_cmp, rdata_cmp, matches};

use crate::{Key, Rdata, Rr, kinds};
use arrayvec::ArrayVec;
use dns_name::Name;
use std::cmp::Ordering;

// Data as they stand in a message in which no name is compressed: fixed bytes, a name in wire form, other bytes.
#[derive(Drop)]
struct Parts<'a> {
    fixed: ArrayVec<u8, 16>,
    name: &'a [u8],
    rest: &'a [u8],
}

impl Rdata {
    fn parts(&self) -> Parts<'_>
        ensures { result.fixed.items ++ result.name.now ++ result.rest.now ≡ data_of self.now }
    {
        match self {
            Rdata::A(address) => plain_parts(&address.to_be_bytes(), &[]),
            Rdata::Aaaa(address) => plain_parts(&address.to_be_bytes(), &[]),
            Rdata::Ptr(name) | Rdata::Cname(name) => named_parts(&[], name, &[]),
            Rdata::Srv {
                priority,
                weight,
                port,
                target,
            } => {
                let [a, b] = priority.to_be_bytes();
                let [c, d] = weight.to_be_bytes();
                let [e, f] = port.to_be_bytes();
                named_parts(&[a, b, c, d, e, f], target, &[])
            }
            Rdata::Nsec { next, bitmap } => named_parts(&[], next, bitmap.as_slice()),
            Rdata::Txt(bytes) | Rdata::Raw { bytes, .. } => plain_parts(&[], bytes.as_slice()),
        }
    }

    // The order of the bytes of data. The most common pairs go without their parts.
    fn data_cmp(&self, other: &Rdata) -> Ordering
        ensures { result ≡ slice_cmp nat_cmp (data_of self.now) (data_of other.now) }
    {
        match (self, other) {
            (Rdata::A(left), Rdata::A(right)) => address_cmp(*left, *right),
            (Rdata::Ptr(left), Rdata::Ptr(right)) => left.as_wire().cmp(right.as_wire()),
            (Rdata::Txt(left), Rdata::Txt(right)) => left.as_slice().cmp(right.as_slice()),
            _ => order_of(&self.parts(), &other.parts()),
        }
    }
}

// Addresses go by their bytes, which is by their numbers.
#[tactic(auto, using(crate::proofs::AddressOrder::address_order))]
fn address_cmp(left: u32, right: u32) -> Ordering
    ensures { result ≡ slice_cmp nat_cmp (to_be_bytes w32 left) (to_be_bytes w32 right) }
{
    left.cmp(&right)
}

fn order_of(left: &Parts<'_>, right: &Parts<'_>) -> Ordering
    ensures { result ≡ slice_cmp nat_cmp (left.now.fixed.items ++ left.now.name.now ++ left.now.rest.now)
        (right.now.fixed.items ++ right.now.name.now ++ right.now.rest.now) }
{
    let left = left
        .fixed
        .as_slice()
        .iter()
        .chain(left.name.iter())
        .chain(left.rest.iter());
    let right = right
        .fixed
        .as_slice()
        .iter()
        .chain(right.name.iter())
        .chain(right.rest.iter());
    left.cmp(right)
}

// The parts of data with a name in them.
fn named_parts<'a>(front: &[u8], name: &'a Name, rest: &'a [u8]) -> Parts<'a>
    requires { length front.now ≤ 16 }
    ensures fixed { result.fixed.items ≡ front.now }
    ensures name { result.name.now ≡ wire_of name.now }
    ensures rest { result.rest.now ≡ rest.now }
{
    Parts {
        fixed: fixed(front),
        name: name.as_wire(),
        rest,
    }
}

// The parts of data without a name.
fn plain_parts<'a>(front: &[u8], rest: &'a [u8]) -> Parts<'a>
    requires { length front.now ≤ 16 }
    ensures fixed { result.fixed.items ≡ front.now }
    ensures name { result.name.now ≡ [] }
    ensures rest { result.rest.now ≡ rest.now }
{
    Parts {
        fixed: fixed(front),
        name: &[],
        rest,
    }
}

// So many fixed bytes.
fn fixed(bytes: &[u8]) -> ArrayVec<u8, 16>
    requires { length bytes.now ≤ 16 }
    ensures { result.items ≡ bytes.now }
{
    let mut fixed = ArrayVec::new();
    let _ = fixed.try_extend_from_slice(bytes);
    fixed
}

impl Rdata {
    // Whether type and data agree.
    #[tactic(auto, unfolding(crate::specs::Records::data_eq))]
    fn data_eq(&self, other: &Rdata) -> bool
        ensures { result ≡ data_eq self.now other.now }
    {
        self.kind() == other.kind() && self.has_same_bytes(other)
    }

    // Whether the bytes of data agree. The most common pairs go without their order.
    #[tactic(auto, using(crate::proofs::Same::equal_bytes))]
    fn has_same_bytes(&self, other: &Rdata) -> bool
        ensures { result ≡ bytes_eq (data_of self.now) (data_of other.now) }
    {
        match (self, other) {
            (Rdata::Ptr(left), Rdata::Ptr(right)) => left.as_wire() == right.as_wire(),
            (Rdata::Txt(left), Rdata::Txt(right)) => left.as_slice() == right.as_slice(),
            _ => self.data_cmp(other).is_eq(),
        }
    }
}

impl Rr {
    /// Whether the records are the same: folded owner, type and data in wire form agree. The flush bit and the TTL
    /// don't count.
    pub fn same(&self, other: &Rr) -> bool
        ensures value { result ≡ same self.now other.now }
        ensures tells { IsTrue result ↔ (identity_of self.now ≡ identity_of other.now) }
    {
        // Records that are compared have one owner mostly, and other data.
        self.rdata.data_eq(&other.rdata) && self.owner.folded_eq(&other.owner)
    }
}

/// Record order: by folded owner in wire form, then by the number of the type, then by the bytes of the data. Equal
/// exactly where the records are the same.
pub fn record_cmp(left: &Rr, right: &Rr) -> Ordering
    ensures value { result ≡ record_cmp left.now right.now }
    ensures equal { (result ≡ Ordering.Equal) ↔ (identity_of left.now ≡ identity_of right.now) }
{
    match left.owner.folded_cmp(&right.owner) {
        Ordering::Equal => rdata_cmp(&left.rdata, &right.rdata),
        unequal => unequal,
    }
}

/// The order of data: by the number of the type, then by the bytes. (RFC 6762 8.2)
#[tactic(auto, unfolding(crate::specs::Records::rdata_cmp))]
pub fn rdata_cmp(left: &Rdata, right: &Rdata) -> Ordering
    ensures { result ≡ rdata_cmp left.now right.now }
{
    match left.kind().cmp(&right.kind()) {
        Ordering::Equal => left.data_cmp(right),
        unequal => unequal,
    }
}

/// Whether the question asks for the record: the folded names agree, and the type agrees or any type is asked for.
/// (RFC 1035 3.2.3)
#[tactic(auto, unfolding(crate::specs::Records::matches))]
pub fn matches(question: &Key, rr: &Rr) -> bool
    ensures { result ≡ matches question.now rr.now }
{
    question.name.folded_eq(&rr.owner)
        && (question.kind == kinds::ANY || question.kind == rr.rdata.kind())
}

/// Whether one of the questions asks for the record.
pub fn matches_any(keys: &[Key], rr: &Rr) -> bool
    ensures { result ≡ list_any (λ key. matches key rr.now) keys.now }
{
    keys.iter().any(|key| matches(key, rr))
}
