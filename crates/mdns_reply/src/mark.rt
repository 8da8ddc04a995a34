// Records as keys.
ghost use Rattle.std.specs.Prelude.{◌≡◌, fold};
ghost use Rattle.dns_record.specs.Records.{same, data_of, kind_of};
ghost use Rattle.mdns_reply.specs.Marks.{data_writes, each_byte, record_writes, same_is_equivalence, same_is_partial, same_writes};

use by_name::Place;
use dns_record::{Rdata, Rr};
use std::hash::{Hash, Hasher};
use std::marker::Model;

// A record that is kept, or one that is looked for.
#[derive(Drop)]
enum Side<'a> {
    Kept(Rr),
    Sought(&'a Rr),
}

/// A record as a key: the same records are equal.
#[derive(Drop)]
pub struct Mark<'a> {
    side: Side<'a>,
}

impl<'a> Model for Mark<'a> {
    ghost use Rattle.dns_record.specs.declared.record.Rr.{Rr};
    ghost use Rattle.mdns_reply.specs.Marks.{record_of};

    ghost Value = { Rr };

    ghost view = { λ m. record_of m.side };
}

impl<'a> Mark<'a> {
    /// The mark of a record that is looked for.
    pub fn sought(rr: &'a Rr) -> Mark<'a>
        ensures { result ≡ rr.now }
    {
        Mark {
            side: Side::Sought(rr),
        }
    }

    /// The mark of a record that is kept.
    pub fn kept(rr: Rr) -> Mark<'static>
        ensures { result ≡ rr }
    {
        Mark {
            side: Side::Kept(rr),
        }
    }

    /// The record.
    pub fn rr(&self) -> &Rr
        ensures { result.now ≡ self.now }
    {
        match &self.side {
            Side::Kept(rr) => rr,
            Side::Sought(rr) => rr,
        }
    }
}

impl PartialEq for Mark<'_> {
    ghost eq = { same };

    ghost laws = { same_is_partial };

    fn eq(&self, other: &Self) -> bool {
        self.rr().same(other.rr())
    }
}

impl Eq for Mark<'_> {
    ghost laws = { same_is_equivalence };
}

impl Hash for Mark<'_> {
    ghost hash_input = { record_writes };

    ghost respects_eq = { same_writes };

    #[tactic(auto, unfolding(crate::specs::Marks::record_writes))]
    fn hash<H: Hasher>(&self, state: &mut H) {
        let rr = self.rr();
        state.write(Place::new(&rr.owner, 0).owner());
        state.write_u16(rr.rdata.kind());
        write_data(&rr.rdata, state);
    }
}

// Writes data: those that stand in one piece as one, others byte by byte.
fn write_data<H: Hasher>(rdata: &Rdata, state: &mut H)
    ensures { state.new ≡ fold H.write state.old (data_writes (kind_of rdata.now) (data_of rdata.now)) }
{
    match rdata {
        Rdata::A(address) => state.write(&address.to_be_bytes()),
        Rdata::Aaaa(address) => state.write(&address.to_be_bytes()),
        Rdata::Ptr(name) | Rdata::Cname(name) => state.write(name.as_wire()),
        Rdata::Txt(bytes) => state.write(bytes.as_slice()),
        Rdata::Srv {
            priority,
            weight,
            port,
            target,
        } => {
            write_each(&priority.to_be_bytes(), state);
            write_each(&weight.to_be_bytes(), state);
            write_each(&port.to_be_bytes(), state);
            write_each(target.as_wire(), state);
        }
        Rdata::Nsec { next, bitmap } => {
            write_each(next.as_wire(), state);
            write_each(bitmap.as_slice(), state);
        }
        Rdata::Raw { kind, bytes } => write_raw(*kind, bytes.as_slice(), state),
    }
}

// The same of raw data.
fn write_raw<H: Hasher>(kind: u16, bytes: &[u8], state: &mut H)
    ensures { state.new ≡ fold H.write state.old (data_writes kind bytes.now) }
{
    if kind == 33 || kind == 47 {
        write_each(bytes, state);
    } else {
        state.write(bytes);
    }
}

// Writes bytes one at a time.
fn write_each<H: Hasher>(bytes: &[u8], state: &mut H)
    ensures { state.new ≡ fold H.write state.old (each_byte bytes.now) }
{
    for byte in bytes {
        state.write(&[*byte]);
    }
}
