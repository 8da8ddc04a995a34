// The records that are multicast with an event.
ghost use Rattle.std.specs.Prelude.{◌≡◌, ◌++◌, false, IfOk, OnOk, IsTrue, filter, nat_lt};
ghost use Rattle.dns_record.specs.declared.record.Rr.{Rr};
ghost use Rattle.mdns_history.specs.Debts.{is_multicast};
ghost use Rattle.mdns_owing.specs.Marks.{HasMark};

use crate::marks::Marks;
use dns_message::Rrs;
use dns_record::Rr;
use mdns_pack::Ordered;
use std::alloc::{AllocError, Global};
use std::marker::Model;

/// The records that are multicast with an event, so that one of them is soon found. (RFC 6762 6)
#[derive(Drop)]
pub struct Multicasts {
    all: Rrs,
    // Those with a TTL above 0.
    found: Ordered,
    // Their marks.
    marks: Marks,
}

impl Model for Multicasts {
    ghost use Rattle.std.specs.Prelude.{List};
    ghost use Rattle.dns_record.specs.declared.record.Rr.{Rr};
    ghost use Rattle.mdns_owing.specs.Marks.{AreFound};

    ghost Value = { List Rr };

    ghost view = { λ a. a.all };

    ghost invariant = { λ a. AreFound a.all a.found a.marks.bits };
}

impl Multicasts {
    /// These records. Refused only for want of memory.
    pub fn of(alloc: Global, all: Rrs) -> Result<Multicasts, AllocError>
        ensures { IfOk result (λ multicasts. multicasts ≡ all) }
    {
        let mut lasting = Vec::new(alloc);
        put_lasting(&mut lasting, all.as_slice())?;
        let marks = Marks::of(&lasting);
        Ok(Multicasts {
            all,
            found: Ordered::of(lasting)?,
            marks,
        })
    }

    /// Whether a record is multicast with a TTL above 0.
    pub fn has(&self, rr: &Rr) -> bool
        ensures { result ≡ is_multicast rr.now self.now }
    {
        self.found.has(rr)
    }

    /// Whether no record with one of these marks is multicast with a TTL above 0.
    pub(crate) fn are_apart(&self, marks: Marks) -> bool
        ensures { IsTrue result → (rr : Rr) → HasMark marks.bits rr → is_multicast rr self.now ≡ false }
    {
        self.marks.are_apart(marks)
    }

    /// The records. It takes no memory.
    pub fn as_rrs(&self) -> &Rrs
        ensures { result.now ≡ self.now }
    {
        &self.all
    }

    /// The records, by value. It takes no memory.
    pub fn into_rrs(self) -> Rrs
        ensures { result ≡ self }
    {
        self.all
    }
}

// Puts copies of the records behind others that have a TTL above 0.
fn put_lasting(lasting: &mut Vec<Rr>, all: &[Rr]) -> Result<(), AllocError>
    ensures { OnOk result (lasting.new.items ≡ lasting.old.items ++ filter (λ rr. nat_lt 0 rr.ttl) all.now) }
{
    for rr in all {
        if rr.ttl > 0 {
            lasting.push(rr.copy()?)?;
        }
    }
    Ok(())
}
