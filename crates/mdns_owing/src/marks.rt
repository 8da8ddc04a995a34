// Marks of records.
ghost use Rattle.std.specs.Prelude.{◌≡◌, IsTrue};
ghost use Rattle.std.specs.List.{All};
ghost use Rattle.dns_record.specs.declared.record.Rr.{Rr};
ghost use Rattle.mdns_owing.specs.Marks.{mark_of, HasMark};

use crate::owed::Owed;
use dns_record::Rr;

/// A set of marks. Each record has one of 63, by its type and the length of its owner, which are soon told: records that are the same have
/// one mark. So where two sets have no mark in common, no record of one is the same as one of the other.
#[derive(Clone, Copy, Drop)]
pub struct Marks {
    pub bits: u64,
}

impl Marks {
    /// The marks of records.
    pub fn of(rrs: &[Rr]) -> Marks
        ensures { All (HasMark result.bits) rrs.now }
    {
        let mut marks = Marks { bits: 0 };
        for rr in rrs {
            marks = marks.with(rr);
        }
        marks
    }

    /// The marks of records that are owed.
    pub fn of_owed(all_owed: &[Owed]) -> Marks
        ensures { All (λ owed. HasMark result.bits owed.0) all_owed.now }
    {
        let mut marks = Marks { bits: 0 };
        for owed in all_owed {
            marks = marks.with(&owed.rr);
        }
        marks
    }

    // These marks and that of a record.
    fn with(self, rr: &Rr) -> Marks
        ensures has { HasMark result.bits rr.now }
        ensures kept { (other : Rr) → HasMark self.bits other → HasMark result.bits other }
    {
        Marks {
            bits: self.bits | 1 << mark_of(rr),
        }
    }

    /// Whether two sets have no mark in common.
    pub fn are_apart(self, others: Marks) -> bool
        ensures { IsTrue result → (rr : Rr) → HasMark self.bits rr → HasMark others.bits rr → ⊥ }
    {
        self.bits & others.bits == 0
    }
}

// The mark of a record.
fn mark_of(rr: &Rr) -> usize
    ensures { result ≡ mark_of rr.now }
{
    usize::from(rr.rdata.kind() % 32) + rr.owner.wire_len() % 32
}
