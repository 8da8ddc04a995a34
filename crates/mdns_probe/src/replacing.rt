// Other records of a claim.
ghost use Rattle.std.specs.Prelude.{◌≡◌, ◌++◌};
ghost use Rattle.std.specs.List.{list_any, list_all};
ghost use Rattle.dns_record.specs.Records.{same};
ghost use Rattle.mdns_history.specs.Announcing.{same_records};
ghost use Rattle.mdns_probe.specs.Claiming.{replaced};

use crate::claim::Claim;
use dns_message::Rrs;
use dns_record::Rr;
use mdns_base::Moment;

impl Claim {
    /// Gives the claim other records: a sure one is announced anew where they differ. (RFC 6762 8.4)
    pub fn replace(&mut self, now: Moment, unique: Rrs, shared: Rrs)
        ensures { self.new ≡ replaced now unique shared self.old }
    {
        let renewed = self.replaced(now, unique, shared);
        *self = renewed;
    }

    /// The claim with other records: a sure one is announced anew where they differ. It takes no memory. (RFC 6762 8.4)
    pub fn replaced(&self, now: Moment, unique: Rrs, shared: Rrs) -> Claim
        ensures { result ≡ replaced now unique shared self.now }
    {
        let renewed = self.sure && !are_same(&unique, &shared, self);
        Claim {
            group: self.group,
            unique,
            shared,
            probes: self.probes,
            due: self.due,
            sure: self.sure,
            announced: if renewed { 0 } else { self.announced },
            next: if renewed { now.ms() } else { self.next },
        }
    }
}

// Whether records are the same as those of a claim.
#[tactic(auto, using(crate::proofs::Sames::both_ways))]
fn are_same(unique: &Rrs, shared: &Rrs, claim: &Claim) -> bool
    ensures { result ≡ same_records (unique.now ++ shared.now) (claim.now.unique ++ claim.now.shared) }
{
    all_among(unique, &claim.unique, &claim.shared)
        && all_among(shared, &claim.unique, &claim.shared)
        && all_among(&claim.unique, unique, shared)
        && all_among(&claim.shared, unique, shared)
}

// Whether each of some records is among others.
fn all_among(rrs: &Rrs, some: &Rrs, more: &Rrs) -> bool
    ensures { result ≡ list_all (λ rr. list_any (same rr) (some.now ++ more.now)) rrs.now }
{
    rrs.as_slice().iter().all(|rr| is_among(rr, some, more))
}

fn is_among(rr: &Rr, some: &Rrs, more: &Rrs) -> bool
    ensures { result ≡ list_any (same rr.now) (some.now ++ more.now) }
{
    has(some, rr) || has(more, rr)
}

fn has(rrs: &Rrs, rr: &Rr) -> bool
    ensures { result ≡ list_any (same rr.now) rrs.now }
{
    rrs.as_slice().iter().any(|other| rr.same(other))
}
