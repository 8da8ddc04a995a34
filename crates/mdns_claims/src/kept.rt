// Which records stay own behind a plan, and which were own before it.
ghost use Rattle.std.specs.Prelude.{[], ◌&&◌, ◌≡◌};
ghost use Rattle.std.specs.List.{list_all, list_any};
ghost use Rattle.std.specs.Option.{option_map, option_map_or};
ghost use Rattle.dns_record.specs.Records.{same};
ghost use Rattle.mdns_claimants.specs.Bits.{bit_of};
ghost use Rattle.mdns_claims.specs.Later.{groups_behind, later_from, later_of, shown_all, shown_of};
ghost use Rattle.mdns_claims.specs.Moved.{is_kept};
ghost use Rattle.mdns_claims.specs.Seen.{means_in};
ghost use Rattle.mdns_claimants.specs.Owned.{claimed, own_in};

use crate::behind::Behind;
use crate::later::begun;
use dns_name::Name;
use dns_record::Rr;
use mdns_claimants::Claimant;
use mdns_claimants::ours::{has_claimed, is_own};
use mdns_claimants::owners::bit_of;
use mdns_probe::Claim;

impl Behind<'_> {
    /// Whether each record of a claim that has a name stays own behind the plan, if the claim is sure.
    pub(crate) fn stay(&self, claim: &Claim, sure: bool, name: &Name) -> bool
        ensures { result ≡ list_all (is_kept name.now (own_in (groups_behind self.now))) (claimed sure claim.now) }
    {
        !sure
            || (self.all_stay(claim.unique.as_slice(), name)
                && self.all_stay(claim.shared.as_slice(), name))
    }

    /// Whether each record of a claim that has a name was own before the plan, if the claim is sure.
    pub(crate) fn were(&self, claim: &Claim, sure: bool, name: &Name) -> bool
        ensures { result ≡ list_all (is_kept name.now (own_in self.now.groups.now)) (claimed sure claim.now) }
    {
        !sure
            || (self.all_were(claim.unique.as_slice(), name)
                && self.all_were(claim.shared.as_slice(), name))
    }

    fn all_stay(&self, rrs: &[Rr], name: &Name) -> bool
        ensures { result ≡ list_all (is_kept name.now (own_in (groups_behind self.now))) rrs.now }
    {
        rrs.iter()
            .all(|rr| !rr.owner.folded_eq(name) || self.is_own_behind(rr))
    }

    fn all_were(&self, rrs: &[Rr], name: &Name) -> bool
        ensures { result ≡ list_all (is_kept name.now (own_in self.now.groups.now)) rrs.now }
    {
        rrs.iter()
            .all(|rr| !rr.owner.folded_eq(name) || is_own(self.groups, rr))
    }

    // Whether a record is own behind the plan.
    fn is_own_behind(&self, rr: &Rr) -> bool
        ensures { result ≡ list_any (same rr.now) (own_in (groups_behind self.now)) }
    {
        if self.is_own_later(rr) {
            return true;
        }
        match begun(self.deed) {
            Some(one) => has_claimed(one.claim(), one.claim().sure, rr),
            None => false,
        }
    }

    // Whether a record is own of the groups that are there, behind the plan.
    fn is_own_later(&self, rr: &Rr) -> bool
        ensures { result ≡ list_any (same rr.now) (own_in (later_from (means_in self.now.means) self.now.deed.now 0 self.now.groups.now)) }
    {
        let bit = bit_of(&rr.owner);
        let groups = self.groups;
        for (place, one) in groups.iter().enumerate() {
            if self.has_later(place, one, rr, bit) {
                return true;
            }
        }
        false
    }

    // Whether the group in a place is sure behind the plan and has a record, whose owner's bit is given.
    fn has_later(&self, place: usize, one: &Claimant, rr: &Rr, bit: u64) -> bool
        requires { bit ≡ bit_of rr.now.owner }
        ensures { result ≡ list_any (same rr.now) (option_map_or shown_all (option_map shown_of (later_of (means_in self.now.means) self.now.deed.now place one.now)) []) }
    {
        if !self.may_have(one, bit) {
            return false;
        }
        match self.means.later(self.deed, place, one) {
            Some(later) => has_claimed(later.claim, later.sure, rr),
            None => false,
        }
    }
}
