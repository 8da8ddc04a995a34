// The goodbyes of groups that end. (RFC 6762 10.1)
ghost use Rattle.std.specs.Prelude.{IfOk, OnOk, [], ◌∷◌, map, ◌++◌, ◌≡◌};
ghost use Rattle.std.specs.List.{list_any};
ghost use Rattle.lists.specs.Lists.{ordered};
ghost use Rattle.dns_record.specs.Records.{record_cmp, same};
ghost use Rattle.mdns_claimants.specs.Bits.{bit_of};
ghost use Rattle.mdns_claims.specs.Behind.{ends_by};
ghost use Rattle.mdns_claims.specs.Owned.{own_in};
ghost use Rattle.mdns_claims.specs.Planned.{going_on};
ghost use Rattle.mdns_happened.specs.Told.{told_by};
ghost use Rattle.mdns_history.specs.Sending.{taken_back};
ghost use Rattle.mdns_responding.specs.Announced.{ended_in, gone_in, goodbyes_told, records_in};

use crate::announcing::send_to_all;
use crate::responder::Responder;
use dns_message::Rrs;
use dns_record::{Rr, put_copies};
use mdns_claimants::ours::has_record;
use mdns_claimants::owners::bit_of;
use mdns_claims::{Claimant, ends};
use mdns_history::Sends;
use mdns_pack::{in_order, pack_plain};
use std::alloc::AllocError;

impl Responder<'_> {
    /// Puts the goodbyes of the sure groups that end with their operations behind what else is sent, without the records that another
    /// sure group still has. Refused only for want of memory.
    pub fn put_goodbyes(&self, sent: &mut Sends) -> Result<(), AllocError>
        ensures { OnOk result (sent.new ≡ sent.old ++ goodbyes_told (told_by self.now.behind.now.means.happened.now) self.now.behind.now.groups.now) }
    {
        let gone = self.gone()?;
        send_to_all(sent, pack_plain(self.alloc, gone.as_slice())?)
    }

    // The records that are taken back, with TTL 0, in record order. Refused only for want of memory.
    fn gone(&self) -> Result<Rrs, AllocError>
        ensures { IfOk result (λ gone. gone ≡ map taken_back (gone_in (told_by self.now.behind.now.means.happened.now) self.now.behind.now.groups.now)) }
    {
        let mut gone = Rrs::new(self.alloc);
        for mut rr in self.ended()?.into_vec() {
            if !self.is_still_own(&rr) {
                rr.ttl = 0;
                gone.push(rr)?;
            }
        }
        Ok(gone)
    }

    // The records of the sure groups that end, in record order. Refused only for want of memory.
    fn ended(&self) -> Result<Rrs, AllocError>
        ensures { IfOk result (λ rrs. rrs ≡ ordered record_cmp (records_in (ended_in (told_by self.now.behind.now.means.happened.now) self.now.behind.now.groups.now))) }
    {
        let mut records = Vec::new(self.alloc);
        let groups = self.behind.groups;
        for one in groups {
            if one.claim().sure && self.has_ended(one) {
                put_copies(&mut records, one.claim().unique.as_slice())?;
                put_copies(&mut records, one.claim().shared.as_slice())?;
            }
        }
        in_order(records)
    }

    // Whether a sure group that goes on has a record.
    fn is_still_own(&self, rr: &Rr) -> bool
        ensures { result ≡ list_any (same rr.now) (own_in (going_on (told_by self.now.behind.now.means.happened.now) [] self.now.behind.now.groups.now)) }
    {
        let bit = bit_of(&rr.owner);
        let groups = self.behind.groups;
        for one in groups {
            if self.is_of(one, rr, bit) {
                return true;
            }
        }
        false
    }

    // Whether a group is sure, goes on and has a record, whose owner's bit is given.
    fn is_of(&self, one: &Claimant, rr: &Rr, bit: u64) -> bool
        requires { bit ≡ bit_of rr.now.owner }
        ensures { result ≡ list_any (same rr.now) (own_in (going_on (told_by self.now.behind.now.means.happened.now) [] (one.now ∷ []))) }
    {
        !self.has_ended(one) && has_record(one, rr, bit)
    }

    // Whether a group ends with its operation.
    fn has_ended(&self, one: &Claimant) -> bool
        ensures { result ≡ ends_by (told_by self.now.behind.now.means.happened.now) [] one.now.group }
    {
        let behind = self.behind;
        let happened = behind.means.happened;
        ends(happened, &[], one.naming())
    }
}
