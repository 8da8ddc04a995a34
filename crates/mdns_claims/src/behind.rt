// What a plan of claims leads to, read before it is carried out.
ghost use Rattle.std.specs.Prelude.{IfNone, IfOk, IfSome, IsTrue, List, OnOk, [], false, length, map, ℕ, ◌++◌, ◌<◌, ◌≡◌, Some, true};
ghost use Rattle.std.specs.Option.{option_map, option_map_or, option_to_list};
ghost use Rattle.dns_record.specs.declared.record.Rr.{Rr};
ghost use Rattle.mdns_asked.specs.Asked.{IsPut};
ghost use Rattle.mdns_timer.specs.Parts.{IsFirstDue, NoneDue};
ghost use Rattle.mdns_claimants.specs.Bits.{bit_of};
ghost use Rattle.mdns_claimants.specs.Due.{moment_of};
ghost use Rattle.mdns_claimants.specs.Owned.{AreWithin, is_among, is_ours, of_name, own_in, registered_answers};
ghost use Rattle.mdns_claims.specs.Seen.{means_in};
ghost use Rattle.mdns_probe.specs.Kept.{Kept};
ghost use Rattle.mdns_happened.specs.Registrations.{AreRegistered, IsRegistered, is_told};

use crate::doing::Means;
use crate::later::{begun, begun_answer, takes_none};
use crate::plan::Deed;
use dns_message::Rrs;
use dns_name::Name;
use mdns_asked::Asked;
use mdns_claimants::Claimant;
use mdns_claimants::answers::{is_of, registered_answer};
use mdns_claimants::names::put_claim_names;
use mdns_claimants::own::{put_claim, put_claimed};
use mdns_claimants::owners::bit_of;
use mdns_happened::Registered;
use mdns_probe::Naming;
use mdns_timer::Deadlines;
use sd_call::Answer;
use std::alloc::{AllocError, Global};

/// What a plan of claims leads to, read without changing anything: the groups before it with the moments that are kept of them, and the
/// deed. (RFC 6762 8 and 9)
#[derive(Drop)]
pub struct Behind<'a> {
    pub groups: &'a [Claimant],
    pub due: &'a Deadlines,
    pub means: Means<'a>,
    pub deed: &'a Deed,
    ghost timed: { due.now.moments ≡ map moment_of groups.now },
}

impl Behind<'_> {
    ghost use Rattle.mdns_claims.specs.Later.{IsNextTouched, TouchesNone, begun_by, groups_behind, later_from, later_of, shown_of, shown_own, takes_none};

    /// Puts the names behind others of which own records come or go, each once, case aside. Refused only for want of memory.
    pub fn put_names(&self, names: &mut Vec<Name>) -> Result<(), AllocError>
        ensures kept { OnOk result (AreWithin names.old.items names.new.items) }
        ensures changed { OnOk result ((name : List (List ℕ)) → is_among names.new.items name ≡ false → of_name name (own_in (groups_behind self.now)) ≡ of_name name (own_in self.now.groups.now)) }
    {
        self.put_touched_names(names)?;
        if let Some(one) = begun(self.deed) {
            put_claim_names(names, one.claim(), one.claim().sure)?;
        }
        Ok(())
    }

    /// Puts the own records of a name, as they are behind the plan, behind others. Refused only for want of memory.
    pub fn put_own(&self, rrs: &mut Rrs, name: &Name) -> Result<(), AllocError>
        ensures { OnOk result (rrs.new ≡ rrs.old ++ of_name name.now (own_in (groups_behind self.now))) }
    {
        self.put_later(rrs, name)?;
        if let Some(one) = begun(self.deed) {
            put_claimed(rrs, one.claim(), one.claim().sure, name)?;
        }
        Ok(())
    }

    /// Puts the own records that questions ask for, as they are behind the plan, behind those that they have, in one pass over all groups.
    /// Refused only for want of memory.
    pub fn put_asked(&self, asked: &mut Asked) -> Result<(), AllocError>
        ensures { OnOk result (IsPut (own_in (groups_behind self.now)) asked.old asked.new) }
    {
        self.put_later_asked(asked)?;
        if let Some(one) = begun(self.deed) {
            put_claim(asked, one.claim(), one.claim().sure)?;
        }
        Ok(())
    }

    /// The registrations whose answers change with the plan, each with the answer before it and behind it. One that begins had a
    /// conflict by this, as one that isn't there, and so has one that ends. Refused only for want of memory. (RFC 6763 4)
    pub fn registered(&self, alloc: Global) -> Result<Vec<Registered>, AllocError>
        ensures are { IfOk result (λ lines. AreRegistered (λ session op. registered_answers session op self.now.groups.now) (λ session op. registered_answers session op (groups_behind self.now)) lines.items) }
        ensures rest { IfOk result (λ lines. (session op : ℕ) → is_told lines.items session op ≡ false → registered_answers session op (groups_behind self.now) ≡ registered_answers session op self.now.groups.now) }
        ensures begun { IfOk result (λ lines. (one : Kept) → begun_by self.now.deed.now ≡ Some one → is_told lines.items one.group.session one.group.op ≡ true) }
    {
        let mut lines = self.touched_lines(alloc)?;
        if let Some(one) = begun(self.deed) {
            lines.push(self.line(one.naming()))?;
        }
        Ok(lines)
    }

    /// Whether the plan surely takes no record from those that are the daemon's to send, own ones and the NSEC records of sure
    /// names: it does nothing, time passes, or a group begins. Where groups end or change it may. (RFC 6762 6)
    pub fn keeps_own(&self) -> bool
        ensures told { result ≡ takes_none self.now.deed.now }
        ensures kept { IsTrue result → (rr : Rr) → is_ours self.now.groups.now rr ≡ true → is_ours (groups_behind self.now) rr ≡ true }
    {
        takes_none(self.deed)
    }

    /// The place of the first group, from the place `from` on, whose moment has come at that of the event; `None` exactly where there is none.
    /// Of the groups that are passed over nothing is due: a tick leaves them as they are.
    pub fn place_due(&self, from: usize) -> Option<usize>
        ensures none { IfNone result (NoneDue (map moment_of self.now.groups.now) self.now.means.moment from (length self.now.groups.now)) }
        ensures within { IfSome result (λ place. place < length self.now.groups.now) }
        ensures some { IfSome result (IsFirstDue (map moment_of self.now.groups.now) self.now.means.moment from) }
    {
        self.due.next_due(from, self.means.moment.ms())
    }

    /// The place of the first group, from a place on, that the plan may touch; it touches none of those that are passed over.
    pub(crate) fn place_touched(&self, from: usize) -> Option<usize>
        ensures none { IfNone result (TouchesNone (means_in self.now.means) self.now.deed.now self.now.groups.now from (length self.now.groups.now)) }
        ensures some { IfSome result (IsNextTouched (means_in self.now.means) self.now.deed.now self.now.groups.now from) }
    {
        match self.deed {
            Deed::Nothing | Deed::Begins(_) => None,
            Deed::Ticks => self.place_due(from),
            Deed::Ends | Deed::Changes(_) => {
                if from < self.groups.len() {
                    Some(from)
                } else {
                    None
                }
            }
        }
    }

    // Puts the names of own records that come or go with groups that are there.
    fn put_touched_names(&self, names: &mut Vec<Name>) -> Result<(), AllocError>
        ensures kept { OnOk result (AreWithin names.old.items names.new.items) }
        ensures changed { OnOk result ((name : List (List ℕ)) → is_among names.new.items name ≡ false → of_name name (own_in (later_from (means_in self.now.means) self.now.deed.now 0 self.now.groups.now)) ≡ of_name name (own_in self.now.groups.now)) }
    {
        let mut from = 0;
        while let Some(place) = self.place_touched(from) {
            self.put_group_names(names, place, &self.groups[place])?;
            from = place + 1;
        }
        Ok(())
    }

    // Puts the names of own records that come or go with a group.
    fn put_group_names(
        &self,
        names: &mut Vec<Name>,
        place: usize,
        one: &Claimant,
    ) -> Result<(), AllocError>
        ensures kept { OnOk result (AreWithin names.old.items names.new.items) }
        ensures changed { OnOk result ((name : List (List ℕ)) → is_among names.new.items name ≡ false → option_map_or (shown_own name) (option_map shown_of (later_of (means_in self.now.means) self.now.deed.now place one.now)) [] ≡ shown_own name (shown_of one.now)) }
    {
        if self.means.touches(self.deed, place, one) {
            put_claim_names(names, one.claim(), one.claim().sure)?;
            if let Some(later) = self.means.later(self.deed, place, one) {
                put_claim_names(names, later.claim, later.sure)?;
            }
        }
        Ok(())
    }

    // Puts the own records of a name that the groups that are there have behind the plan.
    fn put_later(&self, rrs: &mut Rrs, name: &Name) -> Result<(), AllocError>
        ensures { OnOk result (rrs.new ≡ rrs.old ++ of_name name.now (own_in (later_from (means_in self.now.means) self.now.deed.now 0 self.now.groups.now))) }
    {
        let bit = bit_of(name);
        let groups = self.groups;
        for (place, one) in groups.iter().enumerate() {
            if self.may_have(one, bit) {
                self.put_later_at(rrs, place, one, name)?;
            }
        }
        Ok(())
    }

    /// Whether a group may have a record of a name, whose bit is given, behind the plan. Most have none before it, and get none by a plan
    /// that renews no group.
    pub(crate) fn may_have(&self, one: &Claimant, bit: u64) -> bool
        ensures { result ≡ false → (place : ℕ) (name : List (List ℕ)) → bit ≡ bit_of name
            → option_map_or (shown_own name) (option_map shown_of (later_of (means_in self.now.means) self.now.deed.now place one.now)) [] ≡ [] }
    {
        one.may_have(bit) || !takes_none(self.deed)
    }

    // Puts the own records of a name that the group in a place has behind the plan.
    fn put_later_at(
        &self,
        rrs: &mut Rrs,
        place: usize,
        one: &Claimant,
        name: &Name,
    ) -> Result<(), AllocError>
        ensures { OnOk result (rrs.new ≡ rrs.old ++ option_map_or (shown_own name.now) (option_map shown_of (later_of (means_in self.now.means) self.now.deed.now place one.now)) []) }
    {
        match self.means.later(self.deed, place, one) {
            Some(later) => put_claimed(rrs, later.claim, later.sure, name),
            None => Ok(()),
        }
    }

    // Puts the own records that questions ask for and that the groups that are there have behind the plan.
    fn put_later_asked(&self, asked: &mut Asked) -> Result<(), AllocError>
        ensures { OnOk result (IsPut (own_in (later_from (means_in self.now.means) self.now.deed.now 0 self.now.groups.now)) asked.old asked.new) }
    {
        let groups = self.groups;
        for (place, one) in groups.iter().enumerate() {
            if let Some(later) = self.means.later(self.deed, place, one) {
                put_claim(asked, later.claim, later.sure)?;
            }
        }
        Ok(())
    }

    // What is told of the registrations of the groups that are there and touched.
    fn touched_lines(&self, alloc: Global) -> Result<Vec<Registered>, AllocError>
        ensures are { IfOk result (λ lines. AreRegistered (λ session op. registered_answers session op self.now.groups.now) (λ session op. registered_answers session op (groups_behind self.now)) lines.items) }
        ensures rest { IfOk result (λ lines. (session op : ℕ) → is_told lines.items session op ≡ false → (new : List Kept) → registered_answers session op new ≡ registered_answers session op [] → registered_answers session op (later_from (means_in self.now.means) self.now.deed.now 0 self.now.groups.now ++ new) ≡ registered_answers session op self.now.groups.now) }
    {
        let mut lines = Vec::new(alloc);
        let mut from = 0;
        while let Some(place) = self.place_touched(from) {
            let one = &self.groups[place];
            if self.means.touches(self.deed, place, one) {
                lines.push(self.line(one.naming()))?;
            }
            from = place + 1;
        }
        Ok(lines)
    }

    // What is told of a registration.
    fn line(&self, naming: &Naming) -> Registered
        ensures session { result.session ≡ naming.now.session }
        ensures op { result.op ≡ naming.now.op }
        ensures is { IsRegistered (λ session op. registered_answers session op self.now.groups.now) (λ session op. registered_answers session op (groups_behind self.now)) result }
    {
        let session = naming.session();
        let op = naming.op();
        Registered {
            session,
            op,
            had: registered_answer(self.groups, session, op),
            has: self.later_answer(session, op),
        }
    }

    // The answer of a registration behind the plan.
    fn later_answer(&self, session: u64, op: u32) -> Option<Answer>
        ensures { option_to_list result ≡ registered_answers session op (groups_behind self.now) }
    {
        let groups = self.groups;
        for (place, one) in groups.iter().enumerate() {
            if is_of(one, session, op) {
                if let Some(later) = self.means.later(self.deed, place, one) {
                    return later.answer();
                }
            }
        }
        begun_answer(self.deed, session, op)
    }
}
