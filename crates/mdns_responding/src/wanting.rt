// What answers want beside them. (RFC 6763 12)
ghost use Rattle.std.specs.Prelude.{IfOk, OnOk, filter, map, ◌==◌, ◌++◌, ◌≡◌};
ghost use Rattle.std.specs.List.{flat_map};
ghost use Rattle.dns_record.specs.Records.{kind_of};
ghost use Rattle.mdns_asked.specs.Asked.{AreRight};
ghost use Rattle.mdns_claims.specs.Later.{groups_behind};
ghost use Rattle.mdns_claims.specs.Owned.{of_name, own_in};
ghost use Rattle.mdns_history.specs.Sending.{addresses_of, own_of, srv_addresses, wanted_by};
ghost use Rattle.mdns_responding.specs.Told.{is_free_by, wanted_told};

use crate::responder::Responder;
use dns_message::{Questions, Rrs};
use dns_name::Name;
use dns_record::{Rdata, Rr, kinds, put_copies};
use mdns_asked::{Asked, any_for};
use mdns_pack::Wanting;
use std::alloc::AllocError;

/// For so many answers the groups are gone over one by one; for more, what all of them want is collected first. To go over the groups once
/// for a name is quick, since a bit tells of most that they don't have it; to collect is not, since each record is looked up twice.
const FEW: usize = 64;

impl Responder<'_> {
    /// Answers, each with what it wants. Of many, what they want is collected first. Refused only for want of memory.
    pub fn wanting(&self, answers: Rrs) -> Result<Vec<Wanting>, AllocError>
        ensures { IfOk result (λ wanting. wanting.items ≡ map (λ rr. (rr, wanted_told self.now.lasts.now.lasts self.now.behind.now.means.moment (own_in (groups_behind self.now.behind.now)) rr)) answers) }
    {
        let near = self.near(answers.as_slice())?;
        let mut wanting = Vec::new(self.alloc);
        for answer in answers.into_vec() {
            let wanted = self.wanted_by(&near, &answer.rdata)?;
            wanting.push(Wanting::new(answer, wanted))?;
        }
        Ok(wanting)
    }

    // What an answer wants that wasn't multicast less than a second ago: for PTR the SRV, TXT and addresses of its target, for SRV the
    // addresses of its target. Refused only for want of memory.
    fn wanted_by(&self, near: &Asked, rdata: &Rdata) -> Result<Rrs, AllocError>
        requires near { AreRight (own_in (groups_behind self.now.behind.now)) near.now }
        ensures { IfOk result (λ wanted. wanted ≡ filter (is_free_by self.now.lasts.now.lasts self.now.behind.now.means.moment) (wanted_by (own_in (groups_behind self.now.behind.now)) rdata.now)) }
    {
        let mut wanted = Rrs::new(self.alloc);
        match rdata {
            Rdata::Ptr(target) => self.put_service(&mut wanted, near, target)?,
            Rdata::Srv { target, .. } => self.put_addresses(&mut wanted, near, target)?,
            _ => {}
        }
        Ok(wanted)
    }

    // Puts the SRV and TXT records of a service behind others, and the addresses of its host.
    fn put_service(&self, wanted: &mut Rrs, near: &Asked, name: &Name) -> Result<(), AllocError>
        requires near { AreRight (own_in (groups_behind self.now.behind.now)) near.now }
        ensures { OnOk result (wanted.new ≡ wanted.old ++ filter (is_free_by self.now.lasts.now.lasts self.now.behind.now.means.moment)
            (own_of (own_in (groups_behind self.now.behind.now)) 33 name.now ++ own_of (own_in (groups_behind self.now.behind.now)) 16 name.now
            ++ flat_map (λ rr. srv_addresses (own_in (groups_behind self.now.behind.now)) rr.rdata) (own_of (own_in (groups_behind self.now.behind.now)) 33 name.now))) }
    {
        let own = self.own_of(near, name)?;
        self.put_kind(wanted, own.as_slice(), kinds::SRV)?;
        self.put_kind(wanted, own.as_slice(), kinds::TXT)?;
        self.put_targets(wanted, near, own.as_slice())?;
        Ok(())
    }

    // Puts the addresses of the targets of SRV records behind others.
    fn put_targets(&self, wanted: &mut Rrs, near: &Asked, own: &[Rr]) -> Result<(), AllocError>
        requires near { AreRight (own_in (groups_behind self.now.behind.now)) near.now }
        ensures { OnOk result (wanted.new ≡ wanted.old ++ filter (is_free_by self.now.lasts.now.lasts self.now.behind.now.means.moment)
            (flat_map (λ rr. srv_addresses (own_in (groups_behind self.now.behind.now)) rr.rdata) own.now)) }
    {
        for rr in own {
            if let Rdata::Srv { target, .. } = &rr.rdata {
                self.put_addresses(wanted, near, target)?;
            }
        }
        Ok(())
    }

    // Puts the addresses of a name behind others.
    fn put_addresses(&self, wanted: &mut Rrs, near: &Asked, name: &Name) -> Result<(), AllocError>
        requires near { AreRight (own_in (groups_behind self.now.behind.now)) near.now }
        ensures { OnOk result (wanted.new ≡ wanted.old ++ filter (is_free_by self.now.lasts.now.lasts self.now.behind.now.means.moment) (addresses_of (own_in (groups_behind self.now.behind.now)) name.now)) }
    {
        let own = self.own_of(near, name)?;
        self.put_kind(wanted, own.as_slice(), kinds::A)?;
        self.put_kind(wanted, own.as_slice(), kinds::AAAA)?;
        Ok(())
    }

    // Puts those of several records behind others that have a type and weren't multicast less than a second ago.
    fn put_kind(&self, wanted: &mut Rrs, own: &[Rr], kind: u16) -> Result<(), AllocError>
        ensures { OnOk result (wanted.new ≡ wanted.old ++ filter (is_free_by self.now.lasts.now.lasts self.now.behind.now.means.moment) (filter (λ rr. kind_of rr.rdata == kind) own.now)) }
    {
        for rr in own {
            if rr.rdata.kind() == kind && self.lasts.is_free(rr, self.behind.means.moment) {
                wanted.push(rr.copy()?)?;
            }
        }
        Ok(())
    }

    // The own records of a name, as they are behind the event: those that were collected for it, or else sought in all groups.
    fn own_of(&self, near: &Asked, name: &Name) -> Result<Rrs, AllocError>
        requires near { AreRight (own_in (groups_behind self.now.behind.now)) near.now }
        ensures { IfOk result (λ own. own ≡ of_name name.now (own_in (groups_behind self.now.behind.now))) }
    {
        if let Some(found) = near.records(&any_for(name)) {
            let mut own = Vec::new(self.alloc);
            put_copies(&mut own, found)?;
            return Ok(Rrs::from_vec(own));
        }
        let mut own = Rrs::new(self.alloc);
        self.behind.put_own(&mut own, name)?;
        Ok(own)
    }

    // What many answers lead to, collected in one pass over all groups; nothing for few.
    fn near(&self, answers: &[Rr]) -> Result<Asked, AllocError>
        ensures { IfOk result (λ near. AreRight (own_in (groups_behind self.now.behind.now)) near) }
    {
        if answers.len() <= FEW {
            return Asked::new(self.alloc, self.key, &[]);
        }
        let leads = self.leads(answers)?;
        let mut near = Asked::new(self.alloc, self.key, leads.as_slice())?;
        self.behind.put_asked(&mut near)?;
        Ok(near)
    }

    // The questions for the names that answers lead to: the targets of PTR and SRV records, and the host. What isn't among them is sought
    // when it is wanted, so they decide nothing but the time that this takes.
    fn leads(&self, answers: &[Rr]) -> Result<Questions, AllocError> {
        let mut leads = Questions::new(self.alloc);
        if let Some(host) = self.behind.groups.first() {
            leads.push(any_for(host.name()))?;
        }
        for answer in answers {
            if let Some(target) = target_of(&answer.rdata) {
                leads.push(any_for(target))?;
            }
        }
        Ok(leads)
    }
}

// The name to which a PTR or an SRV record leads.
fn target_of(rdata: &Rdata) -> Option<&Name> {
    match rdata {
        Rdata::Ptr(target) | Rdata::Srv { target, .. } => Some(target),
        _ => None,
    }
}
