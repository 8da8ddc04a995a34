// The responses of a tick to all. (RFC 6762 6, 8.3 and 8.4)
ghost use Rattle.std.specs.Prelude.{IfOk, OnOk, [], filter, map, ◌++◌, ◌∷◌, ◌≡◌};
ghost use Rattle.mdns_claims.specs.Later.{groups_behind};
ghost use Rattle.mdns_claims.specs.Owned.{own_in};
ghost use Rattle.mdns_history.specs.Sending.{to_all};
ghost use Rattle.mdns_probe.specs.Claiming.{is_announce_due, ticked};
ghost use Rattle.mdns_probe.specs.Kept.{announced_for};
ghost use Rattle.mdns_responding.specs.Told.{answers_told, is_free_by, multicasts_told};
ghost use Rattle.mdns_responding.specs.Announced.{announced_in, records_in};

use crate::responder::Responder;
use dns_message::Rrs;
use dns_record::Rr;
use mdns_base::{Dest, Moment};
use mdns_claims::Claimant;
use mdns_history::{Mark, Marks, Sends, Sent};
use mdns_pack::{Messages, in_order, pack_reply};
use mdns_probe::Claim;
use std::alloc::AllocError;

impl Responder<'_> {
    /// Puts the responses of a tick to all behind what else is sent. Refused only for want of memory.
    pub fn put_multicasts(&self, sent: &mut Sends) -> Result<(), AllocError>
        ensures { OnOk result (sent.new ≡ sent.old ++ multicasts_told self.now.lasts.now.lasts self.now.owing.now.queries self.now.behind.now.means.moment self.now.behind.now.groups.now (groups_behind self.now.behind.now)) }
    {
        let answers = self.answers()?;
        let wanting = self.wanting(answers)?;
        send_to_all(sent, pack_reply(self.alloc, &wanting)?)?;
        Ok(())
    }

    /// Puts the marks of the groups that a tick announces behind others. Refused only for want of memory.
    pub fn put_announced(&self, marks: &mut Marks) -> Result<(), AllocError>
        ensures { OnOk result (marks.new ≡ marks.old ++ announced_for (map (λ one. one.claim) self.now.behind.now.groups.now) self.now.behind.now.means.moment) }
    {
        let behind = self.behind;
        let groups = behind.groups;
        let mut from = 0;
        while let Some(place) = behind.place_due(from) {
            put_mark(marks, &groups[place], behind.means.moment)?;
            from = place + 1;
        }
        Ok(())
    }

    // The records that a tick multicasts, in record order: those that it announces and those that it releases. Refused only for want of
    // memory.
    fn answers(&self) -> Result<Rrs, AllocError>
        ensures { IfOk result (λ answers. answers ≡ answers_told self.now.lasts.now.lasts self.now.owing.now.queries self.now.behind.now.means.moment self.now.behind.now.groups.now) }
    {
        let mut answers = Vec::new(self.alloc);
        self.put_announced_records(&mut answers)?;
        let released = self.owing.released(self.lasts, self.behind.means.moment)?;
        for rr in released.into_vec() {
            answers.push(rr)?;
        }
        in_order(answers)
    }

    // Puts the records that a tick announces behind others, without those that were multicast less than a second ago.
    fn put_announced_records(&self, answers: &mut Vec<Rr>) -> Result<(), AllocError>
        ensures { OnOk result (answers.new.items ≡ answers.old.items ++ filter (is_free_by self.now.lasts.now.lasts self.now.behind.now.means.moment) (records_in (announced_in self.now.behind.now.means.moment self.now.behind.now.groups.now))) }
    {
        let behind = self.behind;
        let groups = behind.groups;
        let mut from = 0;
        while let Some(place) = behind.place_due(from) {
            self.put_records(answers, &groups[place])?;
            from = place + 1;
        }
        Ok(())
    }

    // Puts the records of a group behind others, if a tick announces it, without those that were multicast less than a second ago.
    fn put_records(&self, answers: &mut Vec<Rr>, one: &Claimant) -> Result<(), AllocError>
        ensures { OnOk result (answers.new.items ≡ answers.old.items ++ filter (is_free_by self.now.lasts.now.lasts self.now.behind.now.means.moment) (records_in (announced_in self.now.behind.now.means.moment (one.now ∷ [])))) }
    {
        let claim = one.claim();
        if is_announced(claim, self.behind.means.moment) {
            self.put_free(answers, claim.unique.as_slice())?;
            self.put_free(answers, claim.shared.as_slice())?;
        }
        Ok(())
    }

    // Puts those of several records behind others that weren't multicast less than a second ago. Refused only for want of memory.
    fn put_free(&self, free: &mut Vec<Rr>, some: &[Rr]) -> Result<(), AllocError>
        ensures { OnOk result (free.new.items ≡ free.old.items ++ filter (is_free_by self.now.lasts.now.lasts self.now.behind.now.means.moment) some.now) }
    {
        for rr in some {
            if self.lasts.is_free(rr, self.behind.means.moment) {
                free.push(rr.copy()?)?;
            }
        }
        Ok(())
    }
}

// Puts the mark of a group behind others, if a tick at a moment announces it. Refused only for want of memory.
fn put_mark(marks: &mut Marks, one: &Claimant, now: Moment) -> Result<(), AllocError>
    ensures { OnOk result (marks.new ≡ marks.old ++ announced_for (one.now.claim ∷ []) now) }
{
    let claim = one.claim();
    if is_announced(claim, now) {
        marks.push(Mark::Announced { group: claim.group })?;
    }
    Ok(())
}

// Whether a tick at a moment announces a group: it is sure by then, and an announcement is due.
fn is_announced(claim: &Claim, now: Moment) -> bool
    ensures { result ≡ is_announce_due now (ticked now claim.now) }
{
    claim.is_settle_due(now) || claim.is_announce_due(now)
}

/// Puts messages behind others that are sent, each to all. Refused only for want of memory.
pub fn send_to_all(sent: &mut Sends, messages: Messages) -> Result<(), AllocError>
    ensures { OnOk result (sent.new ≡ sent.old ++ map to_all messages) }
{
    for message in messages.into_vec() {
        sent.push(Sent {
            to: Dest::All,
            message,
        })?;
    }
    Ok(())
}
