// The probes of a tick. (RFC 6762 8.1)
ghost use Rattle.std.specs.Prelude.{IfOk, OnOk, [], map, true, ◌++◌, ◌∷◌, ◌≡◌};
ghost use Rattle.dns_record.specs.Records.{any_kind};
ghost use Rattle.mdns_history.specs.Sending.{unflushed};
ghost use Rattle.mdns_probe.specs.Kept.{probe_for, probes_for};

use crate::claimant::Claimant;
use crate::claimants::Claimants;
use dns_message::{Message, Questions, Rrs};
use dns_name::Name;
use dns_record::{Question, Rr, kinds};
use mdns_base::{Dest, Moment};
use mdns_history::{Sends, Sent};
use std::alloc::{AllocError, Global};

/// The probes of the groups of which one is due at `now`, in ms. Groups of which nothing is due aren't looked at. Refused only for want of
/// memory. (RFC 6762 8.1)
pub fn due_probes(alloc: Global, groups: &Claimants, now: Moment) -> Result<Sends, AllocError>
    ensures { IfOk result (λ sent. sent ≡ probes_for groups.now.kept now) }
{
    let mut sent = Sends::new(alloc);
    let mut from = 0;
    while let Some(place) = groups.place_due(from, now) {
        put_probe(&mut sent, alloc, &groups.as_slice()[place], now)?;
        from = place + 1;
    }
    Ok(sent)
}

// Puts the probe of a group, if it is due.
fn put_probe(sent: &mut Sends, alloc: Global, one: &Claimant, now: Moment) -> Result<(), AllocError>
    ensures { OnOk result (sent.new ≡ sent.old ++ probes_for (one.now ∷ []) now) }
{
    if one.claim().is_probe_due(now) {
        sent.push(Sent {
            to: Dest::All,
            message: probe(alloc, one)?,
        })?;
    }
    Ok(())
}

// The probe of a group: any record of its name, by a unicast reply, with the records that it claims.
fn probe(alloc: Global, one: &Claimant) -> Result<Message, AllocError>
    ensures { IfOk result (λ message. message ≡ probe_for one.now) }
{
    Ok(Message {
        id: 0,
        response: false,
        authoritative: false,
        truncated: false,
        opcode: 0,
        rcode: 0,
        questions: any_question(alloc, one.name())?,
        answers: Rrs::new(alloc),
        authority: unflushed(alloc, one.claim().unique.as_slice())?,
        additional: Rrs::new(alloc),
    })
}

fn any_question(alloc: Global, name: &Name) -> Result<Questions, AllocError>
    ensures { IfOk result (λ questions. questions ≡ record { name = name.now; kind = any_kind; unicast = true } ∷ []) }
{
    let mut questions = Questions::new(alloc);
    questions.push(Question {
        name: name.copy(),
        kind: kinds::ANY,
        unicast: true,
    })?;
    Ok(questions)
}

// Records without the flush bit.
fn unflushed(alloc: Global, rrs: &[Rr]) -> Result<Rrs, AllocError>
    ensures { IfOk result (λ copies. copies ≡ map unflushed rrs.now) }
{
    let mut copies = Rrs::new(alloc);
    for rr in rrs {
        let mut copy = rr.copy()?;
        copy.flush = false;
        copies.push(copy)?;
    }
    Ok(copies)
}
