// Probes. (RFC 6762 8.1 and 8.2)
ghost use Rattle.std.specs.Prelude.{◌≡◌, ◌<◌, ◌^◌, [], ◌∷◌, length, map, true, IfOk};
ghost use Rattle.dns_record.specs.Records.{any_kind};
ghost use Rattle.mdns_history.specs.Groups.{group_name, unique_records};
ghost use Rattle.mdns_history.specs.Sending.{probe_message, sent_probes, unflushed};

use crate::sent::to_all;
use dns_message::{Message, Questions, Rrs};
use dns_name::Name;
use dns_record::{Question, Rr, kinds};
use mdns_base::Moment;
use mdns_history::Sent;
use plain_claims::probed_groups;
use plain_groups::{LiveGroup, group_name, unique_records};
use plain_history::HistoryEntry;
use std::alloc::{AllocError, Global};

// A record without the flush bit.
fn unflushed(rr: Rr) -> Rr
    ensures { result ≡ unflushed rr }
{
    Rr {
        owner: rr.owner,
        flush: false,
        ttl: rr.ttl,
        rdata: rr.rdata,
    }
}

// The records that a group claims, without the flush bit.
fn claimed_records(
    alloc: Global,
    group: &LiveGroup,
    history: &[HistoryEntry],
) -> Result<Vec<Rr>, AllocError>
    ensures { IfOk result (λ claimed. claimed.items ≡ map unflushed (unique_records group.now history.now)) }
{
    let mut claimed = Vec::new(alloc);
    for rr in unique_records(alloc, group, history)? {
        claimed.push(unflushed(rr))?;
    }
    Ok(claimed)
}

// The question for any record of a name, by a unicast reply.
fn any_of(alloc: Global, name: Name) -> Result<Questions, AllocError>
    ensures { IfOk result (λ questions. questions ≡ record { name = name; kind = any_kind; unicast = true } ∷ []) }
{
    let mut questions = Questions::new(alloc);
    questions.push(Question {
        name,
        kind: kinds::ANY,
        unicast: true,
    })?;
    Ok(questions)
}

/// The probe of a group: any record of its name, by a unicast reply, with the records that it claims. Refused only for want of
/// memory.
pub fn probe_message(
    alloc: Global,
    group: &LiveGroup,
    history: &[HistoryEntry],
) -> Result<Message, AllocError>
    ensures { IfOk result (λ message. message ≡ probe_message group.now history.now) }
{
    let questions = any_of(alloc, group_name(group, history))?;
    let claimed = claimed_records(alloc, group, history)?;
    Ok(Message {
        id: 0,
        response: false,
        authoritative: false,
        truncated: false,
        opcode: 0,
        rcode: 0,
        questions,
        answers: Rrs::new(alloc),
        authority: Rrs::from_vec(claimed),
        additional: Rrs::new(alloc),
    })
}

/// The probes of a tick at a moment, by group. Refused only for want of memory.
pub fn sent_probes(
    alloc: Global,
    history: &[HistoryEntry],
    moment: Moment,
) -> Result<Vec<Sent>, AllocError>
    requires { length history.now < 2 ^ 30 }
    ensures { IfOk result (λ sent. sent.items ≡ sent_probes history.now moment) }
{
    let mut sent = Vec::new(alloc);
    for group in probed_groups(alloc, history, moment)? {
        let message = probe_message(alloc, &group, history)?;
        sent.push(to_all(message))?;
    }
    Ok(sent)
}
