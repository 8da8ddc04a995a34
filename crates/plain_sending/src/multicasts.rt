// The responses to all. (RFC 6762 6, 8.3 and 8.4, RFC 6763 12)
ghost use Rattle.std.specs.Prelude.{◌≡◌, ◌<◌, ◌^◌, filter, length, map, IfOk};
ghost use Rattle.std.specs.List.{flat_map};
ghost use Rattle.mdns_history.specs.Groups.{group_records};
ghost use Rattle.mdns_history.specs.Announcing.{announced_groups};
ghost use Rattle.mdns_history.specs.Sending.{is_free, sent_multicasts, to_all, wanted_by};
ghost use Rattle.dns_message.specs.Packing.{pack_reply};
ghost use Rattle.plain_sending.specs.Ticked.{announced_in, answers_in, multicasts_in, of_last};

use crate::duties::DaemonDuties;
use crate::sent::{each_to_all, records_only_if};
use crate::wanted::wanted_by;
use dns_message::Rrs;
use dns_record::Rr;
use mdns_base::Moment;
use mdns_history::Sent;
use mdns_pack::{Wanting, pack_reply};
use plain_announcing::announced_groups;
use plain_debts::{is_long_ago, last_multicast, released_records};
use plain_groups::{group_records, own_records};
use plain_history::{HistoryEntry, ordered_records};
use std::alloc::{AllocError, Global};

/// The least time between two multicasts of a record, in ms.
const MULTICAST_GAP: u64 = 1000;

/// Whether a record's last multicast is a second ago at a moment.
pub fn is_free(history: &[HistoryEntry], moment: Moment, rr: &Rr) -> bool
    ensures { result ≡ is_free history.now moment rr.now }
{
    is_long_ago(MULTICAST_GAP, moment, last_multicast(rr, history))
}

// The records whose last multicast is a second ago at a moment.
fn free_records(
    alloc: Global,
    rrs: Vec<Rr>,
    past: &[HistoryEntry],
    moment: Moment,
) -> Result<Vec<Rr>, AllocError>
    ensures { IfOk result (λ free. free.items ≡ filter (is_free past.now moment) rrs.items) }
{
    let mut free = Vec::new(alloc);
    for rr in rrs {
        if is_free(past, moment, &rr) {
            free.push(rr)?;
        }
    }
    Ok(free)
}

// The records of the groups that are announced at a moment behind a history.
fn records_announced(
    alloc: Global,
    history: &[HistoryEntry],
    moment: Moment,
) -> Result<Vec<Rr>, AllocError>
    requires { length history.now < 2 ^ 30 }
    ensures { IfOk result (λ rrs. rrs.items ≡ flat_map (λ group. group_records group history.now) (announced_groups history.now moment)) }
{
    let mut all = Vec::new(alloc);
    let groups = announced_groups(alloc, history, moment)?;
    for group in groups.as_slice() {
        let mut records = group_records(alloc, group, history)?;
        all.append(&mut records)?;
    }
    Ok(all)
}

// The records of announcements at a moment: the history has the tick, the past ends before it.
fn announced_in(
    alloc: Global,
    history: &[HistoryEntry],
    past: &[HistoryEntry],
    moment: Moment,
) -> Result<Vec<Rr>, AllocError>
    requires { length history.now < 2 ^ 30 }
    ensures { IfOk result (λ rrs. rrs.items ≡ announced_in history.now past.now moment) }
{
    let all = records_announced(alloc, history, moment)?;
    free_records(alloc, all, past, moment)
}

// The records that a tick multicasts, each once.
fn answers_in(
    alloc: Global,
    duties: &DaemonDuties,
    history: &[HistoryEntry],
    past: &[HistoryEntry],
    moment: Moment,
) -> Result<Vec<Rr>, AllocError>
    requires history { length history.now < 2 ^ 30 }
    requires past { length past.now < 2 ^ 30 }
    ensures { IfOk result (λ rrs. rrs.items ≡ answers_in duties.now history.now past.now moment) }
{
    let announced = announced_in(alloc, history, past, moment)?;
    let released = released_records(alloc, past, moment)?;
    let mut answers = records_only_if(alloc, duties.announcing, announced);
    let mut more = records_only_if(alloc, duties.replying, released);
    answers.append(&mut more)?;
    ordered_records(answers)
}

// What an answer wants of the own records that is free to go.
fn wanted_free(
    alloc: Global,
    own: &[Rr],
    past: &[HistoryEntry],
    moment: Moment,
    rr: &Rr,
) -> Result<Vec<Rr>, AllocError>
    ensures { IfOk result (λ wanted. wanted.items ≡ filter (is_free past.now moment) (wanted_by own.now rr.now.rdata)) }
{
    let wanted = wanted_by(alloc, own, &rr.rdata)?;
    free_records(alloc, wanted, past, moment)
}

// Each answer with what it wants.
fn wantings_of(
    alloc: Global,
    answers: Vec<Rr>,
    own: &[Rr],
    past: &[HistoryEntry],
    moment: Moment,
) -> Result<Vec<Wanting>, AllocError>
    ensures { IfOk result (λ wantings. wantings.items ≡ map (λ rr. (rr, filter (is_free past.now moment) (wanted_by own.now rr.rdata))) answers.items) }
{
    let mut wantings = Vec::new(alloc);
    for rr in answers {
        let wanted = wanted_free(alloc, own, past, moment, &rr)?;
        wantings.push(Wanting::new(rr, Rrs::from_vec(wanted)))?;
    }
    Ok(wantings)
}

// The responses to all with answers, each with what it wants.
fn responses_with(alloc: Global, wantings: &[Wanting]) -> Result<Vec<Sent>, AllocError>
    ensures { IfOk result (λ sent. sent.items ≡ map to_all (pack_reply (map (λ wanting. wanting.0) wantings.now) (map (λ wanting. wanting.1) wantings.now))) }
{
    let messages = pack_reply(alloc, wantings)?;
    each_to_all(alloc, messages)
}

/// The responses to all of a tick at a moment: the history has the tick, the past ends before it. Refused only for want of
/// memory.
pub fn multicasts_in(
    alloc: Global,
    duties: &DaemonDuties,
    history: &[HistoryEntry],
    past: &[HistoryEntry],
    moment: Moment,
) -> Result<Vec<Sent>, AllocError>
    requires history { length history.now < 2 ^ 30 }
    requires past { length past.now < 2 ^ 30 }
    ensures { IfOk result (λ sent. sent.items ≡ multicasts_in duties.now history.now past.now moment) }
{
    let answers = answers_in(alloc, duties, history, past, moment)?;
    let own = own_records(alloc, history)?;
    let wantings = wantings_of(alloc, answers, &own, past, moment)?;
    let sent = responses_with(alloc, &wantings)?;
    Ok(sent)
}

/// The responses to all of a tick, which is the last entry of the history, with the additional records that their answers want.
/// Refused only for want of memory.
#[tactic(auto, using(crate::proofs::Ticks::multicasts_none, crate::proofs::Ticks::multicasts_last))]
pub fn sent_multicasts(
    alloc: Global,
    duties: &DaemonDuties,
    history: &[HistoryEntry],
) -> Result<Vec<Sent>, AllocError>
    requires { length history.now < 2 ^ 30 }
    ensures { IfOk result (λ sent. sent.items ≡ of_last (sent_multicasts duties.now) history.now) }
{
    let Some((tick, past)) = history.split_first() else {
        return Ok(Vec::new(alloc));
    };
    multicasts_in(alloc, duties, history, past, tick.moment())
}
