// Goodbyes. (RFC 6762 10.1)
ghost use Rattle.std.specs.Prelude.{◌≡◌, ◌<◌, ◌^◌, filter, length, map, not, IfOk};
ghost use Rattle.std.specs.List.{flat_map};
ghost use Rattle.lists.specs.Lists.{ordered, without};
ghost use Rattle.dns_record.specs.Records.{record_cmp, same};
ghost use Rattle.mdns_history.specs.Groups.{group_records, is_group};
ghost use Rattle.mdns_history.specs.Sureness.{own_records, sure_groups};
ghost use Rattle.mdns_history.specs.Sending.{sent_goodbyes, taken_back};
ghost use Rattle.plain_sending.specs.Ticked.{ended_in, goodbyes_in, of_last};

use crate::sent::each_to_all;
use dns_record::Rr;
use mdns_history::Sent;
use mdns_pack::pack_plain;
use plain_groups::{LiveGroup, group_records, has_same, is_group, own_records, sure_groups};
use plain_history::{HistoryEntry, ordered_records};
use std::alloc::{AllocError, Global};

// A record with TTL 0.
fn taken_back(rr: Rr) -> Rr
    ensures { result ≡ taken_back rr }
{
    Rr {
        owner: rr.owner,
        flush: rr.flush,
        ttl: 0,
        rdata: rr.rdata,
    }
}

fn all_taken_back(alloc: Global, rrs: Vec<Rr>) -> Result<Vec<Rr>, AllocError>
    ensures { IfOk result (λ gone. gone.items ≡ map taken_back rrs.items) }
{
    let mut gone = Vec::new(alloc);
    for rr in rrs {
        gone.push(taken_back(rr))?;
    }
    Ok(gone)
}

// The groups that are sure in the past and not live in the history.
fn ended_in(
    alloc: Global,
    history: &[HistoryEntry],
    past: &[HistoryEntry],
) -> Result<Vec<LiveGroup>, AllocError>
    requires history { length history.now < 2 ^ 30 }
    requires past { length past.now < 2 ^ 30 }
    ensures { IfOk result (λ ended. ended.items ≡ ended_in history.now past.now) }
{
    let mut ended = Vec::new(alloc);
    for group in sure_groups(alloc, past)? {
        if !is_group(alloc, group.id, history)? {
            ended.push(group)?;
        }
    }
    Ok(ended)
}

// The records that groups had in the past.
fn records_of(
    alloc: Global,
    groups: &[LiveGroup],
    past: &[HistoryEntry],
) -> Result<Vec<Rr>, AllocError>
    ensures { IfOk result (λ rrs. rrs.items ≡ flat_map (λ group. group_records group past.now) groups.now) }
{
    let mut all = Vec::new(alloc);
    for group in groups {
        let mut records = group_records(alloc, group, past)?;
        all.append(&mut records)?;
    }
    Ok(all)
}

// The records that are the same as none of others.
fn others_than(alloc: Global, rrs: Vec<Rr>, own: &[Rr]) -> Result<Vec<Rr>, AllocError>
    ensures { IfOk result (λ left. left.items ≡ without same rrs.items own.now) }
{
    let mut left = Vec::new(alloc);
    for rr in rrs {
        if !has_same(own, &rr) {
            left.push(rr)?;
        }
    }
    Ok(left)
}

// The records that no sure group of a history has.
fn without_own(alloc: Global, rrs: Vec<Rr>, history: &[HistoryEntry]) -> Result<Vec<Rr>, AllocError>
    requires { length history.now < 2 ^ 30 }
    ensures { IfOk result (λ left. left.items ≡ without same rrs.items (own_records history.now)) }
{
    let own = own_records(alloc, history)?;
    let left = others_than(alloc, rrs, &own)?;
    Ok(left)
}

// The goodbyes of groups that end: the history has the entry, the past ends before it.
fn goodbyes_in(
    alloc: Global,
    history: &[HistoryEntry],
    past: &[HistoryEntry],
) -> Result<Vec<Sent>, AllocError>
    requires history { length history.now < 2 ^ 30 }
    requires past { length past.now < 2 ^ 30 }
    ensures { IfOk result (λ sent. sent.items ≡ goodbyes_in history.now past.now) }
{
    let ended = ended_in(alloc, history, past)?;
    let records = records_of(alloc, &ended, past)?;
    let rrs = ordered_records(records)?;
    let left = without_own(alloc, rrs, history)?;
    let gone = all_taken_back(alloc, left)?;
    let messages = pack_plain(alloc, &gone)?;
    each_to_all(alloc, messages)
}

/// The goodbyes of the groups that end with the last entry of a history, without the records that another sure group still has.
/// Refused only for want of memory.
#[tactic(auto, using(crate::proofs::Ticks::goodbyes_none, crate::proofs::Ticks::goodbyes_last))]
pub fn sent_goodbyes(alloc: Global, history: &[HistoryEntry]) -> Result<Vec<Sent>, AllocError>
    requires { length history.now < 2 ^ 30 }
    ensures { IfOk result (λ sent. sent.items ≡ of_last sent_goodbyes history.now) }
{
    let Some((_, past)) = history.split_first() else {
        return Ok(Vec::new(alloc));
    };
    goodbyes_in(alloc, history, past)
}
