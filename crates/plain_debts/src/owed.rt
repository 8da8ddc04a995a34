// Which records questions are owed. (RFC 6762 6, 6.1 and 7.1)
ghost use Rattle.std.specs.Prelude.{◌≡◌, ◌<◌, ◌^◌, filter, length, IfOk};
ghost use Rattle.dns_record.specs.Records.{matches};
ghost use Rattle.mdns_history.specs.Groups.{group_name, unique_records};
ghost use Rattle.mdns_history.specs.Sureness.{own_records};
ghost use Rattle.mdns_history.specs.Debts.{is_nsec, is_ours, nsec_record, nsecs_of, owed_to};

use dns_name::Name;
use dns_record::{Key, Question, Rr, kinds, matches};
use plain_groups::{
    LiveGroup, group_name, has_same, is_own, own_records, sure_groups, unique_records,
};
use plain_history::HistoryEntry;
use sd_service::{nsec_of, unique_records_have_a_bitmap};
use std::alloc::{AllocError, Global};

// The record that says which types the name of a group has.
fn nsec_of_group(
    alloc: Global,
    group: &LiveGroup,
    history: &[HistoryEntry],
) -> Result<Rr, AllocError>
    ensures { IfOk result (λ rr. rr ≡ nsec_record (group_name group.now history.now) (unique_records group.now history.now)) }
{
    unique_records_have_a_bitmap();
    let name = group_name(group, history);
    let unique = unique_records(alloc, group, history)?;
    nsec_of(alloc, &name, &unique)
}

/// The NSEC records of the sure groups that have a name: of one, or of none. Refused only for want of memory. (RFC 6762 6.1)
pub fn nsecs_of(alloc: Global, name: &Name, history: &[HistoryEntry]) -> Result<Vec<Rr>, AllocError>
    requires { length history.now < 2 ^ 30 }
    ensures { IfOk result (λ nsecs. nsecs.items ≡ nsecs_of name.now history.now) }
{
    let mut nsecs = Vec::new(alloc);
    for group in sure_groups(alloc, history)? {
        if group_name(&group, history).folded_eq(name) {
            let nsec = nsec_of_group(alloc, &group, history)?;
            nsecs.push(nsec)?;
        }
    }
    Ok(nsecs)
}

// The own records that answer a question.
fn own_matching(
    alloc: Global,
    question: &Question,
    history: &[HistoryEntry],
) -> Result<Vec<Rr>, AllocError>
    requires { length history.now < 2 ^ 30 }
    ensures { IfOk result (λ found. found.items ≡ filter (matches (record { name = question.now.name; kind = question.now.kind })) (own_records history.now)) }
{
    let key = Key {
        name: question.name.copy(),
        kind: question.kind,
    };
    let mut found = Vec::new(alloc);
    for rr in own_records(alloc, history)? {
        if matches(&key, &rr) {
            found.push(rr)?;
        }
    }
    Ok(found)
}

/// What a question is owed by a history: the own records that match, or else the NSEC record of a sure name. Refused only for want
/// of memory.
#[tactic(auto, unfolding(mdns_history::specs::Debts::owed_to))]
pub fn owed_to(
    alloc: Global,
    history: &[HistoryEntry],
    question: &Question,
) -> Result<Vec<Rr>, AllocError>
    requires { length history.now < 2 ^ 30 }
    ensures { IfOk result (λ owed. owed.items ≡ owed_to history.now question.now) }
{
    let own = own_matching(alloc, question, history)?;
    if !own.is_empty() || question.kind == kinds::ANY {
        return Ok(own);
    }
    nsecs_of(alloc, &question.name, history)
}

fn is_nsec(rr: &Rr) -> bool
    ensures { result ≡ is_nsec rr.now }
{
    rr.rdata.kind() == kinds::NSEC
}

/// Whether a record is the daemon's to send: own, or the NSEC record of a sure name. Refused only for want of memory.
#[tactic(auto, unfolding(mdns_history::specs::Debts::is_ours))]
pub fn is_ours(alloc: Global, rr: &Rr, history: &[HistoryEntry]) -> Result<bool, AllocError>
    requires { length history.now < 2 ^ 30 }
    ensures { IfOk result (λ ours. ours ≡ is_ours rr.now history.now) }
{
    if !is_nsec(rr) {
        return is_own(alloc, rr, history);
    }
    let nsecs = nsecs_of(alloc, &rr.owner, history)?;
    Ok(has_same(&nsecs, rr))
}
