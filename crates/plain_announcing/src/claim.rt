// Since when groups have their records. (RFC 6762 8.3 and 8.4)
ghost use Rattle.std.specs.Prelude.{◌≡◌, ◌≤◌, ◌<◌, ◌^◌, ◌&&◌, ◌||◌, length, not, IfOk};
ghost use Rattle.std.specs.List.{list_all, list_any};
ghost use Rattle.dns_record.specs.Records.{same};
ghost use Rattle.mdns_history.specs.Groups.{group_records};
ghost use Rattle.mdns_history.specs.Sureness.{is_sure};
ghost use Rattle.mdns_history.specs.Announcing.{claim_moment, same_records};
ghost use Rattle.plain_announcing.specs.Renewed.{renews_last};

use dns_record::Rr;
use mdns_base::Moment;
use plain_groups::{LiveGroup, group_records, has_same, is_sure};
use plain_history::HistoryEntry;
use std::alloc::{AllocError, Global};

/// Whether two lists have the same records.
pub fn same_records(left: &[Rr], right: &[Rr]) -> bool
    ensures { result ≡ same_records left.now right.now }
{
    are_among(left, right) && are_among(right, left)
}

// Whether each of some records is the same as one of others.
fn are_among(some: &[Rr], others: &[Rr]) -> bool
    ensures { result ≡ list_all (λ rr. list_any (same rr) others.now) some.now }
{
    some.iter().all(|rr| has_same(others, rr))
}

// Whether the records of a group are the same behind two histories.
fn keeps_records(
    alloc: Global,
    group: &LiveGroup,
    history: &[HistoryEntry],
    past: &[HistoryEntry],
) -> Result<bool, AllocError>
    ensures { IfOk result (λ same. same ≡ same_records (group_records group.now history.now) (group_records group.now past.now)) }
{
    let records = group_records(alloc, group, history)?;
    let before = group_records(alloc, group, past)?;
    Ok(same_records(&records, &before))
}

// Whether a group is sure behind a history, and wasn't behind another or had other records there.
fn is_renewed(
    alloc: Global,
    group: &LiveGroup,
    history: &[HistoryEntry],
    past: &[HistoryEntry],
) -> Result<bool, AllocError>
    requires history { length history.now < 2 ^ 30 }
    requires past { length past.now < 2 ^ 30 }
    ensures { IfOk result (λ renewed. renewed ≡ (is_sure group.now history.now
        && (not (is_sure group.now past.now) || not (same_records (group_records group.now history.now) (group_records group.now past.now))))) }
{
    let sure = is_sure(alloc, group, history)?;
    let before = is_sure(alloc, group, past)?;
    let same = keeps_records(alloc, group, history, past)?;
    Ok(sure && (!before || !same))
}

/// Whether a group became sure with the last entry of a history, or its records changed while it was sure. Refused only for want of
/// memory.
#[tactic(auto, using(crate::proofs::Renewals::renews_none, crate::proofs::Renewals::renews_both))]
pub fn renews_last(
    alloc: Global,
    group: &LiveGroup,
    history: &[HistoryEntry],
) -> Result<bool, AllocError>
    requires { length history.now < 2 ^ 30 }
    ensures { IfOk result (λ renews. renews ≡ renews_last group.now history.now) }
{
    let Some((_, past)) = history.split_first() else {
        return Ok(false);
    };
    is_renewed(alloc, group, history, past)
}

/// The moment of the last entry with which a group became sure or its records changed, 0 where there is none. Refused only for want
/// of memory.
#[tactic(auto, using(crate::proofs::Renewals::claim_here, crate::proofs::Renewals::claim_before, crate::proofs::Renewals::claim_never))]
pub fn claim_moment(
    alloc: Global,
    group: &LiveGroup,
    history: &[HistoryEntry],
) -> Result<Moment, AllocError>
    requires { length history.now < 2 ^ 30 }
    ensures { IfOk result (λ moment. moment ≡ claim_moment group.now history.now) }
{
    let mut rest = history;
    while let Some((entry, past)) = rest.split_first() {
        let renews = renews_last(alloc, group, rest)?;
        if renews {
            return Ok(entry.moment());
        }
        rest = past;
    }
    Ok(Moment::default())
}
