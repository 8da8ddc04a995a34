// Which groups are sure of their names, and which records are theirs. (RFC 6762 8.1)
ghost use Rattle.std.specs.Prelude.{◌≡◌, ◌<◌, ◌^◌, nat_le, length, IfOk};
ghost use Rattle.std.specs.List.{list_any};
ghost use Rattle.dns_record.specs.Records.{same};
ghost use Rattle.mdns_history.specs.Sureness.{are_settled, is_own, is_sure, own_records, sure_groups};

use crate::group::LiveGroup;
use crate::live::{groups, is_group};
use crate::probing::{probe_moments, tick_moments};
use crate::records::group_records;
use dns_record::Rr;
use mdns_base::Moment;
use plain_history::HistoryEntry;
use std::alloc::{AllocError, Global};

/// The least time between probes, and behind the last, in ms.
const PROBE_GAP: u64 = 250;

// Whether three spaced probes were settled by a tick; the moments stand with the last first.
fn are_settled(probes: &[Moment], ticks: &[Moment]) -> bool
    ensures { result ≡ are_settled probes.now ticks.now }
{
    match probes {
        [third, second, first, ..] => {
            first.ms() + PROBE_GAP <= second.ms()
                && second.ms() + PROBE_GAP <= third.ms()
                && is_one_from(ticks, third.ms() + PROBE_GAP)
        }
        _ => false,
    }
}

// Whether one of the moments is at or behind another, in ms.
fn is_one_from(moments: &[Moment], first: u64) -> bool
    ensures { result ≡ list_any (nat_le first) moments.now }
{
    moments.iter().any(|moment| first <= moment.ms())
}

/// Whether a live group is sure: three spaced probes since it was set back were settled by a tick. Refused only for want of memory.
#[tactic(auto, unfolding(mdns_history::specs::Sureness::is_sure))]
pub fn is_sure(
    alloc: Global,
    group: &LiveGroup,
    history: &[HistoryEntry],
) -> Result<bool, AllocError>
    requires { length history.now < 2 ^ 30 }
    ensures { IfOk result (λ sure. sure ≡ is_sure group.now history.now) }
{
    if !is_group(alloc, group.id, history)? {
        return Ok(false);
    }
    let probes = probe_moments(alloc, group, history)?;
    let ticks = tick_moments(alloc, group, history)?;
    Ok(are_settled(&probes, &ticks))
}

/// The live groups that are sure, by number. Refused only for want of memory.
#[tactic(auto, unfolding(mdns_history::specs::Sureness::sure_groups))]
pub fn sure_groups(alloc: Global, history: &[HistoryEntry]) -> Result<Vec<LiveGroup>, AllocError>
    requires { length history.now < 2 ^ 30 }
    ensures { IfOk result (λ sure. sure.items ≡ sure_groups history.now) }
{
    let mut sure = Vec::new(alloc);
    for group in groups(alloc, history)? {
        if is_sure(alloc, &group, history)? {
            sure.push(group)?;
        }
    }
    Ok(sure)
}

/// The records of all sure groups. Refused only for want of memory.
#[tactic(auto, unfolding(mdns_history::specs::Sureness::own_records))]
pub fn own_records(alloc: Global, history: &[HistoryEntry]) -> Result<Vec<Rr>, AllocError>
    requires { length history.now < 2 ^ 30 }
    ensures { IfOk result (λ records. records.items ≡ own_records history.now) }
{
    let mut all = Vec::new(alloc);
    let sure = sure_groups(alloc, history)?;
    for group in sure.as_slice() {
        let mut records = group_records(alloc, group, history)?;
        all.append(&mut records)?;
    }
    Ok(all)
}

/// Whether a record is own. Refused only for want of memory.
#[tactic(auto, unfolding(mdns_history::specs::Sureness::is_own))]
pub fn is_own(alloc: Global, rr: &Rr, history: &[HistoryEntry]) -> Result<bool, AllocError>
    requires { length history.now < 2 ^ 30 }
    ensures { IfOk result (λ own. own ≡ is_own rr.now history.now) }
{
    let own = own_records(alloc, history)?;
    Ok(has_same(&own, rr))
}

/// Whether a record is the same as one of several.
pub fn has_same(records: &[Rr], rr: &Rr) -> bool
    ensures { result ≡ list_any (same rr.now) records.now }
{
    records.iter().any(|other| rr.same(other))
}
