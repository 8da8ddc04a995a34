// When a group is to be probed. (RFC 6762 8.1 and 8.2)
ghost use Rattle.std.specs.Prelude.{◌≡◌, ◌≤◌, ◌<◌, ◌^◌, length, IfOk};
ghost use Rattle.mdns_history.specs.History.{has_mark, last_at};
ghost use Rattle.mdns_history.specs.Probing.{first_due, first_probe, first_wait, is_lost_tie_of, next_probe, probe_due};

use crate::conflict::is_storm;
use mdns_base::Moment;
use mdns_history::{Entry, Mark};
use plain_groups::{LiveGroup, probe_moments, sets_back};
use plain_history::HistoryEntry;
use std::alloc::{AllocError, Global};

/// The wait before the first probe in a storm of conflicts, in ms.
const STORM_WAIT: u64 = 5000;

/// The wait before the first probe behind a lost tie, in ms.
const TIE_WAIT: u64 = 1000;

/// The least time between probes, in ms.
const PROBE_GAP: u64 = 250;

fn is_lost_tie_of(id: u64, mark: &Mark) -> bool
    ensures { result ≡ is_lost_tie_of id mark.now }
{
    match mark {
        Mark::TieLost { group } => *group == id,
        _ => false,
    }
}

fn loses_tie(id: u64, entry: &Entry) -> bool
    ensures { result ≡ has_mark (is_lost_tie_of id) entry.now }
{
    entry
        .marks
        .as_slice()
        .iter()
        .any(|mark| is_lost_tie_of(id, mark))
}

/// How long, in ms, the first probe of a group waits behind an entry that sets it back: five seconds in a storm of conflicts, one
/// after a lost tie, and else up to a quarter. Refused only for want of memory.
pub fn first_wait(
    alloc: Global,
    id: u64,
    entry: &HistoryEntry,
    past: &[HistoryEntry],
) -> Result<u64, AllocError>
    ensures value { IfOk result (λ wait. wait ≡ first_wait id entry.now past.now) }
    ensures bound { IfOk result (λ wait. wait ≤ 5000) }
{
    let stormy = is_storm(alloc, entry, past)?;
    if stormy {
        return Ok(STORM_WAIT);
    }
    if loses_tie(id, entry.entry()) {
        return Ok(TIE_WAIT);
    }
    Ok(u64::from(entry.entry().word % 251))
}

// When a group that was set back in an entry is first probed.
fn first_probe(
    alloc: Global,
    id: u64,
    entry: &HistoryEntry,
    past: &[HistoryEntry],
) -> Result<Option<u64>, AllocError>
    requires { length past.now < 2 ^ 30 }
    ensures { IfOk result (λ first. first ≡ first_probe id entry.now past.now) }
{
    if !sets_back(id, entry, past) {
        return Ok(None);
    }
    let wait = first_wait(alloc, id, entry, past)?;
    Ok(Some(entry.moment().ms() + wait))
}

/// The moment, in ms, of the first probe since a group was registered or set back; 0 where it never was. Refused only for want of
/// memory.
pub fn first_due(
    alloc: Global,
    group: &LiveGroup,
    history: &[HistoryEntry],
) -> Result<u64, AllocError>
    requires { length history.now < 2 ^ 30 }
    ensures { IfOk result (λ due. due ≡ first_due group.now history.now) }
{
    let first = first_since(alloc, group.id, history)?;
    Ok(first.unwrap_or(0))
}

// When a group was to be probed first, by the last entry that set it back.
#[tactic(auto, using(crate::proofs::Lasts::last_here, crate::proofs::Lasts::last_before, crate::proofs::Lasts::last_never))]
fn first_since(alloc: Global, id: u64, history: &[HistoryEntry]) -> Result<Option<u64>, AllocError>
    requires { length history.now < 2 ^ 30 }
    ensures { IfOk result (λ first. first ≡ last_at (first_probe id) history.now) }
{
    let mut rest = history;
    while let Some((entry, past)) = rest.split_first() {
        let first = first_probe(alloc, id, entry, past)?;
        if let Some(first) = first {
            return Ok(Some(first));
        }
        rest = past;
    }
    Ok(None)
}

// The moment, in ms, of the next probe, behind those at these moments.
fn next_probe(first: u64, moments: &[Moment]) -> u64
    ensures { result ≡ next_probe first moments.now }
{
    match moments.split_first() {
        Some((last, _)) => last.ms() + PROBE_GAP,
        None => first,
    }
}

/// The moment, in ms, at which a group's next probe is due. Refused only for want of memory.
#[tactic(auto, unfolding(mdns_history::specs::Probing::probe_due))]
pub fn probe_due(
    alloc: Global,
    group: &LiveGroup,
    history: &[HistoryEntry],
) -> Result<u64, AllocError>
    requires { length history.now < 2 ^ 30 }
    ensures { IfOk result (λ due. due ≡ probe_due group.now history.now) }
{
    let first = first_due(alloc, group, history)?;
    let moments = probe_moments(alloc, group, history)?;
    Ok(next_probe(first, &moments))
}
