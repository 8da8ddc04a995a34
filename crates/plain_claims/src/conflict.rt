// The conflicts of a history. (RFC 6762 8.1 and 9)
ghost use Rattle.std.specs.Prelude.{◌≡◌, ◌++◌, ◌∷◌, replicate, IfOk, OnOk};
ghost use Rattle.lists.specs.Lists.{count_where};
ghost use Rattle.dns_record.specs.Conflicts.{is_stormy, is_within};
ghost use Rattle.mdns_history.specs.Probing.{conflict_moments, is_conflict};
ghost use Rattle.std.specs.Option.{option_copied};

use mdns_base::Moment;
use mdns_history::Mark;
use plain_history::HistoryEntry;
use std::alloc::{AllocError, Global};

/// How long fifteen conflicts make a storm, in ms.
const STORM_SPAN: u64 = 10_000;

fn is_conflict(mark: &Mark) -> bool
    ensures { result ≡ is_conflict mark.now }
{
    matches!(
        mark,
        Mark::Renamed { .. } | Mark::Contested { .. } | Mark::Failed { .. }
    )
}

/// The moments of all conflicts, the last first, one for each mark. Refused only for want of memory.
#[tactic(auto, unfolding(mdns_history::specs::Probing::conflict_moments))]
pub fn conflict_moments(alloc: Global, history: &[HistoryEntry]) -> Result<Vec<Moment>, AllocError>
    ensures { IfOk result (λ moments. moments.items ≡ conflict_moments history.now) }
{
    let mut moments = Vec::new(alloc);
    for entry in history {
        put_conflicts(&mut moments, entry)?;
    }
    Ok(moments)
}

// Puts the moment of an entry behind others, once for each conflict in it.
fn put_conflicts(moments: &mut Vec<Moment>, entry: &HistoryEntry) -> Result<(), AllocError>
    ensures { OnOk result (moments.new.items ≡ moments.old.items ++ replicate (count_where is_conflict entry.now.marks) entry.now.moment) }
{
    for mark in entry.marks() {
        if is_conflict(mark) {
            moments.push(entry.moment())?;
        }
    }
    Ok(())
}

// The moments of all conflicts of an entry and of the history before it.
#[tactic(auto, unfolding(mdns_history::specs::Probing::conflict_moments))]
fn moments_with(
    alloc: Global,
    entry: &HistoryEntry,
    past: &[HistoryEntry],
) -> Result<Vec<Moment>, AllocError>
    ensures { IfOk result (λ moments. moments.items ≡ conflict_moments (entry.now ∷ past.now)) }
{
    let mut moments = Vec::new(alloc);
    put_conflicts(&mut moments, entry)?;
    let mut earlier = conflict_moments(alloc, past)?;
    moments.append(&mut earlier)?;
    Ok(moments)
}

/// Whether the conflicts of an entry and of the history before it are stormy. Refused only for want of memory.
pub fn is_storm(
    alloc: Global,
    entry: &HistoryEntry,
    past: &[HistoryEntry],
) -> Result<bool, AllocError>
    ensures { IfOk result (λ stormy. stormy ≡ is_stormy (conflict_moments (entry.now ∷ past.now))) }
{
    let moments = moments_with(alloc, entry, past)?;
    Ok(is_stormy(&moments))
}

// Whether fifteen of these moments, the last first, ever lay within ten seconds.
#[tactic(auto, unfolding(dns_record::specs::Conflicts::is_stormy))]
fn is_stormy(moments: &[Moment]) -> bool
    ensures { result ≡ is_stormy moments.now }
{
    match moments.split_first() {
        Some((last, earlier)) => is_near(*last, earlier.get(13)) || is_stormy(earlier),
        None => false,
    }
}

// Whether a moment is within ten seconds behind another, if there is one.
fn is_near(last: Moment, first: Option<&Moment>) -> bool
    ensures { result ≡ is_within 10000 last (option_copied first.entry) }
{
    match first {
        Some(first) => last.ms().saturating_sub(first.ms()) <= STORM_SPAN,
        None => false,
    }
}
