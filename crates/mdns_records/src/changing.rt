// What an event changes of a cache.
ghost use Rattle.std.specs.Prelude.{◌≡◌, ℕ, ◌+◌, ◌≤◌, ◌++◌, List, filter, length};
ghost use Rattle.std.specs.List.Sorted.{IsPermutation};
ghost use Rattle.mdns_history.specs.Hearings.{Hearing};
ghost use Rattle.mdns_history.specs.Lifetimes.{is_live_at};
ghost use Rattle.mdns_cache.specs.Lifetimes.{hearings_at, Holds, AllLive, AllHeard};
ghost use Rattle.mdns_records.specs.After.{held_after};
ghost use Rattle.mdns_records.specs.Visits.{ended_in};

use mdns_base::Moment;
use mdns_cache::{Cache, Steps};
use mdns_history::SharedRrs;
use std::sync::ledger::Ledger;

/// Takes out what has ended and hears these records, where there is room for them.
pub fn change<L: Ledger>(
    cache: &mut Cache,
    now: Moment,
    word: u32,
    heard: SharedRrs,
    steps: &mut Steps<L>,
)
    requires room { length heard ≤ cache.old.spare }
    requires fits { length (held_after now word heard cache.old.held) ≤ cache.old.limit }
    ensures held { IsPermutation cache.new.held (held_after now word heard cache.old.held) }
    ensures limit { cache.new.limit ≡ cache.old.limit }
    ensures within { length cache.new.held ≤ cache.new.limit }
    ensures live { AllLive now cache.new.held }
    ensures heard { AllHeard now cache.old.held → AllHeard now cache.new.held }
    ensures holds { (past : List Hearing) (before : ℕ) → before ≤ now → Holds cache.old.held past before
        → Holds cache.new.held (hearings_at now word heard ++ past) now }
    ensures visits { steps.new ≡ steps.old + length (ended_in now cache.old.held) + 1 }
{
    take_ended(cache, now, steps);
    let _ = cache.hear(now, word, heard);
}

// Takes out all that has ended at `now`, in ms.
fn take_ended<L: Ledger>(cache: &mut Cache, now: Moment, steps: &mut Steps<L>)
    ensures held { IsPermutation cache.new.held (filter (is_live_at now) cache.old.held) }
    ensures live { AllLive now cache.new.held }
    ensures limit { cache.new.limit ≡ cache.old.limit }
    ensures room { cache.old.spare ≤ cache.new.spare }
    ensures visits { steps.new ≡ steps.old + length (ended_in now cache.old.held) + 1 }
{
    while cache.expire(now, steps).is_some() {}
}
