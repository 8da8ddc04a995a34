// Laws of the definitions.
ghost use Rattle.std.specs.Prelude.{ℕ, ◌≤◌, ◌++◌, List};
ghost use Rattle.std.specs.List.Sorted.{IsPermutation};
ghost use Rattle.dns_record.specs.declared.record.Rr.{Rr};
ghost use Rattle.mdns_history.specs.declared.held.Held.{Held};
ghost use Rattle.mdns_history.specs.Hearings.{Hearing};
ghost use Rattle.mdns_cache.specs.Lifetimes.{hearings_at, Holds, AllLive, AllHeard};
ghost use Rattle.mdns_records.specs.After.{held_after};

/// What holds exactly the live records of some hearings holds, after an event, those of its records as well. Nothing then has ended, and
/// nothing was heard later. The order in which records are held doesn't matter.
pub fn records_follow_hearings()
    ensures holds { (held : List Held) (past : List Hearing) (before moment word : ℕ) (heard : List Rr) → before ≤ moment → Holds held past before
        → Holds (held_after moment word heard held) (hearings_at moment word heard ++ past) moment }
    ensures live { (held : List Held) (moment word : ℕ) (heard : List Rr) → AllLive moment (held_after moment word heard held) }
    ensures heard { (held : List Held) (moment word : ℕ) (heard : List Rr) → AllHeard moment held → AllHeard moment (held_after moment word heard held) }
    ensures permuted { (one other : List Held) (moment word : ℕ) (heard : List Rr) → IsPermutation one other
        → IsPermutation (held_after moment word heard one) (held_after moment word heard other) }
{}
