// Laws of the definitions.
ghost use Rattle.std.specs.Prelude.{ℕ, ◌≤◌, List};
ghost use Rattle.mdns_history.specs.declared.held.Held.{Held};
ghost use Rattle.mdns_history.specs.Hearings.{Hearing};
ghost use Rattle.mdns_cache.specs.Lifetimes.{Holds, Stands, AllLive};

/// What holds exactly the live records of some hearings stands for these hearings at every later moment; and what
/// stands for hearings and hasn't ended is exactly their live records.
pub fn held_records_stand_later()
    ensures later { (held : List Held) (heard : List Hearing) (before moment : ℕ) → before ≤ moment
        → Holds held heard before → Stands held heard moment }
    ensures live { (held : List Held) (heard : List Hearing) (moment : ℕ) → Holds held heard moment → AllLive moment held }
    ensures exact { (held : List Held) (heard : List Hearing) (moment : ℕ) → AllLive moment held
        → Stands held heard moment → Holds held heard moment }
{}
