// The moment at which something is next due of a group.
ghost use Rattle.std.specs.Prelude.{List, ℕ, ◌++◌, ◌≡◌};
ghost use Rattle.std.specs.List.{flat_map};
ghost use Rattle.lists.specs.Lists.{least};
ghost use Rattle.mdns_claimants.specs.Due.{moment_of, next_in};

use crate::claimant::Claimant;

/// The moment that is kept of a group of which nothing is ever due by itself.
pub const NEVER: u64 = u64::MAX;

/// The last moment that is kept of a group of which something is due, in ms: what is due later is kept with this one.
pub const LAST_MOMENT: u64 = u64::MAX - 1;

/// The moment that is kept of a group.
pub fn moment_of(one: &Claimant) -> u64
    ensures { result ≡ moment_of one.now }
{
    match one.claim().next_due(true) {
        Some(moment) => moment.min(LAST_MOMENT),
        None => NEVER,
    }
}

/// The first moment from which on something is due of one of several groups, told by looking at each.
pub fn first_due(groups: &[Claimant], announces: bool) -> Option<u64>
    ensures { result ≡ least (flat_map (next_in announces) groups.now) }
{
    let mut first = None;
    for one in groups {
        first = earlier(first, one.claim().next_due(announces));
    }
    first
}

// The earlier of two moments that may be there.
fn earlier(one: Option<u64>, other: Option<u64>) -> Option<u64>
    ensures { (ones others : List ℕ) → one ≡ least ones → other ≡ least others → result ≡ least (ones ++ others) }
{
    match (one, other) {
        (Some(one), Some(other)) => Some(one.min(other)),
        (Some(one), None) => Some(one),
        (None, other) => other,
    }
}
