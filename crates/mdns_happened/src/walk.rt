// The records of a name around an event.
ghost use Rattle.std.specs.Prelude.{◌≡◌, []};
ghost use Rattle.std.specs.Option.{option_copied};
ghost use Rattle.mdns_happened.specs.Walks.{walk_of};

use dns_message::Rrs;
use dns_name::Name;
use mdns_history::Held;
use std::alloc::Global;

/// The records of a name, case aside, around an event: those that are held before it, those that are held after it, and those that
/// are the daemon's own.
#[derive(Drop)]
pub struct Walk {
    pub name: Name,
    pub earlier: Vec<Held>,
    pub later: Vec<Held>,
    pub own: OwnWalk,
}

/// The daemon's own records of a name before an event and after it. Where there are none they take no memory.
#[derive(Drop)]
pub struct OwnWalk {
    pub earlier: Rrs,
    pub later: Rrs,
}

impl OwnWalk {
    /// No own records, neither before nor after.
    pub fn none(alloc: Global) -> OwnWalk
        ensures earlier { result.earlier ≡ [] }
        ensures later { result.later ≡ [] }
    {
        OwnWalk {
            earlier: Rrs::new(alloc),
            later: Rrs::new(alloc),
        }
    }
}

/// The walk of a name, case aside; `None` exactly where the name was not walked.
pub fn walk_of<'a>(name: &Name, walks: &'a [Walk]) -> Option<&'a Walk>
    ensures { option_copied result ≡ walk_of name.now walks.now }
{
    walks.iter().find(|walk| walk.name.folded_eq(name))
}
