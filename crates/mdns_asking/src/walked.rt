// The records of walked names.
ghost use Rattle.std.specs.Prelude.{◌≡◌};
ghost use Rattle.mdns_asking.specs.ByWalks.{later_of};

use dns_name::Name;
use mdns_happened::{Walk, walk_of};
use mdns_history::Held;

/// The records of a name that are held after an event, if it was walked.
pub fn later_of<'a>(name: &Name, walks: &'a [Walk]) -> &'a [Held]
    ensures { result.now ≡ later_of name.now walks.now }
{
    match walk_of(name, walks) {
        Some(walk) => walk.later.as_slice(),
        None => &[],
    }
}
