// Taking records out of those that are filed by name.
ghost use Rattle.std.specs.Prelude.{◌≡◌, ℕ, ◌+◌, ◌<◌, ◌≤◌, ◌^◌, [], length, IsSome, IfSome};
ghost use Rattle.std.specs.Map.{values_of};
ghost use Rattle.by_name.specs.Filed.{found, IsWithout};
ghost use Rattle.mdns_cache.specs.Ends.{IsPlayed};
ghost use Rattle.mdns_cache.specs.Named.{AreFiled, AreOnce};

use crate::ends::mend;
use crate::holdings::Holdings;
use by_name::Place;
use mdns_history::Held;

/// Takes out the record at a place, and plays the tournament anew.
pub fn take_out(records: &mut Holdings, nodes: &mut [usize], place: &Place) -> Option<Held>
    requires filed { AreFiled records.old.entries }
    requires there { IsSome (found place.now.owner place.now.number records.old.entries) }
    requires played { IsPlayed (values_of records.old.entries) [] nodes.old }
    requires room { length records.old.entries ≤ length nodes.old }
    requires size { length nodes.old < 2 ^ 60 }
    ensures taken { result ≡ found place.now.owner place.now.number records.old.entries }
    ensures without { IfSome result (λ one. IsWithout place.now.owner place.now.number one records.old.entries records.new.entries) }
    ensures filed { AreFiled records.new.entries }
    ensures once { AreOnce (values_of records.old.entries) → AreOnce (values_of records.new.entries) }
    ensures room { length records.new.entries + records.new.spare ≤ length records.old.entries + records.old.spare }
    ensures played { IsPlayed (values_of records.new.entries) [] nodes.new }
    ensures spare { records.old.spare ≤ records.new.spare }
{
    let taken = records.take_out(place)?;
    mend(nodes, records.values(), taken.filled);
    mend(nodes, records.values(), taken.hole);
    mend(nodes, records.values(), records.len());
    Some(taken.one)
}
