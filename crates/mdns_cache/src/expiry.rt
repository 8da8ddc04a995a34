// The end of records.
ghost use Rattle.std.specs.Prelude.{◌≡◌, ◌+◌, ◌<◌, ◌≤◌, ◌^◌, [], ◌∷◌, length, Some, IfNone, IfSome};
ghost use Rattle.std.specs.List.Sorted.{IsPermutation};
ghost use Rattle.std.specs.Map.{values_of};
ghost use Rattle.mdns_cache.specs.Lifetimes.{AllLive, IsFirstEnded, next_end_of};
ghost use Rattle.mdns_cache.specs.Ends.{IsPlayed};
ghost use Rattle.by_name.specs.Filed.{found, in_layers};
ghost use Rattle.mdns_cache.specs.Named.{AreFiled, AreOnce};

use crate::ends::first_of;
use crate::holdings::Holdings;
use crate::removal::take_out;
use by_name::Place;
use mdns_base::Moment;
use mdns_history::Held;

/// Takes out the first record that has ended at `now`, in ms, by end and then by record.
pub fn expire_from(records: &mut Holdings, nodes: &mut [usize], now: Moment) -> Option<Held>
    requires filed { AreFiled records.old.entries }
    requires played { IsPlayed (values_of records.old.entries) [] nodes.old }
    requires room { length records.old.entries ≤ length nodes.old }
    requires size { length nodes.old < 2 ^ 60 }
    ensures none { IfNone result ((records.new ≡ records.old) × AllLive now (in_layers records.old.entries)) }
    ensures first { IfSome result (IsFirstEnded now (in_layers records.old.entries)) }
    ensures taken { IfSome result (λ one. IsPermutation (in_layers records.old.entries) (one ∷ in_layers records.new.entries)) }
    ensures filed { AreFiled records.new.entries }
    ensures once { AreOnce (values_of records.old.entries) → AreOnce (values_of records.new.entries) }
    ensures played { IsPlayed (values_of records.new.entries) [] nodes.new }
    ensures room { length records.new.entries + records.new.spare ≤ length records.old.entries + records.old.spare }
    ensures spare { records.old.spare ≤ records.new.spare }
{
    let place = first_place(records, nodes, now)?;
    take_out(records, nodes, &place)
}

// The place of the first record that has ended.
fn first_place(records: &Holdings, nodes: &[usize], now: Moment) -> Option<Place>
    requires filed { AreFiled records.now.entries }
    requires played { IsPlayed (values_of records.now.entries) [] nodes.now }
    requires room { length records.now.entries ≤ length nodes.now }
    ensures none { IfNone result (AllLive now (in_layers records.now.entries)) }
    ensures first { IfSome result (λ place. (one : Held) × (found place.owner place.number records.now.entries ≡ Some one) × IsFirstEnded now (in_layers records.now.entries) one) }
{
    let index = first_of(nodes, records.values())?;
    let (place, one) = records.entry(index)?;
    if one.end > now.ms() {
        return None;
    }
    Some(place.other(place.number()))
}

/// The least end, in ms.
pub fn least_end(records: &Holdings, nodes: &[usize]) -> Option<u64>
    requires played { IsPlayed (values_of records.now.entries) [] nodes.now }
    requires room { length records.now.entries ≤ length nodes.now }
    ensures { result ≡ next_end_of (in_layers records.now.entries) }
{
    let index = first_of(nodes, records.values())?;
    Some(records.values()[index].end)
}
