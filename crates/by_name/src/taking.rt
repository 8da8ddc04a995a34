// Taking values out of a map from places to values.
ghost use Rattle.std.specs.Prelude.{◌≡◌, ℕ, suc, ◌+◌, ◌<◌, ◌≤◌, Bool, List, [], ◌∷◌, length, slice_get, Some, None, IsSome, IfSome, if◌then◌else◌};
ghost use Rattle.std.specs.Option.{option_map};
ghost use Rattle.std.specs.List.{IsDistinct};
ghost use Rattle.std.specs.List.Sorted.{IsPermutation};
ghost use Rattle.std.specs.Map.{keys_of, values_of, lookup};
ghost use Rattle.indexmap.specs.IndexMap.{spare};
ghost use Rattle.indexmap.specs.Layout.{set_value_at};
ghost use Rattle.by_name.specs.At.{At, at_eq, at};
ghost use Rattle.by_name.specs.Filed.{found, AreFiled, IsWithout, AgreeBut, AllOwned};

use crate::{KeyedState, Place};
use indexmap::IndexMap;
use std::mem::replace;

/// The values of all names by place.
pub type Values<T> = IndexMap<Place, T, KeyedState>;

/// A value that was taken out, and the indexes at which another stands since.
#[derive(Drop)]
pub struct Taken<T> {
    pub one: T,
    /// Where the last value of all was put, unless it went itself.
    pub hole: usize,
    /// Where the last value of the name was put, or the hole.
    pub filled: usize,
}

/// Takes out the value at a place. The last one of its name comes in its place, and the last of all in that one's.
pub fn take_out<T: Drop>(values: &mut Values<T>, place: &Place) -> Option<Taken<T>>
    requires filed { AreFiled values.old.entries }
    requires there { IsSome (found place.now.owner place.now.number values.old.entries) }
    ensures taken { option_map (λ t. t.one) result ≡ found place.now.owner place.now.number values.old.entries }
    ensures without { IfSome result (λ t. IsWithout place.now.owner place.now.number t.one values.old.entries values.new.entries) }
    ensures filed { AreFiled values.new.entries }
    ensures owned { (test : List ℕ → T → Bool) → AllOwned test values.old.entries → AllOwned test values.new.entries }
    ensures len { length values.new.entries + 1 ≡ length values.old.entries }
    ensures within { IfSome result (λ t. (t.hole ≤ length values.new.entries) × (t.filled ≤ length values.new.entries)) }
    ensures agree { IfSome result (λ t. AgreeBut (t.filled ∷ t.hole ∷ length values.new.entries ∷ []) (values_of values.old.entries) (values_of values.new.entries)) }
    ensures spare { spare values.old ≤ spare values.new }
{
    let number = last_of(values, place);
    let (hole, last) = take_last(values, &place.other(number))?;
    if number == place.number() {
        return Some(Taken {
            one: last,
            hole,
            filled: hole,
        });
    }
    let filled = values.get_index_of(place)?;
    let one = replace(&mut values[filled], last);
    Some(Taken { one, hole, filled })
}

// Takes out the value at the last place of its name, and tells where it stood.
fn take_last<T: Drop>(values: &mut Values<T>, last: &Place) -> Option<(usize, T)>
    requires there { IsSome (found last.now.owner last.now.number values.old.entries) }
    ensures taken { option_map (λ r. r.1) result ≡ found last.now.owner last.now.number values.old.entries }
    ensures moved { IfSome result (λ r. IsPermutation values.old.entries ((last.now, r.1) ∷ values.new.entries)) }
    ensures left { (place : At) → lookup (at_eq place) values.new.entries ≡ (if at_eq last.now place then None else lookup (at_eq place) values.old.entries) }
    ensures distinct { IsDistinct at_eq (keys_of values.new.entries) }
    ensures len { length values.new.entries + 1 ≡ length values.old.entries }
    ensures within { IfSome result (λ r. r.0 ≤ length values.new.entries) }
    ensures agree { IfSome result (λ r. AgreeBut (r.0 ∷ length values.new.entries ∷ []) (values_of values.old.entries) (values_of values.new.entries)) }
    ensures spare { spare values.old ≤ spare values.new }
{
    let (hole, _last, one) = values.swap_remove_full(last)?;
    Some((hole, one))
}

/// The greatest number of a name at which a value stands, from one on at which one does: found by steps that double.
pub fn last_of<T: Drop>(values: &Values<T>, place: &Place) -> usize
    requires filed { AreFiled values.now.entries }
    requires there { IsSome (found place.now.owner place.now.number values.now.entries) }
    ensures least { place.now.number ≤ result }
    ensures there { IsSome (found place.now.owner result values.now.entries) }
    ensures last { found place.now.owner (suc result) values.now.entries ≡ None }
{
    let _len = values.len();
    let mut last = place.number();
    let mut step = 1;
    let mut probe = place.other(last + 1);
    while values.contains_key(&probe) {
        last += step;
        step *= 2;
        probe.go(last + step);
    }
    last_between(values, probe, last, last + step)
}

// The same between a number at which a value stands and one at which none does: found by halves.
fn last_between<T: Drop>(values: &Values<T>, mut probe: Place, low: usize, high: usize) -> usize
    requires order { low < high }
    requires there { IsSome (found probe.owner low values.now.entries) }
    requires none { found probe.owner high values.now.entries ≡ None }
    ensures least { low ≤ result }
    ensures there { IsSome (found probe.owner result values.now.entries) }
    ensures last { found probe.owner (suc result) values.now.entries ≡ None }
{
    let mut last = low;
    let mut past = high;
    while past - last > 1 {
        let middle = last + (past - last) / 2;
        probe.go(middle);
        if values.contains_key(&probe) {
            last = middle;
        } else {
            past = middle;
        }
    }
    last
}
