// Values by name.
ghost use Rattle.std.specs.Prelude.{◌≡◌, ◌↔◌, ℕ, suc, ◌+◌, ◌-◌, ◌<◌, ◌≤◌, ◌^◌, max, Bool, List, [], ◌∷◌, ◌++◌, length, slice_get, Some, None, IsTrue, IsOk, IsSome, OnOk, OnErr, IfNone, IfSome};
ghost use Rattle.std.specs.Option.{option_copied, option_map};
ghost use Rattle.std.specs.Map.{values_of};
ghost use Rattle.std.specs.Map.Iter.{deref_pair};
ghost use Rattle.by_name.specs.At.{At, at, owner_of};
ghost use Rattle.by_name.specs.Filed.{found, AreFiled, IsFoundAt, IsWithout, AgreeBut, AllOwned};
ghost use Rattle.by_name.specs.Lends.{lends_value};
ghost use Rattle.std.specs.Borrow.{sem};

use crate::taking::{Values, last_of, take_out};
use crate::{KeyedState, Place, Taken};
use dns_name::Name;
use indexmap::IndexMap;
use std::alloc::{AllocError, Global};
use std::marker::Model;

// More than fit into memory.
const MOST: usize = 1 << 40;

/// Values by name, case aside. The values of a name have the numbers 0, 1 and so on without a gap; all values stand in one map,
/// at indexes that are told where they change.
#[derive(Drop)]
pub struct ByName<T> {
    // For how many values there is room, those that are there among them.
    room: usize,
    values: Values<T>,
}

impl<T> Model for ByName<T> {
    ghost use Rattle.std.specs.Prelude.{◌+◌, ◌-◌, ◌≤◌, length};
    ghost use Rattle.indexmap.specs.IndexMap.{spare as places_left};
    ghost use Rattle.by_name.specs.Filed.{Filing, AreFiled};

    ghost Value = { Filing T };

    ghost view = { λ b. record { entries = b.values.entries; spare = b.room - length b.values.entries } };

    ghost invariant = { λ b. AreFiled b.values.entries × (length b.values.entries ≤ b.room) × (b.room ≤ length b.values.entries + places_left b.values) };
}

impl<T: Drop> ByName<T> {
    /// No values. Names can't be chosen to collide by who doesn't know the key.
    pub fn new(alloc: Global, key: u64) -> ByName<T>
        ensures entries { result.entries ≡ [] }
        ensures spare { result.spare ≡ 0 }
    {
        ByName {
            room: 0,
            values: IndexMap::with_hasher(alloc, KeyedState::new(key)),
        }
    }

    /// Takes room for `more` values. Nothing else changes. Refused only for want of memory.
    pub fn reserve(&mut self, more: usize) -> Result<(), AllocError>
        ensures entries { self.new.entries ≡ self.old.entries }
        ensures room { OnOk result (more ≤ self.new.spare) }
        ensures most { self.new.spare ≤ max self.old.spare more }
        ensures kept { self.old.spare ≤ self.new.spare }
        ensures enough { more ≤ self.old.spare → IsOk result }
        ensures err { OnErr result (self.new ≡ self.old) }
    {
        let len = self.values.len();
        if more <= self.room - len {
            return Ok(());
        }
        if more > MOST {
            return Err(AllocError);
        }
        self.values.reserve(more)?;
        self.room = len + more;
        Ok(())
    }

    /// For how many values more there is room.
    pub fn spare(&self) -> usize
        ensures { result ≡ self.now.spare }
    {
        self.room - self.values.len()
    }

    /// How many values there are.
    pub fn len(&self) -> usize
        ensures len { result ≡ length self.now.entries }
        ensures small { result < 2 ^ 63 }
        ensures filed { AreFiled self.now.entries }
    {
        let _room = &self.room;
        self.values.len()
    }

    /// Whether there is none.
    pub fn is_empty(&self) -> bool
        ensures { IsTrue result ↔ (self.now.entries ≡ []) }
    {
        self.values.is_empty()
    }

    /// The values in the map's order.
    pub fn values(&self) -> &[T]
        ensures { result.now ≡ values_of self.now.entries }
    {
        self.values.values().as_slice()
    }

    /// The value at a place.
    pub fn get(&self, place: &Place) -> Option<&T>
        ensures { option_copied result ≡ found place.now.owner place.now.number self.now.entries }
    {
        self.values.get(place)
    }

    /// The index of the value at a place; `None` exactly where there is none.
    pub fn index_of(&self, place: &Place) -> Option<usize>
        ensures none { IfNone result (found place.now.owner place.now.number self.now.entries ≡ None) }
        ensures some { IfSome result (λ index. IsFoundAt place.now index self.now.entries) }
        ensures within { IfSome result (λ index. index < length self.now.entries) }
    {
        self.values.get_index_of(place)
    }

    /// The value at an index, and its place.
    pub fn entry(&self, index: usize) -> Option<(&Place, &T)>
        ensures entry { option_map deref_pair result ≡ slice_get self.now.entries index }
        ensures found { IfSome result (λ p. found p.0.now.owner p.0.now.number self.now.entries ≡ Some p.1.now) }
    {
        self.values.get_index(index)
    }

    /// The place behind the last value of a name.
    pub fn end_of(&self, name: &Name) -> Place
        ensures owner { result.owner ≡ owner_of name.now }
        ensures absent { found result.owner result.number self.now.entries ≡ None }
        ensures next { (number : ℕ) → suc number ≡ result.number → IsSome (found result.owner number self.now.entries) }
    {
        let _len = self.values.len();
        let mut place = Place::new(name, 0);
        if self.values.contains_key(&place) {
            place.go(last_of(&self.values, &place) + 1);
        }
        place
    }

    /// Puts a value behind the others of its name, where there is room for it.
    pub fn push(&mut self, place: Place, one: T)
        requires absent { found place.owner place.number self.old.entries ≡ None }
        requires next { (number : ℕ) → suc number ≡ place.number → IsSome (found place.owner number self.old.entries) }
        requires room { 0 < self.old.spare }
        ensures entries { self.new.entries ≡ self.old.entries ++ (place, one) ∷ [] }
        ensures spare { self.new.spare + 1 ≡ self.old.spare }
        ensures filed { AreFiled self.new.entries }
    {
        let _ = self.values.insert(place, one);
    }

    /// The value at an index, to be changed.
    pub fn at_mut(&mut self, index: usize) -> &mut T
        requires { index < length self.old.entries }
        ensures* writes_back { sem 𝓛 (lends_value T.row self.entry index result) }
        ensures value { slice_get (values_of self.old.entries) index ≡ Some result.now }
    {
        &mut self.values[index]
    }

    /// Takes out the value at a place. The last one of its name comes in its place, and the last of all in that one's.
    pub fn take_out(&mut self, place: &Place) -> Option<Taken<T>>
        requires { IsSome (found place.now.owner place.now.number self.old.entries) }
        ensures taken { option_map (λ t. t.one) result ≡ found place.now.owner place.now.number self.old.entries }
        ensures without { IfSome result (λ t. IsWithout place.now.owner place.now.number t.one self.old.entries self.new.entries) }
        ensures filed { AreFiled self.new.entries }
        ensures owned { (test : List ℕ → T → Bool) → AllOwned test self.old.entries → AllOwned test self.new.entries }
        ensures len { length self.new.entries + 1 ≡ length self.old.entries }
        ensures within { IfSome result (λ t. (t.hole ≤ length self.new.entries) × (t.filled ≤ length self.new.entries)) }
        ensures agree { IfSome result (λ t. AgreeBut (t.filled ∷ t.hole ∷ length self.new.entries ∷ []) (values_of self.old.entries) (values_of self.new.entries)) }
        ensures spare { self.old.spare ≤ self.new.spare }
        ensures room { length self.new.entries + self.new.spare ≤ length self.old.entries + self.old.spare }
    {
        let taken = take_out(&mut self.values, place);
        self.room = self.room.min(self.values.capacity());
        taken
    }
}
