// Held records by name and by what they are.
ghost use Rattle.std.specs.Prelude.{◌≡◌, ◌↔◌, ℕ, suc, ◌+◌, ◌<◌, ◌≤◌, ◌^◌, max, Bool, List, [], ◌∷◌, ◌++◌, length, slice_get, true, false, None, Some, IsTrue, IsOk, IsSome, OnOk, OnErr, IfNone, IfSome};
ghost use Rattle.std.specs.Option.{option_copied, option_map};
ghost use Rattle.std.specs.List.{AllByRecursion};
ghost use Rattle.std.specs.Map.{values_of};
ghost use Rattle.std.specs.Map.Iter.{deref_pair};
ghost use Rattle.indexmap.specs.Layout.{set_value_at};
ghost use Rattle.by_name.specs.At.{At, owner_of};
ghost use Rattle.by_name.specs.Filed.{found, AreFiled, IsFoundAt, IsWithout, AgreeBut, AllOwned};
ghost use Rattle.dns_record.specs.Records.{same};
ghost use Rattle.mdns_history.specs.declared.held.Held.{Held};

use crate::prints::Prints;
use by_name::{ByName, Place, Taken};
use dns_name::Name;
use dns_record::Rr;
use mdns_history::Held;
use std::alloc::{AllocError, Global};
use std::marker::Model;
use std::mem::replace;

// More than fit into memory.
const MOST: usize = 1 << 40;

/// Held records by the names of their owners, each of which is found by what it is, too.
#[derive(Drop)]
pub struct Holdings {
    // For how many records there is room, those that are there among them.
    room: usize,
    named: ByName<Held>,
    prints: Prints,
}

impl Model for Holdings {
    ghost use Rattle.std.specs.Prelude.{◌+◌, ◌-◌, ◌≤◌, [], length};
    ghost use Rattle.std.specs.Map.{values_of};
    ghost use Rattle.indexmap.specs.IndexMap.{spare as places_left};
    ghost use Rattle.mdns_history.specs.declared.held.Held.{Held};
    ghost use Rattle.by_name.specs.Filed.{Filing};
    ghost use Rattle.mdns_cache.specs.Printed.{AreIndexed};

    ghost Value = { Filing Held };

    ghost view = { λ h. record { entries = h.named.entries; spare = h.room - length h.named.entries } };

    ghost invariant = { λ h. AreIndexed h.prints [] (values_of h.named.entries) × (length h.named.entries ≤ h.room)
        × (h.room ≤ length h.named.entries + h.named.spare) × (h.room ≤ length h.named.entries + places_left h.prints.indexes) };
}

impl Holdings {
    /// No records. Neither names nor records can be chosen to collide by who doesn't know the key.
    pub fn new(alloc: Global, key: u64) -> Holdings
        ensures entries { result.entries ≡ [] }
        ensures spare { result.spare ≡ 0 }
    {
        Holdings {
            room: 0,
            named: ByName::new(alloc, key),
            prints: Prints::new(alloc, key),
        }
    }

    /// Takes room for `more` records. Nothing else changes. Refused only for want of memory.
    pub fn reserve(&mut self, more: usize) -> Result<(), AllocError>
        ensures entries { self.new.entries ≡ self.old.entries }
        ensures room { OnOk result (more ≤ self.new.spare) }
        ensures most { self.new.spare ≤ max self.old.spare more }
        ensures kept { self.old.spare ≤ self.new.spare }
        ensures enough { more ≤ self.old.spare → IsOk result }
        ensures err { OnErr result (self.new ≡ self.old) }
    {
        if more <= self.spare() {
            return Ok(());
        }
        if more > MOST {
            return Err(AllocError);
        }
        let len = self.named.len();
        self.prints.reserve(more)?;
        self.named.reserve(more)?;
        self.room = len + more;
        Ok(())
    }

    /// For how many records more there is room.
    pub fn spare(&self) -> usize
        ensures { result ≡ self.now.spare }
    {
        self.room - self.named.len()
    }

    /// How many records there are.
    pub fn len(&self) -> usize
        ensures len { result ≡ length self.now.entries }
        ensures small { result < 2 ^ 63 }
        ensures filed { AreFiled self.now.entries }
    {
        let _room = &self.room;
        self.named.len()
    }

    /// Whether there is none.
    pub fn is_empty(&self) -> bool
        ensures { IsTrue result ↔ (self.now.entries ≡ []) }
    {
        self.named.is_empty()
    }

    /// The records in the order of their indexes.
    pub fn values(&self) -> &[Held]
        ensures { result.now ≡ values_of self.now.entries }
    {
        self.named.values()
    }

    /// The record at a place.
    pub fn get(&self, place: &Place) -> Option<&Held>
        ensures { option_copied result ≡ found place.now.owner place.now.number self.now.entries }
    {
        self.named.get(place)
    }

    /// The index of the record at a place; `None` exactly where there is none.
    pub fn index_of(&self, place: &Place) -> Option<usize>
        ensures none { IfNone result (found place.now.owner place.now.number self.now.entries ≡ None) }
        ensures some { IfSome result (λ index. IsFoundAt place.now index self.now.entries) }
        ensures within { IfSome result (λ index. index < length self.now.entries) }
    {
        self.named.index_of(place)
    }

    /// The record at an index, and its place.
    pub fn entry(&self, index: usize) -> Option<(&Place, &Held)>
        ensures entry { option_map deref_pair result ≡ slice_get self.now.entries index }
        ensures found { IfSome result (λ p. found p.0.now.owner p.0.now.number self.now.entries ≡ Some p.1.now) }
    {
        self.named.entry(index)
    }

    /// The index of the record that is the same as this one; `None` exactly where none is.
    pub fn find(&self, rr: &Rr) -> Option<usize>
        ensures some { IfSome result (λ index. (one : Held) × (slice_get (values_of self.now.entries) index ≡ Some one) × (same one.rr rr.now ≡ true)) }
        ensures none { IfNone result (AllByRecursion (λ (one : Held). same one.rr rr.now ≡ false) (values_of self.now.entries)) }
    {
        self.prints.find(self.named.values(), rr)
    }

    /// The place behind the last record of a name.
    pub fn end_of(&self, name: &Name) -> Place
        ensures owner { result.owner ≡ owner_of name.now }
        ensures absent { found result.owner result.number self.now.entries ≡ None }
        ensures next { (number : ℕ) → suc number ≡ result.number → IsSome (found result.owner number self.now.entries) }
    {
        self.named.end_of(name)
    }

    /// Gives the record at an index another end, in ms.
    pub fn set_end(&mut self, index: usize, end: u64)
        requires { index < length self.old.entries }
        ensures entries { (one : Held) → slice_get (values_of self.old.entries) index ≡ Some one
            → self.new.entries ≡ set_value_at self.old.entries index (record one { end = end }) }
        ensures spare { self.new.spare ≡ self.old.spare }
    {
        let one = self.named.at_mut(index);
        one.end = end;
    }

    /// Puts a record in place of the one at an index that is the same.
    pub fn put(&mut self, index: usize, one: Held)
        requires { (old : Held) × (slice_get (values_of self.old.entries) index ≡ Some old) × (same old.rr one.rr ≡ true) }
        ensures entries { self.new.entries ≡ set_value_at self.old.entries index one }
        ensures spare { self.new.spare ≡ self.old.spare }
    {
        let _old = replace(self.named.at_mut(index), one);
    }

    /// Puts a record that no other is the same as behind the others of its name, where there is room for it.
    pub fn push(&mut self, place: Place, one: Held)
        requires absent { found place.owner place.number self.old.entries ≡ None }
        requires next { (number : ℕ) → suc number ≡ place.number → IsSome (found place.owner number self.old.entries) }
        requires room { 0 < self.old.spare }
        ensures entries { self.new.entries ≡ self.old.entries ++ (place, one) ∷ [] }
        ensures spare { self.new.spare + 1 ≡ self.old.spare }
        ensures filed { AreFiled self.new.entries }
    {
        self.prints.push(&one.rr, self.named.len());
        self.named.push(place, one);
    }

    /// Takes out the record at a place. The last one of its name comes in its place, and the last of all in that one's.
    pub fn take_out(&mut self, place: &Place) -> Option<Taken<Held>>
        requires { IsSome (found place.now.owner place.now.number self.old.entries) }
        ensures taken { option_map (λ t. t.one) result ≡ found place.now.owner place.now.number self.old.entries }
        ensures without { IfSome result (λ t. IsWithout place.now.owner place.now.number t.one self.old.entries self.new.entries) }
        ensures filed { AreFiled self.new.entries }
        ensures owned { (test : List ℕ → Held → Bool) → AllOwned test self.old.entries → AllOwned test self.new.entries }
        ensures len { length self.new.entries + 1 ≡ length self.old.entries }
        ensures within { IfSome result (λ t. (t.hole ≤ length self.new.entries) × (t.filled ≤ length self.new.entries)) }
        ensures agree { IfSome result (λ t. AgreeBut (t.filled ∷ t.hole ∷ length self.new.entries ∷ []) (values_of self.old.entries) (values_of self.new.entries)) }
        ensures spare { self.old.spare ≤ self.new.spare }
        ensures room { length self.new.entries + self.new.spare ≤ length self.old.entries + self.old.spare }
    {
        let taken = self.named.take_out(place)?;
        self.prints.forget(&taken.one.rr);
        self.prints.mend(self.named.values(), taken.filled);
        self.prints.mend(self.named.values(), taken.hole);
        let len = self.named.len();
        let spare = self.named.spare().min(self.prints.spare());
        self.room = self.room.min(len.saturating_add(spare));
        Some(taken)
    }
}
