// Held records found by their prints.
ghost use Rattle.std.specs.Prelude.{◌≡◌, ◌+◌, ◌<◌, ◌≤◌, ℕ, [], ◌∷◌, ◌++◌, List, length, position, slice_get, true, false, cond, nat_eq, Some, None, IsSome, IfSome, IfNone, OnOk};
ghost use Rattle.std.specs.List.{AllByRecursion};
ghost use Rattle.std.specs.List.Sorted.{IsPermutation};
ghost use Rattle.indexmap.specs.IndexMap.{spare};
ghost use Rattle.dns_record.specs.Records.{same, data_of, identity_of};
ghost use Rattle.mdns_history.specs.declared.held.Held.{Held};
ghost use Rattle.by_name.specs.Filed.{AgreeBut};
ghost use Rattle.mdns_cache.specs.Printed.{written, print_of, noted, AreIndexed};

use by_name::{KeyedState, Place};
use dns_record::{Rdata, Rr};
use indexmap::IndexMap;
use mdns_history::Held;
use std::alloc::{AllocError, Global};
use std::hash::{BuildHasher, DefaultHasher, Hasher};

/// The indexes of held records by their prints. A print is a hash, keyed by a random number, of what makes records the same: owner, type and
/// data. Where two records ever have one print, by a chance of one in 2^64 for two, all records are looked through from then on.
#[derive(Drop)]
pub struct Prints {
    start: DefaultHasher,
    indexes: IndexMap<u64, usize>,
    mixed: bool,
}

impl Prints {
    /// No prints. They can't be foreseen by who doesn't know the key.
    pub fn new(alloc: Global, key: u64) -> Prints
        ensures { AreIndexed result [] [] }
    {
        Prints {
            start: KeyedState::new(key).build_hasher(),
            indexes: IndexMap::new(alloc),
            mixed: false,
        }
    }

    /// Takes room for `more` prints. Refused only for want of memory.
    pub fn reserve(&mut self, more: usize) -> Result<(), AllocError>
        ensures same { (held : List Held) → AreIndexed self.old [] held → AreIndexed self.new [] held }
        ensures room { OnOk result (more ≤ spare self.new.indexes) }
        ensures kept { spare self.old.indexes ≤ spare self.new.indexes }
    {
        self.indexes.reserve(more)
    }

    /// For how many prints more there is room.
    pub fn spare(&self) -> usize
        ensures { result ≡ spare self.now.indexes }
    {
        self.indexes.capacity() - self.indexes.len()
    }

    // The print of a record.
    fn print(&self, rr: &Rr) -> u64
        ensures { result ≡ print_of self.now.start (identity_of rr.now) }
    {
        let owner = Place::new(&rr.owner, 0);
        let mut state = self.start;
        state.write(owner.owner());
        state.write_u16(rr.rdata.kind());
        write_data(&mut state, &rr.rdata);
        state.finish()
    }

    /// The index of the held record that is the same as this one; `None` exactly where none is.
    pub fn find(&self, held: &[Held], rr: &Rr) -> Option<usize>
        requires { AreIndexed self.now [] held.now }
        ensures some { IfSome result (λ index. (one : Held) × (slice_get held.now index ≡ Some one) × (same one.rr rr.now ≡ true)) }
        ensures none { IfNone result (AllByRecursion (λ (one : Held). same one.rr rr.now ≡ false) held.now) }
    {
        if self.mixed {
            return first_same(held, rr);
        }
        let index = self.noted(self.print(rr))?;
        if held.get(index)?.rr.same(rr) {
            Some(index)
        } else {
            None
        }
    }

    // The index that is noted of a print.
    fn noted(&self, print: u64) -> Option<usize>
        ensures { result ≡ noted self.now.indexes.entries print }
    {
        self.indexes.get(&print).copied()
    }

    /// Notes a record that stands behind all others, where there is room.
    pub fn push(&mut self, rr: &Rr, index: usize)
        ensures indexed { (held : List Held) (one : Held) → one.rr ≡ rr.now → length held ≡ index → 0 < spare self.old.indexes
            → AreIndexed self.old [] held → AreIndexed self.new [] (held ++ one ∷ []) }
        ensures spare { spare self.old.indexes ≤ spare self.new.indexes + 1 }
    {
        let print = self.print(rr);
        if self.indexes.contains_key(&print) {
            self.mixed = true;
        } else {
            let _ = self.indexes.insert(print, index);
        }
    }

    /// Forgets a record that was taken out. What moved is then to be mended.
    pub fn forget(&mut self, rr: &Rr)
        ensures indexed { (held after : List Held) (one : Held) (places : List ℕ) → one.rr ≡ rr.now → IsPermutation held (one ∷ after) → AgreeBut places held after
            → AreIndexed self.old [] held → AreIndexed self.new places after }
        ensures spare { spare self.old.indexes ≤ spare self.new.indexes }
    {
        let print = self.print(rr);
        let _ = self.indexes.swap_remove(&print);
    }

    /// Notes anew where the record at an index stands, if there is one.
    pub fn mend(&mut self, held: &[Held], index: usize)
        ensures indexed { (dirty : List ℕ) → AreIndexed self.old (index ∷ dirty) held.now → AreIndexed self.new dirty held.now }
        ensures spare { spare self.new.indexes ≡ spare self.old.indexes }
    {
        if let Some(one) = held.get(index) {
            let print = self.print(&one.rr);
            self.note(print, index);
        }
    }

    // Notes another index of a print of which one is noted.
    fn note(&mut self, print: u64, index: usize)
        ensures noted { (q : ℕ) → IsSome (noted self.old.indexes.entries print) → noted self.new.indexes.entries q ≡ cond (nat_eq print q) (Some index) (noted self.old.indexes.entries q) }
        ensures start { self.new.start ≡ self.old.start }
        ensures mixed { self.new.mixed ≡ self.old.mixed }
        ensures spare { spare self.new.indexes ≡ spare self.old.indexes }
    {
        if let Some(at) = self.indexes.get_mut(&print) {
            *at = index;
        }
    }
}

// Writes data as they stand in a message in which no name is compressed.
fn write_data(state: &mut DefaultHasher, rdata: &Rdata)
    ensures { state.new ≡ written state.old (data_of rdata.now) }
{
    match rdata {
        Rdata::A(address) => state.write(&address.to_be_bytes()),
        Rdata::Aaaa(address) => state.write(&address.to_be_bytes()),
        Rdata::Ptr(name) | Rdata::Cname(name) => state.write(name.as_wire()),
        Rdata::Srv {
            priority,
            weight,
            port,
            target,
        } => {
            state.write(&priority.to_be_bytes());
            state.write(&weight.to_be_bytes());
            state.write(&port.to_be_bytes());
            state.write(target.as_wire());
        }
        Rdata::Nsec { next, bitmap } => {
            state.write(next.as_wire());
            state.write(bitmap.as_slice());
        }
        Rdata::Txt(bytes) | Rdata::Raw { bytes, .. } => state.write(bytes.as_slice()),
    }
}

// The first index at which a record is the same, found by looking at each.
fn first_same(held: &[Held], rr: &Rr) -> Option<usize>
    ensures { result ≡ position (λ one. same one.rr rr.now) held.now }
{
    held.iter().position(|one| one.rr.same(rr))
}
