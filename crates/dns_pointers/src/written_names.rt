// The names that a message holds already, with the offsets at which they stand. (RFC 1035 4.1.4)
ghost use Rattle.std.specs.Prelude.{◌≡◌, ℕ, List, ◌<◌, ◌≤◌, ◌++◌, [], ◌∷◌, length, take, drop, get_or, IfOk, OnOk, IfSome, MatchOption};
ghost use Rattle.dns_name.specs.Names.{wire_of, labels_of, exact_eq, IsNameInWire};
ghost use Rattle.dns_pointers.specs.Writing.{Offsets, offset_of};
ghost use Rattle.dns_pointers.specs.Compressing.{AreFirsts, slot_of};

use std::alloc::{AllocError, Global};
use std::marker::Model;

// How many slots the table of first places has.
const SLOTS: usize = 1024;

// So many names are searched one by one, and have no table: most messages have no more.
const FEW: usize = 16;

/// The rest of a name in wire form, and the offset at which it was written.
#[derive(Drop)]
pub(crate) struct Suffix<'a> {
    wire: &'a [u8],
    offset: u16,
}

impl<'a> Model for Suffix<'a> {
    ghost use Rattle.std.specs.Prelude.{List, ℕ, ◌<◌, length};
    ghost use Rattle.dns_name.specs.Names.{labels_of, IsNameInWire};

    ghost Value = { List (List ℕ) × ℕ };

    ghost view = { λ s. (labels_of s.wire.now, s.offset) };

    // It isn't the root, and a pointer has 14 bits.
    ghost invariant = { λ s. IsNameInWire s.wire.now × (1 < length s.wire.now) × (s.offset < 16384) };
}

impl<'a> Suffix<'a> {
    fn new(wire: &'a [u8], offset: u16) -> Self
        requires name { IsNameInWire wire.now }
        requires some { 1 < length wire.now }
        requires most { offset < 16384 }
        ensures { result ≡ (labels_of wire.now, offset) }
    {
        Suffix { wire, offset }
    }

    // Whether the name in wire form is this one, byte for byte.
    #[tactic(auto, unfolding(dns_name::specs::Names::exact_eq))]
    fn is(&self, wire: &[u8]) -> bool
        requires { IsNameInWire wire.now }
        ensures { result ≡ exact_eq (labels_of wire.now) self.now.0 }
    {
        wire == self.wire
    }

    fn offset(&self) -> u16
        ensures value { result ≡ self.now.1 }
        ensures most { result < 16384 }
    {
        self.offset
    }
}

/// The names that were written, the least offset first. Where they are more than a few, each has one of 1024 slots, and of each slot it is known
/// before which place no name of it stands; so the search for a name begins at the first of its slot, and looks at no more names than there
/// are, whatever the names.
#[derive(Drop)]
pub struct WrittenNames<'a> {
    alloc: Global,
    suffixes: Vec<Suffix<'a>>,
    // Before which place no name of a slot stands; nothing of few names.
    firsts: Vec<u16>,
}

impl<'a> Model for WrittenNames<'a> {
    ghost use Rattle.dns_pointers.specs.Writing.{Offsets};
    ghost use Rattle.dns_pointers.specs.Compressing.{AreFirsts};

    ghost Value = { Offsets };

    ghost view = { λ n. n.suffixes.items };

    ghost invariant = { λ n. AreFirsts n.suffixes.items n.firsts.items };
}

impl<'a> WrittenNames<'a> {
    /// No names. It takes no memory.
    pub fn new(alloc: Global) -> Self
        ensures { result ≡ [] }
    {
        WrittenNames {
            alloc,
            suffixes: Vec::new(alloc),
            firsts: Vec::new(alloc),
        }
    }

    /// The least offset at which a name in wire form was written; where it wasn't, it is added as one that is written at
    /// the offset given. The error is want of memory.
    pub(crate) fn find_or_push(
        &mut self,
        wire: &'a [u8],
        offset: u16,
    ) -> Result<Option<u16>, AllocError>
        requires name { IsNameInWire wire.now }
        requires some { 1 < length wire.now }
        requires most { offset < 16384 }
        ensures found { IfOk result (λ found. found ≡ offset_of (labels_of wire.now) self.old) }
        ensures names { IfOk result (λ found.
            MatchOption found (self.new ≡ self.old ++ (labels_of wire.now, offset) ∷ []) (λ _. self.new ≡ self.old)) }
        ensures most { IfOk result (λ found. IfSome found (λ o. o < 16384)) }
    {
        if self.firsts.is_empty() {
            return self.find_or_push_few(wire, offset);
        }
        let slot = slot_of(wire);
        let first = first_of(&self.firsts, slot);
        if let Some(found) = find_behind(&self.suffixes, first, wire) {
            return Ok(Some(found));
        }
        let place = self.suffixes.len();
        self.suffixes.push(Suffix::new(wire, offset))?;
        note(&mut self.firsts, slot, place);
        Ok(None)
    }

    // The same, where there is no table, or was none.
    fn find_or_push_few(&mut self, wire: &'a [u8], offset: u16) -> Result<Option<u16>, AllocError>
        requires name { IsNameInWire wire.now }
        requires some { 1 < length wire.now }
        requires most { offset < 16384 }
        ensures found { IfOk result (λ found. found ≡ offset_of (labels_of wire.now) self.old) }
        ensures names { IfOk result (λ found.
            MatchOption found (self.new ≡ self.old ++ (labels_of wire.now, offset) ∷ []) (λ _. self.new ≡ self.old)) }
        ensures most { IfOk result (λ found. IfSome found (λ o. o < 16384)) }
    {
        if let Some(found) = find(&self.suffixes, wire) {
            return Ok(Some(found));
        }
        self.prepare()?;
        let place = self.suffixes.len();
        self.suffixes.push(Suffix::new(wire, offset))?;
        note_wire(&mut self.firsts, wire, place);
        Ok(None)
    }

    // Makes the table where the names have just become more than a few. Refused only for want of memory.
    fn prepare(&mut self) -> Result<(), AllocError>
        ensures { self.new ≡ self.old }
    {
        if self.suffixes.len() == FEW {
            self.firsts = firsts_of(self.alloc, &self.suffixes)?;
        }
        Ok(())
    }

    /// How many names there are.
    pub fn len(&self) -> usize
        ensures { result ≡ length self.now }
    {
        self.suffixes.len()
    }

    /// Leaves the first so many names.
    pub fn truncate(&mut self, len: usize)
        ensures { self.new ≡ take len self.old }
    {
        self.suffixes.truncate(len);
    }
}

// The least offset at which a name in wire form was written.
fn find(names: &[Suffix<'_>], wire: &[u8]) -> Option<u16>
    requires { IsNameInWire wire.now }
    ensures value { result ≡ offset_of (labels_of wire.now) names.now }
    ensures most { IfSome result (λ offset. offset < 16384) }
{
    for suffix in names {
        if suffix.is(wire) {
            return Some(suffix.offset());
        }
    }
    None
}

// The same, among the names from a place on.
fn find_behind(names: &[Suffix<'_>], first: usize, wire: &[u8]) -> Option<u16>
    requires { IsNameInWire wire.now }
    ensures value { result ≡ offset_of (labels_of wire.now) (drop first names.now) }
    ensures most { IfSome result (λ offset. offset < 16384) }
{
    if first >= names.len() {
        return None;
    }
    find(&names[first..], wire)
}

// A table for some names. Refused only for want of memory.
fn firsts_of(alloc: Global, names: &[Suffix<'_>]) -> Result<Vec<u16>, AllocError>
    ensures { IfOk result (λ firsts. AreFirsts names.now firsts.items) }
{
    let mut firsts = Vec::from_array(alloc, [u16::MAX; SLOTS])?;
    for (place, name) in names.iter().enumerate() {
        note_wire(&mut firsts, name.wire, place);
    }
    Ok(firsts)
}

// Notes in a table, where there is one, that a name in wire form stands at a place, behind all that are noted.
fn note_wire(firsts: &mut [u16], wire: &[u8], place: usize)
    requires name { IsNameInWire wire.now }
    requires some { 1 < length wire.now }
    ensures { (names : Offsets) (offset : ℕ) → length names ≡ place → AreFirsts names firsts.old → AreFirsts (names ++ (labels_of wire.now, offset) ∷ []) firsts.new }
{
    if !firsts.is_empty() {
        note(firsts, slot_of(wire), place);
    }
}

// Notes in a table that a name of a slot stands at a place, behind all that are noted.
fn note(firsts: &mut [u16], slot: usize, place: usize)
    ensures { (names : Offsets) (name : List (List ℕ)) (offset : ℕ) → slot ≡ slot_of (wire_of name) → length names ≡ place
        → AreFirsts names firsts.old → AreFirsts (names ++ (name, offset) ∷ []) firsts.new }
{
    if slot >= firsts.len() {
        return;
    }
    if usize::from(firsts[slot]) >= place {
        firsts[slot] = place as u16;
    }
}

// Before which place no name of a slot stands.
fn first_of(firsts: &[u16], slot: usize) -> usize
    ensures { result ≡ get_or firsts.now slot 0 }
{
    match firsts.get(slot) {
        Some(first) => usize::from(*first),
        None => 0,
    }
}

// The slot of a name in wire form.
fn slot_of(wire: &[u8]) -> usize
    requires name { IsNameInWire wire.now }
    requires some { 1 < length wire.now }
    ensures value { result ≡ slot_of wire.now }
    ensures most { result < 1024 }
{
    let (label, _) = wire.split_at(1 + usize::from(wire[0]));
    let mut slot = wire.len() % SLOTS;
    for byte in label {
        slot = (slot * 33 + usize::from(*byte)) % SLOTS;
    }
    slot
}
