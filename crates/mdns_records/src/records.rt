// The records that are held.
ghost use Rattle.std.specs.Prelude.{◌≡◌, ◌↔◌, ℕ, ◌+◌, ◌≤◌, ◌^◌, List, [], ◌++◌, map, length, true, IsTrue, IfOk, OnOk, OnErr};
ghost use Rattle.std.specs.List.{list_all, IsDistinct};
ghost use Rattle.std.specs.List.Sorted.{IsPermutation};
ghost use Rattle.dns_name.specs.Names.{folded_eq};
ghost use Rattle.mdns_history.specs.Hearings.{Hearing};
ghost use Rattle.mdns_history.specs.Lifetimes.{live_of, room_for_records};
ghost use Rattle.mdns_cache.specs.Lifetimes.{hearings_at, Holds, AllLive, AllHeard, held_of, next_end_of};
ghost use Rattle.mdns_happened.specs.Walks.{AreOwnWalks, AreWalks, IsOwnWalk, IsWalk};
ghost use Rattle.mdns_records.specs.After.{held_after, is_of_event, AreTouched};
ghost use Rattle.mdns_records.specs.Visits.{visits_of, visits_of_all, ended_in};

use crate::changing::change;
use crate::hear::heard_copy;
use crate::names::with_owners;
use by_name::Place;
use dns_name::Name;
use mdns_base::Moment;
use mdns_cache::{Cache, Steps};
use mdns_happened::{OwnWalk, Walk, When};
use mdns_history::{Held, SharedRr, SharedRrs};
use std::alloc::{AllocError, Global};
use std::marker::Model;
use std::sync::ledger::Ledger;

/// The most records that are live at a time.
const ROOM_FOR_RECORDS: usize = 32_768;

/// The records that were heard and are live, by the names of their owners. A moment is in ms. (RFC 6762 10)
///
/// An event is first read (`fits`, `touched`, `walk`), which changes nothing. Then room is taken for its records (`reserve`), and
/// they are heard (`apply`), which takes no memory and can't fail.
#[derive(Drop)]
pub struct Records {
    alloc: Global,
    cache: Cache,
}

impl Model for Records {
    ghost use Rattle.std.specs.Prelude.{◌≡◌, ◌≤◌, length};
    ghost use Rattle.mdns_history.specs.Lifetimes.{room_for_records};
    ghost use Rattle.mdns_records.specs.State.{State};

    ghost Value = { State };

    ghost view = { λ r. record { held = r.cache.held; spare = r.cache.spare } };

    ghost invariant = { λ r. (r.cache.limit ≡ room_for_records) × (length r.cache.held ≤ room_for_records) };
}

impl Records {
    /// No records. `word` is a random number that no other host knows: names can't be chosen to collide by who doesn't know it.
    /// Refused only for want of memory.
    pub fn new(alloc: Global, word: u32) -> Result<Records, AllocError>
        ensures held { IfOk result (λ records. records.held ≡ []) }
    {
        Ok(Records {
            alloc,
            cache: Cache::new(alloc, ROOM_FOR_RECORDS, u64::from(word))?,
        })
    }

    /// How many records are held.
    pub fn len(&self) -> usize
        ensures value { result ≡ length self.now.held }
        ensures bound { result ≤ room_for_records }
    {
        self.cache.len()
    }

    /// Whether no record is held.
    pub fn is_empty(&self) -> bool
        ensures { IsTrue result ↔ (self.now.held ≡ []) }
    {
        self.cache.is_empty()
    }

    /// The least end of the held records, in ms; `None` exactly where nothing is held.
    pub fn next_end(&self) -> Option<u64>
        ensures least { result ≡ next_end_of self.now.held }
    {
        self.cache.next_end()
    }

    /// Whether there is room for as many records as would be live with these, heard at `now`.
    pub fn fits(&self, now: Moment, heard: &[SharedRr]) -> bool
        // No more than there is room for would be live, whatever was heard before.
        ensures told { (word : ℕ) (past : List Hearing) (before : ℕ) → before ≤ now → Holds self.now.held past before
            → IsTrue result ↔ (length (live_of (hearings_at now word heard.now ++ past) now) ≤ room_for_records) }
        // The same, told of what is held.
        ensures room { (word : ℕ) → IsTrue result ↔ (length (held_after now word heard.now self.now.held) ≤ room_for_records) }
    {
        self.cache.fits(now, heard)
    }

    /// The names whose records an event at `now` changes that brings these records, each once, case aside: the owners of records
    /// that have ended, and of those that are heard. Refused only for want of memory.
    pub fn touched(&self, now: Moment, heard: &[SharedRr]) -> Result<Vec<Name>, AllocError>
        // The records of every other name stay as they are.
        ensures all { IfOk result (λ names. AreTouched now heard.now self.now.held names.items) }
        ensures only { IfOk result (λ names. list_all (is_of_event now heard.now self.now.held) names.items ≡ true) }
        ensures once { IfOk result (λ names. IsDistinct folded_eq names.items) }
    {
        with_owners(self.cache.ended(now)?, heard)
    }

    /// The records of each of these names before and after an event that brings these records, in the order of the names. Nothing is
    /// changed. Refused only for want of memory.
    pub fn walk<L: Ledger>(
        &self,
        when: When,
        heard: &[SharedRr],
        names: Vec<Name>,
        steps: &mut Steps<L>,
    ) -> Result<Vec<Walk>, AllocError>
        ensures walks { IfOk result (λ walks. AreWalks self.now.held (held_after when.moment when.word heard.now self.now.held) walks.items) }
        ensures names { IfOk result (λ walks. map (λ walk. walk.name) walks.items ≡ names.items) }
        // Which records are the daemon's own isn't known here.
        ensures own { IfOk result (λ walks. AreOwnWalks [] [] walks.items) }
        // No record of another name is looked at, and none twice but for a name that is there twice.
        ensures visits { OnOk result (steps.new ≡ steps.old + visits_of_all self.now.held names.items) }
        ensures most { steps.new ≤ steps.old + visits_of_all self.now.held names.items }
    {
        let mut walks = Vec::with_capacity(self.alloc, names.len())?;
        for name in names {
            walks.push(self.walk_one(when, heard, name, steps)?)?;
        }
        Ok(walks)
    }

    // The records of a name before and after.
    fn walk_one<L: Ledger>(
        &self,
        when: When,
        heard: &[SharedRr],
        name: Name,
        steps: &mut Steps<L>,
    ) -> Result<Walk, AllocError>
        ensures walk { IfOk result (IsWalk self.now.held (held_after when.moment when.word heard.now self.now.held)) }
        ensures name { IfOk result (λ walk. walk.name ≡ name) }
        ensures own { IfOk result (IsOwnWalk [] []) }
        ensures visits { OnOk result (steps.new ≡ steps.old + visits_of self.now.held name) }
        ensures most { steps.new ≤ steps.old + visits_of self.now.held name }
    {
        let earlier = self.records_of(&name, steps)?;
        let later = heard_copy(self.alloc, &earlier, &name, when, heard)?;
        Ok(Walk {
            name,
            earlier,
            later,
            own: OwnWalk::none(self.alloc),
        })
    }

    // The records of a name.
    fn records_of<L: Ledger>(
        &self,
        name: &Name,
        steps: &mut Steps<L>,
    ) -> Result<Vec<Held>, AllocError>
        ensures held { IfOk result (λ held. held.items ≡ held_of name.now self.now.held) }
        ensures visits { OnOk result (steps.new ≡ steps.old + visits_of self.now.held name.now) }
        ensures most { steps.new ≤ steps.old + visits_of self.now.held name.now }
    {
        // Most names have one record.
        let mut held = Vec::with_capacity(self.alloc, 1)?;
        let mut place = Place::new(name, 0);
        while let Some(one) = self.cache.visit_at(&place, steps) {
            held.push(one.copy()?)?;
            place.go(held.len());
        }
        Ok(held)
    }

    /// Takes room for `more` records. Nothing else changes. Refused only for want of memory.
    pub fn reserve(&mut self, more: usize) -> Result<(), AllocError>
        ensures held { self.new.held ≡ self.old.held }
        ensures room { OnOk result (more ≤ self.new.spare) }
        ensures err { OnErr result (self.new ≡ self.old) }
    {
        self.cache.reserve(more)
    }

    /// Carries out an event that brings these records: what has ended is taken out, and they are heard. It takes no memory, and
    /// can't fail.
    pub fn apply<L: Ledger>(&mut self, when: When, heard: SharedRrs, steps: &mut Steps<L>)
        requires room { length heard ≤ self.old.spare }
        requires fits { length (held_after when.moment when.word heard self.old.held) ≤ room_for_records }
        ensures held { IsPermutation self.new.held (held_after when.moment when.word heard self.old.held) }
        ensures live { AllLive when.moment self.new.held }
        ensures heard { AllHeard when.moment self.old.held → AllHeard when.moment self.new.held }
        // What held exactly the live records of any hearings holds those of these as well.
        ensures holds { (past : List Hearing) (before : ℕ) → before ≤ when.moment → Holds self.old.held past before
            → Holds self.new.held (hearings_at when.moment when.word heard ++ past) when.moment }
        // Only the records that have ended are looked at.
        ensures visits { steps.new ≡ steps.old + length (ended_in when.moment self.old.held) + 1 }
    {
        change(&mut self.cache, when.at(), when.word, heard, steps);
    }
}
