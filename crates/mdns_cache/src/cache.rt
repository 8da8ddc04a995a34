// The cache: the heard records that are live, by name.
ghost use Rattle.std.specs.Prelude.{◌≡◌, ◌↔◌, ℕ, ◌+◌, ◌-◌, ◌<◌, ◌≤◌, ◌^◌, List, [], ◌∷◌, ◌++◌, map, filter, length, slice_get, IsTrue, IsOk, IfOk, OnOk, OnErr, IfErr, IfNone, IfSome, Err};
ghost use Rattle.std.specs.Option.{option_copied};
ghost use Rattle.std.specs.List.Sorted.{IsPermutation};
ghost use Rattle.by_name.specs.At.{owner_of};
ghost use Rattle.mdns_cache.specs.Ends.{IsPlayed};
ghost use Rattle.mdns_cache.specs.Ended.{HasEnded, AreOfEnded};
ghost use Rattle.mdns_history.specs.Hearings.{Hearing};
ghost use Rattle.mdns_history.specs.Lifetimes.{is_live_at, live_of};
ghost use Rattle.mdns_cache.specs.Lifetimes.{hearing_at, hearings_at, after_hearings, Holds, Stands, AllLive, AllHeard, IsFirstEnded, held_of, next_end_of};

use crate::count::is_room;
use crate::ended::ended_names;
use crate::ends::played;
use crate::error::HearError;
use crate::expiry::{expire_from, least_end};
use crate::heard::hear_all;
use crate::holdings::Holdings;
use crate::steps::Steps;
use by_name::Place;
use dns_name::Name;
use mdns_base::Moment;
use mdns_history::{Held, SharedRr, SharedRrs};
use std::alloc::{AllocError, Global};
use std::marker::Model;
use std::sync::ledger::Ledger;

// More than fit into memory.
const MOST: usize = 1 << 40;

/// The records that were heard and are live, with room for a limited number. A moment is in ms. (RFC 6762 10)
#[derive(Drop)]
pub struct Cache {
    alloc: Global,
    limit: usize,
    records: Holdings,
    // Which record ends first: a tournament over the records' indexes.
    nodes: Vec<usize>,
}

impl Model for Cache {
    ghost use Rattle.std.specs.Prelude.{◌+◌, ◌<◌, ◌≤◌, ◌^◌, [], length};
    ghost use Rattle.std.specs.Map.{values_of};
    ghost use Rattle.by_name.specs.Filed.{in_layers};
    ghost use Rattle.mdns_cache.specs.Contents.{Contents};
    ghost use Rattle.mdns_cache.specs.Ends.{IsPlayed};
    ghost use Rattle.mdns_cache.specs.Named.{AreFiled, AreOnce};

    ghost Value = { Contents };

    ghost view = { λ c. record { held = in_layers c.records.entries; limit = c.limit; spare = c.records.spare } };

    ghost invariant = { λ c. AreFiled c.records.entries × AreOnce (values_of c.records.entries) × IsPlayed (values_of c.records.entries) [] c.nodes.items
        × (length c.records.entries + c.records.spare ≤ length c.nodes.items) × (length c.nodes.items < 2 ^ 60) };
}

impl Cache {
    /// A cache that holds nothing, in which at most `limit` records may be live. It takes no memory, and is never refused.
    /// Names can't be chosen to collide by who doesn't know the key.
    pub fn new(alloc: Global, limit: usize, key: u64) -> Result<Cache, AllocError>
        ensures held { IfOk result (λ cache. cache.held ≡ []) }
        ensures limit { IfOk result (λ cache. cache.limit ≡ limit) }
        ensures made { IsOk result }
        ensures stands { IfOk result (λ cache. (moment : ℕ) → Holds cache.held [] moment) }
    {
        Ok(Cache {
            alloc,
            limit,
            records: Holdings::new(alloc, key),
            nodes: Vec::new(alloc),
        })
    }

    /// Takes room for `more` records. Nothing else changes. Refused only for want of memory.
    pub fn reserve(&mut self, more: usize) -> Result<(), AllocError>
        ensures held { self.new.held ≡ self.old.held }
        ensures limit { self.new.limit ≡ self.old.limit }
        ensures room { OnOk result (more ≤ self.new.spare) }
        ensures kept { self.old.spare ≤ self.new.spare }
        ensures enough { more ≤ self.old.spare → IsOk result }
        ensures err { OnErr result (self.new ≡ self.old) }
    {
        if more <= self.records.spare() {
            return Ok(());
        }
        let len = self.records.len();
        if more > MOST || len > MOST {
            return Err(AllocError);
        }
        grow(
            self.alloc,
            self.records.values(),
            &mut self.nodes,
            len + more,
        )?;
        self.records.reserve(more)
    }

    /// Whether as many records may be live as would be after `hear` of these at `now`.
    pub fn fits(&self, now: Moment, heard: &[SharedRr]) -> bool
        ensures live { (past : List Hearing) (word : ℕ) → Stands self.now.held past now
            → IsTrue result ↔ (length (live_of (hearings_at now word heard.now ++ past) now) ≤ self.now.limit) }
        // The same, told of what is then held.
        ensures held { (word : ℕ) → AllLive now self.now.held
            → IsTrue result ↔ (length (after_hearings self.now.held (map (hearing_at now word) heard.now)) ≤ self.now.limit) }
        // And where some of what is held has ended.
        ensures ended { (word : ℕ) → IsTrue result
            ↔ (length (after_hearings (filter (is_live_at now) self.now.held) (map (hearing_at now word) heard.now)) ≤ self.now.limit) }
    {
        is_room(&self.records, self.next_end(), self.limit, now, heard)
    }

    /// Hears the records of a packet, in their order, at `now` with the packet's random word. `Full` where more records
    /// than the limit would be live, and `NoMemory` only where there is no room for all of `heard`. After an `Err` the
    /// cache is as before. (RFC 6762 10, 10.1 and 10.2)
    pub fn hear(&mut self, now: Moment, word: u32, heard: SharedRrs) -> Result<(), HearError>
        requires live { AllLive now self.old.held }

        // It holds exactly the live records, for every list of hearings with these in front.
        ensures holds { OnOk result ((past : List Hearing) → Holds self.old.held past now
            → Holds self.new.held (hearings_at now word heard ++ past) now) }
        ensures live { OnOk result (AllLive now self.new.held) }
        ensures heard { OnOk result (AllHeard now self.old.held → AllHeard now self.new.held) }
        ensures within { OnOk result (length self.new.held ≤ self.new.limit) }
        // The same, told of what is held.
        ensures held { OnOk result (IsPermutation self.new.held (after_hearings self.old.held (map (hearing_at now word) heard))) }
        ensures over { (result ≡ Err HearError.Full) ↔ (self.old.limit < length (after_hearings self.old.held (map (hearing_at now word) heard))) }

        ensures full { (past : List Hearing) → Holds self.old.held past now
            → (result ≡ Err HearError.Full) ↔ (self.old.limit < length (live_of (hearings_at now word heard ++ past) now)) }
        ensures no_memory { result ≡ Err HearError.NoMemory → self.old.spare < length heard }
        ensures err { OnErr result (self.new ≡ self.old) }

        ensures limit { self.new.limit ≡ self.old.limit }
        ensures room { self.old.spare ≤ self.new.spare + length heard }
    {
        if !self.fits(now, heard.as_slice()) {
            return Err(HearError::Full);
        }
        let records = heard.into_vec();
        self.reserve(records.len())?;
        hear_all(&mut self.records, &mut self.nodes, now, word, records);
        Ok(())
    }

    /// How many records are held.
    pub fn len(&self) -> usize
        ensures { result ≡ length self.now.held }
    {
        self.records.len()
    }

    /// Whether no record is held.
    pub fn is_empty(&self) -> bool
        ensures { IsTrue result ↔ (self.now.held ≡ []) }
    {
        self.records.is_empty()
    }

    /// The held record at a place, counted from 0, among those of a name, case aside; `None` exactly past the last.
    pub fn visit<L: Ledger>(&self, name: &Name, place: usize, steps: &mut Steps<L>) -> Option<&Held>
        ensures visited { option_copied result ≡ slice_get (held_of name.now self.now.held) place }
        ensures steps { steps.new ≡ steps.old + 1 }
    {
        self.visit_at(&Place::new(name, place), steps)
    }

    /// The same of a place that has the name and the number: who visits all records of a name makes it once.
    pub fn visit_at<L: Ledger>(&self, place: &Place, steps: &mut Steps<L>) -> Option<&Held>
        ensures visited { (name : List (List ℕ)) → place.now.owner ≡ owner_of name
            → option_copied result ≡ slice_get (held_of name self.now.held) place.now.number }
        ensures steps { steps.new ≡ steps.old + 1 }
    {
        steps.tick();
        self.records.get(place)
    }

    /// The owners of all held records that have ended at `now`, in no promised order. Nothing is changed. Refused only for
    /// want of memory.
    pub fn ended(&self, now: Moment) -> Result<Vec<Name>, AllocError>
        ensures all { IfOk result (λ names. HasEnded self.now.held now names.items) }
        ensures only { IfOk result (λ names. AreOfEnded self.now.held now names.items) }
    {
        ended_names(self.alloc, &self.records, &self.nodes, now)
    }

    /// The least end of the held records; `None` exactly where nothing is held.
    pub fn next_end(&self) -> Option<u64>
        ensures least { result ≡ next_end_of self.now.held }
        ensures live { (heard : List Hearing) (moment : ℕ) → Holds self.now.held heard moment
            → result ≡ next_end_of (live_of heard moment) }
    {
        least_end(&self.records, &self.nodes)
    }

    /// Takes out the first record that has ended at `now`, by end and then by record, `None` exactly where none has ended.
    pub fn expire<L: Ledger>(&mut self, now: Moment, steps: &mut Steps<L>) -> Option<Held>
        // What stood for hearings at an earlier moment stands for them now.
        ensures stands { (heard : List Hearing) (before : ℕ) → before ≤ now → Stands self.old.held heard before
            → Stands self.new.held heard now }
        // When nothing has ended, it holds exactly the live records.
        ensures none { IfNone result ((self.new ≡ self.old) × AllLive now self.new.held) }
        ensures holds { IfNone result ((heard : List Hearing) (before : ℕ) → before ≤ now → Stands self.old.held heard before
            → Holds self.new.held heard now) }

        ensures first { IfSome result (IsFirstEnded now self.old.held) }
        ensures taken { IfSome result (λ one. IsPermutation self.old.held (one ∷ self.new.held)) }
        // What was heard by a moment still was.
        ensures heard { (moment : ℕ) → AllHeard moment self.old.held → AllHeard moment self.new.held }
        ensures limit { self.new.limit ≡ self.old.limit }
        ensures room { self.old.spare ≤ self.new.spare }
        ensures steps { steps.new ≡ steps.old + 1 }
    {
        steps.tick();
        expire_from(&mut self.records, &mut self.nodes, now)
    }
}

// Makes a tournament of at least so many places, and no smaller than it was. Refused only for want of memory.
fn grow(alloc: Global, held: &[Held], nodes: &mut Vec<usize>, room: usize) -> Result<(), AllocError>
    requires played { IsPlayed held.now [] nodes.old.items }
    requires size { length nodes.old.items < 2 ^ 60 }
    requires room { room < 2 ^ 60 }
    ensures played { IsPlayed held.now [] nodes.new.items }
    ensures size { length nodes.new.items < 2 ^ 60 }
    ensures kept { length nodes.old.items ≤ length nodes.new.items }
    ensures room { OnOk result (room ≤ length nodes.new.items) }
{
    if room <= nodes.len() {
        return Ok(());
    }
    let size = larger(room, nodes.len());
    *nodes = played(alloc, held, size)?;
    Ok(())
}

// A size of at least so many, and twice as many as before where that may be.
fn larger(room: usize, before: usize) -> usize
    requires { room < 2 ^ 60 }
    ensures least { room ≤ result }
    ensures bound { result < 2 ^ 60 }
{
    if before < 1 << 58 {
        room.max(2 * before)
    } else {
        room
    }
}
