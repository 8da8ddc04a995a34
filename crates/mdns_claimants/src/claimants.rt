// The live groups, and when something is due of each.
ghost use Rattle.std.specs.Prelude.{IfNone, IfSome, OnOk, [], length, map, ◌++◌, ◌+◌, ◌<◌, ◌^◌, ◌∷◌, ◌≡◌, ◌≤◌};
ghost use Rattle.std.specs.List.{flat_map, remove};
ghost use Rattle.lists.specs.Lists.{least};
ghost use Rattle.mdns_timer.specs.Parts.{IsFirstDue, NoneDue};
ghost use Rattle.mdns_claimants.specs.Due.{moment_of, next_in, ticked_at};
ghost use Rattle.mdns_claimants.specs.Named.{AreNamed, with_renewals};

use crate::claimant::Claimant;
use crate::due::{next_due, renew_all, tick_due};
use crate::moment::moment_of;
use crate::renewal::Renewal;
use mdns_base::Moment;
use mdns_timer::Deadlines;
use std::alloc::{AllocError, Global};
use std::marker::Model;

/// The live groups, each in its place, with the moments at which something is due of each: a tick looks at those alone of which something
/// is due. Moments are in ms. (RFC 6762 8)
#[derive(Drop)]
pub struct Claimants {
    groups: Vec<Claimant>,
    // When something is due of each.
    deadlines: Deadlines,
}

impl Model for Claimants {
    ghost use Rattle.std.specs.Prelude.{◌≡◌, ◌-◌, map, min, vec_len, vec_capacity};
    ghost use Rattle.mdns_claimants.specs.Due.{moment_of};
    ghost use Rattle.mdns_claimants.specs.Live.{Live};

    ghost Value = { Live };

    ghost view = { λ a. record { kept = a.groups.items; spare = min (vec_capacity a.groups - vec_len a.groups) a.deadlines.spare } };

    ghost invariant = { λ a. a.deadlines.moments ≡ map moment_of a.groups.items };
}

impl Claimants {
    /// No groups, and no room. It takes no memory.
    pub fn new(alloc: Global) -> Claimants
        ensures { result.kept ≡ [] }
    {
        Claimants {
            groups: Vec::new(alloc),
            deadlines: Deadlines::new(alloc),
        }
    }

    /// Makes room for `more` groups. Nothing else changes. Refused only for want of memory.
    pub fn reserve(&mut self, more: usize) -> Result<(), AllocError>
        ensures kept { self.new.kept ≡ self.old.kept }
        ensures room { OnOk result (more ≤ self.new.spare) }
        ensures spare { self.old.spare ≤ self.new.spare }
    {
        self.groups.reserve(more)?;
        self.deadlines.reserve(more)
    }

    /// The groups.
    pub fn as_slice(&self) -> &[Claimant]
        ensures { result.now ≡ self.now.kept }
    {
        self.groups.as_slice()
    }

    /// The moments that are kept of the groups, by place.
    pub fn deadlines(&self) -> &Deadlines
        ensures { result.now.moments ≡ map moment_of self.now.kept }
    {
        &self.deadlines
    }

    /// The first moment, in ms, from which on something is due of a group by itself; `None` exactly where there is none.
    pub fn next_due(&self, announces: bool) -> Option<u64>
        ensures { result ≡ least (flat_map (next_in announces) self.now.kept) }
    {
        next_due(&self.groups, &self.deadlines, announces)
    }

    /// The place of the first group, from the place `from` on, whose moment has come at `now`, in ms; `None` exactly where there is none. Of
    /// the groups that are passed over nothing is due.
    pub fn place_due(&self, from: usize, now: Moment) -> Option<usize>
        ensures none { IfNone result (NoneDue (map moment_of self.now.kept) now from (length self.now.kept)) }
        ensures within { IfSome result (λ place. place < length self.now.kept) }
        ensures some { IfSome result (IsFirstDue (map moment_of self.now.kept) now from) }
    {
        self.deadlines.next_due(from, now.ms())
    }

    /// Puts a group behind the others. It takes no memory.
    pub fn push(&mut self, one: Claimant)
        requires { 1 ≤ self.old.spare }
        ensures kept { self.new.kept ≡ self.old.kept ++ one ∷ [] }
        ensures spare { self.old.spare ≤ self.new.spare + 1 }
    {
        self.deadlines.push(moment_of(&one));
        let _ = self.groups.push(one);
    }

    /// Notes a tick, with announcements where there are any. Groups of which nothing is due aren't looked at.
    pub fn tick(&mut self, now: Moment, announces: bool)
        ensures kept { self.new.kept ≡ map (ticked_at now announces) self.old.kept }
        ensures spare { self.new.spare ≡ self.old.spare }
    {
        tick_due(&mut self.groups, &mut self.deadlines, now, announces);
    }

    /// Gives groups other numbers and records, each in its place.
    pub fn renew(&mut self, renewals: Vec<Option<Renewal>>)
        requires { AreNamed renewals.items self.old.kept }
        ensures kept { self.new.kept ≡ with_renewals renewals.items self.old.kept }
        ensures spare { self.new.spare ≡ self.old.spare }
    {
        renew_all(&mut self.groups, &mut self.deadlines, renewals);
    }

    /// Takes out the group at a place.
    pub fn remove(&mut self, place: usize)
        requires { place < length self.old.kept }
        ensures kept { self.new.kept ≡ remove self.old.kept place }
        ensures spare { self.old.spare ≤ self.new.spare }
    {
        self.groups.remove(place);
        self.deadlines.remove(place);
    }
}
