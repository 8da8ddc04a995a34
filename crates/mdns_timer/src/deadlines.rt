// Moments by place, with the least of them.
ghost use Rattle.std.specs.Prelude.{◌≡◌, ◌+◌, ◌<◌, ◌≤◌, [], ◌∷◌, ◌++◌, map, length, slice_set, IsOk, OnOk, IfNone, IfSome, vec_capacity};
ghost use Rattle.std.specs.List.{insert, remove};
ghost use Rattle.lists.specs.Lists.{least};
ghost use Rattle.mdns_timer.specs.Parts.{NoneDue, IsFirstDue};

use crate::part::Part;
use crate::timed::Timed;
use crate::tree::{build, built, due_in, least_in, mend, size_for};
use std::alloc::{AllocError, Global};
use std::marker::Model;

// More than fit into memory.
const MOST: usize = 1 << 40;

/// The moments, in ms, at which what stands at the places of a list is due, with the least of them and the places at which something
/// is due, in their order.
#[derive(Drop)]
pub struct Deadlines {
    alloc: Global,
    moments: Vec<u64>,
    // The least of the moments: a tree over the places.
    nodes: Vec<u64>,
}

impl Model for Deadlines {
    ghost use Rattle.std.specs.Prelude.{◌-◌, min, vec_len, vec_capacity};
    ghost use Rattle.mdns_timer.specs.Tree.{Moments, IsKept};

    ghost Value = { Moments };

    ghost view = { λ d. record { moments = d.moments.items; spare = min (vec_capacity d.moments) (vec_len d.nodes) - vec_len d.moments } };

    ghost invariant = { λ d. IsKept d.moments.items d.nodes.items };
}

impl Deadlines {
    /// No moments, and no room. It takes no memory.
    pub fn new(alloc: Global) -> Deadlines
        ensures { result.moments ≡ [] }
    {
        Deadlines {
            alloc,
            moments: Vec::new(alloc),
            nodes: Vec::new(alloc),
        }
    }

    /// Makes room for `more` moments. Nothing else changes. Refused only for want of memory, never where there is room.
    pub fn reserve(&mut self, more: usize) -> Result<(), AllocError>
        ensures moments { self.new.moments ≡ self.old.moments }
        ensures room { OnOk result (more ≤ self.new.spare) }
        ensures kept { self.old.spare ≤ self.new.spare }
        ensures enough { more ≤ self.old.spare → IsOk result }
    {
        let len = self.moments.len();
        if more <= self.moments.capacity().min(self.nodes.len()) - len {
            return Ok(());
        }
        if len > MOST || more > MOST {
            return Err(AllocError);
        }
        self.moments.reserve(more)?;
        let places = len + more;
        if places > self.nodes.len() {
            self.nodes = built(self.alloc, &self.moments, size_for(places))?;
        }
        Ok(())
    }

    /// How many moments there are.
    pub fn len(&self) -> usize
        ensures { result ≡ length self.now.moments }
    {
        self.moments.len()
    }

    /// Puts a moment behind the others.
    pub fn push(&mut self, moment: u64)
        requires { 1 ≤ self.old.spare }
        ensures moments { self.new.moments ≡ self.old.moments ++ moment ∷ [] }
        ensures spare { self.old.spare ≤ self.new.spare + 1 }
    {
        let last = self.moments.len();
        let _ = self.moments.push(moment);
        mend(&mut self.nodes, &self.moments, last);
    }

    /// Puts a moment at a place; what stands there and behind it moves up.
    pub fn insert(&mut self, place: usize, moment: u64)
        requires place { place ≤ length self.old.moments }
        requires room { 1 ≤ self.old.spare }
        ensures moments { self.new.moments ≡ insert self.old.moments place moment }
        ensures spare { self.old.spare ≤ self.new.spare + 1 }
    {
        let _ = self.moments.insert(place, moment);
        build(&mut self.nodes, &self.moments);
    }

    /// Takes out the moment at a place; what stands behind it moves down.
    pub fn remove(&mut self, place: usize)
        requires { place < length self.old.moments }
        ensures moments { self.new.moments ≡ remove self.old.moments place }
        ensures spare { self.old.spare + 1 ≤ self.new.spare }
    {
        self.moments.remove(place);
        if place == self.moments.len() {
            // Nothing moved down.
            mend(&mut self.nodes, &self.moments, place);
        } else {
            build(&mut self.nodes, &self.moments);
        }
    }

    /// Puts another moment in place of the one at a place.
    pub fn set(&mut self, place: usize, moment: u64)
        requires { place < length self.old.moments }
        ensures moments { self.new.moments ≡ slice_set self.old.moments place moment }
        ensures spare { self.new.spare ≡ self.old.spare }
    {
        self.moments[place] = moment;
        mend(&mut self.nodes, &self.moments, place);
    }

    /// Tells all moments anew: those at which these items are due, for which there is room.
    pub fn tell_all<T: Timed>(&mut self, items: &[T])
        requires { length items.now ≤ length self.old.moments + self.old.spare }
        ensures moments { self.new.moments ≡ map T.moment items.now }
        ensures spare { length self.old.moments + self.old.spare ≤ length self.new.moments + self.new.spare }
    {
        self.moments.clear();
        put_all(&mut self.moments, items);
        build(&mut self.nodes, &self.moments);
    }

    /// The least moment, in ms; `None` exactly where there is none.
    pub fn least(&self) -> Option<u64>
        ensures { result ≡ least self.now.moments }
    {
        least_in(&self.nodes, &self.moments)
    }

    /// The first place from `from` on whose moment has come at `now`, in ms; `None` exactly where there is none.
    pub fn next_due(&self, from: usize, now: u64) -> Option<usize>
        ensures none { IfNone result (NoneDue self.now.moments now from (length self.now.moments)) }
        ensures within { IfSome result (λ place. place < length self.now.moments) }
        ensures some { IfSome result (IsFirstDue self.now.moments now from) }
    {
        if self.moments.is_empty() {
            return None;
        }
        let all = Part {
            node: 1,
            first: 0,
            width: self.nodes.len(),
        };
        let place = due_in(&self.nodes, &self.moments, all, from, now)?;
        if place < self.moments.len() {
            Some(place)
        } else {
            None
        }
    }
}

// Puts the moments at which items are due behind others, where there is room.
fn put_all<T: Timed>(moments: &mut Vec<u64>, items: &[T])
    requires { length moments.old.items + length items.now ≤ vec_capacity moments.old }
    ensures items { moments.new.items ≡ moments.old.items ++ map T.moment items.now }
    ensures capacity { vec_capacity moments.new ≡ vec_capacity moments.old }
{
    for item in items {
        moments.push_reserved(item.due_at());
    }
}
