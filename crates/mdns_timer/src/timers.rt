// Pairs of a moment and what is due then.
ghost use Rattle.std.specs.Prelude.{◌≡◌, ◌+◌, ◌≤◌, [], map, IsOk, OnOk, OnErr, IsSome, IsTrue};
ghost use Rattle.lists.specs.Lists.{least};
ghost use Rattle.mdns_timer.specs.Timing.{has_pair, with_pair, without_pair, first_moment, first_due, without_due};

use std::alloc::{AllocError, Global};
use std::collections::VecDeque;
use std::marker::Model;

/// Pairs of a moment, in ms, and the number of what is due then, with the least of them. A number may stand with several moments.
#[derive(Drop)]
pub struct Timers {
    pairs: VecDeque<(u64, u64)>,
}

impl Model for Timers {
    ghost use Rattle.std.specs.Prelude.{◌-◌};
    ghost use Rattle.std.specs.VecDeque.{deque_len, deque_capacity};
    ghost use Rattle.mdns_timer.specs.Strict.{IsStrict};
    ghost use Rattle.mdns_timer.specs.Timing.{Timing, pair_cmp};

    ghost Value = { Timing };

    ghost view = { λ t. record { pairs = t.pairs.items; spare = deque_capacity t.pairs - deque_len t.pairs } };

    ghost invariant = { λ t. IsStrict pair_cmp t.pairs.items };
}

impl Timers {
    /// No pairs, and no room. It takes no memory.
    pub fn new(alloc: Global) -> Timers
        ensures { result.pairs ≡ [] }
    {
        Timers {
            pairs: VecDeque::new(alloc),
        }
    }

    /// Makes room for `more` pairs. Nothing else changes. Refused only for want of memory.
    pub fn reserve(&mut self, more: usize) -> Result<(), AllocError>
        ensures pairs { self.new.pairs ≡ self.old.pairs }
        ensures room { OnOk result (more ≤ self.new.spare) }
        ensures kept { self.old.spare ≤ self.new.spare }
    {
        self.pairs.reserve(more)
    }

    /// Puts a pair in; one that is there stays once. Refused only for want of memory, never where there is room, and then
    /// the pairs are as before.
    pub fn put(&mut self, moment: u64, id: u64) -> Result<(), AllocError>
        ensures ok { OnOk result (self.new.pairs ≡ with_pair (moment, id) self.old.pairs) }
        ensures err { OnErr result (self.new.pairs ≡ self.old.pairs) }
        ensures reserved { 1 ≤ self.old.spare → IsOk result }
        ensures spare { self.old.spare ≤ self.new.spare + 1 }
    {
        match self.pairs.binary_search(&(moment, id)) {
            Ok(_) => Ok(()),
            Err(place) => {
                self.pairs.insert(place, (moment, id))?;
                Ok(())
            }
        }
    }

    /// Takes a pair out; whether it was there.
    pub fn remove(&mut self, moment: u64, id: u64) -> bool
        ensures had { result ≡ has_pair (moment, id) self.old.pairs }
        ensures pairs { self.new.pairs ≡ without_pair (moment, id) self.old.pairs }
        ensures spare { self.old.spare ≤ self.new.spare }
        ensures freed { IsTrue result → self.old.spare + 1 ≤ self.new.spare }
    {
        match self.pairs.binary_search(&(moment, id)) {
            Ok(place) => self.pairs.remove(place).is_some(),
            Err(_) => false,
        }
    }

    /// Takes out the least pair, by moment and then by number, if its moment has come at `now`, in ms; `None` exactly where none
    /// has, and then nothing changes.
    pub fn take_due(&mut self, now: u64) -> Option<(u64, u64)>
        ensures taken { result ≡ first_due now self.old.pairs }
        ensures pairs { self.new.pairs ≡ without_due now self.old.pairs }
        ensures spare { self.old.spare ≤ self.new.spare }
        ensures freed { IsSome result → self.old.spare + 1 ≤ self.new.spare }
    {
        let (moment, _) = self.pairs.front()?;
        if *moment > now {
            return None;
        }
        self.pairs.pop_front()
    }

    /// The least moment, in ms; `None` exactly where there is no pair.
    pub fn least(&self) -> Option<u64>
        ensures { result ≡ least (map (λ pair. pair.0) self.now.pairs) }
    {
        first_moment(&self.pairs)
    }
}

fn first_moment(pairs: &VecDeque<(u64, u64)>) -> Option<u64>
    ensures { result ≡ first_moment pairs.now.items }
{
    let (moment, _) = pairs.front()?;
    Some(*moment)
}
