// The daemons that were booted, each in the slot of its number.
ghost use Rattle.std.specs.Prelude.{ℕ, ◌≡◌, ◌<◌, ◌≤◌, ◌^◌, [], ◌==◌, true, false, cond, Some, OnOk, OnErr, IfOk, vec_len};
ghost use Rattle.std.specs.Option.{option_map, is_some};
ghost use Rattle.mdns_history.specs.Fitting.{is_boot};
ghost use Rattle.mdns_hub.specs.Slots.{slot_at, is_kept, address_at, due_at, tally_at, AreBehind};
ghost use Rattle.mdns_hub.specs.Stepped.{IsStep};

use crate::historic::Standing;
use crate::slots::put;
use crate::steps::entry_of;
use crate::tally::Tally;
use mdns_base::Moment;
use mdns_history::{Entry, Event};
use std::alloc::{AllocError, Global};
use std::marker::Brand;
use std::sync::ledger::Blank;

/// A daemon, the address with which it was booted, and what it gave.
#[derive(Drop)]
pub(crate) struct Booted {
    pub address: u32,
    pub daemon: Standing,
    pub tally: Tally,
}

/// The daemons that were booted: each in the slot of its number, of which the first is that of 0.
#[derive(Drop)]
pub(crate) struct Daemons {
    slots: Vec<Option<Booted>>,
    ghost few: { vec_len slots ≤ 17 },
}

impl Daemons {
    /// No daemon was booted.
    pub fn new(alloc: Global) -> Self
        ensures { result.slots.items ≡ [] }
    {
        Daemons {
            slots: Vec::new(alloc),
        }
    }

    // The daemon of a number.
    fn get(&self, number: u32) -> Option<&Booted>
        ensures { option_map (λ booted. booted.now) result ≡ slot_at self.now.slots.items number }
    {
        match self.slots.get(number as usize) {
            Some(Some(booted)) => Some(booted),
            _ => None,
        }
    }

    /// Whether the daemon of a number was booted.
    pub fn has(&self, number: u32) -> bool
        ensures { result ≡ is_kept self.now.slots.items number }
    {
        self.get(number).is_some()
    }

    /// The address of the daemon of a number.
    pub fn address(&self, number: u32) -> Option<u32>
        ensures { result ≡ address_at self.now.slots.items number }
    {
        match self.get(number) {
            Some(booted) => Some(booted.address),
            None => None,
        }
    }

    /// When something of the daemon of a number is due, in milliseconds.
    pub fn next_due(&self, number: u32) -> Option<u64>
        ensures { result ≡ due_at self.now.slots.items number }
    {
        match self.get(number) {
            Some(booted) => booted.daemon.next_due(),
            None => None,
        }
    }

    /// What the daemon of a number gave to its sessions.
    pub fn tally(&self, number: u32) -> Tally
        ensures { result ≡ tally_at self.now.slots.items number }
    {
        match self.get(number) {
            Some(booted) => booted.tally,
            None => Tally::new(),
        }
    }

    /// Puts a daemon into the slot of its number. Refused only for want of memory; then each slot is as before.
    pub fn boot(&mut self, number: u32, booted: Booted) -> Result<(), AllocError>
        requires { number ≤ 16 }
        ensures done { OnOk result ((other : ℕ) → slot_at self.new.slots.items other
            ≡ cond (other == number) (Some booted) (slot_at self.old.slots.items other)) }
        ensures err { OnErr result ((other : ℕ) → slot_at self.new.slots.items other ≡ slot_at self.old.slots.items other) }
    {
        put(&mut self.slots, number as usize, booted)
    }

    /// One event of the daemon of a number at `now`, in milliseconds, with a random word, and its entry. Refused only for want
    /// of memory; then each daemon is as before.
    pub fn step(
        &mut self,
        number: u32,
        now: Moment,
        word: u32,
        event: Event,
    ) -> Result<Entry, AllocError>
        requires kept { is_kept self.old.slots.items number ≡ true }
        requires behind { AreBehind now self.old.slots.items }
        requires no_boot { is_boot event ≡ false }

        ensures done { IfOk result (λ entry. IsStep number now word event self.old.slots.items self.new.slots.items entry) }
        ensures err { OnErr result (self.new.slots.items ≡ self.old.slots.items) }
    {
        match &mut self.slots[number as usize] {
            Some(booted) => {
                let entry = entry_of::<Brand>(&mut booted.daemon, now, word, event, Blank::new(1))?;
                booted.tally.count_all(entry.given.as_slice());
                Ok(entry)
            }
            None => unreachable!(),
        }
    }
}
