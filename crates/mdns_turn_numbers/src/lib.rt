//! A list of numbers that threads append to by turns: a proved caller of `mdns_turn`, and its test.
//!
//! `mdns_turn` is proved from the bounds of its traits alone, so its works run here, in real threads:
//! - `threads`: three threads append, and a last turn takes the list out.
//! - `spawned`: a turn in a spawned thread, for every value that may cross threads.
//! - `lent`: a work that holds a reference.
//! - `modeled`: a value whose fields are private.
#![tactic(auto)]

ghost use Rattle.std.specs.Prelude.{◌≡◌};
ghost use Rattle.mdns_turn_numbers.specs.Numbers.{items_of};

use mdns_turn::{Tale, Work};
use std::alloc::Global;
use std::mem;

pub mod lent;
pub mod modeled;
pub mod spawned;
#[cfg(test)]
mod tests;
pub mod threads;

/// What one turn did to the list.
#[derive(Drop)]
pub enum Change {
    /// This number was appended.
    Added(u64),
    /// There was no memory for the number, and the list is as it was.
    Missed,
    /// The list was looked at.
    Counted,
    /// The list was taken out, and is empty again.
    Taken,
}

/// The list that is shared. It stands for the histories which make it from an empty list.
#[derive(Drop)]
pub struct Numbers {
    pub items: Vec<u64>,
}

impl Tale for Numbers {
    type Turn = Change;

    ghost stands = { λ past n. items_of past ≡ n.items.items };
}

/// Appends a number, and says whether there was memory for it.
#[derive(Drop)]
pub struct Append {
    pub number: u64,
}

impl Work<Numbers> for Append {
    type Reply = bool;

    ghost use Rattle.std.specs.Prelude.{if◌then◌else◌};
    ghost use Rattle.mdns_turn_numbers.specs.declared.Change.TheVariants.{Added, Missed};

    ghost turn = { λ work before reply after. if reply then Added work.number else Missed };

    ghost runs = { λ work before reply after. Unit {0} };

    fn run(self, value: &mut Numbers) -> bool {
        match value.items.push(self.number) {
            Ok(()) => true,
            Err(_) => false,
        }
    }
}

/// Takes the list out, and leaves an empty one.
#[derive(Drop)]
pub struct Take {
    pub alloc: Global,
}

impl Work<Numbers> for Take {
    type Reply = Vec<u64>;

    ghost use Rattle.std.specs.Prelude.{◌≡◌};
    ghost use Rattle.mdns_turn_numbers.specs.declared.Change.TheVariants.{Taken};

    ghost turn = { λ work before reply after. Taken };

    ghost runs = { λ work before reply after. reply.items ≡ before.items.items };

    fn run(self, value: &mut Numbers) -> Vec<u64> {
        mem::replace(&mut value.items, Vec::new(self.alloc))
    }
}
