//! A value that contracts see through a model, and that stands for its last turn alone.
ghost use Rattle.std.specs.Prelude.{◌≡◌};
ghost use Rattle.mdns_turn.specs.Models.{IsSeatOf};
ghost use Rattle.mdns_turn_numbers.specs.Dial.{IsLast, SetsLast};

use mdns_turn::{Seat, Tale, Turn, Work};
use std::marker::Model;
use std::sync::Wait;

/// A number that is set by turns.
#[derive(Drop)]
pub struct Dial {
    value: u64,
}

impl Model for Dial {
    ghost use Rattle.std.specs.Prelude.{ℕ, ◌<◌, ◌^◌};

    ghost Value = { ℕ };

    ghost view = { λ d. d.value };

    ghost invariant = { λ d. d.value < 2 ^ 32 };
}

impl Dial {
    /// A dial that stands at this number.
    pub fn new(value: u32) -> Dial
        ensures { result ≡ value }
    {
        Dial {
            value: value as u64,
        }
    }

    /// Sets it to another number.
    pub fn set(&mut self, to: u32)
        ensures { self.new ≡ to }
    {
        self.value = to as u64;
    }

    /// The number that it stands at.
    pub fn value(&self) -> u64
        ensures { result ≡ self.now }
    {
        self.value
    }
}

impl Tale for Dial {
    type Turn = u32;

    ghost use Rattle.mdns_turn_numbers.specs.Dial.{IsLast};

    ghost stands = { λ past dial. IsLast past dial };
}

/// Sets the number, and gives the one before.
#[derive(Drop)]
pub struct SetTo {
    pub to: u32,
}

impl Work<Dial> for SetTo {
    type Reply = u64;

    ghost use Rattle.std.specs.Prelude.{◌≡◌};

    ghost turn = { λ work before reply after. work.to };

    ghost runs = { λ work before reply after. (reply ≡ before) × (after ≡ work.to) };

    fn run(self, value: &mut Dial) -> u64 {
        let before = value.value();
        value.set(self.to);
        before
    }
}

/// Sets the number in a turn of the seat, and gives the one before.
pub fn set_by_turn<R: Wait>(rt: &R, turn: &Turn<Dial>, seat: &mut Seat<Dial>, to: u32) -> u64
    requires { IsSeatOf turn.now seat.old }
    ensures same { IsSeatOf turn.now seat.new }
    ensures sets { SetsLast turn.now.opening seat.old result to seat.new }
{
    turn.turn(rt, seat, SetTo { to })
}
