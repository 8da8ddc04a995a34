//! A work that holds a reference.
ghost use Rattle.std.specs.Prelude.{◌≡◌, [], ◌∷◌, ◌++◌, length};
ghost use Rattle.mdns_turn.specs.Models.{IsSeatOf, IsSameSeat, HasItsTurns};
ghost use Rattle.mdns_turn_numbers.specs.declared.Change.TheVariants.{Counted};
ghost use Rattle.mdns_turn_numbers.specs.Numbers.{Counts};

use crate::Numbers;
use mdns_turn::{Seat, Turn, Work};
use std::sync::Wait;

/// Counts numbers of the caller's own, and those of the shared list.
#[derive(Drop)]
pub struct Count<'a> {
    pub own: &'a [u64],
}

impl<'a> Work<Numbers> for Count<'a> {
    type Reply = (usize, usize);

    ghost use Rattle.std.specs.Prelude.{◌≡◌, length};
    ghost use Rattle.mdns_turn_numbers.specs.declared.Change.TheVariants.{Counted};

    ghost turn = { λ work before reply after. Counted };

    ghost runs = { λ work before reply after. (reply.0 ≡ length work.own.now) × (reply.1 ≡ length before.items.items) };

    fn run(self, value: &mut Numbers) -> (usize, usize) {
        (self.own.len(), value.items.len())
    }
}

/// How many numbers there are of the caller's own, and how many the list has at the seat's turn: the list that is made
/// by all turns which the seat has seen then, before its own.
pub fn count_both<R: Wait>(
    rt: &R,
    turn: &Turn<Numbers>,
    seat: &mut Seat<Numbers>,
    own: &[u64],
) -> (usize, usize)
    requires turn { IsSeatOf turn.now seat.old }
    requires empty { turn.now.opening.items.items ≡ [] }
    ensures own { result.0 ≡ length own.now }
    ensures shared { Counts result.1 seat.old seat.new }
    ensures same { IsSameSeat seat.old seat.new }
    ensures mine { HasItsTurns seat.new × (seat.new.mine ≡ seat.old.mine ++ Counted ∷ []) }
{
    turn.turn(rt, seat, Count { own })
}
