//! What each thread does with its seat.
ghost use Rattle.std.specs.Prelude.{◌≡◌, ℕ, List, true, false, [], ◌∷◌, ◌++◌, map, take, IfSome};
ghost use Rattle.mdns_turn.specs.History.{StartsWith, turns};
ghost use Rattle.mdns_turn.specs.Models.{IsSeatOf, IsSameSeat, HasItsTurns};
ghost use Rattle.mdns_turn_numbers.specs.declared.Change.TheVariants.{Added, Missed, Taken};
ghost use Rattle.mdns_turn_numbers.specs.Numbers.{TakesOut, IsMadeByThree};

use crate::{Append, Numbers, Take};
use mdns_turn::{Seat, Turn};
use std::alloc::Global;
use std::sync::Wait;
use std::thread::{Threads, join};

/// Appends all numbers, each in a turn. `false` where a turn found no memory, and then the rest is left.
pub fn append_all<R: Wait>(
    rt: &R,
    turn: &Turn<Numbers>,
    seat: &mut Seat<Numbers>,
    numbers: &[u64],
) -> bool
    requires { IsSeatOf turn.now seat.old }
    ensures same { IsSameSeat seat.old seat.new }
    ensures seen { StartsWith seat.new.seen seat.old.seen }
    ensures all { result ≡ true → seat.new.mine ≡ seat.old.mine ++ map Added numbers.now }
    ensures missed { result ≡ false → (k : _) × (seat.new.mine ≡ (seat.old.mine ++ map Added (take k numbers.now)) ++ Missed ∷ []) }
    ensures joined { seat.new.joined ≡ seat.old.joined }
{
    for n in numbers {
        if !turn.turn(rt, seat, Append { number: *n }) {
            return false;
        }
    }
    true
}

/// Takes the list out: it is what all turns that the seat has seen then, before its own, make of the empty list that the
/// turn was made with.
pub fn take_out<R: Wait>(
    rt: &R,
    alloc: Global,
    turn: &Turn<Numbers>,
    seat: &mut Seat<Numbers>,
) -> Vec<u64>
    requires turn { IsSeatOf turn.now seat.old }
    requires empty { turn.now.opening.items.items ≡ [] }
    ensures same { IsSameSeat seat.old seat.new }
    ensures mine { HasItsTurns seat.new }
    ensures joined { seat.new.joined ≡ seat.old.joined }
    ensures own { seat.new.mine ≡ seat.old.mine ++ Taken ∷ [] }
    ensures items { TakesOut result.items seat.old seat.new }
{
    turn.turn(rt, seat, Take { alloc })
}

// Appends all numbers with a seat that has no turn yet. `None` where memory ran out.
fn append_by<R: Wait>(
    rt: &R,
    turn: &Turn<Numbers>,
    mut seat: Seat<Numbers>,
    numbers: &[u64],
) -> Option<Seat<Numbers>>
    requires turn { IsSeatOf turn.now seat }
    requires new { (seat.mine ≡ []) × (seat.joined ≡ []) }
    ensures { IfSome result (λ s. IsSeatOf turn.now s × (s.joined ≡ []) × (s.mine ≡ map Added numbers.now)) }
{
    if append_all(rt, turn, &mut seat, numbers) {
        Some(seat)
    } else {
        None
    }
}

// The seats of three threads.
#[derive(Drop)]
struct Seats {
    first: Seat<Numbers>,
    second: Seat<Numbers>,
    third: Seat<Numbers>,
}

// Joins the seats of three threads into the first seat, and takes the list out.
fn gather<R: Wait>(
    rt: &R,
    alloc: Global,
    turn: &Turn<Numbers>,
    seat: &mut Seat<Numbers>,
    seats: Seats,
) -> Vec<u64>
    requires turn { IsSeatOf turn.now seat.old × IsSeatOf turn.now seats.first × IsSeatOf turn.now seats.second × IsSeatOf turn.now seats.third }
    requires empty { turn.now.opening.items.items ≡ [] }
    requires joined { (seat.old.joined ≡ []) × (seats.first.joined ≡ []) × (seats.second.joined ≡ []) × (seats.third.joined ≡ []) }
    ensures same { IsSameSeat seat.old seat.new }
    ensures made { (one two three : List ℕ) → seats.first.mine ≡ map Added one → seats.second.mine ≡ map Added two → seats.third.mine ≡ map Added three → IsMadeByThree result.items seat.new one two three }
{
    let Seats {
        first,
        second,
        third,
    } = seats;
    turn.join(seat, first);
    turn.join(seat, second);
    turn.join(seat, third);
    take_out(rt, alloc, turn, seat)
}

/// What each of three threads appends.
#[derive(Clone, Copy)]
pub struct Shares<'a> {
    pub first: &'a [u64],
    pub second: &'a [u64],
    pub third: &'a [u64],
}

/// Three threads append their numbers, and then the seat takes the list out. It is the list of all turns that the seat
/// has seen then, among them just these of the three. `None` where memory ran out.
pub fn by_three<R: Threads + Wait + Sync>(
    rt: &R,
    alloc: Global,
    turn: &Turn<Numbers>,
    seat: &mut Seat<Numbers>,
    shares: Shares<'_>,
) -> Option<Vec<u64>>
    requires turn { IsSeatOf turn.now seat.old × (seat.old.joined ≡ []) }
    requires empty { turn.now.opening.items.items ≡ [] }
    ensures same { IsSameSeat seat.old seat.new }
    ensures made { IfSome result (λ v. IsMadeByThree v.items seat.new shares.entry.first.now shares.entry.second.now shares.entry.third.now) }
{
    let Shares {
        first: one,
        second: two,
        third: three,
    } = shares;
    let first = turn.split(rt, seat).ok()?;
    let second = turn.split(rt, seat).ok()?;
    let third = turn.split(rt, seat).ok()?;
    let (a, (b, c)) = join(
        rt,
        || -> Option<Seat<Numbers>>
            requires { IsSeatOf turn.now first × (first.mine ≡ []) × (first.joined ≡ []) }
            ensures { IfSome result (λ s. IsSeatOf turn.entry.now s × (s.joined ≡ []) × (s.mine ≡ map Added one.entry.now)) }
        { append_by(rt, turn, first, one) },
        || -> (Option<Seat<Numbers>>, Option<Seat<Numbers>>)
            requires { IsSeatOf turn.now second × (second.mine ≡ []) × (second.joined ≡ []) × IsSeatOf turn.now third × (third.mine ≡ []) × (third.joined ≡ []) }
            ensures two { IfSome result.0 (λ s. IsSeatOf turn.entry.now s × (s.joined ≡ []) × (s.mine ≡ map Added two.entry.now)) }
            ensures three { IfSome result.1 (λ s. IsSeatOf turn.entry.now s × (s.joined ≡ []) × (s.mine ≡ map Added three.entry.now)) }
        {
            join(
                rt,
                || -> Option<Seat<Numbers>>
                    requires { IsSeatOf turn.now second × (second.mine ≡ []) × (second.joined ≡ []) }
                    ensures { IfSome result (λ s. IsSeatOf turn.entry.now s × (s.joined ≡ []) × (s.mine ≡ map Added two.entry.now)) }
                { append_by(rt, turn, second, two) },
                || -> Option<Seat<Numbers>>
                    requires { IsSeatOf turn.now third × (third.mine ≡ []) × (third.joined ≡ []) }
                    ensures { IfSome result (λ s. IsSeatOf turn.entry.now s × (s.joined ≡ []) × (s.mine ≡ map Added three.entry.now)) }
                { append_by(rt, turn, third, three) },
            )
        },
    );
    let seats = Seats {
        first: a?,
        second: b?,
        third: c?,
    };
    Some(gather(rt, alloc, turn, seat, seats))
}
