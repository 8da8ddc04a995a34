//! The turn, and the seats that take it.
//!
//! Inside is a ticket lock over a table of words and one slot. A seat draws a ticket, looks
//! until that ticket is served, takes the value out of the slot, works on it, puts it back, and
//! serves the next ticket. The words never wrap: a word at its last value is left alone. Of the
//! threads that wait, a turn wakes the few that come next, and not all.
ghost use Rattle.std.specs.Prelude.{◌≡◌, ◌<◌, ◌≤◌, ◌+◌, [], ◌∷◌, ◌++◌, ◌⊎◌, true, None, Some, IfOk, IsOkAnd};
ghost use Rattle.mdns_turn.specs.declared.view.Stage.TheVariants.{Idle, Waiting, Inside};
ghost use Rattle.mdns_turn.specs.History.{StartsWith, StandsAfter, turns_of};
ghost use Rattle.mdns_turn.specs.Views.{IsIdle, IsSamePlace, waiting, served, numbered};
ghost use Rattle.mdns_turn.specs.Plays.{Comes, Arrives};
ghost use Rattle.mdns_turn.specs.Models.{seat_model, IsSeatOf, IsSameSeat, HasItsTurns, TakesTurn};

use crate::plays::{Adds, Draw, Fork, Learn, Look, Merge, Name, OneHistory, Serve};
use crate::tale::{Tale, Work};
use crate::view::View;
use atomic_table::{Refused, Table};
use std::alloc::{AllocError, Global};
use std::marker::{Brand, Model};
use std::snapshot::Snapshot;
use std::sync::Wait;
use std::thread;
use std::time::Duration;

/// A seat of the table. Unlike a `Seat` it may be in the middle of a turn.
type Place<T> = atomic_table::Seat<Option<T>, View<T, <T as Tale>::Turn>>;

// The word of the next ticket. The table loads word 0 where it splits and joins seats.
const TICKET: usize = 0;

// The word of the ticket that is served. The threads that come next sleep on it.
const SERVING: usize = 1;

// The word of the next seat's number.
const NUMBERS: usize = 2;

// The words on which the other threads sleep, each on that of its ticket. They stay 0.
const FIRST_BED: usize = 3;

const BEDS: u64 = 32;

// So many that come next sleep on the ticket that is served. Whoever goes to bed as he is called there is called once more.
const NEAR: u64 = 2;

// The longest sleep in a bed, should both calls be missed, in ms.
const NAP: u64 = 20;

/// One value that threads share by turns. A turn is taken with a [`Seat`], and all turns stand in
/// one history, which the value stands for.
///
/// The value is dropped with the `Turn`; who wants it takes it out by a work. Contracts see which
/// turn it is, and the value that it was made with.
#[derive(Drop)]
pub struct Turn<T: Tale> {
    table: Table<Option<T>, View<T, T::Turn>, Snapshot<T>, OneHistory<T>, Global>,
}

impl<T: Tale> Model for Turn<T> {
    ghost use Rattle.std.specs.Prelude.{◌≡◌};
    ghost use Rattle.mdns_turn.specs.Models.{TurnModel, turn_code};

    ghost Value = { TurnModel T };

    ghost coded = { turn_code T.code };

    ghost view = { λ t. record { table = t.table.shared.table_id; opening = t.table.shared.key.value } };

    ghost invariant = { λ t. (t.table.shared.table_id.words ≡ 35) × (t.table.shared.table_id.slots ≡ 1) };
}

/// The right to take turns, one after the other. A thread has one, and may hand it to another.
///
/// It has no bytes. Contracts see its number, the history as far as it has seen it, its own turns,
/// and the seats that were joined into it.
#[derive(Drop)]
pub struct Seat<T: Tale> {
    place: Place<T>,
}

impl<T: Tale> Model for Seat<T> {
    ghost use Rattle.mdns_turn.specs.Models.{SeatModel, seat_code, seat_model};
    ghost use Rattle.mdns_turn.specs.Views.{IsIdle};

    ghost Value = { SeatModel T T.Turn };

    ghost coded = { seat_code T.code T.Turn.code };

    ghost view = { λ s. seat_model s.place };

    ghost invariant = { λ s. IsIdle s.place.me };
}

impl<T: Tale + Drop> Turn<T> {
    /// The turn of a value, and its first seat, with the number 0. Want of memory drops the value.
    pub fn new(alloc: Global, value: T) -> Result<(Turn<T>, Seat<T>), AllocError>
        ensures turn { IfOk result (λ made. (made.0.opening ≡ value) × IsSeatOf made.0 made.1) }
        ensures number { IfOk result (λ made. made.1.number ≡ 0) }
        ensures unused { IfOk result (λ made. (made.1.seen ≡ []) × (made.1.mine ≡ []) × (made.1.joined ≡ [])) }
    {
        let opening = Snapshot::of(&value);
        let mut slots = Vec::new(alloc);
        slots.push(Some(value))?;
        let words = [
            0, 0, 1, 0, 0, 0, 0, 0, 0, 0, 0, 0, 0, 0, 0, 0, 0, 0, 0, 0, 0, 0, 0, 0, 0, 0, 0, 0, 0,
            0, 0, 0, 0, 0, 0,
        ];
        match Table::new(alloc, &words, slots, &opening) {
            Ok((table, place)) => Ok((Turn { table }, Seat { place })),
            Err(Refused { slots: _ }) => Err(AllocError),
        }
    }
}

impl<T: Tale> Turn<T> {
    // Draws the next ticket. Once there is none left, it waits for ever.
    fn draw<R: Wait>(&self, rt: &R, place: &mut Place<T>) -> u64
        requires table { place.old.table_id ≡ self.now.table }
        requires idle { place.old.me.0.stage ≡ Idle }
        ensures place { IsSamePlace place.old place.new }
        ensures seat { place.new.me ≡ (waiting place.old.me.0 result, place.old.me.1) }
    {
        let mut next = 0;
        for _ in rt.forever() {
            if next == u64::MAX {
                thread::yield_now();
                continue;
            }
            let found = self
                .table
                .shared
                .compare_exchange::<Draw>(place, TICKET, next, next + 1);
            if found == next {
                return next;
            }
            next = found;
        }
        unreachable!()
    }

    // Waits until the ticket is served. Then the value is out with the seat.
    fn look<R: Wait>(&self, rt: &R, place: &mut Place<T>, ticket: u64)
        requires table { place.old.table_id ≡ self.now.table }
        requires waits { place.old.me.0.stage ≡ Waiting ticket }
        requires named { place.old.me.0.named ≡ true }
        ensures place { IsSamePlace place.old place.new }
        ensures comes { Comes T.stands ticket place.old.me place.new.me }
    {
        for _ in rt.forever() {
            let found = self.table.shared.load::<Look>(place, SERVING);
            if found == ticket {
                return;
            }
            self.sleep(rt, found, ticket);
        }
        unreachable!()
    }

    // Sleeps until the ticket that is served may be another: on its word where the seat's ticket comes soon, and else in bed.
    fn sleep<R: Wait>(&self, rt: &R, served: u64, ticket: u64) {
        let shared = &self.table.shared;
        if ticket.saturating_sub(served) <= NEAR {
            shared.park(rt, SERVING, (served & 0xffff_ffff) as u32);
        } else {
            shared.park_timeout(rt, bed_of(ticket), 0, Duration::from_millis(NAP));
        }
    }

    // Wakes those that come next once this ticket was served, and calls those behind them from their beds.
    fn wake(&self, served: u64) {
        let shared = &self.table.shared;
        shared.wake_all(SERVING);
        shared.wake_all(bed_of(served.saturating_add(NEAR)));
        shared.wake_all(bed_of(served.saturating_add(NEAR + 1)));
    }

    // Takes the value out of the slot.
    fn take(&self, place: &mut Place<T>) -> T
        requires table { place.old.table_id ≡ self.now.table }
        requires holds { (value : T) × (place.old.me.1 ≡ (0, Some value) ∷ []) }
        ensures place { IsSamePlace place.old place.new }
        ensures value { place.old.me.1 ≡ (0, Some result) ∷ [] }
        ensures seat { place.new.me ≡ (place.old.me.0, (0, None) ∷ []) }
    {
        match self.table.shared.exchange(place, 0, None) {
            Some(value) => value,
            None => unreachable!(),
        }
    }

    // Waits for the seat's turn, and takes the value.
    fn enter<R: Wait>(&self, rt: &R, place: &mut Place<T>) -> T
        requires table { place.old.table_id ≡ self.now.table }
        requires idle { IsIdle place.old.me }
        ensures place { IsSamePlace place.old place.new }
        ensures arrives { Arrives T.stands result place.old.me place.new.me }
    {
        let ticket = self.draw(rt, place);
        self.look(rt, place, ticket);
        self.take(place)
    }

    // Puts the value into the slot again.
    fn put_back(&self, place: &mut Place<T>, value: T)
        requires table { place.old.table_id ≡ self.now.table }
        requires holds { place.old.me.1 ≡ (0, None) ∷ [] }
        ensures place { IsSamePlace place.old place.new }
        ensures seat { place.new.me ≡ (place.old.me.0, (0, Some value) ∷ []) }
    {
        let left = self.table.shared.exchange(place, 0, Some(value));
        let None = left else { unreachable!() };
    }

    // Adds the work's turn to the history, lets the next ticket come, and tells which one was served. The parameters with
    // an underscore say which turn that is, for the proof alone.
    fn serve<A: Adds<T::Turn>, W: Work<T>>(
        &self,
        place: &mut Place<T>,
        _work: &Snapshot<W>,
        _before: &Snapshot<T>,
        _reply: &W::Reply,
        _after: &Snapshot<T>,
    ) -> u64
        requires adds { A.turns ≡ W.turn _work.now.value _before.now.value _reply.now _after.now.value ∷ [] }
        requires table { place.old.table_id ≡ self.now.table }
        requires inside { (ticket : _) × (place.old.me.0.stage ≡ Inside ticket) }
        requires named { place.old.me.0.named ≡ true }
        requires holds { place.old.me.1 ≡ (0, Some _after.now.value) ∷ [] }
        requires opening { place.old.me.0.opening ≡ Some self.now.opening }
        requires stands { StandsAfter T.stands self.now.opening (served place.old.me.0 A.turns).seen _after.now.value }
        ensures place { IsSamePlace place.old place.new }
        ensures seat { place.new.me ≡ (served place.old.me.0 A.turns, []) }
    {
        self.table.shared.fetch_add::<Serve<A>>(place, SERVING, 1)
    }

    // A whole turn, of a seat that is idle before and after it.
    fn turn_at<W: Work<T>, R: Wait>(&self, rt: &R, place: &mut Place<T>, work: W) -> W::Reply
        requires turn { IsSeatOf self.now (seat_model place.old) }
        requires idle { IsIdle place.old.me }
        ensures idle { IsIdle place.new.me }
        ensures same { IsSameSeat (seat_model place.old) (seat_model place.new) }
        ensures turn { TakesTurn T.stands self.now.opening
            (λ before after. W.runs work before result after)
            (λ before after. W.turn work before result after)
            (seat_model place.old) (seat_model place.new) }
        ensures mine { HasItsTurns (seat_model place.new) }
    {
        let mut value = self.enter(rt, place);
        let asked = Snapshot::of(&work);
        let before = Snapshot::of(&value);
        let reply = work.run(&mut value);
        let after = Snapshot::of(&value);
        self.put_back(place, value);
        let served = self.serve::<Brand, W>(place, &asked, &before, &reply, &after);
        self.wake(served);
        reply
    }

    /// Waits for the seat's turn, runs the work on the value, and gives the work's reply. The turn
    /// that the work adds is the last of the history that the seat has then seen.
    ///
    /// It takes no memory beside what the work takes. After 2^64 - 1 turns it waits for ever.
    pub fn turn<W: Work<T>, R: Wait>(&self, rt: &R, seat: &mut Seat<T>, work: W) -> W::Reply
        requires { IsSeatOf self.now seat.old }
        ensures same { IsSameSeat seat.old seat.new }
        ensures turn { TakesTurn T.stands self.now.opening
            (λ before after. W.runs work before result after)
            (λ before after. W.turn work before result after)
            seat.old seat.new }
        ensures mine { HasItsTurns seat.new }
    {
        self.turn_at(rt, &mut seat.place, work)
    }

    // Draws a number for a new seat. Once there is none left, it waits for ever.
    fn name<R: Wait>(&self, rt: &R, place: &mut Place<T>)
        requires table { place.old.table_id ≡ self.now.table }
        requires idle { place.old.me.0.stage ≡ Idle }
        requires new { (place.old.me.0.mine ≡ []) × (place.old.me.0.joined ≡ []) }
        ensures place { IsSamePlace place.old place.new }
        ensures seat { place.new.me ≡ (numbered place.old.me.0 place.new.me.0.number, place.old.me.1) }
        ensures above { place.old.me.0.number < place.new.me.0.number }
        ensures unused { turns_of place.new.me.0.number place.old.me.0.seen ≡ [] }
    {
        let mut next = 0;
        for _ in rt.forever() {
            if next == u64::MAX {
                thread::yield_now();
                continue;
            }
            let found = self
                .table
                .shared
                .compare_exchange::<Name>(place, NUMBERS, next, next + 1);
            if found == next {
                return;
            }
            next = found;
        }
        unreachable!()
    }

    /// A new seat, as for another thread. It has seen as much as this one, has a number of its own,
    /// and no turn yet.
    ///
    /// It takes no memory, and never answers `AllocError`. After 2^64 - 1 seats it waits for ever.
    pub fn split<R: Wait>(&self, rt: &R, seat: &mut Seat<T>) -> Result<Seat<T>, AllocError>
        requires { IsSeatOf self.now seat.old }
        ensures kept { seat.new ≡ seat.old }
        ensures given { IsOkAnd result (λ s. IsSeatOf self.now s × (s.seen ≡ seat.old.seen)) }
        ensures unused { IfOk result (λ s. (s.mine ≡ []) × (s.joined ≡ [])) }
        ensures number { IfOk result (λ s. (seat.old.number < s.number) × HasItsTurns s) }
    {
        let mut place = self.table.shared.split_seat::<Fork>(&mut seat.place);
        self.name(rt, &mut place);
        Ok(Seat { place })
    }

    /// Uses up another seat, and learns what it has seen: the longer of the two lists stands as seen
    /// from now on, and both are beginnings of it. It takes no memory, and doesn't wait.
    pub fn join(&self, seat: &mut Seat<T>, other: Seat<T>)
        requires { IsSeatOf self.now seat.old × IsSeatOf self.now other }
        ensures same { IsSameSeat seat.old seat.new }
        ensures mine { (seat.new.mine ≡ seat.old.mine) × HasItsTurns seat.new }
        ensures joined { seat.new.joined ≡ seat.old.joined ++ (other.number, other.mine) ∷ other.joined }
        ensures both { StartsWith seat.new.seen seat.old.seen × StartsWith seat.new.seen other.seen }
        ensures one { (seat.new.seen ≡ seat.old.seen) ⊎ (seat.new.seen ≡ other.seen) }
    {
        let Seat { place } = other;
        let shared = &self.table.shared;
        shared.join_seat::<Merge>(&mut seat.place, place);
        shared.load::<Learn>(&mut seat.place, TICKET);
    }
}

// The bed of a ticket.
fn bed_of(ticket: u64) -> usize
    ensures { (3 ≤ result) × (result < 35) }
{
    FIRST_BED + (ticket % BEDS) as usize
}
