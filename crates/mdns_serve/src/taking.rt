// One event as a turn of a seat, with what comes of it.
ghost use Rattle.std.specs.Arc.{arc_value};
ghost use Rattle.std.specs.Prelude.{◌≡◌, ◌≤◌, ◌++◌, ◌∷◌, [], false};
ghost use Rattle.mdns_history.specs.Fitting.{is_boot, AreLegal};
ghost use Rattle.mdns_core.specs.InForce.{in_force};
ghost use Rattle.mdns_turn.specs.History.{turns, StartsWith};
ghost use Rattle.mdns_turn.specs.Models.{IsSeatOf, IsSameSeat, HasItsTurns};
ghost use Rattle.mdns_serve.specs.Turns.{turns_of};
ghost use Rattle.mdns_serve.specs.Shares.{StandsFor};
ghost use Rattle.mdns_serve.specs.Packets.{packets_in, HandsSome};
ghost use Rattle.mdns_serve.specs.Reading.{IsFor};

use crate::air::send_in_order;
use crate::bell::Bell;
use crate::common::{Common, Kit};
use crate::happening::Happening;
use crate::order::SendPlace;
use crate::shared::Shared;
use crate::step::Step;
use mdns_history::{Event, Given, Mark};
use mdns_outside::{Air, Clock, Words};
use mdns_turn::Seat;
use std::sync::Wait;

/// Does an event in a turn of the seat, hands what it sends to the air, and wakes those that it concerns. A turn that finds
/// no memory is missed.
pub fn take_turn<R: Wait, A: Air, C: Clock, W: Words>(
    common: &Common<R>,
    seat: &mut Seat<Shared>,
    kit: &mut Kit<A, C, W>,
    event: Event,
) -> Happening
    requires turn { IsSeatOf (arc_value common.now.turn) seat.old }
    requires no_boot { is_boot event ≡ false }
    ensures same { IsSameSeat seat.old seat.new }
    ensures its { HasItsTurns seat.new }
    ensures joined { seat.new.joined ≡ seat.old.joined }
    ensures seen { StartsWith seat.new.seen seat.old.seen }
    ensures mine { seat.new.mine ≡ seat.old.mine ++ result ∷ [] }
    ensures legal { (past : _) → StandsFor past (arc_value common.now.turn).opening → AreLegal in_force (turns_of (past ++ turns seat.new.seen)) }
    ensures is { IsFor event result }
    ensures air { HandsSome (A.handed kit.old.air) (A.handed kit.new.air) (packets_in result) }
    ensures later { A.faults kit.old.air ≤ A.faults kit.new.air }
{
    let place = SendPlace::new();
    let step = Step::new(
        kit.clock.now(),
        kit.words.word(),
        event,
        &*common.bell,
        &place,
    );
    let happening = common.turn.turn(&common.rt, seat, step);
    follow(common, &place, &happening, &mut kit.air);
    happening
}

/// Wakes those that a turn concerns, and hands what it sends to the air, behind what the turns before send.
pub(crate) fn follow<R: Wait, A: Air>(
    common: &Common<R>,
    place: &SendPlace,
    done: &Happening,
    air: &mut A,
)
    ensures packets { HandsSome (A.handed air.old) (A.handed air.new) (packets_in done.now) }
    ensures later { A.faults air.old ≤ A.faults air.new }
{
    if let Happening::Entered { entry } = done {
        ring_for(
            entry.given.as_slice(),
            entry.marks.as_slice(),
            &entry.event,
            &*common.bell,
        );
        send_in_order(common, place, entry.sent.as_slice(), air);
    }
}

// Wakes the writers of the sessions that were given something, cut or detached. What is given stands by session, so that
// each of these is rung once.
fn ring_for(given: &[Given], marks: &[Mark], event: &Event, bell: &Bell) {
    let mut rung = None;
    for one in given {
        if rung != Some(one.session) {
            bell.ring(one.session);
            rung = Some(one.session);
        }
    }
    for mark in marks {
        if let Mark::Cut { session } = mark {
            bell.ring(*session);
        }
    }
    if let Event::Detach { session } = event {
        bell.ring(*session);
    }
}
