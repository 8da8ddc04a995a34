// What a thread of a server owns, and what it does with it.
ghost use Rattle.std.specs.Arc.{arc_value};
ghost use Rattle.std.specs.Prelude.{◌≡◌, IfOk};
ghost use Rattle.mdns_turn.specs.Models.{IsSeatOf};

use crate::slot::{EndedEar, NewEar, Slot};
use mdns_base::{Sink, Source};
use mdns_outside::{Air, Clock, Ear, Gate, Words};
use mdns_serve::{Common, Half, Kit, Shared, hear_loop, read_half, tick_loop, write_half};
use mdns_turn::Seat;
use std::alloc::AllocError;
use std::sync::atomic::{AtomicU64, Ordering};
use std::sync::{Arc, Wait};

/// What one thread of a server works with: its seat at the turn, and what all share.
#[derive(Drop)]
pub(crate) struct Chair<R> {
    pub common: Common<R>,
    pub seat: Seat<Shared>,
}

/// What is to be done for one half of a session, with the parts of its thread.
#[derive(Drop)]
pub(crate) struct Job<E, A, C, W, G> {
    pub half: Half<E, G>,
    pub kit: Kit<A, C, W>,
    /// How many halves of the session have ended.
    pub ended: Arc<AtomicU64>,
}

/// Chairs for two other threads. Their seats have seen what this one has. Refused only for want of memory.
pub(crate) fn two_chairs<R: Wait + Copy>(
    common: &Common<R>,
    seat: &mut Seat<Shared>,
) -> Result<(Chair<R>, Chair<R>), AllocError>
    requires { IsSeatOf (arc_value common.now.turn) seat.old }
    ensures kept { seat.new ≡ seat.old }
    ensures first { IfOk result (λ two. IsSeatOf (arc_value two.0.common.turn) two.0.seat) }
    ensures second { IfOk result (λ two. IsSeatOf (arc_value two.1.common.turn) two.1.seat) }
{
    let first = chair_beside(common, seat)?;
    let second = chair_beside(common, seat)?;
    Ok((first, second))
}

// A chair for another thread.
fn chair_beside<R: Wait + Copy>(
    common: &Common<R>,
    seat: &mut Seat<Shared>,
) -> Result<Chair<R>, AllocError>
    requires { IsSeatOf (arc_value common.now.turn) seat.old }
    ensures kept { seat.new ≡ seat.old }
    ensures its { IfOk result (λ c. IsSeatOf (arc_value c.common.turn) c.seat) }
{
    let shared = common.share()?;
    let seat = common.turn.split(&common.rt, seat)?;
    Ok(Chair {
        common: shared,
        seat,
    })
}

impl<R: Wait + Copy> Chair<R> {
    /// Reads the requests of a session until its source ends.
    pub(crate) fn read<
        S: Source + Drop,
        A: Air + Drop,
        C: Clock + Drop,
        W: Words + Drop,
        G: Gate + Drop,
    >(self, job: Job<S, A, C, W, G>)
        requires { IsSeatOf (arc_value self.common.turn) self.seat }
    {
        let Chair { common, mut seat } = self;
        let Job {
            mut half,
            mut kit,
            ended,
        } = job;
        read_half(&common, &mut seat, &mut kit, &mut half);
        ended.fetch_add(1, Ordering::SeqCst);
    }

    /// Writes the items of a session until it is over.
    pub(crate) fn write<
        K: Sink + Drop,
        A: Air + Drop,
        C: Clock + Drop,
        W: Words + Drop,
        G: Gate + Drop,
    >(self, job: Job<K, A, C, W, G>)
        requires { IsSeatOf (arc_value self.common.turn) self.seat }
    {
        let Chair { common, mut seat } = self;
        let Job {
            mut half,
            mut kit,
            ended,
        } = job;
        write_half(&common, &mut seat, &mut kit, &mut half);
        ended.fetch_add(1, Ordering::SeqCst);
    }

    /// Hears what comes to an ear, and then leaves the ear in the slot.
    pub(crate) fn hear<E: Ear + Drop, A: Air + Drop, C: Clock + Drop, W: Words + Drop>(
        self,
        ear: NewEar<E>,
        kit: Kit<A, C, W>,
        slot: &Slot<E>,
    )
        requires { IsSeatOf (arc_value self.common.turn) self.seat }
    {
        let Chair { common, mut seat } = self;
        let NewEar { mut ear } = ear;
        let mut kit = kit;
        let end = hear_loop(&common, &mut seat, &mut kit, &mut ear);
        slot.leave(&common.rt, EndedEar { ear, end });
    }

    /// Ticks until the bell is closed.
    pub(crate) fn tick<A: Air + Drop, C: Clock + Drop, W: Words + Drop>(self, kit: Kit<A, C, W>)
        requires { IsSeatOf (arc_value self.common.turn) self.seat }
    {
        let Chair { common, mut seat } = self;
        let mut kit = kit;
        tick_loop(&common, &mut seat, &mut kit);
    }
}
