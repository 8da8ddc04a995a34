//! A turn in a spawned thread. It is proved for every value that may go to another thread, and so
//! a `Turn` of such a value may be shared by threads, and a `Seat` may go to another.
ghost use Rattle.mdns_turn.specs.Models.{IsSeatOf};
ghost use Rattle.std.specs.Arc.{arc_value};
ghost use Rattle.std.specs.Prelude.{IfSome};

use mdns_turn::{Seat, Tale, Turn, Work};
use std::alloc::Global;
use std::marker::PhantomData;
use std::snapshot::Snapshot;
use std::sync::{Arc, Wait};
use std::thread;
use std::thread::{Promise, Threads};

/// The reply is what the work gives on some value.
#[derive(Drop)]
struct IsReplyOf<T, W> {
    work: Snapshot<W>,
    value: PhantomData<T>,
}

impl<T: Tale, W: Work<T>> Promise<W::Reply> for IsReplyOf<T, W> {
    ghost kept_by = { λ promise reply. (before : T) × (after : T) × W.runs promise.work.value before reply after };
}

fn one_turn<T: Tale + Drop, W: Work<T>, R: Wait>(
    rt: &R,
    turn: &Arc<Turn<T>, Global>,
    mut seat: Seat<T>,
    work: W,
) -> W::Reply
    requires { IsSeatOf (arc_value turn.now) seat }
    ensures { (before : T) × (after : T) × W.runs work before result after }
{
    turn.turn(rt, &mut seat, work)
}

/// Takes a turn in a thread of its own, and gives the work's reply. `None` where there is no memory
/// or no thread.
pub fn turn_in_thread<T, W, R>(
    rt: R,
    turn: &Arc<Turn<T>, Global>,
    seat: Seat<T>,
    work: W,
) -> Option<W::Reply>
where
    T: Tale + Drop + Send + 'static,
    T::Turn: 'static,
    W: Work<T> + Drop + Send + 'static,
    W::Reply: Drop + Send + 'static,
    R: Threads + Wait + Copy + Send + 'static,
    requires { IsSeatOf (arc_value turn.now) seat }
    ensures { IfSome result (λ reply. (before : T) × (after : T) × W.runs work before reply after) }
{
    let theirs = Arc::try_clone(turn).ok()?;
    let promise = IsReplyOf::<T, W> {
        work: Snapshot::of(&work),
        value: PhantomData,
    };
    let child = thread::spawn_with(
        &rt,
        promise,
        move || -> W::Reply
            requires { IsSeatOf (arc_value theirs) seat }
            ensures { (before : T) × (after : T) × W.runs work before result after }
        { one_turn(&rt, &theirs, seat, work) },
    )
    .ok()?;
    Some(child.join(&rt))
}
