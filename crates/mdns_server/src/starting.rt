// The threads of a server: two for each session, one for the ear and one for the ticker.
ghost use Rattle.std.specs.Arc.{arc_value};
ghost use Rattle.std.specs.Prelude.{◌≡◌, ◌<◌, ◌≤◌, true, false, None, IfSome};
ghost use Rattle.mdns_turn.specs.Models.{IsSeatOf};
ghost use Rattle.mdns_server.specs.Openings.{HasOpened};

use crate::chair::{Chair, Job};
use crate::slot::{NewEar, Slot};
use mdns_base::{Sink, Source};
use mdns_outside::{Air, Clock, Ear, Gate, Spawner, Words};
use mdns_serve::{Kit, Shared};
use mdns_turn::Seat;
use std::sync::atomic::{AtomicU64, Ordering};
use std::sync::{Arc, Wait};
use std::thread::JoinHandle;

/// Two threads; one is missing where it couldn't be started.
#[derive(Drop)]
pub(crate) struct Pair {
    pub first: Option<JoinHandle<()>>,
    pub second: Option<JoinHandle<()>>,
    /// Whether both were started.
    pub whole: bool,
}

/// Waits until a thread has ended, where there is one.
pub(crate) fn finish<S: Spawner>(spawner: &S, task: Option<JoinHandle<()>>) {
    if let Some(task) = task {
        spawner.finish(task);
    }
}

/// Waits until both have ended.
pub(crate) fn finish_both<S: Spawner>(spawner: &S, pair: Pair) {
    let Pair { first, second, .. } = pair;
    finish(spawner, first);
    finish(spawner, second);
}

// A work that was to be started: its thread, or the work.
#[derive(Drop)]
struct Started<F> {
    task: Option<JoinHandle<()>>,
    left: Option<F>,
}

// Starts a work in a thread, or hands it back.
fn start<S: Spawner, F: FnOnce() + Send + 'static>(spawner: &mut S, work: F) -> Started<F>
    requires { F.pre work }
    ensures back { IfSome result.left (λ f. f ≡ work) }
    ensures cause { IfSome result.left (λ _. 0 < S.faults spawner.new) }
    ensures quiet { result.left ≡ None → S.faults spawner.new ≡ S.faults spawner.old }
    ensures later { S.faults spawner.old ≤ S.faults spawner.new }
{
    match spawner.start(work) {
        Ok(task) => Started {
            task: Some(task),
            left: None,
        },
        Err(work) => Started {
            task: None,
            left: Some(work),
        },
    }
}

/// The threads of a session.
#[derive(Drop)]
pub(crate) struct Session {
    pub threads: Pair,
    /// How many halves have ended.
    pub ended: Arc<AtomicU64>,
}

impl Session {
    // Whether both halves have ended.
    fn is_over(&self) -> bool {
        self.ended.load(Ordering::SeqCst) == 2
    }
}

/// Joins the threads of the sessions that are over.
pub(crate) fn sweep<S: Spawner>(sessions: &mut Vec<Session>, spawner: &S) {
    for place in (0..sessions.len()).rev() {
        if place < sessions.len() && sessions[place].is_over() {
            let session = sessions.swap_remove(place);
            finish_both(spawner, session.threads);
        }
    }
}

/// The chairs of the two halves of a session.
#[derive(Drop)]
pub(crate) struct Chairs<R> {
    pub reading: Chair<R>,
    pub writing: Chair<R>,
}

/// Starts both halves of the session that the last turn of a seat opened, each in a thread. A half for which no thread can be started is
/// done here.
pub(crate) fn start_halves<
    R: Wait + Copy + Send + 'static,
    S: Spawner,
    I: Source + Send + Drop + 'static,
    O: Sink + Send + Drop + 'static,
    A: Air + Send + Drop + 'static,
    C: Clock + Send + Drop + 'static,
    W: Words + Send + Drop + 'static,
    G: Gate + Send + Drop + 'static,
>(
    spawner: &mut S,
    _seat: &Seat<Shared>,
    chairs: Chairs<R>,
    input: Job<I, A, C, W, G>,
    output: Job<O, A, C, W, G>,
) -> Pair
    requires opened { HasOpened _seat.now.mine input.half.session }
    requires one { output.half.session ≡ input.half.session }
    requires reading { IsSeatOf (arc_value chairs.reading.common.turn) chairs.reading.seat }
    requires writing { IsSeatOf (arc_value chairs.writing.common.turn) chairs.writing.seat }
    ensures cause { result.whole ≡ false → 0 < S.faults spawner.new }
    ensures quiet { result.whole ≡ true → S.faults spawner.new ≡ S.faults spawner.old }
{
    let Chairs { reading, writing } = chairs;
    let read = move || -> ()
        requires { IsSeatOf (arc_value reading.common.turn) reading.seat }
    {
        reading.read(input);
    };
    let write = move || -> ()
        requires { IsSeatOf (arc_value writing.common.turn) writing.seat }
    {
        writing.write(output);
    };
    let Started {
        task: first,
        left: read,
    } = start(spawner, read);
    let Started {
        task: second,
        left: write,
    } = start(spawner, write);
    let whole = read.is_none() && write.is_none();
    if let Some(read) = read {
        read();
    }
    if let Some(write) = write {
        write();
    }
    Pair {
        first,
        second,
        whole,
    }
}

/// What the ear's thread works with.
#[derive(Drop)]
pub(crate) struct Hearing<R, E: Ear, A, C, W> {
    pub chair: Chair<R>,
    pub ear: NewEar<E>,
    pub kit: Kit<A, C, W>,
    pub slot: Arc<Slot<E>>,
}

/// What the ticker's thread works with.
#[derive(Drop)]
pub(crate) struct Ticking<R, A, C, W> {
    pub chair: Chair<R>,
    pub kit: Kit<A, C, W>,
}

/// Starts the loops of the ear and of the ticker, each in a thread. One that can't be started is given up.
pub(crate) fn start_loops<
    R: Wait + Copy + Send + 'static,
    S: Spawner,
    E: Ear + Send + Drop + 'static,
    A: Air + Send + Drop + 'static,
    C: Clock + Send + Drop + 'static,
    W: Words + Send + Drop + 'static,
>(spawner: &mut S, hearing: Hearing<R, E, A, C, W>, ticking: Ticking<R, A, C, W>) -> Pair
    requires hearing { IsSeatOf (arc_value hearing.chair.common.turn) hearing.chair.seat }
    requires ticking { IsSeatOf (arc_value ticking.chair.common.turn) ticking.chair.seat }
    ensures cause { result.whole ≡ false → 0 < S.faults spawner.new }
    ensures quiet { result.whole ≡ true → S.faults spawner.new ≡ S.faults spawner.old }
{
    let Hearing {
        chair,
        ear,
        kit,
        slot,
    } = hearing;
    let hear = move || -> ()
        requires { IsSeatOf (arc_value chair.common.turn) chair.seat }
    {
        chair.hear(ear, kit, &slot);
    };
    let Ticking {
        chair: other,
        kit: tools,
    } = ticking;
    let tick = move || -> ()
        requires { IsSeatOf (arc_value other.common.turn) other.seat }
    {
        other.tick(tools);
    };
    let Started {
        task: first,
        left: hear,
    } = start(spawner, hear);
    let Started {
        task: second,
        left: tick,
    } = start(spawner, tick);
    let whole = hear.is_none() && tick.is_none();
    Pair {
        first,
        second,
        whole,
    }
}
