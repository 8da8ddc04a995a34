// Connections are accepted, one after the other.
ghost use Rattle.std.specs.Arc.{arc_value};
ghost use Rattle.std.specs.Prelude.{◌≡◌, ◌≢◌, ◌<◌, true, false, IfOk, IfSome, Some, vec_len, vec_capacity};
ghost use Rattle.mdns_base.specs.Outside.{Rose};
ghost use Rattle.mdns_turn.specs.Models.{IsSeatOf};
ghost use Rattle.mdns_server.specs.Endings.{MayFault, HasStopped, is_whole};
ghost use Rattle.mdns_server.specs.Openings.{Opens, OpensOne};

use crate::chair::{Job, two_chairs};
use crate::making::{HalfParts, KitOf, make_halves};
use crate::session::{attach, miss};
use crate::slot::Slot;
use crate::starting::{Chairs, Session, start_halves, sweep};
use crate::status::Stop;
use mdns_base::Sink;
use mdns_outside::{Door, Place};
use mdns_serve::{Common, Half, Shared};
use mdns_turn::Seat;
use std::alloc::{AllocError, Global};
use std::sync::atomic::AtomicU64;
use std::sync::{Arc, Wait};

/// What the accepting thread works with.
#[derive(Drop)]
pub(crate) struct Desk<R, P: Place> {
    pub common: Common<R>,
    pub kit: KitOf<P>,
    pub spawner: P::Spawner,
    pub sessions: Vec<Session>,
    pub slot: Arc<Slot<P::Ear>>,
}

/// Both ends of a connection.
type Caller<P> = (
    <<P as Place>::Door as Door>::In,
    <<P as Place>::Door as Door>::Out,
);

/// How many halves of a session have ended.
type Count = Arc<AtomicU64>;

// What a session was given before it was opened.
#[derive(Drop)]
struct Ready<R> {
    chairs: Chairs<R>,
    ended: Count,
    reading_ended: Count,
    writing_ended: Count,
}

// What became of a connection.
#[derive(Clone, Copy, PartialEq, Eq)]
enum Welcome {
    // It was let in, or found no room.
    Done,
    // Its parts couldn't be made.
    Link,
    // A thread couldn't be started; its session has ended.
    Spawner,
}

/// Accepts connections, where the loops of the ear and of the ticker were started.
pub(crate) fn accept_started<R: Wait + Copy + Send + 'static, P: Place>(
    desk: &mut Desk<R, P>,
    seat: &mut Seat<Shared>,
    place: &mut P,
    door: &mut P::Door,
    started: bool,
) -> Stop<P::Ear>
    requires turn { IsSeatOf (arc_value desk.old.common.turn) seat.old }
    requires cause { started ≡ false → 0 < P.Spawner.faults desk.old.spawner }
    ensures opens { Opens seat.old seat.new (P.Door.given door.old) (P.Door.given door.new) (is_whole (Some result)) }
    ensures place { MayFault (P.counted place.old) (P.counted place.new) }
    ensures stop { HasStopped P.Ear.faults (P.Door.over door.new) (P.Door.faults door.new) (P.Spawner.faults desk.new.spawner) result }
    ensures link { result ≡ Stop.Link → Rose (P.counted place.old).link_faults (P.counted place.new).link_faults }
    ensures over { result ≢ Stop.Over → P.Door.over door.new ≡ P.Door.over door.old }
    ensures door { result ≢ Stop.Door → P.Door.faults door.new ≡ P.Door.faults door.old }
    ensures spawner { result ≢ Stop.Spawner → P.Spawner.faults desk.new.spawner ≡ P.Spawner.faults desk.old.spawner }
    ensures started { result ≢ Stop.Spawner → started ≡ true }
    ensures still { result ≢ Stop.Link → P.counted place.new ≡ P.counted place.old }
{
    if started {
        accept_all(desk, seat, place, door)
    } else {
        Stop::Spawner
    }
}

// Accepts connections and gives each a session of two halves, until the door gives no more or something fails. A connection
// for which there is no room or no memory is finished at once.
fn accept_all<R: Wait + Copy + Send + 'static, P: Place>(
    desk: &mut Desk<R, P>,
    seat: &mut Seat<Shared>,
    place: &mut P,
    door: &mut P::Door,
) -> Stop<P::Ear>
    requires { IsSeatOf (arc_value desk.old.common.turn) seat.old }
    ensures opens { Opens seat.old seat.new (P.Door.given door.old) (P.Door.given door.new) (is_whole (Some result)) }
    ensures place { MayFault (P.counted place.old) (P.counted place.new) }
    ensures stop { HasStopped P.Ear.faults (P.Door.over door.new) (P.Door.faults door.new) (P.Spawner.faults desk.new.spawner) result }
    ensures link { result ≡ Stop.Link → Rose (P.counted place.old).link_faults (P.counted place.new).link_faults }
    ensures over { result ≢ Stop.Over → P.Door.over door.new ≡ P.Door.over door.old }
    ensures door { result ≢ Stop.Door → P.Door.faults door.new ≡ P.Door.faults door.old }
    ensures spawner { result ≢ Stop.Spawner → P.Spawner.faults desk.new.spawner ≡ P.Spawner.faults desk.old.spawner }
    ensures still { result ≢ Stop.Link → P.counted place.new ≡ P.counted place.old }
{
    let rt = desk.common.rt;
    for _ in rt.forever() {
        let next = accept_one(desk, seat, place, door);
        if let Some(stop) = next {
            return stop;
        }
    }
    unreachable!()
}

// Waits for one connection and gives it a session; the answer is why no more is accepted, if so.
fn accept_one<R: Wait + Copy + Send + 'static, P: Place>(
    desk: &mut Desk<R, P>,
    seat: &mut Seat<Shared>,
    place: &mut P,
    door: &mut P::Door,
) -> Option<Stop<P::Ear>>
    requires { IsSeatOf (arc_value desk.old.common.turn) seat.old }
    ensures common { desk.new.common ≡ desk.old.common }
    ensures opens { Opens seat.old seat.new (P.Door.given door.old) (P.Door.given door.new) (is_whole result) }
    ensures place { MayFault (P.counted place.old) (P.counted place.new) }
    ensures stop { IfSome result (HasStopped P.Ear.faults (P.Door.over door.new) (P.Door.faults door.new) (P.Spawner.faults desk.new.spawner)) }
    ensures link { result ≡ Some Stop.Link → Rose (P.counted place.old).link_faults (P.counted place.new).link_faults }
    ensures over { result ≢ Some Stop.Over → P.Door.over door.new ≡ P.Door.over door.old }
    ensures door { result ≢ Some Stop.Door → P.Door.faults door.new ≡ P.Door.faults door.old }
    ensures spawner { result ≢ Some Stop.Spawner → P.Spawner.faults desk.new.spawner ≡ P.Spawner.faults desk.old.spawner }
    ensures still { result ≢ Some Stop.Link → P.counted place.new ≡ P.counted place.old }
{
    let caller = match door.next() {
        Ok(Some(caller)) => caller,
        Ok(None) => return Some(Stop::Over),
        Err(_) => return Some(Stop::Door),
    };
    let rt = desk.common.rt;
    if let Some(ear) = desk.slot.take_failed(&rt) {
        turn_away::<P>(caller);
        return Some(Stop::Ear { ear });
    }
    match let_in(desk, seat, place, caller) {
        Welcome::Done => None,
        Welcome::Link => Some(Stop::Link),
        Welcome::Spawner => Some(Stop::Spawner),
    }
}

// Gives a connection a session.
fn let_in<R: Wait + Copy + Send + 'static, P: Place>(
    desk: &mut Desk<R, P>,
    seat: &mut Seat<Shared>,
    place: &mut P,
    caller: Caller<P>,
) -> Welcome
    requires { IsSeatOf (arc_value desk.old.common.turn) seat.old }
    ensures common { desk.new.common ≡ desk.old.common }
    ensures opens { result ≢ Welcome.Link → OpensOne seat.old seat.new }
    ensures place { MayFault (P.counted place.old) (P.counted place.new) }
    ensures link { result ≡ Welcome.Link → (seat.new ≡ seat.old) × Rose (P.counted place.old).link_faults (P.counted place.new).link_faults }
    ensures spawner { result ≡ Welcome.Spawner → 0 < P.Spawner.faults desk.new.spawner }
    ensures quiet { result ≢ Welcome.Spawner → P.Spawner.faults desk.new.spawner ≡ P.Spawner.faults desk.old.spawner }
    ensures still { result ≢ Welcome.Link → P.counted place.new ≡ P.counted place.old }
{
    sweep(&mut desk.sessions, &desk.spawner);
    let Ok(parts) = make_halves(place) else {
        turn_away::<P>(caller);
        return Welcome::Link;
    };
    match make_ready(desk, seat) {
        Ok(ready) => open(desk, seat, ready, parts, caller),
        Err(_) => {
            miss(&desk.common, seat);
            turn_away::<P>(caller);
            Welcome::Done
        }
    }
}

// Finishes a connection.
fn turn_away<P: Place>(caller: Caller<P>) {
    let (_input, mut output) = caller;
    output.finish();
}

// All that a session needs memory for, before it is opened.
fn make_ready<R: Wait + Copy, P: Place>(
    desk: &mut Desk<R, P>,
    seat: &mut Seat<Shared>,
) -> Result<Ready<R>, AllocError>
    requires { IsSeatOf (arc_value desk.old.common.turn) seat.old }
    ensures seat { seat.new ≡ seat.old }
    ensures common { desk.new.common ≡ desk.old.common }
    ensures quiet { P.Spawner.faults desk.new.spawner ≡ P.Spawner.faults desk.old.spawner }
    ensures room { IfOk result (λ _. vec_len desk.new.sessions < vec_capacity desk.new.sessions) }
    ensures reading { IfOk result (λ r. IsSeatOf (arc_value r.chairs.reading.common.turn) r.chairs.reading.seat) }
    ensures writing { IfOk result (λ r. IsSeatOf (arc_value r.chairs.writing.common.turn) r.chairs.writing.seat) }
{
    desk.sessions.reserve(1)?;
    let (ended, reading_ended, writing_ended) = shared_count(desk.common.alloc)?;
    let (reading, writing) = two_chairs(&desk.common, seat)?;
    Ok(Ready {
        chairs: Chairs { reading, writing },
        ended,
        reading_ended,
        writing_ended,
    })
}

// A count of ended halves that three hold. Refused only for want of memory.
fn shared_count(alloc: Global) -> Result<(Count, Count, Count), AllocError> {
    let first = Arc::new(alloc, AtomicU64::new(0))?;
    let second = Arc::try_clone(&first)?;
    let third = Arc::try_clone(&first)?;
    Ok((first, second, third))
}

// Opens a session for a connection and starts its halves.
fn open<R: Wait + Copy + Send + 'static, P: Place>(
    desk: &mut Desk<R, P>,
    seat: &mut Seat<Shared>,
    ready: Ready<R>,
    parts: HalfParts<P>,
    caller: Caller<P>,
) -> Welcome
    requires turn { IsSeatOf (arc_value desk.old.common.turn) seat.old }
    requires room { vec_len desk.old.sessions < vec_capacity desk.old.sessions }
    requires reading { IsSeatOf (arc_value ready.chairs.reading.common.turn) ready.chairs.reading.seat }
    requires writing { IsSeatOf (arc_value ready.chairs.writing.common.turn) ready.chairs.writing.seat }
    ensures common { desk.new.common ≡ desk.old.common }
    ensures opens { OpensOne seat.old seat.new }
    ensures link { result ≢ Welcome.Link }
    ensures spawner { result ≡ Welcome.Spawner → 0 < P.Spawner.faults desk.new.spawner }
    ensures quiet { result ≢ Welcome.Spawner → P.Spawner.faults desk.new.spawner ≡ P.Spawner.faults desk.old.spawner }
{
    let Some(session) = attach(&desk.common, seat, &mut desk.kit) else {
        turn_away::<P>(caller);
        return Welcome::Done;
    };
    let (input, output) = caller;
    let reading = Job {
        half: Half {
            session,
            end: input,
            gate: parts.reading_gate,
        },
        kit: parts.reading,
        ended: ready.reading_ended,
    };
    let writing = Job {
        half: Half {
            session,
            end: output,
            gate: parts.writing_gate,
        },
        kit: parts.writing,
        ended: ready.writing_ended,
    };
    let threads = start_halves(&mut desk.spawner, seat, ready.chairs, reading, writing);
    let whole = threads.whole;
    desk.sessions.push_reserved(Session {
        threads,
        ended: ready.ended,
    });
    if whole {
        Welcome::Done
    } else {
        Welcome::Spawner
    }
}
