// The server.
ghost use Rattle.std.specs.Arc.{arc_value};
ghost use Rattle.std.specs.Io.KnownBytes.{Appends};
ghost use Rattle.std.specs.Prelude.{◌≡◌, ◌≢◌, ◌⊎◌, ℕ, IfOk, IfErr, OnOk, OnErr, Some, take};
ghost use Rattle.mdns_base.specs.Outside.{Rose};
ghost use Rattle.mdns_turn.specs.Models.{IsSeatOf};
ghost use Rattle.mdns_server.specs.Endings.{Ends, StaysCounted, IsServeStatus, IsLoopStatus, is_done, serving_line};
ghost use Rattle.mdns_server.specs.Openings.{Opens};

use crate::accepting::{Desk, accept_started};
use crate::booting::SharedDaemon;
use crate::chair::{Chair, two_chairs};
use crate::closing::close;
use crate::making::{Parts, make_parts};
use crate::slot::{NewEar, Slot};
use crate::starting::{Hearing, Ticking, start_loops};
use crate::status::{NO_MEMORY, WRITE_FAULT};
use mdns_base::Sink;
use mdns_outside::{Ear, Place};
use mdns_serve::{Bell, Common, Shared};
use mdns_turn::{Seat, Turn};
use std::alloc::{AllocError, Global};
use std::sync::{Arc, Wait};

// What a server's threads work with.
#[derive(Drop)]
struct Opening<R, E: Ear> {
    common: Common<R>,
    hearing: Chair<R>,
    ticking: Chair<R>,
    slot: Arc<Slot<E>>,
    ear_slot: Arc<Slot<E>>,
}

/// Serves a daemon: it puts the line `serving`, accepts connections, and opens a session for each, with two
/// halves in threads of their own; the ear and the ticker have threads, too. It ends when the door gives no more, or when
/// something fails; then no more is accepted, and the sessions run to their end.
///
/// The daemon's seat is used for the turns that open a session, one for each connection. A connection for which there is no room or
/// no memory is finished at once. The status:
/// - 0: the door gave its last connection, and all sessions ended.
/// - 5: the output failed. Nothing was accepted.
/// - 6: memory was refused before anything was accepted.
/// - 9: the door failed, or couldn't be made.
/// - 10: a thread couldn't be started, or what starts threads couldn't be made.
/// - 11: the link failed: the ear, or a part couldn't be made.
pub fn serve<R: Wait + Copy + Send + 'static, P: Place, K: Sink>(
    rt: R,
    alloc: Global,
    daemon: &mut SharedDaemon,
    place: &mut P,
    output: &mut K,
) -> u8
    requires { IsSeatOf (arc_value daemon.old.turn) daemon.old.seat }
    ensures ends { Ends (P.counted place.old) (P.counted place.new) result }
    ensures opens { Opens daemon.old.seat daemon.new.seat (P.counted place.old).given (P.counted place.new).given (is_done result) }
    ensures status { IsServeStatus result }
    // The line `serving` was put, or a beginning of it.
    ensures put { (n : ℕ) × Appends (K.held output.old) (K.held output.new) (take n serving_line) }
    ensures whole { result ≡ 0 → Appends (K.held output.old) (K.held output.new) serving_line }
    ensures write { result ≡ 5 → Rose (K.faults output.old) (K.faults output.new) }
    ensures quiet { result ≢ 5 → K.faults output.new ≡ K.faults output.old }
{
    let parts = match make_parts(place) {
        Ok(parts) => parts,
        Err(status) => return status,
    };
    match get_ready(rt, alloc, &daemon.turn, &mut daemon.seat, output) {
        Ok(opening) => run(opening, parts, &mut daemon.seat, place),
        Err(status) => {
            give_back(place, parts);
            status
        }
    }
}

// Makes what the threads work with, and puts the line `serving`. The error is the status, 5 or 6.
fn get_ready<R: Wait + Copy, E: Ear + Drop, K: Sink>(
    rt: R,
    alloc: Global,
    turn: &Arc<Turn<Shared>>,
    seat: &mut Seat<Shared>,
    output: &mut K,
) -> Result<Opening<R, E>, u8>
    requires { IsSeatOf (arc_value turn.now) seat.old }
    ensures seat { seat.new ≡ seat.old }
    ensures own { IfOk result (λ o. IsSeatOf (arc_value o.common.turn) seat.new) }
    ensures hearing { IfOk result (λ o. IsSeatOf (arc_value o.hearing.common.turn) o.hearing.seat) }
    ensures ticking { IfOk result (λ o. IsSeatOf (arc_value o.ticking.common.turn) o.ticking.seat) }
    ensures put { (n : ℕ) × Appends (K.held output.old) (K.held output.new) (take n serving_line) }
    ensures whole { OnOk result (Appends (K.held output.old) (K.held output.new) serving_line) }
    ensures status { IfErr result (λ status. (status ≡ 5) ⊎ (status ≡ 6)) }
    ensures write { IfErr result (λ status. status ≡ 5 → Rose (K.faults output.old) (K.faults output.new)) }
    ensures quiet { OnOk result (K.faults output.new ≡ K.faults output.old) }
    ensures kept { IfErr result (λ status. status ≢ 5 → K.faults output.new ≡ K.faults output.old) }
{
    let Ok(opening) = prepare(rt, alloc, turn, seat) else {
        return Err(NO_MEMORY);
    };
    match output.put(b"serving\n") {
        Ok(()) => Ok(opening),
        Err(_) => Err(WRITE_FAULT),
    }
}

// All that the threads of the server need memory for. Refused only for want of memory.
fn prepare<R: Wait + Copy, E: Ear + Drop>(
    rt: R,
    alloc: Global,
    turn: &Arc<Turn<Shared>>,
    seat: &mut Seat<Shared>,
) -> Result<Opening<R, E>, AllocError>
    requires { IsSeatOf (arc_value turn.now) seat.old }
    ensures seat { seat.new ≡ seat.old }
    ensures own { IfOk result (λ o. IsSeatOf (arc_value o.common.turn) seat.new) }
    ensures hearing { IfOk result (λ o. IsSeatOf (arc_value o.hearing.common.turn) o.hearing.seat) }
    ensures ticking { IfOk result (λ o. IsSeatOf (arc_value o.ticking.common.turn) o.ticking.seat) }
{
    let common = common(rt, alloc, turn)?;
    let (hearing, ticking) = two_chairs(&common, seat)?;
    let (slot, ear_slot) = two_slots(alloc)?;
    Ok(Opening {
        common,
        hearing,
        ticking,
        slot,
        ear_slot,
    })
}

// What the threads share: the turn, and a bell. Refused only for want of memory.
fn common<R: Wait + Copy>(
    rt: R,
    alloc: Global,
    turn: &Arc<Turn<Shared>>,
) -> Result<Common<R>, AllocError>
    ensures { IfOk result (λ common. arc_value common.turn ≡ arc_value turn.now) }
{
    let bell = Bell::new(alloc)?;
    let bell = Arc::new(alloc, bell)?;
    let turn = Arc::try_clone(turn)?;
    Ok(Common {
        rt,
        alloc,
        turn,
        bell,
    })
}

// A slot for the ear, as the server and as the ear's thread has it. Refused only for want of memory.
fn two_slots<E: Ear + Drop>(alloc: Global) -> Result<(Arc<Slot<E>>, Arc<Slot<E>>), AllocError> {
    let slot = Arc::new(alloc, Slot::new())?;
    let other = Arc::try_clone(&slot)?;
    Ok((slot, other))
}

// Gives the parts back to the place; nothing was done with them.
fn give_back<P: Place>(place: &mut P, parts: Parts<P>)
    ensures { StaysCounted (P.counted place.old) (P.counted place.new) }
{
    let Parts {
        ear,
        door,
        spawner,
        ..
    } = parts;
    let NewEar { ear } = ear;
    place.ear_back(ear);
    place.door_back(door);
    place.spawner_back(spawner);
}

// Starts the loops, accepts connections, and closes.
fn run<R: Wait + Copy + Send + 'static, P: Place>(
    opening: Opening<R, P::Ear>,
    parts: Parts<P>,
    seat: &mut Seat<Shared>,
    place: &mut P,
) -> u8
    requires own { IsSeatOf (arc_value opening.common.turn) seat.old }
    requires hearing { IsSeatOf (arc_value opening.hearing.common.turn) opening.hearing.seat }
    requires ticking { IsSeatOf (arc_value opening.ticking.common.turn) opening.ticking.seat }
    requires given { (n : ℕ) → (P.counted place.old).given ≡ Some n → P.Door.given parts.door ≡ Some 0 }
    ensures ends { Ends (P.counted place.old) (P.counted place.new) result }
    ensures opens { Opens seat.old seat.new (P.counted place.old).given (P.counted place.new).given (is_done result) }
    ensures status { IsLoopStatus result }
{
    let Opening {
        common,
        hearing,
        ticking,
        slot,
        ear_slot,
    } = opening;
    let Parts {
        own,
        hearing: hearing_kit,
        ticking: ticking_kit,
        ear,
        mut door,
        mut spawner,
    } = parts;
    let hearing = Hearing {
        chair: hearing,
        ear,
        kit: hearing_kit,
        slot: ear_slot,
    };
    let ticking = Ticking {
        chair: ticking,
        kit: ticking_kit,
    };
    let loops = start_loops(&mut spawner, hearing, ticking);
    let sessions = Vec::new(common.alloc);
    let mut desk = Desk {
        common,
        kit: own,
        spawner,
        sessions,
        slot,
    };
    let stop = accept_started(&mut desk, seat, place, &mut door, loops.whole);
    close(desk, place, door, stop, loops)
}
