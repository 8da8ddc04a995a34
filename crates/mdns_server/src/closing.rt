// The end of a server: it waits for what it started, and gives its parts back.
ghost use Rattle.std.specs.Prelude.{◌≡◌, ◌≢◌, ◌⊎◌, true, false};
ghost use Rattle.mdns_base.specs.Outside.{Rose};
ghost use Rattle.mdns_outside.specs.Places.{Adds};
ghost use Rattle.mdns_server.specs.Endings.{MayFault, Stays, TakesBack, HasStopped, IsLoopStatus, stop_status, is_ear};

use crate::accepting::Desk;
use crate::slot::{EndedEar, Slot};
use crate::starting::{Pair, finish, finish_both};
use crate::status::{DONE, DOOR_FAULT, LINK_FAULT, SPAWN_FAULT, Stop};
use mdns_outside::Place;
use mdns_serve::HearEnd;
use std::sync::Wait;

/// Gives the door back to the place, waits until the sessions, the ear and the ticker have ended, and gives spawner and ear back. The ear
/// isn't waited for where the door, the spawner or the parts of a session failed. The answer is the status.
pub(crate) fn close<R: Wait + Copy, P: Place>(
    desk: Desk<R, P>,
    place: &mut P,
    door: P::Door,
    stop: Stop<P::Ear>,
    loops: Pair,
) -> u8
    requires { HasStopped P.Ear.faults (P.Door.over door) (P.Door.faults door) (P.Spawner.faults desk.spawner) stop }
    ensures plan { (P.counted place.new).plan ≡ (P.counted place.old).plan }
    ensures whole { result ≡ 0 → stop ≡ Stop.Over }
    ensures over { result ≡ 0 → Rose (P.counted place.old).doors_over (P.counted place.new).doors_over }
    ensures given { Adds (P.counted place.old).given (P.counted place.new).given (P.Door.given door) }
    ensures door { result ≡ 9 → Rose (P.counted place.old).door_faults (P.counted place.new).door_faults }
    ensures spawner { result ≡ 10 → Rose (P.counted place.old).spawner_faults (P.counted place.new).spawner_faults }
    ensures link { result ≡ 11 → (stop ≡ Stop.Link) ⊎ Rose (P.counted place.old).link_faults (P.counted place.new).link_faults }
    ensures later { Stays (P.counted place.old).link_faults (P.counted place.new).link_faults }
    ensures back { TakesBack (P.counted place.old) (P.counted place.new) (P.Door.faults door) (P.Door.over door) (P.Spawner.faults desk.spawner) }
    ensures first { stop_status stop ≢ 0 → result ≡ stop_status stop }
    ensures ear { stop_status stop ≡ 0 → (result ≡ 0) ⊎ (result ≡ 11) }
    ensures quiet { result ≡ 0 → (P.counted place.new).link_faults ≡ (P.counted place.old).link_faults }
    ensures status { IsLoopStatus result }
{
    let Desk {
        common,
        spawner,
        sessions,
        slot,
        ..
    } = desk;
    // The door goes first: while sessions run to their end, nobody is to wait behind it.
    place.door_back(door);
    for session in sessions {
        finish_both(&spawner, session.threads);
    }
    let Pair { first, second, .. } = loops;
    if waits_for_ear(&stop) {
        finish(&spawner, first);
    }
    common.bell.close();
    finish(&spawner, second);
    let status = status_of(&stop);
    let ear_status = return_ear(&common.rt, place, &slot, stop);
    place.spawner_back(spawner);
    if status == DONE { ear_status } else { status }
}

// Whether the ear's loop has ended or is to be waited for.
fn waits_for_ear<E>(stop: &Stop<E>) -> bool {
    matches!(stop, Stop::Over | Stop::Ear { .. })
}

// The status of a server that stopped, but for the ear's.
fn status_of<E>(stop: &Stop<E>) -> u8
    ensures { result ≡ stop_status stop.now }
{
    match stop {
        Stop::Over | Stop::Ear { .. } => DONE,
        Stop::Door => DOOR_FAULT,
        Stop::Spawner => SPAWN_FAULT,
        Stop::Link => LINK_FAULT,
    }
}

// Gives the ear that was left back to the place. The answer is 11 where it had failed, else 0.
fn return_ear<R: Wait, P: Place>(
    rt: &R,
    place: &mut P,
    slot: &Slot<P::Ear>,
    stop: Stop<P::Ear>,
) -> u8
    requires { HasStopped P.Ear.faults true 1 1 stop }
    ensures place { MayFault (P.counted place.old) (P.counted place.new) }
    ensures link { result ≡ 11 → Rose (P.counted place.old).link_faults (P.counted place.new).link_faults }
    ensures quiet { result ≡ 0 → P.counted place.new ≡ P.counted place.old }
    ensures ear { result ≡ 0 → is_ear stop ≡ false }
    ensures status { (result ≡ 0) ⊎ (result ≡ 11) }
{
    if let Stop::Ear { ear } = stop {
        place.ear_back(ear);
        return LINK_FAULT;
    }
    match slot.take(rt) {
        Some(ended) => return_ended(place, ended),
        None => DONE,
    }
}

// The same of an ear whose loop has ended.
fn return_ended<P: Place>(place: &mut P, ended: EndedEar<P::Ear>) -> u8
    ensures place { MayFault (P.counted place.old) (P.counted place.new) }
    ensures link { result ≡ 11 → Rose (P.counted place.old).link_faults (P.counted place.new).link_faults }
    ensures quiet { result ≡ 0 → P.counted place.new ≡ P.counted place.old }
    ensures status { (result ≡ 0) ⊎ (result ≡ 11) }
{
    let EndedEar { ear, end } = ended;
    place.ear_back(ear);
    match end {
        HearEnd::Ended => DONE,
        HearEnd::LinkFault => LINK_FAULT,
    }
}
