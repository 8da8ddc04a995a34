// Where the ear's thread leaves its ear.
ghost use Rattle.std.specs.Prelude.{◌≡◌, ◌<◌, true, IfSome};
ghost use Rattle.mdns_server.specs.Ears.{has_cause};

use mdns_outside::Ear;
use mdns_serve::HearEnd;
use std::sync::{Mutex, Wait};

/// An ear that hasn't failed yet.
#[derive(Drop)]
pub(crate) struct NewEar<E: Ear> {
    pub ear: E,
    ghost fresh: { E.faults ear ≡ 0 },
}

/// An ear whose loop has ended. It has faults exactly where that was for a fault of the link.
#[derive(Drop)]
pub(crate) struct EndedEar<E: Ear> {
    pub ear: E,
    pub end: HearEnd,
    ghost cause: { has_cause end (E.faults ear) ≡ true },
}

/// Where the ear's thread leaves its ear, and the accepting thread finds it.
#[derive(Drop)]
pub(crate) struct Slot<E: Ear> {
    left: Mutex<Option<EndedEar<E>>>,
}

impl<E: Ear + Drop> Slot<E> {
    /// A slot in which no ear was left.
    pub(crate) fn new() -> Slot<E> {
        Slot {
            left: Mutex::new(None),
        }
    }

    /// Leaves an ear, and how its loop ended.
    pub(crate) fn leave<R: Wait>(&self, rt: &R, ended: EndedEar<E>) {
        let mut left = self.left.lock(rt);
        *left = Some(ended);
    }

    /// Takes the ear, where one was left.
    pub(crate) fn take<R: Wait>(&self, rt: &R) -> Option<EndedEar<E>> {
        let mut left = self.left.lock(rt);
        left.take()
    }

    /// Takes the ear, where one was left after a fault.
    pub(crate) fn take_failed<R: Wait>(&self, rt: &R) -> Option<E>
        ensures { IfSome result (λ ear. 0 < E.faults ear) }
    {
        let ended = self.take(rt)?;
        if let HearEnd::LinkFault = ended.end {
            let EndedEar { ear, .. } = ended;
            return Some(ear);
        }
        self.leave(rt, ended);
        None
    }
}
