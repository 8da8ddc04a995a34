// What the threads of a server share, and what each has of its own.
ghost use Rattle.std.specs.Arc.{arc_value};
ghost use Rattle.std.specs.Prelude.{◌≡◌, IfOk};

use crate::bell::Bell;
use crate::shared::Shared;
use mdns_turn::Turn;
use std::alloc::{AllocError, Global};
use std::sync::Arc;

/// What all threads of a server share: the turn at the daemon, and the bell.
#[derive(Drop)]
pub struct Common<R> {
    pub rt: R,
    pub alloc: Global,
    pub turn: Arc<Turn<Shared>>,
    pub bell: Arc<Bell>,
}

impl<R: Copy> Common<R> {
    /// The same, for another thread. Refused only for want of memory.
    pub fn share(&self) -> Result<Common<R>, AllocError>
        ensures { IfOk result (λ c. arc_value c.turn ≡ arc_value self.now.turn) }
    {
        Ok(Common {
            rt: self.rt,
            alloc: self.alloc,
            turn: Arc::try_clone(&self.turn)?,
            bell: Arc::try_clone(&self.bell)?,
        })
    }
}

/// The air, the clock and the words of one thread.
#[derive(Drop)]
pub struct Kit<A, C, W> {
    pub air: A,
    pub clock: C,
    pub words: W,
}

/// One half of a session: an end of the connection of its client, a source or a sink, and the gate that the half passes.
#[derive(Drop)]
pub struct Half<E, G> {
    pub session: u64,
    pub end: E,
    pub gate: G,
}
