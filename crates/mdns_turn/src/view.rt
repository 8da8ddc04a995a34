//! What a seat knows. These types stand in proofs alone, and no value of them is made.
use std::collections::LinkedList;

/// How far a seat is in its turn.
pub enum Stage {
    /// It is between two turns.
    Idle,
    /// It has drawn this ticket.
    Waiting(u64),
    /// Its ticket is served, and the value is out with it.
    Inside(u64),
}

/// What a seat knows of the history, and what it has done in it.
pub struct View<T, E> {
    /// The value that the turn was made with. A seat that was joined into another has none.
    pub opening: Option<T>,
    /// Whether it has a number of its own. A new seat has none until it has drawn it.
    pub named: bool,
    /// Its number, or until it has one that of the seat which it was split from.
    pub number: u64,
    /// The history as far as the seat has seen it: each turn with the number of the seat that took it.
    pub seen: LinkedList<(u64, E)>,
    /// Its own turns.
    pub mine: LinkedList<E>,
    /// The seats that were joined into it: the number of each, and its turns.
    pub joined: LinkedList<(u64, LinkedList<E>)>,
    /// What the seat that was joined last had seen, until a load tells which list is the longer.
    pub told: LinkedList<(u64, E)>,
    pub stage: Stage,
}
