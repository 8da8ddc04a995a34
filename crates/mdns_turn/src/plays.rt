//! The rule of the table, and what each kind of step tells.
ghost use Rattle.std.specs.Prelude.{List, []};

use crate::tale::Tale;
use crate::view::View;
use atomic_table::{Join, Play, Split, TableRule};
use std::marker::{Brand, PhantomData};
use std::snapshot::Snapshot;

/// The rule: there is one history, which the value stands for. Its key is the value that the turn was made with.
pub struct OneHistory<T> {
    value: PhantomData<T>,
}

impl<T: Tale> TableRule<Option<T>, View<T, T::Turn>, Snapshot<T>> for OneHistory<T> {
    ghost use Rattle.mdns_turn.specs.Rule.{IsOneHistory};
    ghost use Rattle.mdns_turn.specs.Views.{first_view};

    ghost holds = { λ key. IsOneHistory T.stands key.value };

    ghost first = { λ key. first_view key.value };
}

/// Draws a ticket.
pub(crate) struct Draw;

impl<T, E> Play<Option<T>, View<T, E>> for Draw {
    ghost use Rattle.mdns_turn.specs.Plays.{Draws};

    ghost then = { Draws };
}

/// Looks which ticket is served. The value comes with the look that finds the seat's own.
pub(crate) struct Look;

impl<T: Tale> Play<Option<T>, View<T, T::Turn>> for Look {
    ghost use Rattle.mdns_turn.specs.Plays.{Looks};

    ghost then = { Looks T.stands };
}

/// The turns that a step adds to the history. A play has no parameter of its own, so the call picks them at `Brand`.
pub(crate) trait Adds<E> {
    ghost turns: { List E };
}

impl<E> Adds<E> for Brand {
    ghost turns = { [] };
}

/// Adds turns to the history, and lets the next ticket come.
pub(crate) struct Serve<A> {
    added: PhantomData<A>,
}

impl<T, E, A: Adds<E>> Play<Option<T>, View<T, E>> for Serve<A> {
    ghost use Rattle.mdns_turn.specs.Plays.{Serves};

    ghost then = { Serves A.turns };
}

/// Draws a number for a new seat.
pub(crate) struct Name;

impl<T, E> Play<Option<T>, View<T, E>> for Name {
    ghost use Rattle.mdns_turn.specs.Plays.{Names};

    ghost then = { Names };
}

/// A new seat knows what the one knew that it is split from.
pub(crate) struct Fork;

impl<T, E> Split<View<T, E>> for Fork {
    ghost use Rattle.mdns_turn.specs.Views.{copied};

    ghost left = { λ v. v };

    ghost right = { copied };
}

/// A seat is told what another had seen, and the other is spent.
pub(crate) struct Merge;

impl<T, E> Join<View<T, E>> for Merge {
    ghost use Rattle.mdns_turn.specs.Views.{informed, blank};

    ghost both = { informed };

    ghost spent = { blank };
}

/// Lets the longer list stand, of what the seat had seen and what it was told.
pub(crate) struct Learn;

impl<T, E> Play<Option<T>, View<T, E>> for Learn {
    ghost use Rattle.mdns_turn.specs.Plays.{Learns};

    ghost then = { Learns };
}
