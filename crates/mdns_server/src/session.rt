// A session is opened in a turn of the accepting thread.
ghost use Rattle.std.specs.Arc.{arc_value};
ghost use Rattle.std.specs.Prelude.{◌≡◌, IfSome};
ghost use Rattle.mdns_turn.specs.Models.{IsSeatOf};
ghost use Rattle.mdns_server.specs.Openings.{HasOpened, OpensOne, opened_in};

use mdns_history::{Event, Outcome};
use mdns_outside::{Air, Clock, Words};
use mdns_serve::{Common, Happening, Kit, Miss, Shared, take_turn};
use mdns_turn::Seat;
use std::sync::Wait;

/// Opens a session in a turn of the seat. The answer is its number, or none where 64 are attached or memory was refused.
pub(crate) fn attach<R: Wait, A: Air, C: Clock, W: Words>(
    common: &Common<R>,
    seat: &mut Seat<Shared>,
    kit: &mut Kit<A, C, W>,
) -> Option<u64>
    requires { IsSeatOf (arc_value common.now.turn) seat.old }
    ensures opens { OpensOne seat.old seat.new }
    ensures session { IfSome result (λ session. HasOpened seat.new.mine session) }
{
    let done = take_turn(common, seat, kit, Event::Attach);
    opened(&done)
}

/// A turn in place of the one that would have opened a session: memory was refused before it.
pub(crate) fn miss<R: Wait>(common: &Common<R>, seat: &mut Seat<Shared>)
    requires { IsSeatOf (arc_value common.now.turn) seat.old }
    ensures { OpensOne seat.old seat.new }
{
    let done = common.turn.turn(&common.rt, seat, Miss);
    drop(done);
}

// The number of the session that was opened, if one was.
fn opened(done: &Happening) -> Option<u64>
    ensures { result ≡ opened_in done.now }
{
    match done {
        Happening::Entered { entry } => match &entry.outcome {
            Outcome::Opened { session } => Some(*session),
            _ => None,
        },
        Happening::Missed { .. } => None,
    }
}
