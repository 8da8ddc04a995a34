// The reading half of a session.
ghost use Rattle.std.specs.Arc.{arc_value};
ghost use Rattle.std.specs.Prelude.{◌≡◌, ◌≢◌, ◌≤◌, ◌++◌, ◌∷◌, [], Some};
ghost use Rattle.mdns_base.specs.Outside.{Rose};
ghost use Rattle.mdns_history.specs.Fitting.{AreLegal};
ghost use Rattle.mdns_core.specs.InForce.{in_force};
ghost use Rattle.mdns_turn.specs.History.{turns, StartsWith};
ghost use Rattle.mdns_turn.specs.Models.{IsSeatOf, IsSameSeat, HasItsTurns};
ghost use Rattle.mdns_serve.specs.Turns.{turns_of};
ghost use Rattle.mdns_serve.specs.Shares.{StandsFor};
ghost use Rattle.mdns_serve.specs.Reading.{Reads, Stops, GoesOrStops, CallsOnce, Detaches, end_after, end_of};

use crate::common::{Common, Half, Kit};
use crate::happening::Happening;
use crate::shared::Shared;
use crate::taking::take_turn;
use mdns_base::Source;
use mdns_history::{Event, Outcome};
use mdns_outside::{Air, Clock, Gate, Point, Words};
use mdns_turn::Seat;
use sd_call::Request;
use sd_ipc::{FrameError, read_request};
use std::sync::Wait;

/// Why a reading half ended.
#[derive(Clone, Copy, Debug, PartialEq, Eq)]
pub enum ReadEnd {
    /// The source ended between frames.
    Ended,
    /// The bytes are no frame of a request.
    BadFrame,
    /// The source failed.
    ReadFault,
    /// A call found the session closed or cut.
    Closed,
    /// Memory was refused.
    NoMemory,
}

/// Reads requests from a source and makes a call of the session of each, in their order, until the source ends; then
/// detaches the session. It passes the gate before each request and before its end.
///
/// - `Ended`: the source ended between frames.
/// - `BadFrame`: the bytes are no frame of a request.
/// - `ReadFault`: the source failed.
/// - `Closed`: a call found the session closed or cut.
/// - `NoMemory`: memory was refused for a frame or a call.
pub fn read_half<R: Wait, S: Source, A: Air, C: Clock, W: Words, G: Gate>(
    common: &Common<R>,
    seat: &mut Seat<Shared>,
    kit: &mut Kit<A, C, W>,
    half: &mut Half<S, G>,
) -> ReadEnd
    requires turn { IsSeatOf (arc_value common.now.turn) seat.old }
    ensures same { IsSameSeat seat.old seat.new }
    ensures its { HasItsTurns seat.new }
    ensures joined { seat.new.joined ≡ seat.old.joined }
    ensures seen { StartsWith seat.new.seen seat.old.seen }
    ensures legal { (past : _) → StandsFor past (arc_value common.now.turn).opening → AreLegal in_force (turns_of (past ++ turns seat.new.seen)) }
    ensures reads { Reads half.old.session (S.left half.old.end) (S.left half.new.end) seat.old.mine seat.new.mine (A.handed kit.old.air) (A.handed kit.new.air) result }
    ensures session { half.new.session ≡ half.old.session }
    ensures fault { result ≡ ReadEnd.ReadFault → Rose (S.faults half.old.end) (S.faults half.new.end) }
    ensures quiet { result ≢ ReadEnd.ReadFault → S.faults half.new.end ≡ S.faults half.old.end }
{
    let end = read_all(common, seat, kit, half);
    let session = half.session;
    half.gate.pass(Point::Ending { session });
    detach(common, seat, kit, session);
    end
}

/// Detaches a session. Where memory is refused, its end is owed, and the ticker's.
pub fn detach<R: Wait, A: Air, C: Clock, W: Words>(
    common: &Common<R>,
    seat: &mut Seat<Shared>,
    kit: &mut Kit<A, C, W>,
    session: u64,
)
    requires turn { IsSeatOf (arc_value common.now.turn) seat.old }
    ensures same { IsSameSeat seat.old seat.new }
    ensures its { HasItsTurns seat.new }
    ensures joined { seat.new.joined ≡ seat.old.joined }
    ensures seen { StartsWith seat.new.seen seat.old.seen }
    ensures legal { (past : _) → StandsFor past (arc_value common.now.turn).opening → AreLegal in_force (turns_of (past ++ turns seat.new.seen)) }
    ensures detaches { Detaches session seat.old.mine seat.new.mine (A.handed kit.old.air) (A.handed kit.new.air) }
{
    let event = Event::Detach { session };
    drop(take_turn(common, seat, kit, event));
}

// Reads requests and makes calls until the reading ends.
fn read_all<R: Wait, S: Source, A: Air, C: Clock, W: Words, G: Gate>(
    common: &Common<R>,
    seat: &mut Seat<Shared>,
    kit: &mut Kit<A, C, W>,
    half: &mut Half<S, G>,
) -> ReadEnd
    requires turn { IsSeatOf (arc_value common.now.turn) seat.old }
    ensures same { IsSameSeat seat.old seat.new }
    ensures joined { seat.new.joined ≡ seat.old.joined }
    ensures seen { StartsWith seat.new.seen seat.old.seen }
    ensures stops { Stops half.old.session (S.left half.old.end) (S.left half.new.end) seat.old.mine seat.new.mine (A.handed kit.old.air) (A.handed kit.new.air) result }
    ensures session { half.new.session ≡ half.old.session }
    ensures fault { result ≡ ReadEnd.ReadFault → Rose (S.faults half.old.end) (S.faults half.new.end) }
    ensures quiet { result ≢ ReadEnd.ReadFault → S.faults half.new.end ≡ S.faults half.old.end }
{
    let mut number = 0u64;
    for _ in common.rt.forever() {
        number = number.saturating_add(1);
        let next = read_one(common, seat, kit, half, number);
        if let Some(end) = next {
            return end;
        }
    }
    unreachable!()
}

// Reads one request and makes its call; the answer is why the reading ends, if it does.
fn read_one<R: Wait, S: Source, A: Air, C: Clock, W: Words, G: Gate>(
    common: &Common<R>,
    seat: &mut Seat<Shared>,
    kit: &mut Kit<A, C, W>,
    half: &mut Half<S, G>,
    number: u64,
) -> Option<ReadEnd>
    requires turn { IsSeatOf (arc_value common.now.turn) seat.old }
    ensures same { IsSameSeat seat.old seat.new }
    ensures joined { seat.new.joined ≡ seat.old.joined }
    ensures seen { StartsWith seat.new.seen seat.old.seen }
    ensures did { GoesOrStops half.old.session (S.left half.old.end) (S.left half.new.end) seat.old.mine seat.new.mine (A.handed kit.old.air) (A.handed kit.new.air) result }
    ensures session { half.new.session ≡ half.old.session }
    ensures fault { result ≡ Some ReadEnd.ReadFault → Rose (S.faults half.old.end) (S.faults half.new.end) }
    ensures quiet { result ≢ Some ReadEnd.ReadFault → S.faults half.new.end ≡ S.faults half.old.end }
{
    match read_request(common.alloc, &mut half.end) {
        Ok(Some(asked)) => {
            let session = half.session;
            half.gate.pass(Point::Request { session, number });
            call(common, seat, kit, session, asked)
        }
        Ok(None) => Some(ReadEnd::Ended),
        Err(error) => Some(end_of(error)),
    }
}

// Makes a call of the session; the answer is why the reading ends, if it does.
fn call<R: Wait, A: Air, C: Clock, W: Words>(
    common: &Common<R>,
    seat: &mut Seat<Shared>,
    kit: &mut Kit<A, C, W>,
    session: u64,
    asked: (u32, Request),
) -> Option<ReadEnd>
    requires turn { IsSeatOf (arc_value common.now.turn) seat.old }
    ensures same { IsSameSeat seat.old seat.new }
    ensures joined { seat.new.joined ≡ seat.old.joined }
    ensures seen { StartsWith seat.new.seen seat.old.seen }
    ensures call { CallsOnce session asked seat.old.mine seat.new.mine (A.handed kit.old.air) (A.handed kit.new.air) result }
{
    let (op, request) = asked;
    let event = Event::Call {
        session,
        op,
        request,
    };
    end_after(&take_turn(common, seat, kit, event))
}

// Why the reading ends after a call, if it does.
fn end_after(done: &Happening) -> Option<ReadEnd>
    ensures { result ≡ end_after done.now }
{
    match done {
        Happening::Missed { .. } => Some(ReadEnd::NoMemory),
        Happening::Entered { entry } => match &entry.outcome {
            Outcome::Closed | Outcome::Cut => Some(ReadEnd::Closed),
            _ => None,
        },
    }
}

// Why the reading ends where no frame was read.
fn end_of(error: FrameError) -> ReadEnd
    ensures { result ≡ end_of error }
{
    match error {
        FrameError::BadLength | FrameError::BadKind | FrameError::BadBody | FrameError::Truncated =>
            ReadEnd::BadFrame,
        FrameError::ReadFault => ReadEnd::ReadFault,
        FrameError::NoMemory => ReadEnd::NoMemory,
    }
}
