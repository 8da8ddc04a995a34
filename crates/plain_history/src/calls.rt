// What entries did with sessions and operations.
ghost use Rattle.std.specs.Prelude.{◌≡◌};
ghost use Rattle.mdns_history.specs.Sessions.{accepted_in, detached, stops, ends_operation};

use mdns_history::{Entry, Event, Outcome};
use sd_call::Request;

/// The session that an entry of this event and outcome detached.
pub fn detached(event: &Event, outcome: &Outcome) -> Option<u64>
    ensures { result ≡ detached event.now outcome.now }
{
    match (event, outcome) {
        (Event::Detach { session }, Outcome::Ended) => Some(*session),
        _ => None,
    }
}

/// Whether an entry ends an operation: by its stop, or with its session.
pub fn ends_operation(session: u64, op: u32, entry: &Entry) -> bool
    ensures { result ≡ ends_operation session op entry.now }
{
    detached(&entry.event, &entry.outcome) == Some(session) || is_stopped(session, op, entry)
}

// Whether an entry stops an operation.
fn is_stopped(session: u64, op: u32, entry: &Entry) -> bool
    ensures { result ≡ stops session op (accepted_in entry.now) }
{
    match (&entry.event, &entry.outcome) {
        (
            Event::Call {
                session: its_session,
                op: its_op,
                request: Request::Stop,
            },
            Outcome::Code { code: 0 },
        ) => *its_session == session && *its_op == op,
        _ => false,
    }
}
