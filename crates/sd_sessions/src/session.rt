// An attached session.
ghost use Rattle.std.specs.Prelude.{◌≡◌};
ghost use Rattle.std.specs.List.{find};
ghost use Rattle.std.specs.Option.{option_map, option_copied};
ghost use Rattle.sd_sessions.specs.Codes.{has_number};
ghost use Rattle.sd_sessions.specs.Kept.{session_of, sessions_of};

use mdns_history::Operation;
use sd_outbox::Outbox;

/// An attached session: its number, its live operations by number, and what is queued for it.
#[derive(Drop)]
pub struct SessionState {
    pub number: u64,
    pub operations: Vec<Operation>,
    pub outbox: Outbox,
}

/// The attached session of a number.
pub fn find(sessions: &[SessionState], number: u64) -> Option<&SessionState>
    ensures { option_map session_of (option_copied result) ≡ find (has_number number) (sessions_of sessions.now) }
{
    for session in sessions {
        if session.number == number {
            return Some(session);
        }
    }
    None
}
