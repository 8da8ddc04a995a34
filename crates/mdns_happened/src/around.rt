// What is looked up around an event, for those who are told of it.
ghost use Rattle.std.specs.Prelude.{◌≡◌};
ghost use Rattle.std.specs.Option.{option_copied};
ghost use Rattle.mdns_happened.specs.Registrations.{registered_in};

use crate::Walk;
use sd_call::Answer;

/// What is looked up around an event: the records of the names that it concerns, and the answers of the registrations that it
/// concerns.
#[derive(Drop)]
pub struct Around<'a> {
    pub walks: &'a [Walk],
    pub registered: &'a [Registered],
}

/// The answers of a registration around an event: what it had before, and what it has after. It has one answer at most: its name
/// once that is sure, or a conflict.
#[derive(Drop)]
pub struct Registered {
    pub session: u64,
    pub op: u32,
    pub had: Option<Answer>,
    pub has: Option<Answer>,
}

/// What is told of the registration of a session and a number; `None` exactly where nothing is told of it.
pub fn registered_in(told: &[Registered], session: u64, op: u32) -> Option<&Registered>
    ensures { option_copied result ≡ registered_in told.now session op }
{
    told.iter()
        .find(|one| one.session == session && one.op == op)
}
