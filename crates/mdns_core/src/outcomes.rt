// What events amount to that concern no session by themselves.
ghost use Rattle.std.specs.Prelude.{◌≡◌, []};
ghost use Rattle.mdns_happened.specs.Told.{told_of, told_by};

use mdns_happened::{Happened, Idle};
use mdns_history::{Config, Event, Outcome};

/// What a tick amounts to.
pub fn tick<'a>() -> Happened<'a>
    ensures { told_by result ≡ told_of Event.Tick Outcome.Done [] }
{
    Happened::Ticked
}

/// What a boot amounts to: there is nothing to tell of it.
pub fn boot<'a>(_config: &Config) -> Happened<'a>
    ensures { told_by result ≡ told_of (Event.Boot _config.now) Outcome.Done [] }
{
    Happened::Nothing { why: Idle::Ignored }
}

/// What a take amounts to; what it hands over is known last.
pub fn take<'a>(session: u64, max: u32) -> Happened<'a>
    ensures { told_by result ≡ told_of (Event.Take session max) Outcome.Done [] }
{
    Happened::Took { session, max }
}
