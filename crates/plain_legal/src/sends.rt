// What an entry sends.
ghost use Rattle.std.specs.Prelude.{◌≡◌, ◌<◌, ◌^◌, [], true, length, IfOk};
ghost use Rattle.mdns_history.specs.InForce.{all_duties};
ghost use Rattle.mdns_history.specs.History.{is_tick};
ghost use Rattle.mdns_history.specs.Fitting.{event_sends};
ghost use Rattle.plain_history.specs.Last.{are_by};
ghost use Rattle.plain_legal.specs.Trial.{of_last};

use mdns_history::{Event, Sent};
use plain_history::HistoryEntry;
use plain_sending::{DaemonDuties, sent_goodbyes, tick_sends};
use std::alloc::{AllocError, Global};

/// What the last entry of a history sends: a tick what is due, every other entry the goodbyes of the groups that it ends. No entry may be later
/// than the last. Refused only for want of memory.
pub fn event_sends(alloc: Global, history: &[HistoryEntry]) -> Result<Vec<Sent>, AllocError>
    requires short { length history.now < 2 ^ 30 }
    requires by { of_last true (λ entry past. are_by entry.moment past) history.now ≡ true }
    ensures { IfOk result (λ sent. sent.items ≡ of_last [] (λ entry past. event_sends all_duties entry past entry.event) history.now) }
{
    let Some((entry, _)) = history.split_first() else {
        return Ok(Vec::new(alloc));
    };
    if is_tick(&entry.entry().event) {
        tick_sends(alloc, &all_duties(), history)
    } else {
        sent_goodbyes(alloc, history)
    }
}

// Whether an event is a tick.
fn is_tick(event: &Event) -> bool
    ensures { result ≡ is_tick event.now }
{
    matches!(event, Event::Tick)
}

// All that a daemon may do.
#[tactic(auto, unfolding(mdns_history::specs::InForce::all_duties))]
fn all_duties() -> DaemonDuties
    ensures { result ≡ all_duties }
{
    DaemonDuties {
        asking: true,
        claiming: true,
        announcing: true,
        replying: true,
    }
}
