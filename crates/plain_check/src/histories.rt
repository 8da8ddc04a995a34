// The histories of daemons.
ghost use Rattle.std.specs.Prelude.{◌≡◌, ◌+◌, ◌<◌, ◌^◌, ◌==◌, ◌↔◌, ℕ, ◌∷◌, length, position, IsTrue, IfOk};
ghost use Rattle.mdns_history.specs.InForce.{all_duties};
ghost use Rattle.mdns_history.specs.Fitting.{IsLegalFrom};
ghost use Rattle.plain_legal.specs.Laws.{IsLegalOrNone};
ghost use Rattle.plain_check.specs.Held.{is_of, history_in, without, with_row};

use mdns_transcript::Row;
use plain_history::HistoryEntry;
use plain_legal::follow;
use std::alloc::{AllocError, Global};

/// The history of a daemon.
#[derive(Drop)]
pub(crate) struct Held {
    daemon: u32,
    history: Vec<HistoryEntry>,
}

/// Puts the entry of a row at the head of its daemon's history, where it is legal there; says whether it is. Refused only for want of memory.
pub(crate) fn put(alloc: Global, histories: &mut Vec<Held>, row: Row) -> Result<bool, AllocError>
    requires legal { IsLegalOrNone all_duties (history_in row.daemon histories.old.items) }
    requires short { length (history_in row.daemon histories.old.items) + 1 < 2 ^ 30 }
    ensures fits { IfOk result (λ fits. IsTrue fits ↔ IsLegalFrom all_duties row.entry (history_in row.daemon histories.old.items)) }
    ensures put { IfOk result (λ fits. IsTrue fits → (daemon : ℕ) → history_in daemon histories.new.items ≡ with_row row daemon (history_in daemon histories.old.items)) }
{
    let Row { daemon, entry } = row;
    let mut history = take_out(alloc, histories, daemon);
    let fits = follow(alloc, &mut history, entry)?;
    histories.insert(0, Held { daemon, history })?;
    Ok(fits)
}

// Takes the history of a daemon out; it is empty where none is held.
fn take_out(alloc: Global, histories: &mut Vec<Held>, daemon: u32) -> Vec<HistoryEntry>
    ensures history { result.items ≡ history_in daemon histories.old.items }
    ensures rest { histories.new.items ≡ without daemon histories.old.items }
{
    match place_of(histories, daemon) {
        Some(place) => histories.remove(place).history,
        None => Vec::new(alloc),
    }
}

// The place of a daemon's history.
fn place_of(histories: &[Held], daemon: u32) -> Option<usize>
    ensures { result ≡ position (is_of daemon) histories.now }
{
    histories.iter().position(|held| held.daemon == daemon)
}
