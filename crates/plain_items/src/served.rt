// The items that an entry gives.
ghost use Rattle.std.specs.Prelude.{◌≡◌, ◌<◌, ◌^◌, ◌++◌, [], not, map, filter, length, IfOk, OnOk};
ghost use Rattle.std.specs.List.{flat_map};
ghost use Rattle.mdns_history.specs.Sessions.{attached_sessions, is_cut};
ghost use Rattle.mdns_history.specs.Items.{change_items, given_items, given_to, served_sessions};
ghost use Rattle.plain_items.specs.LastEntry.{of_last};

use crate::change::change_items;
use mdns_history::Given;
use plain_history::{HistoryEntry, attached_sessions, is_cut};
use sd_call::Item;
use std::alloc::{AllocError, Global};

/// The sessions that the last entry of a history finds or makes attached and that aren't cut, by number; none where there is no entry.
/// Refused only for want of memory.
#[tactic(auto, using(crate::proofs::LastEntries::served_last))]
pub fn served_sessions(alloc: Global, history: &[HistoryEntry]) -> Result<Vec<u64>, AllocError>
    ensures { IfOk result (λ sessions. sessions.items ≡ of_last [] served_sessions history.now) }
{
    let served = uncut_sessions(alloc, history)?;
    Ok(served)
}

// The sessions that are attached and not cut.
fn uncut_sessions(alloc: Global, history: &[HistoryEntry]) -> Result<Vec<u64>, AllocError>
    ensures { IfOk result (λ sessions. sessions.items ≡ filter (λ session. not (is_cut session history.now)) (attached_sessions history.now)) }
{
    let mut uncut = Vec::new(alloc);
    for session in attached_sessions(alloc, history)? {
        if !is_cut(session, history) {
            uncut.push(session)?;
        }
    }
    Ok(uncut)
}

/// All that the last entry of a history gives, by session; nothing where there is no entry. Refused only for want of memory.
#[tactic(auto, using(crate::proofs::LastEntries::given_last))]
pub fn given_items(alloc: Global, history: &[HistoryEntry]) -> Result<Vec<Given>, AllocError>
    requires { length history.now < 2 ^ 30 }
    ensures { IfOk result (λ gifts. gifts.items ≡ of_last [] given_items history.now) }
{
    let served = served_sessions(alloc, history)?;
    let gifts = gifts_for(alloc, &served, history)?;
    Ok(gifts)
}

// What the last entry brings to each of some sessions.
fn gifts_for(
    alloc: Global,
    sessions: &[u64],
    history: &[HistoryEntry],
) -> Result<Vec<Given>, AllocError>
    requires { length history.now < 2 ^ 30 }
    ensures { IfOk result (λ gifts. gifts.items ≡ flat_map (λ session. map (given_to session) (of_last [] (change_items session) history.now)) sessions.now) }
{
    let mut gifts = Vec::new(alloc);
    for session in sessions {
        let items = change_items(alloc, *session, history)?;
        put_gifts(&mut gifts, *session, items)?;
    }
    Ok(gifts)
}

// Puts items for a session behind others.
fn put_gifts(gifts: &mut Vec<Given>, session: u64, items: Vec<Item>) -> Result<(), AllocError>
    ensures { OnOk result (gifts.new.items ≡ gifts.old.items ++ map (given_to session) items.items) }
{
    for item in items {
        gifts.push(Given { session, item })?;
    }
    Ok(())
}
