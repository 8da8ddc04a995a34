// What sessions were given and have taken, and what is queued for them.
ghost use Rattle.std.specs.Prelude.{◌≡◌, ◌++◌, drop, IfOk, OnOk};
ghost use Rattle.std.specs.List.{filter_map};
ghost use Rattle.mdns_history.specs.Items.{handed_over, item_for, queue, session_items, taken_items};

use mdns_history::{Entry, Event, Given, Outcome};
use plain_history::{HistoryEntry, is_cut};
use sd_call::Item;
use std::alloc::{AllocError, Global};

/// All items that a session was given, in order. Refused only for want of memory.
#[tactic(auto, unfolding(mdns_history::specs::Items::session_items))]
pub fn session_items(
    alloc: Global,
    session: u64,
    history: &[HistoryEntry],
) -> Result<Vec<Item>, AllocError>
    ensures { IfOk result (λ items. items.items ≡ session_items session history.now) }
{
    let mut items = Vec::new(alloc);
    let mut place = history.len();
    while place > 0 {
        place -= 1;
        put_given(&mut items, session, history[place].entry().given.as_slice())?;
    }
    Ok(items)
}

// Puts the items of one session among gifts behind others.
fn put_given(items: &mut Vec<Item>, session: u64, gifts: &[Given]) -> Result<(), AllocError>
    ensures { OnOk result (items.new.items ≡ items.old.items ++ filter_map (item_for session) gifts.now) }
{
    for gift in gifts {
        if gift.session == session {
            items.push(gift.item.copy()?)?;
        }
    }
    Ok(())
}

/// All items that a session took, in order. Refused only for want of memory.
#[tactic(auto, unfolding(mdns_history::specs::Items::taken_items))]
pub fn taken_items(
    alloc: Global,
    session: u64,
    history: &[HistoryEntry],
) -> Result<Vec<Item>, AllocError>
    ensures { IfOk result (λ items. items.items ≡ taken_items session history.now) }
{
    let mut items = Vec::new(alloc);
    let mut place = history.len();
    while place > 0 {
        place -= 1;
        put_handed_over(&mut items, session, history[place].entry())?;
    }
    Ok(items)
}

// Puts the items that an entry hands over to a session behind others.
fn put_handed_over(items: &mut Vec<Item>, session: u64, entry: &Entry) -> Result<(), AllocError>
    ensures { OnOk result (items.new.items ≡ items.old.items ++ handed_over session entry.now.event entry.now.outcome) }
{
    match (&entry.event, &entry.outcome) {
        (
            Event::Take {
                session: its_session,
                ..
            },
            Outcome::Items { items: taken },
        ) if *its_session == session => put_copies(items, taken.as_slice()),
        _ => Ok(()),
    }
}

// Puts copies of items behind others.
fn put_copies(items: &mut Vec<Item>, more: &[Item]) -> Result<(), AllocError>
    ensures { OnOk result (items.new.items ≡ items.old.items ++ more.now) }
{
    for item in more {
        items.push(item.copy()?)?;
    }
    Ok(())
}

/// The items that a session was given and hasn't taken, in order; none for a session that was cut. Refused only for want of memory.
#[tactic(auto, unfolding(mdns_history::specs::Items::queue))]
pub fn queue(alloc: Global, session: u64, history: &[HistoryEntry]) -> Result<Vec<Item>, AllocError>
    ensures { IfOk result (λ items. items.items ≡ queue session history.now) }
{
    if is_cut(session, history) {
        return Ok(Vec::new(alloc));
    }
    let given = session_items(alloc, session, history)?;
    let taken = taken_items(alloc, session, history)?;
    items_behind(alloc, &given, taken.len())
}

// The items behind the first ones.
#[tactic(auto, using(crate::proofs::LastEntries::none_behind, crate::proofs::LastEntries::rest_behind))]
fn items_behind(alloc: Global, items: &[Item], count: usize) -> Result<Vec<Item>, AllocError>
    ensures { IfOk result (λ rest. rest.items ≡ drop count items.now) }
{
    let mut rest = Vec::new(alloc);
    if count < items.len() {
        put_copies(&mut rest, &items[count..])?;
    }
    Ok(rest)
}
