// The entry that is tried at the head of a history.
ghost use Rattle.std.specs.Prelude.{◌≡◌, ◌<◌, ◌∷◌, true, length, IfOk, OnOk};
ghost use Rattle.plain_history.specs.Standing.{may_stand};

use mdns_history::{Entry, Gifts, Given, Mark, Marks, Sends, Sent};
use plain_history::HistoryEntry;
use std::alloc::{AllocError, Global};

/// Puts an entry that may stand in a history at its head. Refused only for want of memory.
pub fn put_first(history: &mut Vec<HistoryEntry>, entry: Entry) -> Result<(), AllocError>
    requires { may_stand entry ≡ true }
    ensures { OnOk result (history.new.items ≡ entry ∷ history.old.items) }
{
    if let Some(first) = HistoryEntry::new(entry) {
        history.insert(0, first)?;
    }
    Ok(())
}

/// Takes the last entry of a history out of it.
pub fn take_first(history: &mut Vec<HistoryEntry>) -> Entry
    requires { 0 < length history.old.items }
    ensures { history.old.items ≡ result ∷ history.new.items }
{
    history.remove(0).into_entry()
}

/// Marks as an entry has them. Refused only for want of memory.
pub fn marks_of(alloc: Global, marks: Vec<Mark>) -> Result<Marks, AllocError>
    ensures { IfOk result (λ all. all ≡ marks.items) }
{
    let mut all = Marks::new(alloc);
    for mark in marks {
        all.push(mark)?;
    }
    Ok(all)
}

/// Messages as an entry has them. Refused only for want of memory.
pub fn sends_of(alloc: Global, sent: Vec<Sent>) -> Result<Sends, AllocError>
    ensures { IfOk result (λ all. all ≡ sent.items) }
{
    let mut all = Sends::new(alloc);
    for one in sent {
        all.push(one)?;
    }
    Ok(all)
}

/// Items as an entry gives them. Refused only for want of memory.
pub fn gifts_of(alloc: Global, given: Vec<Given>) -> Result<Gifts, AllocError>
    ensures { IfOk result (λ all. all ≡ given.items) }
{
    let mut all = Gifts::new(alloc);
    for one in given {
        all.push(one)?;
    }
    Ok(all)
}
