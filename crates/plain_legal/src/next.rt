// The entry that follows a history, made in stages at its head.
ghost use Rattle.std.specs.Prelude.{◌≡◌, ◌+◌, ◌<◌, ◌≤◌, ◌^◌, [], ◌∷◌, ◌++◌, true, None, length, IfOk, OnOk};
ghost use Rattle.mdns_history.specs.InForce.{all_duties};
ghost use Rattle.mdns_history.specs.Sending.{sent_goodbyes, tick_sends};
ghost use Rattle.mdns_history.specs.Fitting.{event_sends, noted, with_cuts, with_items, with_outcome, next_entry};
ghost use Rattle.plain_history.specs.Last.{are_by};
ghost use Rattle.plain_history.specs.Standing.{may_stand};
ghost use Rattle.plain_legal.specs.Trial.{of_last, on_last, told_last};

use crate::marks::event_marks;
use crate::sends::event_sends;
use crate::trial::{gifts_of, marks_of, put_first, sends_of, take_first};
use mdns_base::Moment;
use mdns_history::{Entry, Event, Gifts, Mark, Marks, Outcome, Sends};
use plain_history::HistoryEntry;
use plain_items::{cut_marks, early_outcome, given_items, take_outcome};
use std::alloc::{AllocError, Global};

/// The entry that follows a history at a moment, with a random word, for an event. It is made at the head of the history, which is as
/// before afterwards. No entry may be later than the moment. Refused only for want of memory, and then the history may have another head.
pub fn next_entry(
    alloc: Global,
    history: &mut Vec<HistoryEntry>,
    moment: Moment,
    word: u32,
    event: Event,
) -> Result<Entry, AllocError>
    requires short { length history.old.items + 1 < 2 ^ 30 }
    requires by { are_by moment history.old.items ≡ true }
    ensures next { IfOk result (λ entry. entry ≡ next_entry all_duties history.old.items moment word event) }
    ensures kept { OnOk result (history.new.items ≡ history.old.items) }
{
    let outcome = early_outcome(alloc, &event, history)?;
    let bare = Entry {
        moment: moment.ms(),
        word,
        event,
        marks: Marks::new(alloc),
        sent: Sends::new(alloc),
        given: Gifts::new(alloc),
        outcome,
    };
    put_first(history, bare)?;
    note(alloc, history)?;
    cut(alloc, history)?;
    give(alloc, history)?;
    end(alloc, history)
}

// Gives the last entry of a history its marks, but those of cut sessions, and what it sends.
fn note(alloc: Global, history: &mut Vec<HistoryEntry>) -> Result<(), AllocError>
    requires some { 0 < length history.old.items }
    requires short { length history.old.items < 2 ^ 30 }
    requires by { of_last true (λ entry past. are_by entry.moment past) history.old.items ≡ true }
    requires stands { of_last true (λ entry past. may_stand (noted all_duties entry past)) history.old.items ≡ true }
    ensures { OnOk result (history.new.items ≡ on_last (noted all_duties) history.old.items) }
{
    let marks = marks_of(alloc, event_marks(alloc, history)?)?;
    let sent = sends_of(alloc, event_sends(alloc, history)?)?;
    let entry = take_first(history);
    put_first(
        history,
        Entry {
            marks,
            sent,
            ..entry
        },
    )
}

// Gives it the marks of the sessions that it cuts.
fn cut(alloc: Global, history: &mut Vec<HistoryEntry>) -> Result<(), AllocError>
    requires some { 0 < length history.old.items }
    requires short { length history.old.items < 2 ^ 30 }
    requires stands { of_last true (λ entry past. may_stand (with_cuts entry past)) history.old.items ≡ true }
    ensures { OnOk result (history.new.items ≡ on_last with_cuts history.old.items) }
{
    let cuts = cut_marks(alloc, history)?;
    let mut entry = take_first(history);
    put_marks(&mut entry.marks, cuts)?;
    put_first(history, entry)
}

// Puts marks behind others.
fn put_marks(marks: &mut Marks, more: Vec<Mark>) -> Result<(), AllocError>
    ensures { OnOk result (marks.new ≡ marks.old ++ more.items) }
{
    for mark in more {
        marks.push(mark)?;
    }
    Ok(())
}

// Gives it the items that sessions are given.
fn give(alloc: Global, history: &mut Vec<HistoryEntry>) -> Result<(), AllocError>
    requires some { 0 < length history.old.items }
    requires short { length history.old.items < 2 ^ 30 }
    requires stands { of_last true (λ entry past. may_stand (with_items entry past)) history.old.items ≡ true }
    ensures { OnOk result (history.new.items ≡ on_last with_items history.old.items) }
{
    let given = gifts_of(alloc, given_items(alloc, history)?)?;
    let entry = take_first(history);
    put_first(history, Entry { given, ..entry })
}

// Takes it out, with the outcome of a take, which sees what the entry itself gives.
fn end(alloc: Global, history: &mut Vec<HistoryEntry>) -> Result<Entry, AllocError>
    requires { 0 < length history.old.items }
    ensures { IfOk result (λ entry. entry ∷ history.new.items ≡ on_last with_outcome history.old.items) }
{
    let told = told_last(alloc, history)?;
    let entry = take_first(history);
    Ok(match told {
        Some(outcome) => Entry { outcome, ..entry },
        None => entry,
    })
}

// How a take goes that is the last entry of a history, and nothing of other events.
fn told_last(alloc: Global, history: &[HistoryEntry]) -> Result<Option<Outcome>, AllocError>
    ensures { IfOk result (λ told. told ≡ of_last None (λ entry past. told_last entry.event (entry ∷ past)) history.now) }
{
    let Some(last) = history.first() else {
        return Ok(None);
    };
    match &last.entry().event {
        Event::Take { session, max } => Ok(Some(take_outcome(alloc, *session, *max, history)?)),
        _ => Ok(None),
    }
}
