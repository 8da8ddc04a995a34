// Which sessions are attached, and which are cut.
ghost use Rattle.std.specs.Prelude.{◌≡◌, ◌≤◌, ◌++◌, length, IfOk, OnOk};
ghost use Rattle.std.specs.Option.{is_some};
ghost use Rattle.plain_history.specs.Kept.{kept_if};
ghost use Rattle.mdns_history.specs.History.{has_mark};
ghost use Rattle.mdns_history.specs.Sessions.{opened, opened_count, attaching, is_attached, attached_sessions, is_cut, is_cut_of};

use crate::HistoryEntry;
use crate::calls::detached;
use mdns_history::{Entry, Mark, Outcome};
use std::alloc::{AllocError, Global};

/// The session that an outcome opened.
pub fn opened(outcome: &Outcome) -> Option<u64>
    ensures { result ≡ opened outcome.now }
{
    match outcome {
        Outcome::Opened { session } => Some(*session),
        _ => None,
    }
}

/// How many sessions were opened.
#[tactic(auto, unfolding(mdns_history::specs::Sessions::opened_count))]
pub fn opened_count(history: &[HistoryEntry]) -> u64
    ensures value { result ≡ opened_count history.now }
    ensures bound { result ≤ length history.now }
{
    let mut count = 0;
    for entry in history {
        if opened(&entry.entry().outcome).is_some() {
            count += 1;
        }
    }
    count
}

// Whether an entry opened a session or detached it.
fn attaching(session: u64, entry: &Entry) -> Option<bool>
    ensures { result ≡ attaching session entry.now }
{
    if opened(&entry.outcome) == Some(session) {
        return Some(true);
    }
    if detached(&entry.event, &entry.outcome) == Some(session) {
        return Some(false);
    }
    None
}

/// Whether a session is attached: the last that was said of it is that it was opened.
#[tactic(auto, unfolding(mdns_history::specs::Sessions::is_attached))]
pub fn is_attached(session: u64, history: &[HistoryEntry]) -> bool
    ensures { result ≡ is_attached session history.now }
{
    for entry in history {
        if let Some(attached) = attaching(session, entry.entry()) {
            return attached;
        }
    }
    false
}

/// The sessions that are attached, by number. Refused only for want of memory.
#[tactic(auto, unfolding(mdns_history::specs::Sessions::attached_sessions))]
pub fn attached_sessions(alloc: Global, history: &[HistoryEntry]) -> Result<Vec<u64>, AllocError>
    ensures { IfOk result (λ sessions. sessions.items ≡ attached_sessions history.now) }
{
    let mut sessions = Vec::new(alloc);
    for place in 0..opened_count(history) {
        put_attached(&mut sessions, place + 1, history)?;
    }
    Ok(sessions)
}

// Puts a session behind others, where it is attached.
fn put_attached(
    sessions: &mut Vec<u64>,
    session: u64,
    history: &[HistoryEntry],
) -> Result<(), AllocError>
    ensures { OnOk result (sessions.new.items ≡ sessions.old.items ++ kept_if (is_attached session history.now) session) }
{
    if is_attached(session, history) {
        sessions.push(session)?;
    }
    Ok(())
}

/// Whether a session was cut.
#[tactic(auto, unfolding(mdns_history::specs::Sessions::is_cut))]
pub fn is_cut(session: u64, history: &[HistoryEntry]) -> bool
    ensures { result ≡ is_cut session history.now }
{
    history.iter().any(|entry| cuts(session, entry.entry()))
}

// Whether an entry cut a session.
fn cuts(session: u64, entry: &Entry) -> bool
    ensures { result ≡ has_mark (is_cut_of session) entry.now }
{
    entry
        .marks
        .as_slice()
        .iter()
        .any(|mark| is_cut_of(session, mark))
}

fn is_cut_of(session: u64, mark: &Mark) -> bool
    ensures { result ≡ is_cut_of session mark.now }
{
    match mark {
        Mark::Cut { session: other } => *other == session,
        _ => false,
    }
}
