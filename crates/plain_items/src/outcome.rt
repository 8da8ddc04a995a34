// How events go.
ghost use Rattle.std.specs.Prelude.{◌≡◌, ◌<◌, ◌^◌, take, length, IfOk, if◌then◌else◌};
ghost use Rattle.mdns_history.specs.Items.{queue};
ghost use Rattle.mdns_history.specs.Outcomes.{attach_outcome, call_outcome, early_outcome, items_or_empty, late_outcome, take_outcome};
ghost use Rattle.mdns_history.specs.Sessions.{is_attached};

use crate::code::call_code;
use crate::queued::queue;
use mdns_history::{Event, Items, Outcome};
use plain_history::{HistoryEntry, attached_sessions, is_attached, is_cut, opened_count};
use sd_call::{Item, Request};
use std::alloc::{AllocError, Global};

/// The most sessions that are attached at a time.
const MOST_SESSIONS: usize = 64;

/// The most sessions of a daemon over its life.
const MOST_OVER_LIFE: u64 = 1 << 63;

/// How an attach goes: a session is opened with the next number, unless a limit is reached. Refused only for want of memory.
pub fn attach_outcome(alloc: Global, history: &[HistoryEntry]) -> Result<Outcome, AllocError>
    ensures { IfOk result (λ outcome. outcome ≡ attach_outcome history.now) }
{
    let attached = attached_sessions(alloc, history)?;
    let opened = opened_count(history);
    if attached.len() >= MOST_SESSIONS || opened >= MOST_OVER_LIFE {
        return Ok(Outcome::Full);
    }
    Ok(Outcome::Opened {
        session: opened + 1,
    })
}

/// How a call goes: of a session that isn't attached, of one that was cut, or with a code. Refused only for want of memory.
pub fn call_outcome(
    alloc: Global,
    session: u64,
    op: u32,
    request: &Request,
    history: &[HistoryEntry],
) -> Result<Outcome, AllocError>
    requires { length history.now < 2 ^ 30 }
    ensures { IfOk result (λ outcome. outcome ≡ call_outcome session op request.now history.now) }
{
    if !is_attached(session, history) {
        return Ok(Outcome::Closed);
    }
    if is_cut(session, history) {
        return Ok(Outcome::Cut);
    }
    let code = call_code(alloc, session, op, request, history)?;
    Ok(Outcome::Code { code })
}

/// How a take of at most so many items goes, where the history has the entry of the take as its last. Refused only for want of
/// memory.
pub fn take_outcome(
    alloc: Global,
    session: u64,
    max: u32,
    history: &[HistoryEntry],
) -> Result<Outcome, AllocError>
    ensures { IfOk result (λ outcome. outcome ≡ take_outcome session max history.now) }
{
    if !is_attached(session, history) {
        return Ok(Outcome::Closed);
    }
    if is_cut(session, history) {
        return Ok(Outcome::Cut);
    }
    let mut items = queue(alloc, session, history)?;
    items.truncate(max as usize);
    Ok(items_or_empty(items))
}

// What a take hands over.
fn items_or_empty(items: Vec<Item>) -> Outcome
    ensures { result ≡ items_or_empty items.items }
{
    if items.is_empty() {
        return Outcome::Empty;
    }
    let items = Items::from_vec(items);
    Outcome::Items { items }
}

/// The outcome of an event as far as the history before it decides it. Refused only for want of memory.
#[tactic(auto, unfolding(mdns_history::specs::Outcomes::early_outcome))]
pub fn early_outcome(
    alloc: Global,
    event: &Event,
    history: &[HistoryEntry],
) -> Result<Outcome, AllocError>
    requires { length history.now < 2 ^ 30 }
    ensures { IfOk result (λ outcome. outcome ≡ early_outcome event.now history.now) }
{
    match event {
        Event::Attach => attach_outcome(alloc, history),
        Event::Detach { session } => Ok(detach_outcome(*session, history)),
        Event::Call {
            session,
            op,
            request,
        } => call_outcome(alloc, *session, *op, request, history),
        _ => Ok(Outcome::Done),
    }
}

// How a detach goes.
fn detach_outcome(session: u64, history: &[HistoryEntry]) -> Outcome
    ensures { result ≡ (if is_attached session history.now then Outcome.Ended else Outcome.Closed) }
{
    if is_attached(session, history) {
        Outcome::Ended
    } else {
        Outcome::Closed
    }
}

/// The outcome of an event whose early one is given, where the history has its entry as its last: a take sees what its own entry
/// gives. Refused only for want of memory.
pub fn late_outcome(
    alloc: Global,
    event: &Event,
    early: Outcome,
    history: &[HistoryEntry],
) -> Result<Outcome, AllocError>
    ensures { IfOk result (λ outcome. outcome ≡ late_outcome event.now early history.now) }
{
    match event {
        Event::Take { session, max } => take_outcome(alloc, *session, *max, history),
        _ => Ok(early),
    }
}
