// The changes of sessions made, once nothing can be refused any more.
ghost use Rattle.std.specs.Prelude.{◌≡◌, ◌==◌, ◌<◌, ◌≤◌, [], true, false, take, drop, length, position, vec_len, vec_capacity, Some, OnOk};
ghost use Rattle.std.specs.Option.{option_map, is_some};
ghost use Rattle.std.specs.List.{find};
ghost use Rattle.mdns_happened.specs.Told.{told_by};
ghost use Rattle.sd_sessions.specs.declared.session.SessionState.{SessionState};
ghost use Rattle.sd_sessions.specs.Changes.{passes};
ghost use Rattle.sd_sessions.specs.Codes.{has_number};
ghost use Rattle.sd_sessions.specs.Settling.{settled, all_settled, with_opened, remaining_but, handed_to, outcome_told, sessions_told, taken_from, most_taken};
ghost use Rattle.sd_operations.specs.Operations.{after_own};
ghost use Rattle.sd_sessions.specs.Kept.{session_of, sessions_of, queued, joined, HasRoomFor, HaveRoom, IsFit, AreFit};

use crate::change::SessionChange;
use crate::session::SessionState;
use mdns_happened::Happened;
use mdns_history::{Items, Outcome};
use sd_call::Item;
use sd_operations::run_own;
use sd_outbox::{Outbox, Taken};
use std::alloc::{AllocError, Global};

/// Takes the room that the sessions need for what they are brought, and for the operation that a call starts. Nothing else changes.
/// Refused only for want of memory.
pub fn make_room(sessions: &mut [SessionState], changes: &[SessionChange]) -> Result<(), AllocError>
    requires { length sessions.old ≡ length changes.now }
    ensures same { sessions_of sessions.new ≡ sessions_of sessions.old }
    ensures room { OnOk result (HaveRoom sessions.new changes.now) }
{
    for place in 0..sessions.len() {
        make_room_in(&mut sessions[place], &changes[place])?;
    }
    Ok(())
}

// Takes the room that a session needs.
fn make_room_in(session: &mut SessionState, change: &SessionChange) -> Result<(), AllocError>
    ensures same { session_of session.new ≡ session_of session.old }
    ensures room { OnOk result (HasRoomFor session.new change.now) }
{
    if change.call.is_some() {
        session.operations.reserve(1)?;
    }
    let more = change.brought.as_slice().len();
    session.outbox.reserve(more)?;
    Ok(())
}

/// Makes the changes of the sessions. It takes no memory.
pub fn settle(sessions: &mut [SessionState], mut changes: Vec<SessionChange>)
    requires length { length sessions.old ≡ vec_len changes }
    requires room { HaveRoom sessions.old changes.items }
    requires fit { AreFit (sessions_of sessions.old) changes.items }
    ensures { sessions_of sessions.new ≡ all_settled (sessions_of sessions.old) changes.items }
{
    while let Some(change) = changes.pop() {
        settle_one(&mut sessions[changes.len()], change);
    }
}

fn settle_one(session: &mut SessionState, change: SessionChange)
    requires room { HasRoomFor session.old change }
    requires fit { IsFit (session_of session.old) change }
    ensures { session_of session.new ≡ settled (session_of session.old) change }
{
    let SessionChange {
        call,
        brought,
        cuts,
        ..
    } = change;
    if cuts {
        session.outbox.cut();
    } else {
        queue(&mut session.outbox, brought);
    }
    run_own(&mut session.operations, session.number, call);
}

// Puts items behind a queue that has room for them.
fn queue(outbox: &mut Outbox, items: Items)
    requires room { length items ≤ outbox.old.spare }
    requires fits { passes (queued outbox.old.items) items ≡ false }
    ensures { outbox.new.items ≡ joined outbox.old.items items }
{
    let mut rest = items.into_vec();
    rest.reverse();
    while let Some(item) = rest.pop() {
        let _ = outbox.append(item);
    }
}

/// Ends, opens or takes from a session, where that happened, once the changes are made, and answers how the event went. It
/// takes no memory.
pub fn finish(
    alloc: Global,
    sessions: &mut Vec<SessionState>,
    happened: &Happened<'_>,
    taken: Vec<Item>,
) -> Outcome
    requires empty { taken.items ≡ [] }
    requires room { most_taken (told_by happened.now).taking ≤ vec_capacity taken }
    requires opening { is_some (told_by happened.now).opened ≡ true → vec_len sessions.old < vec_capacity sessions.old }
    ensures outcome { result ≡ outcome_told (told_by happened.now).taking (told_by happened.now).outcome
        (with_opened (told_by happened.now).opened (remaining_but (told_by happened.now).detached (sessions_of sessions.old.items))) }
    ensures sessions { sessions_of sessions.new.items ≡ sessions_told (told_by happened.now).taking
        (with_opened (told_by happened.now).opened (remaining_but (told_by happened.now).detached (sessions_of sessions.old.items))) }
{
    end_session(sessions, happened);
    open_session(alloc, sessions, happened);
    hand_over(sessions, happened, taken)
}

// Lets go of the session that was ended.
fn end_session(sessions: &mut Vec<SessionState>, happened: &Happened<'_>)
    ensures sessions { sessions_of sessions.new.items ≡ remaining_but (told_by happened.now).detached (sessions_of sessions.old.items) }
    ensures len { vec_len sessions.new ≤ vec_len sessions.old }
    ensures capacity { vec_capacity sessions.new ≡ vec_capacity sessions.old }
{
    sessions.retain(|session| !happened.detaches(session.number));
}

// Puts the session that was opened behind the others, for which there is room.
fn open_session(alloc: Global, sessions: &mut Vec<SessionState>, happened: &Happened<'_>)
    requires { is_some (told_by happened.now).opened ≡ true → vec_len sessions.old < vec_capacity sessions.old }
    ensures { sessions_of sessions.new.items ≡ with_opened (told_by happened.now).opened (sessions_of sessions.old.items) }
{
    if let Happened::Opened { session } = happened {
        let _ = sessions.push(SessionState {
            number: *session,
            operations: Vec::new(alloc),
            outbox: Outbox::new(alloc),
        });
    }
}

// Hands over what a session takes.
fn hand_over(sessions: &mut [SessionState], happened: &Happened<'_>, taken: Vec<Item>) -> Outcome
    requires empty { taken.items ≡ [] }
    requires room { most_taken (told_by happened.now).taking ≤ vec_capacity taken }
    ensures outcome { result ≡ outcome_told (told_by happened.now).taking (told_by happened.now).outcome (sessions_of sessions.old) }
    ensures sessions { sessions_of sessions.new ≡ sessions_told (told_by happened.now).taking (sessions_of sessions.old) }
{
    match happened {
        Happened::Took { session, max } => take_from(sessions, *session, *max, taken),
        _ => happened.outcome(),
    }
}

// Hands over the first items of the queue of a session.
fn take_from(sessions: &mut [SessionState], number: u64, max: u32, taken: Vec<Item>) -> Outcome
    requires empty { taken.items ≡ [] }
    requires room { max ≤ vec_capacity taken }
    ensures outcome { result ≡ handed_to max (find (has_number number) (sessions_of sessions.old)) }
    ensures sessions { sessions_of sessions.new ≡ taken_from number max (sessions_of sessions.old) }
{
    match place_of(sessions, number) {
        Some(place) => take_outcome(&mut sessions[place], max, taken),
        None => Outcome::Closed,
    }
}

// The place of the session of a number.
fn place_of(sessions: &[SessionState], number: u64) -> Option<usize>
    ensures { result ≡ position (λ (session : SessionState). session.number == number) sessions.now }
{
    sessions.iter().position(|session| session.number == number)
}

// Hands over the first items of a session's queue.
fn take_outcome(session: &mut SessionState, max: u32, taken: Vec<Item>) -> Outcome
    requires empty { taken.items ≡ [] }
    requires room { max ≤ vec_capacity taken }
    ensures outcome { result ≡ handed_to max (Some (session_of session.old)) }
    ensures session { session_of session.new ≡ record (session_of session.old) { queue = drop max (queued session.old.outbox.items) } }
{
    if session.outbox.is_cut() {
        return Outcome::Cut;
    }
    let items = take_items(&mut session.outbox, max, taken);
    if items.as_slice().is_empty() {
        Outcome::Empty
    } else {
        Outcome::Items { items }
    }
}

// Takes the first items of a queue, at most `max`, into a list that has room for them.
fn take_items(outbox: &mut Outbox, max: u32, mut taken: Vec<Item>) -> Items
    requires empty { taken.items ≡ [] }
    requires room { max ≤ vec_capacity taken }
    ensures taken { result ≡ take max (queued outbox.old.items) }
    ensures left { outbox.new.items ≡ option_map (drop max) outbox.old.items }
{
    for _place in 0..max {
        match outbox.take() {
            Taken::One(item) => {
                let _ = taken.push(item);
            }
            Taken::Empty | Taken::Cut => break,
        }
    }
    Items::from_vec(taken)
}
