// Who asks for a name, as operations come and go.
ghost use Rattle.std.specs.Prelude.{◌≡◌, ℕ, ◌<◌, ◌++◌, List, Some, true, not, filter, IsTrue, OnOk};
ghost use Rattle.std.specs.List.Sorted.{IsPermutation};
ghost use Rattle.std.specs.Option.{is_some};
ghost use Rattle.sd_call.specs.Requests.{well_formed};
ghost use Rattle.mdns_history.specs.Sessions.{after_request, has_op};
ghost use Rattle.mdns_happened.specs.Told.{told_by};
ghost use Rattle.sd_index.specs.declared.asker.Asker.{Asker as AskerValue};
ghost use Rattle.sd_index.specs.Asked.{askers_of};
ghost use Rattle.sd_sessions.specs.Settling.{remaining_but};
ghost use Rattle.sd_sessions.specs.Kept.{sessions_of, numbers_of, AreWellFormed, HaveRising, HaveWellFormed, IsRising, IsWellFormedCall};
ghost use Rattle.sd_operations.specs.Operations.{AreRising};
ghost use Rattle.sd_sessions.specs.Indexed.{asker_for, asking_of, askers_in, askers_by, askers_after, left_by};

use crate::session::{SessionState, find};
use mdns_happened::Happened;
use mdns_history::Operation;
use sd_call::Request;
use sd_index::{Asker, Askers};
use sd_operations::{is_start, is_stop, operation_of};
use std::alloc::AllocError;

/// Takes the room that the index needs for what a call starts. Nothing else changes. Refused only for want of memory.
pub fn make_entry(askers: &mut Askers, happened: &Happened<'_>) -> Result<(), AllocError>
    ensures entries { askers.new.entries ≡ askers.old.entries }
    ensures room { OnOk result (is_some (told_by happened.now).call ≡ true → 0 < askers.new.spare) }
{
    if let Happened::Called { code: 0, .. } = happened {
        askers.reserve(1)?;
    }
    Ok(())
}

/// Files the operation that an event starts, and takes out those that it ends, of sessions as they were before it. It takes
/// no memory.
pub fn refile(askers: &mut Askers, sessions: &[SessionState], happened: &Happened<'_>)
    requires formed { HaveWellFormed (sessions_of sessions.now) }
    requires rising { HaveRising (sessions_of sessions.now) }
    requires numbers { IsRising (numbers_of (sessions_of sessions.now)) }
    requires call { IsWellFormedCall (told_by happened.now).call }
    requires room { is_some (told_by happened.now).call ≡ true → 0 < askers.old.spare }
    ensures { (owner : List ℕ) → IsPermutation (askers_of owner askers.old.entries) (askers_in owner (sessions_of sessions.now))
        → IsPermutation (askers_of owner askers.new.entries) (askers_after (told_by happened.now) owner (sessions_of sessions.now)) }
{
    match happened {
        Happened::Called {
            session,
            op,
            request,
            code: 0,
        } => file_call(askers, sessions, *session, *op, request),
        _ => take_ended(askers, sessions, ended(happened)),
    }
}

// The session that was ended.
fn ended(happened: &Happened<'_>) -> Option<u64>
    ensures { result ≡ (told_by happened.now).detached }
{
    match happened {
        Happened::Detached { session } => Some(*session),
        _ => None,
    }
}

// Files what an accepted call starts, and takes out what it stops.
fn file_call(
    askers: &mut Askers,
    sessions: &[SessionState],
    session: u64,
    op: u32,
    request: &Request,
)
    requires formed { HaveWellFormed (sessions_of sessions.now) }
    requires rising { HaveRising (sessions_of sessions.now) }
    requires numbers { IsRising (numbers_of (sessions_of sessions.now)) }
    requires call { IsTrue (well_formed request.now) }
    requires room { 0 < askers.old.spare }
    ensures { (owner : List ℕ) → IsPermutation (askers_of owner askers.old.entries) (askers_in owner (sessions_of sessions.now))
        → IsPermutation (askers_of owner askers.new.entries)
        (askers_by (left_by (Some (record { session = session; op = op; request = request.now }))) owner (sessions_of sessions.now)) }
{
    if let Some(state) = find(sessions, session) {
        file_request(askers, state.operations.as_slice(), session, op, request);
    }
}

// Takes out the operations of a session that is ended, where one is.
fn take_ended(askers: &mut Askers, sessions: &[SessionState], ended: Option<u64>)
    requires formed { HaveWellFormed (sessions_of sessions.now) }
    requires numbers { IsRising (numbers_of (sessions_of sessions.now)) }
    ensures { (owner : List ℕ) → IsPermutation (askers_of owner askers.old.entries) (askers_in owner (sessions_of sessions.now))
        → IsPermutation (askers_of owner askers.new.entries) (askers_in owner (remaining_but ended (sessions_of sessions.now))) }
{
    match ended {
        Some(session) => take_session(askers, sessions, session),
        None => {}
    }
}

// Takes out the operations of the session of a number.
fn take_session(askers: &mut Askers, sessions: &[SessionState], session: u64)
    requires formed { HaveWellFormed (sessions_of sessions.now) }
    requires numbers { IsRising (numbers_of (sessions_of sessions.now)) }
    ensures { (owner : List ℕ) → IsPermutation (askers_of owner askers.old.entries) (askers_in owner (sessions_of sessions.now))
        → IsPermutation (askers_of owner askers.new.entries) (askers_in owner (remaining_but (Some session) (sessions_of sessions.now))) }
{
    if let Some(state) = find(sessions, session) {
        take_all(askers, state.operations.as_slice());
    }
}

// Files what a request of a session with these operations starts, and takes out what it stops.
fn file_request(
    askers: &mut Askers,
    operations: &[Operation],
    session: u64,
    op: u32,
    request: &Request,
)
    requires formed { AreWellFormed operations.now }
    requires rising { AreRising operations.now }
    requires call { IsTrue (well_formed request.now) }
    requires room { 0 < askers.old.spare }
    ensures { (owner : List ℕ) (rest : List AskerValue) → IsPermutation (askers_of owner askers.old.entries) (asking_of owner operations.now ++ rest)
        → IsPermutation (askers_of owner askers.new.entries) (asking_of owner (after_request session op request.now operations.now) ++ rest) }
{
    if is_start(request) {
        askers.put(request, Asker { session, op });
    } else if is_stop(request) {
        take_stopped(askers, operations, op);
    }
}

// Takes out the operation of a number.
fn take_stopped(askers: &mut Askers, operations: &[Operation], op: u32)
    requires formed { AreWellFormed operations.now }
    requires rising { AreRising operations.now }
    ensures { (owner : List ℕ) (rest : List AskerValue) → IsPermutation (askers_of owner askers.old.entries) (asking_of owner operations.now ++ rest)
        → IsPermutation (askers_of owner askers.new.entries) (asking_of owner (filter (λ operation. not (has_op op operation)) operations.now) ++ rest) }
{
    if let Some(operation) = operation_of(operations, op) {
        askers.take(&operation.request, asker_for(operation));
    }
}

// Takes out operations.
fn take_all(askers: &mut Askers, operations: &[Operation])
    requires { AreWellFormed operations.now }
    ensures { (owner : List ℕ) (rest : List AskerValue) → IsPermutation (askers_of owner askers.old.entries) (asking_of owner operations.now ++ rest)
        → IsPermutation (askers_of owner askers.new.entries) rest }
{
    for operation in operations {
        askers.take(&operation.request, asker_for(operation));
    }
}

// An operation as the index has it.
fn asker_for(operation: &Operation) -> Asker
    ensures { result ≡ asker_for operation.now }
{
    Asker {
        session: operation.session,
        op: operation.op,
    }
}
