// The attached sessions of a daemon.
ghost use Rattle.std.specs.Prelude.{◌≡◌, ℕ, List, ◌+◌, ◌++◌, ◌^◌, ◌||◌, ◌<◌, ◌≤◌, [], length, nat_le, vec_len, vec_capacity, true, IfOk, OnOk, if◌then◌else◌};
ghost use Rattle.std.specs.List.{find};
ghost use Rattle.std.specs.Option.{is_some, unwrap_or};
ghost use Rattle.mdns_cache.specs.Ended.{is_among};
ghost use Rattle.mdns_happened.specs.Told.{told_of, told_by};
ghost use Rattle.mdns_happened.specs.Walks.{AreWalks};
ghost use Rattle.sd_sessions.specs.Answered.{answered, View};
ghost use Rattle.sd_sessions.specs.Codes.{call_outcome_of, has_number};
ghost use Rattle.sd_sessions.specs.Settling.{cuts_of, gifts_of, most_taken, outcome_told, sessions_told, shifted_told};
ghost use Rattle.sd_sessions.specs.Kept.{operations_in, session_of, sessions_of, AreFit, AreWellFormed, HaveRoom, IsWellFormedCall};
ghost use Rattle.sd_sessions.specs.Planned.{IsPlan, IsAnyPlan, IsReady, IsTold};
ghost use Rattle.sd_sessions.specs.Put.{is_called, ArePutOnce, ArePutOnly};
ghost use Rattle.sd_sessions.specs.Walked.{AreBeside, AreNamed, IsCallNamed, AreKnown, IsCallWalked};

use crate::by_names::changes_by_names;
use crate::change::{SessionChange, gifts, put_cuts};
use crate::concerned::find_concerned;
use crate::index::{make_entry, refile};
use crate::names::{put_called, put_touched};
use crate::session::{SessionState, find};
use crate::settle::{finish, make_room, settle};
use dns_name::Name;
use mdns_happened::{Around, Happened, Idle};
use mdns_history::{Event, Gifts, Marks, Operation, Outcome};
use sd_call::{Item, Request};
use sd_index::Askers;
use sd_operations::{Registering, call_code};
use std::alloc::{AllocError, Global};
use std::marker::Model;

/// The most sessions at a time.
const MOST_SESSIONS: usize = 64;

/// The most sessions of a daemon over its life.
const MOST_OPENED: u64 = 1 << 63;

/// The sessions of a daemon: how many were opened, and those that are attached, by number.
#[derive(Drop)]
pub struct Sessions {
    alloc: Global,
    opened: u64,
    attached: Vec<SessionState>,
    // The operations of the attached sessions, by the name that they ask for.
    askers: Askers,
}

/// What an event changes in the sessions, in their order, and room for what a take hands over.
#[derive(Drop)]
pub struct Plan {
    pub changes: Vec<SessionChange>,
    pub taken: Vec<Item>,
}

impl Model for Sessions {
    ghost use Rattle.std.specs.Prelude.{◌-◌, map, vec_len, vec_capacity};
    ghost use Rattle.sd_sessions.specs.Sessions.{State};
    ghost use Rattle.sd_sessions.specs.Kept.{sessions_of, AreKept};
    ghost use Rattle.sd_sessions.specs.Indexed.{AreIndexed};

    ghost Value = { State };

    ghost view = { λ s. record {
      opened = s.opened;
      sessions = sessions_of s.attached.items;
      room = map (λ one. one.outbox.spare) s.attached.items;
      starts = map (λ one. vec_capacity one.operations - vec_len one.operations) s.attached.items;
      places = vec_capacity s.attached - vec_len s.attached;
      filing = s.askers.spare;
    } };

    ghost invariant = { λ s. AreKept s.opened (sessions_of s.attached.items) × AreIndexed s.askers.entries (sessions_of s.attached.items) };
}

impl Sessions {
    /// No sessions, whose index has no secret key.
    pub fn new(alloc: Global) -> Sessions
        ensures opened { result.opened ≡ 0 }
        ensures sessions { result.sessions ≡ [] }
    {
        Sessions::with_key(alloc, 0)
    }

    /// No sessions. Names that operations ask for can't be chosen to collide by who doesn't know the key.
    pub fn with_key(alloc: Global, key: u64) -> Sessions
        ensures opened { result.opened ≡ 0 }
        ensures sessions { result.sessions ≡ [] }
    {
        Sessions {
            alloc,
            opened: 0,
            attached: Vec::new(alloc),
            askers: Askers::new(alloc, key),
        }
    }

    /// Whether a session is attached.
    pub fn attached(&self, session: u64) -> bool
        ensures { result ≡ is_some (find (has_number session) self.now.sessions) }
    {
        find(&self.attached, session).is_some()
    }

    /// The live operations of a session, by number; none where it isn't attached.
    pub fn operations(&self, session: u64) -> &[Operation]
        ensures operations { result.now ≡ operations_in (find (has_number session) self.now.sessions) }
        ensures well_formed { AreWellFormed result.now }
    {
        match find(&self.attached, session) {
            Some(session) => session.operations.as_slice(),
            None => &[],
        }
    }

    /// What an attach amounts to: a session is opened, unless 64 are attached, or 2^63 were opened.
    pub fn attach<'a>(&self) -> Happened<'a>
        ensures { told_by result ≡ told_of Event.Attach
            (if nat_le 64 (length self.now.sessions) || nat_le (2 ^ 63) self.now.opened then Outcome.Full else Outcome.Opened (self.now.opened + 1)) [] }
    {
        if self.attached.len() >= MOST_SESSIONS || self.opened >= MOST_OPENED {
            Happened::Nothing { why: Idle::Full }
        } else {
            Happened::Opened {
                session: self.opened + 1,
            }
        }
    }

    /// What a detach amounts to.
    pub fn detach<'a>(&self, session: u64) -> Happened<'a>
        ensures { told_by result ≡ told_of (Event.Detach session) (if is_some (find (has_number session) self.now.sessions) then Outcome.Ended else Outcome.Closed) [] }
    {
        if self.attached(session) {
            Happened::Detached { session }
        } else {
            Happened::Nothing { why: Idle::Closed }
        }
    }

    /// What a call amounts to, where this is known of registrations.
    pub fn call<'a>(
        &self,
        session: u64,
        op: u32,
        request: &'a Request,
        known: Registering,
    ) -> Happened<'a>
        ensures told { told_by result ≡ told_of (Event.Call session op request.now) (call_outcome_of known (find (has_number session) self.now.sessions) op request.now) [] }
        ensures well_formed { IsWellFormedCall (told_by result).call }
    {
        match find(&self.attached, session) {
            Some(state) => call_of(state, session, op, request, known),
            None => Happened::Nothing { why: Idle::Closed },
        }
    }

    /// Puts behind others the names by whose records an event is looked at for the operations: of the touched names those
    /// that an operation asks for, and the name that an accepted call asks for. A name that is among them is put no second
    /// time, case aside. Refused only for want of memory.
    pub fn put_names(
        &self,
        names: &mut Vec<Name>,
        happened: &Happened<'_>,
        touched: &[Name],
    ) -> Result<(), AllocError>
        requires { IsWellFormedCall (told_by happened.now).call }
        ensures kept { OnOk result ((name : List (List ℕ)) → is_among names.old.items name ≡ true → is_among names.new.items name ≡ true) }
        ensures asked { OnOk result (AreNamed touched.now names.new.items self.now.sessions) }
        ensures call { OnOk result (IsCallNamed names.new.items (told_by happened.now).call) }
        ensures only { OnOk result (ArePutOnly (λ name. is_among touched.now name || is_called (told_by happened.now).call name) names.old.items names.new.items) }
        ensures once { OnOk result (ArePutOnce names.old.items names.new.items) }
    {
        put_touched(names, &self.askers, touched)?;
        put_called(names, happened)?;
        Ok(())
    }

    /// What an event changes in the sessions, told by what was looked up around it. Each name that an operation asks for was
    /// walked, or its records stay as they are, and what an accepted call asks for was. Of each registration it is told what it had
    /// and has, or that stays. Nothing is changed. Refused only for want of memory.
    pub fn plan(&self, happened: &Happened<'_>, around: &Around<'_>) -> Result<Plan, AllocError>
        requires { IsTold (told_by happened.now) self.now }
        // The answers are those of any two views, before and after, of which enough is told.
        ensures { IfOk result (λ plan. (earlier later : View) → AreWalks earlier.held later.held around.now.walks.now
            → AreKnown earlier.held later.held around.now.walks.now self.now.sessions → IsCallWalked around.now.walks.now (told_by happened.now).call
            → AreBeside (told_by happened.now) earlier later around.now self.now.sessions
            → IsPlan (told_by happened.now) (answered earlier) (answered later) self.now.sessions plan) }
    {
        let concerned = find_concerned(self.alloc, &self.askers, happened, around)?;
        let changes = changes_by_names(self.alloc, &self.attached, &concerned, happened, around)?;
        let taken = room_to_take(self.alloc, happened)?;
        Ok(Plan { changes, taken })
    }

    /// Takes the room that a plan needs. Nothing else changes. Refused only for want of memory.
    pub fn reserve(&mut self, happened: &Happened<'_>, plan: &Plan) -> Result<(), AllocError>
        requires { length self.old.sessions ≡ length plan.now.changes.items }
        ensures opened { self.new.opened ≡ self.old.opened }
        ensures sessions { self.new.sessions ≡ self.old.sessions }
        ensures ready { OnOk result (IsReady (told_by happened.now) plan.now self.new) }
    {
        prepare(&mut self.attached, &plan.changes, happened)?;
        make_entry(&mut self.askers, happened)?;
        Ok(())
    }

    /// Carries a plan out, and answers how the event went. It takes no memory.
    pub fn apply(&mut self, happened: &Happened<'_>, plan: Plan) -> Outcome
        requires planned { IsAnyPlan (told_by happened.now) self.old.sessions plan }
        requires ready { IsReady (told_by happened.now) plan self.old }
        ensures opened { self.new.opened ≡ unwrap_or (told_by happened.now).opened self.old.opened }
        ensures outcome { result ≡ outcome_told (told_by happened.now).taking (told_by happened.now).outcome
            (shifted_told (told_by happened.now) self.old.sessions plan.changes.items) }
        ensures sessions { self.new.sessions ≡ sessions_told (told_by happened.now).taking
            (shifted_told (told_by happened.now) self.old.sessions plan.changes.items) }
    {
        refile(&mut self.askers, &self.attached, happened);
        let outcome = carry_out(
            self.alloc,
            &mut self.attached,
            happened,
            plan.changes,
            plan.taken,
        );
        self.opened = opened_after(happened, self.opened);
        outcome
    }
}

impl Plan {
    /// Puts the marks of the sessions that are cut behind others. Refused only for want of memory.
    pub fn put_cuts(&self, marks: &mut Marks) -> Result<(), AllocError>
        ensures { OnOk result (marks.new ≡ marks.old ++ cuts_of self.now.changes.items) }
    {
        put_cuts(marks, &self.changes)
    }

    /// What the sessions that aren't cut are given. Refused only for want of memory.
    pub fn gifts(&self, alloc: Global) -> Result<Gifts, AllocError>
        ensures { IfOk result (λ gifts. gifts ≡ gifts_of self.now.changes.items) }
    {
        gifts(alloc, &self.changes)
    }
}

// What a call of an attached session amounts to.
#[tactic(auto, unfolding(sd_operations::specs::Codes::kept_code))]
fn call_of<'a>(
    state: &SessionState,
    session: u64,
    op: u32,
    request: &'a Request,
    known: Registering,
) -> Happened<'a>
    ensures told { told_by result ≡ told_of (Event.Call session op request.now) (call_outcome_of known (Some (session_of state.now)) op request.now) [] }
    ensures well_formed { IsWellFormedCall (told_by result).call }
{
    if state.outbox.is_cut() {
        return Happened::Nothing { why: Idle::Cut };
    }
    Happened::Called {
        session,
        op,
        request,
        code: call_code(known, state.operations.as_slice(), op, request),
    }
}

// How many sessions were opened after what happened.
fn opened_after(happened: &Happened<'_>, opened: u64) -> u64
    ensures { result ≡ unwrap_or (told_by happened.now).opened opened }
{
    happened.opened().unwrap_or(opened)
}

// Room for as many items as a take may hand over.
fn room_to_take(alloc: Global, happened: &Happened<'_>) -> Result<Vec<Item>, AllocError>
    ensures items { IfOk result (λ taken. taken.items ≡ []) }
    ensures room { IfOk result (λ taken. most_taken (told_by happened.now).taking ≤ vec_capacity taken) }
{
    match happened {
        Happened::Took { max, .. } => Vec::with_capacity(alloc, *max as usize),
        _ => Ok(Vec::new(alloc)),
    }
}

// Takes all the room that the changes of the sessions need. Nothing else changes. Refused only for want of memory.
fn prepare(
    sessions: &mut Vec<SessionState>,
    changes: &[SessionChange],
    happened: &Happened<'_>,
) -> Result<(), AllocError>
    requires { vec_len sessions.old ≡ length changes.now }
    ensures same { sessions_of sessions.new.items ≡ sessions_of sessions.old.items }
    ensures len { vec_len sessions.new ≡ vec_len sessions.old }
    ensures room { OnOk result (HaveRoom sessions.new.items changes.now) }
    ensures place { OnOk result (is_some (told_by happened.now).opened ≡ true → vec_len sessions.new < vec_capacity sessions.new) }
{
    make_room(sessions, changes)?;
    make_place(sessions, happened)?;
    Ok(())
}

// Makes the changes of the sessions, and ends, opens or takes from one. It takes no memory.
fn carry_out(
    alloc: Global,
    sessions: &mut Vec<SessionState>,
    happened: &Happened<'_>,
    changes: Vec<SessionChange>,
    taken: Vec<Item>,
) -> Outcome
    requires length { vec_len sessions.old ≡ vec_len changes }
    requires room { HaveRoom sessions.old.items changes.items }
    requires fit { AreFit (sessions_of sessions.old.items) changes.items }
    requires empty { taken.items ≡ [] }
    requires taking { most_taken (told_by happened.now).taking ≤ vec_capacity taken }
    requires opening { is_some (told_by happened.now).opened ≡ true → vec_len sessions.old < vec_capacity sessions.old }
    ensures outcome { result ≡ outcome_told (told_by happened.now).taking (told_by happened.now).outcome
        (shifted_told (told_by happened.now) (sessions_of sessions.old.items) changes.items) }
    ensures sessions { sessions_of sessions.new.items ≡ sessions_told (told_by happened.now).taking
        (shifted_told (told_by happened.now) (sessions_of sessions.old.items) changes.items) }
{
    settle(sessions, changes);
    finish(alloc, sessions, happened, taken)
}

// Takes room for the session that was opened. Refused only for want of memory.
fn make_place(sessions: &mut Vec<SessionState>, happened: &Happened<'_>) -> Result<(), AllocError>
    ensures items { sessions.new.items ≡ sessions.old.items }
    ensures len { vec_len sessions.new ≡ vec_len sessions.old }
    ensures place { OnOk result (is_some (told_by happened.now).opened ≡ true → vec_len sessions.new < vec_capacity sessions.new) }
{
    if happened.opened().is_some() {
        sessions.reserve(1)?;
    }
    Ok(())
}
