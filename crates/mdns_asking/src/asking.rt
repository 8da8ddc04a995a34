// The questions that have users.
ghost use Rattle.std.specs.Prelude.{◌≡◌, ◌||◌, ℕ, ◌≤◌, List, [], map, length, true, IfOk, OnOk};
ghost use Rattle.lists.specs.Lists.{least};
ghost use Rattle.mdns_history.specs.declared.held.Held.{Held};
ghost use Rattle.mdns_cache.specs.Lifetimes.{AllLive};
ghost use Rattle.mdns_cache.specs.Ended.{is_among};
ghost use Rattle.mdns_happened.specs.Told.{told_by};
ghost use Rattle.mdns_happened.specs.Walks.{AreWalks};
ghost use Rattle.mdns_question.specs.Next.{next_of};
ghost use Rattle.mdns_question.specs.Refreshing.{AreTimed, moment_of};
ghost use Rattle.sd_sessions.specs.Kept.{IsWellFormedCall};
ghost use Rattle.sd_sessions.specs.Put.{is_called, ArePutOnce, ArePutOnly};
ghost use Rattle.mdns_asking.specs.Asked.{begun_keys, ended_told, all_begun, all_ended, all_asked};
ghost use Rattle.mdns_asking.specs.Kept.{HaveGaps};
ghost use Rattle.mdns_asking.specs.Timed.{all_timed};
ghost use Rattle.mdns_asking.specs.Walked.{is_maybe_asked, AreNamed, AreEnough, AreKnown, AreWalked, AreHeard};
ghost use Rattle.mdns_asking.specs.Planned.{IsPlan};

use crate::due::asked_questions;
use crate::names::{put_begun_names, put_names_at};
use crate::places::touched_places;
use crate::plan::Plan;
use crate::queries::{queries, send_to_all};
use crate::timing::tell_points;
use crate::users::{begin, begun_keys, end, ended_keys, note};
use dns_name::Name;
use mdns_happened::{Happened, Walk, When};
use mdns_history::Sends;
use mdns_question::Asker;
use sd_sessions::Sessions;
use std::alloc::{AllocError, Global};
use std::marker::Model;

/// The questions that have users, each with its askings and its next refresh. Of the records nothing is kept: what a step looks
/// at are those of the names that were walked. Moments are in ms. (RFC 6762 5.2)
#[derive(Drop)]
pub struct Asking {
    alloc: Global,
    asker: Asker,
}

impl Model for Asking {
    ghost use Rattle.mdns_asking.specs.State.{State};
    ghost use Rattle.mdns_asking.specs.Kept.{HaveGaps};

    ghost Value = { State };

    ghost view = { λ a. record { questions = a.asker.questions; spare = a.asker.spare } };

    ghost invariant = { λ a. HaveGaps a.asker.questions };
}

impl Asking {
    /// No questions, and no room.
    pub fn new(alloc: Global) -> Asking
        ensures { result.questions ≡ [] }
    {
        Asking {
            alloc,
            asker: Asker::new(alloc),
        }
    }

    /// The first moment, in ms, at which a question is due, in its series or for a refresh; `None` exactly where there is no
    /// question. No record is looked at. (RFC 6762 5.2)
    pub fn first_due(&self) -> Option<u64>
        ensures kept { result ≡ least (map moment_of self.now.questions) }
        ensures due { (held : List Held) → AreTimed held self.now.questions → result ≡ least (map (next_of held) self.now.questions) }
    {
        self.asker.first_due()
    }

    /// Puts the names behind others whose records are to be walked for the questions, where an event touches these names: those
    /// of questions that are touched or that the event may ask, and of those that get a user. A name that is there, case aside,
    /// isn't put. Refused only for want of memory.
    pub fn put_names(
        &self,
        names: &mut Vec<Name>,
        when: When,
        happened: &Happened<'_>,
        touched: &[Name],
    ) -> Result<(), AllocError>
        requires { IsWellFormedCall (told_by happened.now).call }
        ensures kept { OnOk result ((name : List (List ℕ)) → is_among names.old.items name ≡ true → is_among names.new.items name ≡ true) }
        ensures named { OnOk result (AreNamed (told_by happened.now) when.moment self.now.questions touched.now names.new.items) }
        ensures only { OnOk result (ArePutOnly (λ name. (is_among touched.now name || is_maybe_asked (told_by happened.now) when.moment self.now.questions name) || is_called (told_by happened.now).call name)
            names.old.items names.new.items) }
        ensures once { OnOk result (ArePutOnce names.old.items names.new.items) }
    {
        let places = touched_places(self.alloc, &self.asker, when, happened, touched)?;
        put_names_at(names, self.asker.questions(), places.as_slice())?;
        put_begun_names(names, happened)?;
        Ok(())
    }

    /// What an event asks, begins and ends, where these are the walks of the names that `put_names` put. The queries that it
    /// sends are put behind what else is sent; the questions stay as they are. Refused only for want of memory, and some of the
    /// queries may be there then.
    pub fn plan(
        &self,
        when: When,
        happened: &Happened<'_>,
        walks: &[Walk],
        sessions: &Sessions,
        sent: &mut Sends,
    ) -> Result<Plan, AllocError>
        requires call { IsWellFormedCall (told_by happened.now).call }
        requires heard { AreHeard when.moment walks.now }
        ensures plan { IfOk result (λ plan. (held later : List Held) → AreTimed held self.now.questions → AreWalks held later walks.now → AllLive when.moment later
            → AreEnough (told_by happened.now) when.moment self.now.questions held later walks.now
            → IsPlan (told_by happened.now) when.moment sessions.now.sessions self.now.questions later walks.now sent.old sent.new plan) }
        ensures begun { IfOk result (λ plan. plan.begun.items ≡ begun_keys (told_by happened.now).call) }
        ensures ended { IfOk result (λ plan. plan.ended.items ≡ ended_told (told_by happened.now).call (told_by happened.now).detached sessions.now.sessions) }
        ensures gaps { HaveGaps self.now.questions }
    {
        let asked = asked_questions(self.alloc, &self.asker, when, happened, walks)?;
        send_to_all(sent, queries(self.alloc, when, happened, walks, &asked)?)?;
        let begun = begun_keys(self.alloc, happened)?;
        let ended = ended_keys(self.alloc, sessions, happened)?;
        Ok(Plan {
            asked,
            begun,
            ended,
        })
    }

    /// Takes the room that a plan needs. Nothing else changes. Refused only for want of memory.
    pub fn reserve(&mut self, plan: &Plan) -> Result<(), AllocError>
        ensures questions { self.new.questions ≡ self.old.questions }
        ensures room { OnOk result (length plan.now.begun.items ≤ self.new.spare) }
        ensures kept { self.old.spare ≤ self.new.spare }
    {
        self.asker.reserve(plan.begun.len())
    }

    /// Carries a plan out: what begins gets a user, what ends loses one, what is asked is noted, and each question of a walked
    /// name gets the first refresh point of its later records. It takes no memory. (RFC 6762 5.2)
    pub fn apply(&mut self, when: When, plan: &Plan, walks: &[Walk])
        requires room { length plan.now.begun.items ≤ self.old.spare }
        ensures { (held later : List Held) → AreTimed held self.old.questions → AreWalks held later walks.now → AreKnown held later walks.now self.old.questions
            → AreWalked walks.now plan.now.begun.items → AreWalked walks.now (map (λ asking. asking.0) plan.now.asked.items)
            → self.new.questions ≡ all_timed later (all_asked when.moment plan.now.asked.items
            (all_ended plan.now.ended.items (all_begun when.moment when.word plan.now.begun.items self.old.questions))) }
    {
        begin(&mut self.asker, when, &plan.begun);
        end(&mut self.asker, &plan.ended);
        note(&mut self.asker, when, &plan.asked);
        tell_points(&mut self.asker, walks);
    }
}
