// The questions that have users, and which of them are due.
ghost use Rattle.std.specs.Prelude.{◌≡◌, ◌+◌, ◌<◌, ◌≤◌, ◌^◌, [], map, length, IsOk, OnOk, OnErr, IfOk, IfNone, IfSome};
ghost use Rattle.std.specs.List.{list_any};
ghost use Rattle.lists.specs.Lists.{least};
ghost use Rattle.mdns_timer.specs.Parts.{NoneDue, IsFirstDue};
ghost use Rattle.mdns_question.specs.Tracking.{is_for, with_user, without_user, with_asking};
ghost use Rattle.mdns_question.specs.Placed.{AreOfName};
ghost use Rattle.mdns_question.specs.Refreshing.{with_refresh, IsToldAt, moment_of, due_by_kept};

use crate::Tracked;
use crate::changes::{note, put_refresh, put_refresh_at};
use crate::kept::due_by_kept;
use crate::named::{places_near, places_of};
use crate::users::{add_user, take_user};
use dns_name::Name;
use dns_record::Key;
use mdns_base::Moment;
use mdns_history::Cause;
use mdns_timer::Deadlines;
use std::alloc::{AllocError, Global};
use std::marker::Model;

/// The questions that have users, each with its askings, and the refresh point that it was told of each. Moments are in ms.
/// (RFC 6762 5.2)
#[derive(Drop)]
pub struct Asker {
    questions: Vec<Tracked>,
    // When each question is due.
    deadlines: Deadlines,
}

impl Model for Asker {
    ghost use Rattle.std.specs.Prelude.{◌-◌, min, vec_len, vec_capacity};
    ghost use Rattle.mdns_question.specs.Kept.{Kept};
    ghost use Rattle.mdns_question.specs.Arranged.{IsArranged};

    ghost Value = { Kept };

    ghost view = { λ a. record { questions = a.questions.items; spare = min (vec_capacity a.questions - vec_len a.questions) a.deadlines.spare } };

    ghost invariant = { λ a. IsArranged a.questions.items a.deadlines.moments };
}

impl Asker {
    /// No questions, and no room.
    pub fn new(alloc: Global) -> Asker
        ensures questions { result.questions ≡ [] }
    {
        Asker {
            questions: Vec::new(alloc),
            deadlines: Deadlines::new(alloc),
        }
    }

    /// Makes room for `more` questions. Nothing else changes. Refused only for want of memory.
    pub fn reserve(&mut self, more: usize) -> Result<(), AllocError>
        ensures questions { self.new.questions ≡ self.old.questions }
        ensures room { OnOk result (more ≤ self.new.spare) }
        ensures kept { self.old.spare ≤ self.new.spare }
    {
        self.questions.reserve(more)?;
        self.deadlines.reserve(more)
    }

    /// Gives a question one user more: a count of 2^64 - 1 stays. The first gives moment, random word and spelling, and the
    /// question is first due in its series 20 to 120 ms later. Refused only for want of memory, never where there is room,
    /// and then the questions are as before. (RFC 6762 5.2)
    pub fn start(&mut self, now: Moment, word: u32, question: &Key) -> Result<(), AllocError>
        ensures ok { OnOk result (self.new.questions ≡ with_user now word question.now self.old.questions) }
        ensures err { OnErr result (self.new.questions ≡ self.old.questions) }
        ensures reserved { 1 ≤ self.old.spare → IsOk result }
        ensures spare { self.old.spare ≤ self.new.spare + 1 }
    {
        add_user(
            &mut self.questions,
            &mut self.deadlines,
            now,
            word,
            question,
        )
    }

    /// Takes one user from a question, which ends with its last; whether it had a user.
    pub fn stop(&mut self, question: &Key) -> bool
        ensures had { result ≡ list_any (is_for question.now) self.old.questions }
        ensures questions { self.new.questions ≡ without_user question.now self.old.questions }
        ensures spare { self.old.spare ≤ self.new.spare }
    {
        take_user(&mut self.questions, &mut self.deadlines, question)
    }

    /// Notes that a question was asked. An asking of cause series or heard puts the next one of the series a gap later:
    /// a second behind the first, twice as long each time, an hour at most. (RFC 6762 5.2 and 7.3)
    pub fn asked(&mut self, now: Moment, question: &Key, cause: Cause)
        ensures questions { self.new.questions ≡ with_asking now question.now cause self.old.questions }
        ensures spare { self.new.spare ≡ self.old.spare }
    {
        note(
            &mut self.questions,
            &mut self.deadlines,
            now,
            question,
            cause,
        );
    }

    /// Tells of a question the first refresh point, in ms, that calls for an asking of it (`first_refresh`), in place of what was
    /// told before. It is to be told anew whenever the records that answer the question change, when it begins, and when it
    /// was asked. (RFC 6762 5.2)
    pub fn tell(&mut self, question: &Key, point: Option<u64>)
        ensures questions { self.new.questions ≡ with_refresh question.now point self.old.questions }
        ensures spare { self.new.spare ≡ self.old.spare }
    {
        put_refresh(&mut self.questions, &mut self.deadlines, question, point);
    }

    /// Tells the same of the question at a place, counted from 0.
    pub fn tell_at(&mut self, place: usize, point: Option<u64>)
        requires { place < length self.old.questions }
        ensures questions { IsToldAt place point self.old.questions self.new.questions }
        ensures spare { self.new.spare ≡ self.old.spare }
    {
        put_refresh_at(&mut self.questions, &mut self.deadlines, place, point);
    }

    /// The questions that are due at `now`, in ms, by what is kept of them, refresh points too: by folded name and then by
    /// type, each with its cause. No record is looked at. Refused only for want of memory. (RFC 6762 5.2)
    pub fn due_by_kept(&self, alloc: Global, now: Moment) -> Result<Vec<(Key, Cause)>, AllocError>
        ensures { IfOk result (λ due. due.items ≡ due_by_kept now self.now.questions) }
    {
        due_by_kept(alloc, &self.questions, &self.deadlines, now)
    }

    /// The first moment, in ms, at which a question is due by what is kept of them; `None` exactly where there is no
    /// question. No record is looked at.
    pub fn first_due(&self) -> Option<u64>
        ensures { result ≡ least (map moment_of self.now.questions) }
    {
        self.deadlines.least()
    }

    /// The place of the first question, from the place `from` on, that is due at `now`, in ms, by what is kept of it; `None` exactly
    /// where there is none. No record is looked at, and no question that isn't due.
    pub fn next_due(&self, from: usize, now: Moment) -> Option<usize>
        ensures none { IfNone result (NoneDue (map moment_of self.now.questions) now from (length self.now.questions)) }
        ensures within { IfSome result (λ place. place < length self.now.questions) }
        ensures some { IfSome result (IsFirstDue (map moment_of self.now.questions) now from) }
    {
        self.deadlines.next_due(from, now.ms())
    }

    /// The place of the first question of a name, case aside, and the place behind the last one; they are equal where there is none.
    pub fn places_of(&self, name: &Name) -> (usize, usize)
        ensures { AreOfName self.now.questions name.now result.0 result.1 }
    {
        places_of(&self.questions, name)
    }

    /// The same. They are found at once where the question at the place `near` is one of the name.
    pub fn places_near(&self, name: &Name, near: usize) -> (usize, usize)
        ensures { AreOfName self.now.questions name.now result.0 result.1 }
    {
        places_near(&self.questions, name, near)
    }

    /// The questions that have users, by folded name and then by type.
    pub fn questions(&self) -> &[Tracked]
        ensures { result.now ≡ self.now.questions }
    {
        self.questions.as_slice()
    }
}
