// What a daemon keeps, in parts of their own.
ghost use Rattle.std.specs.Prelude.{◌≡◌, ℕ, ◌+◌, ◌≤◌, ◌^◌, length, OnOk};
ghost use Rattle.mdns_history.specs.declared.event.Event.{Event};
ghost use Rattle.mdns_cache.specs.Lifetimes.{AllLive, AllHeard};
ghost use Rattle.mdns_question.specs.Refreshing.{AreTimed};
ghost use Rattle.mdns_records.specs.After.{held_after};
ghost use Rattle.mdns_records.specs.Visits.{ended_in};
ghost use Rattle.mdns_core.specs.Kept.{state_of};
ghost use Rattle.mdns_core.specs.Planned.{IsPlan};
ghost use Rattle.mdns_core.specs.Made.{HasRoom, IsMade};

use crate::plan::Plan;
use mdns_asking::Asking;
use mdns_cache::Steps;
use mdns_claims::Claims;
use mdns_happened::When;
use mdns_history::{Gifts, Marks, Outcome, Sends};
use mdns_owing::{News, Owing};
use mdns_records::Records;
use mdns_reply::Lasts;
use sd_sessions::Sessions;
use std::alloc::AllocError;
use std::sync::ledger::Ledger;

/// What a daemon keeps: the records that it holds, the names that it claims, the questions that have users, its sessions, when it last
/// multicast records, and what queries are owed.
#[derive(Drop)]
pub struct Parts {
    pub records: Records,
    pub claims: Claims,
    pub asking: Asking,
    pub sessions: Sessions,
    pub lasts: Lasts,
    pub owing: Owing,
}

/// What the entry has of a plan that was carried out.
#[derive(Drop)]
pub struct Done {
    pub marks: Marks,
    pub sent: Sends,
    pub given: Gifts,
    pub outcome: Outcome,
}

impl Parts {
    /// Takes the room that a plan needs. Nothing else changes. Refused only for want of memory.
    pub fn reserve(&mut self, plan: &Plan<'_>) -> Result<(), AllocError>
        requires { length self.old.sessions.sessions ≡ length plan.now.sessions.changes.items }
        ensures kept { (last : ℕ) → state_of last self.new ≡ state_of last self.old }
        ensures room { OnOk result (HasRoom plan.now self.new) }
    {
        self.records.reserve(plan.heard.as_slice().len())?;
        self.claims.reserve(&plan.claims)?;
        self.asking.reserve(&plan.asking)?;
        self.sessions.reserve(&plan.happened, &plan.sessions)?;
        self.lasts.reserve(plan.multicasts.as_rrs())?;
        self.owing.reserve(&plan.come)?;
        Ok(())
    }

    /// Carries a plan out. It takes no memory, and can't fail.
    pub fn apply<L: Ledger>(&mut self, when: When, plan: Plan<'_>, steps: &mut Steps<L>) -> Done
        requires timed { AreTimed self.old.records.held self.old.asking.questions }
        requires room { HasRoom plan self.old }
        requires planned { (last : ℕ) × (event : Event) × IsPlan (state_of last self.old) when.moment when.word event plan }
        ensures made { (last : ℕ) (event : Event) → IsPlan (state_of last self.old) when.moment when.word event plan.entry
            → IsMade (state_of last self.old) (held_after when.moment when.word plan.entry.heard self.old.records.held) when.moment when.word plan.entry result (state_of when.moment self.new) }
        ensures live { AllLive when.moment self.new.records.held }
        ensures heard { AllHeard when.moment self.old.records.held → AllHeard when.moment self.new.records.held }
        ensures visits { steps.new ≡ steps.old + length (ended_in when.moment self.old.records.held) + 1 }
    {
        let Plan {
            happened,
            heard,
            claims,
            walks,
            asking,
            sessions,
            marks,
            sent,
            multicasts,
            come,
            keeps_own,
            given,
        } = plan;
        self.records.apply(when, heard, steps);
        self.claims.apply(when, &happened, claims);
        self.asking.apply(when, &asking, &walks);
        let outcome = self.sessions.apply(&happened, sessions);
        let news = News {
            when,
            happened: &happened,
            multicasts: &multicasts,
        };
        self.owing.follow(&news, come);
        self.owing.keep_ours(&self.claims, keeps_own);
        self.lasts.apply(when.at(), multicasts.into_rrs());
        drop(happened);
        Done {
            marks,
            sent,
            given,
            outcome,
        }
    }
}
