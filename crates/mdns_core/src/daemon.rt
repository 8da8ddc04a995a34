// The daemon: it keeps the records that are live and the sessions that are attached, and gives these what changes.
ghost use Rattle.std.specs.Prelude.{◌≡◌, ◌+◌, ◌*◌, ◌<◌, ◌≤◌, ◌^◌, ◌∷◌, ◌++◌, [], ℕ, List, max, IfOk, IfSome, OnOk, OnErr, Some, IsTrue, true, false};
ghost use Rattle.std.specs.Option.{is_some, option_map};
ghost use Rattle.std.specs.List.{find};
ghost use Rattle.sd_call.specs.Replay.{replay};
ghost use Rattle.mdns_history.specs.declared.entry.Entry.{Entry};
ghost use Rattle.mdns_history.specs.Sessions.{is_attached, is_cut};
ghost use Rattle.mdns_history.specs.Items.{session_items, taken_items, queue};
ghost use Rattle.mdns_history.specs.Replays.{answer_sets};
ghost use Rattle.mdns_asserts.specs.Earned.{IsEarned};
ghost use Rattle.mdns_core.specs.InForce.{in_force};
ghost use Rattle.mdns_core.specs.Touched.{touched};
ghost use Rattle.mdns_history.specs.Fitting.{Fits, FitsAt, boot_entry, is_boot, is_host_label};
ghost use Rattle.mdns_history.specs.Due.{NextDue};
ghost use Rattle.sd_sessions.specs.Codes.{has_number};

use crate::parts::{Done, Parts};
use crate::plan::{Kept, make_plan};
use mdns_asking::Asking;
use mdns_base::Moment;
use mdns_cache::Steps;
use mdns_claims::Claims;
use mdns_happened::When;
use mdns_history::{Config, Entry, Event, Gifts, Marks, Outcome, Sends};
use mdns_owing::Owing;
use mdns_records::Records;
use mdns_reply::Lasts;
use mdns_timer::earlier;
use sd_sessions::Sessions;
use std::alloc::{AllocError, Global};
use std::marker::Model;
use std::sync::ledger::Ledger;

/// Whether the daemon announces what it claims. (RFC 6762 8.3)
const ANNOUNCES: bool = true;

/// A daemon: the records that it holds, the names that it claims, the questions that it asks, its sessions, when it last multicast
/// records, and what queries are owed.
#[derive(Drop)]
pub struct Daemon {
    alloc: Global,
    last: When,
    parts: Parts,
    key: u64,
}

impl Model for Daemon {
    ghost use Rattle.std.specs.Prelude.{◌≡◌, ◌≤◌, true, length};
    ghost use Rattle.sd_answer.specs.Known.{rrs_of};
    ghost use Rattle.sd_answer.specs.Laws.{have_data};
    ghost use Rattle.mdns_history.specs.Lifetimes.{room_for_records};
    ghost use Rattle.mdns_cache.specs.Lifetimes.{AllLive, AllHeard};
    ghost use Rattle.mdns_question.specs.Refreshing.{AreTimed};
    ghost use Rattle.mdns_core.specs.State.{State};
    ghost use Rattle.mdns_core.specs.Kept.{state_of};

    ghost Value = { State };

    ghost view = { λ d. state_of d.last.moment d.parts };

    ghost invariant = { λ d. (length d.parts.records.held ≤ room_for_records) × AllLive d.last.moment d.parts.records.held
        × AllHeard d.last.moment d.parts.records.held × AreTimed d.parts.records.held d.parts.asking.questions × (have_data (rrs_of d.parts.records.held) ≡ true) };
}

impl Daemon {
    ghost use Rattle.mdns_core.specs.State.{Stands, due_of};

    /// A daemon that is booted `when`, with an IPv4 address and maybe a host whose name it claims, and the entry of its boot. Refused
    /// only for want of memory. (RFC 6762 section 8)
    pub fn new(alloc: Global, config: Config, when: When) -> Result<(Daemon, Entry), AllocError>
        requires host { IsTrue (is_host_label config.host) }
        ensures entry { IfOk result (λ made. made.1 ≡ boot_entry when.moment when.word config) }
        ensures stands { IfOk result (λ made. Stands made.0 (made.1 ∷ [])) }
        ensures last { IfOk result (λ made. made.0.last ≡ when.moment) }
    {
        let key = u64::from(when.word);
        let parts = Parts {
            records: Records::new(alloc, when.word)?,
            claims: Claims::new(alloc, &config, when, ANNOUNCES)?,
            asking: Asking::new(alloc),
            sessions: Sessions::with_key(alloc, key),
            lasts: Lasts::new(alloc, key),
            owing: Owing::new(alloc),
        };
        let daemon = Daemon {
            alloc,
            last: when,
            parts,
            key,
        };
        let entry = Entry {
            moment: when.moment,
            word: when.word,
            event: Event::Boot { config },
            marks: Marks::new(alloc),
            sent: Sends::new(alloc),
            given: Gifts::new(alloc),
            outcome: Outcome::Done,
        };
        Ok((daemon, entry))
    }

    /// The moment of the last entry.
    pub fn last(&self) -> Moment
        ensures { result ≡ self.now.last }
    {
        self.last.at()
    }

    /// Whether a session is attached.
    pub fn attached(&self, session: u64) -> bool
        ensures value { result ≡ is_some (find (has_number session) self.now.sessions) }
        ensures attached { (history : List Entry) → Stands self.now history → result ≡ is_attached session history }
    {
        self.parts.sessions.attached(session)
    }

    /// The next moment at which something is due, in milliseconds, and no earlier than the last entry: when a live record ends, a
    /// question is to be asked, a group is to be probed, is sure of its name, or is to be announced, or some of what queries are owed
    /// may be sent. `None` where nothing ever is. (RFC 6762 sections 5.2, 6, 8 and 10)
    pub fn next_due(&self) -> Option<u64>
        ensures value { result ≡ due_of self.now }
        ensures due { (history : List Entry) → Stands self.now history → NextDue in_force history result }
    {
        let parts = &self.parts;
        let due = earlier(parts.records.next_end(), parts.asking.first_due());
        let waits = earlier(parts.claims.next_due(), parts.owing.next_due(&parts.lasts));
        not_before(self.last.moment, earlier(due, waits))
    }

    /// Does one event `when` it comes, and answers its entry: for every history that the daemon stands for it is
    /// the one that fits, and the daemon then stands for the history with it. After an `Err`, which comes only for want of
    /// memory, the daemon is as before.
    pub fn step<L: Ledger>(
        &mut self,
        when: When,
        event: Event,
        steps: &mut Steps<L>,
    ) -> Result<Entry, AllocError>
        requires later { self.old.last ≤ when.moment }
        requires no_boot { is_boot event ≡ false }

        ensures asked { IfOk result (λ entry. (entry.moment ≡ when.moment) × (entry.word ≡ when.word) × (entry.event ≡ event)) }
        ensures fits { IfOk result (λ entry. (history : List Entry) → Stands self.old history
            → Fits in_force entry history × Stands self.new (entry ∷ history)) }
        // Replaying the items of a session that is attached and not cut gives exactly the answers of its operations.
        ensures replayed { IfOk result (λ entry. (history : List Entry) (session : ℕ) → Stands self.old history
            → is_attached session (entry ∷ history) ≡ true → is_cut session (entry ∷ history) ≡ false
            → replay (session_items session (entry ∷ history)) ≡ Some (answer_sets session (entry ∷ history))) }
        // And they are those that the session took, and then those that are queued for it.
        ensures queued { IfOk result (λ entry. (history : List Entry) (session : ℕ) → Stands self.old history
            → is_cut session (entry ∷ history) ≡ false
            → session_items session (entry ∷ history) ≡ taken_items session (entry ∷ history) ++ queue session (entry ∷ history)) }
        // Nothing unique is asserted before its probes, and nothing taken back that wasn't own.
        ensures asserts { IfOk result (λ entry. (history : List Entry) → Stands self.old history → IsEarned entry history) }
        ensures last { OnOk result (self.new.last ≡ when.moment) }
        // After a tick of a daemon that stands for a history nothing is due by then.
        ensures ticked { OnOk result ((history : List Entry) → Stands self.old history → event ≡ Event.Tick → IfSome (due_of self.new) (λ due. when.moment < due)) }
        ensures err { OnErr result (self.new ≡ self.old) }
        // Few records are looked at: eight visits at most for all that the entry touches, and for one more.
        ensures visits { (history : List Entry) (entry : Entry) → Stands self.old history → FitsAt in_force history when.moment when.word event entry
            → steps.new ≤ steps.old + 8 * (touched entry history + 1) }
    {
        let kept = Kept {
            alloc: self.alloc,
            last: self.last.moment,
            parts: &self.parts,
            key: self.key,
        };
        let plan = make_plan(&kept, when, &event, steps)?;
        self.parts.reserve(&plan)?;
        self.last = when;
        let Done {
            marks,
            sent,
            given,
            outcome,
        } = self.parts.apply(when, plan, steps);
        Ok(Entry {
            moment: when.moment,
            word: when.word,
            event,
            marks,
            sent,
            given,
            outcome,
        })
    }
}

// A moment that may be there, but none before the last one.
fn not_before(last: u64, due: Option<u64>) -> Option<u64>
    ensures { result ≡ option_map (max last) due }
{
    let due = due?;
    Some(last.max(due))
}
