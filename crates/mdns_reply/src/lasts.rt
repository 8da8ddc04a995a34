// The last multicasts of records.
ghost use Rattle.std.specs.Prelude.{◌≡◌, ◌↔◌, ◌+◌, ◌≤◌, ◌^◌, List, [], ◌∷◌, length, IsTrue, IsOk, OnOk, IfSome};
ghost use Rattle.mdns_history.specs.declared.entry.Entry.{Entry};
ghost use Rattle.dns_record.specs.declared.record.Rr.{Rr};
ghost use Rattle.mdns_history.specs.History.{now as moment_of};
ghost use Rattle.mdns_history.specs.Debts.{multicasts_in, last_multicast, is_long_ago, is_recent};
ghost use Rattle.mdns_history.specs.Multicasts.{multicast_gap, defence_gap};
ghost use Rattle.mdns_reply.specs.Lasts.{most_ttl, last_of, free_at, IsLeft, Stands};

use crate::mark::Mark;
use crate::moments::{KEPT_TIME, Moments, forget_old, note_all};
use by_name::KeyedState;
use dns_message::Rrs;
use dns_record::Rr;
use indexmap::IndexMap;
use mdns_base::Moment;
use std::alloc::{AllocError, Global};
use std::marker::Model;

// The least time between two multicasts of a record, in ms. (RFC 6762 6)
const MULTICAST_GAP: u64 = 1000;

// The same of a record that a probe asks for.
const DEFENCE_GAP: u64 = 250;

// So many are kept without a look at how old they are.
const FEW: usize = 64;

/// When records were last multicast since they were last taken back, in ms. What is so long ago that nobody can tell is
/// forgotten in time, so that they stay few. (RFC 6762 5.4 and 6)
#[derive(Drop)]
pub struct Lasts {
    moments: Moments,
    // How many were left when the old ones were last forgotten, and when that was.
    left: usize,
    looked: Moment,
}

impl Model for Lasts {
    ghost use Rattle.indexmap.specs.IndexMap.{spare as places_left};
    ghost use Rattle.mdns_reply.specs.Lasts.{State};

    ghost Value = { State };

    ghost view = { λ l. record { lasts = l.moments.entries; spare = places_left l.moments } };
}

impl Lasts {
    /// No record was multicast. Records can't be chosen to collide by who doesn't know the key.
    #[tactic(auto, using(crate::proofs::Standing::none_stand))]
    pub fn new(alloc: Global, key: u64) -> Lasts
        ensures lasts { result.lasts ≡ [] }
        ensures stands { (entry : Entry) → multicasts_in entry ≡ [] → Stands result.lasts (entry ∷ []) }
    {
        Lasts {
            moments: IndexMap::with_hasher(alloc, KeyedState::new(key)),
            left: 0,
            looked: Moment::new(0),
        }
    }

    /// How many last multicasts are kept.
    pub fn len(&self) -> usize
        ensures { result ≡ length self.now.lasts }
    {
        self.moments.len()
    }

    /// Whether none is kept.
    pub fn is_empty(&self) -> bool
        ensures { IsTrue result ↔ (self.now.lasts ≡ []) }
    {
        self.moments.is_empty()
    }

    /// When a record was last multicast, if that is kept.
    pub fn last(&self, rr: &Rr) -> Option<Moment>
        ensures { result ≡ last_of rr.now self.now.lasts }
    {
        self.moments.get(&Mark::sought(rr)).copied()
    }

    /// Whether a second has passed at `now` since a record's last multicast, so that it may be multicast. (RFC 6762 6)
    #[tactic(auto, using(crate::proofs::Standing::gap_told))]
    pub fn is_free(&self, rr: &Rr, now: Moment) -> bool
        ensures kept { result ≡ is_long_ago multicast_gap now (last_of rr.now self.now.lasts) }
        ensures history { (history : List Entry) → Stands self.now.lasts history → moment_of history ≤ now
            → result ≡ is_long_ago multicast_gap now (last_multicast rr.now history) }
    {
        is_long_ago(MULTICAST_GAP, now, self.last(rr))
    }

    /// The moment in ms from which on a record may be multicast: a second after its last multicast, and 0 where none is kept. (RFC
    /// 6762 6)
    pub fn free_from(&self, rr: &Rr) -> u64
        ensures { result ≡ free_at multicast_gap (last_of rr.now self.now.lasts) }
    {
        free_at(MULTICAST_GAP, self.last(rr))
    }

    /// The same where it defends its name: a quarter of a second after its last multicast. (RFC 6762 6)
    pub fn free_to_defend_from(&self, rr: &Rr) -> u64
        ensures { result ≡ free_at defence_gap (last_of rr.now self.now.lasts) }
    {
        free_at(DEFENCE_GAP, self.last(rr))
    }

    /// Whether a quarter of a second has passed at `now` since a record's last multicast, so that it may be multicast to defend its
    /// name. (RFC 6762 6)
    #[tactic(auto, using(crate::proofs::Standing::gap_told))]
    pub fn is_free_to_defend(&self, rr: &Rr, now: Moment) -> bool
        ensures kept { result ≡ is_long_ago defence_gap now (last_of rr.now self.now.lasts) }
        ensures history { (history : List Entry) → Stands self.now.lasts history → moment_of history ≤ now
            → result ≡ is_long_ago defence_gap now (last_multicast rr.now history) }
    {
        is_long_ago(DEFENCE_GAP, now, self.last(rr))
    }

    /// Whether less than a quarter of an own record's TTL has passed at `now` since its last multicast, so that a unicast answer is
    /// enough. (RFC 6762 5.4)
    #[tactic(auto, using(crate::proofs::Standing::recent_told))]
    pub fn is_recent(&self, rr: &Rr, now: Moment) -> bool
        ensures kept { result ≡ is_recent rr.now now (last_of rr.now self.now.lasts) }
        ensures history { (history : List Entry) → Stands self.now.lasts history → moment_of history ≤ now → rr.now.ttl ≤ most_ttl
            → result ≡ is_recent rr.now now (last_multicast rr.now history) }
    {
        is_recent(rr, now, self.last(rr))
    }

    /// Takes room for the records that are multicast. Nothing else changes. Refused only for want of memory.
    pub fn reserve(&mut self, sent: &Rrs) -> Result<(), AllocError>
        ensures lasts { self.new.lasts ≡ self.old.lasts }
        ensures room { OnOk result (length sent.now ≤ self.new.spare) }
        ensures kept { self.old.spare ≤ self.new.spare }
        ensures enough { length sent.now ≤ self.old.spare → IsOk result }
    {
        self.moments.reserve(sent.as_slice().len())
    }

    /// Notes that these records were multicast at `now` in responses, where there is room for them: those with TTL 0 are taken
    /// back, and then each with another TTL has this moment. The moments stand for the longer history, then. It takes no
    /// memory, and may give back what isn't used. (RFC 6762 6)
    pub fn apply(&mut self, now: Moment, sent: Rrs)
        requires room { length sent ≤ self.old.spare }
        ensures stands { (entry : Entry) (past : List Entry) → entry.moment ≡ now → moment_of past ≤ now → multicasts_in entry ≡ sent
            → Stands self.old.lasts past → Stands self.new.lasts (entry ∷ past) }
    {
        let sent = sent.into_vec();
        if sent.is_empty() {
            return;
        }
        note_all(&mut self.moments, now, sent);
        self.forget_in_time(now);
    }

    // Forgets what is so long ago that nobody can tell, where there are twice as many as were left the last time, or nothing that was
    // left then can be worth keeping.
    fn forget_in_time(&mut self, now: Moment)
        ensures { (rr : Rr) → IsLeft now (last_of rr self.old.lasts) (last_of rr self.new.lasts) }
    {
        let len = self.moments.len();
        let has_grown = len > FEW && len / 2 > self.left;
        if has_grown || now.ms().saturating_sub(self.looked.ms()) > KEPT_TIME {
            forget_old(&mut self.moments, now);
            self.left = self.moments.len();
            self.looked = now;
        }
    }
}

// The moment so much time behind another, if there is one.
fn free_at(gap: u64, last: Option<Moment>) -> u64
    requires gap { gap ≤ 1000 }
    ensures { result ≡ free_at gap last }
{
    match last {
        None => 0,
        Some(last) => last.ms() + gap,
    }
}

// Whether so much time has passed since a moment, if there is one.
fn is_long_ago(gap: u64, now: Moment, last: Option<Moment>) -> bool
    ensures { result ≡ is_long_ago gap now last }
{
    match last {
        None => true,
        Some(last) => last.ms() <= now.ms() && now.ms() - last.ms() >= gap,
    }
}

// Whether less than a quarter of a record's TTL has passed since a moment, if there is one.
fn is_recent(rr: &Rr, now: Moment, last: Option<Moment>) -> bool
    ensures { result ≡ is_recent rr.now now last }
{
    match last {
        None => false,
        Some(last) => now.ms().saturating_sub(last.ms()) < 250 * u64::from(rr.ttl),
    }
}
