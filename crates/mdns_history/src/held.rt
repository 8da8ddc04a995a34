// Records that are kept.
ghost use Rattle.std.specs.Prelude.{◌≡◌, ◌≤◌, filter, vec_len, vec_capacity, IfOk};
ghost use Rattle.mdns_history.specs.Lifetimes.{cuts, is_other, is_live_at, is_uncut};
ghost use Rattle.mdns_history.specs.Asking.{is_half_fresh};

use crate::shared::SharedRr;
use dns_record::Rr;
use mdns_base::Moment;
use std::alloc::{AllocError, Global};

/// A heard record that is live until its end, in ms, as its last hearing spells it. (RFC 6762 10)
#[derive(Drop)]
pub struct Held {
    pub rr: SharedRr,
    /// The moment of its last hearing with a TTL above 0.
    pub heard: Moment,
    /// The random word of that hearing.
    pub word: u32,
    /// The moment from which on it is no longer live, in ms.
    pub end: u64,
}

impl Held {
    /// An equal record. Refused only for want of memory.
    pub fn copy(&self) -> Result<Held, AllocError>
        ensures { IfOk result (λ copy. copy ≡ self.now) }
    {
        Ok(Held {
            rr: self.rr.share()?,
            heard: self.heard,
            word: self.word,
            end: self.end,
        })
    }

    /// Whether it is live at a moment: it hasn't ended by then.
    pub fn is_live(&self, now: Moment) -> bool
        ensures { result ≡ is_live_at now self.now }
    {
        now.ms() < self.end
    }

    /// Whether its end is the one that its TTL gives: nothing cut its life.
    pub fn is_uncut(&self) -> bool
        ensures { result ≡ is_uncut self.now }
    {
        self.end == self.heard.ms() + self.rr.ttl_ms()
    }

    /// Whether it lives a second longer at most once a record is heard: a goodbye of it, or a record of its owner and type with the flush
    /// bit, more than a second after it was heard itself. (RFC 6762 10.1 and 10.2)
    pub fn is_cut_by(&self, now: Moment, rr: &Rr) -> bool
        ensures { result ≡ cuts self.now.rr self.now.heard (record { rr = rr.now; moment = now; word = 0 }) }
    {
        if rr.ttl == 0 && self.rr.same(rr) {
            return true;
        }
        rr.flush
            && self.rr.owner.folded_eq(&rr.owner)
            && self.rr.rdata.kind() == rr.rdata.kind()
            && self.heard.ms() < now.ms().saturating_sub(1000)
    }

    /// Whether at least half of its TTL is left at a moment. (RFC 6762 7.1)
    pub fn is_half_fresh(&self, now: Moment) -> bool
        ensures { result ≡ is_half_fresh now self.now }
    {
        // Half of a second is 500 ms.
        500 * u64::from(self.rr.ttl) <= self.end.saturating_sub(now.ms())
    }
}

/// Drops the held records that are the same as this one.
pub fn drop_same(held: &mut Vec<Held>, rr: &Rr)
    ensures items { held.new.items ≡ filter (is_other rr.now) held.old.items }
    ensures len { vec_len held.new ≤ vec_len held.old }
    ensures capacity { vec_capacity held.new ≡ vec_capacity held.old }
{
    held.retain(|one| !one.rr.same(rr));
}
