// A heard query that is owed something.
ghost use Rattle.std.specs.Prelude.{◌≡◌, ◌++◌, ◌<◌, ◌≤◌, ◌^◌, map, not, filter, nat_le, IfOk};
ghost use Rattle.std.specs.List.{list_all};
ghost use Rattle.lists.specs.Lists.{least, ordered};
ghost use Rattle.mdns_claims.specs.Owned.{is_ours};
ghost use Rattle.mdns_debts.specs.Queries.{is_to_all, records_for};
ghost use Rattle.mdns_debts.specs.Following.{has_owed, leaves, left_by, moment_of};
ghost use Rattle.mdns_owing.specs.Owing.{last_in, news_in};

use crate::marks::Marks;
use crate::news::News;
use crate::owed::Owed;
use crate::terms::Terms;
use dns_message::Questions;
use dns_record::Rr;
use mdns_base::{Host, Moment};
use mdns_claims::Claims;
use mdns_reply::Lasts;
use mdns_timer::Timed;
use std::marker::Model;

/// A heard query with what it is owed still. A reply to another port than 5353 repeats its ID and its questions. (RFC 6762 6.7)
#[derive(Drop)]
pub struct Query {
    terms: Terms,
    id: u16,
    questions: Questions,
    owed: Vec<Owed>,
    // The marks of what it is owed, and maybe of what it was.
    marks: Marks,
}

impl Model for Query {
    ghost use Rattle.std.specs.List.{All};
    ghost use Rattle.mdns_debts.specs.Queries.{Query};
    ghost use Rattle.mdns_owing.specs.Marks.{HasMark};

    ghost Value = { Query };

    ghost view = { λ q. record {
      from = q.terms.from;
      id = q.id;
      questions = q.questions;
      truncated = q.terms.truncated;
      probing = q.terms.probing;
      due = q.terms.due;
      owed = q.owed.items;
    } };

    ghost invariant = { λ q. All (λ owed. HasMark q.marks.bits owed.0) q.owed.items };
}

impl Query {
    /// A query that is owed this.
    pub fn new(terms: Terms, id: u16, questions: Questions, owed: Vec<Owed>) -> Query
        ensures { result ≡ record { from = terms.from; id = id; questions = questions; truncated = terms.truncated; probing = terms.probing; due = terms.due; owed = owed.items } }
    {
        let marks = Marks::of_owed(&owed);
        Query {
            terms,
            id,
            questions,
            owed,
            marks,
        }
    }

    /// Who asked.
    pub fn from(&self) -> &Host
        ensures { result.now ≡ self.now.from }
    {
        &self.terms.from
    }

    /// The ID of its message.
    pub fn id(&self) -> u16
        ensures { result ≡ self.now.id }
    {
        self.id
    }

    /// Its questions.
    pub fn questions(&self) -> &Questions
        ensures { result.now ≡ self.now.questions }
    {
        &self.questions
    }

    /// What it is owed.
    pub fn owed(&self) -> &[Owed]
        ensures { result.now ≡ self.now.owed }
    {
        self.owed.as_slice()
    }

    /// Whether it had authority records, as a probe has.
    pub fn is_probing(&self) -> bool
        ensures { result ≡ self.now.probing }
    {
        self.terms.probing
    }

    /// Whether what it is owed is due at `now`, in ms.
    pub fn is_due(&self, now: Moment) -> bool
        ensures { result ≡ nat_le self.now.due now }
    {
        self.terms.due <= now.ms()
    }

    /// The moment, in ms, from which on what it is owed is due.
    pub fn due(&self) -> u64
        ensures { result ≡ self.now.due }
    {
        self.terms.due
    }

    /// Whether it is owed something.
    pub fn has_owed(&self) -> bool
        ensures { result ≡ has_owed self.now }
    {
        !self.owed.is_empty()
    }

    /// Drops what an event takes back or meets, and tells whether it is owed something still. It takes no memory.
    pub fn follow(&mut self, news: &News<'_>) -> bool
        ensures left { self.new ≡ left_by (leaves (news_in news.now)) self.old }
        ensures owed { result ≡ has_owed self.new }
    {
        let terms = self.terms;
        self.owed.retain(|owed| news.leaves(&terms, owed));
        !self.owed.is_empty()
    }

    /// The same, but nothing that is owed is looked at where the event passes over the query.
    pub fn follow_or_pass(&mut self, news: &News<'_>) -> bool
        ensures left { self.new ≡ left_by (leaves (news_in news.now)) self.old }
        ensures owed { result ≡ has_owed self.new }
    {
        if news.passes_over(&self.terms, self.marks) {
            return !self.owed.is_empty();
        }
        self.follow(news)
    }

    /// Drops what is no more the daemon's to send, and tells whether it is owed something still. It takes no memory.
    pub fn keep_ours(&mut self, claims: &Claims) -> bool
        ensures left { self.new ≡ left_by (λ query owed. is_ours claims.now.contents.kept owed.0) self.old }
        ensures owed { result ≡ has_owed self.new }
    {
        self.owed.retain(|owed| claims.is_ours(&owed.rr));
        !self.owed.is_empty()
    }

    /// The first moment, in ms, from which on some of what it is owed may be sent: what goes to all has to wait behind the record's last
    /// multicast. `None` exactly where it is owed nothing. (RFC 6762 6)
    pub fn next_due(&self, lasts: &Lasts) -> Option<u64>
        ensures { result ≡ least (map (moment_of (last_in lasts.now.lasts) self.now) self.now.owed) }
    {
        let (first, rest) = self.owed.split_first()?;
        let mut due = self.moment_of(lasts, first);
        for owed in rest {
            due = due.min(self.moment_of(lasts, owed));
        }
        Some(due)
    }

    // The moment from which on something that it is owed may be sent.
    fn moment_of(&self, lasts: &Lasts, owed: &Owed) -> u64
        ensures { result ≡ moment_of (last_in lasts.now.lasts) self.now owed.now }
    {
        if !owed.is_to_all() {
            self.terms.due
        } else if self.terms.probing {
            self.terms.due.max(lasts.free_to_defend_from(&owed.rr))
        } else {
            self.terms.due.max(lasts.free_from(&owed.rr))
        }
    }
}

impl Timed for Query {
    ghost moment = { λ query. query.due };

    fn due_at(&self) -> u64 {
        self.terms.due
    }
}
