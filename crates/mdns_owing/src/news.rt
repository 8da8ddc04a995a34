// What an event tells the queries that are owed something.
ghost use Rattle.std.specs.Prelude.{◌≡◌, nat_le, true, ◌&&◌, IsTrue};
ghost use Rattle.std.specs.List.{list_any};
ghost use Rattle.dns_record.specs.Records.{same};
ghost use Rattle.mdns_base.specs.Hosts.{host_eq};
ghost use Rattle.mdns_history.specs.Debts.{Owed};
ghost use Rattle.mdns_history.specs.Hearings.{counted_records, query_of};
ghost use Rattle.mdns_debts.specs.Following.{strikes, meets, leaves};
ghost use Rattle.mdns_owing.specs.Marks.{HasMark};
ghost use Rattle.mdns_owing.specs.Owing.{news_in, query_of_terms, MeetsDueAlone};

use crate::marks::Marks;
use crate::multicasts::Multicasts;
use crate::owed::Owed;
use crate::terms::Terms;
use dns_record::Rr;
use mdns_base::Host;
use mdns_happened::{Happened, When};
use mdns_known::is_struck;

/// What an event tells the queries that are owed something: when it comes, what happened, and what is multicast with it.
#[derive(Drop)]
pub struct News<'a> {
    pub when: When,
    pub happened: &'a Happened<'a>,
    pub multicasts: &'a Multicasts,
}

impl News<'_> {
    /// Whether the event leaves what a query is owed: it neither takes it back nor meets it. (RFC 6762 6, 7.2 and 7.4)
    pub fn leaves(&self, query: &Terms, owed: &Owed) -> bool
        ensures { result ≡ leaves (news_in self.now) (query_of_terms query.now) owed.now }
    {
        !self.strikes(query, owed) && !self.meets(query, owed)
    }

    /// Whether time has passed and nothing is multicast: then only what is due and goes to its asker is met.
    pub fn meets_due_alone(&self) -> bool
        ensures { IsTrue result → MeetsDueAlone (news_in self.now) }
    {
        self.is_tick() && self.multicasts.as_rrs().as_slice().is_empty()
    }

    /// Whether the event leaves all that a query is owed whose marks are these, as is soon told: time has passed, but the query isn't due, and
    /// nothing with such a mark is multicast.
    pub(crate) fn passes_over(&self, query: &Terms, marks: Marks) -> bool
        ensures { IsTrue result → (owed : Owed) → HasMark marks.bits owed.0 → leaves (news_in self.now) (query_of_terms query.now) owed ≡ true }
    {
        self.is_tick() && self.when.moment < query.due && self.multicasts.are_apart(marks)
    }

    // Whether the event is a query of the same host that takes back what is owed: more was to follow the earlier query, and this one lists
    // the record as known. (RFC 6762 7.2)
    fn strikes(&self, query: &Terms, owed: &Owed) -> bool
        ensures { result ≡ strikes (query_of_terms query.now) owed.now (query_of (news_in self.now).heard) }
    {
        let happened = self.happened;
        match happened {
            Happened::Heard(heard) if !heard.message.response => {
                query.truncated
                    && is_same_host(&query.from, heard.from)
                    && is_struck(heard.message.answers.as_slice(), &owed.rr)
            }
            _ => false,
        }
    }

    // Whether the event meets what is owed: what goes to all is met where it is multicast, by us or with no lower TTL by another; what goes to
    // the asker by the tick that sends it. (RFC 6762 6 and 7.4)
    fn meets(&self, query: &Terms, owed: &Owed) -> bool
        ensures { result ≡ meets (news_in self.now) (query_of_terms query.now) owed.now }
    {
        if owed.is_to_all() {
            self.multicasts.has(&owed.rr) || self.is_said(&owed.rr)
        } else {
            self.is_tick() && query.due <= self.when.moment
        }
    }

    // Whether another host says a record with no lower TTL.
    fn is_said(&self, rr: &Rr) -> bool
        ensures { result ≡ list_any (λ one. same rr.now one && nat_le rr.now.ttl one.ttl) (counted_records (news_in self.now).heard) }
    {
        let happened = self.happened;
        match happened {
            Happened::Heard(heard) if heard.message.response => {
                says(heard.message.answers.as_slice(), rr)
                    || says(heard.message.additional.as_slice(), rr)
            }
            _ => false,
        }
    }

    fn is_tick(&self) -> bool
        ensures { result ≡ (news_in self.now).tick }
    {
        let happened = self.happened;
        matches!(happened, Happened::Ticked)
    }
}

// Whether records have one that is the same and has no lower TTL.
fn says(records: &[Rr], rr: &Rr) -> bool
    ensures { result ≡ list_any (λ one. same rr.now one && nat_le rr.now.ttl one.ttl) records.now }
{
    records.iter().any(|one| rr.same(one) && rr.ttl <= one.ttl)
}

fn is_same_host(left: &Host, right: &Host) -> bool
    ensures { result ≡ host_eq left.now right.now }
{
    left.ip == right.ip && left.port == right.port
}
