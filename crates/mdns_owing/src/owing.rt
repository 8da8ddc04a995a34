// The heard queries that are owed something.
ghost use Rattle.std.specs.Prelude.{◌≡◌, ◌↔◌, ◌-◌, ◌≤◌, ◌++◌, [], map, length, filter, IsTrue, OnOk, if◌then◌else◌, vec_len, vec_capacity};
ghost use Rattle.std.specs.List.{All};
ghost use Rattle.std.specs.Option.{option_to_list};
ghost use Rattle.mdns_debts.specs.Following.{has_owed, leaves, left_by, next_reply};
ghost use Rattle.mdns_claims.specs.Owned.{is_ours};
ghost use Rattle.mdns_owing.specs.Satisfied.{IsOwed, AreTold};
ghost use Rattle.mdns_owing.specs.Owing.{followed_by, kept_ours, last_in, news_in, moments_of, AreKept, MeetsDueAlone};

use crate::first::first_due;
use crate::news::News;
use crate::query::Query;
use crate::satisfied::Satisfied;
use mdns_claims::Claims;
use mdns_reply::Lasts;
use mdns_timer::Deadlines;
use std::alloc::{AllocError, Global};
use std::marker::Model;

/// The heard queries that are owed something, in the order of hearing. Each is there until all that it is owed was sent, was said by
/// another, was taken back by its asker or is no more the daemon's to send. (RFC 6762 6 and 7)
#[derive(Drop)]
pub struct Owing {
    pub(crate) alloc: Global,
    pub(crate) queries: Vec<Query>,
    // When what each is owed is due.
    pub(crate) deadlines: Deadlines,
}

impl Model for Owing {
    ghost use Rattle.std.specs.Prelude.{◌-◌, min, vec_len, vec_capacity};
    ghost use Rattle.mdns_owing.specs.Owing.{State, AreKept};

    ghost Value = { State };

    ghost view = { λ o. record { queries = o.queries.items; spare = min (vec_capacity o.queries - vec_len o.queries) o.deadlines.spare } };

    ghost invariant = { λ o. AreKept o.queries.items o.deadlines.moments };
}

impl Owing {
    /// No query is owed anything.
    pub fn new(alloc: Global) -> Owing
        ensures { result.queries ≡ [] }
    {
        Owing {
            alloc,
            queries: Vec::new(alloc),
            deadlines: Deadlines::new(alloc),
        }
    }

    /// Whether no query is owed anything.
    pub fn is_empty(&self) -> bool
        ensures { IsTrue result ↔ (self.now.queries ≡ []) }
    {
        self.queries.is_empty()
    }

    /// The first moment, in ms, from which on some of what queries are owed may be sent; `None` exactly where none is owed anything.
    /// (RFC 6762 6)
    pub fn next_due(&self, lasts: &Lasts) -> Option<u64>
        ensures { result ≡ next_reply (last_in lasts.now.lasts) self.now.queries }
    {
        first_due(&self.queries, &self.deadlines, lasts)
    }

    /// Takes the room for a query that is heard, if one is. Nothing else changes. Refused only for want of memory.
    pub fn reserve(&mut self, come: &Option<Query>) -> Result<(), AllocError>
        ensures queries { self.new.queries ≡ self.old.queries }
        ensures room { OnOk result (length (option_to_list come.now) ≤ self.new.spare) }
    {
        if come.is_some() {
            self.queries.reserve(1)?;
            self.deadlines.reserve(1)?;
        }
        Ok(())
    }

    /// Notes an event with the query that is heard with it, if one is: what the event takes back or meets of earlier ones is owed no more.
    /// It takes no memory. (RFC 6762 6, 7.2 and 7.4)
    pub fn follow(&mut self, news: &News<'_>, come: Option<Query>)
        requires room { length (option_to_list come) ≤ self.old.spare }
        ensures { self.new.queries ≡ followed_by (news_in news.now) (option_to_list come) self.old.queries }
    {
        let satisfied = follow_all(&mut self.queries, &self.deadlines, news);
        drop_satisfied(&mut self.queries, &mut self.deadlines, satisfied);
        put(&mut self.queries, &mut self.deadlines, come);
    }

    /// Drops what is no more the daemon's to send, by what it claims now, unless all is known to be. It takes no memory.
    pub fn keep_ours(&mut self, claims: &Claims, all: bool)
        ensures { self.new.queries ≡ (if all then self.old.queries else kept_ours claims.now.contents.kept self.old.queries) }
    {
        if all {
            return;
        }
        let satisfied = keep_all_ours(&mut self.queries, claims);
        drop_satisfied(&mut self.queries, &mut self.deadlines, satisfied);
    }
}

// Puts the query that comes behind the others, if there is one that is owed something, for which there is room.
fn put(queries: &mut Vec<Query>, deadlines: &mut Deadlines, come: Option<Query>)
    requires room { length (option_to_list come) ≤ vec_capacity queries.old - vec_len queries.old }
    requires moments_room { length (option_to_list come) ≤ deadlines.old.spare }
    requires kept { AreKept queries.old.items deadlines.old.moments }
    ensures queries { queries.new.items ≡ queries.old.items ++ filter has_owed (option_to_list come) }
    ensures kept { AreKept queries.new.items deadlines.new.moments }
{
    if let Some(query) = come {
        if query.has_owed() {
            deadlines.push(query.due());
            queries.push_reserved(query);
        }
    }
}

// Drops what an event takes back or meets, and tells which queries are owed nothing then.
fn follow_all(queries: &mut [Query], deadlines: &Deadlines, news: &News<'_>) -> Satisfied
    requires { AreKept queries.old deadlines.now.moments }
    ensures left { queries.new ≡ map (left_by (leaves (news_in news.now))) queries.old }
    ensures satisfied { AreTold (length queries.new) result queries.new }
{
    if news.meets_due_alone() {
        return follow_due(queries, deadlines, news);
    }
    let mut satisfied = Satisfied::Nobody;
    for place in 0..queries.len() {
        satisfied = satisfied.with(place, queries[place].follow_or_pass(news));
    }
    satisfied
}

// The same where the event meets nothing but what is due and goes to its asker.
fn follow_due(queries: &mut [Query], deadlines: &Deadlines, news: &News<'_>) -> Satisfied
    requires kept { AreKept queries.old deadlines.now.moments }
    requires alone { MeetsDueAlone (news_in news.now) }
    ensures left { queries.new ≡ map (left_by (leaves (news_in news.now))) queries.old }
    ensures satisfied { AreTold (length queries.new) result queries.new }
{
    let now = news.when.moment;
    let mut satisfied = Satisfied::Nobody;
    let mut from = 0;
    while let Some(place) = deadlines.next_due(from, now) {
        satisfied = satisfied.with(place, queries[place].follow(news));
        from = place + 1;
    }
    satisfied
}

// Drops what is no more the daemon's to send, and tells which queries are owed nothing then.
fn keep_all_ours(queries: &mut [Query], claims: &Claims) -> Satisfied
    requires { All IsOwed queries.old }
    ensures left { queries.new ≡ map (left_by (λ query owed. is_ours claims.now.contents.kept owed.0)) queries.old }
    ensures satisfied { AreTold (length queries.new) result queries.new }
{
    let mut satisfied = Satisfied::Nobody;
    for place in 0..queries.len() {
        satisfied = satisfied.with(place, queries[place].keep_ours(claims));
    }
    satisfied
}

// Drops the queries that are owed nothing. Where it is told which one that is, no other is asked.
fn drop_satisfied(queries: &mut Vec<Query>, deadlines: &mut Deadlines, satisfied: Satisfied)
    requires timed { deadlines.old.moments ≡ moments_of queries.old.items }
    requires satisfied { AreTold (length queries.old.items) satisfied queries.old.items }
    ensures queries { queries.new.items ≡ filter has_owed queries.old.items }
    ensures kept { AreKept queries.new.items deadlines.new.moments }
    ensures room { vec_capacity queries.old - vec_len queries.old ≤ vec_capacity queries.new - vec_len queries.new }
    ensures moments_room { deadlines.old.spare ≤ deadlines.new.spare }
{
    match satisfied {
        Satisfied::Nobody => {}
        Satisfied::One(place) => {
            queries.remove(place);
            deadlines.remove(place);
        }
        Satisfied::Many => {
            queries.retain(|query| query.has_owed());
            deadlines.tell_all(queries.as_slice());
        }
    }
}
