// The query that is heard, with what it is owed.
ghost use Rattle.std.specs.Prelude.{◌≡◌, ◌+◌, ◌∷◌, [], nat_lt, length, filter, IfOk, OnOk};
ghost use Rattle.std.specs.List.{list_all, flat_map};
ghost use Rattle.std.specs.Option.{option_to_list};
ghost use Rattle.dns_name.specs.Names.{folded_eq};
ghost use Rattle.dns_record.specs.Records.{matches};
ghost use Rattle.indexmap.specs.IndexSet.{insert_all};
ghost use Rattle.mdns_asked.specs.Asked.{any_for, key_of};
ghost use Rattle.mdns_claims.specs.Owned.{of_name, own_in, nsecs_in};
ghost use Rattle.mdns_history.specs.Debts.{owed_eq, is_unique, debt_wait};
ghost use Rattle.mdns_happened.specs.Told.{told_by};
ghost use Rattle.mdns_debts.specs.Queries.{repeated};
ghost use Rattle.mdns_debts.specs.Following.{has_owed, owed_to, owed_by, query_from, way_for};
ghost use Rattle.mdns_owing.specs.Owing.{heard_in, last_in, news_told, ours_in, owed_for, unstruck_for, query_told};
ghost use Rattle.mdns_owing.specs.Asked.{asked_as, own_found};

use crate::found::Found;
use crate::listed::Listed;
use crate::owed::Owed;
use crate::query::Query;
use crate::terms::Terms;
use by_name::{KeyedState, Place};
use dns_message::{Questions, Rrs};
use dns_name::Name;
use dns_record::{Question, Rr, kinds};
use indexmap::IndexSet;
use mdns_base::{Dest, MDNS_PORT, Moment};
use mdns_claims::Claims;
use mdns_happened::{Happened, Heard, When};
use mdns_reply::Lasts;
use std::alloc::{AllocError, Global};

/// For so many questions the groups are gone over one by one; for more, what all of them ask for is collected first.
const FEW: usize = 8;

/// What a query is answered from: the names that the daemon claims, and when it last multicast records.
#[derive(Drop)]
pub struct Ours<'a> {
    pub alloc: Global,
    pub key: u64,
    pub claims: &'a Claims,
    pub lasts: &'a Lasts,
}

impl Ours<'_> {
    /// The query that is heard with an event, with what it is owed; `None` exactly where none is heard or it is owed nothing: each
    /// question the own records that match it, or else the NSEC record of its name if that is sure, but for what the query lists as
    /// known. Refused only for want of memory. (RFC 6762 5.4, 6, 6.1, 6.7 and 7.1)
    pub fn query(&self, when: When, happened: &Happened<'_>) -> Result<Option<Query>, AllocError>
        ensures { IfOk result (λ query. option_to_list query ≡ query_told self.now.claims.now.contents.kept self.now.lasts.now.lasts (told_by happened.now) when.moment when.word) }
    {
        match happened {
            Happened::Heard(heard) if !heard.message.response => self.query_from(when, heard),
            _ => Ok(None),
        }
    }

    // The query that a host asks, if it is owed something.
    fn query_from(&self, when: When, heard: &Heard<'_>) -> Result<Option<Query>, AllocError>
        ensures { IfOk result (λ query. option_to_list query ≡ filter has_owed (query_from (ours_in self.now.claims.now.contents.kept) (last_in self.now.lasts.now.lasts) (news_told (told_by (Happened.Heard heard.now)) when.moment when.word []) (heard_in heard.now) ∷ [])) }
    {
        let owed = self.owed(when.at(), heard)?;
        if owed.is_empty() {
            return Ok(None);
        }
        let terms = terms(when, heard, are_unique(&owed));
        let questions = repeated(self.alloc, heard)?;
        Ok(Some(Query::new(terms, heard.message.id, questions, owed)))
    }

    // What a query is owed, each record and way once.
    fn owed(&self, now: Moment, heard: &Heard<'_>) -> Result<Vec<Owed>, AllocError>
        ensures { IfOk result (λ owed. owed.items ≡ owed_by (ours_in self.now.claims.now.contents.kept) (last_in self.now.lasts.now.lasts) (heard_in heard.now) now) }
    {
        let listed = Listed::new(self.alloc, self.key, heard.message.answers.as_slice())?;
        let hearing = Hearing {
            moment: now,
            heard,
            listed,
        };
        let mut owed = IndexSet::with_hasher(self.alloc, KeyedState::new(self.key));
        self.put_all_owed(&mut owed, &hearing, heard.message.questions.as_slice())?;
        in_turn(self.alloc, owed)
    }

    // Puts what questions are owed behind others, each record and way once.
    fn put_all_owed(
        &self,
        owed: &mut OwedSet,
        hearing: &Hearing<'_>,
        questions: &[Question],
    ) -> Result<(), AllocError>
        requires { hearing.now.listed ≡ hearing.now.heard.now.message.answers }
        ensures { OnOk result (owed.new.keys ≡ insert_all owed_eq owed.old.keys (flat_map (owed_for (ours_in self.now.claims.now.contents.kept) (last_in self.now.lasts.now.lasts) (heard_in hearing.now.heard.now) hearing.now.moment) questions.now)) }
    {
        if questions.len() > FEW {
            return self.put_many_owed(owed, hearing, questions);
        }
        for question in questions {
            self.put_owed(owed, hearing, question)?;
        }
        Ok(())
    }

    // The same of many questions: what they ask for is collected first. A question that is asked again is passed over.
    fn put_many_owed(
        &self,
        owed: &mut OwedSet,
        hearing: &Hearing<'_>,
        questions: &[Question],
    ) -> Result<(), AllocError>
        requires { hearing.now.listed ≡ hearing.now.heard.now.message.answers }
        ensures { OnOk result (owed.new.keys ≡ insert_all owed_eq owed.old.keys (flat_map (owed_for (ours_in self.now.claims.now.contents.kept) (last_in self.now.lasts.now.lasts) (heard_in hearing.now.heard.now) hearing.now.moment) questions.now)) }
    {
        let found = Found::new(self.alloc, self.key, self.claims, questions)?;
        let mut asked = IndexSet::with_hasher(self.alloc, KeyedState::new(self.key));
        for question in questions {
            if asked.insert(asked_as(question))? {
                self.put_found(owed, hearing, question, &found)?;
            }
        }
        Ok(())
    }

    // Puts what a question is owed behind others, each record and way once.
    fn put_owed(
        &self,
        owed: &mut OwedSet,
        hearing: &Hearing<'_>,
        question: &Question,
    ) -> Result<(), AllocError>
        requires { hearing.now.listed ≡ hearing.now.heard.now.message.answers }
        ensures { OnOk result (owed.new.keys ≡ insert_all owed_eq owed.old.keys (owed_for (ours_in self.now.claims.now.contents.kept) (last_in self.now.lasts.now.lasts) (heard_in hearing.now.heard.now) hearing.now.moment question.now)) }
    {
        let rrs = self.owed_to(question)?;
        self.put_each(owed, hearing, question, rrs)
    }

    // The same where what the question asks for was collected.
    fn put_found(
        &self,
        owed: &mut OwedSet,
        hearing: &Hearing<'_>,
        question: &Question,
        found: &Found,
    ) -> Result<(), AllocError>
        requires listed { hearing.now.listed ≡ hearing.now.heard.now.message.answers }
        requires own { own_found question.now found.now.own ≡ filter (matches (key_of question.now)) (own_in self.now.claims.now.contents.kept) }
        requires nsecs { own_found (any_for question.now.name) found.now.nsecs ≡ filter (λ rr. folded_eq rr.owner question.now.name) (nsecs_in self.now.claims.now.contents.kept) }
        ensures { OnOk result (owed.new.keys ≡ insert_all owed_eq owed.old.keys (owed_for (ours_in self.now.claims.now.contents.kept) (last_in self.now.lasts.now.lasts) (heard_in hearing.now.heard.now) hearing.now.moment question.now)) }
    {
        let own = found.own(question);
        if question.kind == kinds::ANY || !own.is_empty() {
            return self.put_copies(owed, hearing, question, own);
        }
        self.put_copies(owed, hearing, question, found.nsecs(&question.name))
    }

    // Puts those of a question's records behind others that the query doesn't list as known.
    fn put_each(
        &self,
        owed: &mut OwedSet,
        hearing: &Hearing<'_>,
        question: &Question,
        rrs: Rrs,
    ) -> Result<(), AllocError>
        requires { hearing.now.listed ≡ hearing.now.heard.now.message.answers }
        ensures { OnOk result (owed.new.keys ≡ insert_all owed_eq owed.old.keys (unstruck_for (last_in self.now.lasts.now.lasts) (heard_in hearing.now.heard.now) hearing.now.moment question.now rrs)) }
    {
        for rr in rrs.into_vec() {
            if !hearing.listed.silence(&rr) {
                let to = self.way(hearing, question, &rr);
                owed.insert(Owed { rr, to })?;
            }
        }
        Ok(())
    }

    // The same with copies of the records.
    fn put_copies(
        &self,
        owed: &mut OwedSet,
        hearing: &Hearing<'_>,
        question: &Question,
        rrs: &[Rr],
    ) -> Result<(), AllocError>
        requires { hearing.now.listed ≡ hearing.now.heard.now.message.answers }
        ensures { OnOk result (owed.new.keys ≡ insert_all owed_eq owed.old.keys (unstruck_for (last_in self.now.lasts.now.lasts) (heard_in hearing.now.heard.now) hearing.now.moment question.now rrs.now)) }
    {
        for rr in rrs {
            if !hearing.listed.silence(rr) {
                let to = self.way(hearing, question, rr);
                let rr = rr.copy()?;
                owed.insert(Owed { rr, to })?;
            }
        }
        Ok(())
    }

    // What a question is owed: the own records that match it, or else the NSEC record of its name, if that is sure.
    fn owed_to(&self, question: &Question) -> Result<Rrs, AllocError>
        ensures { IfOk result (λ rrs. rrs ≡ owed_to (ours_in self.now.claims.now.contents.kept) question.now) }
    {
        let own = self.own_for(question)?;
        if question.kind == kinds::ANY || !own.as_slice().is_empty() {
            return Ok(own);
        }
        self.nsecs_of(&question.name)
    }

    // The own records that a question asks for.
    fn own_for(&self, question: &Question) -> Result<Rrs, AllocError>
        ensures { IfOk result (λ own. own ≡ filter (matches (key_of question.now)) (own_in self.now.claims.now.contents.kept)) }
    {
        let mut own = self.own_of(&question.name)?.into_vec();
        own.retain(|rr| question.kind == kinds::ANY || question.kind == rr.rdata.kind());
        Ok(Rrs::from_vec(own))
    }

    // The own records of a name.
    fn own_of(&self, name: &Name) -> Result<Rrs, AllocError>
        ensures { IfOk result (λ own. own ≡ of_name name.now (own_in self.now.claims.now.contents.kept)) }
    {
        let mut own = Rrs::new(self.alloc);
        self.claims.put_own(&mut own, name)?;
        Ok(own)
    }

    // The NSEC record of a name, if it is sure.
    fn nsecs_of(&self, name: &Name) -> Result<Rrs, AllocError>
        ensures { IfOk result (λ nsecs. nsecs ≡ filter (λ rr. folded_eq rr.owner name.now) (nsecs_in self.now.claims.now.contents.kept)) }
    {
        let mut nsecs = Rrs::new(self.alloc);
        self.claims.put_nsecs(&mut nsecs, name)?;
        Ok(nsecs)
    }

    // Where a record goes that a question is owed: to all, but to the asker where the question asks for that and the record was multicast
    // lately, and to another port than 5353. (RFC 6762 5.4 and 6.7)
    fn way(&self, hearing: &Hearing<'_>, question: &Question, rr: &Rr) -> Dest
        ensures { result ≡ way_for (last_in self.now.lasts.now.lasts) (heard_in hearing.now.heard.now) hearing.now.moment question.now rr.now }
    {
        let from = hearing.heard.from;
        let lately = question.unicast && self.lasts.is_recent(rr, hearing.moment);
        if lately || from.port != MDNS_PORT {
            Dest::One(*from)
        } else {
            Dest::All
        }
    }
}

// A query that is heard at a moment, in ms, with the answers that it lists.
#[derive(Drop)]
struct Hearing<'a> {
    moment: Moment,
    heard: &'a Heard<'a>,
    listed: Listed<'a>,
}

/// What is owed, each record and way once, in the order in which it was put.
type OwedSet = IndexSet<Owed, KeyedState>;

// A question as a key: by its folded name, its type, and whether it asks for a unicast answer.
fn asked_as(question: &Question) -> Place
    ensures { result ≡ asked_as question.now }
{
    let asked = 2 * usize::from(question.kind) + usize::from(question.unicast);
    Place::new(&question.name, asked)
}

// What a set has, in its order.
fn in_turn(alloc: Global, set: OwedSet) -> Result<Vec<Owed>, AllocError>
    ensures { IfOk result (λ owed. owed.items ≡ set.keys) }
{
    let mut owed = Vec::with_capacity(alloc, set.len())?;
    for one in set {
        owed.push(one)?;
    }
    Ok(owed)
}

// What a query says of itself, where what it is owed is of unique records alone or not. Such an answer is due at once, others wait some 20 to
// 120 ms; where more is to follow, all wait for it, some 400 to 500 ms. (RFC 6762 6 and 7.2)
fn terms(when: When, heard: &Heard<'_>, all_unique: bool) -> Terms
    ensures from { result.from ≡ heard.now.from.now }
    ensures truncated { result.truncated ≡ heard.now.message.truncated }
    ensures probing { result.probing ≡ nat_lt 0 (length heard.now.message.authority) }
    ensures due { result.due ≡ when.moment + debt_wait (heard_in heard.now) when.word all_unique }
{
    let message = &heard.message;
    let more = u64::from(when.word % 101);
    let wait = if message.truncated && heard.from.port == MDNS_PORT {
        400 + more
    } else if all_unique {
        0
    } else {
        20 + more
    };
    Terms {
        from: *heard.from,
        truncated: message.truncated,
        probing: !message.authority.as_slice().is_empty(),
        due: when.moment + wait,
    }
}

// Whether all that is owed is of unique records.
fn are_unique(owed: &[Owed]) -> bool
    ensures { result ≡ list_all (λ one. is_unique one.0) owed.now }
{
    owed.iter().all(|one| one.rr.flush)
}

// The questions that a reply repeats, which are those of a query from another port. Refused only for want of memory. (RFC 6762 6.7)
fn repeated(alloc: Global, heard: &Heard<'_>) -> Result<Questions, AllocError>
    ensures { IfOk result (λ questions. questions ≡ repeated (heard_in heard.now)) }
{
    if heard.from.port == MDNS_PORT {
        return Ok(Questions::new(alloc));
    }
    copied(alloc, heard.message.questions.as_slice())
}

// Copies of questions. Refused only for want of memory.
fn copied(alloc: Global, questions: &[Question]) -> Result<Questions, AllocError>
    ensures { IfOk result (λ copies. copies ≡ questions.now) }
{
    let mut copies = Questions::new(alloc);
    for question in questions {
        copies.push(Question {
            name: question.name.copy(),
            kind: question.kind,
            unicast: question.unicast,
        })?;
    }
    Ok(copies)
}
