// What many questions ask for.
ghost use Rattle.std.specs.Prelude.{◌≡◌, map, IfOk};
ghost use Rattle.mdns_asked.specs.Asked.{any_for, AreOf};
ghost use Rattle.mdns_claims.specs.Owned.{own_in, nsecs_in};
ghost use Rattle.mdns_owing.specs.Asked.{own_found};

use dns_message::Questions;
use dns_name::Name;
use dns_record::{Question, Rr};
use mdns_asked::{Asked, any_for};
use mdns_claims::Claims;
use std::alloc::{AllocError, Global};

/// What questions ask for: the own records of each, and the NSEC records of each name.
#[derive(Drop)]
pub struct Found {
    pub own: Asked,
    pub nsecs: Asked,
}

impl Found {
    /// Collects what questions ask for in two passes over all groups, however many questions there are. Refused only for want of memory.
    pub fn new(
        alloc: Global,
        key: u64,
        claims: &Claims,
        questions: &[Question],
    ) -> Result<Found, AllocError>
        ensures own { IfOk result (λ found. AreOf questions.now (own_in claims.now.contents.kept) found.own) }
        ensures nsecs { IfOk result (λ found. AreOf (map (λ question. any_for question.name) questions.now) (nsecs_in claims.now.contents.kept) found.nsecs) }
    {
        let mut own = Asked::new(alloc, key, questions)?;
        claims.put_asked(&mut own)?;
        let names = named(alloc, questions)?;
        let mut nsecs = Asked::new(alloc, key, names.as_slice())?;
        claims.put_asked_nsecs(&mut nsecs)?;
        Ok(Found { own, nsecs })
    }

    /// The own records that one of the questions asks for.
    pub fn own(&self, question: &Question) -> &[Rr]
        ensures { result.now ≡ own_found question.now self.now.own }
    {
        found_by(&self.own, question)
    }

    /// The NSEC records of the name of one of the questions.
    pub fn nsecs(&self, name: &Name) -> &[Rr]
        ensures { result.now ≡ own_found (any_for name.now) self.now.nsecs }
    {
        found_by(&self.nsecs, &any_for(name))
    }
}

// What was collected for a question.
fn found_by<'a>(asked: &'a Asked, question: &Question) -> &'a [Rr]
    ensures { result.now ≡ own_found question.now asked.now }
{
    match asked.records(question) {
        Some(rrs) => rrs,
        None => &[],
    }
}

// The questions for all records of the names of questions. Refused only for want of memory.
fn named(alloc: Global, questions: &[Question]) -> Result<Questions, AllocError>
    ensures { IfOk result (λ names. names ≡ map (λ question. any_for question.name) questions.now) }
{
    let mut names = Questions::new(alloc);
    for question in questions {
        names.push(any_for(&question.name))?;
    }
    Ok(names)
}
