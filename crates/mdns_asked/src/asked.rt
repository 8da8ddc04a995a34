// The records that questions ask for.
ghost use Rattle.std.specs.Prelude.{◌≡◌, [], ◌∷◌, IfOk, OnOk};
ghost use Rattle.std.specs.Option.{option_copied};
ghost use Rattle.dns_record.specs.declared.record.Question.{Question};
ghost use Rattle.by_name.specs.At.{at_eq};
ghost use Rattle.mdns_asked.specs.Asked.{any_for, place_of, records_of, AreOf, IsPut, with_one};

use by_name::{KeyedState, Place};
use dns_message::Rrs;
use dns_name::Name;
use dns_record::{Question, Rr, kinds};
use indexmap::IndexMap;
use std::alloc::{AllocError, Global};
use std::marker::Model;

/// The records of each question, by its folded name and its type.
type Lists = IndexMap<Place, Rrs, KeyedState>;

/// The records that questions ask for: of each question those that match it, of all that are put. They are found by one look-up,
/// however many questions there are.
#[derive(Drop)]
pub struct Asked {
    lists: Lists,
}

impl Model for Asked {
    ghost use Rattle.mdns_asked.specs.Asked.{Contents};

    ghost Value = { Contents };

    ghost view = { λ a. a.lists.entries };
}

impl Asked {
    /// What these questions ask for, of which there are no records yet. Names can't be chosen to collide by who doesn't know the key.
    /// Refused only for want of memory.
    pub fn new(alloc: Global, key: u64, questions: &[Question]) -> Result<Asked, AllocError>
        ensures { IfOk result (λ asked. AreOf questions.now [] asked) }
    {
        let mut lists = IndexMap::with_hasher(alloc, KeyedState::new(key));
        for question in questions {
            lists.insert(asked_at(question), Rrs::new(alloc))?;
        }
        Ok(Asked { lists })
    }

    /// Puts records behind those that each question has: of each the ones that match it, in their order. A record costs two look-ups at
    /// most, and is copied only where it is asked for. Refused only for want of memory.
    pub fn put_all(&mut self, rrs: &[Rr]) -> Result<(), AllocError>
        ensures { OnOk result (IsPut rrs.now self.old self.new) }
    {
        for rr in rrs {
            put(&mut self.lists, rr)?;
        }
        Ok(())
    }

    /// The records of a question, in the order in which they were put; `None` where it isn't one of those that are asked.
    pub fn records(&self, question: &Question) -> Option<&[Rr]>
        ensures { option_copied result ≡ records_of question.now self.now }
    {
        self.lists
            .get(&asked_at(question))
            .map(|rrs| rrs.as_slice())
    }
}

/// The question for all records of a name.
pub fn any_for(name: &Name) -> Question
    ensures { result ≡ any_for name.now }
{
    Question {
        name: name.copy(),
        kind: kinds::ANY,
        unicast: false,
    }
}

// Where a question's records stand.
fn asked_at(question: &Question) -> Place
    ensures { result ≡ place_of question.now }
{
    Place::new(&question.name, usize::from(question.kind))
}

// Puts a record behind those of the questions that it matches: the one of any type, and the one of its type.
fn put(lists: &mut Lists, rr: &Rr) -> Result<(), AllocError>
    ensures { OnOk result (IsPut (rr.now ∷ []) lists.old.entries lists.new.entries) }
{
    let kind = rr.rdata.kind();
    let mut place = Place::new(&rr.owner, usize::from(kinds::ANY));
    put_at(lists, &place, rr)?;
    if kind != kinds::ANY {
        place.go(usize::from(kind));
        put_at(lists, &place, rr)?;
    }
    Ok(())
}

// Puts a record behind those of the question at a place, if it is asked.
fn put_at(lists: &mut Lists, place: &Place, rr: &Rr) -> Result<(), AllocError>
    ensures { OnOk result ((question : Question) → records_of question lists.new.entries ≡ with_one (at_eq place.now (place_of question)) rr.now (records_of question lists.old.entries)) }
{
    if let Some(rrs) = lists.get_mut(place) {
        rrs.push(rr.copy()?)?;
    }
    Ok(())
}
