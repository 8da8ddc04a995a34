// The places of the questions that an event concerns: no other question is looked at.
ghost use Rattle.std.specs.Prelude.{◌≡◌, ℕ, ◌+◌, ◌&&◌, ◌||◌, List, [], is_some, nat_le, OnOk, IfOk};
ghost use Rattle.std.specs.List.{Contains, list_any};
ghost use Rattle.std.specs.List.Sorted.{IsNonDecreasing};
ghost use Rattle.dns_name.specs.Names.{folded_eq};
ghost use Rattle.mdns_cache.specs.Ended.{is_among};
ghost use Rattle.mdns_history.specs.Asking.{asks_openly};
ghost use Rattle.mdns_happened.specs.Told.{told_by};
ghost use Rattle.mdns_happened.specs.Walks.{is_walked};
ghost use Rattle.mdns_question.specs.Refreshing.{cause_of};
ghost use Rattle.mdns_asking.specs.Walked.{may_be_asked, may_stand_for};
ghost use Rattle.mdns_asking.specs.Places.{ArePut, is_near};

use crate::message::{asks_openly, may_be_ours};
use dns_name::Name;
use dns_record::Question;
use mdns_base::Moment;
use mdns_happened::{Happened, Heard, Walk, When};
use mdns_question::{Asker, Tracked};
use std::alloc::{AllocError, Global};

/// Places of questions, counted from 0, in whatever order; one may be there more than once.
#[derive(Drop)]
pub struct Places {
    places: Vec<usize>,
}

/// The places of the questions that are touched, or that an event may ask. Refused only for want of memory.
pub fn touched_places(
    alloc: Global,
    asker: &Asker,
    when: When,
    happened: &Happened<'_>,
    touched: &[Name],
) -> Result<Places, AllocError>
    ensures { IfOk result (λ places. ArePut (λ one. is_among touched.now one.key.name || may_be_asked (told_by happened.now) when.moment one) asker.now.questions [] places.places.items) }
{
    let mut places = Places::new(alloc);
    places.put_names(asker, touched)?;
    places.put_maybe_asked(asker, when, happened)?;
    Ok(places)
}

/// The places of the questions that an event may ask, in their order: by what is kept of them, and once time has passed by the walks of
/// their names. Refused only for want of memory.
pub fn near_places(
    alloc: Global,
    asker: &Asker,
    when: When,
    happened: &Happened<'_>,
    walks: &[Walk],
) -> Result<Vec<usize>, AllocError>
    ensures places { IfOk result (λ places. ArePut (is_near (told_by happened.now) when.moment walks.now) asker.now.questions [] places.items) }
    ensures order { IfOk result (λ places. IsNonDecreasing places.items) }
{
    let mut places = Places::new(alloc);
    places.put_near(asker, when, happened, walks)?;
    Ok(places.in_order())
}

impl Places {
    /// No places.
    pub fn new(alloc: Global) -> Places
        ensures { result.places.items ≡ [] }
    {
        Places {
            places: Vec::new(alloc),
        }
    }

    /// The places.
    pub fn as_slice(&self) -> &[usize]
        ensures { result.now ≡ self.now.places.items }
    {
        self.places.as_slice()
    }

    /// The places from the first one on.
    pub fn in_order(self) -> Vec<usize>
        ensures order { IsNonDecreasing result.items }
        ensures kept { (place : ℕ) → Contains self.places.items place → Contains result.items place }
        ensures only { (place : ℕ) → Contains result.items place → Contains self.places.items place }
    {
        let mut places = self.places;
        places.sort_unstable();
        places
    }

    // Puts the places of the questions of names.
    fn put_names(&mut self, asker: &Asker, names: &[Name]) -> Result<(), AllocError>
        ensures { OnOk result (ArePut (λ one. is_among names.now one.key.name) asker.now.questions self.old.places.items self.new.places.items) }
    {
        let mut near = 0;
        for name in names {
            near = self.put_name(asker, name, near)?;
        }
        Ok(())
    }

    // Puts the places of the questions of walked names.
    fn put_walks(&mut self, asker: &Asker, walks: &[Walk]) -> Result<(), AllocError>
        ensures { OnOk result (ArePut (λ one. is_walked walks.now one.key.name) asker.now.questions self.old.places.items self.new.places.items) }
    {
        let mut near = 0;
        for walk in walks {
            near = self.put_name(asker, &walk.name, near)?;
        }
        Ok(())
    }

    // Puts the places of the questions of a name, and gives the place behind the last. They are found at once from a place near them:
    // mostly names come in the order of their questions.
    fn put_name(&mut self, asker: &Asker, name: &Name, near: usize) -> Result<usize, AllocError>
        ensures { OnOk result (ArePut (λ one. folded_eq name.now one.key.name) asker.now.questions self.old.places.items self.new.places.items) }
    {
        let (first, end) = asker.places_near(name, near);
        for place in first..end {
            self.places.push(place)?;
        }
        Ok(end)
    }

    // Puts the places of the questions that an event may ask, by what is kept of them, and once time has passed by walks.
    fn put_near(
        &mut self,
        asker: &Asker,
        when: When,
        happened: &Happened<'_>,
        walks: &[Walk],
    ) -> Result<(), AllocError>
        ensures { OnOk result (ArePut (is_near (told_by happened.now) when.moment walks.now) asker.now.questions self.old.places.items self.new.places.items) }
    {
        self.put_maybe_asked(asker, when, happened)?;
        if is_tick(happened) {
            self.put_walks(asker, walks)?;
        }
        Ok(())
    }

    // Puts the places of the questions that an event may ask, by what is kept of them.
    fn put_maybe_asked(
        &mut self,
        asker: &Asker,
        when: When,
        happened: &Happened<'_>,
    ) -> Result<(), AllocError>
        ensures { OnOk result (ArePut (may_be_asked (told_by happened.now) when.moment) asker.now.questions self.old.places.items self.new.places.items) }
    {
        match happened {
            Happened::Ticked => self.put_due(asker, when.at()),
            Happened::Heard(heard) => self.put_heard(asker, when, heard),
            _ => Ok(()),
        }
    }

    // Puts the places of the questions that are due by what is kept of them.
    fn put_due(&mut self, asker: &Asker, now: Moment) -> Result<(), AllocError>
        ensures { OnOk result (ArePut (λ one. is_some (cause_of now one)) asker.now.questions self.old.places.items self.new.places.items) }
    {
        let questions = asker.questions();
        let mut from = 0;
        while let Some(place) = asker.next_due(from, now) {
            prove!(place < questions.len());
            self.places.push(place)?;
            from = place + 1;
        }
        Ok(())
    }

    // Puts the places of the questions for which a message may stand.
    fn put_heard(&mut self, asker: &Asker, when: When, heard: &Heard<'_>) -> Result<(), AllocError>
        ensures { OnOk result (ArePut (may_stand_for when.moment (record { from = heard.now.from.now; message = heard.now.message })) asker.now.questions self.old.places.items self.new.places.items) }
    {
        if may_be_ours(heard) {
            let all_asked = heard.message.questions.as_slice();
            self.put_all_asked(asker, all_asked, when.moment + 1000)?;
        }
        Ok(())
    }

    // Puts the places of the questions that are asked for a multicast answer, and due by a moment in their series.
    fn put_all_asked(
        &mut self,
        asker: &Asker,
        all_asked: &[Question],
        until: u64,
    ) -> Result<(), AllocError>
        ensures { OnOk result (ArePut (λ one. list_any (λ asked. asks_openly one.key asked && nat_le one.next until) all_asked.now) asker.now.questions self.old.places.items self.new.places.items) }
    {
        for asked in all_asked {
            self.put_asked(asker, asked, until)?;
        }
        Ok(())
    }

    // The same of one that is asked.
    fn put_asked(&mut self, asker: &Asker, asked: &Question, until: u64) -> Result<(), AllocError>
        ensures { OnOk result (ArePut (λ one. asks_openly one.key asked.now && nat_le one.next until) asker.now.questions self.old.places.items self.new.places.items) }
    {
        let (first, end) = asker.places_of(&asked.name);
        let questions = asker.questions();
        for place in first..end {
            if is_asked(&questions[place], asked, until) {
                self.places.push(place)?;
            }
        }
        Ok(())
    }
}

// Whether time has passed.
fn is_tick(happened: &Happened<'_>) -> bool
    ensures { result ≡ (told_by happened.now).ticks }
{
    matches!(happened, Happened::Ticked)
}

// Whether a question is asked for a multicast answer, and due by a moment in its series.
fn is_asked(one: &Tracked, asked: &Question, until: u64) -> bool
    ensures { result ≡ (asks_openly one.now.key asked.now && nat_le one.now.next until) }
{
    asks_openly(&one.key, asked) && one.next <= until
}
