// Rows of a question's askings: its series, and the refreshes of a record that answers it. (RFC 6762 5.2)

use crate::causes::put_cause;
use crate::read::{held, when};
use dns_record::Key;
use mdns_base::Moment;
use mdns_happened::When;
use mdns_history::{Cause, Held};
use mdns_question::{Asker, first_refresh};
use row_words::{RowError, Told, key, moment, number};
use std::alloc::Global;

/// The questions, and the records that are held.
#[derive(Drop)]
pub struct Asked {
    asker: Asker,
    held: Vec<Held>,
}

impl Asked {
    /// No questions and no records.
    pub fn new(alloc: Global) -> Asked {
        Asked {
            asker: Asker::new(alloc),
            held: Vec::new(alloc),
        }
    }

    /// A row of questions: `start` and `stop` give a question a user and take one from it, `ask` asks what is due at a moment, `hold` has
    /// the one record that is held, and `forget` drops what a question was told of it.
    pub fn row(&mut self, told: &mut Told, row: &[&str]) -> Result<(), RowError> {
        match row {
            ["new"] => self.renew(told),
            ["reserve", more] => self.reserve(told, *more),
            ["start", now, word, question] => self.start(told, when(*now, *word)?, *question),
            ["stop", question] => told.put_yes(self.asker.stop(&key(*question)?)),
            ["hold", record] => self.hold(told, *record),
            ["forget", question] => self.forget(told, *question),
            ["ask", now] => self.ask(told, number(*now)?),
            _ => self.look(told, row),
        }
    }

    fn renew(&mut self, told: &mut Told) -> Result<(), RowError> {
        *self = Asked::new(told.alloc);
        told.put("done")
    }

    fn reserve(&mut self, told: &mut Told, more: &str) -> Result<(), RowError> {
        self.asker.reserve(number::<u32>(more)? as usize)?;
        told.put("done")
    }

    fn start(&mut self, told: &mut Told, when: When, question: &str) -> Result<(), RowError> {
        self.asker.start(when.at(), when.word, &key(question)?)?;
        told.put("done")
    }

    fn forget(&mut self, told: &mut Told, question: &str) -> Result<(), RowError> {
        self.asker.tell(&key(question)?, None);
        told.put("done")
    }

    // A row that changes nothing.
    fn look(&self, told: &mut Told, row: &[&str]) -> Result<(), RowError> {
        let alloc = told.alloc;
        match row {
            ["next"] => told.put_number(self.asker.first_due()),
            ["due", now] => {
                let due = self.asker.due_by_kept(alloc, moment(*now)?)?;
                told.put_count("", due.len())
            }
            ["count"] => told.put_count("", self.asker.questions().len()),
            ["first"] => self.tell_first(told),
            _ => Err(RowError::NotUnderstood),
        }
    }

    // Another record is held in place of those before.
    fn hold(&mut self, told: &mut Told, text: &str) -> Result<(), RowError> {
        let alloc = told.alloc;
        self.held = Vec::new(alloc);
        self.held.push(held(alloc, text)?)?;
        self.tell_refresh()?;
        told.put("done")
    }

    // Tells the first question the first refresh of the held records.
    fn tell_refresh(&mut self) -> Result<(), RowError> {
        let one = self
            .asker
            .questions()
            .first()
            .ok_or(RowError::NotUnderstood)?;
        let (key, point) = (one.key.copy(), first_refresh(one, &self.held));
        self.asker.tell(&key, point);
        Ok(())
    }

    // When the first question is due, and why each that is due at a moment is asked then.
    fn ask(&mut self, told: &mut Told, now: u32) -> Result<(), RowError> {
        let alloc = told.alloc;
        told.put("due ")?;
        told.put_number(self.asker.first_due())?;
        told.put(", asked ")?;
        let due = self
            .asker
            .due_by_kept(alloc, Moment::at_most_last(u64::from(now)))?;
        for (place, one) in due.iter().enumerate() {
            told.put_plus(place)?;
            put_cause(told, one.1)?;
            note(&mut self.asker, now, &one.0, one.1);
        }
        self.tell_refresh()
    }

    // The first question as it is spelled, how many users it has, and when it is next due in its series.
    fn tell_first(&self, told: &mut Told) -> Result<(), RowError> {
        let one = self
            .asker
            .questions()
            .first()
            .ok_or(RowError::NotUnderstood)?;
        told.put_name(&one.key.name)?;
        told.put(", users ")?;
        told.put_decimal(one.users)?;
        told.put(", next ")?;
        told.put_decimal(one.next)
    }
}

fn note(asker: &mut Asker, now: u32, question: &Key, cause: Cause) {
    asker.asked(Moment::at_most_last(u64::from(now)), question, cause);
}
