// Rows of requests over known records: the questions that each asks, and the answers that it has.

use bytes::Bytes;
use dns_record::{Key, Rr};
use mdns_base::Moment;
use mdns_history::{Held, SharedRr};
use row_words::{RowError, Told, name_of, number, record};
use sd_answer::{Answers, KnownRecords, answers_of, questions_of};
use sd_call::{Request, Text, put_answer, well_formed};
use std::alloc::Global;

/// The records that are known.
#[derive(Drop)]
pub struct Known {
    held: Vec<Held>,
    own: Vec<Rr>,
}

impl Known {
    /// No records.
    pub fn new(alloc: Global) -> Known {
        Known {
            held: Vec::new(alloc),
            own: Vec::new(alloc),
        }
    }

    /// A row of answers: `held` and `own` have one record more that is known; every other row is a request, of which the questions are
    /// told, and behind a bar the answers.
    pub fn row(&mut self, told: &mut Told, row: &[&str]) -> Result<(), RowError> {
        match row {
            ["new"] => {
                *self = Known::new(told.alloc);
                told.put("done")
            }
            ["held", text] => self.put_held(told, record(told.alloc, *text)?),
            ["own", text] => self.put_own(told, record(told.alloc, *text)?),
            _ => self.answer(told, &request(told.alloc, row)?),
        }
    }

    fn put_held(&mut self, told: &mut Told, rr: Rr) -> Result<(), RowError> {
        self.held.push(Held {
            rr: SharedRr::new(told.alloc, rr)?,
            heard: Moment::default(),
            word: 0,
            end: 0,
        })?;
        told.put("done")
    }

    fn put_own(&mut self, told: &mut Told, rr: Rr) -> Result<(), RowError> {
        self.own.push(rr)?;
        told.put("done")
    }

    fn answer(&self, told: &mut Told, request: &Request) -> Result<(), RowError> {
        let alloc = told.alloc;
        if !well_formed(request) {
            return Err(RowError::NotUnderstood);
        }
        let questions = questions_of(request);
        let known = KnownRecords {
            held: &self.held,
            own: &self.own,
        };
        let answers = answers_of(alloc, request, questions.as_slice(), &known)?;
        put_questions(told, questions.as_slice())?;
        told.put(" | ")?;
        put_answers(told, &answers)
    }
}

fn put_questions(told: &mut Told, questions: &[Key]) -> Result<(), RowError> {
    for (place, question) in questions.iter().enumerate() {
        told.put_plus(place)?;
        told.put_name(&question.name)?;
        told.put(" ")?;
        told.put_kind(question.kind)?;
    }
    told.put_none(questions.is_empty())
}

fn put_answers(told: &mut Told, answers: &Answers) -> Result<(), RowError> {
    for (place, answer) in answers.as_slice().iter().enumerate() {
        told.put_plus(place)?;
        put_answer(&mut told.text, answer)?;
    }
    told.put_none(answers.as_slice().is_empty())
}

fn request(alloc: Global, row: &[&str]) -> Result<Request, RowError> {
    match row {
        ["query", kind, name] => query(*kind, *name),
        ["address", families, name] => address(*families, *name),
        ["browse", regtype] => browse(alloc, *regtype),
        ["resolve", label, regtype] => resolve(alloc, *label, *regtype),
        ["register", label, regtype, port] => register(alloc, *label, *regtype, *port),
        ["update"] => Ok(Request::Update { txt: Bytes::new() }),
        ["stop"] => Ok(Request::Stop),
        _ => Err(RowError::NotUnderstood),
    }
}

fn query(kind: &str, name: &str) -> Result<Request, RowError> {
    Ok(Request::Query {
        kind: number(kind)?,
        name: name_of(name)?,
    })
}

fn address(families: &str, name: &str) -> Result<Request, RowError> {
    Ok(Request::Address {
        families: number(families)?,
        name: name_of(name)?,
    })
}

fn browse(alloc: Global, regtype: &str) -> Result<Request, RowError> {
    Ok(Request::Browse {
        regtype: text(alloc, regtype)?,
    })
}

fn resolve(alloc: Global, label: &str, regtype: &str) -> Result<Request, RowError> {
    Ok(Request::Resolve {
        label: text(alloc, label)?,
        regtype: text(alloc, regtype)?,
    })
}

fn register(alloc: Global, label: &str, regtype: &str, port: &str) -> Result<Request, RowError> {
    Ok(Request::Register {
        label: text(alloc, label)?,
        regtype: text(alloc, regtype)?,
        port: number(port)?,
        norename: false,
        txt: Bytes::new(),
    })
}

fn text(alloc: Global, text: &str) -> Result<Text, RowError> {
    Text::new(alloc, text)?.ok_or(RowError::NotUnderstood)
}
