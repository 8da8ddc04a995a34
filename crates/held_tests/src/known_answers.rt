// Rows of held records, and of how they are listed as known answers. (RFC 6762 7.1)

use crate::read::all_held;
use bytes::Bytes;
use dns_message::Rrs;
use dns_record::{Key, Rdata, Rr};
use mdns_base::Moment;
use mdns_history::{Held, SharedRr};
use mdns_known::{all_known_answers, known_answers, suppresses};
use row_words::{RowError, Told, key, name_of, number, record};
use std::alloc::Global;

/// A row of known answers: `one` has a moment, a question and held records, `all` has several questions; the known answers are told. `long`
/// tells how many are listed of a record with so many bytes of TXT data, and `silences` whether a listed record silences an own one.
pub fn known_row(told: &mut Told, row: &[&str]) -> Result<(), RowError> {
    match row {
        ["one", now, question, held] => tell_one(told, number(*now)?, *question, *held),
        ["all", now, questions, held] => tell_all(told, number(*now)?, *questions, *held),
        ["long", size] => tell_long(told, number(*size)?),
        ["silences", listed, own] => tell_silence(told, *listed, *own),
        _ => Err(RowError::NotUnderstood),
    }
}

fn tell_one(told: &mut Told, now: u32, question: &str, held: &str) -> Result<(), RowError> {
    let held = all_held(told.alloc, held)?;
    let known = known_at(told.alloc, &key(question)?, &held, now)?;
    told.put_records(known.as_slice())
}

fn tell_all(told: &mut Told, now: u32, questions: &str, held: &str) -> Result<(), RowError> {
    let held = all_held(told.alloc, held)?;
    let questions = keys(told.alloc, questions)?;
    let known = all_known_at(told.alloc, &questions, &held, now)?;
    told.put_records(known.as_slice())
}

fn tell_silence(told: &mut Told, listed: &str, own: &str) -> Result<(), RowError> {
    let listed = record(told.alloc, listed)?;
    let own = record(told.alloc, own)?;
    told.put_yes(suppresses(&listed, &own))
}

fn keys(alloc: Global, text: &str) -> Result<Vec<Key>, RowError> {
    let mut keys = Vec::new(alloc);
    for one in text.split(" + ") {
        keys.push(key(one)?)?;
    }
    Ok(keys)
}

fn known_at(alloc: Global, question: &Key, held: &[Held], now: u32) -> Result<Rrs, RowError> {
    let now = Moment::at_most_last(u64::from(now));
    if held.iter().any(|one| one.heard.ms() > now.ms()) {
        return Err(RowError::NotUnderstood);
    }
    Ok(known_answers(alloc, question, held, now)?)
}

fn all_known_at(
    alloc: Global,
    questions: &[Key],
    held: &[Held],
    now: u32,
) -> Result<Rrs, RowError> {
    let now = Moment::at_most_last(u64::from(now));
    if held.iter().any(|one| one.heard.ms() > now.ms()) {
        return Err(RowError::NotUnderstood);
    }
    Ok(all_known_answers(alloc, questions, held, now)?)
}

// The record is heard at 0, lives for two minutes, and is asked for then.
fn tell_long(told: &mut Told, size: u32) -> Result<(), RowError> {
    let alloc = told.alloc;
    let rr = Rr {
        owner: name_of("a.local")?,
        flush: true,
        ttl: 120,
        rdata: Rdata::Txt(Bytes::from_vec(vec![in alloc; 0u8; size as usize]?)?),
    };
    let held = Held {
        rr: SharedRr::new(alloc, rr)?,
        heard: Moment::default(),
        word: 0,
        end: 120_000,
    };
    let known = known_at(alloc, &key("255 a.local")?, &[held], 0)?;
    told.put_count("", known.as_slice().len())
}
