// What the words of a row spell.

use mdns_happened::When;
use mdns_history::{Held, SharedRr, SharedRrs, put_shared};
use row_words::{RowError, milliseconds, moment, number, record, records};
use std::alloc::Global;

/// When an event comes: its moment, in ms, and its random word.
pub fn when(now: &str, word: &str) -> Result<When, RowError> {
    Ok(When::new(moment(now)?, number(word)?))
}

/// A held record: its text, and the moments at which it was heard and at which it ends.
pub fn held(alloc: Global, text: &str) -> Result<Held, RowError> {
    let (text, life) = text.split_once(" from ").ok_or(RowError::NotUnderstood)?;
    let (heard, end) = life.split_once(" to ").ok_or(RowError::NotUnderstood)?;
    Ok(Held {
        rr: SharedRr::new(alloc, record(alloc, text)?)?,
        heard: moment(heard)?,
        word: 0,
        end: milliseconds(end)?,
    })
}

/// Held records with a plus between each two; `-` is none.
pub fn all_held(alloc: Global, text: &str) -> Result<Vec<Held>, RowError> {
    let mut all = Vec::new(alloc);
    if text == "-" {
        return Ok(all);
    }
    for one in text.split(" + ") {
        all.push(held(alloc, one)?)?;
    }
    Ok(all)
}

/// Records as they are heard.
pub fn shared(alloc: Global, text: &str) -> Result<SharedRrs, RowError> {
    let mut heard = Vec::new(alloc);
    put_shared(alloc, &mut heard, &records(alloc, text)?)?;
    Ok(SharedRrs::from_vec(heard))
}

/// The records of a packet, and when they are heard.
#[derive(Drop)]
pub struct Packet {
    pub when: When,
    pub heard: SharedRrs,
}

impl Packet {
    /// A packet of a moment, a random word and records.
    pub fn read(alloc: Global, now: &str, word: &str, heard: &str) -> Result<Packet, RowError> {
        Ok(Packet {
            when: when(now, word)?,
            heard: shared(alloc, heard)?,
        })
    }
}
