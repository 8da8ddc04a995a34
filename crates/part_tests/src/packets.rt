// Rows of a packet's questions, and of the records that they ask for. (RFC 6762 6)

use dns_record::Question;
use mdns_asked::Asked;
use row_words::{RowError, Told, key, records};
use std::alloc::Global;

// The key of the names.
const KEY: u64 = 7;

/// A row of a packet: `new` has its questions, `put` records, of which each question is given those that match it, and `of` a question, of
/// which the records are told, or that it isn't asked.
pub fn packet_row(told: &mut Told, asked: &mut Asked, row: &[&str]) -> Result<(), RowError> {
    match row {
        ["new", questions] => {
            *asked = asked_by(told.alloc, *questions)?;
            told.put("done")
        }
        ["put", heard] => {
            asked.put_all(&records(told.alloc, *heard)?)?;
            told.put("done")
        }
        ["of", text] => tell_records(told, asked, &question(*text)?),
        _ => Err(RowError::NotUnderstood),
    }
}

// What questions with a plus between each two ask for.
fn asked_by(alloc: Global, text: &str) -> Result<Asked, RowError> {
    let mut questions = Vec::new(alloc);
    for one in text.split(" + ") {
        questions.push(question(one)?)?;
    }
    Ok(Asked::new(alloc, KEY, &questions)?)
}

// A question, for a unicast answer where that stands behind it.
fn question(text: &str) -> Result<Question, RowError> {
    let (asked, unicast) = match text.strip_suffix(" unicast") {
        Some(asked) => (asked, true),
        None => (text, false),
    };
    let key = key(asked)?;
    Ok(Question {
        name: key.name,
        kind: key.kind,
        unicast,
    })
}

fn tell_records(told: &mut Told, asked: &Asked, question: &Question) -> Result<(), RowError> {
    match asked.records(question) {
        Some(rrs) => told.put_records(rrs),
        None => told.put("not asked"),
    }
}
