// Rows of queries and replies that are packed: what each of their messages holds and how long it is. A small letter is the
// name of that label under `local`, a capital has a label of 63 bytes. A record is such a letter and the length of its TXT
// data, as `h12`.

use crate::packets::written;
use crate::records::key_of;
use bytes::Bytes;
use dns_message::{Message, Rrs};
use dns_name::Name;
use dns_record::{Key, Question, Rdata, Rr};
use mdns_pack::{Messages, Wanting, pack_legacy, pack_plain, pack_query, pack_reply};
use row_words::{RowError, Told, first_word, name_of, record, two_sides};
use std::alloc::Global;

/// `pack ..`: the messages of a query, of replies, of goodbyes, and of a reply in the old way.
pub fn pack_row(told: &mut Told, row: &str) -> Result<(), RowError> {
    match first_word(row) {
        ("query", rest) => put_query(told, rest),
        ("reply", rest) => put_reply(told, rest),
        ("goodbye", rest) => put_goodbye(told, rest),
        ("legacy", rest) => put_legacy(told, rest),
        ("ttl", rest) => put_ttl(told, rest),
        ("asked", rest) => put_asked(told, rest),
        ("answered", rest) => put_answered(told, rest),
        _ => Err(RowError::NotUnderstood),
    }
}

// `query LETTERS RECORD ..`: a query for any records of these names, with these known answers. For each message whether more
// follows, how many questions and answers it has, and its length.
fn put_query(told: &mut Told, rest: &str) -> Result<(), RowError> {
    let (letters, records) = first_word(rest);
    let keys = keys_of(told.alloc, letters)?;
    let known = Rrs::from_vec(records_of(told.alloc, records)?);
    let messages = pack_query(told.alloc, keys.as_slice(), &known)?;
    put_none(told, &messages)?;
    for (place, message) in messages.as_slice().iter().enumerate() {
        told.put_comma(place)?;
        put_counts(told, message)?;
    }
    Ok(())
}

// `reply RECORD,WANTED,.. ..`: replies with these answers, each with the additional records that it wants. For each reply the
// lengths of its answers' data, `a`, and of its additional records' data, `x`, and its own.
fn put_reply(told: &mut Told, rest: &str) -> Result<(), RowError> {
    let mut wantings = Vec::new(told.alloc);
    for word in rest.split_whitespace() {
        wantings.push(wanting_of(told.alloc, word)?)?;
    }
    put_replies(told, &pack_reply(told.alloc, wantings.as_slice())?)
}

// `goodbye RECORD ..`: the same of records that are taken back, without additional ones.
fn put_goodbye(told: &mut Told, rest: &str) -> Result<(), RowError> {
    let mut goodbyes = records_of(told.alloc, rest)?;
    for rr in goodbyes.iter_mut() {
        rr.ttl = 0;
    }
    put_replies(told, &pack_plain(told.alloc, goodbyes.as_slice())?)
}

// `legacy LETTERS RECORD ..`: the reply in the old way to questions for these names, told as a query is; the mark says that
// something was left out.
fn put_legacy(told: &mut Told, rest: &str) -> Result<(), RowError> {
    let (letters, records) = first_word(rest);
    let mut questions = Vec::new(told.alloc);
    for key in keys_of(told.alloc, letters)? {
        questions.push(Question {
            name: key.name,
            kind: 16,
            unicast: true,
        })?;
    }
    let records = records_of(told.alloc, records)?;
    let message = pack_legacy(told.alloc, 0xabcd, questions.as_slice(), records.as_slice())?;
    put_counts(told, &message)
}

// `ttl SECONDS`: the seconds for which a resolver may keep a record of this TTL.
fn put_ttl(told: &mut Told, seconds: &str) -> Result<(), RowError> {
    let mut rr = of_letter(told.alloc, 'h', 1)?;
    rr.ttl = seconds.parse::<u32>()?;
    let message = pack_legacy(told.alloc, 7, &[], &[rr])?;
    match message.answers.as_slice() {
        [answer] => told.put_decimal(u64::from(answer.ttl)),
        _ => told.put("not one answer"),
    }
}

// `asked NAME NUMBER | RECORD`: the bytes of the query for this name and type that lists the record.
fn put_asked(told: &mut Told, rest: &str) -> Result<(), RowError> {
    let (question, text) = two_sides(rest)?;
    let mut known = Rrs::new(told.alloc);
    known.push(record(told.alloc, text)?)?;
    let messages = pack_query(told.alloc, &[key_of(question)?], &known)?;
    for (place, message) in messages.as_slice().iter().enumerate() {
        told.put_comma(place)?;
        put_written(told, message)?;
    }
    Ok(())
}

// `answered NAME NUMBER | RECORD`: the bytes of the reply to a resolver that asks so with the ID 7.
fn put_answered(told: &mut Told, rest: &str) -> Result<(), RowError> {
    let (question, text) = two_sides(rest)?;
    let Key { name, kind } = key_of(question)?;
    let question = Question {
        name,
        kind,
        unicast: true,
    };
    let message = pack_legacy(told.alloc, 7, &[question], &[record(told.alloc, text)?])?;
    put_written(told, &message)
}

fn put_written(told: &mut Told, message: &Message) -> Result<(), RowError> {
    match written(told.alloc, message, 1440)? {
        Some(bytes) => told.put_hex(bytes.as_slice()),
        None => told.put("too long"),
    }
}

// `none`, where there are no messages.
fn put_none(told: &mut Told, messages: &Messages) -> Result<(), RowError> {
    told.put(if messages.as_slice().is_empty() {
        "none"
    } else {
        ""
    })
}

fn put_length(told: &mut Told, message: &Message) -> Result<(), RowError> {
    match written(told.alloc, message, 8972)? {
        Some(bytes) => told.put_decimal(bytes.as_slice().len() as u64),
        None => told.put("too long"),
    }
}

fn put_counts(told: &mut Told, message: &Message) -> Result<(), RowError> {
    told.put(if message.truncated { "tc " } else { "- " })?;
    told.put_decimal(message.questions.as_slice().len() as u64)?;
    told.put(" ")?;
    told.put_decimal(message.answers.as_slice().len() as u64)?;
    told.put(" ")?;
    put_length(told, message)
}

fn put_replies(told: &mut Told, messages: &Messages) -> Result<(), RowError> {
    put_none(told, messages)?;
    for (place, message) in messages.as_slice().iter().enumerate() {
        told.put_comma(place)?;
        put_lengths(told, "a", message.answers.as_slice())?;
        put_lengths(told, "x", message.additional.as_slice())?;
        put_length(told, message)?;
    }
    Ok(())
}

// The lengths of records' data, each behind a letter.
fn put_lengths(told: &mut Told, letter: &str, rrs: &[Rr]) -> Result<(), RowError> {
    for rr in rrs {
        if let Rdata::Txt(bytes) = &rr.rdata {
            told.put(letter)?;
            told.put_decimal(bytes.as_slice().len() as u64)?;
            told.put(" ")?;
        }
    }
    Ok(())
}

// The questions for any records of these letters' names; `-` has none.
fn keys_of(alloc: Global, letters: &str) -> Result<Vec<Key>, RowError> {
    let mut keys = Vec::new(alloc);
    for letter in letters.chars() {
        if letter != '-' {
            keys.push(Key {
                name: letter_name(alloc, letter)?,
                kind: 255,
            })?;
        }
    }
    Ok(keys)
}

fn records_of(alloc: Global, words: &str) -> Result<Vec<Rr>, RowError> {
    let mut records = Vec::new(alloc);
    for word in words.split_whitespace() {
        records.push(of_word(alloc, word)?)?;
    }
    Ok(records)
}

// The answer of a word's first part, which wants the records of the other parts.
fn wanting_of(alloc: Global, word: &str) -> Result<Wanting, RowError> {
    let (answer, others) = word.split_once(',').unwrap_or((word, ""));
    let mut wanted = Rrs::new(alloc);
    for other in others.split(',').filter(|other| !other.is_empty()) {
        wanted.push(of_word(alloc, other)?)?;
    }
    Ok(Wanting::new(of_word(alloc, answer)?, wanted))
}

// The record of a letter and the length of its data.
fn of_word(alloc: Global, word: &str) -> Result<Rr, RowError> {
    let mut letters = word.chars();
    let letter = letters.next().ok_or(RowError::NotUnderstood)?;
    of_letter(alloc, letter, letters.as_str().parse::<usize>()?)
}

fn of_letter(alloc: Global, letter: char, length: usize) -> Result<Rr, RowError> {
    Ok(Rr {
        owner: letter_name(alloc, letter)?,
        flush: false,
        ttl: 60,
        rdata: Rdata::Txt(Bytes::from_vec(vec![in alloc; 0u8; length]?)?),
    })
}

fn letter_name(alloc: Global, letter: char) -> Result<Name, RowError> {
    let mut text = String::new(alloc);
    if letter.is_ascii_uppercase() {
        for _ in 0..62 {
            text.push('x')?;
        }
    }
    text.push(letter)?;
    text.push_str(".local")?;
    name_of(text.as_str())
}
