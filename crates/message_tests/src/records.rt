// Rows of records and their types.

use bytes::Bytes;
use dns_record::{Key, Rdata, RecordError, Rr, matches, rdata_cmp, read_kind, record_cmp};
use row_words::{
    RowError, Told, first_word, hex_of, name_of, quoted, record, two_parts, two_sides,
};
use std::alloc::AllocError;

/// `record ..`: what a text is read as, types, how two records stand to each other, and which a question asks for.
pub fn record_row(told: &mut Told, row: &str) -> Result<(), RowError> {
    match first_word(row) {
        ("read", text) => put_read(told, quoted(text)),
        ("type", text) => put_type(told, quoted(text)),
        ("compare", rest) => put_order(told, rest),
        ("asked", rest) => put_asked(told, rest),
        ("raw", rest) => put_raw(told, rest),
        _ => Err(RowError::NotUnderstood),
    }
}

// `read TEXT`: the record as it is written. Its copy is the same and is written so, too.
fn put_read(told: &mut Told, text: &str) -> Result<(), RowError> {
    match Rr::parse_text(told.alloc, text) {
        Ok(rr) => put_with_copy(told, &rr),
        Err(RecordError::BadText) => told.put("bad text"),
        Err(RecordError::NoMemory) => Err(RowError::NoMemory(AllocError)),
    }
}

fn put_with_copy(told: &mut Told, rr: &Rr) -> Result<(), RowError> {
    let text = rr.write_text(told.alloc)?;
    told.text.extend_from_slice(text.as_slice())?;
    let copy = rr.copy()?;
    let copied = copy.write_text(told.alloc)?;
    let is_same = copy.same(rr) && copied.as_slice() == text.as_slice();
    told.put(if is_same { "" } else { ", not so its copy" })
}

// `type TEXT`: the number of the type, and the text of that number.
fn put_type(told: &mut Told, text: &str) -> Result<(), RowError> {
    let Some(kind) = read_kind(text.as_bytes()) else {
        return told.put("none");
    };
    told.put_decimal(u64::from(kind))?;
    told.put(" ")?;
    told.put_kind(kind)
}

// `compare LEFT | RIGHT`: their order; they are equal exactly where they are the same.
fn put_order(told: &mut Told, rest: &str) -> Result<(), RowError> {
    let (left, right) = two_sides(rest)?;
    let left = record(told.alloc, left)?;
    let right = record(told.alloc, right)?;
    told.put_standing(record_cmp(&left, &right), left.same(&right))
}

// `asked NAME NUMBER | RECORD`: whether a question for the name and the type asks for the record. Its copy does the same.
fn put_asked(told: &mut Told, rest: &str) -> Result<(), RowError> {
    let (question, text) = two_sides(rest)?;
    let rr = record(told.alloc, text)?;
    let key = key_of(question)?;
    let word = match (matches(&key, &rr), matches(&key.copy(), &rr)) {
        (true, true) => "yes",
        (false, false) => "no",
        _ => "not so its copy",
    };
    told.put(word)
}

/// The question for a name and the number of a type.
pub fn key_of(question: &str) -> Result<Key, RowError> {
    let (name, kind) = two_parts(question)?;
    Ok(Key {
        name: name_of(name)?,
        kind: kind.parse::<u16>()?,
    })
}

// `raw NUMBER BYTES`: whether these are data of a type without a form of its own, and their order to TXT data of no bytes.
fn put_raw(told: &mut Told, rest: &str) -> Result<(), RowError> {
    let (kind, bytes) = two_parts(rest)?;
    let raw = Rdata::Raw {
        kind: kind.parse::<u16>()?,
        bytes: Bytes::from_vec(hex_of(told.alloc, bytes)?)?,
    };
    told.put(if raw.is_valid() {
        "good form, "
    } else {
        "bad form, "
    })?;
    told.put_order(rdata_cmp(&raw, &Rdata::Txt(Bytes::new())))
}
