// What the words of a row spell.

use crate::error::RowError;
use dns_name::Name;
use dns_record::{Key, Rr};
use mdns_base::Moment;
use number_text::read_hex;
use std::alloc::Global;
use std::num::ParseIntError;
use std::str::FromStr;

/// The number that a word is.
pub fn number<N: FromStr<Err = ParseIntError>>(word: &str) -> Result<N, RowError> {
    Ok(word.parse::<N>()?)
}

/// So many milliseconds, below 2^32.
pub fn milliseconds(word: &str) -> Result<u64, RowError> {
    Ok(u64::from(number::<u32>(word)?))
}

/// A moment, below 2^32 ms.
pub fn moment(word: &str) -> Result<Moment, RowError> {
    Ok(Moment::at_most_last(milliseconds(word)?))
}

/// The bytes that stand in a row as hexadecimal digits.
pub fn hex_of(alloc: Global, part: &str) -> Result<Vec<u8>, RowError> {
    read_hex(alloc, part.as_bytes())?.ok_or(RowError::NotUnderstood)
}

/// The name that stands in a row.
pub fn name_of(part: &str) -> Result<Name, RowError> {
    Ok(Name::parse_text(part)?)
}

/// The number of a type and a name: what a question asks for.
pub fn key(text: &str) -> Result<Key, RowError> {
    let (kind, name) = text.split_once(' ').ok_or(RowError::NotUnderstood)?;
    Ok(Key {
        name: name_of(name)?,
        kind: number(kind)?,
    })
}

/// A record.
pub fn record(alloc: Global, text: &str) -> Result<Rr, RowError> {
    Ok(Rr::parse_text(alloc, text)?)
}

/// Records with a plus between each two; `-` is none.
pub fn records(alloc: Global, text: &str) -> Result<Vec<Rr>, RowError> {
    let mut records = Vec::new(alloc);
    if text == "-" {
        return Ok(records);
    }
    for one in text.split(" + ") {
        records.push(record(alloc, one)?)?;
    }
    Ok(records)
}
