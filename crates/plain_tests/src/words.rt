// Words of rows.
use crate::row_error::RowError;
use dns_name::Name;
use mdns_base::Moment;
use std::alloc::{AllocError, Global};

/// A number of 32 bits.
pub fn number(word: &str) -> Result<u32, RowError> {
    match word.parse::<u32>() {
        Ok(number) => Ok(number),
        Err(_) => Err(RowError::NotUnderstood),
    }
}

/// A moment, of so many ms.
pub fn moment_of(word: &str) -> Result<Moment, RowError> {
    let ms = number(word)?;
    Ok(Moment::new(u64::from(ms)))
}

/// A name.
pub fn name(word: &str) -> Result<Name, RowError> {
    match Name::parse_text(word) {
        Ok(name) => Ok(name),
        Err(_) => Err(RowError::NotUnderstood),
    }
}

/// A number as an answer.
pub fn count(alloc: Global, number: usize) -> Result<String, RowError> {
    Ok(number.to_string(alloc)?)
}

/// `yes` or `no`.
pub fn yes_or_no(alloc: Global, holds: bool) -> Result<String, RowError> {
    let word = if holds { "yes" } else { "no" };
    Ok(word.to_string(alloc)?)
}

/// Adds a word to an answer of several.
pub fn put_word(told: &mut String, word: &str) -> Result<(), AllocError> {
    if !told.is_empty() {
        told.push(' ')?;
    }
    told.push_str(word)
}

/// An answer of several words; `none` where there is no word.
pub fn or_none(alloc: Global, told: String) -> Result<String, RowError> {
    if told.is_empty() {
        return Ok("none".to_string(alloc)?);
    }
    Ok(told)
}

/// Several numbers as an answer.
pub fn numbers(alloc: Global, several: &[u64]) -> Result<String, RowError> {
    let mut told = String::new(alloc);
    for number in several {
        put_word(&mut told, number.to_string(alloc)?.as_str())?;
    }
    or_none(alloc, told)
}
