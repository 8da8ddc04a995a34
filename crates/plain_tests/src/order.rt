// Rows on lists in order: `plain_history`.
use crate::row_error::RowError;
use crate::words::put_word;
use dns_record::{Key, Rr};
use plain_history::{ordered_keys, ordered_records, sorted_records};
use std::alloc::Global;

/// `records`, `sorted` or `keys` and records, `RECORD; RECORD ..`: their owners and TTLs in order, or the names of their keys.
pub fn row(alloc: Global, text: &str) -> Result<String, RowError> {
    match text.split_once(' ') {
        Some(("records", rest)) => owners(alloc, ordered_records(records(alloc, rest)?)?),
        Some(("sorted", rest)) => owners(alloc, sorted_records(alloc, records(alloc, rest)?)?),
        Some(("keys", rest)) => keys(alloc, records(alloc, rest)?),
        _ => Err(RowError::NotUnderstood),
    }
}

fn records(alloc: Global, text: &str) -> Result<Vec<Rr>, RowError> {
    let mut records = Vec::new(alloc);
    for record in text.split("; ") {
        records.push(Rr::parse_text(alloc, record)?)?;
    }
    Ok(records)
}

// The owner and the TTL of each record.
fn owners(alloc: Global, records: Vec<Rr>) -> Result<String, RowError> {
    let mut told = String::new(alloc);
    for rr in records {
        put_word(&mut told, rr.owner.write_text().as_str())?;
        put_word(&mut told, rr.ttl.to_string(alloc)?.as_str())?;
    }
    Ok(told)
}

// The name of each key, in order.
fn keys(alloc: Global, records: Vec<Rr>) -> Result<String, RowError> {
    let mut keys = Vec::new(alloc);
    for rr in records {
        keys.push(Key {
            name: rr.owner,
            kind: 1,
        })?;
    }
    let mut told = String::new(alloc);
    for key in ordered_keys(keys)? {
        put_word(&mut told, key.name.write_text().as_str())?;
    }
    Ok(told)
}
