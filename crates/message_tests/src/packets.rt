// Rows of messages that are written.

use crate::messages::message_of;
use bytes::Bytes;
use dns_message::{Message, WriteError, write};
use row_words::{RowError, Told, hex_of, two_parts};
use std::alloc::{AllocError, Global};

/// What a message is written as, `None` where that passes the limit, which is at most 8972. Want of memory is passed on.
pub fn written(alloc: Global, message: &Message, limit: usize) -> Result<Option<Bytes>, RowError> {
    if limit > 8972 {
        return Err(RowError::NotUnderstood);
    }
    match write(alloc, message, limit) {
        Ok(bytes) => Ok(Some(bytes)),
        Err(WriteError::TooLong) => Ok(None),
        Err(WriteError::NoMemory) => Err(RowError::NoMemory(AllocError)),
    }
}

// What the message of a packet is written as.
fn rewritten(alloc: Global, bytes: &[u8], limit: usize) -> Result<Option<Bytes>, RowError> {
    match message_of(alloc, bytes)? {
        Ok(message) => written(alloc, &message, limit),
        Err(_) => Err(RowError::NotUnderstood),
    }
}

/// `rewrite LIMIT BYTES`: what the message of a packet is written as.
pub fn put_rewritten(told: &mut Told, rest: &str) -> Result<(), RowError> {
    let (limit, digits) = two_parts(rest)?;
    let bytes = hex_of(told.alloc, digits)?;
    match rewritten(told.alloc, bytes.as_slice(), limit.parse::<usize>()?)? {
        None => told.put("too long"),
        Some(found) if found.as_slice() == bytes.as_slice() => told.put("the same"),
        Some(found) => told.put_hex(found.as_slice()),
    }
}

/// `filled SIZE LIMIT`: the length of a packet of that size, and that of what its message is written as.
pub fn put_filled(told: &mut Told, rest: &str) -> Result<(), RowError> {
    let (size, limit) = two_parts(rest)?;
    let bytes = filled(told.alloc, size.parse::<u16>()?)?;
    told.put_decimal(bytes.len() as u64)?;
    match rewritten(told.alloc, bytes.as_slice(), limit.parse::<usize>()?)? {
        None => told.put(", too long"),
        Some(found) => {
            told.put(", ")?;
            told.put_decimal(found.as_slice().len() as u64)
        }
    }
}

// A packet of so many bytes: a TXT record that fills it, and an SRV record whose target is a pointer to a label of one
// byte. The target is written whole, which takes a byte more.
fn filled(alloc: Global, size: u16) -> Result<Vec<u8>, RowError> {
    let text = size.saturating_sub(45);
    let mut bytes = hex_of(alloc, "0000840000000002000000000178000010000100000000")?;
    bytes.extend_from_slice(&text.to_be_bytes())?;
    for _ in 0..text {
        bytes.push(0)?;
    }
    let srv = hex_of(alloc, "c00c00210001000000000008000000000000c00c")?;
    bytes.extend_from_slice(srv.as_slice())?;
    Ok(bytes)
}

/// `faults write`: the number and the words of each.
pub fn put_write_faults(told: &mut Told) -> Result<(), RowError> {
    let faults = [
        (WriteError::TooLong, "too long"),
        (WriteError::NoMemory, "no memory"),
    ];
    for (place, (fault, words)) in faults.iter().enumerate() {
        told.put_comma(place)?;
        told.put_numbered(*fault as u8, words)?;
    }
    Ok(())
}
