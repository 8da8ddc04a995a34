// Rows of messages that are read: a line of the header, one for each question and record, or the fault.

use crate::packets::{put_filled, put_rewritten, put_write_faults};
use dns_message::{Message, MessageError, Questions, Rrs, read};
use row_words::{RowError, Told, first_word, hex_of};
use std::alloc::{AllocError, Global};

/// `message ..`: what a packet is read as, its prefixes, packets at the limits, and what a message is written as.
pub fn message_row(told: &mut Told, row: &str) -> Result<(), RowError> {
    match first_word(row) {
        ("read", digits) => put_read(told, hex_of(told.alloc, digits)?.as_slice()),
        ("prefixes", digits) => put_prefixes(told, hex_of(told.alloc, digits)?.as_slice()),
        ("labels", sizes) => put_verdict(told, with_labels(told.alloc, sizes)?.as_slice()),
        ("zeros", count) => put_verdict(told, zeros(told.alloc, count)?.as_slice()),
        ("faults", "read") => put_faults(told),
        ("faults", "write") => put_write_faults(told),
        ("rewrite", rest) => put_rewritten(told, rest),
        ("filled", rest) => put_filled(told, rest),
        _ => Err(RowError::NotUnderstood),
    }
}

/// The message that bytes spell, or why they spell none. Want of memory is passed on.
pub fn message_of(
    alloc: Global,
    bytes: &[u8],
) -> Result<Result<Message, MessageError>, AllocError> {
    match read(alloc, bytes) {
        Err(MessageError::NoMemory) => Err(AllocError),
        outcome => Ok(outcome),
    }
}

// The words of a fault.
fn fault_word(fault: MessageError) -> &'static str {
    match fault {
        MessageError::Truncated => "truncated",
        MessageError::BadPointer => "bad pointer",
        MessageError::BadLabel => "bad label",
        MessageError::LongName => "long name",
        MessageError::BadRdata => "bad data",
        MessageError::TooLong => "too long",
        MessageError::NoMemory => "no memory",
    }
}

// `read` for bytes that spell a message, or why they spell none.
fn verdict(alloc: Global, bytes: &[u8]) -> Result<&'static str, AllocError> {
    match message_of(alloc, bytes)? {
        Ok(_) => Ok("read"),
        Err(fault) => Ok(fault_word(fault)),
    }
}

fn put_verdict(told: &mut Told, bytes: &[u8]) -> Result<(), RowError> {
    told.put(verdict(told.alloc, bytes)?)
}

// `read BYTES`: the message in lines, or the fault.
fn put_read(told: &mut Told, bytes: &[u8]) -> Result<(), RowError> {
    match message_of(told.alloc, bytes)? {
        Ok(message) => put_message(told, &message),
        Err(fault) => told.put(fault_word(fault)),
    }
}

fn put_message(told: &mut Told, message: &Message) -> Result<(), RowError> {
    put_header(told, message)?;
    put_questions(told, &message.questions)?;
    put_records(told, "a", &message.answers)?;
    put_records(told, "n", &message.authority)?;
    put_records(told, "x", &message.additional)
}

// The ID, then `r` for a response, `a` for an authority, `t` where it is truncated, and the numbers of opcode and response code.
fn put_header(told: &mut Told, message: &Message) -> Result<(), RowError> {
    told.put_decimal(u64::from(message.id))?;
    told.put(" ")?;
    told.put(flag_word(message))?;
    told.put(" ")?;
    told.put_decimal(u64::from(message.opcode))?;
    told.put(" ")?;
    told.put_decimal(u64::from(message.rcode))
}

fn flag_word(message: &Message) -> &'static str {
    match (message.response, message.authoritative, message.truncated) {
        (false, false, false) => "-",
        (false, false, true) => "t",
        (false, true, false) => "a",
        (false, true, true) => "at",
        (true, false, false) => "r",
        (true, false, true) => "rt",
        (true, true, false) => "ra",
        (true, true, true) => "rat",
    }
}

fn put_questions(told: &mut Told, questions: &Questions) -> Result<(), RowError> {
    for question in questions.as_slice() {
        told.put("\n  ? ")?;
        told.put_name(&question.name)?;
        told.put(" ")?;
        told.put_kind(question.kind)?;
        told.put(if question.unicast { " qu" } else { "" })?;
    }
    Ok(())
}

fn put_records(told: &mut Told, mark: &str, rrs: &Rrs) -> Result<(), RowError> {
    for rr in rrs.as_slice() {
        told.put("\n  ")?;
        told.put(mark)?;
        told.put(" ")?;
        told.put_record(rr)?;
    }
    Ok(())
}

// `prefixes BYTES`: what comes of the first bytes, from each length on at which something else comes of them.
fn put_prefixes(told: &mut Told, bytes: &[u8]) -> Result<(), RowError> {
    let mut last = "";
    for end in 0..bytes.len() {
        let word = verdict(told.alloc, &bytes[..end])?;
        if word != last {
            told.put_comma(end)?;
            told.put_decimal(end as u64)?;
            told.put(" ")?;
            told.put(word)?;
            last = word;
        }
    }
    Ok(())
}

// `labels SIZE ..`: a message whose one question has a name of labels of these sizes.
fn with_labels(alloc: Global, sizes: &str) -> Result<Vec<u8>, RowError> {
    let mut bytes = hex_of(alloc, "000000000001000000000000")?;
    for size in sizes.split_whitespace() {
        let size = size.parse::<u8>()?;
        bytes.push(size)?;
        for _ in 0..size {
            bytes.push(b'x')?;
        }
    }
    bytes.extend_from_slice(&[0, 0, 1, 0, 1])?;
    Ok(bytes)
}

// `zeros COUNT`: so many zero bytes.
fn zeros(alloc: Global, count: &str) -> Result<Vec<u8>, RowError> {
    Ok(vec![in alloc; 0u8; count.parse::<usize>()?]?)
}

// `faults read`: the number and the words of each.
fn put_faults(told: &mut Told) -> Result<(), RowError> {
    let faults = [
        MessageError::Truncated,
        MessageError::BadPointer,
        MessageError::BadLabel,
        MessageError::LongName,
        MessageError::BadRdata,
        MessageError::TooLong,
        MessageError::NoMemory,
    ];
    for (place, fault) in faults.iter().enumerate() {
        told.put_comma(place)?;
        told.put_numbered(*fault as u8, fault_word(*fault))?;
    }
    Ok(())
}
