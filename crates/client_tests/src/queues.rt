// Rows of a session's queue.
use bytes::Bytes;
use dns_record::Rdata;
use row_words::{RowError, number, word, yes_or_no};
use sd_call::{Answer, Item, Verb};
use sd_outbox::*;
use std::alloc::{AllocError, Global};

/// `queue take` and others: a call on the queue.
pub fn row(alloc: Global, queue: &mut Outbox, words: &[&str]) -> Result<String, RowError> {
    match words {
        ["new"] => renew_row(alloc, queue),
        ["reserve", more] => reserve_row(alloc, queue, more),
        ["cut"] => {
            queue.cut();
            word(alloc, "done")
        }
        ["append", ..] => append_row(alloc, queue, words),
        _ => look_row(alloc, queue, words),
    }
}

fn renew_row(alloc: Global, queue: &mut Outbox) -> Result<String, RowError> {
    *queue = Outbox::new(alloc);
    word(alloc, "done")
}

fn reserve_row(alloc: Global, queue: &mut Outbox, more: &str) -> Result<String, RowError> {
    queue.reserve(number(more)?)?;
    word(alloc, "done")
}

// An item behind what is queued: a reply, a conflict, or data of so many bytes, which may be queued several times.
fn append_row(alloc: Global, queue: &mut Outbox, words: &[&str]) -> Result<String, RowError> {
    match words {
        ["append", "reply"] => append_reply(alloc, queue),
        ["append", "conflict", op] => append_conflict(alloc, queue, number(op)?),
        ["append", "data", len] => append_data(alloc, queue, len, "1"),
        ["append", "data", len, times] => append_data(alloc, queue, len, times),
        _ => Err(RowError::NotUnderstood),
    }
}

// Data of so many bytes, so many times; what came of the last.
fn append_data(
    alloc: Global,
    queue: &mut Outbox,
    len: &str,
    times: &str,
) -> Result<String, RowError> {
    let len = number(len)?;
    let mut told = word(alloc, "none")?;
    for _ in 0..number::<u16>(times)? {
        told = append(alloc, queue, datum(alloc, len)?)?;
    }
    Ok(told)
}

fn append(alloc: Global, queue: &mut Outbox, item: Item) -> Result<String, RowError> {
    match queue.append(item) {
        Ok(()) => word(alloc, "done"),
        Err(AppendError::Cut) => word(alloc, "cut"),
        Err(AppendError::NoMemory) => Err(RowError::NoMemory(AllocError)),
    }
}

fn append_reply(alloc: Global, queue: &mut Outbox) -> Result<String, RowError> {
    let reply = Item::Reply {
        op: 1,
        verb: Verb::Start,
        code: 0,
    };
    append(alloc, queue, reply)
}

fn append_conflict(alloc: Global, queue: &mut Outbox, op: u32) -> Result<String, RowError> {
    let answer = Answer::Conflict;
    append(alloc, queue, Item::Add { op, answer })
}

// An item for operation 1 with so many bytes of data, and 12 more in its frame.
fn datum(alloc: Global, len: usize) -> Result<Item, AllocError> {
    let mut bytes = Vec::new(alloc);
    bytes.resize(len, 7)?;
    let rdata = Rdata::Txt(Bytes::from_vec(bytes)?);
    Ok(Item::Add {
        op: 1,
        answer: Answer::Datum { rdata },
    })
}

fn look_row(alloc: Global, queue: &mut Outbox, words: &[&str]) -> Result<String, RowError> {
    match words {
        ["take"] => taken_text(alloc, queue.take()),
        ["bytes"] => Ok(queue.bytes().to_string(alloc)?),
        ["count"] => Ok(queue.len().to_string(alloc)?),
        ["is", "empty"] => yes_or_no(alloc, queue.is_empty()),
        ["is", "cut"] => yes_or_no(alloc, queue.is_cut()),
        ["codes"] => codes_row(alloc),
        _ => Err(RowError::NotUnderstood),
    }
}

// The operation of an item that was taken.
fn taken_text(alloc: Global, taken: Taken) -> Result<String, RowError> {
    match taken {
        Taken::One(Item::Reply { op, .. } | Item::Add { op, .. } | Item::Remove { op, .. }) => {
            Ok(op.to_string(alloc)?)
        }
        Taken::Empty => word(alloc, "empty"),
        Taken::Cut => word(alloc, "cut"),
    }
}

fn codes_row(alloc: Global) -> Result<String, RowError> {
    let cut = AppendError::Cut as u8;
    let memory = AppendError::NoMemory as u8;
    Ok(format!(in alloc; "{cut} {memory}")?)
}
