// Rows of last multicasts. (RFC 6762 5.4 and 6)

use bytes::Bytes;
use dns_message::{Message, Questions, Rrs};
use dns_record::{Rdata, Rr};
use mdns_base::{Dest, Moment};
use mdns_history::Sent;
use mdns_reply::{Lasts, multicasts};
use row_words::{RowError, Told, milliseconds, moment, name_of, number, record};
use std::alloc::Global;

/// A row of last multicasts: `send` multicasts a record in a response, `update` multicasts so many updates of a TXT record a second apart,
/// and tells whether the most that were kept lie between two numbers. The other rows ask when a record was multicast, and whether that
/// is long ago, and how many are kept.
pub fn last_row(told: &mut Told, lasts: &mut Lasts, row: &[&str]) -> Result<(), RowError> {
    match row {
        ["new"] => {
            *lasts = Lasts::new(told.alloc, 1);
            told.put("done")
        }
        ["send", now, rr] => send(told, lasts, number(*now)?, record(told.alloc, *rr)?),
        ["update", count, least, greatest] => {
            let most = update(told.alloc, lasts, number(*count)?)? as u64;
            let (least, greatest) = (milliseconds(*least)?, milliseconds(*greatest)?);
            told.put_yes(least < most && most < greatest)
        }
        _ => last_look(told, lasts, row),
    }
}

// Multicasts a record; how many were multicast.
fn send(told: &mut Told, lasts: &mut Lasts, now: u32, rr: Rr) -> Result<(), RowError> {
    let sent = [response(told.alloc, rr)?];
    let made = multicasts(told.alloc, &sent)?;
    told.put_count("", made.as_slice().len())?;
    note(lasts, now, made)
}

// A row that changes nothing.
fn last_look(told: &mut Told, lasts: &Lasts, row: &[&str]) -> Result<(), RowError> {
    match row {
        ["empty"] => told.put_yes(lasts.is_empty()),
        ["kept", count] => told.put_yes(lasts.len() as u64 == milliseconds(*count)?),
        ["of", rr] => {
            let rr = record(told.alloc, *rr)?;
            told.put_number(lasts.last(&rr).map(|last| last.ms()))
        }
        [asked, now, rr] => {
            let rr = record(told.alloc, *rr)?;
            told.put_yes(is_so(lasts, *asked, moment(*now)?, &rr)?)
        }
        _ => Err(RowError::NotUnderstood),
    }
}

// Whether a record is free to be multicast, or to defend its name, or was multicast of late.
fn is_so(lasts: &Lasts, asked: &str, now: Moment, rr: &Rr) -> Result<bool, RowError> {
    match asked {
        "free" => Ok(lasts.is_free(rr, now)),
        "defend" => Ok(lasts.is_free_to_defend(rr, now)),
        "recent" => Ok(lasts.is_recent(rr, now)),
        _ => Err(RowError::NotUnderstood),
    }
}

// Takes room for what is multicast, and notes it.
fn note(lasts: &mut Lasts, now: u32, sent: Rrs) -> Result<(), RowError> {
    lasts.reserve(&sent)?;
    lasts.apply(Moment::at_most_last(u64::from(now)), sent);
    Ok(())
}

// Multicasts so many updates of a TXT record, a second apart; how many moments were kept at most.
fn update(alloc: Global, lasts: &mut Lasts, count: u32) -> Result<usize, RowError> {
    let mut most = 0;
    for second in 0..count {
        let mut sent = Rrs::new(alloc);
        sent.push(txt(alloc, second)?)?;
        note(lasts, second.saturating_mul(1000), sent)?;
        most = most.max(lasts.len());
    }
    Ok(most)
}

// A TXT record with four bytes of data that count.
fn txt(alloc: Global, number: u32) -> Result<Rr, RowError> {
    Ok(Rr {
        owner: name_of("a.local")?,
        flush: true,
        ttl: 4500,
        rdata: Rdata::Txt(Bytes::copy_from_slice(alloc, &number.to_be_bytes())?),
    })
}

// A response to all with one answer.
fn response(alloc: Global, answer: Rr) -> Result<Sent, RowError> {
    let mut answers = Rrs::new(alloc);
    answers.push(answer)?;
    Ok(Sent {
        to: Dest::All,
        message: Message {
            id: 0,
            response: true,
            authoritative: true,
            truncated: false,
            opcode: 0,
            rcode: 0,
            questions: Questions::new(alloc),
            answers,
            authority: Rrs::new(alloc),
            additional: Rrs::new(alloc),
        },
    })
}
